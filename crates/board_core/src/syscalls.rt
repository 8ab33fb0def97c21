//! The system calls of a task, by the number in its r11.
ghost use Rattle.std.specs.Prelude.{◌+◌, ◌<◌, ◌^◌};
ghost use Rattle.kernel_abi.specs.Syscalls.{syscall_number};
ghost use Rattle.kernel_abi.specs.declared.syscalls.Syscall.TheVariants.{Send};
ghost use Rattle.task_table.specs.model.Reading.{best_sender};
ghost use Rattle.task_table.specs.model.Rows.{received};
ghost use Rattle.task_table.specs.model.Syscalls.{meaning_among, syscalls, syscall_made};
ghost use Rattle.task_table.specs.kept.Holds.{next_call_of};
ghost use Rattle.task_table.specs.kept.Calls.{MayCall, Performs, PerformsOver};
ghost use Rattle.board_core.specs.Data.{data_of};

use crate::asking::{answer_lines, control_lines};
use crate::list::Devices;
use dispatch::best_sender;
use fault_supervisor::kernel_message;
use ipc_core::{post_call, recv, refresh, reply, reply_fault, send};
use kernel_abi::{SYSCALL_SELECTOR, SendArgs, Syscall, TaskId, Usage};
use lease_core::{borrow_info, borrow_read, borrow_write};
use task_table::Kernel;
use timer_irq::{get_timer, set_timer};

/// RECV: the caller receives from its best sender.
fn receive(k: &mut Kernel, caller: usize)
    requires { MayCall k.old caller }
    ensures { Performs (λ g c t. received g c (best_sender g t.state c) t) k.old caller k.new }
{
    let best = best_sender(k, caller);
    recv(k, caller, best);
}

/// SEND, to a task or to the kernel.
fn send_anywhere(k: &mut Kernel, caller: usize)
    requires may_call { MayCall k.old caller }
    requires number { next_call_of k.old + 1 < 2 ^ 32 }
    ensures { Performs (meaning_among syscalls (syscall_number Send)) k.old caller k.new }
{
    let args = SendArgs::of(&k.arguments(caller));
    if args.recipient.number == TaskId::KERNEL {
        kernel_message(k, caller);
    } else {
        send(k, caller);
    }
}

/// Makes the system call whose number is in the task's r11. A number that no system call has is a
/// misuse of system calls. Two calls look at the devices that drive interrupt lines.
pub fn syscall(k: &mut Kernel, devices: &Devices, caller: usize)
    requires may_call { MayCall k.old caller }
    requires number { next_call_of k.old + 1 < 2 ^ 32 }
    ensures { PerformsOver (data_of shown devices.now) syscall_made k.old caller k.new }
{
    match Syscall::of(k.register(caller, SYSCALL_SELECTOR)) {
        Some(Syscall::Send) => send_anywhere(k, caller),
        Some(Syscall::Recv) => receive(k, caller),
        Some(Syscall::Reply) => reply(k, caller),
        Some(Syscall::SetTimer) => set_timer(k, caller),
        Some(Syscall::BorrowRead) => borrow_read(k, caller),
        Some(Syscall::BorrowWrite) => borrow_write(k, caller),
        Some(Syscall::BorrowInfo) => borrow_info(k, caller),
        Some(Syscall::IrqControl) => control_lines(k, devices, caller),
        Some(Syscall::Panic) => k.panic(caller),
        Some(Syscall::GetTimer) => get_timer(k, caller),
        Some(Syscall::RefreshTaskId) => refresh(k, caller),
        Some(Syscall::Post) => post_call(k, caller),
        Some(Syscall::ReplyFault) => reply_fault(k, caller),
        Some(Syscall::IrqStatus) => answer_lines(k, devices, caller),
        None => k.misuse(caller, Usage::BadCall),
    }
}

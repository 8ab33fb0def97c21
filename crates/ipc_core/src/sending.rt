//! The system call SEND (Hubris Reference, on SEND). Rows are those of docs/FORMATS.md, SEND.

ghost use Rattle.std.specs.Prelude.{◌≡◌, ◌+◌, ◌*◌, ◌<◌, ◌≤◌, ◌^◌, ◌||◌, not, Option, IfSome};
ghost use Rattle.task_table.specs.model.State.{Setup, Turn};
ghost use Rattle.task_table.specs.model.Reading.{arguments, is_valid, IsIdle};
ghost use Rattle.task_table.specs.model.Sends.{message_of, reply_room, table_of, sent_to, sent};
ghost use Rattle.task_table.specs.kept.Holds.{Holds, Stands, task_count, note_count, next_call_of};
ghost use Rattle.task_table.specs.kept.Limits.{syscall_notes, turn_notes};
ghost use Rattle.task_table.specs.kept.Frames.{AddsAtMost};
ghost use Rattle.task_table.specs.kept.Calls.{MayCall, Performs};
ghost use Rattle.ipc_core.specs.Sending.{IsRecipient, IsRecipientOf, IsAmong};

use crate::range::is_valid;
use kernel_abi::{Access, Generation, Range, SendArgs, TaskId, Usage, dead_code};
use region_check::Right;
use task_table::{Found, Kernel};

/// The task that a send names, which is not the caller.
#[derive(Clone, Copy)]
enum Recipient {
    /// An earlier birth of a task that is now at this generation.
    Dead(Generation),
    /// The present birth of the task with this index.
    Live(usize),
}

/// Row 1: the task that an id names. None if it names the caller or no task.
fn recipient_of(k: &Kernel, caller: usize, id: TaskId) -> Option<Recipient>
    ensures named { (g : Setup) (t : Turn) → Holds g k.now t →
        IsRecipientOf t.state caller id.number result }
    ensures inside { IfSome result (IsAmong (task_count k.now)) }
{
    if usize::from(id.index()) == caller {
        return None;
    }
    match k.lookup(id.number) {
        Found::Out => None,
        Found::Dead(generation) => Some(Recipient::Dead(generation)),
        Found::Live(index) => Some(Recipient::Live(index)),
    }
}

/// Whether a lease table ends inside the address space.
fn is_valid_table(base: u32, leases: u32) -> bool
    ensures { result ≡ is_valid record { base = base; len = 12 * leases } }
{
    Range::of(base, 12 * u64::from(leases)).is_some()
}

/// Row 2: whether the message, the reply buffer or the lease table of a send reaches beyond the
/// address space.
fn reaches_out(args: &SendArgs) -> bool
    ensures { result ≡ (not (is_valid (message_of args.now)) ||
        (not (is_valid (reply_room args.now)) || not (is_valid (table_of args.now)))) }
{
    !is_valid(args.message_base, args.message_length)
        || !is_valid(args.reply_base, args.reply_capacity)
        || !is_valid_table(args.table, args.leases)
}

/// Rows 2 to 5: the ranges are checked, and a caller that waits for nothing sends to another task.
fn send_checked(k: &mut Kernel, caller: usize, recipient: Recipient, args: &SendArgs)
    requires there { caller < task_count k.old }
    requires recipient { IsAmong (task_count k.old) recipient }
    requires room { note_count k.old + syscall_notes ≤ turn_notes }
    requires number { next_call_of k.old + 1 < 2 ^ 32 }
    requires idle { (g : Setup) × (t : Turn) × Stands g k.old t × IsIdle t.state caller }
    ensures holds { (g : Setup) (t : Turn) → Stands g k.old t → IsIdle t.state caller →
        IsRecipient t.state caller args.now.recipient.number recipient →
        Holds g k.new (sent_to g caller args.now t) }
    ensures frame { AddsAtMost k.old syscall_notes k.new }
{
    if reaches_out(args) {
        return k.misuse(caller, Usage::InvalidSlice);
    }
    if let Some(at) = k.bad_byte(caller, Right::Read, args.message_base, args.message_length) {
        return k.deny(caller, at, Access::KernelRead);
    }
    if let Some(at) = k.bad_byte(caller, Right::Write, args.reply_base, args.reply_capacity) {
        return k.deny(caller, at, Access::KernelWrite);
    }
    match recipient {
        Recipient::Dead(generation) => k.answer(caller, &[dead_code(generation), 0]),
        Recipient::Live(server) => k.send(caller, server, args),
    }
}

/// SEND of a caller that waits for nothing, from row 1 on.
fn send_rows(k: &mut Kernel, caller: usize)
    requires there { caller < task_count k.old }
    requires room { note_count k.old + syscall_notes ≤ turn_notes }
    requires number { next_call_of k.old + 1 < 2 ^ 32 }
    requires idle { (g : Setup) × (t : Turn) × Stands g k.old t × IsIdle t.state caller }
    ensures holds { (g : Setup) (t : Turn) → Stands g k.old t → IsIdle t.state caller →
        Holds g k.new (sent g caller t) }
    ensures frame { AddsAtMost k.old syscall_notes k.new }
{
    let args = SendArgs::of(&k.arguments(caller));
    match recipient_of(k, caller, args.recipient) {
        None => k.misuse(caller, Usage::BadTaskIndex),
        Some(recipient) => send_checked(k, caller, recipient, &args),
    }
}

/// SEND: r4 has the recipient's id in bits 31 to 16 and the operation in bits 15 to 0, r5 and r6
/// are the message, r7 and r8 the buffer for the reply, r9 and r10 the table of leases and their
/// number. The caller waits for the reply. If the id is that of an earlier birth, it does not wait:
/// r4 is the dead code and r5 is 0. A recipient that is the caller or no task is a misuse, and so
/// is a range that reaches beyond the address space (Hubris Reference, on SEND).
pub fn send(k: &mut Kernel, caller: usize)
    requires may_call { MayCall k.old caller }
    requires number { next_call_of k.old + 1 < 2 ^ 32 }
    ensures { Performs sent k.old caller k.new }
{
    send_rows(k, caller);
}

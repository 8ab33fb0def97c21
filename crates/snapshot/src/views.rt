//! Makes the view to which a board sets a task from the record of the task.
ghost use Rattle.std.specs.Prelude.{◌≡◌, ◌<◌, ◌≤◌, ◌+◌};
ghost use Rattle.snapshot.specs.Causes.{word};
ghost use Rattle.snapshot.specs.Restored.{health_from, flags_from, slice_from, phase_from};
ghost use Rattle.snapshot.specs.Views.{timer_view, call_view, from_view, listen_view, wait_view, view_of};

use crate::records::TaskRecord;
use board_core::TaskView;
use kernel_abi::{Fault, Health, TaskId};
use task_table::{FromId, Listening, OpenCall, Phase, Slice, Wait};
use words_core::Flags;

fn health(number: u8, fault: Fault) -> Health
    ensures { result ≡ health_from number fault }
{
    match number {
        0 => Health::Well,
        1 => Health::Stopped,
        _ => Health::Faulted(fault),
    }
}

fn flags(n: u32) -> Flags
    ensures { result ≡ flags_from n }
{
    Flags {
        n: n / 8 % 2 == 1,
        z: n / 4 % 2 == 1,
        c: n / 2 % 2 == 1,
        v: n % 2 == 1,
    }
}

fn timer(flag: u32, deadline: u64, bits: u32) -> Option<(u64, u32)>
    ensures { result ≡ timer_view flag deadline bits }
{
    if flag == 0 {
        None
    } else {
        Some((deadline, bits))
    }
}

/// The slice whose base and length are two words of the record.
fn slice(r: &TaskRecord, k: usize) -> Slice
    requires { k < 7 }
    ensures { result ≡ slice_from r.now k }
{
    Slice {
        base: r.words[k],
        len: r.words[k + 1],
    }
}

fn phase(wait: u8) -> Phase
    ensures { result ≡ phase_from wait }
{
    if wait == 1 {
        Phase::Offered
    } else {
        Phase::Taken
    }
}

/// The call of task i, whose client is its present birth.
fn call(r: &TaskRecord, i: usize) -> OpenCall
    requires few { i < 1024 }
    requires generation { r.now.generation ≤ 63 }
    ensures { result ≡ call_view r.now i }
{
    OpenCall {
        number: r.words[0],
        client: TaskId {
            number: i as u16 + 1024 * u16::from(r.generation),
        },
        server: TaskId {
            number: (r.words[1] % 65536) as u16,
        },
        operation: (r.words[1] / 65536) as u16,
        message: slice(r, 2),
        reply: slice(r, 4),
        table: r.words[6],
        leases: r.words[7],
        phase: phase(r.wait),
    }
}

fn sender(wait: u8, id: u32) -> FromId
    requires { id < 65536 }
    ensures { result ≡ from_view wait id }
{
    match wait {
        3 => FromId::Any,
        4 => FromId::Kernel,
        _ => FromId::One(TaskId { number: id as u16 }),
    }
}

fn listening(r: &TaskRecord) -> Listening
    requires { word r.now 1 < 65536 }
    ensures { result ≡ listen_view r.now }
{
    Listening {
        from: sender(r.wait, r.words[1]),
        mask: r.words[0],
        buffer: slice(r, 2),
    }
}

fn wait(r: &TaskRecord, i: usize) -> Wait
    requires few { i < 1024 }
    requires generation { r.now.generation ≤ 63 }
    requires id { 3 ≤ r.now.wait → word r.now 1 < 65536 }
    ensures { result ≡ wait_view r.now i }
{
    if r.wait == 1 || r.wait == 2 {
        Wait::Call(call(r, i))
    } else if 3 <= r.wait {
        Wait::Listen(listening(r))
    } else {
        Wait::Nothing
    }
}

/// The view of task i, whose record is valid by itself.
pub(crate) fn view_of(r: &TaskRecord, i: usize) -> TaskView
    requires few { i < 1024 }
    requires generation { r.now.generation ≤ 63 }
    requires id { 3 ≤ r.now.wait → word r.now 1 < 65536 }
    ensures { result ≡ view_of r.now i }
{
    TaskView {
        generation: r.generation,
        health: health(
            r.health,
            Fault {
                number: r.fault,
                x: r.x,
                y: r.y,
            },
        ),
        regs: r.registers,
        flags: flags(r.flags),
        posted: r.posted,
        timer: timer(r.timer, r.deadline, r.bits),
        wait: wait(r, i),
    }
}

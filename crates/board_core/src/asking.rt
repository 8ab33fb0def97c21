//! The devices that drive interrupt lines, and what the kernel does where they ask.
ghost use Rattle.std.specs.Prelude.{◌≡◌, ◌+◌, ◌<◌, ◌≤◌, length, map};
ghost use Rattle.task_table.specs.model.State.{Setup, Turn};
ghost use Rattle.task_table.specs.model.Asking.{asks_at};
ghost use Rattle.task_table.specs.model.Rows.{irq_controlled, irq_answered};
ghost use Rattle.task_table.specs.kept.Holds.{Holds, task_count, note_count};
ghost use Rattle.task_table.specs.kept.Limits.{board_lines, syscall_notes, turn_notes};
ghost use Rattle.task_table.specs.kept.Calls.{PerformsOver};
ghost use Rattle.timer_irq.specs.Midway.{AreAsked};
ghost use Rattle.board_core.specs.Data.{data_of};

use crate::list::Devices;
use arrayvec::ArrayVec;
use task_table::{Kernel, LineStart};
use timer_irq::{irq_control, irq_status};

/// Whether the device of each of these lines asks.
fn asked_by(lines: &[LineStart], devices: &Devices) -> ArrayVec<bool, 64>
    requires { length lines.now ≤ board_lines }
    ensures { result.items ≡ map (λ l. asks_at (data_of shown devices.now) l.device) lines.now }
{
    let mut asked = ArrayVec::new();
    for line in lines {
        asked.push(devices.asks_at(line.device));
    }
    asked
}

/// Whether the device of each line asks, in the image's order.
pub fn asked(kernel: &Kernel, devices: &Devices) -> ArrayVec<bool, 64>
    ensures { (g : Setup) (t : Turn) → Holds g kernel.now t →
        data_of shown devices.now ≡ t.state.devices → AreAsked g t result.items }
{
    asked_by(kernel.owners(), devices)
}

/// IRQ_CONTROL, where the devices are these.
#[inline(never)]
pub fn control_lines(k: &mut Kernel, devices: &Devices, caller: usize)
    requires there { caller < task_count k.old }
    requires room { note_count k.old + syscall_notes ≤ turn_notes }
    ensures { PerformsOver (data_of shown devices.now) irq_controlled k.old caller k.new }
{
    let asked = asked(k, devices);
    irq_control(k, caller, &asked);
}

/// IRQ_STATUS, where the devices are these.
#[inline(never)]
pub fn answer_lines(k: &mut Kernel, devices: &Devices, caller: usize)
    requires there { caller < task_count k.old }
    requires room { note_count k.old + syscall_notes ≤ turn_notes }
    ensures { PerformsOver (data_of shown devices.now) irq_answered k.old caller k.new }
{
    let asked = asked(k, devices);
    irq_status(k, caller, &asked);
}

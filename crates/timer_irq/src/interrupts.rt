//! Interrupts: those that come from outside, and those of the devices that drive lines.
ghost use Rattle.std.specs.Prelude.{◌+◌, ◌*◌, ◌<◌, ◌≤◌, Some, slice_get};
ghost use Rattle.task_table.specs.model.State.{Setup, Turn};
ghost use Rattle.task_table.specs.model.Events.{owner_of, interrupted_by, interrupted, driven};
ghost use Rattle.task_table.specs.kept.Parts.{line_setup};
ghost use Rattle.task_table.specs.kept.Holds.{Holds, Stands, StandsForSome, task_count, note_count};
ghost use Rattle.task_table.specs.kept.Limits.{board_lines, syscall_notes, turn_notes};
ghost use Rattle.task_table.specs.kept.Frames.{AddsAtMost};
ghost use Rattle.timer_irq.specs.Midway.{AreAsked, driven_if, with_any};

use crate::owners::{disable, is_asked, line_of, owner_at, owner_of};
use kernel_abi::{Handled, Note};
use task_table::{Kernel, LineStart};

/// An interrupt on a line with this owner.
fn interrupt_owned(k: &mut Kernel, line: u8, owner: &LineStart)
    requires there { owner.now.task < task_count k.old }
    requires room { note_count k.old + 3 ≤ turn_notes }
    ensures holds { (g : Setup) (t : Turn) → Holds g k.old t →
        Holds g k.new (interrupted_by line (Some (line_setup owner.now)) t) }
    ensures frame { AddsAtMost k.old 3 k.new }
{
    let number = usize::from(line);
    let before = line_of(k, number);
    if before.enabled {
        k.note(Note::Irq {
            line,
            handled: Handled::Posted,
        });
        disable(k, number, false);
        k.post(usize::from(owner.task), owner.bits);
    } else {
        k.note(Note::Irq {
            line,
            handled: Handled::Held,
        });
        disable(k, number, true);
    }
}

/// An interrupt on a line. If the line is enabled, its bits are posted to its owner and the line is
/// disabled. If it is disabled, an interrupt becomes pending. If no task owns it, nothing happens.
pub fn interrupt(k: &mut Kernel, line: u8)
    requires stood { StandsForSome k.old }
    requires room { note_count k.old + syscall_notes ≤ turn_notes }
    ensures stands { (g : Setup) (t : Turn) → Stands g k.old t →
        Stands g k.new (interrupted g line t) }
    ensures frame { AddsAtMost k.old syscall_notes k.new }
{
    match owner_of(k, line) {
        Some(owner) => interrupt_owned(k, line, &owner),
        None => k.note(Note::Irq {
            line,
            handled: Handled::Unowned,
        }),
    }
}

/// An interrupt on the line of an owner, if the line is enabled and its device asks.
fn drive_if(k: &mut Kernel, asked: bool, owner: &LineStart)
    requires there { owner.now.task < task_count k.old }
    requires room { note_count k.old + 3 ≤ turn_notes }
    ensures holds { (g : Setup) (t : Turn) → Holds g k.old t →
        Holds g k.new (driven_if asked t (line_setup owner.now)) }
    ensures frame { AddsAtMost k.old 3 k.new }
{
    if line_of(k, usize::from(owner.line)).enabled && asked {
        interrupt_owned(k, owner.line, owner);
    }
}

/// An interrupt on the line of the i-th owner, if the line is enabled and its device asks.
fn drive_at(k: &mut Kernel, asked: bool, i: usize)
    requires stood { StandsForSome k.old }
    requires room { note_count k.old + 3 ≤ turn_notes }
    ensures stands { (g : Setup) (t : Turn) → Stands g k.old t →
        Stands g k.new (with_any (driven_if asked) (slice_get g.lines i) t) }
    ensures frame { AddsAtMost k.old 3 k.new }
{
    if let Some(owner) = owner_at(k, i) {
        drive_if(k, asked, &owner);
    }
}

/// Each line that is enabled and whose device asks posts its bits to its owner and is disabled, in
/// the image's order. `asked` says of each line, in that order, whether its device asks
/// (docs/FORMATS.md, Devices).
pub fn drive(k: &mut Kernel, asked: &[bool])
    requires stood { StandsForSome k.old }
    requires room { note_count k.old + 3 * board_lines ≤ turn_notes }
    ensures stands { (g : Setup) (t : Turn) → Stands g k.old t → AreAsked g t asked.now →
        Stands g k.new (driven g t) }
    ensures frame { AddsAtMost k.old (3 * board_lines) k.new }
{
    for i in 0..k.owners().len() {
        drive_at(k, is_asked(asked, i), i);
    }
}

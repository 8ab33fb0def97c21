//! The system call IRQ_STATUS (this project's own: docs/FORMATS.md, System calls, Devices).
ghost use Rattle.std.specs.Prelude.{◌≡◌, ◌+◌, ◌<◌, ◌≤◌, filter, if◌then◌else◌, true};
ghost use Rattle.task_table.specs.model.State.{Setup, Turn};
ghost use Rattle.task_table.specs.model.Reading.{is_ready, no_line, line_at};
ghost use Rattle.task_table.specs.model.Rows.{owns_with, status_of_lines, irq_answered};
ghost use Rattle.task_table.specs.kept.Parts.{line_setup};
ghost use Rattle.task_table.specs.kept.Holds.{Holds, Stands, task_count, note_count};
ghost use Rattle.task_table.specs.kept.Limits.{syscall_notes, turn_notes};
ghost use Rattle.task_table.specs.kept.Frames.{AddsAtMost};
ghost use Rattle.timer_irq.specs.Midway.{AreAsked, lines_together, status_sum, joined, with_asked};

use crate::owners::{is_asked, is_owner, line_of, owns};
use kernel_abi::{IrqArgs, Note, Usage};
use task_table::{Kernel, Line, LineStart};

/// The line of an owner, pending too if its device asks, if the owner is this task with exactly
/// these bits; else a line that is disabled with nothing pending.
fn own_line(k: &Kernel, caller: usize, bits: u32, asked: bool, owner: &LineStart) -> Line
    ensures { (g : Setup) (t : Turn) → Holds g k.now t →
        result ≡ (if owns_with caller bits (line_setup owner.now) then with_asked asked
        (line_at t.state owner.now.line) else no_line) }
{
    if is_owner(owner, caller, bits) {
        let line = line_of(k, usize::from(owner.line));
        Line {
            enabled: line.enabled,
            pending: line.pending || asked,
        }
    } else {
        Line {
            enabled: false,
            pending: false,
        }
    }
}

/// Two lines as one: enabled if one of them is, pending if one of them is.
fn both_lines(a: Line, b: Line) -> Line
    ensures { result ≡ joined a b }
{
    Line {
        enabled: a.enabled || b.enabled,
        pending: a.pending || b.pending,
    }
}

/// The lines that a task owns with exactly these bits, as one line: enabled if one of them is,
/// pending if one of them is or its device asks.
fn own_lines(k: &Kernel, caller: usize, bits: u32, asked: &[bool]) -> Line
    ensures { (g : Setup) (t : Turn) → Holds g k.now t → AreAsked g t asked.now →
        result ≡ lines_together t.state (filter (owns_with caller bits) g.lines) }
{
    let owners = k.owners();
    let mut together = Line {
        enabled: false,
        pending: false,
    };
    for i in 0..owners.len() {
        let line = own_line(k, caller, bits, is_asked(asked, i), &owners[i]);
        together = both_lines(together, line);
    }
    together
}

/// `value` if the condition is true, else 0.
fn value_if(is: bool, value: u32) -> u32
    ensures value { result ≡ (if is then value else 0) }
    ensures most { result ≤ value }
{
    if is { value } else { 0 }
}

/// The sum of 1 if enabled, 2 if pending and 4 if bits are posted.
fn sum_of(lines: Line, posted: u32) -> u32
    ensures { result ≡ status_sum lines posted }
{
    value_if(lines.enabled, 1) + value_if(lines.pending, 2) + value_if(posted != 0, 4)
}

/// The status of the lines that a task owns with exactly these bits, and whether some of the bits
/// are posted to it.
fn status_of(k: &Kernel, caller: usize, bits: u32, asked: &[bool]) -> u32
    requires { caller < task_count k.now }
    ensures { (g : Setup) (t : Turn) → Holds g k.now t → AreAsked g t asked.now →
        result ≡ status_of_lines g t.state caller bits }
{
    sum_of(
        own_lines(k, caller, bits, asked),
        k.posted_bits(caller) & bits,
    )
}

/// IRQ_STATUS, in any state.
fn irq_status_rows(k: &mut Kernel, caller: usize, asked: &[bool])
    requires there { caller < task_count k.old }
    requires room { note_count k.old + syscall_notes ≤ turn_notes }
    ensures holds { (g : Setup) (t : Turn) → Holds g k.old t → AreAsked g t asked.now →
        Holds g k.new (irq_answered g caller t) }
    ensures frame { AddsAtMost k.old syscall_notes k.new }
{
    let args = IrqArgs::of(&k.arguments(caller));
    if owns(k, caller, args.bits) {
        let status = status_of(k, caller, args.bits, asked);
        k.note(Note::IrqStatus {
            task: caller as u16,
            bits: args.bits,
            status,
        });
        k.answer(caller, &[status]);
    } else {
        k.misuse(caller, Usage::NoIrq);
    }
}

/// IRQ_STATUS: r4 becomes a sum over the lines that the caller owns with exactly the bits in r4: 1
/// if one of them is enabled, 2 if on one of them an interrupt is pending or its device asks for
/// one, and 4 if some of these bits are posted to the caller. `asked` says of each line, in the
/// image's order, whether its device asks. If the caller owns no such line, it faults with usage 6,
/// NoIrq (docs/FORMATS.md, System calls, Devices: the call is this project's own).
pub fn irq_status(k: &mut Kernel, caller: usize, asked: &[bool])
    requires there { caller < task_count k.old }
    requires room { note_count k.old + syscall_notes ≤ turn_notes }
    ensures stands { (g : Setup) (t : Turn) → Stands g k.old t →
        is_ready t.state caller ≡ true → AreAsked g t asked.now →
        Stands g k.new (irq_answered g caller t) }
    ensures frame { AddsAtMost k.old syscall_notes k.new }
{
    irq_status_rows(k, caller, asked);
}

//! The system call IRQ_CONTROL (Hubris Reference, on interrupts; docs/FORMATS.md, System calls,
//! Devices).
ghost use Rattle.std.specs.Prelude.{◌+◌, ◌*◌, ◌<◌, ◌≤◌, ◌≡◌, Some, filter, fold, slice_get, true};
ghost use Rattle.task_table.specs.model.State.{Setup, Turn};
ghost use Rattle.task_table.specs.model.Asking.{is_asked};
ghost use Rattle.task_table.specs.model.Reading.{is_ready};
ghost use Rattle.task_table.specs.model.Rows.{owns_with, line_controlled, irq_controlled};
ghost use Rattle.task_table.specs.kept.Parts.{line_setup};
ghost use Rattle.task_table.specs.kept.Holds.{Holds, Stands, task_count, note_count};
ghost use Rattle.task_table.specs.kept.Limits.{board_lines, syscall_notes, turn_notes};
ghost use Rattle.task_table.specs.kept.Frames.{AddsAtMost};
ghost use Rattle.timer_irq.specs.Midway.{with_next, AreAsked};

use crate::owners::{disable, is_asked, is_owner, line_of, owner_at, owns};
use kernel_abi::{IrqArgs, Usage};
use task_table::{Kernel, Line, LineStart};

/// Disables or enables one line of the caller, whose device asks for an interrupt or not.
fn control(k: &mut Kernel, caller: usize, bits: u32, enable: bool, asked: bool, line: u8)
    requires there { caller < task_count k.old }
    requires room { note_count k.old + 2 ≤ turn_notes }
    ensures holds { (g : Setup) (t : Turn) → Holds g k.old t →
        Holds g k.new (line_controlled caller bits enable asked line t) }
    ensures frame { AddsAtMost k.old 2 k.new }
{
    let number = usize::from(line);
    let before = line_of(k, number);
    if !enable {
        disable(k, number, before.pending);
    } else if before.pending || asked {
        disable(k, number, false);
        k.post(caller, bits);
    } else {
        k.set_line(
            number,
            Line {
                enabled: true,
                pending: false,
            },
        );
    }
}

/// Disables or enables one line, if the caller owns it with exactly these bits.
fn control_if(
    k: &mut Kernel,
    caller: usize,
    bits: u32,
    enable: bool,
    asked: bool,
    owner: &LineStart,
)
    requires there { caller < task_count k.old }
    requires room { note_count k.old + 2 ≤ turn_notes }
    ensures holds { (g : Setup) (t : Turn) → Holds g k.old t →
        Holds g k.new (with_next (λ u o. line_controlled caller bits enable asked o.line u)
        (owns_with caller bits) (Some (line_setup owner.now)) t) }
    ensures frame { AddsAtMost k.old 2 k.new }
{
    if is_owner(owner, caller, bits) {
        control(k, caller, bits, enable, asked, owner.line);
    }
}

/// Disables or enables the line of the i-th owner, if the caller owns it with these bits.
fn control_at(k: &mut Kernel, caller: usize, bits: u32, enable: bool, asked: bool, i: usize)
    requires there { caller < task_count k.old }
    requires room { note_count k.old + 2 ≤ turn_notes }
    ensures holds { (g : Setup) (t : Turn) → Holds g k.old t →
        Holds g k.new (with_next (λ u o. line_controlled caller bits enable asked o.line u)
        (owns_with caller bits) (slice_get g.lines i) t) }
    ensures frame { AddsAtMost k.old 2 k.new }
{
    if let Some(owner) = owner_at(k, i) {
        control_if(k, caller, bits, enable, asked, &owner);
    }
}

/// Disables or enables each line that the caller owns with these bits.
fn control_all(k: &mut Kernel, caller: usize, bits: u32, enable: bool, asked: &[bool])
    requires there { caller < task_count k.old }
    requires room { note_count k.old + 2 * board_lines ≤ turn_notes }
    ensures holds { (g : Setup) (t : Turn) → Holds g k.old t → AreAsked g t asked.now →
        Holds g k.new (fold (λ u o. line_controlled caller bits enable (is_asked t.state o) o.line
        u) t (filter (owns_with caller bits) g.lines)) }
    ensures frame { AddsAtMost k.old (2 * board_lines) k.new }
{
    for i in 0..k.owners().len() {
        control_at(k, caller, bits, enable, is_asked(asked, i), i);
    }
}

/// IRQ_CONTROL, in any state.
fn irq_control_rows(k: &mut Kernel, caller: usize, asked: &[bool])
    requires there { caller < task_count k.old }
    requires room { note_count k.old + syscall_notes ≤ turn_notes }
    ensures holds { (g : Setup) (t : Turn) → Holds g k.old t → AreAsked g t asked.now →
        Holds g k.new (irq_controlled g caller t) }
    ensures frame { AddsAtMost k.old syscall_notes k.new }
{
    let args = IrqArgs::of(&k.arguments(caller));
    if owns(k, caller, args.bits) {
        control_all(k, caller, args.bits, args.enable, asked);
        k.go_on(caller);
    } else {
        k.misuse(caller, Usage::NoIrq);
    }
}

/// IRQ_CONTROL: disables each line that the caller owns with exactly the bits in r4, or enables it
/// if bit 0 of r5 is set, in ascending order. If an interrupt is pending on a line that is to be
/// enabled, or the line's device asks for one, what is pending is cleared, the bits are posted and
/// the line is disabled again. `asked` says of each line, in the image's order, whether its device
/// asks. If the caller owns no such line, it faults with usage 6, NoIrq (Hubris Reference, on
/// IRQ_CONTROL; docs/FORMATS.md, System calls, Devices: that interrupts are held and that devices
/// ask is this project's profile).
pub fn irq_control(k: &mut Kernel, caller: usize, asked: &[bool])
    requires there { caller < task_count k.old }
    requires room { note_count k.old + syscall_notes ≤ turn_notes }
    ensures stands { (g : Setup) (t : Turn) → Stands g k.old t →
        is_ready t.state caller ≡ true → AreAsked g t asked.now →
        Stands g k.new (irq_controlled g caller t) }
    ensures frame { AddsAtMost k.old syscall_notes k.new }
{
    irq_control_rows(k, caller, asked);
}

//! The interrupt lines and their owners.
ghost use Rattle.std.specs.Prelude.{◌≡◌, ◌*◌, ◌<◌, ◌==◌, ◌&&◌, Some, Option, false, slice_get, slice_index_or};
ghost use Rattle.std.specs.Option.{option_map};
ghost use Rattle.std.specs.List.{list_any};
ghost use Rattle.task_table.specs.model.State.{Setup, Turn};
ghost use Rattle.task_table.specs.model.Reading.{line_at, line_off};
ghost use Rattle.task_table.specs.model.Effects.{with_line};
ghost use Rattle.task_table.specs.model.Rows.{owns_with};
ghost use Rattle.task_table.specs.model.Events.{owner_of};
ghost use Rattle.task_table.specs.kept.Parts.{line_setup};
ghost use Rattle.task_table.specs.kept.Holds.{Holds};
ghost use Rattle.task_table.specs.kept.Frames.{AddsNotes};

use task_table::{Kernel, Line, LineStart};

/// The owner of a line.
pub(crate) fn owner_of(k: &Kernel, line: u8) -> Option<LineStart>
    ensures { (g : Setup) (t : Turn) → Holds g k.now t →
        option_map line_setup result ≡ owner_of g line }
{
    for owner in k.owners() {
        if owner.line == line {
            return Some(*owner);
        }
    }
    None
}

/// The owner at an index of a list, if there is one.
fn item(owners: &[LineStart], i: usize) -> Option<LineStart>
    ensures { result ≡ slice_get owners.now i }
{
    owners.get(i).copied()
}

/// The i-th owner of a line, if there is one.
pub(crate) fn owner_at(k: &Kernel, i: usize) -> Option<LineStart>
    ensures { (g : Setup) (t : Turn) → Holds g k.now t →
        option_map line_setup result ≡ slice_get g.lines i }
{
    item(k.owners(), i)
}

/// Whether the device of the i-th line asks for an interrupt; past the last line none does.
pub(crate) fn is_asked(asked: &[bool], i: usize) -> bool
    ensures { result ≡ slice_index_or asked.now i false }
{
    asked.get(i).copied().unwrap_or(false)
}

/// The state of a line; a line that does not exist counts as disabled, with nothing pending.
pub(crate) fn line_of(k: &Kernel, number: usize) -> Line
    ensures { (g : Setup) (t : Turn) → Holds g k.now t → result ≡ line_at t.state number }
{
    match k.line(number) {
        Some(line) => line,
        None => Line {
            enabled: false,
            pending: false,
        },
    }
}

/// Disables a line, with an interrupt pending or not.
pub(crate) fn disable(k: &mut Kernel, number: usize, pending: bool)
    ensures holds { (g : Setup) (t : Turn) → Holds g k.old t →
        Holds g k.new (with_line number (line_off pending) t) }
    ensures frame { AddsNotes k.old 0 k.new }
{
    k.set_line(
        number,
        Line {
            enabled: false,
            pending,
        },
    );
}

/// Whether one of these owners is this task, with exactly these bits.
fn has_owner(owners: &[LineStart], caller: usize, bits: u32) -> bool
    ensures { result ≡ list_any (λ o. (o.task == caller) && (o.bits == bits)) owners.now }
{
    owners
        .iter()
        .any(|o| usize::from(o.task) == caller && o.bits == bits)
}

/// Whether a task owns a line with exactly these bits.
pub(crate) fn owns(k: &Kernel, caller: usize, bits: u32) -> bool
    ensures { (g : Setup) (t : Turn) → Holds g k.now t →
        result ≡ list_any (owns_with caller bits) g.lines }
{
    has_owner(k.owners(), caller, bits)
}

/// Whether an owner is this task, with exactly these bits.
pub(crate) fn is_owner(owner: &LineStart, caller: usize, bits: u32) -> bool
    ensures { result ≡ owns_with caller bits (line_setup owner.now) }
{
    usize::from(owner.task) == caller && owner.bits == bits
}

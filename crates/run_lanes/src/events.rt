//! What happened to tasks, in words (docs/FORMATS.md, Picture).
ghost use Rattle.std.specs.Prelude.{◌≡◌, ◌++◌, [], ◌∷◌, ℕ, List, IfOk, codes, decimal, filter, map, option_to_list, string_bytes, vec_capacity};
ghost use Rattle.run_lanes.specs.First.{IsFirst};
ghost use Rattle.run_lanes.specs.Names.{fault_name};
ghost use Rattle.run_lanes.specs.Told.{TurnNote, event_text, is_event, name_of};

use crate::first::First;
use crate::line::Line;
use crate::names::push_fault;
use kernel_abi::{Fault, Note};
use std::alloc::{AllocError, Global};
use trace_text::push_decimal;

// A note with its turn, if it is a fault or a birth.
fn event_of(turn: u32, note: &Note) -> Option<(u32, Note)>
    ensures { option_to_list result ≡ map (λ n. (turn, n)) (filter is_event (note.now ∷ [])) }
{
    match note {
        Note::Fault { .. } | Note::Restart { .. } => Some((turn, *note)),
        _ => None,
    }
}

/// Adds a turn's faults and births.
pub fn add_events(turn: u32, notes: &[Note], events: &mut First<(u32, Note)>)
    ensures { (most : ℕ) (xs : List TurnNote) →
        IsFirst most events.old.kept.items (vec_capacity events.old.kept) events.old.all xs →
        IsFirst most events.new.kept.items (vec_capacity events.new.kept) events.new.all
        (xs ++ map (λ n. (turn, n)) (filter is_event notes.now)) }
{
    for note in notes {
        events.push_some(event_of(turn, note));
    }
}

// The name of a task; past the last one it is empty.
fn name_of(names: &[String], task: u16) -> &str
    ensures { result.now ≡ name_of (map string_bytes names.now) task }
{
    let i = usize::from(task);
    if i < names.len() {
        names[i].as_str()
    } else {
        ""
    }
}

// What happened in a turn to the task with this name.
fn told(alloc: Global, turn: u32, name: &str, what: &str) -> Result<String, AllocError>
    ensures { IfOk result (λ s. string_bytes s ≡ codes "turn " ++ decimal turn ++ codes ": "
        ++ name.now ++ what.now) }
{
    let text = format!(in alloc; "turn {turn}: {name}{what}")?;
    Ok(text)
}

fn push_faults(fault: &Fault, line: &mut Line)
    requires { line.old.bytes ≡ [] }
    ensures { line.new.bytes ≡ codes " faults: " ++ fault_name fault.now }
{
    line.push_str(" faults: ");
    push_fault(fault, line);
}

fn push_born(generation: u8, line: &mut Line)
    requires { line.old.bytes ≡ [] }
    ensures { line.new.bytes ≡ codes " is born again, generation " ++ decimal generation }
{
    line.push_str(" is born again, generation ");
    push_decimal(line, u64::from(generation));
}

// The text of a note of a turn.
#[tactic(auto, unfolding(crate::specs::Told::event_text))]
fn event_text(alloc: Global, names: &[String], turn: u32, note: &Note) -> Result<String, AllocError>
    ensures { IfOk result (λ s. string_bytes s ≡ event_text (map string_bytes names.now)
        (turn, note.now)) }
{
    let mut what = Line::new();
    match note {
        Note::Fault { task, fault } => {
            push_faults(fault, &mut what);
            told(alloc, turn, name_of(names, *task), what.as_str())
        }
        Note::Restart { task, generation } => {
            push_born(*generation, &mut what);
            told(alloc, turn, name_of(names, *task), what.as_str())
        }
        _ => Ok(String::new(alloc)),
    }
}

/// The texts of events.
///
/// # Errors
///
/// Only if memory runs out.
pub fn event_texts(
    alloc: Global,
    names: &[String],
    events: &[(u32, Note)],
) -> Result<Vec<String>, AllocError>
    ensures { IfOk result (λ v. map string_bytes v.items ≡ map
        (event_text (map string_bytes names.now)) events.now) }
{
    let mut texts = Vec::new(alloc);
    for (turn, note) in events {
        texts.push(event_text(alloc, names, *turn, note)?)?;
    }
    Ok(texts)
}

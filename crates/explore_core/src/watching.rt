//! What a run that goes on makes of a property, turn by turn.
ghost use Rattle.std.specs.Prelude.{◌≡◌};
ghost use Rattle.task_table.specs.model.State.{State};
ghost use Rattle.board_model.specs.Script.{Scenario};
ghost use Rattle.board_core.specs.Changes.{change_by, runner_of};
ghost use Rattle.board_core.specs.Data.{boxed};
ghost use Rattle.board_core.specs.Stands.{Stands};
ghost use Rattle.explore_core.specs.Asked.{is_another, is_some_other};
ghost use Rattle.explore_core.specs.Kept.{breaks_at_end, broken_if, by_turn, on_state, owes_at, tells_such};
ghost use Rattle.explore_core.specs.Made.{IsMade};
ghost use Rattle.explore_core.specs.There.{AreThere, byte_before};

use crate::shown::holds;
use crate::standing::{Standing, held_by, owed_on};
use board_core::{Board, End, Turned};
use kernel_abi::Note;
use run_question::{Line, Property};
use trace_text::is_sought;

/// Whether one of some notes is told by such a line.
fn tells(line: &Line, notes: &[Note]) -> bool
    ensures { result ≡ tells_such line.now notes.now }
{
    notes
        .iter()
        .any(|note| is_sought(line.kind, line.number, note))
}

fn broken_if(broken: bool, kept: u32) -> Standing
    ensures { result ≡ broken_if broken kept }
{
    if broken {
        Standing::Broken
    } else {
        Standing::Kept { turns: kept }
    }
}

/// Whether a turn ran another task than one that may change a byte, or none.
fn is_another(but: Option<u16>, made: Turned) -> bool
    ensures { result ≡ is_another but (runner_of made) }
{
    match but {
        None => true,
        Some(task) => match made {
            Turned::Idle => true,
            Turned::Ran { task: ran, .. } => ran != task,
        },
    }
}

/// Whether it changed the byte.
fn is_changed(but: Option<u16>, made: Turned, before: Option<u8>, after: Option<u8>) -> bool
    ensures { result ≡ is_some_other but (change_by (runner_of made) before after) }
{
    match before {
        None => false,
        Some(old) => match after {
            None => false,
            Some(new) => old != new && is_another(but, made),
        },
    }
}

/// The byte that is looked at before a turn.
pub(crate) fn byte_before(property: &Property, board: &Board) -> Option<u8>
    ensures { (x : Scenario) (s : State) → Stands (boxed shown) x board.now s →
        result ≡ byte_before property.now s }
{
    match *property {
        Property::NeverChanged { at, .. } => board.byte(at),
        _ => None,
    }
}

/// What is kept of a property by the turn that a board has made.
pub(crate) fn by_turn(
    property: &Property,
    kept: u32,
    before: Option<u8>,
    made: Turned,
    board: &Board,
) -> Standing
    ensures { (x : Scenario) (s : State) → IsMade (boxed shown) x property.now before made board.now
        s → result ≡ by_turn property.now kept x s }
{
    match property {
        Property::NeverTold { line } => broken_if(tells(line, board.notes()), kept),
        Property::NeverChanged { at, but } => {
            broken_if(is_changed(*but, made, before, board.byte(*at)), kept)
        }
        Property::Answered {
            line,
            answer,
            turns,
        } => {
            let notes = board.notes();
            owed_on(tells(line, notes), tells(answer, notes), *turns, kept)
        }
        Property::NeverSo { .. } | Property::EndsSo { .. } | Property::EndsStill => {
            Standing::Kept { turns: kept }
        }
    }
}

/// What is kept of it at the state where the board stands.
pub(crate) fn on_state(property: &Property, kept: u32, board: &Board) -> Standing
    ensures { (x : Scenario) (s : State) → Stands (boxed shown) x board.now s →
        AreThere property.now s → result ≡ on_state property.now kept s }
{
    match property {
        Property::NeverSo { condition, turns } => held_by(holds(condition, board), *turns, kept),
        _ => Standing::Kept { turns: kept },
    }
}

/// Where an answer is still owed at the end of a run.
fn owes_at(end: End, kept: u32) -> bool
    ensures { result ≡ owes_at end kept }
{
    match end {
        End::Bound => false,
        End::Still | End::Supervisor => 0 < kept,
    }
}

/// Whether the end of a run, where the board stands, breaks it.
pub(crate) fn breaks_at_end(property: &Property, kept: u32, end: End, board: &Board) -> bool
    ensures { (x : Scenario) (s : State) → Stands (boxed shown) x board.now s →
        AreThere property.now s → result ≡ breaks_at_end property.now kept end s }
{
    match property {
        Property::EndsSo { condition } => !holds(condition, board),
        Property::EndsStill => !matches!(end, End::Still),
        Property::Answered { .. } => owes_at(end, kept),
        _ => false,
    }
}

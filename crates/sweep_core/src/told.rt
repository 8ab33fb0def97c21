//! Plays a run to its end and says what a sweep tells of it.
ghost use Rattle.std.specs.Prelude.{◌≡◌, ◌≤◌, ◌-◌};
ghost use Rattle.task_table.specs.model.State.{State};
ghost use Rattle.board_model.specs.declared.outcomes.Level.TheVariants.{Calls};
ghost use Rattle.board_model.specs.Run.{run};
ghost use Rattle.board_model.specs.Script.{Scenario};
ghost use Rattle.board_core.specs.Data.{boxed};
ghost use Rattle.board_core.specs.Stands.{Stands, StandsForSome, turns_of};
ghost use Rattle.sweep_core.specs.Outcomes.{heard};
ghost use Rattle.sweep_core.specs.Swept.{is_supervisors};
ghost use Rattle.sweep_core.specs.Told.{IsToldFrom, IsToldAt, is_worse_told};

use crate::outcome::{OutcomeText, outcome_of};
use crate::tally::Tally;
use board_core::{Board, End, Level};
use board_run::play;

/// What a sweep tells of a run, and what it compares between runs.
#[derive(Clone, Copy, Drop)]
pub(crate) struct Told {
    pub(crate) words: OutcomeText,
    pub(crate) faults: u64,
    pub(crate) by_supervisor: bool,
}

/// The value for no run.
pub(crate) fn nothing_told() -> Told {
    Told {
        words: OutcomeText::new(),
        faults: 0,
        by_supervisor: false,
    }
}

fn is_supervisors(end: End) -> bool
    ensures { result ≡ is_supervisors end }
{
    match end {
        End::Supervisor => true,
        End::Bound | End::Still => false,
    }
}

/// What is told of a run with this end and this tally. The board is at the end of the run.
fn told_at(end: End, tally: &Tally, board: &Board, mem: bool) -> Told
    ensures { (x : Scenario) (s : State) → Stands (boxed shown) x board.now s →
        IsToldAt mem end tally.now s result }
{
    Told {
        words: outcome_of(end, tally, board, mem),
        faults: tally.faults,
        by_supervisor: is_supervisors(end),
    }
}

/// Goes on to a turn, or to the end of the run before it, and counts the notes on the way.
pub(crate) fn play_to(board: &mut Board, tally: &mut Tally, to: u32)
    requires stood { StandsForSome (boxed shown) board.old }
    requires from { turns_of board.old ≤ to }
    requires few { to ≤ 1000000000 }
    ensures last { (x : Scenario) (s : State) → Stands (boxed shown) x board.old s →
        Stands (boxed shown) x board.new (run Calls x (to - s.turn) s).last }
    ensures heard { (x : Scenario) (s : State) → Stands (boxed shown) x board.old s →
        tally.new ≡ heard tally.old (run Calls x (to - s.turn) s).notes }
    ensures within { turns_of board.new ≤ to }
{
    match play(board, to, Level::Calls, tally) {
        Ok(_) => {}
        Err(_) => unreachable!(),
    }
}

/// What is told of the run that goes on from the board's state, with the tally so far. The board
/// goes on to the end of the run.
pub(crate) fn told_from(board: &mut Board, front: &Tally, limit: u32, mem: bool) -> Told
    requires stood { StandsForSome (boxed shown) board.old }
    requires from { turns_of board.old ≤ limit }
    requires few { limit ≤ 1000000000 }
    ensures told { (x : Scenario) (s : State) → Stands (boxed shown) x board.old s →
        IsToldFrom mem front.now (run Calls x (limit - s.turn) s) result }
    ensures last { (x : Scenario) (s : State) → Stands (boxed shown) x board.old s →
        Stands (boxed shown) x board.new (run Calls x (limit - s.turn) s).last }
{
    let mut tally = *front;
    match play(board, limit, Level::Calls, &mut tally) {
        Ok(end) => told_at(end, &tally, board, mem),
        Err(_) => unreachable!(),
    }
}

/// Whether a run has more faults than the base run, or ends by a fault of the supervisor and the
/// base run does not.
pub(crate) fn is_worse(base: &Told, told: &Told) -> bool
    ensures { result ≡ is_worse_told base.now told.now }
{
    base.faults < told.faults || (told.by_supervisor && !base.by_supervisor)
}

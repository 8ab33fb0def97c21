//! The loop over turns.
ghost use Rattle.std.specs.Prelude.{◌≡◌, ◌≢◌, [], ◌≤◌, ◌<◌, ◌+◌, ◌-◌, ◌*◌, length, min, IfOk, MatchResult, OnOk, OnErr, IsNone, None};
ghost use Rattle.outside_io.specs.Outside.{Pushes, HasCause};
ghost use Rattle.task_table.specs.model.State.{State};
ghost use Rattle.board_model.specs.Script.{Scenario, start_of};
ghost use Rattle.board_core.specs.Stands.{Stands, StandsForSome, notes_of, turns_of};
ghost use Rattle.board_core.specs.Data.{boxed};
ghost use Rattle.board_model.specs.Run.{at_turn, run, ending};
ghost use Rattle.board_model.specs.Lifetimes.{IsLedgerOfRun};
ghost use Rattle.task_table.specs.kept.Limits.{turn_notes};
ghost use Rattle.trace_text.specs.Fit.{AreFit};
ghost use Rattle.board_run.specs.Text.{trace_text};
ghost use Rattle.board_run.specs.Timers.{HasFitTimers};
ghost use Rattle.board_run.specs.Running.{StandsMidway, BreaksOff, end_within};
ghost use Rattle.board_run.specs.Telling.{BreaksTelling, notes_in};

use crate::observer::Observer;
use crate::pushing::push_end;
use board_core::{Board, End, Level};
use outside_io::{Failed, Sink};
use trace_text::TurnLines;

// How a run ends, if it does. A fault of the supervisor comes first, then the bound, and then that
// nothing can happen any more.
fn end_within(ended: Option<End>, left: u32) -> Option<End>
    ensures is { result ≡ end_within ended left }
    ensures goes { IsNone result → ended ≡ None }
    ensures left { IsNone result → 0 < left }
{
    match ended {
        Some(End::Supervisor) => Some(End::Supervisor),
        Some(other) => {
            if left == 0 {
                Some(End::Bound)
            } else {
                Some(other)
            }
        }
        None => { if left == 0 { Some(End::Bound) } else { None } }
    }
}

/// Whether a run that makes the turns before turn `limit` ends before the next one, and why.
pub fn ending(board: &Board, limit: u32) -> Option<End>
    requires stood { StandsForSome (boxed shown) board.now }
    requires within { turns_of board.now ≤ limit }
    ensures end { (x : Scenario) (s : State) → Stands (boxed shown) x board.now s →
        result ≡ ending x (limit - s.turn) s }
    ensures goes { IsNone result → (x : Scenario) (s : State) → Stands (boxed shown) x board.now s →
        ending x 1 s ≡ None }
    ensures left { IsNone result → turns_of board.now < limit }
{
    end_within(board.ended(), limit - board.turns())
}

// What was told may be held back for this many turns. They are few enough that it can be read
// within milliseconds, and so many that passing it on costs nothing in comparison.
const TURNS_HELD_BACK: u32 = 65_536;

// The number of turns, at most `limit`, after which to pass on what is held back from here on.
fn due_after(turns: u32, limit: u32) -> u32
    ensures { result ≡ min (turns + 65536) limit }
{
    turns.saturating_add(TURNS_HELD_BACK).min(limit)
}

// Tells the notes of the last turn, and passes on what is held back if that is due. Returns when it
// is next due: at `limit` while nothing is held back.
fn tell_last<T: Observer>(
    board: &Board,
    due: u32,
    limit: u32,
    lines: &mut TurnLines,
    observer: &mut T,
) -> Result<u32, Failed>
    requires made { 0 < turns_of board.now }
    requires within { due ≤ limit }
    ensures told { MatchResult result
        (λ _. T.heard observer.old (at_turn (turns_of board.now - 1) (notes_of board.now))
        observer.new)
        (λ _. T.broke observer.old (at_turn (turns_of board.now - 1) (notes_of board.now))
        observer.new) }
    ensures within { IfOk result (λ next. next ≤ limit) }
    ensures later { IfOk result (λ next. turns_of board.now < limit → turns_of board.now < next) }

    // What is told while nothing is held back will be due soon, and stays due until it is passed
    // on.
    ensures soon { IfOk result (λ next. turns_of board.now < due → due ≡ limit →
        notes_of board.now ≢ [] → next ≡ min (turns_of board.now + 65536) limit) }
    ensures stays { IfOk result (λ next. turns_of board.now < due → due < limit → next ≡ due) }
{
    T::hears_in_parts();
    let turns = board.turns();
    let notes = board.notes();
    observer.tell(turns - 1, notes, lines)?;
    if turns >= due {
        observer.pass_on()?;
        return Ok(limit);
    }
    if due == limit && !notes.is_empty() {
        return Ok(due_after(turns, limit));
    }
    Ok(due)
}

/// Makes the turns up to the end of the run. Each is told at a level, and is passed on at most
/// 65,536 turns later. After a failure to tell, no further turn is made.
///
/// # Errors
///
/// Only if the observer failed.
pub fn play<T: Observer>(
    board: &mut Board,
    limit: u32,
    level: Level,
    observer: &mut T,
) -> Result<End, Failed>
    requires stood { StandsForSome (boxed shown) board.old }
    requires from { turns_of board.old ≤ limit }
    requires few { limit ≤ 1000000000 }

    ensures told { (x : Scenario) (s : State) → Stands (boxed shown) x board.old s →
        OnOk result (T.heard observer.old (run level x (limit - s.turn) s).notes observer.new) }
    ensures end { (x : Scenario) (s : State) → Stands (boxed shown) x board.old s →
        IfOk result (λ e. e ≡ (run level x (limit - s.turn) s).end) }
    ensures last { (x : Scenario) (s : State) → Stands (boxed shown) x board.old s →
        IfOk result (λ _. Stands (boxed shown) x board.new (run level x (limit - s.turn) s).last) }

    // The turns that were made have all the notes of the run, and these are no more than the turns
    // may note.
    ensures whole { (x : Scenario) (s : State) → Stands (boxed shown) x board.old s →
        OnOk result (notes_in level x (turns_of board.new - s.turn) s ≡ notes_in level x
        (limit - s.turn) s) }
    ensures noted { (x : Scenario) (s : State) → Stands (boxed shown) x board.old s →
        OnOk result (length (notes_in level x (limit - s.turn) s) ≤ turn_notes * limit) }

    // If telling failed, the notes of the turns before the last one were told, and no further turn
    // is made.
    ensures broken { (x : Scenario) (s : State) → Stands (boxed shown) x board.old s →
        OnErr result (BreaksTelling T.heard T.broke level x observer.old observer.new s board.new) }
    ensures midway { (x : Scenario) (s : State) → Stands (boxed shown) x board.old s →
        StandsMidway (boxed shown) level x board.new s }
    ensures within { turns_of board.new ≤ limit }
{
    T::hears_in_parts();
    let mut lines = TurnLines::new(0);
    let mut due = limit;
    'turns: loop {
        match ending(board, limit) {
            Some(end) => return Ok(end),
            None => {}
        }
        board.advance(level, due);
        due = tell_last(board, due, limit, &mut lines, observer)?;
    }
}

/// Makes the turns up to the end of the run, and pushes its text, with each turn at a level. After
/// a failing push nothing more is pushed, and no further turn is made.
pub fn run<S: Sink>(board: &mut Board, limit: u32, level: Level, out: &mut S) -> Result<End, Failed>
    requires stood { StandsForSome (boxed shown) board.old }
    requires from { turns_of board.old ≤ limit }
    requires few { limit ≤ 1000000000 }

    ensures text { (x : Scenario) (s : State) → Stands (boxed shown) x board.old s →
        Pushes (S.seen out.old).written (S.seen out.new).written
        (trace_text (run level x (limit - s.turn) s)) result }
    ensures end { (x : Scenario) (s : State) → Stands (boxed shown) x board.old s →
        IfOk result (λ e. e ≡ (run level x (limit - s.turn) s).end) }
    ensures last { (x : Scenario) (s : State) → Stands (boxed shown) x board.old s →
        IfOk result (λ _. Stands (boxed shown) x board.new (run level x (limit - s.turn) s).last) }

    // The numbers of the notes are in range, and so are the deadlines at the end.
    ensures fit { (x : Scenario) (s : State) → Stands (boxed shown) x board.old s →
        IfOk result (λ _. AreFit (run level x (limit - s.turn) s).notes) }
    ensures timers { (x : Scenario) (s : State) → Stands (boxed shown) x board.old s →
        IfOk result (λ _. HasFitTimers (run level x (limit - s.turn) s).last) }

    // In a run from the start, what the notes say of each call is true, and agrees with the calls
    // that are open at the end.
    ensures ledger { (x : Scenario) → Stands (boxed shown) x board.old (start_of x) →
        IsLedgerOfRun level x limit }

    // If a push failed, the lines of the turns before the last one are whole, and no further turn
    // is made.
    ensures broken { (x : Scenario) (s : State) → Stands (boxed shown) x board.old s →
        OnErr result (BreaksOff level x (limit - s.turn) (S.seen out.old).written
        (S.seen out.new).written s board.new) }
    ensures midway { (x : Scenario) (s : State) → Stands (boxed shown) x board.old s →
        StandsMidway (boxed shown) level x board.new s }
    ensures within { turns_of board.new ≤ limit }
    ensures cause { HasCause (S.seen out.old).faults (S.seen out.new).faults result }
{
    let end = play(board, limit, level, out)?;
    push_end(end, board, out)?;
    Ok(end)
}

//! A run as a timeline (docs/FORMATS.md, Timeline).
ghost use Rattle.std.specs.Prelude.{◌≡◌, ◌≤◌, ◌+◌, ◌-◌, ◌++◌, ◌∷◌, [], IfOk, IfErr, MatchResult, length, map, string_bytes};
ghost use Rattle.std.specs.List.{flat_map};
ghost use Rattle.outside_io.specs.Outside.{HasCause, Pushes, Rose};
ghost use Rattle.task_table.specs.model.State.{State};
ghost use Rattle.board_model.specs.declared.outcomes.Level.TheVariants.{Calls};
ghost use Rattle.board_model.specs.Script.{Scenario};
ghost use Rattle.board_model.specs.Run.{run};
ghost use Rattle.board_core.specs.Stands.{Stands, StandsForSome, count_of, turns_of};
ghost use Rattle.board_core.specs.Data.{boxed};
ghost use Rattle.run_lanes.specs.declared.timeline.TimelineFault.TheVariants as fault;
ghost use Rattle.run_lanes.specs.Kept.{BreaksText, SeesText, kept_of};
ghost use Rattle.run_lanes.specs.Timeline.{drawn_text, orders_text, outside_text, rests_text, tail_text, timeline_text};
ghost use Rattle.run_lanes.specs.Activities.{sights};

use crate::activity::Activity;
use crate::lanes::{Lanes, renew_all};
use crate::pushing::{push_head, push_notes, push_overs, push_rests, push_tail};
use crate::thread_names::name_lines;
use crate::watching::{Watcher, watch};
use board_core::{Board, End};
use kernel_abi::Note;
use outside_io::{Failed, Sink};
use std::alloc::{AllocError, Global};

/// Why a timeline was not written whole.
#[derive(Clone, Copy, Debug, PartialEq, Eq)]
pub enum TimelineFault {
    /// Memory ran out. Nothing was pushed, and no turn was made.
    Memory,
    /// A push failed.
    Failed,
}

impl From<AllocError> for TimelineFault {
    ghost from_gives = { λ _ e. e ≡ fault.Memory };

    fn from(_: AllocError) -> Self {
        TimelineFault::Memory
    }
}

impl From<Failed> for TimelineFault {
    ghost from_gives = { λ _ e. e ≡ fault.Failed };

    fn from(_: Failed) -> Self {
        TimelineFault::Failed
    }
}

// Pushes the stretches that end in a turn, and then the turn's notes.
fn push_turn<S: Sink>(
    turn: u32,
    activities: &[Activity],
    notes: &[Note],
    lanes: &mut Lanes,
    out: &mut S,
) -> Result<(), Failed>
    ensures { MatchResult result
        (λ _. SeesText (kept_of lanes.old) (S.seen out.old) (record {
          turn = turn;
          activities = activities.now;
          notes = notes.now;
        } ∷ []) (kept_of lanes.new) (S.seen out.new))
        (λ _. BreaksText (kept_of lanes.old) (S.seen out.old) (record {
          turn = turn;
          activities = activities.now;
          notes = notes.now;
        } ∷ []) (S.seen out.new)) }
{
    push_overs(turn, &lanes.stretches, activities, out)?;
    renew_all(turn, activities, &mut lanes.stretches);
    push_notes(turn, notes, &mut lanes.offers, out)?;
    Ok(())
}

/// Pushes to a sink the stretches that end in a turn, and then the turn's notes. Of idle turns only
/// the first one may end a stretch.
impl<S: Sink> Watcher<S> for Lanes {
    ghost saw = { λ l o turns k p. SeesText (kept_of l) (S.seen o) turns (kept_of k) (S.seen p) };

    ghost broke = { λ l o turns k p. BreaksText (kept_of l) (S.seen o) turns (S.seen p) };

    fn see(
        &mut self,
        turn: u32,
        activities: &[Activity],
        notes: &[Note],
        out: &mut S,
    ) -> Result<(), Failed> {
        push_turn(turn, activities, notes, self, out)
    }

    fn see_idle(
        &mut self,
        turn: u32,
        _turns: u32,
        activities: &[Activity],
        out: &mut S,
    ) -> Result<(), Failed> {
        push_turn(turn, activities, &[], self, out)
    }

    fn sees_in_parts() {}
}

// Pushes what comes after the turns: the stretches in which the tasks are, and the end of the text.
fn push_end<S: Sink>(turn: u32, lanes: &Lanes, out: &mut S) -> Result<(), Failed>
    ensures bytes { Pushes (S.seen out.old).written (S.seen out.new).written
        (rests_text turn lanes.now.stretches.items ++ tail_text) result }
    ensures cause { HasCause (S.seen out.old).faults (S.seen out.new).faults result }
{
    push_rests(turn, &lanes.stretches, out)?;
    push_tail(out)
}

// Makes the turns up to the end of the run, and pushes all that is written of them.
fn draw<S: Sink>(
    board: &mut Board,
    limit: u32,
    activities: &mut [Activity],
    lanes: &mut Lanes,
    out: &mut S,
) -> Result<End, Failed>
    requires stood { StandsForSome (boxed shown) board.old }
    requires from { turns_of board.old ≤ limit }
    requires few { limit ≤ 1000000000 }
    requires one_each { (x : Scenario) (s : State) → Stands (boxed shown) x board.old s →
        length activities.old ≡ length x.setup.tasks }
    ensures text { (x : Scenario) (s : State) → Stands (boxed shown) x board.old s →
        Pushes (S.seen out.old).written (S.seen out.new).written
        (drawn_text (kept_of lanes.old) s.turn (sights x (limit - s.turn) s)) result }
    ensures end { (x : Scenario) (s : State) → Stands (boxed shown) x board.old s →
        IfOk result (λ e. e ≡ (run Calls x (limit - s.turn) s).end) }
    ensures last { (x : Scenario) (s : State) → Stands (boxed shown) x board.old s →
        IfOk result (λ _. Stands (boxed shown) x board.new (run Calls x (limit - s.turn) s).last) }
    ensures within { turns_of board.new ≤ limit }
    ensures cause { HasCause (S.seen out.old).faults (S.seen out.new).faults result }
{
    let end = watch(board, limit, activities, lanes, out)?;
    push_end(board.turns(), lanes, out)?;
    Ok(end)
}

// The same, after what comes before the turns.
fn draw_whole<S: Sink>(
    board: &mut Board,
    limit: u32,
    lines: &[String],
    activities: &mut [Activity],
    lanes: &mut Lanes,
    out: &mut S,
) -> Result<End, Failed>
    requires stood { StandsForSome (boxed shown) board.old }
    requires from { turns_of board.old ≤ limit }
    requires few { limit ≤ 1000000000 }
    requires one_each { (x : Scenario) (s : State) → Stands (boxed shown) x board.old s →
        length activities.old ≡ length x.setup.tasks }
    ensures text { (x : Scenario) (s : State) → Stands (boxed shown) x board.old s →
        Pushes (S.seen out.old).written (S.seen out.new).written
        ((outside_text ++ flat_map string_bytes lines.now ++ orders_text (length lines.now + 1))
        ++ drawn_text (kept_of lanes.old) s.turn (sights x (limit - s.turn) s)) result }
    ensures end { (x : Scenario) (s : State) → Stands (boxed shown) x board.old s →
        IfOk result (λ e. e ≡ (run Calls x (limit - s.turn) s).end) }
    ensures last { (x : Scenario) (s : State) → Stands (boxed shown) x board.old s →
        IfOk result (λ _. Stands (boxed shown) x board.new (run Calls x (limit - s.turn) s).last) }
    ensures within { turns_of board.new ≤ limit }
    ensures cause { HasCause (S.seen out.old).faults (S.seen out.new).faults result }
{
    push_head(lines, out)?;
    draw(board, limit, activities, lanes, out)
}

/// Makes the turns up to the end of the run, and pushes its timeline (docs/FORMATS.md, Timeline),
/// in which the tasks have these names. Each event is a line, and one push. After a failing push
/// nothing more is pushed, and no further turn is made.
///
/// # Errors
///
/// `Memory` if there is none for the names and for what is kept of each task. Then nothing was
/// pushed, and no turn was made. `Failed` only if a push failed.
pub fn write_timeline<S: Sink>(
    alloc: Global,
    board: &mut Board,
    limit: u32,
    names: &[String],
    out: &mut S,
) -> Result<End, TimelineFault>
    requires stood { StandsForSome (boxed shown) board.old }
    requires from { turns_of board.old ≤ limit }
    requires few { limit ≤ 1000000000 }
    requires named { length names.now ≡ count_of board.old }

    ensures text { (x : Scenario) (s : State) → Stands (boxed shown) x board.old s →
        Pushes (S.seen out.old).written (S.seen out.new).written
        (timeline_text (map string_bytes names.now) x (limit - s.turn) s) result }
    ensures end { (x : Scenario) (s : State) → Stands (boxed shown) x board.old s →
        IfOk result (λ e. e ≡ (run Calls x (limit - s.turn) s).end) }
    ensures last { (x : Scenario) (s : State) → Stands (boxed shown) x board.old s →
        IfOk result (λ _. Stands (boxed shown) x board.new (run Calls x (limit - s.turn) s).last) }
    ensures within { turns_of board.new ≤ limit }

    // If memory ran out, nothing happened.
    ensures nothing { IfErr result (λ e. e ≡ fault.Memory → out.new ≡ out.old) }
    ensures nowhere { IfErr result (λ e. e ≡ fault.Memory → board.new ≡ board.old) }
    ensures later { (S.seen out.old).faults ≤ (S.seen out.new).faults }
    ensures cause { IfErr result (λ e. e ≡ fault.Failed →
        Rose (S.seen out.old).faults (S.seen out.new).faults) }
{
    let tasks = board.task_count();
    let lines = name_lines(alloc, names)?;
    let mut activities = Vec::from_elem(alloc, Activity::Ready, tasks)?;
    let mut lanes = Lanes::open(alloc, tasks, board.turns())?;
    let end = draw_whole(board, limit, &lines, &mut activities, &mut lanes, out)?;
    Ok(end)
}

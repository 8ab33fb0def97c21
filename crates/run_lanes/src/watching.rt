//! The loop over turns. Each turn is seen, with what every task does in it.
ghost use Rattle.std.specs.Prelude.{◌≡◌, ◌≤◌, ◌<◌, ◌+◌, ◌-◌, ℕ, true, List, ◌++◌, ◌∷◌, [], map, length, slice_index_or, if◌then◌else◌, IfOk, OnOk, OnErr, MatchResult};
ghost use Rattle.std.specs.List.{range_with_len};
ghost use Rattle.task_table.specs.model.State.{State};
ghost use Rattle.run_script.specs.Scripts.{events_of};
ghost use Rattle.board_model.specs.declared.outcomes.Level.TheVariants.{Calls};
ghost use Rattle.board_model.specs.declared.outcomes.Turned.TheVariants.{Idle};
ghost use Rattle.board_model.specs.Script.{Scenario};
ghost use Rattle.board_model.specs.Run.{run};
ghost use Rattle.board_core.specs.Stands.{Stands, StandsForSome, turns_of};
ghost use Rattle.board_core.specs.Data.{boxed};
ghost use Rattle.board_core.specs.Views.{IsTask};
ghost use Rattle.run_lanes.specs.declared.activity.Activity.{Activity as Said};
ghost use Rattle.run_lanes.specs.declared.activity.Activity.TheVariants as said;
ghost use Rattle.run_lanes.specs.Seen.{BreaksSeeing, Paired};
ghost use Rattle.run_lanes.specs.Activities.{TurnSight, idle_turns, is_of, sights, waiting};

use crate::activity::{Activity, activity_of};
use board_core::{Board, End, Level, TaskView, Turned};
use board_run::ending;
use kernel_abi::Note;
use outside_io::Failed;

/// What sees the turns of a run, and gives to `out` what it makes of them.
///
/// An implementation has two relations: how it and `out` change as turns are seen, and how they may
/// change if that fails.
pub trait Watcher<O> {
    /// All of these turns were seen. The first watcher and output are those before, the second ones
    /// those after.
    ghost saw: { Self → O → List TurnSight → Self → O → Type 0 };

    /// These turns were being seen, and that failed.
    ghost broke: { Self → O → List TurnSight → Self → O → Type 0 };

    /// Sees a turn, with what each task does in it and its notes.
    fn see(
        &mut self,
        turn: u32,
        activities: &[Activity],
        notes: &[Note],
        out: &mut O,
    ) -> Result<(), Failed>
        ensures { MatchResult result
            (λ _. saw self.old out.old (record {
              turn = turn;
              activities = activities.now;
              notes =
                  notes.now;
            }
            ∷ []) self.new out.new)
            (λ _. broke self.old out.old (record {
              turn = turn;
              activities = activities.now;
              notes = notes.now;
            } ∷ []) self.new out.new) };

    /// Sees this many turns from one on, at least one. In each the tasks do the same, none of them
    /// runs, and nothing is noted.
    fn see_idle(
        &mut self,
        turn: u32,
        turns: u32,
        activities: &[Activity],
        out: &mut O,
    ) -> Result<(), Failed>
        requires some { 0 < turns }
        ensures { MatchResult result
            (λ _. saw self.old out.old (idle_turns turn turns activities.now) self.new out.new)
            (λ _. broke self.old out.old (idle_turns turn turns activities.now) self.new out.new) };

    /// A law; the function does nothing. If nothing is seen, nothing changes, and turns may be seen
    /// in parts. A failure after some turns is a failure of all of them.
    fn sees_in_parts()
        ensures nothing { (w : Self) (o : O) → saw w o [] w o }
        ensures parts { (u v w : Self) (o p q : O) (a b : List TurnSight) → saw u o a v p →
            saw v p b w q → saw u o (a ++ b) w q }
        ensures fails { (u v w : Self) (o p q : O) (a b : List TurnSight) → saw u o a v p →
            broke v p b w q → broke u o (a ++ b) w q };
}

/// What a task does between turns.
fn waiting(task: &TaskView) -> Activity
    ensures { (s : State) (i : ℕ) → IsTask s i task.now → result ≡ waiting s i }
{
    activity_of(task.health, task.wait)
}

// What a task does between turns, by its index.
fn activity_at(board: &Board, i: usize) -> Activity
    ensures { (x : Scenario) (s : State) → Stands (boxed shown) x board.now s → i < length s.tasks →
        result ≡ waiting s i }
{
    match board.task(i) {
        Some(task) => waiting(&task),
        None => Activity::Stopped,
    }
}

// Writes what each task does between turns over a list of the same length.
fn look(board: &Board, activities: &mut [Activity])
    ensures len { length activities.new ≡ length activities.old }
    ensures activities { (x : Scenario) (s : State) → Stands (boxed shown) x board.now s →
        length activities.old ≡ length s.tasks →
        activities.new ≡ map (waiting s) (range_with_len 0 (length s.tasks)) }
{
    for i in 0..activities.len() {
        activities[i] = activity_at(board, i);
    }
}

// Marks the task whose turn it was.
fn mark(turned: Turned, activities: &mut [Activity])
    ensures len { length activities.new ≡ length activities.old }
    ensures marked { (k : ℕ) (d : Said) → k < length activities.old →
        slice_index_or activities.new k d ≡ (if is_of turned k then said.Runs else slice_index_or
        activities.old k d) }
{
    match turned {
        Turned::Idle => {}
        Turned::Ran { task, .. } => {
            let i = usize::from(task);
            if i < activities.len() {
                activities[i] = Activity::Runs;
            }
        }
    }
}

// Whether no task ran in a turn.
fn is_idle(turned: Turned) -> bool
    ensures { result ≡ true → turned ≡ Idle }
{
    match turned {
        Turned::Idle => true,
        Turned::Ran { .. } => false,
    }
}

// If no task is ready, the turn before which nothing happens; at most the limit. Otherwise the next
// turn.
fn idle_until(board: &Board, idle: bool, limit: u32) -> u32
    requires stood { StandsForSome (boxed shown) board.now }
    requires from { turns_of board.now ≤ limit }
    requires few { limit ≤ 1000000000 }
    ensures later { turns_of board.now ≤ result }
    ensures within { result ≤ limit }
    ensures idle { turns_of board.now < result → idle ≡ true }
    ensures nothing { (x : Scenario) (s : State) → Stands (boxed shown) x board.now s →
        (turn : ℕ) → s.turn ≤ turn → turn < result → events_of x.script turn ≡ [] }
{
    let from = board.turns();
    if !idle {
        return from;
    }
    match board.next(from) {
        Some(turn) => turn.min(limit),
        None => limit,
    }
}

/// Makes the turns up to the end of the run, and shows each to the watcher: turns in which no task
/// is ready and nothing happens, all at once. The list has an activity for each task. After the
/// watcher fails, no further turn is made.
///
/// # Errors
///
/// Only if the watcher failed.
pub fn watch<O, W: Watcher<O>>(
    board: &mut Board,
    limit: u32,
    activities: &mut [Activity],
    watcher: &mut W,
    out: &mut O,
) -> Result<End, Failed>
    requires stood { StandsForSome (boxed shown) board.old }
    requires from { turns_of board.old ≤ limit }
    requires few { limit ≤ 1000000000 }
    requires one_each { (x : Scenario) (s : State) → Stands (boxed shown) x board.old s →
        length activities.old ≡ length x.setup.tasks }
    ensures told { (x : Scenario) (s : State) → Stands (boxed shown) x board.old s →
        OnOk result (W.saw watcher.old out.old (sights x (limit - s.turn) s) watcher.new out.new) }
    ensures end { (x : Scenario) (s : State) → Stands (boxed shown) x board.old s →
        IfOk result (λ e. e ≡ (run Calls x (limit - s.turn) s).end) }
    ensures last { (x : Scenario) (s : State) → Stands (boxed shown) x board.old s →
        IfOk result (λ _. Stands (boxed shown) x board.new (run Calls x (limit - s.turn) s).last) }
    ensures turns { (x : Scenario) (s : State) → Stands (boxed shown) x board.old s →
        OnOk result (turns_of board.new ≡ s.turn + length (sights x (limit - s.turn) s)) }

    // If the watcher failed, the turns so far were the first ones of the run.
    ensures broken { (x : Scenario) (s : State) → Stands (boxed shown) x board.old s →
        OnErr result (BreaksSeeing (Paired W.broke) x (limit - s.turn) s (watcher.old, out.old)
        (watcher.new, out.new)) }
    ensures within { turns_of board.new ≤ limit }
{
    W::sees_in_parts();
    let mut idle = false;
    'turns: loop {
        match ending(board, limit) {
            Some(end) => return Ok(end),
            None => {}
        }
        look(board, activities);
        let from = board.turns();
        let to = idle_until(board, idle, limit);
        if from < to {
            watcher.see_idle(from, to - from, activities, out)?;
            board.skip(to);
        } else {
            let turned = board.turn_at(Level::Calls);
            mark(turned, activities);
            watcher.see(from, activities, board.notes(), out)?;
            idle = is_idle(turned);
        }
    }
}

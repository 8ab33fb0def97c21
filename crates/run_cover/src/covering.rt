//! Makes a run and counts how often each instruction was executed in it.
ghost use Rattle.std.specs.Prelude.{◌≡◌, ◌≤◌, ◌<◌, ◌-◌, ℕ, Bool, true, [], IfOk};
ghost use Rattle.outside_io.specs.Outside.{Pushes, HasCause};
ghost use Rattle.thumb_asm.specs.Listed.{labels_in};
ghost use Rattle.task_table.specs.model.State.{State};
ghost use Rattle.run_script.specs.Scripts.{events_of};
ghost use Rattle.board_model.specs.declared.outcomes.Level.TheVariants.{All};
ghost use Rattle.board_model.specs.declared.outcomes.Turned.TheVariants.{Idle};
ghost use Rattle.board_model.specs.Script.{Scenario};
ghost use Rattle.board_model.specs.Run.{run};
ghost use Rattle.board_core.specs.Stands.{Stands, StandsForSome, turns_of};
ghost use Rattle.board_core.specs.Data.{boxed};
ghost use Rattle.run_cover.specs.Counted.{IsNew, IsNewlyCounted, count_of, counts as counted};
ghost use Rattle.run_cover.specs.Known.{IsKnownOf};
ghost use Rattle.run_cover.specs.Text.{cover_text};

use crate::counts::PlaceCounts;
use crate::known::Marks;
use crate::listing::push_listing;
use board_core::{Board, End, Level, Turned};
use board_run::ending;
use outside_io::{Failed, Sink};
use std::alloc::{AllocError, Global};
use thumb_asm::Label;

/// The counts of a run for each even address of the flash and of the RAM, and which of these
/// addresses are known to be code. The counts take twelve bytes each, 7.5 MiB together. All of it
/// is made once.
#[derive(Drop)]
pub struct Cover {
    pub counts: PlaceCounts,
    pub marks: Marks,
}

impl Cover {
    /// A cover in which nothing was counted yet.
    ///
    /// # Errors
    ///
    /// Only if memory runs out.
    pub fn open(alloc: Global) -> Result<Cover, AllocError>
        ensures { IfOk result IsNew }
    {
        let counts = PlaceCounts::open(alloc)?;
        let marks = Marks::open(alloc)?;
        Ok(Cover { counts, marks })
    }
}

// Whether no task ran in a turn.
fn is_idle(turned: Turned) -> bool
    ensures { result ≡ true → turned ≡ Idle }
{
    match turned {
        Turned::Idle => true,
        Turned::Ran { .. } => false,
    }
}

// If no task is ready, the turn before which nothing happens; at most the limit. Otherwise the next
// turn.
fn idle_until(board: &Board, idle: bool, limit: u32) -> u32
    requires stood { StandsForSome (boxed shown) board.now }
    requires from { turns_of board.now ≤ limit }
    requires few { limit ≤ 1000000000 }
    ensures later { turns_of board.now ≤ result }
    ensures within { result ≤ limit }
    ensures idle { turns_of board.now < result → idle ≡ true }
    ensures nothing { (x : Scenario) (s : State) → Stands (boxed shown) x board.now s →
        (turn : ℕ) → s.turn ≤ turn → turn < result → events_of x.script turn ≡ [] }
{
    let from = board.turns();
    if !idle {
        return from;
    }
    match board.next(from) {
        Some(turn) => turn.min(limit),
        None => limit,
    }
}

/// Makes the turns up to the end of the run and counts what they execute. It takes no memory, and
/// counting never fails. Turns in which no task is ready and nothing happens count nothing, and are
/// made at once.
pub fn count_run(board: &mut Board, limit: u32, counts: &mut PlaceCounts) -> End
    requires stood { StandsForSome (boxed shown) board.old }
    requires from { turns_of board.old ≤ limit }
    requires few { limit ≤ 1000000000 }
    requires new { IsNewlyCounted counts.old }

    ensures counted { (x : Scenario) (s : State) → Stands (boxed shown) x board.old s →
        count_of counts.new ≡ counted (run All x (limit - s.turn) s).notes }
    ensures end { (x : Scenario) (s : State) → Stands (boxed shown) x board.old s →
        result ≡ (run All x (limit - s.turn) s).end }
    ensures last { (x : Scenario) (s : State) → Stands (boxed shown) x board.old s →
        Stands (boxed shown) x board.new (run All x (limit - s.turn) s).last }
    ensures within { turns_of board.new ≤ limit }
{
    let mut idle = false;
    'turns: loop {
        match ending(board, limit) {
            Some(end) => return end,
            None => {}
        }
        let from = board.turns();
        let to = idle_until(board, idle, limit);
        if from < to {
            board.skip(to);
        } else {
            let turned = board.turn_at(Level::All);
            counts.hear_all(from, board.notes());
            idle = is_idle(turned);
        }
    }
}

/// Makes the turns up to the end of the run without writing a trace, and then pushes the cover of
/// the run (docs/FORMATS.md, Cover). For each region of code it has a line for each known
/// instruction, with how often it was executed; before that, a line for each label at its address,
/// in their order. Each count is a number of turns, by `each_count_is_a_number_of_turns`. Exactly
/// these instructions are known: the executed ones, the entries of tasks, and those to which known
/// instructions lead directly. After a failing push nothing more is pushed; the run is still made
/// to its end.
///
/// # Errors
///
/// Only if a push fails.
pub fn write_cover<S: Sink>(
    board: &mut Board,
    limit: u32,
    cover: &mut Cover,
    labels: &[Label],
    out: &mut S,
) -> Result<End, Failed>
    requires stood { StandsForSome (boxed shown) board.old }
    requires from { turns_of board.old ≤ limit }
    requires few { limit ≤ 1000000000 }
    requires new { IsNew cover.old }

    ensures text { (x : Scenario) (s : State) → Stands (boxed shown) x board.old s →
        (k : ℕ → Bool) × IsKnownOf x.setup (run All x (limit - s.turn) s) k
        × Pushes (S.seen out.old).written (S.seen out.new).written
        (cover_text x.setup (run All x (limit - s.turn) s) k (labels_in labels.now)) result }
    ensures end { (x : Scenario) (s : State) → Stands (boxed shown) x board.old s →
        IfOk result (λ e. e ≡ (run All x (limit - s.turn) s).end) }

    // The board is at the end of the run, even if a push failed.
    ensures last { (x : Scenario) (s : State) → Stands (boxed shown) x board.old s →
        Stands (boxed shown) x board.new (run All x (limit - s.turn) s).last }
    ensures within { turns_of board.new ≤ limit }
    ensures cause { HasCause (S.seen out.old).faults (S.seen out.new).faults result }
{
    let end = count_run(board, limit, &mut cover.counts);
    cover.marks.find(board, &cover.counts);
    push_listing(board, cover, labels, out)?;
    Ok(end)
}

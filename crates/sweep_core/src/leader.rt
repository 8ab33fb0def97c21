//! `Leader`: the last run that was played to its end, and runs that end as it does.
ghost use Rattle.std.specs.Prelude.{◌≡◌, ◌<◌, ◌≤◌, ◌+◌, ◌-◌, ◌*◌, ◌⊎◌, true, false, IfOk, IfSome};
ghost use Rattle.std.specs.Int.{IsNextPowerOfTwo};
ghost use Rattle.task_table.specs.model.State.{State};
ghost use Rattle.board_model.specs.declared.outcomes.Level.TheVariants.{Calls};
ghost use Rattle.board_model.specs.Run.{run};
ghost use Rattle.board_model.specs.Script.{Scenario};
ghost use Rattle.board_core.specs.Data.{boxed};
ghost use Rattle.board_core.specs.Stands.{Stands, StandsForSome, turns_of};
ghost use Rattle.sweep_core.specs.Leading.{HasGoneOn, HasMet, HasMissed, HasPassed, IsAtStop, IsLeading, IsUnderWay, board_script, run_from};
ghost use Rattle.sweep_core.specs.Told.{IsToldFrom};

use crate::checkpoints::Checkpoints;
use crate::tally::Tally;
use crate::told::{Told, nothing_told, play_to, told_from};
use board_core::Board;
use board_run::ending;
use snapshot::{save_over, saved_len};
use std::alloc::{AllocError, Global};
use std::mem::swap;

/// The most states of a run that are kept, and the most bytes that they have together.
const MOST: usize = 48;

const MOST_BYTES: usize = 2 << 20;

/// The last run that was played to its end, which leads, and the run that follows it.
#[derive(Drop)]
pub(crate) struct Leader {
    /// What was told of the run that leads, and its checkpoints.
    pub(crate) told: Told,
    pub(crate) led: Checkpoints,

    /// The checkpoints of the run that follows.
    pub(crate) passed: Checkpoints,

    /// Room for the present state of the run that follows.
    pub(crate) here: Vec<u8>,
}

/// How many states of `len` bytes are kept: at least two.
fn room_for(len: usize) -> usize
    ensures some { 2 ≤ result }
    ensures most { result ≤ 48 }
    ensures bytes { 2 < result → result * len ≤ 2097152 }
{
    (MOST_BYTES / len.max(1)).clamp(2, MOST)
}

/// The first turn after this one that is a power of two turns after turn `over`.
fn own_stop(turn: u32, over: u32) -> u32
    requires turn { turn ≤ 1000000000 }
    requires over { over ≤ 2000000000 }
    ensures behind { turn < result }
    ensures over { over ≤ result }
    ensures power { IsNextPowerOfTwo (turn + 1 - over) (result - over) }
{
    over + (turn + 1).saturating_sub(over).next_power_of_two()
}

impl Leader {
    /// A leader without a run. All memory is taken here, for states of `len` bytes.
    ///
    /// # Errors
    ///
    /// Only if memory runs out.
    pub(crate) fn open(alloc: Global, len: usize) -> Result<Leader, AllocError>
        ensures { IfOk result (λ w. w.led.count ≡ 0) }
    {
        let states = room_for(len);
        Ok(Leader {
            told: nothing_told(),
            led: Checkpoints::with_room(alloc, states, len)?,
            passed: Checkpoints::with_room(alloc, states, len)?,
            here: vec![in alloc; 0; len]?,
        })
    }

    /// The next turn after this one at which to look at the run of a board, whose arrival has ended
    /// by turn `over`. It is a turn of which the leading run has a checkpoint, or one that is a
    /// power of two turns after turn `over`. None if the run ends here or before that turn.
    fn stop(&self, board: &Board, turn: u32, over: u32, limit: u32) -> Option<u32>
        requires stood { StandsForSome (boxed shown) board.now }
        requires within { turns_of board.now ≤ limit }
        requires turn { turn ≤ 1000000000 }
        requires over { over ≤ 2000000000 }
        ensures behind { IfSome result (λ stop. turn < stop) }
        ensures over { IfSome result (λ stop. over ≤ stop) }
        ensures within { IfSome result (λ stop. stop < limit) }
    {
        if ending(board, limit).is_some() {
            return None;
        }
        let stop = self.led.next(over.max(turn + 1)).min(own_stop(turn, over));
        if stop < limit { Some(stop) } else { None }
    }

    /// Whether the run of a board, with this tally, has reached a checkpoint of the leading run
    /// before turn `stop`. If not, and if it is before turn `stop`, its state is kept as long as
    /// there is room for one more. The states of a run all have the same length, so it fits.
    fn meets(&mut self, board: &Board, heard: &Tally, stop: u32) -> bool
        requires { StandsForSome (boxed shown) board.now }
        ensures at { result ≡ true → turns_of board.now ≡ stop }
        ensures met { result ≡ true → (x : Scenario) (s : State) →
            Stands (boxed shown) x board.now s → HasMet x s heard.now self.old.led }
        ensures missed { result ≡ false → (x : Scenario) (s : State) →
            IsAtStop (boxed shown) x board.now s stop self.old.here.items →
            HasMissed s heard.now self.old.led }
        ensures passed { result ≡ false → (x : Scenario) (s : State) →
            Stands (boxed shown) x board.now s → (self.new.passed ≡ self.old.passed)
            ⊎ HasPassed x s heard.now stop self.old.passed self.new.passed }
        ensures led { self.new.led ≡ self.old.led }
        ensures told { self.new.told ≡ self.old.told }
    {
        if board.turns() != stop || self.here.len() != saved_len(board) {
            return false;
        }
        save_over(board, &mut self.here);
        if self.led.has(heard, self.here.as_slice()) {
            return true;
        }
        self.passed.keep(stop, heard, &mut self.here);
        false
    }

    /// Makes the run that goes on from here the leading one and plays it to its end.
    fn lead(&mut self, board: &mut Board, heard: &Tally, limit: u32, mem: bool) -> Told
        requires stood { StandsForSome (boxed shown) board.old }
        requires from { turns_of board.old ≤ limit }
        requires few { limit ≤ 1000000000 }
        ensures told { (x : Scenario) (s : State) → Stands (boxed shown) x board.old s →
            IsToldFrom mem heard.now (run Calls x (limit - s.turn) s) result }
        ensures last { (x : Scenario) (s : State) → Stands (boxed shown) x board.old s →
            Stands (boxed shown) x board.new (run Calls x (limit - s.turn) s).last }
        ensures led { self.new.led ≡ self.old.passed }
        ensures kept { self.new.told ≡ result }
    {
        self.told = told_from(board, heard, limit, mem);
        swap(&mut self.led, &mut self.passed);
        self.told
    }

    /// What is told of the run that goes on from the board's state. The tally is that of the run so
    /// far, and its arrival has ended by turn `over`. The board goes on to the end of the run, or
    /// until it meets the leading run: then both end the same way.
    pub(crate) fn follow(
        &mut self,
        board: &mut Board,
        front: &Tally,
        over: u32,
        limit: u32,
        mem: bool,
    ) -> Told
        requires way { (x : Scenario) × (s : State) × IsUnderWay (boxed shown) x over board.old s }
        requires from { turns_of board.old ≤ limit }
        requires over { over ≤ 2000000000 }
        requires few { limit ≤ 1000000000 }
        ensures told { (x : Scenario) (s : State) → IsUnderWay (boxed shown) x over board.old s →
            IsLeading x limit mem self.old →
            IsToldFrom mem front.now (run_from x (board_script board.old) limit s) result }
        ensures leads { (x : Scenario) (s : State) → IsUnderWay (boxed shown) x over board.old s →
            IsLeading x limit mem self.old → IsLeading x limit mem self.new }
        ensures last { (x : Scenario) (s : State) → IsUnderWay (boxed shown) x over board.old s →
            HasGoneOn (boxed shown) x (board_script board.old) s board.new }
    {
        self.passed.clear();
        let mut heard = *front;
        let mut turn = board.turns();
        'stops: while let Some(stop) = self.stop(board, turn, over, limit) {
            turn = stop;
            play_to(board, &mut heard, stop);
            if self.meets(board, &heard, stop) {
                return self.told;
            }
        }
        self.lead(board, &heard, limit, mem)
    }
}

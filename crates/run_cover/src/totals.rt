//! How much of a region was executed.
ghost use Rattle.std.specs.Prelude.{◌≡◌, ◌<◌, ◌+◌, ◌*◌, ◌^◌};
ghost use Rattle.task_table.specs.model.State.{State};
ghost use Rattle.board_model.specs.Script.{Scenario};
ghost use Rattle.board_core.specs.Stands.{Stands};
ghost use Rattle.board_core.specs.Data.{boxed};
ghost use Rattle.run_cover.specs.Covered.{covered};
ghost use Rattle.run_cover.specs.Totals.{AreAtMost, added, no_totals, once, totals_at, totals_in, totals_of};

use crate::counts::Count;
use crate::covering::Cover;
use crate::ways::{is_conditional, stands_at};
use board_core::Board;

/// How many known instructions were executed, and how many there are; how many ways of conditional
/// branches were used, and how many there are.
#[derive(Clone, Copy)]
pub struct Totals {
    pub executed: u64,
    pub known: u64,
    pub gone: u64,
    pub ways: u64,
}

fn once(is: bool) -> u64
    ensures { result ≡ once is }
{
    if is { 1 } else { 0 }
}

impl Totals {
    /// The totals of nothing.
    pub fn none() -> Totals
        ensures is { result ≡ no_totals }
        ensures few { AreAtMost 0 result }
    {
        Totals {
            executed: 0,
            known: 0,
            gone: 0,
            ways: 0,
        }
    }

    /// The sum of both. No cover counts 2^62 instructions.
    pub fn added(self, other: Totals) -> Totals
        requires mine { AreAtMost (2 ^ 62) self }
        requires theirs { AreAtMost (2 ^ 62) other }
        ensures { result ≡ added self other }
    {
        Totals {
            executed: self.executed + other.executed,
            known: self.known + other.known,
            gone: self.gone + other.gone,
            ways: self.ways + other.ways,
        }
    }
}

/// The totals of an instruction.
pub fn totals_of(conditional: bool, count: Count) -> Totals
    ensures is { result ≡ totals_of conditional count }
    ensures few { AreAtMost 2 result }
{
    let executed = once(0 < count.executed);
    if conditional {
        let gone = once(0 < count.taken) + once(count.taken < count.executed);
        return Totals {
            executed,
            known: 1,
            gone,
            ways: 2,
        };
    }
    Totals {
        executed,
        known: 1,
        gone: 0,
        ways: 0,
    }
}

// The totals of a place.
#[tactic(auto, unfolding(crate::specs::Totals::totals_at))]
fn totals_at(board: &Board, cover: &Cover, addr: u32) -> Totals
    requires { addr + 3 < 2 ^ 32 }
    ensures is { (x : Scenario) (s : State) → Stands (boxed shown) x board.now s →
        result ≡ totals_at (covered s.memory cover.now) addr }
    ensures few { AreAtMost 2 result }
{
    if !cover.marks.has(addr) {
        return Totals::none();
    }
    totals_of(
        is_conditional(stands_at(board, addr)),
        cover.counts.at(addr),
    )
}

/// The totals of `count` places from a base on.
#[tactic(auto, unfolding(crate::specs::Totals::totals_in))]
pub fn totals_in(board: &Board, cover: &Cover, base: u32, count: u32) -> Totals
    requires inside { base + 2 * count + 3 < 2 ^ 32 }
    ensures is { (x : Scenario) (s : State) → Stands (boxed shown) x board.now s →
        result ≡ totals_in (covered s.memory cover.now) base count }
    ensures few { AreAtMost (2 * count) result }
{
    let mut totals = Totals::none();
    for j in 0..count {
        totals = totals.added(totals_at(board, cover, base + 2 * j));
    }
    totals
}

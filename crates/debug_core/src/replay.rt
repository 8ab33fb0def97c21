//! `Replay`: a run that goes forwards and back, as a board and checkpoints of its run. (This is not
//! the timeline that a command writes.)

ghost use Rattle.std.specs.Prelude.{ℕ, ◌≡◌, ◌≤◌, ◌<◌, ◌+◌, ◌-◌, length, IfOk, IsNone, Some, None};
ghost use Rattle.std.specs.List.{All, HoldsAt};
ghost use Rattle.task_table.specs.model.State.{State};
ghost use Rattle.board_model.specs.Alike.{reduced};
ghost use Rattle.board_model.specs.Run.{ending};
ghost use Rattle.board_model.specs.Script.{Scenario, start_of};
ghost use Rattle.board_core.specs.Data.{boxed};
ghost use Rattle.board_core.specs.Stands.{Stands, turns_of};
ghost use Rattle.snapshot.specs.Saved.{SpellsState, spelling};
ghost use Rattle.debug_core.specs.Runs.{state_at};
ghost use Rattle.debug_core.specs.Hits.{CameTo, WentPast};
ghost use Rattle.debug_core.specs.Times.{IsAt, IsFree, later_of};

use board_core::{Board, End, Level};
use board_run::{Nobody, ending, play};
use snapshot::{load_into, save_over, saved_len, saved_states_are_accepted};
use std::alloc::{AllocError, Global};

/// There is room for `ROOM` checkpoints. They are `APART` turns apart.
const ROOM: usize = 64;

const APART: u32 = 65_536;

/// The turn of the next checkpoint, or turn `to` if that comes first.
pub(crate) fn stop_before(turn: u32, to: u32) -> u32
    requires below { turn < to }
    requires few { to ≤ 1000000000 }
    ensures on { turn < result }
    ensures within { result ≤ to }
{
    ((turn / APART + 1) * APART).min(to)
}

/// A saved state of the run with its turn, or room for one.
#[derive(Drop)]
pub(crate) struct Checkpoint {
    pub(crate) turn: Option<u32>,
    pub(crate) bytes: Vec<u8>,
}

/// A board that goes forwards and back.
#[derive(Drop)]
pub(crate) struct Replay {
    pub(crate) board: Board,
    pub(crate) kept: Vec<Checkpoint>,
}

/// Room for checkpoints of `len` bytes each.
fn room_for(alloc: Global, len: usize) -> Result<Vec<Checkpoint>, AllocError>
    ensures count { IfOk result (λ v. length v.items ≡ 64) }
    ensures free { IfOk result (λ v. All IsFree v.items) }
    ensures room { IfOk result (λ v. All (λ c. length c.bytes.items ≡ len) v.items) }
{
    let mut kept = Vec::with_capacity(alloc, ROOM)?;
    for _ in 0..ROOM {
        let bytes = vec![in alloc; 0; len]?;
        kept.push(Checkpoint { turn: None, bytes })?;
    }
    Ok(kept)
}

/// The place of the checkpoint of a turn. Only the turn decides it. The multiples of `APART` are in
/// groups by how often two divides `turn / APART`, and the last four of each group are kept. So a
/// turn that is n turns back has a checkpoint at most about n turns before it. The first place is
/// for the start.
fn place_of(turn: u32) -> usize
    ensures behind { 0 < result }
    ensures inside { result < 64 }
{
    let mut rest = turn / APART;
    let mut group = 0;
    'halves: while group < 13 && rest % 2 == 0 {
        rest /= 2;
        group += 1;
    }
    1 + 4 * group + (rest / 2 % 4) as usize
}

/// Saves the state of a board in a checkpoint.
fn save(board: &Board, checkpoint: &mut Checkpoint)
    requires room { (x : Scenario) × (s : State) × Stands (boxed shown) x board.now s
        × (length checkpoint.old.bytes.items ≡ length (spelling (reduced s))) }
    ensures turn { checkpoint.new.turn ≡ Some (turns_of board.now) }
    ensures spelled { (x : Scenario) (s : State) → Stands (boxed shown) x board.now s →
        SpellsState x.setup (reduced s) checkpoint.new.bytes.items }
{
    checkpoint.turn = Some(board.turns());
    save_over(board, &mut checkpoint.bytes);
}

/// The later one of two checkpoints, as its place and its turn. The second one counts only if it is
/// of turn `to` or earlier.
fn later(best: (usize, u32), place: usize, turn: Option<u32>, to: u32) -> (usize, u32)
    ensures { result ≡ later_of to best place turn }
{
    match turn {
        Some(turn) if best.1 <= turn && turn <= to => (place, turn),
        _ => best,
    }
}

impl Replay {
    /// Opens a replay at the start of a run, with a board that is there. All memory is taken here.
    ///
    /// # Errors
    ///
    /// Only if memory runs out. The board is dropped then.
    pub(crate) fn open(alloc: Global, board: Board) -> Result<Replay, AllocError>
        requires { (x : Scenario) × Stands (boxed shown) x board (start_of x) }
        ensures { (x : Scenario) → Stands (boxed shown) x board (start_of x) →
            IfOk result (λ t. IsAt (boxed shown) x t 0) }
    {
        let mut kept = room_for(alloc, saved_len(&board))?;
        save(&board, &mut kept[0]);
        Ok(Replay { board, kept })
    }

    /// Why a run that makes turns below `limit` ends here, if it does.
    pub(crate) fn ending(&self, limit: u32) -> Option<End>
        requires { (x : Scenario) × (turn : ℕ) × IsAt (boxed shown) x self.now turn
            × (turn ≤ limit) }
        ensures end { (x : Scenario) (turn : ℕ) → IsAt (boxed shown) x self.now turn →
            turn ≤ limit → result ≡ ending x (limit - turn) (state_at x turn) }
        ensures goes { IsNone result → (x : Scenario) (turn : ℕ) →
            IsAt (boxed shown) x self.now turn → ending x 1 (state_at x turn) ≡ None }
        ensures left { IsNone result → turns_of self.now.board < limit }
    {
        ending(&self.board, limit)
    }

    /// Saves the state here at a place after the first one, if it fits there. It does fit: the
    /// states of a run all have the same length.
    fn keep_at(&mut self, place: usize)
        requires at { (x : Scenario) × (turn : ℕ) × IsAt (boxed shown) x self.old turn }
        requires behind { 0 < place }
        requires inside { place < 64 }
        ensures at { (x : Scenario) (turn : ℕ) → IsAt (boxed shown) x self.old turn →
            IsAt (boxed shown) x self.new turn }
        ensures turns { turns_of self.new.board ≡ turns_of self.old.board }
    {
        if self.kept[place].bytes.len() == saved_len(&self.board) {
            save(&self.board, &mut self.kept[place]);
        }
    }

    /// Makes a checkpoint if one is due.
    pub(crate) fn keep(&mut self)
        requires { (x : Scenario) × (turn : ℕ) × IsAt (boxed shown) x self.old turn }
        ensures at { (x : Scenario) (turn : ℕ) → IsAt (boxed shown) x self.old turn →
            IsAt (boxed shown) x self.new turn }
        ensures turns { turns_of self.new.board ≡ turns_of self.old.board }
    {
        let turn = self.board.turns();
        if turn % APART == 0 {
            self.keep_at(place_of(turn));
        }
    }

    /// Goes on to a turn, or to the end of the run before it, without making a checkpoint.
    pub(crate) fn run_to(&mut self, to: u32)
        requires from { (x : Scenario) × (turn : ℕ) × IsAt (boxed shown) x self.old turn
            × (turn ≤ to) }
        requires few { to ≤ 1000000000 }
        ensures at { (x : Scenario) (turn : ℕ) → IsAt (boxed shown) x self.old turn → turn ≤ to →
            IsAt (boxed shown) x self.new (state_at x to).turn }
        ensures within { turns_of self.new.board ≤ to }
    {
        match play(&mut self.board, to, Level::Calls, &mut Nobody) {
            Ok(_) => {}
            Err(_) => unreachable!(),
        }
    }

    /// Goes on to a turn, or to the end of the run before it.
    pub(crate) fn go_to(&mut self, to: u32)
        requires from { (x : Scenario) × (turn : ℕ) × IsAt (boxed shown) x self.old turn
            × (turn ≤ to) }
        requires few { to ≤ 1000000000 }
        ensures { (x : Scenario) (turn : ℕ) → IsAt (boxed shown) x self.old turn → turn ≤ to →
            IsAt (boxed shown) x self.new (state_at x to).turn }
    {
        'stretches: while self.ending(to).is_none() {
            let stop = stop_before(self.board.turns(), to);
            self.run_to(stop);
            self.keep();
        }
    }

    /// Goes on by some turns before turn `stop`. If the last of them ran a task at a breakpoint,
    /// returns that task and its PC. No turn before it ran one.
    fn advance_past(&mut self, breakpoints: &[u32], stop: u32) -> Option<(u16, u32)>
        requires from { (x : Scenario) × (turn : ℕ) × IsAt (boxed shown) x self.old turn
            × (ending x 1 (state_at x turn) ≡ None) }
        requires left { turns_of self.old.board < stop }
        requires few { stop ≤ 1000000000 }
        ensures went { (x : Scenario) (turn : ℕ) → IsAt (boxed shown) x self.old turn →
            ending x 1 (state_at x turn) ≡ None →
            WentPast (boxed shown) x breakpoints.now turn self.new result }
        ensures more { turns_of self.old.board < turns_of self.new.board }
        ensures within { turns_of self.new.board ≤ stop }
    {
        let hit = self.board.advance_past(breakpoints, stop);
        self.keep();
        hit
    }

    /// Goes on to a turn, or to the end of the run before it, but stops right after the first turn
    /// that runs a task at a breakpoint. Then it returns that task and its PC.
    pub(crate) fn go_to_hit(&mut self, breakpoints: &[u32], to: u32) -> Option<(u16, u32)>
        requires from { (x : Scenario) × (turn : ℕ) × IsAt (boxed shown) x self.old turn
            × (turn ≤ to) }
        requires few { to ≤ 1000000000 }
        ensures { (x : Scenario) (turn : ℕ) → IsAt (boxed shown) x self.old turn → turn ≤ to →
            CameTo (boxed shown) x breakpoints.now turn to self.new result }
    {
        'stretches: while self.ending(to).is_none() {
            let stop = stop_before(self.board.turns(), to);
            if let Some(hit) = self.advance_past(breakpoints, stop) {
                return Some(hit);
            }
        }
        None
    }

    /// The place and the turn of the last checkpoint of turn `to` or earlier.
    pub(crate) fn last_until(&self, to: u32) -> (usize, u32)
        requires first { HoldsAt (λ c. c.turn ≡ Some 0) self.now.kept.items 0 }
        requires some { 0 < length self.now.kept.items }
        ensures inside { result.0 < length self.now.kept.items }
        ensures is { HoldsAt (λ c. c.turn ≡ Some result.1) self.now.kept.items result.0 }
        ensures early { result.1 ≤ to }
        ensures last { (k turn : ℕ) → k < length self.now.kept.items →
            HoldsAt (λ c. c.turn ≡ Some turn) self.now.kept.items k → turn ≤ to → turn ≤ result.1 }
    {
        let mut best = (0, 0);
        for (k, checkpoint) in self.kept.iter().enumerate() {
            best = later(best, k, checkpoint.turn, to);
        }
        best
    }

    /// Goes to the turn of a checkpoint.
    pub(crate) fn load(&mut self, place: usize)
        requires inside { place < length self.old.kept.items }
        requires saved { (x : Scenario) × (turn : ℕ) × IsAt (boxed shown) x self.old turn
            × (from : ℕ) × HoldsAt (λ c. c.turn ≡ Some from) self.old.kept.items place }
        ensures { (x : Scenario) (turn from : ℕ) → IsAt (boxed shown) x self.old turn →
            HoldsAt (λ c. c.turn ≡ Some from) self.old.kept.items place →
            IsAt (boxed shown) x self.new from }
    {
        saved_states_are_accepted();
        load_into(&mut self.board, self.kept[place].bytes.as_slice());
    }

    /// Goes back to a turn, from the last checkpoint at that turn or before it.
    pub(crate) fn back_to(&mut self, to: u32)
        requires { (x : Scenario) × (turn : ℕ) × IsAt (boxed shown) x self.old turn × (to ≤ turn) }
        ensures { (x : Scenario) (turn : ℕ) → IsAt (boxed shown) x self.old turn → to ≤ turn →
            IsAt (boxed shown) x self.new to }
    {
        let (place, _turn) = self.last_until(to);
        self.load(place);
        self.go_to(to);
    }
}

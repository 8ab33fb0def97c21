//! What a run makes of the properties that are watched.
ghost use Rattle.std.specs.Prelude.{ℕ, ◌≡◌, ◌<◌, ◌≤◌, map, length, slice_get, slice_index, IfOk};
ghost use Rattle.std.specs.List.{All, list_any};
ghost use Rattle.std.specs.Option.{option_map};
ghost use Rattle.task_table.specs.model.State.{State};
ghost use Rattle.board_model.specs.Script.{Scenario};
ghost use Rattle.board_core.specs.Data.{boxed};
ghost use Rattle.board_core.specs.Stands.{Stands, turns_of};
ghost use Rattle.explore_core.specs.There.{AreThere};
ghost use Rattle.explore_core.specs.Made.{IsMade};
ghost use Rattle.explore_core.specs.Watching.{AllThere, are_open, begun, begun_at, begun_in, finished, finished_at, finished_in, is_open, looked, number_at, number_of, numbered, stepped_in, unjudged, watched_of, with_number};

use crate::seen::MOST;
use crate::standing::Standing;
use crate::verdict::Verdict;
use crate::watch::{Watch, Watched};
use crate::watching::{byte_before, on_state};
use board_core::{Board, End, Turned};
use run_question::{Property, Stated};
use std::alloc::{AllocError, Global};

impl Verdict {
    fn is_open(self) -> bool
        ensures { result ≡ is_open self }
    {
        match self {
            Verdict::Open { .. } => true,
            Verdict::Broken { .. } => false,
        }
    }

    /// The number that is kept; 0 if it is broken.
    fn number(self) -> u32
        ensures { result ≡ number_of self }
    {
        match self {
            Verdict::Open { kept } => kept,
            Verdict::Broken { .. } => 0,
        }
    }

    /// The same with another number, if it is not broken.
    fn with_number(self, kept: u32) -> Verdict
        ensures { result ≡ with_number kept self }
    {
        match self {
            Verdict::Open { .. } => Verdict::Open { kept },
            Verdict::Broken { turn } => Verdict::Broken { turn },
        }
    }

    /// The verdict at the start of a run, where the board stands.
    fn begin(self, property: &Property, board: &Board) -> Verdict
        ensures { (x : Scenario) (s : State) → Stands (boxed shown) x board.now s →
            AreThere property.now s → result ≡ begun property.now s self }
    {
        match self {
            Verdict::Broken { turn } => Verdict::Broken { turn },
            Verdict::Open { .. } => match on_state(property, 0, board) {
                Standing::Broken => Verdict::Broken {
                    turn: board.turns(),
                },
                Standing::Kept { turns: kept } => Verdict::Open { kept },
            },
        }
    }

    /// The verdict at the end of a run, where the board stands.
    fn finish(self, property: &Property, end: End, board: &Board) -> Verdict
        ensures { (x : Scenario) (s : State) → Stands (boxed shown) x board.now s →
            AreThere property.now s → result ≡ finished property.now end s self }
    {
        match self.end(property, end, board) {
            None => self,
            Some(turn) => Verdict::Broken { turn },
        }
    }
}

/// Looks at the bytes that a turn may change.
pub(crate) fn look_before(watched: &mut [Watched], board: &Board)
    ensures { (x : Scenario) (s : State) → Stands (boxed shown) x board.now s →
        watched.new ≡ map (looked s) watched.old }
{
    for one in watched.iter_mut() {
        one.before = byte_before(&one.property, board);
    }
}

/// What the turn that a board has made makes of them.
pub(crate) fn judge_turn(watched: &mut [Watched], made: Turned, board: &Board)
    requires { 0 < turns_of board.now }
    ensures { (x : Scenario) (s : State) →
        All (λ w. IsMade (boxed shown) x w.property w.before made board.now s) watched.old →
        watched.new ≡ map (stepped_in x s) watched.old }
{
    for one in watched.iter_mut() {
        one.verdict = one.verdict.step(&one.property, one.before, made, board);
    }
}

/// What the start of a run makes of them.
fn judge_start(watched: &mut [Watched], board: &Board)
    ensures { (x : Scenario) (s : State) → Stands (boxed shown) x board.now s →
        All (λ w. AreThere w.property s) watched.old →
        watched.new ≡ map (begun_in s) watched.old }
{
    for one in watched.iter_mut() {
        one.verdict = one.verdict.begin(&one.property, board);
    }
}

/// What the end of a run makes of them.
fn judge_end(watched: &mut [Watched], end: End, board: &Board)
    ensures { (x : Scenario) (s : State) → Stands (boxed shown) x board.now s →
        All (λ w. AreThere w.property s) watched.old →
        watched.new ≡ map (finished_in end s) watched.old }
{
    for one in watched.iter_mut() {
        one.verdict = one.verdict.finish(&one.property, end, board);
    }
}

fn any_open(watched: &[Watched]) -> bool
    ensures { result ≡ list_any (λ w. is_open w.verdict) watched.now }
{
    watched.iter().any(|one| one.verdict.is_open())
}

impl Watch {
    /// All properties that are stated, of which nothing is known yet. All memory is taken here.
    ///
    /// # Errors
    ///
    /// Only if memory runs out.
    pub(crate) fn open(alloc: Global, stated: &[Stated]) -> Result<Watch, AllocError>
        requires { length stated.now ≤ 16 }
        ensures { IfOk result (λ w. watched_of w ≡ map (λ p. unjudged p.property) stated.now) }
    {
        let mut properties = Vec::with_capacity(alloc, stated.len())?;
        for one in stated {
            properties.push(Watched {
                property: one.property,
                verdict: Verdict::Open { kept: 0 },
                before: None,
            })?;
        }
        Ok(Watch { properties })
    }

    /// Whether a property is still looked for.
    pub(crate) fn is_open(&self) -> bool
        ensures { result ≡ are_open (watched_of self.now) }
    {
        any_open(self.properties.as_slice())
    }

    /// What is kept of each property, by its place.
    pub(crate) fn numbers(&self) -> [u32; 16]
        ensures { (place : ℕ) → slice_index result place ≡ number_at (watched_of self.now) place }
    {
        let mut numbers = [0; MOST];
        for (place, one) in self.properties.iter().enumerate() {
            numbers[place] = one.verdict.number();
        }
        numbers
    }

    /// Goes back to what was kept before, of each property that is still looked for.
    pub(crate) fn go_back(&mut self, numbers: &[u32; 16])
        ensures { (place : ℕ) → slice_get (watched_of self.new) place ≡ option_map
            (numbered (slice_index numbers.now place)) (slice_get (watched_of self.old) place) }
    {
        for place in 0..self.properties.len() {
            let one = &mut self.properties[place];
            one.verdict = one.verdict.with_number(numbers[place]);
        }
    }

    /// Begins a run, at whose start the board stands.
    pub(crate) fn begin(&mut self, board: &Board)
        ensures { (x : Scenario) (s : State) → Stands (boxed shown) x board.now s →
            AllThere s (watched_of self.old) →
            watched_of self.new ≡ map (begun_at s) (watched_of self.old) }
    {
        judge_start(self.properties.as_mut_slice(), board);
    }

    /// Ends a run, where the board stands.
    pub(crate) fn finish(&mut self, end: End, board: &Board)
        ensures { (x : Scenario) (s : State) → Stands (boxed shown) x board.now s →
            AllThere s (watched_of self.old) →
            watched_of self.new ≡ map (finished_at end s) (watched_of self.old) }
    {
        judge_end(self.properties.as_mut_slice(), end, board);
    }
}

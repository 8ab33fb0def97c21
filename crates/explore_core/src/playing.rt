//! A board goes on while properties are watched.
ghost use Rattle.std.specs.Prelude.{ℕ, ◌≡◌, ◌<◌, ◌≤◌, ◌+◌, ◌-◌, true, false, map};
ghost use Rattle.task_table.specs.model.State.{State};
ghost use Rattle.run_script.specs.Scripts.{ScriptData};
ghost use Rattle.board_model.specs.declared.outcomes.Level.TheVariants.{Calls};
ghost use Rattle.board_model.specs.SameScripts.{AgreeFor};
ghost use Rattle.board_model.specs.Script.{Scenario};
ghost use Rattle.board_model.specs.Turn.{turn};
ghost use Rattle.board_core.specs.Data.{boxed};
ghost use Rattle.board_core.specs.Stands.{Stands, StandsForSome, turns_of};
ghost use Rattle.explore_core.specs.Playing.{HasKept, HasPlayed, IsPlaying, IsThrough};
ghost use Rattle.explore_core.specs.Watching.{AllThere, turned_on, watched_of};

use crate::judging::{judge_turn, look_before};
use crate::watch::Watch;
use board_core::{Board, Level};
use board_run::ending;

impl Watch {
    /// Makes a turn of a board, and says what it makes of each property.
    fn make_turn(&mut self, board: &mut Board)
        requires few { turns_of board.old < 1000000000 }
        requires stood { StandsForSome (boxed shown) board.old }
        ensures made { (x : Scenario) (s : State) → Stands (boxed shown) x board.old s →
            Stands (boxed shown) x board.new (turn Calls x s).state }
        ensures judged { (x : Scenario) (s : State) → Stands (boxed shown) x board.old s →
            AllThere s (watched_of self.old) →
            watched_of self.new ≡ map (turned_on x s) (watched_of self.old) }
        ensures turns { turns_of board.new ≡ turns_of board.old + 1 }
    {
        let watched = self.properties.as_mut_slice();
        look_before(watched, board);
        let made = board.turn_at(Level::Calls);
        judge_turn(watched, made, board);
    }

    /// Whether a property is looked for in the next turn, if a run that makes the turns before turn
    /// `to` has one.
    fn is_playing(&self, board: &Board, to: u32) -> bool
        requires stood { StandsForSome (boxed shown) board.now }
        requires within { turns_of board.now ≤ to }
        ensures playing { result ≡ true → (x : Scenario) (s : State) →
            Stands (boxed shown) x board.now s → IsPlaying x s (watched_of self.now) }
        ensures left { result ≡ true → turns_of board.now < to }
        ensures through { result ≡ false → (x : Scenario) (s : State) →
            Stands (boxed shown) x board.now s → IsThrough x to s (watched_of self.now) }
    {
        self.is_open() && ending(board, to).is_none()
    }

    /// Goes on to a turn, or to the end of the run before it, or to where no property is looked for
    /// any more.
    pub(crate) fn play_to(&mut self, board: &mut Board, to: u32)
        requires stood { StandsForSome (boxed shown) board.old }
        requires from { turns_of board.old ≤ to }
        requires few { to ≤ 1000000000 }
        ensures played { (x : Scenario) (s : State) → Stands (boxed shown) x board.old s →
            AllThere s (watched_of self.old) →
            HasPlayed (boxed shown) x s to (watched_of self.old) (watched_of self.new) board.new }
        ensures kept { (x : Scenario) (s : State) → Stands (boxed shown) x board.old s →
            AllThere s (watched_of self.old) → (script : ScriptData) (limit : ℕ) → to ≤ limit →
            AgreeFor x.script script s.turn (to - s.turn) → HasKept (boxed shown) x script limit s
            (watched_of self.old) (watched_of self.new) board.new }
        ensures within { turns_of board.new ≤ to }
    {
        'turns: while self.is_playing(board, to) {
            self.make_turn(board);
        }
    }
}

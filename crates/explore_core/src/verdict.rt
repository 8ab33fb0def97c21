//! What a run that goes on makes of a property.
ghost use Rattle.std.specs.Prelude.{ℕ, ◌≡◌, ◌<◌, suc, Some, None};
ghost use Rattle.task_table.specs.model.State.{State};
ghost use Rattle.board_model.specs.declared.outcomes.End.{End as Ending};
ghost use Rattle.board_model.specs.declared.outcomes.Level.TheVariants.{Calls};
ghost use Rattle.board_model.specs.Run.{ending};
ghost use Rattle.board_model.specs.Script.{Scenario};
ghost use Rattle.board_model.specs.Turn.{turn};
ghost use Rattle.board_core.specs.Data.{boxed};
ghost use Rattle.board_core.specs.Stands.{Stands, turns_of};
ghost use Rattle.run_question.specs.declared.asked.Property.{Property as Asked};
ghost use Rattle.explore_core.specs.declared.verdict.Verdict.{Verdict as Decided};
ghost use Rattle.explore_core.specs.Made.{IsMade};
ghost use Rattle.explore_core.specs.There.{AreThere};
ghost use Rattle.explore_core.specs.Verdicts.{broken_by, ended, stepped};

use crate::standing::Standing;
use crate::watching::{breaks_at_end, by_turn, on_state};
use board_core::{Board, End, Turned};
use run_question::Property;

/// A property is still looked for, with a number that is kept for it, or was broken in a turn.
#[derive(Clone, Copy, PartialEq, Eq)]
pub(crate) enum Verdict {
    Open { kept: u32 },
    Broken { turn: u32 },
}

impl Verdict {
    /// The verdict after a turn more, that the board has made.
    pub(crate) fn step(
        self,
        property: &Property,
        before: Option<u8>,
        made: Turned,
        board: &Board,
    ) -> Verdict
        requires { 0 < turns_of board.now }
        ensures { (x : Scenario) (s : State) →
            IsMade (boxed shown) x property.now before made board.now s →
            result ≡ stepped property.now x self s }
    {
        let turns = board.turns();
        match self {
            Verdict::Broken { turn } => Verdict::Broken { turn },
            Verdict::Open { kept } => match by_turn(property, kept, before, made, board) {
                Standing::Broken => Verdict::Broken { turn: turns - 1 },
                Standing::Kept { turns: kept } => match on_state(property, kept, board) {
                    Standing::Broken => Verdict::Broken { turn: turns },
                    Standing::Kept { turns: kept } => Verdict::Open { kept },
                },
            },
        }
    }

    /// In which turn it is broken, where the run ends so and the board stands there.
    pub(crate) fn end(self, property: &Property, end: End, board: &Board) -> Option<u32>
        ensures { (x : Scenario) (s : State) → Stands (boxed shown) x board.now s →
            AreThere property.now s → result ≡ ended property.now self end s }
    {
        match self {
            Verdict::Broken { turn } => Some(turn),
            Verdict::Open { kept } => {
                if breaks_at_end(property, kept, end, board) {
                    Some(board.turns())
                } else {
                    None
                }
            }
        }
    }
}

/// What a run makes of a property decides as the run itself does: a turn more leaves the turn in
/// which it is broken, and at the end that turn is told.
#[tactic(auto, using(crate::proofs::OneTurn::goes_on, crate::proofs::OneTurn::ends))]
pub fn a_verdict_decides_as_the_run_does()
    ensures turn { (p : Asked) (x : Scenario) (left : ℕ) (v : Decided) (s : State) →
        ending x (suc left) s ≡ None →
        broken_by p x (suc left) v s ≡ broken_by p x left (stepped p x v s) (turn Calls x s).state }
    ensures end { (p : Asked) (x : Scenario) (left : ℕ) (v : Decided) (s : State) (end : Ending) →
        ending x left s ≡ Some end → broken_by p x left v s ≡ ended p v end s }
{}

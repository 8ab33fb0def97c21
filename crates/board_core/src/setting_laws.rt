//! A law about boards that were set part by part. Nothing runs here.
ghost use Rattle.task_table.specs.model.State.{State};
ghost use Rattle.task_table.specs.model.Sane.{Sane, IsCounted};
ghost use Rattle.task_table.specs.kept.Setting.{AreKeptAlike};
ghost use Rattle.board_model.specs.Script.{Scenario};
ghost use Rattle.board_core.specs.Stands.{Holds, Stands};

use crate::board::Board;

/// A board that holds a state stands for each sane state of which it keeps the same. Of births it
/// keeps only the generations, and of calls and listens no order.
pub fn a_board_stands_for_each_state_that_is_kept_alike(board: &Board)
    ensures { (x : Scenario) (s u : State) → Holds shown x board.now u → AreKeptAlike s u →
        Sane x.setup s → IsCounted s → Stands shown x board.now s }
{
    let _ = board;
}

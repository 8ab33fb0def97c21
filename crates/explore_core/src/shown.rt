//! Conditions, as a board shows them.
ghost use Rattle.std.specs.Prelude.{◌≡◌, ◌<◌};
ghost use Rattle.mem_banks.specs.Memory.{byte_at, number_at};
ghost use Rattle.task_table.specs.model.State.{State};
ghost use Rattle.task_table.specs.model.Reading.{is_well};
ghost use Rattle.board_model.specs.Script.{Scenario};
ghost use Rattle.board_model.specs.Turn.{or_zero};
ghost use Rattle.board_core.specs.Data.{boxed};
ghost use Rattle.board_core.specs.Stands.{Stands, count_of};
ghost use Rattle.explore_core.specs.Asked.{has_byte, holds, is_so, is_so_of_task, is_waiting, passes};
ghost use Rattle.explore_core.specs.There.{IsThere, LiesInOne};
ghost use Rattle.explore_core.specs.Views.{is_call, is_listen, is_nothing, is_shown};

use crate::standing::passes;
use board_core::{Board, TaskView};
use kernel_abi::Health;
use run_question::{Condition, Fact, TaskFact, Test};
use task_table::Wait;

fn is_well(health: Health) -> bool
    ensures { result ≡ is_well health }
{
    match health {
        Health::Well => true,
        Health::Stopped | Health::Faulted(_) => false,
    }
}

fn is_call(wait: &Wait) -> bool
    ensures { result ≡ is_call wait.now }
{
    matches!(wait, Wait::Call(_))
}

fn is_listen(wait: &Wait) -> bool
    ensures { result ≡ is_listen wait.now }
{
    matches!(wait, Wait::Listen(_))
}

fn is_nothing(wait: &Wait) -> bool
    ensures { result ≡ is_nothing wait.now }
{
    matches!(wait, Wait::Nothing)
}

fn is_shown(fact: TaskFact, view: &TaskView) -> bool
    ensures { result ≡ is_shown fact view.now }
{
    match fact {
        TaskFact::Well => is_well(view.health),
        TaskFact::Ready => is_well(view.health) && is_nothing(&view.wait),
        TaskFact::Calling => is_call(&view.wait),
        TaskFact::Listening => is_listen(&view.wait),
        TaskFact::Posted { bits } => view.posted & bits != 0,
    }
}

/// Whether it is so of a task of a board.
#[tactic(auto, using(crate::proofs::Showing::shown_is_so))]
pub fn is_so_of_task(board: &Board, task: usize, fact: TaskFact) -> bool
    requires { task < count_of board.now }
    ensures { (x : Scenario) (s : State) → Stands (boxed shown) x board.now s →
        result ≡ is_so_of_task fact s task }
{
    match board.task(task) {
        Some(view) => is_shown(fact, &view),
        None => unreachable!(),
    }
}

fn has_byte(test: Test, value: u8, byte: Option<u8>) -> bool
    ensures { result ≡ has_byte test value byte }
{
    match byte {
        None => false,
        Some(byte) => passes(test, u32::from(value), u32::from(byte)),
    }
}

/// Whether the byte at an address of a board passes a test.
pub fn is_so_of_byte(board: &Board, at: u32, test: Test, value: u8) -> bool
    ensures { (x : Scenario) (s : State) → Stands (boxed shown) x board.now s →
        result ≡ has_byte test value (byte_at s.memory at) }
{
    has_byte(test, value, board.byte(at))
}

fn or_zero(byte: Option<u8>) -> u32
    ensures is { result ≡ or_zero byte }
    ensures small { result < 256 }
{
    match byte {
        None => 0,
        Some(byte) => u32::from(byte),
    }
}

/// The number that four bytes of a board spell, the lowest first.
#[tactic(auto, using(crate::proofs::OneTurn::word_is))]
fn word(board: &Board, at: u32) -> u32
    ensures { (x : Scenario) (s : State) → Stands (boxed shown) x board.now s → LiesInOne at →
        result ≡ number_at s.memory at 4 }
{
    match at.checked_add(3) {
        None => 0,
        Some(last) => {
            let high = or_zero(board.byte(at + 2)) + 256 * or_zero(board.byte(last));
            or_zero(board.byte(at)) + 256 * (or_zero(board.byte(at + 1)) + 256 * high)
        }
    }
}

/// Whether bytes wait in a device of a board.
#[tactic(auto, using(crate::proofs::OneTurn::waiting_is))]
fn is_waiting(board: &Board, device: usize) -> bool
    ensures { (x : Scenario) (s : State) → Stands (boxed shown) x board.now s →
        result ≡ is_waiting s device }
{
    match board.device(device) {
        None => false,
        Some(view) => !view.queue.is_empty(),
    }
}

/// Whether it is so in the state where a board stands.
fn is_so(fact: Fact, board: &Board) -> bool
    ensures { (x : Scenario) (s : State) → Stands (boxed shown) x board.now s → IsThere fact s →
        result ≡ is_so fact s }
{
    match fact {
        Fact::Byte { at, test, value } => is_so_of_byte(board, at, test, value),
        Fact::Word { at, test, value } => passes(test, value, word(board, at)),
        Fact::Task { task, fact } => {
            let task = usize::from(task);
            task < board.task_count() && is_so_of_task(board, task, fact)
        }
        Fact::Waiting { device } => is_waiting(board, usize::from(device)),
    }
}

/// Whether a condition holds there.
pub(crate) fn holds(condition: &Condition, board: &Board) -> bool
    ensures { (x : Scenario) (s : State) → Stands (boxed shown) x board.now s →
        IsThere condition.now.fact s → result ≡ holds condition.now s }
{
    let so = is_so(condition.fact, board);
    if condition.negated { !so } else { so }
}

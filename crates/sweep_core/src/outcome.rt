//! The words of an outcome (docs/FORMATS.md, Sweep), of up to 681 bytes.
ghost use Rattle.std.specs.Prelude.{◌≡◌, ◌<◌, ◌≤◌, ◌+◌, ◌++◌, fold, codes};
ghost use Rattle.arrayvec.specs.ArrayString.{array_string_len};
ghost use Rattle.task_table.specs.model.State.{State};
ghost use Rattle.board_model.specs.Script.{Scenario};
ghost use Rattle.board_core.specs.Data.{boxed};
ghost use Rattle.board_core.specs.Stands.{Stands};
ghost use Rattle.sweep_core.specs.Outcomes.{digest, digest_start, first_word, front_words, letters, memory_word};
ghost use Rattle.sweep_core.specs.Views.{view_letter, wait_of_view_letter};

use crate::tally::{Tally, digest};
use arrayvec::ArrayString;
use board_core::{Board, End, TaskView};
use board_run::end_name;
use kernel_abi::{Fault, Health};
use mem_banks::RAM;
use task_table::{Phase, Wait};
use trace_text::{push_decimal, push_hex};

pub(crate) type Front = ArrayString<160>;

pub type OutcomeText = ArrayString<768>;

/// Pushes the first fault, or `-` if there is none.
fn push_first(out: &mut Front, first: Option<(u16, Fault)>)
    requires room { array_string_len out.old + 59 ≤ 160 }
    ensures bytes { out.new.bytes ≡ out.old.bytes ++ first_word first }
    ensures len { array_string_len out.new ≤ array_string_len out.old + 59 }
{
    match first {
        None => out.push_str("-"),
        Some((task, fault)) => {
            push_decimal(out, u64::from(task));
            out.push_str(":");
            push_decimal(out, u64::from(fault.number));
            out.push_str(":");
            push_hex(out, fault.x);
            out.push_str(":");
            push_hex(out, fault.y);
        }
    }
}

/// The words for the end and the tally of the notes.
#[tactic(auto, unfolding(crate::specs::Outcomes::front_words))]
pub(crate) fn front(end: End, tally: &Tally) -> Front
    ensures { result.bytes ≡ front_words end tally.now }
{
    let mut out = Front::new();
    out.push_str(end_name(end));
    out.push_str(" ");
    push_decimal(&mut out, tally.faults);
    out.push_str(" ");
    push_first(&mut out, tally.first);
    out.push_str(" ");
    push_decimal(&mut out, tally.restarts);
    out.push_str(" ");
    push_decimal(&mut out, tally.outs);
    out.push_str(" ");
    push_hex(&mut out, tally.out);
    out.push_str(" ");
    out
}

fn wait_letter(wait: &Wait) -> u8
    ensures { result ≡ wait_of_view_letter wait.now }
{
    match wait {
        Wait::Call(call) => match call.phase {
            Phase::Offered => b'o',
            Phase::Taken => b't',
        },
        Wait::Nothing | Wait::Listen(_) => b'w',
    }
}

/// The letter of a task.
pub(crate) fn letter(view: &TaskView) -> u8
    ensures is { result ≡ view_letter view.now }
    ensures small { result < 128 }
{
    let small = match view.health {
        Health::Well => wait_letter(&view.wait),
        Health::Stopped => b's',
        Health::Faulted(_) => b'f',
    };
    if view.generation == 0 {
        small
    } else {
        small - 32
    }
}

/// Pushes the letters of the tasks.
fn push_letters(board: &Board, out: &mut OutcomeText)
    requires { array_string_len out.old + 512 ≤ 768 }
    ensures told { (x : Scenario) (s : State) → Stands (boxed shown) x board.now s →
        out.new.bytes ≡ out.old.bytes ++ letters s }
    ensures len { array_string_len out.new ≤ array_string_len out.old + 512 }
{
    for i in 0..board.task_count() {
        match board.task(i) {
            Some(view) => out.push(char::from(letter(&view))),
            None => unreachable!(),
        }
    }
}

/// The digest of the bytes of the RAM.
fn digest_of_ram(board: &Board) -> u32
    ensures { (x : Scenario) (s : State) → Stands (boxed shown) x board.now s →
        result ≡ fold digest digest_start s.memory.ram }
{
    let mut d = 0x811c_9dc5;
    for k in 0..board.ram_len() {
        d = digest(d, board.byte(RAM + k as u32).unwrap_or(0));
    }
    d
}

/// Pushes the word for the memory, if it is asked for.
fn push_memory(board: &Board, mem: bool, out: &mut OutcomeText)
    requires { array_string_len out.old + 9 ≤ 768 }
    ensures { (x : Scenario) (s : State) → Stands (boxed shown) x board.now s →
        out.new.bytes ≡ out.old.bytes ++ memory_word mem s.memory.ram }
{
    if mem {
        let mut word = Front::new();
        push_hex(&mut word, digest_of_ram(board));
        out.push_str(" ");
        out.push_str(word.as_str());
    }
}

/// The outcome of a run with this end and this tally. The board is at the end of the run.
pub fn outcome_of(end: End, tally: &Tally, board: &Board, mem: bool) -> OutcomeText
    ensures { (x : Scenario) (s : State) → Stands (boxed shown) x board.now s →
        result.bytes ≡ front_words end tally.now ++ letters s ++ memory_word mem s.memory.ram }
{
    let mut out = OutcomeText::new();
    out.push_str(front(end, tally).as_str());
    push_letters(board, &mut out);
    push_memory(board, mem, &mut out);
    out
}

/// The word in place of an outcome if there is no script and so no run.
pub(crate) fn full() -> OutcomeText
    ensures { result.bytes ≡ codes "full" }
{
    let mut out = OutcomeText::new();
    out.push_str("full");
    out
}

/// The word in place of an outcome if an event of the arrival would come too late.
pub(crate) fn late() -> OutcomeText
    ensures { result.bytes ≡ codes "late" }
{
    let mut out = OutcomeText::new();
    out.push_str("late");
    out
}

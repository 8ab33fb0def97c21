//! Pushes lines to a sink, one push each. After a failing push nothing more is pushed.
ghost use Rattle.std.specs.Prelude.{◌≡◌, length, IfOk};
ghost use Rattle.outside_io.specs.Outside.{Pushes, HasCause};
ghost use Rattle.board_model.specs.Run.{at_turn};
ghost use Rattle.trace_text.specs.Text.{line_of};
ghost use Rattle.trace_text.specs.Fit.{IsFit, IsFitNote, IsFitTimer, AreFit};
ghost use Rattle.board_run.specs.Text.{low_text, high_text, end_line};
ghost use Rattle.trace_text.specs.Lines.{notes_text, task_line};
ghost use Rattle.board_run.specs.ViewText.{view_text, wait_words, timer_of};

use crate::line::{
    Line, end_line as put_end_line, high_line, low_line, task_line as put_task_line,
};
use board_core::{Board, End, TaskView};
use kernel_abi::Note;
use outside_io::{Failed, Sink};
use trace_text::TurnLines;
use words_core::Flags;

#[inline(always)]
fn push_note<S: Sink>(lines: &mut TurnLines, note: &Note, out: &mut S) -> Result<(), Failed>
    ensures number { lines.new.number ≡ lines.old.number }
    ensures bytes { Pushes (S.seen out.old).written (S.seen out.new).written
        (line_of lines.old.number note.now) result }
    ensures fit { IsFit lines.old.number × IsFitNote note.now }
    ensures cause { HasCause (S.seen out.old).faults (S.seen out.new).faults result }
{
    lines.write(note);
    out.push(lines.text().as_bytes())
}

/// Pushes the notes of a turn, one line each. What is in `lines` is from an earlier turn. The
/// function is inlined, so that the loop of a run that writes its trace has its own copy.
#[inline(always)]
pub fn push_notes<S: Sink>(
    turn: u32,
    notes: &[Note],
    lines: &mut TurnLines,
    out: &mut S,
) -> Result<(), Failed>
    ensures bytes { Pushes (S.seen out.old).written (S.seen out.new).written
        (notes_text (at_turn turn notes.now)) result }
    ensures fit { IfOk result (λ _. AreFit (at_turn turn notes.now)) }
    ensures cause { HasCause (S.seen out.old).faults (S.seen out.new).faults result }
{
    if notes.is_empty() {
        return Ok(());
    }
    lines.go_to(turn);
    for note in notes {
        push_note(lines, note, out)?;
    }
    Ok(())
}

/// Pushes the line of a task, in one push.
pub fn push_task_line<S: Sink>(i: u64, task: &TaskView, out: &mut S) -> Result<(), Failed>
    ensures bytes { Pushes (S.seen out.old).written (S.seen out.new).written
        (task_line i task.now.generation task.now.health (wait_words task.now.wait) task.now.posted
        (timer_of task.now.timer)) result }
    ensures fit { IsFitTimer (timer_of task.now.timer) }
    ensures cause { HasCause (S.seen out.old).faults (S.seen out.new).faults result }
{
    let mut line = Line::new();
    put_task_line(
        i,
        task.generation,
        task.health,
        task.wait,
        task.posted,
        task.timer,
        &mut line,
    );
    out.push(line.as_str().as_bytes())
}

/// Pushes the line of the registers r0 to r7, in one push.
pub fn push_low<S: Sink>(registers: &[u32; 16], out: &mut S) -> Result<(), Failed>
    ensures bytes { Pushes (S.seen out.old).written (S.seen out.new).written
        (low_text registers.now) result }
    ensures cause { HasCause (S.seen out.old).faults (S.seen out.new).faults result }
{
    let mut line = Line::new();
    low_line(registers, &mut line);
    out.push(line.as_str().as_bytes())
}

/// Pushes the line of the registers r8 to r15 and the flags, in one push.
pub fn push_high<S: Sink>(registers: &[u32; 16], flags: Flags, out: &mut S) -> Result<(), Failed>
    ensures bytes { Pushes (S.seen out.old).written (S.seen out.new).written
        (high_text registers.now flags) result }
    ensures cause { HasCause (S.seen out.old).faults (S.seen out.new).faults result }
{
    let mut line = Line::new();
    high_line(registers, flags, &mut line);
    out.push(line.as_str().as_bytes())
}

pub fn push_end_line<S: Sink>(end: End, turns: u32, now: u64, out: &mut S) -> Result<(), Failed>
    ensures bytes { Pushes (S.seen out.old).written (S.seen out.new).written
        (end_line end turns now) result }
    ensures cause { HasCause (S.seen out.old).faults (S.seen out.new).faults result }
{
    let mut line = Line::new();
    put_end_line(end, turns, now, &mut line);
    out.push(line.as_str().as_bytes())
}

// Pushes the three lines of a task.
fn push_task<S: Sink>(i: u64, task: &TaskView, out: &mut S) -> Result<(), Failed>
    ensures bytes { Pushes (S.seen out.old).written (S.seen out.new).written (view_text i task.now)
        result }
    ensures fit { IsFitTimer (timer_of task.now.timer) }
    ensures cause { HasCause (S.seen out.old).faults (S.seen out.new).faults result }
{
    push_task_line(i, task, out)?;
    push_low(&task.regs, out)?;
    push_high(&task.regs, task.flags, out)
}

ghost use Rattle.task_table.specs.model.State.{State};
ghost use Rattle.board_model.specs.Script.{Scenario};
ghost use Rattle.board_core.specs.Stands.{Stands};
ghost use Rattle.board_core.specs.Data.{boxed};
ghost use Rattle.board_run.specs.Text.{tasks_text, end_text};
ghost use Rattle.board_run.specs.Timers.{HasFitTimers};

fn push_tasks<S: Sink>(board: &Board, out: &mut S) -> Result<(), Failed>
    ensures bytes { (x : Scenario) (s : State) → Stands (boxed shown) x board.now s →
        Pushes (S.seen out.old).written (S.seen out.new).written (tasks_text s (length s.tasks))
        result }
    ensures timers { (x : Scenario) (s : State) → Stands (boxed shown) x board.now s →
        IfOk result (λ _. HasFitTimers s) }
    ensures cause { HasCause (S.seen out.old).faults (S.seen out.new).faults result }
{
    for i in 0..board.task_count() {
        match board.task(i) {
            Some(task) => push_task(i as u64, &task, out)?,
            None => unreachable!(),
        }
    }
    Ok(())
}

/// Pushes how a run ended, and each task.
pub fn push_end<S: Sink>(end: End, board: &Board, out: &mut S) -> Result<(), Failed>
    ensures bytes { (x : Scenario) (s : State) → Stands (boxed shown) x board.now s →
        Pushes (S.seen out.old).written (S.seen out.new).written (end_text end s) result }
    ensures timers { (x : Scenario) (s : State) → Stands (boxed shown) x board.now s →
        IfOk result (λ _. HasFitTimers s) }
    ensures cause { HasCause (S.seen out.old).faults (S.seen out.new).faults result }
{
    push_end_line(end, board.turns(), board.now(), out)?;
    push_tasks(board, out)
}

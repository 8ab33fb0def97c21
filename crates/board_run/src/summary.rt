//! A run in two lines: how it ended, and how many notes of each kind it had.
ghost use Rattle.std.specs.Prelude.{◌≡◌, ◌≤◌, ◌+◌, ◌-◌, ◌++◌, [], length, decimal, IfOk};
ghost use Rattle.arrayvec.specs.ArrayString.{array_string_len};
ghost use Rattle.outside_io.specs.Outside.{Pushes, HasCause};
ghost use Rattle.task_table.specs.model.State.{State};
ghost use Rattle.board_model.specs.declared.outcomes.Level.TheVariants.{Calls};
ghost use Rattle.board_model.specs.Script.{Scenario};
ghost use Rattle.board_core.specs.Stands.{Stands, StandsForSome, turns_of};
ghost use Rattle.board_core.specs.Data.{boxed};
ghost use Rattle.board_model.specs.Run.{run};
ghost use Rattle.board_run.specs.Counts.{counts_text, summary_text};
ghost use Rattle.board_run.specs.Counting.{count_at};
ghost use Rattle.board_run.specs.Text.{end_line};

use crate::counts::Counts;
use crate::line::Line;
use crate::pushing::push_end_line;
use crate::running::play;
use arrayvec::ArrayString;
use board_core::{Board, End, Level};
use outside_io::{Failed, Sink};
use trace_text::push_decimal;

/// The line of counts, at most 350 bytes long.
type CountsLine = ArrayString<384>;

// A word of at most nine bytes, and a number.
fn push_count(out: &mut CountsLine, word: &str, count: u64)
    requires short { length word.now ≤ 9 }
    requires room { array_string_len out.old + 29 ≤ 384 }
    ensures bytes { out.new.bytes ≡ out.old.bytes ++ word.now ++ decimal count }
    ensures len { array_string_len out.new ≤ array_string_len out.old + 29 }
{
    let mut digits = Line::new();
    push_decimal(&mut digits, count);
    out.push_str(word);
    out.push_str(digits.as_str());
}

#[tactic(auto, unfolding(crate::specs::Counts::counts_text))]
fn counts_line(counts: &Counts, out: &mut CountsLine)
    requires { out.old.bytes ≡ [] }
    ensures { out.new.bytes ≡ counts_text (count_at counts.now) }
{
    push_count(out, "tick ", counts.tick);
    push_count(out, " irq ", counts.irq);
    push_count(out, " post ", counts.post);
    push_count(out, " call ", counts.call);
    push_count(out, " offer ", counts.offer);
    push_count(out, " take ", counts.take);
    push_count(out, " listen ", counts.listen);
    push_count(out, " borrow ", counts.borrow);
    push_count(out, " ret ", counts.ret);
    push_count(out, " close ", counts.close);
    push_count(out, " fault ", counts.fault);
    push_count(out, " restart ", counts.restart);
    out.push_str("\n");
}

fn push_counts<S: Sink>(counts: &Counts, out: &mut S) -> Result<(), Failed>
    ensures bytes { Pushes (S.seen out.old).written (S.seen out.new).written
        (counts_text (count_at counts.now)) result }
    ensures cause { HasCause (S.seen out.old).faults (S.seen out.new).faults result }
{
    let mut line = CountsLine::new();
    counts_line(counts, &mut line);
    out.push(line.as_str().as_bytes())
}

// Pushes how a run ended, and the counts.
fn push_summary<S: Sink>(
    end: End,
    board: &Board,
    counts: &Counts,
    out: &mut S,
) -> Result<(), Failed>
    ensures bytes { (x : Scenario) (s : State) → Stands (boxed shown) x board.now s →
        Pushes (S.seen out.old).written (S.seen out.new).written
        (end_line end s.turn s.now ++ counts_text (count_at counts.now)) result }
    ensures cause { HasCause (S.seen out.old).faults (S.seen out.new).faults result }
{
    push_end_line(end, board.turns(), board.now(), out)?;
    push_counts(counts, out)
}

/// Makes the turns up to the end of the run. Then it pushes how the run ended and how many notes of
/// each kind it had: two lines, one push each. Instructions are neither told nor counted. After a
/// failing push nothing more is pushed, but the whole run was made.
///
/// # Errors
///
/// Only if a push failed.
pub fn summarize<S: Sink>(board: &mut Board, limit: u32, out: &mut S) -> Result<End, Failed>
    requires stood { StandsForSome (boxed shown) board.old }
    requires from { turns_of board.old ≤ limit }
    requires few { limit ≤ 1000000000 }

    ensures text { (x : Scenario) (s : State) → Stands (boxed shown) x board.old s →
        Pushes (S.seen out.old).written (S.seen out.new).written
        (summary_text (run Calls x (limit - s.turn) s)) result }
    ensures end { (x : Scenario) (s : State) → Stands (boxed shown) x board.old s →
        IfOk result (λ e. e ≡ (run Calls x (limit - s.turn) s).end) }

    // Even if a push failed, the board is at the end of the run.
    ensures last { (x : Scenario) (s : State) → Stands (boxed shown) x board.old s →
        Stands (boxed shown) x board.new (run Calls x (limit - s.turn) s).last }
    ensures within { turns_of board.new ≤ limit }
    ensures cause { HasCause (S.seen out.old).faults (S.seen out.new).faults result }
{
    let mut counts = Counts::new();
    let end = play(board, limit, Level::Calls, &mut counts)?;
    push_summary(end, board, &counts, out)?;
    Ok(end)
}

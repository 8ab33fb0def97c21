//! Pushes events to a sink, one push each. After a failing push nothing more is pushed.
ghost use Rattle.std.specs.Prelude.{◌≡◌, ◌<◌, ◌+◌, ◌++◌, ◌^◌, IfOk, length, string_bytes};
ghost use Rattle.std.specs.List.{flat_map};
ghost use Rattle.outside_io.specs.Outside.{HasCause, Pushes};
ghost use Rattle.run_lanes.specs.Timeline.{ended_text, note_text, notes_text, offers_at_end, order_text, orders_text, outside_text, over_text, overs_text, rests_text, tail_text};

use crate::activity::Activity;
use crate::lanes::{LaneStretch, Offer, activity_at, hear};
use crate::line::{Line, note_line, order_line, stretch_line};
use kernel_abi::Note;
use outside_io::{Failed, Sink};

// Pushes a stretch of a task that ends before a turn, unless it has no turn.
fn push_ended<S: Sink>(turn: u32, i: usize, stretch: LaneStretch, out: &mut S) -> Result<(), Failed>
    requires few { i + 1 < 2 ^ 64 }
    ensures bytes { Pushes (S.seen out.old).written (S.seen out.new).written
        (ended_text turn i stretch) result }
    ensures cause { HasCause (S.seen out.old).faults (S.seen out.new).faults result }
{
    if stretch.since == turn {
        return Ok(());
    }
    let mut line = Line::new();
    let turns = turn.saturating_sub(stretch.since);
    stretch_line(
        i as u64 + 1,
        stretch.activity,
        turns,
        stretch.since,
        &mut line,
    );
    out.push(line.as_str().as_bytes())
}

// The same, if the task does something else in that turn.
fn push_if_over<S: Sink>(
    turn: u32,
    i: usize,
    stretch: LaneStretch,
    activity: Activity,
    out: &mut S,
) -> Result<(), Failed>
    requires few { i + 1 < 2 ^ 64 }
    ensures bytes { Pushes (S.seen out.old).written (S.seen out.new).written
        (over_text turn i stretch activity) result }
    ensures cause { HasCause (S.seen out.old).faults (S.seen out.new).faults result }
{
    if stretch.activity.is_same(activity) {
        return Ok(());
    }
    push_ended(turn, i, stretch, out)
}

/// Pushes the stretches that end, if the tasks do this in a turn.
pub fn push_overs<S: Sink>(
    turn: u32,
    stretches: &[LaneStretch],
    activities: &[Activity],
    out: &mut S,
) -> Result<(), Failed>
    ensures bytes { Pushes (S.seen out.old).written (S.seen out.new).written
        (overs_text turn stretches.now activities.now) result }
    ensures cause { HasCause (S.seen out.old).faults (S.seen out.new).faults result }
{
    for i in 0..stretches.len() {
        push_if_over(turn, i, stretches[i], activity_at(activities, i), out)?;
    }
    Ok(())
}

/// Pushes the stretches in which the tasks are, if the run ends before a turn.
pub fn push_rests<S: Sink>(turn: u32, stretches: &[LaneStretch], out: &mut S) -> Result<(), Failed>
    ensures bytes { Pushes (S.seen out.old).written (S.seen out.new).written
        (rests_text turn stretches.now) result }
    ensures cause { HasCause (S.seen out.old).faults (S.seen out.new).faults result }
{
    for i in 0..stretches.len() {
        push_ended(turn, i, stretches[i], out)?;
    }
    Ok(())
}

// Pushes what is written of a note, if anything is.
fn push_note<S: Sink>(
    turn: u32,
    note: &Note,
    offers: &[Option<Offer>],
    out: &mut S,
) -> Result<(), Failed>
    ensures bytes { Pushes (S.seen out.old).written (S.seen out.new).written
        (note_text offers.now turn note.now) result }
    ensures cause { HasCause (S.seen out.old).faults (S.seen out.new).faults result }
{
    let mut line = Line::new();
    note_line(offers, turn, note, &mut line);
    if line.is_empty() {
        return Ok(());
    }
    out.push(line.as_str().as_bytes())
}

/// Pushes what is written of the notes of a turn, and brings the calls that the tasks offered last
/// up to date with each note.
pub fn push_notes<S: Sink>(
    turn: u32,
    notes: &[Note],
    offers: &mut [Option<Offer>],
    out: &mut S,
) -> Result<(), Failed>
    ensures bytes { Pushes (S.seen out.old).written (S.seen out.new).written
        (notes_text offers.old turn notes.now) result }
    ensures offers { IfOk result (λ _. offers.new ≡ offers_at_end offers.old notes.now) }
    ensures cause { HasCause (S.seen out.old).faults (S.seen out.new).faults result }
{
    for note in notes {
        push_note(turn, note, offers, out)?;
        hear(note, offers);
    }
    Ok(())
}

// Pushes the place of a thread in the order of the threads.
fn push_order<S: Sink>(thread: usize, out: &mut S) -> Result<(), Failed>
    ensures bytes { Pushes (S.seen out.old).written (S.seen out.new).written (order_text thread)
        result }
    ensures cause { HasCause (S.seen out.old).faults (S.seen out.new).faults result }
{
    let mut line = Line::new();
    order_line(thread as u64, &mut line);
    out.push(line.as_str().as_bytes())
}

// Pushes the places of this many threads.
fn push_orders<S: Sink>(threads: usize, out: &mut S) -> Result<(), Failed>
    ensures bytes { Pushes (S.seen out.old).written (S.seen out.new).written (orders_text threads)
        result }
    ensures cause { HasCause (S.seen out.old).faults (S.seen out.new).faults result }
{
    for thread in 0..threads {
        push_order(thread, out)?;
    }
    Ok(())
}

const OUTSIDE: &str =
    "{\"traceEvents\":[\n{\"args\":{\"name\":\"outside\"},\"name\":\"thread_name\",\"ph\":\"M\",\"pid\":0,\"tid\":0}";

#[tactic(auto, unfolding(crate::specs::Timeline::outside_text))]
fn push_outside<S: Sink>(out: &mut S) -> Result<(), Failed>
    ensures bytes { Pushes (S.seen out.old).written (S.seen out.new).written outside_text result }
    ensures cause { HasCause (S.seen out.old).faults (S.seen out.new).faults result }
{
    out.push(OUTSIDE.as_bytes())
}

// Pushes lines that were made before.
fn push_lines<S: Sink>(lines: &[String], out: &mut S) -> Result<(), Failed>
    ensures bytes { Pushes (S.seen out.old).written (S.seen out.new).written
        (flat_map string_bytes lines.now) result }
    ensures cause { HasCause (S.seen out.old).faults (S.seen out.new).faults result }
{
    for line in lines {
        out.push(line.as_bytes())?;
    }
    Ok(())
}

/// Pushes what comes before the turns, with the lines that name the tasks.
pub fn push_head<S: Sink>(lines: &[String], out: &mut S) -> Result<(), Failed>
    ensures bytes { Pushes (S.seen out.old).written (S.seen out.new).written
        (outside_text ++ flat_map string_bytes lines.now ++ orders_text (length lines.now + 1))
        result }
    ensures cause { HasCause (S.seen out.old).faults (S.seen out.new).faults result }
{
    push_outside(out)?;
    push_lines(lines, out)?;
    push_orders(lines.len() + 1, out)
}

/// Pushes what comes after the turns.
#[tactic(auto, unfolding(crate::specs::Timeline::tail_text))]
pub fn push_tail<S: Sink>(out: &mut S) -> Result<(), Failed>
    ensures bytes { Pushes (S.seen out.old).written (S.seen out.new).written tail_text result }
    ensures cause { HasCause (S.seen out.old).faults (S.seen out.new).faults result }
{
    out.push(b"\n]}\n")
}

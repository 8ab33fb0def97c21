//! Pushes the lines of a sweep, one push for each (docs/FORMATS.md, Sweep).
ghost use Rattle.std.specs.Prelude.{◌≡◌, ◌<◌, ◌≤◌, ◌-◌, ◌++◌, bytes_eq, codes, decimal, length, if◌then◌else◌, IfOk};
ghost use Rattle.outside_io.specs.Outside.{Pushes, HasCause};
ghost use Rattle.sweep_core.specs.Stretches.{ended};
ghost use Rattle.sweep_core.specs.Swept.{base_line, same_or, stretch_line};

use crate::outcome::{Front, OutcomeText};
use arrayvec::ArrayString;
use outside_io::{Failed, Sink};
use trace_text::push_decimal;

/// A line of up to 705 bytes.
type Line = ArrayString<1024>;

/// Pushes a line and flushes the sink at once: the run behind the line took much longer.
fn push_line<S: Sink>(line: &Line, out: &mut S) -> Result<(), Failed>
    ensures bytes { Pushes (S.seen out.old).written (S.seen out.new).written line.now.bytes result }
    ensures cause { HasCause (S.seen out.old).faults (S.seen out.new).faults result }
{
    out.push(line.as_str().as_bytes())?;
    out.flush()
}

#[tactic(auto, unfolding(crate::specs::Swept::base_line))]
fn base_line(base: &OutcomeText) -> Line
    ensures { result.bytes ≡ base_line base.now.bytes }
{
    let mut line = Line::new();
    line.push_str("without ");
    line.push_str(base.as_str());
    line.push_str("\n");
    line
}

/// Pushes the line of the run without an arrival.
pub(crate) fn push_base<S: Sink>(base: &OutcomeText, out: &mut S) -> Result<(), Failed>
    ensures bytes { Pushes (S.seen out.old).written (S.seen out.new).written
        (base_line base.now.bytes) result }
    ensures cause { HasCause (S.seen out.old).faults (S.seen out.new).faults result }
{
    push_line(&base_line(base), out)
}

/// The words for the first and the last arrival time of a stretch.
fn times(first: u32, last: u32) -> Front
    ensures { result.bytes ≡ decimal first ++ codes " " ++ decimal last ++ codes " " }
{
    let mut out = Front::new();
    push_decimal(&mut out, u64::from(first));
    out.push_str(" ");
    push_decimal(&mut out, u64::from(last));
    out.push_str(" ");
    out
}

/// Pushes an outcome, or `same` if it is that of the run without an arrival.
fn push_words(words: &OutcomeText, base: &OutcomeText, line: &mut Line)
    requires { length line.old.bytes ≤ 160 }
    ensures bytes { line.new.bytes ≡ line.old.bytes ++ same_or base.now.bytes words.now.bytes }
    ensures short { length line.new.bytes ≤ 928 }
{
    if words.as_str() == base.as_str() {
        line.push_str("same");
    } else {
        line.push_str(words.as_str());
    }
}

#[tactic(auto, unfolding(crate::specs::Swept::stretch_line))]
fn stretch_line(first: u32, last: u32, words: &OutcomeText, base: &OutcomeText) -> Line
    ensures { result.bytes ≡ stretch_line base.now.bytes first last words.now.bytes }
{
    let mut line = Line::new();
    line.push_str(times(first, last).as_str());
    push_words(words, base, &mut line);
    line.push_str("\n");
    line
}

/// Pushes the line of a stretch of arrival times with the same outcome.
fn push_stretch<S: Sink>(
    first: u32,
    last: u32,
    words: &OutcomeText,
    base: &OutcomeText,
    out: &mut S,
) -> Result<(), Failed>
    ensures bytes { Pushes (S.seen out.old).written (S.seen out.new).written
        (stretch_line base.now.bytes first last words.now.bytes) result }
    ensures cause { HasCause (S.seen out.old).faults (S.seen out.new).faults result }
{
    push_line(&stretch_line(first, last, words, base), out)
}

/// A stretch of arrival times with the same outcome, which may go on.
#[derive(Drop)]
pub(crate) struct TimeStretch {
    pub(crate) first: u32,
    pub(crate) words: OutcomeText,
}

impl TimeStretch {
    /// Ends the stretch right before this arrival time and pushes its line.
    pub(crate) fn end<S: Sink>(
        &self,
        time: u32,
        base: &OutcomeText,
        out: &mut S,
    ) -> Result<(), Failed>
        requires { self.now.first < time }
        ensures bytes { Pushes (S.seen out.old).written (S.seen out.new).written
            (stretch_line base.now.bytes self.now.first (time - 1) self.now.words.bytes) result }
        ensures cause { HasCause (S.seen out.old).faults (S.seen out.new).faults result }
    {
        push_stretch(self.first, time - 1, &self.words, base, out)
    }

    /// Goes on to the next arrival time. If its outcome is a different one, the stretch ends before
    /// it, and the next stretch begins there.
    pub(crate) fn go_on<S: Sink>(
        &mut self,
        time: u32,
        words: OutcomeText,
        base: &OutcomeText,
        out: &mut S,
    ) -> Result<(), Failed>
        requires { self.old.first < time }
        ensures bytes { Pushes (S.seen out.old).written (S.seen out.new).written
            (ended base.now.bytes self.old.first self.old.words.bytes time words.bytes) result }
        ensures first { IfOk result (λ _. self.new.first ≡
            (if bytes_eq words.bytes self.old.words.bytes then self.old.first else time)) }
        ensures words { IfOk result (λ _. self.new.words.bytes ≡ words.bytes) }
        ensures cause { HasCause (S.seen out.old).faults (S.seen out.new).faults result }
    {
        if words.as_str() != self.words.as_str() {
            self.end(time, base, out)?;
            self.first = time;
            self.words = words;
        }
        Ok(())
    }
}

//! What each form of a line says: `every`, `at`, `from`, with a text or without.

ghost use Rattle.std.specs.Prelude.{◌≡◌, ◌≤◌, ◌<◌, ◌+◌, ◌-◌, ◌*◌, ◌/◌, ◌∷◌, [], length, nat_le, IfOk, IfSome, Some, None, Result, Ok, Err};
ghost use Rattle.run_script.specs.Drafts.{IsKnown, said};
ghost use Rattle.run_script.specs.Facts.{HasDevice, HasLine};
ghost use Rattle.run_script.specs.Words.{words};
ghost use Rattle.run_script.specs.Quotes.{bytes_of};
ghost use Rattle.run_script.specs.Statements.{again, at_said, at_text_said, every_said, event_named, from_said, from_text_said, device_in, once, period_in, period_said, spelled, turn_in};

use crate::event_words::event_named;
use crate::events::Event;
use crate::quotes::bytes_of;
use crate::statement::Statement;
use crate::values::{device_in, period_in, turn_in};
use crate::words::{first_word, is_word};
use std::alloc::{AllocError, Global};

fn period_said(word: &[u8]) -> Statement
    ensures value { said result ≡ period_said (period_in word.now) }
    ensures known { IsKnown result }
{
    match period_in(word) {
        None => Statement::Refused { cause: 3 },
        Some(period) => Statement::Every { period },
    }
}

fn once(turn: Option<u32>, event: Result<Event, u8>) -> Statement
    requires turn { IfSome turn (λ turn. turn < 1000000000) }
    requires line { IfOk event HasLine }
    requires device { IfOk event HasDevice }
    ensures value { said result ≡ once turn event }
    ensures known { IsKnown result }
{
    match (turn, event) {
        (_, Err(cause)) => Statement::Refused { cause },
        (None, Ok(_)) => Statement::Refused { cause: 3 },
        (Some(first), Ok(event)) => Statement::Repeats {
            first,
            step: 0,
            times: 1,
            event,
        },
    }
}

/// An event every `step` turns from turn `first` on, up to turn `last`.
fn repeats(first: u32, step: u32, last: u32, event: Event) -> Statement
    requires some { 0 < step }
    requires step { step ≤ 1000000000 }
    requires last { last < 1000000000 }
    requires line { HasLine event }
    requires device { HasDevice event }
    ensures value { said result ≡ again (Some first) (Some step) (Some last) (Ok event) }
    ensures known { IsKnown result }
{
    if last < first {
        return Statement::Refused { cause: 3 };
    }
    Statement::Repeats {
        first,
        step,
        times: (last - first) / step + 1,
        event,
    }
}

fn again(
    first: Option<u32>,
    step: Option<u32>,
    last: Option<u32>,
    event: Result<Event, u8>,
) -> Statement
    requires some { IfSome step (λ step. 0 < step) }
    requires step { IfSome step (λ step. step ≤ 1000000000) }
    requires last { IfSome last (λ last. last < 1000000000) }
    requires line { IfOk event HasLine }
    requires device { IfOk event HasDevice }
    ensures value { said result ≡ again first step last event }
    ensures known { IsKnown result }
{
    match (first, step, last, event) {
        (_, _, _, Err(cause)) => Statement::Refused { cause },
        (Some(first), Some(step), Some(last), Ok(event)) => repeats(first, step, last, event),
        _ => Statement::Refused { cause: 3 },
    }
}

/// Whether the turn that is this many steps after the first one is a turn of a run.
fn is_in_time(first: u32, step: u32, steps: usize) -> bool
    ensures { result ≡ nat_le (first + steps * step) 999999999 }
{
    match (steps as u64).checked_mul(u64::from(step)) {
        None => false,
        Some(turns) => turns <= 999_999_999 && turns + u64::from(first) <= 999_999_999,
    }
}

/// Bytes for a device, the first on a turn and each further one `step` turns later.
fn bytes_said(first: u32, step: u32, device: u8, bytes: Vec<u8>) -> Statement
    requires some { 0 < length bytes.items }
    requires step { step ≤ 1000000000 }
    requires device { device < 8 }
    ensures value { said result ≡ spelled (Some first) (Some step) (Some device)
        (Some bytes.items) }
    ensures known { IsKnown result }
{
    if !is_in_time(first, step, bytes.len() - 1) {
        return Statement::Refused { cause: 3 };
    }
    Statement::Bytes {
        first,
        step,
        device,
        bytes,
    }
}

fn spelled(
    alloc: Global,
    first: Option<u32>,
    step: Option<u32>,
    device: Option<u8>,
    text: &[u8],
) -> Result<Statement, AllocError>
    requires text { 0 < length text.now }
    requires step { IfSome step (λ step. step ≤ 1000000000) }
    requires device { IfSome device (λ device. device < 8) }
    ensures value { IfOk result (λ s. said s ≡ spelled first step device (bytes_of text.now)) }
    ensures known { IfOk result IsKnown }
{
    let bytes = bytes_of(alloc, text)?;
    Ok(match (first, step, device, bytes) {
        (Some(first), Some(step), Some(device), Some(bytes)) => {
            bytes_said(first, step, device, bytes)
        }
        _ => Statement::Refused { cause: 3 },
    })
}

/// Behind `every`.
pub(crate) fn every_said(text: &[u8]) -> Statement
    ensures value { said result ≡ every_said (words text.now) }
    ensures known { IsKnown result }
{
    let (period, behind) = first_word(text);
    let (kind, behind) = first_word(behind);
    let (more, _behind) = first_word(behind);
    if kind.is_empty() || !more.is_empty() {
        Statement::Refused { cause: 2 }
    } else {
        period_and_kind(period, kind)
    }
}

fn period_and_kind(period: &[u8], kind: &[u8]) -> Statement
    ensures value { said result ≡ every_said (period.now ∷ kind.now ∷ []) }
    ensures known { IsKnown result }
{
    if is_word(kind, b"tick") {
        period_said(period)
    } else {
        Statement::Refused { cause: 2 }
    }
}

/// Behind `at`.
pub(crate) fn at_said(text: &[u8]) -> Statement
    ensures value { said result ≡ at_said (words text.now) }
    ensures known { IsKnown result }
{
    let (turn, event) = first_word(text);
    if turn.is_empty() {
        Statement::Refused { cause: 2 }
    } else {
        once(turn_in(turn), event_named(event))
    }
}

/// Behind `from`.
pub(crate) fn from_said(text: &[u8]) -> Statement
    ensures value { said result ≡ from_said (words text.now) }
    ensures known { IsKnown result }
{
    let (first, behind) = first_word(text);
    let (every, behind) = first_word(behind);
    let (step, behind) = first_word(behind);
    let (to, behind) = first_word(behind);
    let (last, event) = first_word(behind);
    if last.is_empty() {
        Statement::Refused { cause: 2 }
    } else {
        from_words(first, every, step, to, last, event)
    }
}

fn from_words(
    first: &[u8],
    every: &[u8],
    step: &[u8],
    to: &[u8],
    last: &[u8],
    event: &[u8],
) -> Statement
    ensures value { said result ≡ from_said
        (first.now ∷ every.now ∷ step.now ∷ to.now ∷ last.now ∷ words event.now) }
    ensures known { IsKnown result }
{
    if is_word(every, b"every") && is_word(to, b"to") {
        again(
            turn_in(first),
            period_in(step),
            turn_in(last),
            event_named(event),
        )
    } else {
        Statement::Refused { cause: 2 }
    }
}

/// Behind `at`, before a text.
pub(crate) fn at_text_said(
    alloc: Global,
    before: &[u8],
    text: &[u8],
) -> Result<Statement, AllocError>
    requires { 0 < length text.now }
    ensures value { IfOk result (λ s. said s ≡ at_text_said (words before.now) text.now) }
    ensures known { IfOk result IsKnown }
{
    let (turn, behind) = first_word(before);
    let (kind, behind) = first_word(behind);
    let (device, behind) = first_word(behind);
    let (more, _behind) = first_word(behind);
    if device.is_empty() || !more.is_empty() {
        Ok(Statement::Refused { cause: 2 })
    } else if is_word(kind, b"in") {
        spelled(alloc, turn_in(turn), Some(0), device_in(device), text)
    } else {
        Ok(Statement::Refused { cause: 2 })
    }
}

/// Behind `from`, before a text.
pub(crate) fn from_text_said(
    alloc: Global,
    before: &[u8],
    text: &[u8],
) -> Result<Statement, AllocError>
    requires { 0 < length text.now }
    ensures value { IfOk result (λ s. said s ≡ from_text_said (words before.now) text.now) }
    ensures known { IfOk result IsKnown }
{
    let (first, behind) = first_word(before);
    let (every, behind) = first_word(behind);
    let (step, behind) = first_word(behind);
    let (kind, behind) = first_word(behind);
    let (device, behind) = first_word(behind);
    let (more, _behind) = first_word(behind);
    if device.is_empty() {
        Ok(Statement::Refused { cause: 2 })
    } else if more.is_empty() {
        from_and_text(alloc, first, every, step, kind, device, text)
    } else {
        Ok(Statement::Refused { cause: 2 })
    }
}

fn from_and_text(
    alloc: Global,
    first: &[u8],
    every: &[u8],
    step: &[u8],
    kind: &[u8],
    device: &[u8],
    text: &[u8],
) -> Result<Statement, AllocError>
    requires { 0 < length text.now }
    ensures value { IfOk result (λ s. said s ≡ from_text_said
        (first.now ∷ every.now ∷ step.now ∷ kind.now ∷ device.now ∷ []) text.now) }
    ensures known { IfOk result IsKnown }
{
    if is_word(every, b"every") && is_word(kind, b"in") {
        let (first, step, device) = (turn_in(first), period_in(step), device_in(device));
        spelled(alloc, first, step, device, text)
    } else {
        Ok(Statement::Refused { cause: 2 })
    }
}

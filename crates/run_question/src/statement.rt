//! What a line of a question says.

ghost use Rattle.std.specs.Prelude.{◌≡◌, ◌∷◌, [], map, IfOk, OnOk, Some, Option, Result};
ghost use Rattle.run_script.specs.declared.events.Event.TheVariants.{Feed};
ghost use Rattle.run_script.specs.Statements.{device_in, line_in, turn_in};
ghost use Rattle.run_script.specs.Words.{words};
ghost use Rattle.run_question.specs.Drafts.{events_said, said};
ghost use Rattle.run_question.specs.Statements.{asks, at_said, below_in, events_named, fed, from_said, irq_on, may_fail_in, offered, ranged, ranged_if, statement_of, words_said};
ghost use Rattle.run_question.specs.Values.{values_in};

use crate::asked::Property;
use crate::property::{device_in, property_said};
use crate::values::values_in;
use run_script::{Event, are_allowed, first_word, number_within, starts_by_hash};
use std::alloc::{AllocError, Global};

/// What a line says.
#[derive(Drop)]
pub(crate) enum Statement {
    /// It is blank or a comment.
    Nothing,
    /// `from A below B`, perhaps with `or not`.
    Arrives {
        first: u32,
        below: u32,
        may_fail: bool,
    },
    /// `at T ..`: one of the events comes.
    Offers {
        turn: u32,
        events: Vec<Event>,
    },
    Asks {
        property: Property,
    },
    /// The first of the causes 1 to 3 that applies.
    Refused {
        cause: u8,
    },
}

fn turn_in(word: &[u8]) -> Option<u32>
    ensures { result ≡ turn_in word.now }
{
    number_within(word, 0, 999_999_999)
}

fn below_in(word: &[u8]) -> Option<u32>
    ensures { result ≡ below_in word.now }
{
    number_within(word, 1, 1_000_000_000)
}

fn line_in(word: &[u8]) -> Option<u8>
    ensures { result ≡ line_in word.now }
{
    match number_within(word, 0, 63) {
        None => None,
        Some(line) => Some(line as u8),
    }
}

// ---- an arrival

/// Behind the range: nothing, or `or not`.
fn may_fail_in(text: &[u8]) -> Option<bool>
    ensures { result ≡ may_fail_in (words text.now) }
{
    let (one, behind) = first_word(text);
    let (two, behind) = first_word(behind);
    let (more, _behind) = first_word(behind);
    if one.is_empty() {
        Some(false)
    } else if two.is_empty() || !more.is_empty() {
        None
    } else if one == b"or".as_slice() && two == b"not".as_slice() {
        Some(true)
    } else {
        None
    }
}

fn ranged(first: Option<u32>, below: Option<u32>, may_fail: bool) -> Statement
    ensures { said result ≡ ranged first below may_fail }
{
    match (first, below) {
        (Some(first), Some(below)) if first < below => Statement::Arrives {
            first,
            below,
            may_fail,
        },
        _ => Statement::Refused { cause: 3 },
    }
}

fn ranged_if(first: Option<u32>, below: Option<u32>, may_fail: Option<bool>) -> Statement
    ensures { said result ≡ ranged_if first below may_fail }
{
    match may_fail {
        None => Statement::Refused { cause: 2 },
        Some(may_fail) => ranged(first, below, may_fail),
    }
}

/// Behind `from`: a turn, `below`, a turn, and perhaps `or not`.
fn from_said(text: &[u8]) -> Statement
    ensures { said result ≡ from_said (words text.now) }
{
    let (first, behind) = first_word(text);
    let (word, behind) = first_word(behind);
    let (below, behind) = first_word(behind);
    if below.is_empty() {
        Statement::Refused { cause: 2 }
    } else if word == b"below".as_slice() {
        ranged_if(turn_in(first), below_in(below), may_fail_in(behind))
    } else {
        Statement::Refused { cause: 2 }
    }
}

// ---- events, of which one comes

fn alone(alloc: Global, event: Event) -> Result<Vec<Event>, AllocError>
    ensures { IfOk result (λ v. v.items ≡ event ∷ []) }
{
    let mut events = Vec::new(alloc);
    events.push(event)?;
    Ok(events)
}

/// The bytes for a device.
fn feeds(alloc: Global, device: u8, bytes: &[u8]) -> Result<Vec<Event>, AllocError>
    ensures { IfOk result (λ v. v.items ≡ map (λ byte. Feed device byte) bytes.now) }
{
    let mut events = Vec::new(alloc);
    for byte in bytes {
        events.push(Event::Feed {
            device,
            byte: *byte,
        })?;
    }
    Ok(events)
}

fn tick_named(alloc: Global, kind: &[u8]) -> Result<Result<Vec<Event>, u8>, AllocError>
    ensures { IfOk result (λ r. events_said r ≡ events_named (kind.now ∷ [])) }
{
    if kind == b"tick".as_slice() {
        Ok(Ok(alone(alloc, Event::Tick)?))
    } else {
        Ok(Err(2))
    }
}

fn irq_named(alloc: Global, kind: &[u8], line: &[u8]) -> Result<Result<Vec<Event>, u8>, AllocError>
    ensures { IfOk result (λ r. events_said r ≡ events_named (kind.now ∷ line.now ∷ [])) }
{
    if kind != b"irq".as_slice() {
        return Ok(Err(2));
    }
    match line_in(line) {
        None => Ok(Err(3)),
        Some(line) => Ok(Ok(alone(alloc, Event::Irq { line })?)),
    }
}

fn bytes_named(
    alloc: Global,
    kind: &[u8],
    device: &[u8],
    bytes: &[u8],
) -> Result<Result<Vec<Event>, u8>, AllocError>
    ensures { IfOk result (λ r. events_said r ≡ events_named
        (kind.now ∷ device.now ∷ bytes.now ∷ [])) }
{
    if kind != b"in".as_slice() {
        return Ok(Err(2));
    }
    match (device_in(device), values_in(alloc, bytes)?) {
        (Some(device), Some(bytes)) => Ok(Ok(feeds(alloc, device, &bytes)?)),
        _ => Ok(Err(3)),
    }
}

/// `tick`, or `irq` and a line, or `in`, a device and bytes.
fn events_named(alloc: Global, text: &[u8]) -> Result<Result<Vec<Event>, u8>, AllocError>
    ensures { IfOk result (λ r. events_said r ≡ events_named (words text.now)) }
{
    let (kind, behind) = first_word(text);
    let (one, behind) = first_word(behind);
    let (two, behind) = first_word(behind);
    let (more, _behind) = first_word(behind);
    if kind.is_empty() {
        Ok(Err(2))
    } else if one.is_empty() {
        tick_named(alloc, kind)
    } else if two.is_empty() {
        irq_named(alloc, kind, one)
    } else if more.is_empty() {
        bytes_named(alloc, kind, one, two)
    } else {
        Ok(Err(2))
    }
}

fn offered(turn: Option<u32>, events: Result<Vec<Event>, u8>) -> Statement
    ensures { said result ≡ offered turn (events_said events) }
{
    match (turn, events) {
        (_, Err(cause)) => Statement::Refused { cause },
        (None, Ok(_)) => Statement::Refused { cause: 3 },
        (Some(turn), Ok(events)) => Statement::Offers { turn, events },
    }
}

/// Behind `at`: a turn and what comes.
fn at_said(alloc: Global, text: &[u8]) -> Result<Statement, AllocError>
    ensures { IfOk result (λ s. said s ≡ at_said (words text.now)) }
{
    let (turn, behind) = first_word(text);
    if turn.is_empty() {
        Ok(Statement::Refused { cause: 2 })
    } else {
        Ok(offered(turn_in(turn), events_named(alloc, behind)?))
    }
}

// ---- the line

fn asks(property: Result<Property, u8>) -> Statement
    ensures { said result ≡ asks property }
{
    match property {
        Ok(property) => Statement::Asks { property },
        Err(cause) => Statement::Refused { cause },
    }
}

fn words_said(alloc: Global, line: &[u8]) -> Result<Statement, AllocError>
    ensures { IfOk result (λ s. said s ≡ words_said (words line.now)) }
{
    let (word, behind) = first_word(line);
    if word.is_empty() {
        Ok(Statement::Nothing)
    } else if starts_by_hash(word) {
        Ok(Statement::Nothing)
    } else if word == b"from".as_slice() {
        Ok(from_said(behind))
    } else if word == b"at".as_slice() {
        at_said(alloc, behind)
    } else {
        Ok(asks(property_said(line)))
    }
}

/// What a line says, or the first of the causes 1 to 3.
#[tactic(auto, unfolding(crate::specs::Statements::statement_of))]
pub(crate) fn statement_of(alloc: Global, line: &[u8]) -> Result<Statement, AllocError>
    ensures { IfOk result (λ s. said s ≡ statement_of line.now) }
{
    if are_allowed(line) {
        words_said(alloc, line)
    } else {
        Ok(Statement::Refused { cause: 1 })
    }
}

//! A question that is being read.

ghost use Rattle.std.specs.Prelude.{◌≡◌, ◌++◌, map, IfOk, IfErr, IfSome, Ok, Err};
ghost use Rattle.std.specs.Option.{option_map};
ghost use Rattle.run_script.specs.Words.{words};
ghost use Rattle.run_question.specs.Drafts.{Refuses, drafted, said, stated};
ghost use Rattle.run_question.specs.Questions.{arrival_data, question_data};
ghost use Rattle.run_question.specs.Reading.{arrival, ended, is_empty, joined, listed, nothing_read, offer, stated_as, with_arrival, with_offer, with_property, with_said};

use crate::asked::Property;
use crate::question::{Arrival, Offer, Question, QuestionFault, Stated};
use crate::statement::Statement;
use run_script::{Event, first_word};
use std::alloc::{AllocError, Global};

const MOST_ARRIVALS: usize = 8;

const MOST_EVENTS: usize = 256;

const MOST_PROPERTIES: usize = 16;

/// What is read so far.
#[derive(Drop)]
pub(crate) struct Draft {
    /// The arrivals before the last.
    pub(crate) before: Vec<Arrival>,
    pub(crate) last: Option<Arrival>,
    /// The turn of the last event of the last arrival; 0 where it has none.
    pub(crate) from: u32,
    /// How many events all arrivals have.
    pub(crate) events: usize,
    pub(crate) properties: Vec<Stated>,
}

pub(crate) fn empty_draft(alloc: Global) -> Draft
    ensures { drafted result ≡ nothing_read }
{
    Draft {
        before: Vec::new(alloc),
        last: None,
        from: 0,
        events: 0,
        properties: Vec::new(alloc),
    }
}

fn is_empty(last: &Option<Arrival>) -> bool
    ensures { result ≡ is_empty (option_map arrival_data last.now) }
{
    match last {
        None => false,
        Some(arrival) => arrival.offers.is_empty(),
    }
}

/// The arrivals with the last among them.
fn with_last(before: Vec<Arrival>, last: Option<Arrival>) -> Result<Vec<Arrival>, AllocError>
    ensures { IfOk result (λ v. map arrival_data v.items ≡ map arrival_data before.items ++ listed
        (option_map arrival_data last)) }
{
    let mut arrivals = before;
    match last {
        None => Ok(arrivals),
        Some(arrival) => {
            arrivals.push(arrival)?;
            Ok(arrivals)
        }
    }
}

/// With an arrival more, behind no property.
fn with_arrival(
    alloc: Global,
    draft: Draft,
    first: u32,
    below: u32,
    may_fail: bool,
    line: usize,
) -> Result<Draft, QuestionFault>
    ensures ok { IfOk result (λ d. with_arrival (drafted draft) (arrival first below may_fail) ≡ Ok
        (drafted d)) }
    ensures err { IfErr result (λ e. Refuses e line
        (with_arrival (drafted draft) (arrival first below may_fail))) }
{
    if draft.properties.len() > 0 || is_empty(&draft.last) {
        return Err(QuestionFault::Refused { cause: 4, line });
    }
    let before = match with_last(draft.before, draft.last) {
        Err(_) => return Err(QuestionFault::Memory),
        Ok(arrivals) => arrivals,
    };
    if before.len() >= MOST_ARRIVALS {
        return Err(QuestionFault::Refused { cause: 5, line });
    }
    let offers = Vec::new(alloc);
    Ok(Draft {
        before,
        last: Some(Arrival {
            first,
            below,
            may_fail,
            offers,
        }),
        from: 0,
        events: draft.events,
        properties: draft.properties,
    })
}

/// With one event of some more, of the last arrival.
fn with_offer(
    draft: Draft,
    turn: u32,
    events: Vec<Event>,
    line: usize,
) -> Result<Draft, QuestionFault>
    ensures ok { IfOk result (λ d. with_offer (drafted draft) (offer turn events.items) ≡ Ok
        (drafted d)) }
    ensures err { IfErr result (λ e. Refuses e line
        (with_offer (drafted draft) (offer turn events.items))) }
{
    let Draft {
        before,
        last,
        from,
        events: count,
        properties,
    } = draft;
    if properties.len() > 0 || turn < from {
        return Err(QuestionFault::Refused { cause: 4, line });
    }
    let mut arrival = match last {
        None => return Err(QuestionFault::Refused { cause: 4, line }),
        Some(arrival) => arrival,
    };
    if count >= MOST_EVENTS {
        return Err(QuestionFault::Refused { cause: 5, line });
    }
    match arrival.offers.push(Offer { turn, events }) {
        Err(_) => return Err(QuestionFault::Memory),
        Ok(()) => {}
    }
    Ok(Draft {
        before,
        last: Some(arrival),
        from: turn,
        events: count + 1,
        properties,
    })
}

/// The words of a text, one space between two.
fn joined(alloc: Global, text: &[u8]) -> Result<Vec<u8>, AllocError>
    ensures { IfOk result (λ v. v.items ≡ joined (words text.now)) }
{
    let mut words = Vec::new(alloc);
    let (first, behind) = first_word(text);
    words.extend_from_slice(first)?;
    let mut rest = behind;
    'words: loop {
        let (word, behind) = first_word(rest);
        if word.is_empty() {
            return Ok(words);
        }
        words.push(b' ')?;
        words.extend_from_slice(word)?;
        rest = behind;
    }
}

/// With a property more.
fn with_property(
    alloc: Global,
    draft: Draft,
    property: Property,
    text: &[u8],
    line: usize,
) -> Result<Draft, QuestionFault>
    ensures ok { IfOk result (λ d. with_property (drafted draft)
        (stated_as line (joined (words text.now)) property) ≡ Ok (drafted d)) }
    ensures err { IfErr result (λ e. Refuses e line (with_property (drafted draft)
        (stated_as line (joined (words text.now)) property))) }
{
    let mut draft = draft;
    if is_empty(&draft.last) {
        return Err(QuestionFault::Refused { cause: 4, line });
    }
    if draft.properties.len() >= MOST_PROPERTIES {
        return Err(QuestionFault::Refused { cause: 5, line });
    }
    let words = match joined(alloc, text) {
        Err(_) => return Err(QuestionFault::Memory),
        Ok(words) => words,
    };
    let stated = Stated {
        line,
        words,
        property,
    };
    match draft.properties.push(stated) {
        Err(_) => Err(QuestionFault::Memory),
        Ok(()) => Ok(draft),
    }
}

/// With what a line says, or why it is refused there.
pub(crate) fn take(
    alloc: Global,
    draft: Draft,
    statement: Statement,
    text: &[u8],
    line: usize,
) -> Result<Draft, QuestionFault>
    ensures ok { IfOk result (λ d. with_said (drafted draft) line text.now (said statement) ≡ Ok
        (drafted d)) }
    ensures err { IfErr result (λ e. Refuses e line
        (with_said (drafted draft) line text.now (said statement))) }
{
    match statement {
        Statement::Nothing => Ok(draft),
        Statement::Arrives {
            first,
            below,
            may_fail,
        } => with_arrival(alloc, draft, first, below, may_fail, line),
        Statement::Offers { turn, events } => with_offer(draft, turn, events, line),
        Statement::Asks { property } => with_property(alloc, draft, property, text, line),
        Statement::Refused { cause } => Err(QuestionFault::Refused { cause, line }),
    }
}

/// The end, with so many lines before it and one.
pub(crate) fn ended(draft: Draft, line: usize) -> Result<Question, QuestionFault>
    ensures ok { IfOk result (λ q. ended (drafted draft) line ≡ Ok (question_data q)) }
    ensures err { IfErr result (λ e. IfSome (stated e) (λ t. ended (drafted draft) line ≡ Err t)) }
{
    if is_empty(&draft.last) {
        return Err(QuestionFault::Refused { cause: 4, line });
    }
    match with_last(draft.before, draft.last) {
        Err(_) => Err(QuestionFault::Memory),
        Ok(arrivals) => Ok(Question {
            arrivals,
            properties: draft.properties,
        }),
    }
}

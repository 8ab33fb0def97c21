//! What a line of a script says.

ghost use Rattle.std.specs.Prelude.{◌≡◌, ◌<◌, ◌-◌, ◌*◌, ◌/◌, [], length, IfOk, Result, Ok};
ghost use Rattle.run_script.specs.Drafts.{IsKnown, said};
ghost use Rattle.run_script.specs.Words.{words};
ghost use Rattle.run_script.specs.Statements.{at_said, at_text_said, every_said, from_said, from_text_said, once, starts_by_hash, statement_of, text_said, line_said, words_said};

use crate::events::Event;
use crate::forms::{at_said, at_text_said, every_said, from_said, from_text_said};
use crate::quotes::text_start;
use crate::words::{are_allowed, first_word, is_word};
use std::alloc::{AllocError, Global};

/// What a line says.
#[derive(Drop)]
pub(crate) enum Statement {
    /// It is blank or a comment.
    Nothing,
    /// `every P tick`.
    Every {
        period: u32,
    },
    /// `at T ..`, which is an event once, or `from A every P to B ..`.
    Repeats {
        first: u32,
        step: u32,
        times: u32,
        event: Event,
    },
    /// `at T in D TEXT`, all bytes on one turn, and `from A every P in D TEXT`.
    Bytes {
        first: u32,
        step: u32,
        device: u8,
        bytes: Vec<u8>,
    },
    /// The first of the causes 1 to 3 that applies.
    Refused {
        cause: u8,
    },
}

/// Whether a word begins with `#`: where it is the first of a line, the line is a comment.
pub fn starts_by_hash(word: &[u8]) -> bool
    ensures { result ≡ starts_by_hash word.now }
{
    match word {
        [] => false,
        [first, ..] => *first == b'#',
    }
}

/// What the words of a line without a text say.
fn words_said(line: &[u8]) -> Statement
    ensures value { said result ≡ words_said (words line.now) }
    ensures known { IsKnown result }
{
    let (word, behind) = first_word(line);
    if word.is_empty() {
        Statement::Nothing
    } else if starts_by_hash(word) {
        Statement::Nothing
    } else if is_word(word, b"every") {
        every_said(behind)
    } else if is_word(word, b"at") {
        at_said(behind)
    } else if is_word(word, b"from") {
        from_said(behind)
    } else {
        Statement::Refused { cause: 2 }
    }
}

/// What a line that ends in a text says.
fn text_said(alloc: Global, before: &[u8], text: &[u8]) -> Result<Statement, AllocError>
    requires { 0 < length text.now }
    ensures value { IfOk result (λ s. said s ≡ text_said (words before.now) text.now) }
    ensures known { IfOk result IsKnown }
{
    let (word, behind) = first_word(before);
    if word.is_empty() {
        Ok(Statement::Refused { cause: 2 })
    } else if starts_by_hash(word) {
        Ok(Statement::Nothing)
    } else if is_word(word, b"at") {
        at_text_said(alloc, behind, text)
    } else if is_word(word, b"from") {
        from_text_said(alloc, behind, text)
    } else {
        Ok(Statement::Refused { cause: 2 })
    }
}

/// What a line says, given the part before its text, and the text, which may be empty.
fn line_said(alloc: Global, before: &[u8], text: &[u8]) -> Result<Statement, AllocError>
    ensures value { IfOk result (λ s. said s ≡ line_said (words before.now) text.now) }
    ensures known { IfOk result IsKnown }
{
    if text.is_empty() {
        Ok(words_said(before))
    } else {
        text_said(alloc, before, text)
    }
}

/// What a line says, or the first of the causes 1 to 3.
#[tactic(auto, unfolding(crate::specs::Statements::statement_of))]
pub(crate) fn statement_of(alloc: Global, line: &[u8]) -> Result<Statement, AllocError>
    ensures value { IfOk result (λ s. said s ≡ statement_of line.now) }
    ensures known { IfOk result IsKnown }
{
    if !are_allowed(line) {
        return Ok(Statement::Refused { cause: 1 });
    }
    let (before, text) = line.split_at(text_start(line));
    line_said(alloc, before, text)
}

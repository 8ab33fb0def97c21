//! From bytes to a question, or the first cause by which they are refused.

ghost use Rattle.std.specs.Prelude.{◌≡◌, IfOk, IfErr, IfSome, Ok, Err};
ghost use Rattle.run_question.specs.Drafts.{Refuses, drafted, stated};
ghost use Rattle.run_question.specs.Questions.{question_data};
ghost use Rattle.run_question.specs.Reading.{nothing_read, question_or_fault, with_lines, with_said};
ghost use Rattle.run_question.specs.Statements.{statement_of};
ghost use Rattle.text_lines.specs.Text.{lines_of};

use crate::draft::{Draft, empty_draft, ended, take};
use crate::question::{Question, QuestionFault};
use crate::schedules::are_few;
use crate::statement::statement_of;
use std::alloc::Global;
use text_lines::Lines;

/// With one line more.
fn with_line(alloc: Global, draft: Draft, text: &[u8], line: usize) -> Result<Draft, QuestionFault>
    ensures ok { IfOk result (λ d. with_said (drafted draft) line text.now
        (statement_of text.now) ≡ Ok (drafted d)) }
    ensures err { IfErr result (λ e. Refuses e line (with_said (drafted draft) line text.now
        (statement_of text.now))) }
{
    match statement_of(alloc, text) {
        Err(_) => Err(QuestionFault::Memory),
        Ok(statement) => take(alloc, draft, statement, text, line),
    }
}

fn lines_read(alloc: Global, bytes: &[u8]) -> Result<Question, QuestionFault>
    ensures ok { IfOk result (λ q. with_lines nothing_read 1 (lines_of bytes.now) ≡ Ok
        (question_data q)) }
    ensures refused { IfErr result (λ e. IfSome (stated e) (λ t. with_lines nothing_read 1
        (lines_of bytes.now) ≡ Err t)) }
{
    let mut draft = empty_draft(alloc);
    let mut number = 0usize;
    let mut lines = Lines::of(bytes);
    'lines: while let Some(line) = lines.next() {
        number += 1;
        match with_line(alloc, draft, line, number) {
            Err(fault) => return Err(fault),
            Ok(next) => draft = next,
        }
    }
    ended(draft, number + 1)
}

impl Question {
    /// The question that the bytes say, or the first cause by which they are refused with its line,
    /// in the order of docs/EXPLORE.md, Question; `Memory` where memory ran out. Lines are counted
    /// from 1. Causes 6 and 7 depend on the script and the image: they are not found here.
    pub fn read(alloc: Global, bytes: &[u8]) -> Result<Question, QuestionFault>
        ensures ok { IfOk result (λ q. question_or_fault bytes.now ≡ Ok (question_data q)) }
        ensures refused { IfErr result (λ e.
            IfSome (stated e) (λ t. question_or_fault bytes.now ≡ Err t)) }
    {
        let question = lines_read(alloc, bytes)?;
        if are_few(&question.arrivals) {
            Ok(question)
        } else {
            Err(QuestionFault::Refused { cause: 5, line: 0 })
        }
    }
}

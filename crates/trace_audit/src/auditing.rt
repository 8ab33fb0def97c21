//! The audit of a text.
ghost use Rattle.std.specs.Prelude.{ℕ, ◌≡◌, ◌↔◌, IfOk, Err, Some, None};
ghost use Rattle.trace_audit.specs.Rules.{IsFirstBad};
ghost use Rattle.trace_audit.specs.Texts.{lines_of};
ghost use Rattle.trace_audit.specs.Judgements.{read_lines, HasNoCause, first_cause, IsFirstCause, IsGoodWith, IsJudgement};

use crate::book::Book;
use crate::causes::first_cause;
use crate::judgement::{AuditFault, Judgement};
use crate::pieces::Lines;
use crate::reading::read;
use std::alloc::{AllocError, Global};

/// Whether the lines of a text are good, whatever bytes they have.
fn judgement(alloc: Global, text: &[u8]) -> Result<Judgement, AllocError>
    ensures { IfOk result (IsJudgement text.now) }
{
    let mut book = Book::new(alloc);
    let mut lines = Lines::of(text);
    let mut number = 0u64;
    while let Some(line) = lines.next() {
        number += 1;
        let good = book.add(read(line))?;
        if !good {
            return Ok(Judgement::No { line: number });
        }
    }
    if book.has_ended() {
        Ok(Judgement::Yes {
            calls: book.offered(),
            left: book.left(),
        })
    } else {
        Ok(Judgement::No { line: number + 1 })
    }
}

/// Whether a text is a consistent trace. `Yes` has the number of calls that the text offers, and
/// the number of those that it does not close. It is the answer exactly if each line has a form of
/// a trace (docs/FORMATS.md, Trace) and may follow the lines before it (`specs/Rules`, this
/// project's), and a line ends the turns. Otherwise the answer is `No` with the first line, from 1
/// on, that has no such form or may not follow; if only the line that ends the turns is missing, it
/// is one past the last line. The text may have any bytes and any length. The time is proportional
/// to the length times the logarithm of the number of clients, and the memory to the number of
/// calls that are open at once.
///
/// # Errors
///
/// `Refused` exactly if a line has a byte that no line of a trace has (cause 1), or too many bytes
/// (cause 2), with the first such line and its cause. `Memory` if memory runs out.
pub fn audit(alloc: Global, text: &[u8]) -> Result<Judgement, AuditFault>
    ensures yes { IfOk result (λ v. (calls left : ℕ) → (v ≡ Judgement.Yes calls left) ↔
        IsGoodWith (read_lines text.now) calls left) }
    ensures no { IfOk result (λ v. (n : ℕ) → (v ≡ Judgement.No n) ↔
        IsFirstBad (read_lines text.now) n) }
    ensures fine { IfOk result (λ v. HasNoCause (lines_of text.now)) }
    ensures exact { (cause n : ℕ) → (result ≡ Err (AuditFault.Refused cause n)) ↔
        IsFirstCause (lines_of text.now) cause n }
    ensures first { (cause n : ℕ) → result ≡ Err (AuditFault.Refused cause n) →
        first_cause 1 (lines_of text.now) ≡ Some (cause, n) }
    ensures none { IfOk result (λ v. first_cause 1 (lines_of text.now) ≡ None) }
{
    if let Some((cause, line)) = first_cause(text) {
        return Err(AuditFault::Refused { cause, line });
    }
    match judgement(alloc, text) {
        Ok(judgement) => Ok(judgement),
        Err(_) => Err(AuditFault::Memory),
    }
}

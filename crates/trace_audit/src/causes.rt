//! Lines that cannot be text of a trace.
ghost use Rattle.std.specs.Prelude.{◌≡◌, None, IfSome, IfNone};
ghost use Rattle.std.specs.List.{list_all};
ghost use Rattle.trace_audit.specs.Texts.{lines_of};
ghost use Rattle.trace_audit.specs.Judgements.{is_printable, cause_of, IsFirstCause, HasNoCause};

use crate::pieces::Lines;

/// Whether a line of a trace may have this byte.
fn is_printable(c: u8) -> bool
    ensures { result ≡ is_printable c }
{
    b' ' <= c && c <= b'~'
}

fn are_printable(line: &[u8]) -> bool
    ensures { result ≡ list_all is_printable line.now }
{
    line.iter().all(|c| is_printable(*c))
}

/// The cause of a line. 1: it has a byte other than 32 to 126; 2: it has more than 159 bytes.
#[tactic(auto, unfolding(crate::specs::Judgements::cause_of))]
fn cause_of(line: &[u8]) -> Option<u8>
    ensures { result ≡ cause_of line.now }
{
    if !are_printable(line) {
        Some(1)
    } else if line.len() > 159 {
        Some(2)
    } else {
        None
    }
}

/// The first line with a cause, and the cause.
pub(crate) fn first_cause(text: &[u8]) -> Option<(u8, u64)>
    ensures some { IfSome result (λ p. IsFirstCause (lines_of text.now) p.0 p.1) }
    ensures none { IfNone result (HasNoCause (lines_of text.now)) }
{
    let mut lines = Lines::of(text);
    let mut number = 0u64;
    while let Some(line) = lines.next() {
        number += 1;
        match cause_of(line) {
            Some(cause) => return Some((cause, number)),
            None => {}
        }
    }
    None
}

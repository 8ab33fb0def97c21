//! Texts in quotes.

ghost use Rattle.std.specs.Prelude.{◌≡◌, ◌∷◌, ◌++◌, ◌<◌, ◌≤◌, true, false, length, bytes_eq, MatchOption, IfSome, OnOk, IfErr, Option, []};
ghost use Rattle.thumb_asm.specs.declared.Cause.{Cause as Why};
ghost use Rattle.thumb_asm.specs.Operands.{escape};
ghost use Rattle.thumb_asm.specs.Kinds.{ends_well, good_text};
ghost use Rattle.thumb_asm.specs.Passes.{Stops};

use super::Stop;
use super::expr::head;
use super::index::is_same;

/// An iterator over the bytes that a quoted text means: the text that is left after its first
/// quote.
#[derive(Clone, Copy)]
struct Quoted<'a> {
    rest: &'a [u8],
}

/// The byte that an escape means.
fn escape(c: u8) -> Option<u8>
    ensures { result ≡ escape c }
{
    match c {
        b'\\' | b'"' => Some(c),
        b'n' => Some(b'\n'),
        b'0' => Some(0),
        _ => None,
    }
}

impl<'a> Quoted<'a> {
    /// The next byte that the text means. None at the closing quote, at a bad escape, or at the
    /// end.
    #[tactic(auto, unfolding(crate::specs::Kinds::good_text), using(crate::proofs::Texts::next_steps))]
    fn next(&mut self) -> Option<u8>
        ensures byte { MatchOption result (good_text false self.old.rest.now ≡ [])
            (λ c. good_text false self.old.rest.now ≡ c ∷ good_text false self.new.rest.now) }
        ensures closed { MatchOption result
            (ends_well false self.old.rest.now ≡ bytes_eq self.new.rest.now (34 ∷ []))
            (λ c. ends_well false self.old.rest.now ≡ ends_well false self.new.rest.now) }
        ensures shorter { IfSome result (λ c. length self.new.rest.now < length self.old.rest.now) }
    {
        match head(self.rest) {
            None => None,
            Some((first, rest)) => {
                if first == b'"' {
                    None
                } else if first == b'\\' {
                    match escaped(rest) {
                        None => None,
                        Some((byte, more)) => {
                            self.rest = more;
                            Some(byte)
                        }
                    }
                } else {
                    self.rest = rest;
                    Some(first)
                }
            }
        }
    }
}

/// The byte that an escape means, and the text after it.
#[tactic(auto, unfolding(crate::specs::Kinds::good_text), using(crate::proofs::Texts::escape_steps))]
fn escaped(rest: &[u8]) -> Option<(u8, &[u8])>
    ensures byte { MatchOption result (good_text true rest.now ≡ [])
        (λ p. good_text true rest.now ≡ p.0 ∷ good_text false p.1.now) }
    ensures closed { MatchOption result (ends_well true rest.now ≡ false)
        (λ p. ends_well true rest.now ≡ ends_well false p.1.now) }
    ensures shorter { IfSome result (λ p. length p.1.now < length rest.now) }
{
    match head(rest) {
        None => None,
        Some((c, more)) => match escape(c) {
            None => None,
            Some(byte) => Some((byte, more)),
        },
    }
}

/// Whether a text ends with its closing quote and has no bad escape.
pub(crate) fn is_closed(text: &[u8]) -> bool
    ensures { result ≡ ends_well false text.now }
{
    let mut left = Quoted { rest: text };
    'bytes: while let Some(_) = left.next() {}
    is_same(left.rest, b"\"")
}

/// How many bytes a quoted text means.
pub(crate) fn count(text: &[u8]) -> usize
    ensures value { result ≡ length (good_text false text.now) }
    ensures bound { result ≤ length text.now }
{
    let mut count = 0usize;
    let mut left = Quoted { rest: text };
    'bytes: while let Some(_) = left.next() {
        count += 1;
    }
    count
}

/// Appends the bytes that a quoted text means.
pub(crate) fn push(text: &[u8], out: &mut Vec<u8>) -> Result<(), Stop>
    ensures ok { OnOk result (out.new.items ≡ out.old.items ++ good_text false text.now) }
    ensures err { IfErr result (λ e. (cause : Option Why) → Stops e cause) }
{
    let mut left = Quoted { rest: text };
    'bytes: while let Some(byte) = left.next() {
        match out.push(byte) {
            Ok(()) => {}
            Err(_) => return Err(Stop::Memory),
        }
    }
    Ok(())
}

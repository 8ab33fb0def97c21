//! The kinds of operands.

ghost use Rattle.std.specs.Prelude.{◌≡◌, ◌∷◌, ◌<◌, ◌+◌, length, Some, None, option_map, Option, nat_eq};
ghost use Rattle.std.specs.List.{list_any};
ghost use Rattle.thumb_asm.specs.Operands.{closed_by, operand, offset, bare, unquoted, Immediate, memory, stripped_by, in_brackets, in_braces, in_quotes};
ghost use Rattle.thumb_asm.specs.Chars.{strip};
ghost use Rattle.thumb_asm.specs.Cuts.{left_length};
ghost use Rattle.thumb_asm.specs.Kinds.{operand_of, as_reg, raised_reg, cuts_left};

use super::expr::head;
use super::lists::is_list;
use super::quotes::is_closed;
use super::words::{register, strip};
use thumb_insn::Reg;

/// An operand of a statement. Expressions, lists and quoted texts are kept as text.
#[derive(Clone, Copy)]
pub(crate) enum Operand<'a> {
    Register(Reg),
    Raised(Reg),
    Immediate(&'a [u8]),
    Expression(&'a [u8]),
    Memory(Reg),
    MemoryRegister(Reg, Reg),
    MemoryImmediate(Reg, &'a [u8]),
    /// The text in braces.
    Registers(&'a [u8]),
    /// The text after the first quote.
    Quoted(&'a [u8]),
}

/// The text before a mark, if the text ends with that mark.
fn closed_by(mark: u8, text: &[u8]) -> Option<&[u8]>
    ensures { option_map (λ r. r.now) result ≡ closed_by mark text.now }
{
    if text.len() == 0 {
        return None;
    }
    let end = text.len() - 1;
    if text[end] == mark {
        Some(&text[..end])
    } else {
        None
    }
}

fn has_quote(text: &[u8]) -> bool
    ensures { result ≡ list_any (λ c. nat_eq c 34) text.now }
{
    text.iter().any(|c| *c == b'"')
}

fn immediate(text: &[u8]) -> Option<Operand<'_>>
    ensures { option_map operand_of result ≡ unquoted text.now (Immediate text.now) }
{
    if has_quote(text) {
        None
    } else {
        Some(Operand::Immediate(text))
    }
}

/// The register with this name.
fn reg(word: &[u8]) -> Option<Reg>
    ensures { result ≡ as_reg word.now }
{
    match register(word) {
        Some(r) => Some(r),
        None => None,
    }
}

fn raised(piece: &[u8]) -> Option<Reg>
    ensures { result ≡ raised_reg piece.now }
{
    match closed_by(b'!', piece) {
        None => None,
        Some(front) => reg(strip(front)),
    }
}

/// A register, a register with `!`, or an expression.
fn bare(piece: &[u8]) -> Option<Operand<'_>>
    ensures { option_map operand_of result ≡ bare piece.now }
{
    match reg(piece) {
        Some(r) => Some(Operand::Register(r)),
        None => match raised(piece) {
            Some(r) => Some(Operand::Raised(r)),
            None => if has_quote(piece) {
                None
            } else {
                Some(Operand::Expression(piece))
            },
        },
    }
}

/// `[rn, rm]` or `[rn, #e]`, by what follows the comma.
fn offset_at<'a>(base: Reg, first: u8, rest: &'a [u8], piece: &'a [u8]) -> Option<Operand<'a>>
    requires { piece.now ≡ first ∷ rest.now }
    ensures { option_map operand_of result ≡ offset base (first ∷ rest.now) }
{
    if first == b'#' {
        if has_quote(rest) {
            None
        } else {
            Some(Operand::MemoryImmediate(base, rest))
        }
    } else {
        match reg(piece) {
            Some(m) => Some(Operand::MemoryRegister(base, m)),
            None => None,
        }
    }
}

fn offset(base: Reg, piece: &[u8]) -> Option<Operand<'_>>
    ensures { option_map operand_of result ≡ offset base piece.now }
{
    match head(piece) {
        None => None,
        Some((first, rest)) => offset_at(base, first, rest, piece),
    }
}

/// The text before the first mark, and the text after it.
pub(crate) fn split_by(mark: u8, text: &[u8]) -> (&[u8], Option<&[u8]>)
    ensures cuts { stripped_by mark text.now ≡ result.0.now ∷ cuts_left mark
        (option_map (λ r. r.now) result.1) }
    ensures shorter { left_length (option_map (λ r. r.now) result.1) < length text.now + 1 }
{
    for (i, c) in text.iter().enumerate() {
        if *c == mark {
            return (strip(&text[..i]), Some(&text[i + 1..]));
        }
    }
    (strip(text), None)
}

/// The operand in brackets.
fn memory(inner: &[u8]) -> Option<Operand<'_>>
    ensures { option_map operand_of result ≡ memory (stripped_by 44 inner.now) }
{
    let (base, rest) = split_by(b',', inner);
    match reg(base) {
        None => None,
        Some(n) => match rest {
            None => Some(Operand::Memory(n)),
            Some(rest) => {
                let (o, more) = split_by(b',', rest);
                match more {
                    None => offset(n, o),
                    Some(_) => None,
                }
            }
        },
    }
}

fn bracketed(text: &[u8]) -> Option<Operand<'_>>
    ensures { option_map operand_of result ≡ in_brackets text.now }
{
    match closed_by(b']', text) {
        None => None,
        Some(inner) => memory(inner),
    }
}

/// The operand in braces.
#[tactic(auto, using(crate::proofs::Texts::listed_good, crate::proofs::Texts::listed_bad))]
fn braced(text: &[u8]) -> Option<Operand<'_>>
    ensures { option_map operand_of result ≡ in_braces text.now }
{
    match closed_by(b'}', text) {
        None => None,
        Some(inner) => if is_list(inner) {
            Some(Operand::Registers(inner))
        } else {
            None
        },
    }
}

/// The operand after a quote.
#[tactic(auto, using(crate::proofs::Texts::quoted_good, crate::proofs::Texts::quoted_bad))]
fn quoted(text: &[u8]) -> Option<Operand<'_>>
    ensures { option_map operand_of result ≡ in_quotes text.now }
{
    if is_closed(text) {
        Some(Operand::Quoted(text))
    } else {
        None
    }
}

#[tactic(auto, unfolding(crate::specs::Operands::operand))]
fn operand_at<'a>(first: u8, rest: &'a [u8], piece: &'a [u8]) -> Option<Operand<'a>>
    requires { piece.now ≡ first ∷ rest.now }
    ensures { option_map operand_of result ≡ operand (first ∷ rest.now) }
{
    if first == b'#' {
        immediate(rest)
    } else if first == b'[' {
        bracketed(rest)
    } else if first == b'{' {
        braced(rest)
    } else if first == b'"' {
        quoted(rest)
    } else {
        bare(piece)
    }
}

/// An operand. Its first character decides its kind.
#[tactic(auto, unfolding(crate::specs::Operands::operand))]
pub(crate) fn parse(piece: &[u8]) -> Option<Operand<'_>>
    ensures { option_map operand_of result ≡ operand piece.now }
{
    match head(piece) {
        None => None,
        Some((first, rest)) => operand_at(first, rest, piece),
    }
}

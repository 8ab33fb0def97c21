//! Numbers and expressions.

ghost use Rattle.std.specs.Prelude.{◌≡◌, ◌∷◌, ◌<◌, ◌+◌, ◌^◌, [], take, codes, bytes_eq, Some, None, IfSome, MatchOption, option_map, nat_abs, ℕ, List, length, pos, true, ◌-ℤ◌, nat_eq, if◌then◌else◌};
ghost use Rattle.thumb_asm.specs.Chars.{is_name};
ghost use Rattle.thumb_asm.specs.Cuts.{IsFirst};
ghost use Rattle.thumb_asm.specs.Operands.{natural, signed, is_sign, term, added, sum_of, expression};
ghost use Rattle.thumb_asm.specs.Meaning.{value};
ghost use Rattle.thumb_asm.specs.Passes.{env_in};
ghost use Rattle.thumb_asm.specs.Views.{expr_of};

use super::index::{KnownNames, is_same};
use super::words::{is_name, strip};
use text_lines::{hex_number, number};

/// An expression: a name to look up, if there is one, and a number that is added.
#[derive(Clone, Copy)]
pub(crate) struct Expr<'a> {
    pub(crate) name: Option<&'a [u8]>,
    pub(crate) number: i64,
}

/// The first byte, and what comes after it.
pub(crate) fn head(text: &[u8]) -> Option<(u8, &[u8])>
    ensures { MatchOption result (text.now ≡ []) (λ p. text.now ≡ p.0 ∷ p.1.now) }
{
    match text {
        [] => None,
        [first, rest @ ..] => Some((*first, rest)),
    }
}

fn is_hexadecimal(piece: &[u8]) -> bool
    ensures { result ≡ bytes_eq (take 2 piece.now) (codes "0x") }
{
    if piece.len() < 2 {
        false
    } else {
        is_same(&piece[..2], b"0x")
    }
}

/// A number of 32 bits, in decimal or after `0x`.
#[tactic(auto, unfolding(crate::specs::Operands::natural))]
fn natural(piece: &[u8]) -> Option<u32>
    ensures { result ≡ natural piece.now }
{
    if is_hexadecimal(piece) {
        hex_number(&piece[2..])
    } else {
        match number(piece, 0xFFFF_FFFF) {
            Some(n) => Some(n as u32),
            None => None,
        }
    }
}

/// A number, from its first byte and the rest.
#[tactic(auto, unfolding(crate::specs::Operands::signed))]
fn signed_at(first: u8, rest: &[u8], piece: &[u8]) -> Option<i64>
    requires { piece.now ≡ first ∷ rest.now }
    ensures value { result ≡ signed (first ∷ rest.now) }
    ensures small { IfSome result (λ z. nat_abs z < 2 ^ 32) }
{
    if first == b'-' {
        match natural(strip(rest)) {
            Some(n) => Some(0 - i64::from(n)),
            None => None,
        }
    } else {
        match natural(piece) {
            Some(n) => Some(i64::from(n)),
            None => None,
        }
    }
}

/// A number, perhaps after `-`.
#[tactic(auto, unfolding(crate::specs::Operands::signed))]
pub(crate) fn signed(piece: &[u8]) -> Option<i64>
    ensures value { result ≡ signed piece.now }
    ensures small { IfSome result (λ z. nat_abs z < 2 ^ 32) }
{
    match head(piece) {
        None => None,
        Some((first, rest)) => signed_at(first, rest, piece),
    }
}

fn is_sign(c: u8) -> bool
    ensures { result ≡ is_sign c }
{
    c == b'+' || c == b'-'
}

/// The index of the first sign, or the length.
fn sign_place(text: &[u8]) -> usize
    ensures { IsFirst is_sign text.now result }
{
    for (i, c) in text.iter().enumerate() {
        if is_sign(*c) {
            return i;
        }
    }
    text.len()
}

/// A name or a number.
fn term(piece: &[u8]) -> Option<Expr<'_>>
    ensures value { option_map expr_of result ≡ term piece.now }
    ensures small { IfSome result (λ e. nat_abs e.number < 2 ^ 32) }
    ensures name { IfSome result (λ e. IfSome e.name (λ n. is_name n.now ≡ true)) }
{
    if is_name(piece) {
        Some(Expr {
            name: Some(piece),
            number: 0,
        })
    } else {
        match signed(piece) {
            Some(number) => Some(Expr { name: None, number }),
            None => None,
        }
    }
}

fn turned(sign: u8, number: i64) -> i64
    requires { nat_abs number < 2 ^ 32 }
    ensures value { result ≡ (if nat_eq sign 43 then number else pos 0 -ℤ number) }
    ensures small { nat_abs result < 2 ^ 32 }
{
    if sign == b'+' { number } else { 0 - number }
}

/// Adds a sign and a number to an expression.
fn added_at<'a>(expr: Option<Expr<'a>>, sign: u8, rest: &[u8]) -> Option<Expr<'a>>
    requires small { IfSome expr (λ e. nat_abs e.number < 2 ^ 32) }
    requires name { IfSome expr (λ e. IfSome e.name (λ n. is_name n.now ≡ true)) }
    ensures value { option_map expr_of result ≡ added (option_map expr_of expr.entry)
        (sign ∷ rest.now) }
    ensures small { IfSome result (λ e. nat_abs e.number < 2 ^ 33) }
    ensures name { IfSome result (λ e. IfSome e.name (λ n. is_name n.now ≡ true)) }
{
    match expr {
        None => None,
        Some(expr) => match signed(strip(rest)) {
            None => None,
            Some(number) => Some(Expr {
                name: expr.name,
                number: expr.number + turned(sign, number),
            }),
        },
    }
}

fn added<'a>(expr: Option<Expr<'a>>, tail: &[u8]) -> Option<Expr<'a>>
    requires small { IfSome expr (λ e. nat_abs e.number < 2 ^ 32) }
    requires name { IfSome expr (λ e. IfSome e.name (λ n. is_name n.now ≡ true)) }
    ensures value { option_map expr_of result ≡ added (option_map expr_of expr.entry) tail.now }
    ensures small { IfSome result (λ e. nat_abs e.number < 2 ^ 33) }
    ensures name { IfSome result (λ e. IfSome e.name (λ n. is_name n.now ≡ true)) }
{
    match head(tail) {
        None => expr,
        Some((sign, rest)) => added_at(expr, sign, rest),
    }
}

/// An expression, from its first byte and the rest.
fn sum_at<'a>(first: u8, rest: &'a [u8], piece: &'a [u8]) -> Option<Expr<'a>>
    requires { piece.now ≡ first ∷ rest.now }
    ensures value { option_map expr_of result ≡ sum_of (first ∷ rest.now) }
    ensures small { IfSome result (λ e. nat_abs e.number < 2 ^ 33) }
    ensures name { IfSome result (λ e. IfSome e.name (λ n. is_name n.now ≡ true)) }
{
    let end = sign_place(rest);
    added(term(strip(front_of(piece, end))), &rest[end..])
}

/// The first `end` bytes of a piece, and one more.
fn front_of(piece: &[u8], end: usize) -> &[u8]
    requires { end < length piece.now }
    ensures { (c : ℕ) (cs : List ℕ) → piece.now ≡ c ∷ cs → result.now ≡ c ∷ take end cs }
{
    &piece[..end + 1]
}

/// A term, or a term, `+` or `-`, and a number.
#[tactic(auto, unfolding(crate::specs::Operands::expression))]
pub(crate) fn expression(piece: &[u8]) -> Option<Expr<'_>>
    ensures value { option_map expr_of result ≡ expression piece.now }
    ensures small { IfSome result (λ e. nat_abs e.number < 2 ^ 33) }
    ensures name { IfSome result (λ e. IfSome e.name (λ n. is_name n.now ≡ true)) }
{
    let piece = strip(piece);
    match head(piece) {
        None => None,
        Some((first, rest)) => sum_at(first, rest, piece),
    }
}

/// The value of an expression, or None if it has an unknown name.
#[tactic(auto, unfolding(crate::specs::Meaning::value))]
pub(crate) fn value(piece: &[u8], names: &KnownNames<'_>) -> Option<i64>
    ensures value { result ≡ value (env_in names.now.labels.now names.now.symbols.now) piece.now }
    ensures small { IfSome result (λ z. nat_abs z < 2 ^ 34) }
{
    match expression(piece) {
        None => None,
        Some(expr) => match expr.name {
            None => Some(expr.number),
            Some(name) => match names.value(name) {
                None => None,
                Some(n) => Some(i64::from(n) + expr.number),
            },
        },
    }
}

//! Why the shape of a statement is refused.

ghost use Rattle.std.specs.Prelude.{◌≡◌, ◌≤ℤ◌, false, option_map, IfOk, IfSome, nat_abs, pos, if◌then◌else◌, Result, Ok, Err, None, Some};
ghost use Rattle.std.specs.List.{list_any};
ghost use Rattle.thumb_asm.specs.Sizes.{extra_of, has_bad_count, has_bad_number, has_bad_register, has_bad_list, is_off, is_no_expr, is_no_number, checked};
ghost use Rattle.thumb_asm.specs.Operands.{signed, expression};
ghost use Rattle.thumb_asm.specs.Parts.{operand_pieces};
ghost use Rattle.thumb_asm.specs.declared.Cause.TheVariants.{BadRegister, BadNumber, BadList};
ghost use Rattle.thumb_asm.specs.Views.{shape_of, shown};

use super::Cause;
use super::codes::{fill, is_misfit};
use super::expr::{expression, signed};
use super::lists::{has_stray, is_no_list, is_raised_wrong};
use super::parts::Pieces;
use super::shape::Shape;

/// Whether a number of bytes or an alignment is out of range.
#[tactic(auto, unfolding(crate::specs::Sizes::has_bad_count))]
fn has_bad_count(shape: &Shape<'_>) -> bool
    ensures { result ≡ has_bad_count (shape_of shape.now) }
{
    match *shape {
        Shape::Zeros(e) => is_off(0, 1048576, signed(e)),
        Shape::Padding(e) => is_off(1, 8, signed(e)),
        Shape::Fixed(_)
        | Shape::Filled(_, _)
        | Shape::Within(_, _, _, _)
        | Shape::Aimed(_, _)
        | Shape::Near(_, _)
        | Shape::Misplaced
        | Shape::Listed(_, _)
        | Shape::Block(_, _, _, _)
        | Shape::Data(_, _)
        | Shape::Text(_) => false,
    }
}

fn is_off(low: i64, top: i64, number: Option<i64>) -> bool
    requires low { pos 0 ≤ℤ low }
    requires top { pos 0 ≤ℤ top }
    ensures { result ≡ is_off (nat_abs low) (nat_abs top) number }
{
    match number {
        None => false,
        Some(n) => n < low || top < n,
    }
}

/// Whether text that has to be a number or an expression is not one.
#[tactic(auto, unfolding(crate::specs::Sizes::has_bad_number))]
fn has_bad_number(shape: &Shape<'_>) -> bool
    ensures { result ≡ has_bad_number (shape_of shape.now) }
{
    match *shape {
        Shape::Filled(e, _) | Shape::Within(_, _, e, _) | Shape::Aimed(e, _) | Shape::Near(e, _) =>
            is_no_expr(e),
        Shape::Zeros(e) | Shape::Padding(e) => is_no_number(e),
        Shape::Data(_, es) => has_no_expr(es),
        Shape::Fixed(_)
        | Shape::Misplaced
        | Shape::Listed(_, _)
        | Shape::Block(_, _, _, _)
        | Shape::Text(_) => false,
    }
}

fn is_no_expr(piece: &[u8]) -> bool
    ensures { result ≡ is_no_expr (expression piece.now) }
{
    match expression(piece) {
        None => true,
        Some(_) => false,
    }
}

fn is_no_number(piece: &[u8]) -> bool
    ensures { result ≡ is_no_number (signed piece.now) }
{
    match signed(piece) {
        None => true,
        Some(_) => false,
    }
}

/// Whether one of these operands is not an expression.
fn has_no_expr(text: &[u8]) -> bool
    ensures { result ≡ list_any (λ e. is_no_expr (expression e)) (operand_pieces text.now) }
{
    let mut pieces = Pieces::of(text);
    'pieces: while let Some(piece) = pieces.next() {
        if is_no_expr(piece) {
            return true;
        }
    }
    false
}

/// Whether the row does not allow a register.
#[tactic(auto, unfolding(crate::specs::Sizes::has_bad_register))]
fn has_bad_register(shape: &Shape<'_>) -> bool
    ensures { result ≡ has_bad_register (shape_of shape.now) }
{
    match *shape {
        Shape::Fixed(insn) => is_misfit(&insn),
        Shape::Filled(_, insn) | Shape::Within(_, _, _, insn) | Shape::Near(_, insn) => is_misfit(
            &fill(insn, 0),
        ),
        Shape::Misplaced => true,
        Shape::Listed(loads, text) => has_stray(extra_of(loads), text),
        Shape::Block(n, _, _, text) => n.number >= 8 || has_stray(0, text),
        Shape::Aimed(_, _)
        | Shape::Data(_, _)
        | Shape::Text(_)
        | Shape::Zeros(_)
        | Shape::Padding(_) => false,
    }
}

/// Whether a list of registers is not valid.
#[tactic(auto, unfolding(crate::specs::Sizes::has_bad_list))]
fn has_bad_list(shape: &Shape<'_>) -> bool
    ensures { result ≡ has_bad_list (shape_of shape.now) }
{
    match *shape {
        Shape::Listed(_, text) => is_no_list(text),
        Shape::Block(n, raised, loads, text) => is_no_list(text)
            || is_raised_wrong(n.number, raised, loads, text),
        Shape::Fixed(_)
        | Shape::Filled(_, _)
        | Shape::Within(_, _, _, _)
        | Shape::Aimed(_, _)
        | Shape::Near(_, _)
        | Shape::Misplaced
        | Shape::Data(_, _)
        | Shape::Text(_)
        | Shape::Zeros(_)
        | Shape::Padding(_) => false,
    }
}

/// The high register that the list of `push` or `pop` can have.
fn extra_of(loads: bool) -> u8
    ensures { result ≡ extra_of loads }
{
    if loads { 15 } else { 14 }
}

/// The first cause that applies.
#[inline(always)]
fn first_cause(bad_register: bool, bad_number: bool, bad_list: bool) -> Option<Cause>
    ensures { result ≡ (if bad_register then Some BadRegister else if bad_number then Some BadNumber
        else if bad_list then Some BadList else None) }
{
    if bad_register {
        Some(Cause::BadRegister)
    } else if bad_number {
        Some(Cause::BadNumber)
    } else if bad_list {
        Some(Cause::BadList)
    } else {
        None
    }
}

/// The first cause of a statement's shape.
#[tactic(auto, unfolding(crate::specs::Sizes::checked))]
pub(crate) fn checked<'a>(found: Option<Shape<'a>>) -> Result<Option<Shape<'a>>, Cause>
    ensures value { shown result ≡ checked (option_map shape_of found.entry) }
    ensures counted { IfOk result (λ o. IfSome o (λ s. has_bad_count (shape_of s) ≡ false)) }
{
    match found {
        None => Err(Cause::BadOperands),
        Some(shape) => if has_bad_count(&shape) {
            Err(Cause::BadOperands)
        } else {
            match first_cause(
                has_bad_register(&shape),
                has_bad_number(&shape),
                has_bad_list(&shape),
            ) {
                Some(cause) => Err(cause),
                None => Ok(Some(shape)),
            }
        },
    }
}

//! Mnemonics and their syntaxes.

ghost use Rattle.std.specs.Prelude.{◌≡◌, ◌∷◌, [], option_map};
ghost use Rattle.thumb_asm.specs.Kinds.{operand_of, followed_by, is_expression, are_expressions, IsPlain};
ghost use Rattle.thumb_asm.specs.Sizes.{shaped_by};
ghost use Rattle.thumb_asm.specs.Operands.{operands};
ghost use Rattle.thumb_asm.specs.Parts.{operand_pieces, pieces_left};
ghost use Rattle.thumb_asm.specs.Views.{shape_of, pieces_text};
ghost use Rattle.thumb_asm.specs.declared.Mnemonic.TheVariants.{Values};

mod mnemonics;
mod shapes;

use super::Mnemonic;
use super::operand::{Operand, parse};
use super::parts::Pieces;
use super::shape::Shape;
pub(crate) use mnemonics::mnemonic;
use shapes::{one, three, two, zero};
use thumb_insn::Size;

/// The shape of a statement, if there is a syntax for these operands.
#[tactic(auto, unfolding(crate::specs::Operands::operands))]
pub(crate) fn shaped(m: Mnemonic, rest: &[u8]) -> Option<Shape<'_>>
    requires { IsPlain m }
    ensures { option_map shape_of result ≡ shaped_by m (operands (operand_pieces rest.now)) }
{
    let mut pieces = Pieces::of(rest);
    match pieces.next() {
        None => zero(m),
        Some(piece) => behind_one(m, parse(piece)?, pieces),
    }
}

/// The same after one operand.
#[tactic(auto, unfolding(crate::specs::Operands::operands))]
fn behind_one<'a>(m: Mnemonic, a: Operand<'a>, mut pieces: Pieces<'a>) -> Option<Shape<'a>>
    requires { IsPlain m }
    ensures { option_map shape_of result ≡ shaped_by m
        (followed_by (operand_of a.entry ∷ [])
        (operands (pieces_left (pieces_text pieces.entry)))) }
{
    match pieces.next() {
        None => one(m, a),
        Some(piece) => behind_two(m, a, parse(piece)?, pieces),
    }
}

/// The same after two operands.
#[tactic(auto, unfolding(crate::specs::Operands::operands))]
fn behind_two<'a>(
    m: Mnemonic,
    a: Operand<'a>,
    b: Operand<'a>,
    mut pieces: Pieces<'a>,
) -> Option<Shape<'a>>
    requires { IsPlain m }
    ensures { option_map shape_of result ≡ shaped_by m
        (followed_by (operand_of a.entry ∷ operand_of b.entry ∷ [])
        (operands (pieces_left (pieces_text pieces.entry)))) }
{
    match pieces.next() {
        None => two(m, a, b),
        Some(piece) => behind_three(m, a, b, parse(piece)?, pieces),
    }
}

/// The same after three operands. No syntax has more.
#[tactic(auto, unfolding(crate::specs::Operands::operands), using(crate::proofs::Counts::too_many))]
fn behind_three<'a>(
    m: Mnemonic,
    a: Operand<'a>,
    b: Operand<'a>,
    c: Operand<'a>,
    mut pieces: Pieces<'a>,
) -> Option<Shape<'a>>
    requires { IsPlain m }
    ensures { option_map shape_of result ≡ shaped_by m
        (followed_by (operand_of a.entry ∷ operand_of b.entry ∷ operand_of c.entry ∷ [])
        (operands (pieces_left (pieces_text pieces.entry)))) }
{
    match pieces.next() {
        None => three(m, a, b, c),
        Some(_) => None,
    }
}

/// The shape of values: at least one, and each an expression.
#[tactic(auto, using(crate::proofs::Expressions::values_some, crate::proofs::Expressions::values_none))]
pub(crate) fn values(size: Size, rest: &[u8]) -> Option<Shape<'_>>
    ensures { option_map shape_of result ≡ shaped_by (Values size)
        (operands (operand_pieces rest.now)) }
{
    if are_expressions(rest) {
        Some(Shape::Data(size, rest))
    } else {
        None
    }
}

/// Whether there is an operand, and each is an expression.
fn are_expressions(rest: &[u8]) -> bool
    ensures { result ≡ are_expressions (operand_pieces rest.now) }
{
    let mut pieces = Pieces::of(rest);
    let Some(first) = pieces.next() else {
        return false
    };
    if !is_expression(first) {
        return false;
    }
    'pieces: while let Some(piece) = pieces.next() {
        if !is_expression(piece) {
            return false;
        }
    }
    true
}

fn is_expression(piece: &[u8]) -> bool
    ensures { result ≡ is_expression piece.now }
{
    matches!(parse(piece), Some(Operand::Expression(_)))
}

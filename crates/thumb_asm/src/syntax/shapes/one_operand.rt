//! One operand.

ghost use Rattle.std.specs.Prelude.{◌≡◌, ◌∷◌, [], false, option_map};
ghost use Rattle.thumb_asm.specs.Syntax.{shaped};
ghost use Rattle.thumb_asm.specs.Operands.{Register, Immediate, Expression, Registers, Quoted};
ghost use Rattle.thumb_asm.specs.Kinds.{operand_of, ranges_in, good_text, IsPlain};
ghost use Rattle.thumb_asm.specs.Views.{shape_of};

use super::keyword;
use crate::Mnemonic;
use crate::operand::Operand;
use crate::shape::Shape;
use thumb_insn::{Insn, Reg};

/// The shape by the kind of the operand.
pub(in crate::syntax) fn one(mnemonic: Mnemonic, operand: Operand<'_>) -> Option<Shape<'_>>
    requires { IsPlain mnemonic }
    ensures { option_map shape_of result ≡ shaped mnemonic (operand_of operand.entry ∷ []) }
{
    match operand {
        Operand::Register(r) => register(mnemonic, r),
        Operand::Immediate(e) => immediate(mnemonic, e),
        Operand::Expression(e) => expression(mnemonic, e),
        Operand::Registers(text) => list(mnemonic, text),
        Operand::Quoted(text) => quoted(mnemonic, text),
        _ => None,
    }
}

#[tactic(auto, unfolding(crate::specs::Syntax::shaped, crate::specs::Syntax::expressions))]
fn register<'a>(mnemonic: Mnemonic, m: Reg) -> Option<Shape<'a>>
    ensures { option_map shape_of result ≡ shaped mnemonic (Register m ∷ []) }
{
    let insn = match mnemonic {
        Mnemonic::Bx => Insn::Bx { m },
        Mnemonic::Blx => Insn::Blx { m },
        _ => return None,
    };
    Some(Shape::Fixed(insn))
}

#[tactic(auto, unfolding(crate::specs::Syntax::shaped, crate::specs::Syntax::expressions))]
fn immediate(mnemonic: Mnemonic, e: &[u8]) -> Option<Shape<'_>>
    ensures { option_map shape_of result ≡ shaped mnemonic (Immediate e.now ∷ []) }
{
    let shape = match mnemonic {
        Mnemonic::Bkpt => Shape::Filled(e, Insn::Bkpt { value: 0 }),
        Mnemonic::Svc => Shape::Filled(e, Insn::Svc { value: 0 }),
        Mnemonic::Hint => Shape::Within(5, 15, e, Insn::Hint { value: 0 }),
        Mnemonic::Fence(barrier) => Shape::Filled(e, Insn::Fence { barrier, option: 0 }),
        _ => return None,
    };
    Some(shape)
}

#[tactic(auto, unfolding(crate::specs::Syntax::shaped))]
fn expression(mnemonic: Mnemonic, e: &[u8]) -> Option<Shape<'_>>
    requires { IsPlain mnemonic }
    ensures { option_map shape_of result ≡ shaped mnemonic (Expression e.now ∷ []) }
{
    let shape = match mnemonic {
        Mnemonic::BranchIf(cond) => Shape::Aimed(e, Insn::BranchIf { cond, offset: 0 }),
        Mnemonic::Branch => Shape::Aimed(e, Insn::Branch { offset: 0 }),
        Mnemonic::Bl => Shape::Aimed(e, Insn::Bl { offset: 0 }),
        Mnemonic::Space => Shape::Zeros(e),
        Mnemonic::Align => Shape::Padding(e),
        Mnemonic::Cpsie => return keyword(e, b"i", Insn::Cpsie),
        Mnemonic::Cpsid => return keyword(e, b"i", Insn::Cpsid),
        Mnemonic::Fence(barrier) => return keyword(
            e,
            b"sy",
            Insn::Fence {
                barrier,
                option: 15,
            },
        ),
        _ => return None,
    };
    Some(shape)
}

#[tactic(auto, unfolding(crate::specs::Syntax::shaped, crate::specs::Syntax::expressions))]
fn list(mnemonic: Mnemonic, text: &[u8]) -> Option<Shape<'_>>
    ensures { option_map shape_of result ≡ shaped mnemonic (Registers (ranges_in text.now) ∷ []) }
{
    match mnemonic {
        Mnemonic::Push => Some(Shape::Listed(false, text)),
        Mnemonic::Pop => Some(Shape::Listed(true, text)),
        _ => None,
    }
}

#[tactic(auto, unfolding(crate::specs::Syntax::shaped, crate::specs::Syntax::expressions))]
fn quoted(mnemonic: Mnemonic, text: &[u8]) -> Option<Shape<'_>>
    ensures { option_map shape_of result ≡ shaped mnemonic
        (Quoted (good_text false text.now) ∷ []) }
{
    match mnemonic {
        Mnemonic::Ascii => Some(Shape::Text(text)),
        _ => None,
    }
}

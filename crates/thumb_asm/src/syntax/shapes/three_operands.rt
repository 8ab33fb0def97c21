//! Three operands.

ghost use Rattle.std.specs.Prelude.{◌≡◌, ◌∷◌, [], option_map};
ghost use Rattle.thumb_asm.specs.Syntax.{shaped, top_shift};
ghost use Rattle.thumb_asm.specs.Operands.{Register, Immediate};
ghost use Rattle.thumb_asm.specs.Kinds.{operand_of, IsPlain};
ghost use Rattle.thumb_asm.specs.Views.{shape_of};

use super::at_sp;
use crate::Mnemonic;
use crate::operand::Operand;
use crate::shape::Shape;
use thumb_insn::{Insn, Op, Reg, Shift};

/// The shape by the kinds of the operands.
pub(in crate::syntax) fn three<'a>(
    mnemonic: Mnemonic,
    a: Operand<'a>,
    b: Operand<'a>,
    c: Operand<'a>,
) -> Option<Shape<'a>>
    requires { IsPlain mnemonic }
    ensures { option_map shape_of result ≡ shaped mnemonic
        (operand_of a.entry ∷ operand_of b.entry ∷ operand_of c.entry ∷ []) }
{
    match (a, b, c) {
        (Operand::Register(d), Operand::Register(n), Operand::Register(m)) => registers(
            mnemonic, d, n, m,
        ),
        (Operand::Register(d), Operand::Register(n), Operand::Immediate(e)) => immediate(
            mnemonic, d, n, e,
        ),
        _ => None,
    }
}

#[tactic(auto, unfolding(crate::specs::Syntax::shaped, crate::specs::Syntax::expressions))]
fn registers<'a>(mnemonic: Mnemonic, d: Reg, n: Reg, m: Reg) -> Option<Shape<'a>>
    ensures { option_map shape_of result ≡ shaped mnemonic
        (Register d ∷ Register n ∷ Register m ∷ []) }
{
    let insn = match mnemonic {
        Mnemonic::Adds => Insn::AddsReg { d, n, m },
        Mnemonic::Subs => Insn::SubsReg { d, n, m },
        _ => return None,
    };
    Some(Shape::Fixed(insn))
}

fn top_shift(shift: Shift) -> u32
    ensures { result ≡ top_shift shift }
{
    match shift {
        Shift::Lsl => 31,
        Shift::Lsr | Shift::Asr => 32,
    }
}

#[tactic(auto, unfolding(crate::specs::Syntax::shaped, crate::specs::Syntax::expressions))]
fn immediate(mnemonic: Mnemonic, d: Reg, n: Reg, e: &[u8]) -> Option<Shape<'_>>
    ensures { option_map shape_of result ≡ shaped mnemonic
        (Register d ∷ Register n ∷ Immediate e.now ∷ []) }
{
    let shape = match mnemonic {
        Mnemonic::Adds => Shape::Filled(e, Insn::AddsImm3 { d, n, value: 0 }),
        Mnemonic::Subs => Shape::Filled(e, Insn::SubsImm3 { d, n, value: 0 }),
        Mnemonic::Add => at_sp(n, Shape::Filled(e, Insn::AddSp { d, offset: 0 })),
        Mnemonic::Rsbs => Shape::Within(
            0,
            0,
            e,
            Insn::Data {
                op: Op::Rsbs,
                d,
                m: n,
            },
        ),
        Mnemonic::Shift(shift) => Shape::Within(
            1,
            top_shift(shift),
            e,
            Insn::ShiftImm {
                shift,
                d,
                m: n,
                by: 0,
            },
        ),
        _ => return None,
    };
    Some(shape)
}

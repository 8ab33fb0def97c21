//! Two operands.

ghost use Rattle.std.specs.Prelude.{◌≡◌, ◌∷◌, [], option_map};
ghost use Rattle.thumb_asm.specs.Syntax.{shaped, compared, loaded, stored, shift_op};
ghost use Rattle.thumb_asm.specs.Operands.{Register, Raised, Immediate, Expression, Memory, MemoryRegister, MemoryImmediate, Registers};
ghost use Rattle.thumb_asm.specs.Kinds.{operand_of, ranges_in, IsPlain};
ghost use Rattle.thumb_asm.specs.Views.{shape_of, fill};

use super::{at_sp, keyword};
use crate::Mnemonic;
use crate::operand::Operand;
use crate::shape::Shape;
use thumb_insn::{Insn, Load, Op, Reg, Shift, Size};

/// The shape by the kinds of the operands.
pub(in crate::syntax) fn two<'a>(
    mnemonic: Mnemonic,
    a: Operand<'a>,
    b: Operand<'a>,
) -> Option<Shape<'a>>
    requires { IsPlain mnemonic }
    ensures { option_map shape_of result ≡ shaped mnemonic
        (operand_of a.entry ∷ operand_of b.entry ∷ []) }
{
    match (a, b) {
        (Operand::Register(r), _) => register_and(mnemonic, r, b),
        (Operand::Raised(n), Operand::Registers(text)) => raised_list(mnemonic, n, text),
        (Operand::Expression(e), Operand::Register(n)) => expression_register(mnemonic, e, n),
        _ => None,
    }
}

/// The same if the first operand is a register.
fn register_and(mnemonic: Mnemonic, r: Reg, operand: Operand<'_>) -> Option<Shape<'_>>
    requires { IsPlain mnemonic }
    ensures { option_map shape_of result ≡ shaped mnemonic
        (Register r ∷ operand_of operand.entry ∷ []) }
{
    match operand {
        Operand::Register(m) => registers(mnemonic, r, m),
        Operand::Immediate(e) => immediate(mnemonic, r, e),
        Operand::Expression(e) => expression(mnemonic, r, e),
        Operand::Memory(n) => memory(mnemonic, r, n),
        Operand::MemoryRegister(n, m) => memory_register(mnemonic, r, n, m),
        Operand::MemoryImmediate(n, e) => memory_immediate(mnemonic, r, n, e),
        Operand::Registers(text) => list(mnemonic, r, text),
        _ => None,
    }
}

fn shift_op(shift: Shift) -> Op
    ensures { result ≡ shift_op shift }
{
    match shift {
        Shift::Lsl => Op::Lsls,
        Shift::Lsr => Op::Lsrs,
        Shift::Asr => Op::Asrs,
    }
}

fn compared(n: Reg, m: Reg) -> Insn
    ensures { result ≡ compared n m }
{
    if n.number >= 8 || m.number >= 8 {
        Insn::CmpHigh { n, m }
    } else {
        Insn::Data {
            op: Op::Cmp,
            d: n,
            m,
        }
    }
}

#[tactic(auto, unfolding(crate::specs::Syntax::shaped, crate::specs::Syntax::expressions))]
fn registers<'a>(mnemonic: Mnemonic, d: Reg, m: Reg) -> Option<Shape<'a>>
    ensures { option_map shape_of result ≡ shaped mnemonic (Register d ∷ Register m ∷ []) }
{
    let insn = match mnemonic {
        Mnemonic::Shift(shift) => Insn::Data {
            op: shift_op(shift),
            d,
            m,
        },
        Mnemonic::Rors => Insn::Data { op: Op::Rors, d, m },
        Mnemonic::Pair(op) => Insn::Data { op, d, m },
        Mnemonic::Movs => Insn::ShiftImm {
            shift: Shift::Lsl,
            d,
            m,
            by: 0,
        },
        Mnemonic::Cmp => compared(d, m),
        Mnemonic::Add => Insn::AddHigh { d, m },
        Mnemonic::Mov => Insn::MovHigh { d, m },
        Mnemonic::Change(bytes) => Insn::Change { bytes, d, m },
        _ => return None,
    };
    Some(Shape::Fixed(insn))
}

#[tactic(auto, unfolding(crate::specs::Syntax::shaped, crate::specs::Syntax::expressions))]
fn immediate(mnemonic: Mnemonic, d: Reg, e: &[u8]) -> Option<Shape<'_>>
    ensures { option_map shape_of result ≡ shaped mnemonic (Register d ∷ Immediate e.now ∷ []) }
{
    let shape = match mnemonic {
        Mnemonic::Movs => Shape::Filled(e, Insn::MovsImm { d, value: 0 }),
        Mnemonic::Adds => Shape::Filled(e, Insn::AddsImm8 { d, value: 0 }),
        Mnemonic::Subs => Shape::Filled(e, Insn::SubsImm8 { d, value: 0 }),
        Mnemonic::Cmp => Shape::Filled(e, Insn::CmpImm { n: d, value: 0 }),
        Mnemonic::Add => at_sp(d, Shape::Filled(e, Insn::RaiseSp { offset: 0 })),
        Mnemonic::Sub => at_sp(d, Shape::Filled(e, Insn::LowerSp { offset: 0 })),
        _ => return None,
    };
    Some(shape)
}

#[tactic(auto, unfolding(crate::specs::Syntax::shaped, crate::specs::Syntax::expressions))]
fn expression(mnemonic: Mnemonic, d: Reg, e: &[u8]) -> Option<Shape<'_>>
    ensures { option_map shape_of result ≡ shaped mnemonic (Register d ∷ Expression e.now ∷ []) }
{
    match mnemonic {
        Mnemonic::Adr => Some(Shape::Near(e, Insn::Adr { d, offset: 0 })),
        Mnemonic::Load(Load::Whole(Size::Word)) => Some(Shape::Near(
            e,
            Insn::LdrLiteral { t: d, offset: 0 },
        )),
        Mnemonic::Mrs => keyword(e, b"apsr", Insn::Mrs { d }),
        _ => None,
    }
}

#[tactic(auto, unfolding(crate::specs::Syntax::shaped, crate::specs::Syntax::expressions))]
fn expression_register<'a>(mnemonic: Mnemonic, e: &'a [u8], n: Reg) -> Option<Shape<'a>>
    ensures { option_map shape_of result ≡ shaped mnemonic (Expression e.now ∷ Register n ∷ []) }
{
    match mnemonic {
        Mnemonic::Msr => keyword(e, b"apsr", Insn::Msr { n }),
        _ => None,
    }
}

/// A load from `[rn, #0]`. SP as a base has separate rows.
fn loaded(size: Size, t: Reg, n: Reg) -> Insn
    ensures fill { fill result ≡ loaded size t n }
    ensures zero { result ≡ loaded size t n 0 }
{
    match size {
        Size::Word => if n.number == 13 {
            Insn::LoadSp { t, offset: 0 }
        } else {
            Insn::LoadImm {
                size,
                t,
                n,
                offset: 0,
            }
        },
        Size::Half | Size::Byte => Insn::LoadImm {
            size,
            t,
            n,
            offset: 0,
        },
    }
}

/// The same for a store.
fn stored(size: Size, t: Reg, n: Reg) -> Insn
    ensures fill { fill result ≡ stored size t n }
    ensures zero { result ≡ stored size t n 0 }
{
    match size {
        Size::Word => if n.number == 13 {
            Insn::StoreSp { t, offset: 0 }
        } else {
            Insn::StoreImm {
                size,
                t,
                n,
                offset: 0,
            }
        },
        Size::Half | Size::Byte => Insn::StoreImm {
            size,
            t,
            n,
            offset: 0,
        },
    }
}

#[tactic(auto, unfolding(crate::specs::Syntax::shaped, crate::specs::Syntax::expressions))]
fn memory<'a>(mnemonic: Mnemonic, t: Reg, n: Reg) -> Option<Shape<'a>>
    ensures { option_map shape_of result ≡ shaped mnemonic (Register t ∷ Memory n ∷ []) }
{
    let insn = match mnemonic {
        Mnemonic::Load(Load::Whole(size)) => loaded(size, t, n),
        Mnemonic::Store(size) => stored(size, t, n),
        _ => return None,
    };
    Some(Shape::Fixed(insn))
}

#[tactic(auto, unfolding(crate::specs::Syntax::shaped, crate::specs::Syntax::expressions))]
fn memory_register<'a>(mnemonic: Mnemonic, t: Reg, n: Reg, m: Reg) -> Option<Shape<'a>>
    ensures { option_map shape_of result ≡ shaped mnemonic (Register t ∷ MemoryRegister n m ∷ []) }
{
    let insn = match mnemonic {
        Mnemonic::Load(load) => Insn::LoadReg { load, t, n, m },
        Mnemonic::Store(size) => Insn::StoreReg { size, t, n, m },
        _ => return None,
    };
    Some(Shape::Fixed(insn))
}

#[tactic(auto, unfolding(crate::specs::Syntax::shaped, crate::specs::Syntax::expressions))]
fn memory_immediate(mnemonic: Mnemonic, t: Reg, n: Reg, e: &[u8]) -> Option<Shape<'_>>
    ensures { option_map shape_of result ≡ shaped mnemonic
        (Register t ∷ MemoryImmediate n e.now ∷ []) }
{
    let insn = match mnemonic {
        Mnemonic::Load(Load::Whole(size)) => loaded(size, t, n),
        Mnemonic::Store(size) => stored(size, t, n),
        _ => return None,
    };
    Some(Shape::Filled(e, insn))
}

#[tactic(auto, unfolding(crate::specs::Syntax::shaped, crate::specs::Syntax::expressions))]
fn list(mnemonic: Mnemonic, n: Reg, text: &[u8]) -> Option<Shape<'_>>
    ensures { option_map shape_of result ≡ shaped mnemonic
        (Register n ∷ Registers (ranges_in text.now) ∷ []) }
{
    match mnemonic {
        Mnemonic::Stm => Some(Shape::Block(n, false, false, text)),
        Mnemonic::Ldm => Some(Shape::Block(n, false, true, text)),
        _ => None,
    }
}

#[tactic(auto, unfolding(crate::specs::Syntax::shaped, crate::specs::Syntax::expressions))]
fn raised_list(mnemonic: Mnemonic, n: Reg, text: &[u8]) -> Option<Shape<'_>>
    ensures { option_map shape_of result ≡ shaped mnemonic
        (Raised n ∷ Registers (ranges_in text.now) ∷ []) }
{
    match mnemonic {
        Mnemonic::Stm => Some(Shape::Block(n, true, false, text)),
        Mnemonic::Ldm => Some(Shape::Block(n, true, true, text)),
        _ => None,
    }
}

//! Shift (immediate), add, subtract, move, and compare (the manual's A5.2.1).

ghost use Rattle.std.specs.Prelude.{◌≡◌, ◌/◌};
ghost use Rattle.thumb_insn.specs.Fields.{count};
ghost use Rattle.thumb_insn.specs.Table.{narrow_of, narrow_result};

use crate::Taker;
use crate::fields::{low_reg, value};
use thumb_insn::{Insn, Shift};

/// The count of a shift to the right: a field of 0 means 32.
#[inline(always)]
fn counted(by: u32) -> u32
    ensures { result ≡ count by }
{
    if by == 0 { 32 } else { by }
}

/// LSL (immediate).
#[tactic(auto, using(thumb_insn::proofs::Rows::shift_rows))]
#[inline(always)]
pub(crate) fn lsl_immediate<T: Taker>(h: u16, to: &mut T) -> bool
    requires { h / 2048 ≡ 0 }
    ensures { T.did to.old (narrow_result (narrow_of h)) result to.new }
{
    to.take(
        h,
        Insn::ShiftImm {
            shift: Shift::Lsl,
            d: low_reg(h, 0),
            m: low_reg(h, 3),
            by: value(h, 6, 5),
        },
    )
}

/// LSR (immediate).
#[tactic(auto, using(thumb_insn::proofs::Rows::shift_rows))]
#[inline(always)]
pub(crate) fn lsr_immediate<T: Taker>(h: u16, to: &mut T) -> bool
    requires { h / 2048 ≡ 1 }
    ensures { T.did to.old (narrow_result (narrow_of h)) result to.new }
{
    to.take(
        h,
        Insn::ShiftImm {
            shift: Shift::Lsr,
            d: low_reg(h, 0),
            m: low_reg(h, 3),
            by: counted(value(h, 6, 5)),
        },
    )
}

/// ASR (immediate).
#[tactic(auto, using(thumb_insn::proofs::Rows::shift_rows))]
#[inline(always)]
pub(crate) fn asr_immediate<T: Taker>(h: u16, to: &mut T) -> bool
    requires { h / 2048 ≡ 2 }
    ensures { T.did to.old (narrow_result (narrow_of h)) result to.new }
{
    to.take(
        h,
        Insn::ShiftImm {
            shift: Shift::Asr,
            d: low_reg(h, 0),
            m: low_reg(h, 3),
            by: counted(value(h, 6, 5)),
        },
    )
}

/// ADD and SUB (register), ADD and SUB (immediate) of three bits.
#[tactic(auto, using(thumb_insn::proofs::Rows::sum_rows))]
#[inline(always)]
pub(crate) fn add_or_subtract<T: Taker>(h: u16, to: &mut T) -> bool
    requires { h / 2048 ≡ 3 }
    ensures { T.did to.old (narrow_result (narrow_of h)) result to.new }
{
    let (d, n) = (low_reg(h, 0), low_reg(h, 3));
    let subtracts = (h >> 9) % 2 == 1;
    if (h >> 10) % 2 == 0 {
        let m = low_reg(h, 6);
        if subtracts {
            to.take(h, Insn::SubsReg { d, n, m })
        } else {
            to.take(h, Insn::AddsReg { d, n, m })
        }
    } else {
        let value = value(h, 6, 3);
        if subtracts {
            to.take(h, Insn::SubsImm3 { d, n, value })
        } else {
            to.take(h, Insn::AddsImm3 { d, n, value })
        }
    }
}

/// MOV (immediate).
#[tactic(auto, using(thumb_insn::proofs::Rows::top_rows))]
#[inline(always)]
pub(crate) fn mov_immediate<T: Taker>(h: u16, to: &mut T) -> bool
    requires { h / 2048 ≡ 4 }
    ensures { T.did to.old (narrow_result (narrow_of h)) result to.new }
{
    to.take(
        h,
        Insn::MovsImm {
            d: low_reg(h, 8),
            value: value(h, 0, 8),
        },
    )
}

/// CMP (immediate).
#[tactic(auto, using(thumb_insn::proofs::Rows::top_rows))]
#[inline(always)]
pub(crate) fn cmp_immediate<T: Taker>(h: u16, to: &mut T) -> bool
    requires { h / 2048 ≡ 5 }
    ensures { T.did to.old (narrow_result (narrow_of h)) result to.new }
{
    to.take(
        h,
        Insn::CmpImm {
            n: low_reg(h, 8),
            value: value(h, 0, 8),
        },
    )
}

/// ADD (immediate) of eight bits.
#[tactic(auto, using(thumb_insn::proofs::Rows::top_rows))]
#[inline(always)]
pub(crate) fn add_8_bit_immediate<T: Taker>(h: u16, to: &mut T) -> bool
    requires { h / 2048 ≡ 6 }
    ensures { T.did to.old (narrow_result (narrow_of h)) result to.new }
{
    to.take(
        h,
        Insn::AddsImm8 {
            d: low_reg(h, 8),
            value: value(h, 0, 8),
        },
    )
}

/// SUB (immediate) of eight bits.
#[tactic(auto, using(thumb_insn::proofs::Rows::top_rows))]
#[inline(always)]
pub(crate) fn subtract_8_bit_immediate<T: Taker>(h: u16, to: &mut T) -> bool
    requires { h / 2048 ≡ 7 }
    ensures { T.did to.old (narrow_result (narrow_of h)) result to.new }
{
    to.take(
        h,
        Insn::SubsImm8 {
            d: low_reg(h, 8),
            value: value(h, 0, 8),
        },
    )
}

//! Load from the literal pool, and load/store single data item (the manual's A5.2.4).

ghost use Rattle.std.specs.Prelude.{◌≡◌, ◌/◌};
ghost use Rattle.thumb_insn.specs.Table.{narrow_of, narrow_result};

use crate::Taker;
use crate::fields::{low_reg, value};
use thumb_insn::{Insn, Load, Size};

/// LDR (literal).
#[tactic(auto, using(thumb_insn::proofs::Rows::top_rows))]
#[inline(always)]
pub(crate) fn ldr_literal<T: Taker>(h: u16, to: &mut T) -> bool
    requires { h / 2048 ≡ 9 }
    ensures { T.did to.old (narrow_result (narrow_of h)) result to.new }
{
    to.take(
        h,
        Insn::LdrLiteral {
            t: low_reg(h, 8),
            offset: 4 * value(h, 0, 8),
        },
    )
}

/// STR, STRH, STRB and LDRSB (register).
#[tactic(auto, using(thumb_insn::proofs::Rows::moved_rows))]
#[inline(always)]
pub(crate) fn store_or_ldrsb_register<T: Taker>(h: u16, to: &mut T) -> bool
    requires { h / 2048 ≡ 10 }
    ensures { T.did to.old (narrow_result (narrow_of h)) result to.new }
{
    let (t, n, m) = (low_reg(h, 0), low_reg(h, 3), low_reg(h, 6));
    match (h >> 9) % 4 {
        0 => to.take(
            h,
            Insn::StoreReg {
                size: Size::Word,
                t,
                n,
                m,
            },
        ),
        1 => to.take(
            h,
            Insn::StoreReg {
                size: Size::Half,
                t,
                n,
                m,
            },
        ),
        2 => to.take(
            h,
            Insn::StoreReg {
                size: Size::Byte,
                t,
                n,
                m,
            },
        ),
        _ => to.take(
            h,
            Insn::LoadReg {
                load: Load::SignedByte,
                t,
                n,
                m,
            },
        ),
    }
}

/// LDR, LDRH, LDRB and LDRSH (register).
#[tactic(auto, using(thumb_insn::proofs::Rows::moved_rows))]
#[inline(always)]
pub(crate) fn load_register<T: Taker>(h: u16, to: &mut T) -> bool
    requires { h / 2048 ≡ 11 }
    ensures { T.did to.old (narrow_result (narrow_of h)) result to.new }
{
    let (t, n, m) = (low_reg(h, 0), low_reg(h, 3), low_reg(h, 6));
    match (h >> 9) % 4 {
        0 => to.take(
            h,
            Insn::LoadReg {
                load: Load::Whole(Size::Word),
                t,
                n,
                m,
            },
        ),
        1 => to.take(
            h,
            Insn::LoadReg {
                load: Load::Whole(Size::Half),
                t,
                n,
                m,
            },
        ),
        2 => to.take(
            h,
            Insn::LoadReg {
                load: Load::Whole(Size::Byte),
                t,
                n,
                m,
            },
        ),
        _ => to.take(
            h,
            Insn::LoadReg {
                load: Load::SignedHalf,
                t,
                n,
                m,
            },
        ),
    }
}

/// STR (immediate).
#[tactic(auto, using(thumb_insn::proofs::Rows::top_rows))]
#[inline(always)]
pub(crate) fn str_immediate<T: Taker>(h: u16, to: &mut T) -> bool
    requires { h / 2048 ≡ 12 }
    ensures { T.did to.old (narrow_result (narrow_of h)) result to.new }
{
    to.take(
        h,
        Insn::StoreImm {
            size: Size::Word,
            t: low_reg(h, 0),
            n: low_reg(h, 3),
            offset: 4 * value(h, 6, 5),
        },
    )
}

/// LDR (immediate).
#[tactic(auto, using(thumb_insn::proofs::Rows::top_rows))]
#[inline(always)]
pub(crate) fn ldr_immediate<T: Taker>(h: u16, to: &mut T) -> bool
    requires { h / 2048 ≡ 13 }
    ensures { T.did to.old (narrow_result (narrow_of h)) result to.new }
{
    to.take(
        h,
        Insn::LoadImm {
            size: Size::Word,
            t: low_reg(h, 0),
            n: low_reg(h, 3),
            offset: 4 * value(h, 6, 5),
        },
    )
}

/// STRB (immediate).
#[tactic(auto, using(thumb_insn::proofs::Rows::top_rows))]
#[inline(always)]
pub(crate) fn strb_immediate<T: Taker>(h: u16, to: &mut T) -> bool
    requires { h / 2048 ≡ 14 }
    ensures { T.did to.old (narrow_result (narrow_of h)) result to.new }
{
    to.take(
        h,
        Insn::StoreImm {
            size: Size::Byte,
            t: low_reg(h, 0),
            n: low_reg(h, 3),
            offset: value(h, 6, 5),
        },
    )
}

/// LDRB (immediate).
#[tactic(auto, using(thumb_insn::proofs::Rows::top_rows))]
#[inline(always)]
pub(crate) fn ldrb_immediate<T: Taker>(h: u16, to: &mut T) -> bool
    requires { h / 2048 ≡ 15 }
    ensures { T.did to.old (narrow_result (narrow_of h)) result to.new }
{
    to.take(
        h,
        Insn::LoadImm {
            size: Size::Byte,
            t: low_reg(h, 0),
            n: low_reg(h, 3),
            offset: value(h, 6, 5),
        },
    )
}

/// STRH (immediate).
#[tactic(auto, using(thumb_insn::proofs::Rows::top_rows))]
#[inline(always)]
pub(crate) fn strh_immediate<T: Taker>(h: u16, to: &mut T) -> bool
    requires { h / 2048 ≡ 16 }
    ensures { T.did to.old (narrow_result (narrow_of h)) result to.new }
{
    to.take(
        h,
        Insn::StoreImm {
            size: Size::Half,
            t: low_reg(h, 0),
            n: low_reg(h, 3),
            offset: 2 * value(h, 6, 5),
        },
    )
}

/// LDRH (immediate).
#[tactic(auto, using(thumb_insn::proofs::Rows::top_rows))]
#[inline(always)]
pub(crate) fn ldrh_immediate<T: Taker>(h: u16, to: &mut T) -> bool
    requires { h / 2048 ≡ 17 }
    ensures { T.did to.old (narrow_result (narrow_of h)) result to.new }
{
    to.take(
        h,
        Insn::LoadImm {
            size: Size::Half,
            t: low_reg(h, 0),
            n: low_reg(h, 3),
            offset: 2 * value(h, 6, 5),
        },
    )
}

/// STR (immediate) from SP.
#[tactic(auto, using(thumb_insn::proofs::Rows::top_rows))]
#[inline(always)]
pub(crate) fn str_sp_relative<T: Taker>(h: u16, to: &mut T) -> bool
    requires { h / 2048 ≡ 18 }
    ensures { T.did to.old (narrow_result (narrow_of h)) result to.new }
{
    to.take(
        h,
        Insn::StoreSp {
            t: low_reg(h, 8),
            offset: 4 * value(h, 0, 8),
        },
    )
}

/// LDR (immediate) from SP.
#[tactic(auto, using(thumb_insn::proofs::Rows::top_rows))]
#[inline(always)]
pub(crate) fn ldr_sp_relative<T: Taker>(h: u16, to: &mut T) -> bool
    requires { h / 2048 ≡ 19 }
    ensures { T.did to.old (narrow_result (narrow_of h)) result to.new }
{
    to.take(
        h,
        Insn::LoadSp {
            t: low_reg(h, 8),
            offset: 4 * value(h, 0, 8),
        },
    )
}

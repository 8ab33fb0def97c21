//! Generate an address relative to PC or to SP (the manual's table of A5.2).

ghost use Rattle.std.specs.Prelude.{◌≡◌, ◌/◌};
ghost use Rattle.thumb_insn.specs.Table.{narrow_of, narrow_result};

use crate::Taker;
use crate::fields::{low_reg, value};
use thumb_insn::Insn;

/// ADR.
#[tactic(auto, using(thumb_insn::proofs::Rows::top_rows))]
#[inline(always)]
pub(crate) fn adr<T: Taker>(h: u16, to: &mut T) -> bool
    requires { h / 2048 ≡ 20 }
    ensures { T.did to.old (narrow_result (narrow_of h)) result to.new }
{
    to.take(
        h,
        Insn::Adr {
            d: low_reg(h, 8),
            offset: 4 * value(h, 0, 8),
        },
    )
}

/// ADD (SP and an immediate) with its result in a low register.
#[tactic(auto, using(thumb_insn::proofs::Rows::top_rows))]
#[inline(always)]
pub(crate) fn add_sp_immediate<T: Taker>(h: u16, to: &mut T) -> bool
    requires { h / 2048 ≡ 21 }
    ensures { T.did to.old (narrow_result (narrow_of h)) result to.new }
{
    to.take(
        h,
        Insn::AddSp {
            d: low_reg(h, 8),
            offset: 4 * value(h, 0, 8),
        },
    )
}

//! Miscellaneous 16-bit instructions (the manual's A5.2.5).

ghost use Rattle.std.specs.Prelude.{◌≡◌, ◌/◌};
ghost use Rattle.thumb_insn.specs.Table.{narrow_of, narrow_result};

use crate::Taker;
use crate::fields::{bits, low_reg, value};
use thumb_insn::{Bytes, Insn};

/// ADD and SUB (SP and an immediate), SXTH, SXTB, UXTH, UXTB, PUSH and CPS.
#[tactic(auto, using(thumb_insn::proofs::Rows::misc_rows))]
#[inline(always)]
pub(crate) fn sp_extend_push_or_cps<T: Taker>(h: u16, to: &mut T) -> bool
    requires { h / 2048 ≡ 22 }
    ensures { T.did to.old (narrow_result (narrow_of h)) result to.new }
{
    match (h >> 8) % 8 {
        0 if (h >> 7) % 2 == 0 => to.take(
            h,
            Insn::RaiseSp {
                offset: 4 * value(h, 0, 7),
            },
        ),
        0 => to.take(
            h,
            Insn::LowerSp {
                offset: 4 * value(h, 0, 7),
            },
        ),
        2 => {
            let (d, m) = (low_reg(h, 0), low_reg(h, 3));
            match (h >> 6) % 4 {
                0 => to.take(
                    h,
                    Insn::Change {
                        bytes: Bytes::Sxth,
                        d,
                        m,
                    },
                ),
                1 => to.take(
                    h,
                    Insn::Change {
                        bytes: Bytes::Sxtb,
                        d,
                        m,
                    },
                ),
                2 => to.take(
                    h,
                    Insn::Change {
                        bytes: Bytes::Uxth,
                        d,
                        m,
                    },
                ),
                _ => to.take(
                    h,
                    Insn::Change {
                        bytes: Bytes::Uxtb,
                        d,
                        m,
                    },
                ),
            }
        }
        4 | 5 => {
            if bits(h, 0, 9) == 0 {
                to.illegal()
            } else {
                to.take(
                    h,
                    Insn::Push {
                        list: bits(h, 0, 8) as u8,
                        lr: bits(h, 8, 1) == 1,
                    },
                )
            }
        }
        6 if h == 0xB662 => to.take(h, Insn::Cpsie),
        6 if h == 0xB672 => to.take(h, Insn::Cpsid),
        _ => to.illegal(),
    }
}

/// REV, REV16, REVSH, POP, BKPT and the hints.
#[tactic(auto, using(thumb_insn::proofs::Rows::more_rows))]
#[inline(always)]
pub(crate) fn reverse_pop_or_hint<T: Taker>(h: u16, to: &mut T) -> bool
    requires { h / 2048 ≡ 23 }
    ensures { T.did to.old (narrow_result (narrow_of h)) result to.new }
{
    match (h >> 8) % 8 {
        2 => {
            let (d, m) = (low_reg(h, 0), low_reg(h, 3));
            match (h >> 6) % 4 {
                0 => to.take(
                    h,
                    Insn::Change {
                        bytes: Bytes::Rev,
                        d,
                        m,
                    },
                ),
                1 => to.take(
                    h,
                    Insn::Change {
                        bytes: Bytes::Rev16,
                        d,
                        m,
                    },
                ),
                2 => to.illegal(),
                _ => to.take(
                    h,
                    Insn::Change {
                        bytes: Bytes::Revsh,
                        d,
                        m,
                    },
                ),
            }
        }
        4 | 5 => {
            if bits(h, 0, 9) == 0 {
                to.illegal()
            } else {
                to.take(
                    h,
                    Insn::Pop {
                        list: bits(h, 0, 8) as u8,
                        pc: bits(h, 8, 1) == 1,
                    },
                )
            }
        }
        6 => to.take(
            h,
            Insn::Bkpt {
                value: value(h, 0, 8),
            },
        ),
        7 if h % 16 == 0 => to.take(
            h,
            Insn::Hint {
                value: value(h, 4, 4),
            },
        ),
        _ => to.illegal(),
    }
}

//! Conditional branch, and supervisor call (the manual's A5.2.6); unconditional branch.

ghost use Rattle.std.specs.Prelude.{◌≡◌, ◌⊎◌, ◌/◌};
ghost use Rattle.thumb_insn.specs.Fields.{field, signed_field, double};
ghost use Rattle.thumb_insn.specs.Table.{narrow_of, narrow_result};
ghost use Rattle.thumb_insn.specs.declared.Decoded.TheVariants as results;
ghost use Rattle.thumb_insn.specs.declared.Insn.TheVariants as insns;

use crate::Taker;
use crate::fields::{bits, value};
use thumb_insn::{Cond, Insn};

/// Twice a field, read as a signed number.
#[inline(always)]
fn target(h: u16, width: u8) -> i32
    requires { (width ≡ 8) ⊎ (width ≡ 11) }
    ensures { result ≡ double (signed_field width (field h 0 width)) }
{
    (i32::from(bits(h, 0, width)) << (32 - width)) >> (31 - width)
}

/// The same for the eleven bits of B. The other five bits are fixed by its row, so one XOR clears
/// them and inverts the sign bit.
#[inline(always)]
fn jump_target(h: u16) -> i32
    requires { h / 2048 ≡ 28 }
    ensures { result ≡ double (signed_field 11 (field h 0 11)) }
{
    2 * i32::from(h ^ 0xE000 ^ 0x400) - 0x800
}

/// B with a condition.
#[inline(always)]
fn conditional_branch<T: Taker>(h: u16, cond: Cond, to: &mut T) -> bool
    requires { narrow_result (narrow_of h) ≡ results.Narrow
        (insns.BranchIf cond (double (signed_field 8 (field h 0 8)))) }
    ensures { T.did to.old (narrow_result (narrow_of h)) result to.new }
{
    to.take(
        h,
        Insn::BranchIf {
            cond,
            offset: target(h, 8),
        },
    )
}

/// B with a condition of one flag.
#[tactic(auto, using(thumb_insn::proofs::Rows::branch_rows))]
#[inline(always)]
pub(crate) fn branch_on_one_flag<T: Taker>(h: u16, to: &mut T) -> bool
    requires { h / 2048 ≡ 26 }
    ensures { T.did to.old (narrow_result (narrow_of h)) result to.new }
{
    match (h >> 8) % 8 {
        0 => conditional_branch(h, Cond::Eq, to),
        1 => conditional_branch(h, Cond::Ne, to),
        2 => conditional_branch(h, Cond::Cs, to),
        3 => conditional_branch(h, Cond::Cc, to),
        4 => conditional_branch(h, Cond::Mi, to),
        5 => conditional_branch(h, Cond::Pl, to),
        6 => conditional_branch(h, Cond::Vs, to),
        _ => conditional_branch(h, Cond::Vc, to),
    }
}

/// B with a condition of several flags, and SVC.
#[tactic(auto, using(thumb_insn::proofs::Rows::branch_rows))]
#[inline(always)]
pub(crate) fn branch_on_flags_or_svc<T: Taker>(h: u16, to: &mut T) -> bool
    requires { h / 2048 ≡ 27 }
    ensures { T.did to.old (narrow_result (narrow_of h)) result to.new }
{
    match (h >> 8) % 8 {
        0 => conditional_branch(h, Cond::Hi, to),
        1 => conditional_branch(h, Cond::Ls, to),
        2 => conditional_branch(h, Cond::Ge, to),
        3 => conditional_branch(h, Cond::Lt, to),
        4 => conditional_branch(h, Cond::Gt, to),
        5 => conditional_branch(h, Cond::Le, to),
        6 => to.illegal(),
        _ => to.take(
            h,
            Insn::Svc {
                value: value(h, 0, 8),
            },
        ),
    }
}

/// B with no condition.
#[tactic(auto, using(thumb_insn::proofs::Rows::top_rows))]
#[inline(always)]
pub(crate) fn unconditional_branch<T: Taker>(h: u16, to: &mut T) -> bool
    requires { h / 2048 ≡ 28 }
    ensures { T.did to.old (narrow_result (narrow_of h)) result to.new }
{
    to.take(
        h,
        Insn::Branch {
            offset: jump_target(h),
        },
    )
}

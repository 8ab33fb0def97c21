//! Data processing (the manual's A5.2.2).

ghost use Rattle.std.specs.Prelude.{◌≡◌, ◌/◌};
ghost use Rattle.thumb_insn.specs.Table.{narrow_of, narrow_result};

use crate::Taker;
use crate::fields::low_reg;
use thumb_insn::{Insn, Op};

/// AND, EOR, LSL, LSR, ASR, ADC, SBC, ROR, TST, RSB, CMP, CMN, ORR, MUL, BIC or MVN of two low
/// registers.
#[tactic(auto, using(thumb_insn::proofs::Rows::data_rows))]
#[inline(always)]
pub(crate) fn data_operation<T: Taker>(h: u16, to: &mut T) -> bool
    requires { h / 1024 ≡ 16 }
    ensures { T.did to.old (narrow_result (narrow_of h)) result to.new }
{
    let (d, m) = (low_reg(h, 0), low_reg(h, 3));
    match (h >> 6) % 16 {
        0 => to.take(h, Insn::Data { op: Op::Ands, d, m }),
        1 => to.take(h, Insn::Data { op: Op::Eors, d, m }),
        2 => to.take(h, Insn::Data { op: Op::Lsls, d, m }),
        3 => to.take(h, Insn::Data { op: Op::Lsrs, d, m }),
        4 => to.take(h, Insn::Data { op: Op::Asrs, d, m }),
        5 => to.take(h, Insn::Data { op: Op::Adcs, d, m }),
        6 => to.take(h, Insn::Data { op: Op::Sbcs, d, m }),
        7 => to.take(h, Insn::Data { op: Op::Rors, d, m }),
        8 => to.take(h, Insn::Data { op: Op::Tst, d, m }),
        9 => to.take(h, Insn::Data { op: Op::Rsbs, d, m }),
        10 => to.take(h, Insn::Data { op: Op::Cmp, d, m }),
        11 => to.take(h, Insn::Data { op: Op::Cmn, d, m }),
        12 => to.take(h, Insn::Data { op: Op::Orrs, d, m }),
        13 => to.take(h, Insn::Data { op: Op::Muls, d, m }),
        14 => to.take(h, Insn::Data { op: Op::Bics, d, m }),
        _ => to.take(h, Insn::Data { op: Op::Mvns, d, m }),
    }
}

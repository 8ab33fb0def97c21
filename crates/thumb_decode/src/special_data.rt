//! Special data instructions and branch and exchange (the manual's A5.2.3).

ghost use Rattle.std.specs.Prelude.{◌≡◌, ◌/◌};
ghost use Rattle.thumb_insn.specs.Table.{narrow_of, narrow_result};

use crate::Taker;
use crate::fields::{any_reg, split_reg};
use thumb_insn::Insn;

/// ADD, CMP and MOV (register) of any registers; BX and BLX (register).
#[tactic(auto, using(thumb_insn::proofs::Rows::high_rows))]
#[inline(always)]
pub(crate) fn special_data_or_exchange<T: Taker>(h: u16, to: &mut T) -> bool
    requires { h / 1024 ≡ 17 }
    ensures { T.did to.old (narrow_result (narrow_of h)) result to.new }
{
    let m = any_reg(h, 3);
    // For speed the first test is for MOV, which is by far the most frequent of them.
    if h >> 8 == 70 {
        return to.take(h, Insn::MovHigh { d: split_reg(h), m });
    }
    match (h >> 8) % 4 {
        0 => {
            let d = split_reg(h);
            if d.number == 15 && m.number == 15 {
                to.illegal()
            } else {
                to.take(h, Insn::AddHigh { d, m })
            }
        }
        1 => {
            let n = split_reg(h);
            if n.number < 8 && m.number < 8 || n.number == 15 || m.number == 15 {
                to.illegal()
            } else {
                to.take(h, Insn::CmpHigh { n, m })
            }
        }
        _ => {
            if h % 8 != 0 || m.number == 15 {
                to.illegal()
            } else if (h >> 7) % 2 == 0 {
                to.take(h, Insn::Bx { m })
            } else {
                to.take(h, Insn::Blx { m })
            }
        }
    }
}

//! Store and load multiple registers (the manual's table of A5.2).

ghost use Rattle.std.specs.Prelude.{◌≡◌, ◌<◌, ◌/◌};
ghost use Rattle.thumb_insn.specs.Table.{is_later, narrow_of, narrow_result};

use crate::Taker;
use crate::fields::{bits, low_reg};
use thumb_insn::Insn;

/// Whether register n is in the list, and a lower register too.
#[inline(always)]
fn is_later(list: u8, n: u8) -> bool
    requires { n < 8 }
    ensures { result ≡ is_later list n }
{
    (list >> n) % 2 == 1 && 0 < list % (1 << n)
}

/// STM and LDM.
#[tactic(auto, using(thumb_insn::proofs::Rows::top_rows))]
#[inline(always)]
pub(crate) fn stm_or_ldm<T: Taker>(h: u16, to: &mut T) -> bool
    requires { h / 4096 ≡ 12 }
    ensures { T.did to.old (narrow_result (narrow_of h)) result to.new }
{
    let n = low_reg(h, 8);
    let list = bits(h, 0, 8) as u8;
    if list == 0 {
        to.illegal()
    } else if h >> 11 == 25 {
        to.take(h, Insn::Ldm { n, list })
    } else if is_later(list, n.number) {
        to.illegal()
    } else {
        to.take(h, Insn::Stm { n, list })
    }
}

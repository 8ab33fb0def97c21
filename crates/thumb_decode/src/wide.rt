//! Instructions of two halfwords (the manual's A5.3).

ghost use Rattle.std.specs.Prelude.{◌≡◌, ◌<◌, ◌^◌};
ghost use Rattle.thumb_insn.specs.Fields.{field, signed_field, double};
ghost use Rattle.thumb_insn.specs.Table.{wide_of, long_offset, branch_bit};

use thumb_insn::{Barrier, Insn, Reg};

/// The bits of a code of two halfwords.
fn field_of(c: u32, from: u8, width: u8) -> u32
    requires low { from < 32 }
    requires wide { width < 32 }
    ensures { result ≡ field c from width }
{
    (c >> from) % (1 << width)
}

/// Bit I1 or I2 of a long branch, from its bit J1 or J2 and its sign.
fn unfold_bit(j: u32, s: u32) -> u32
    ensures { result ≡ branch_bit j s }
{
    if j == s { 1 } else { 0 }
}

/// Twice a signed number of 24 bits.
fn long_double(x: u32) -> i32
    requires { x < 2 ^ 24 }
    ensures { result ≡ double (signed_field 24 x) }
{
    let whole = x as i32;
    if x < 0x80_0000 {
        2 * whole
    } else {
        2 * (whole - 0x100_0000)
    }
}

/// The offset of a long branch.
fn long_target(c: u32) -> i32
    ensures { result ≡ long_offset c }
{
    let s = field_of(c, 26, 1);
    let i1 = unfold_bit(field_of(c, 13, 1), s);
    let i2 = unfold_bit(field_of(c, 11, 1), s);
    long_double(
        s * 0x80_0000
            + i1 * 0x40_0000
            + i2 * 0x20_0000
            + field_of(c, 16, 10) * 0x800
            + field_of(c, 0, 11),
    )
}

/// The instruction that two halfwords code.
#[tactic(auto, unfolding(thumb_insn::specs::Table::wide_of, thumb_insn::specs::Table::wide_rows))]
pub(crate) fn wide_instruction(c: u32) -> Option<Insn>
    ensures { result ≡ wide_of c }
{
    let option = field_of(c, 0, 4);
    if c & 0xF800_D000 == 0xF000_D000 {
        Some(Insn::Bl {
            offset: long_target(c),
        })
    } else if c & 0xFFFF_FFF0 == 0xF3BF_8F40 {
        Some(Insn::Fence {
            barrier: Barrier::Dsb,
            option,
        })
    } else if c & 0xFFFF_FFF0 == 0xF3BF_8F50 {
        Some(Insn::Fence {
            barrier: Barrier::Dmb,
            option,
        })
    } else if c & 0xFFFF_FFF0 == 0xF3BF_8F60 {
        Some(Insn::Fence {
            barrier: Barrier::Isb,
            option,
        })
    } else if c & 0xFFFF_F0FF == 0xF3EF_8000 {
        let d = Reg {
            number: field_of(c, 8, 4) as u8,
        };
        if d.number == 13 || d.number == 15 {
            None
        } else {
            Some(Insn::Mrs { d })
        }
    } else if c & 0xFFF0_FFFF == 0xF380_8800 {
        let n = Reg {
            number: field_of(c, 16, 4) as u8,
        };
        if n.number == 13 || n.number == 15 {
            None
        } else {
            Some(Insn::Msr { n })
        }
    } else {
        None
    }
}

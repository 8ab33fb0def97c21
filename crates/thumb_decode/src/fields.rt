//! The fields of a halfword.

ghost use Rattle.std.specs.Prelude.{◌≡◌, ◌<◌};
ghost use Rattle.thumb_insn.specs.Fields.{field, low_reg, any_reg, split_reg};

use thumb_insn::Reg;

/// `width` bits, from bit `from` on.
#[inline(always)]
pub(crate) fn bits(h: u16, from: u8, width: u8) -> u16
    requires low { from < 16 }
    requires wide { width < 16 }
    ensures { result ≡ field h from width }
{
    (h >> from) % (1 << width)
}

#[inline(always)]
pub(crate) fn value(h: u16, from: u8, width: u8) -> u32
    requires low { from < 16 }
    requires wide { width < 16 }
    ensures { result ≡ field h from width }
{
    u32::from(bits(h, from, width))
}

/// A register field of three bits.
#[inline(always)]
pub(crate) fn low_reg(h: u16, from: u8) -> Reg
    requires { from < 16 }
    ensures { result ≡ low_reg h from }
{
    Reg {
        number: bits(h, from, 3) as u8,
    }
}

/// A register field of four bits.
#[inline(always)]
pub(crate) fn any_reg(h: u16, from: u8) -> Reg
    requires { from < 16 }
    ensures { result ≡ any_reg h from }
{
    Reg {
        number: bits(h, from, 4) as u8,
    }
}

/// A register field of four bits, whose top bit is bit 7.
#[inline(always)]
pub(crate) fn split_reg(h: u16) -> Reg
    ensures { result ≡ split_reg h }
{
    Reg {
        number: (8 * bits(h, 7, 1) + bits(h, 0, 3)) as u8,
    }
}

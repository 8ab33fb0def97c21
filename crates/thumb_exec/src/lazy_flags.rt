//! The flags, as the processor keeps them.
ghost use Rattle.std.specs.Prelude.{◌≡◌, true};
ghost use Rattle.words_core.specs.Words.{negative, is_zero, awc, complement};

use std::marker::Model;
use words_core::{Flags, subtract};

/// The four condition flags. For speed N and Z are kept as the results that they come from, and V
/// as the two words of a difference: most of them are never read, and keeping a word is less work
/// than testing it.
#[derive(Drop)]
pub struct LazyFlags {
    // N is the sign of this result
    sign: u32,
    // Z is whether this result is 0
    zero: u32,
    c: bool,
    // V is whether the first of these less the second overflows, as signed words
    left: u32,
    right: u32,
}

impl Model for LazyFlags {
    ghost use Rattle.std.specs.Prelude.{true};
    ghost use Rattle.words_core.specs.Words.{negative, is_zero, awc, complement};
    ghost use Rattle.words_core.specs.declared.Flags.{Flags as Told};

    ghost Value = { Told };

    ghost view = { λ f. record { n = negative f.sign; z = is_zero f.zero; c = f.c; v = (awc f.left (complement f.right) true).1.v } };
}

impl LazyFlags {
    /// Keeps these flags.
    #[inline(always)]
    pub fn of(flags: Flags) -> LazyFlags
        ensures { result ≡ flags }
    {
        LazyFlags {
            sign: if flags.n { 0x8000_0000 } else { 0 },
            zero: if flags.z { 0 } else { 1 },
            c: flags.c,
            left: if flags.v { 0x8000_0000 } else { 0 },
            right: if flags.v { 1 } else { 0 },
        }
    }

    /// A copy.
    #[inline(always)]
    pub fn copied(&self) -> LazyFlags
        ensures { result ≡ self.now }
    {
        LazyFlags {
            sign: self.sign,
            zero: self.zero,
            c: self.c,
            left: self.left,
            right: self.right,
        }
    }

    /// All four flags.
    #[inline(always)]
    pub fn told(&self) -> Flags
        ensures { result ≡ self.now }
    {
        Flags {
            n: self.n(),
            z: self.z(),
            c: self.c,
            v: self.v(),
        }
    }

    /// N: whether the last result was negative.
    #[inline(always)]
    pub fn n(&self) -> bool
        ensures { result ≡ self.now.n }
    {
        self.sign >= 0x8000_0000
    }

    /// Z: whether the last result was 0.
    #[inline(always)]
    pub fn z(&self) -> bool
        ensures { result ≡ self.now.z }
    {
        self.zero == 0
    }

    /// C: the carry.
    #[inline(always)]
    pub fn c(&self) -> bool
        ensures { result ≡ self.now.c }
    {
        self.c
    }

    /// V: whether a signed sum overflowed.
    #[inline(always)]
    pub fn v(&self) -> bool
        ensures { result ≡ self.now.v }
    {
        subtract(self.left, self.right).1.v
    }

    /// Sets N and Z from a result (`APSR.N`, `APSR.Z`; A6.7). C and V do not change: they are
    /// neither read nor written.
    #[inline(always)]
    pub fn follow(&mut self, value: u32)
        ensures { self.new ≡ record self.old { n = negative value; z = is_zero value } }
    {
        self.sign = value;
        self.zero = value;
    }

    /// Sets only C.
    #[inline(always)]
    pub fn set_c(&mut self, c: bool)
        ensures { self.new ≡ record self.old { c = c } }
    {
        self.c = c;
    }

    /// Sets only V.
    #[inline(always)]
    pub fn set_v(&mut self, v: bool)
        ensures { self.new ≡ record self.old { v = v } }
    {
        self.left = if v { 0x8000_0000 } else { 0 };
        self.right = if v { 1 } else { 0 };
    }

    /// Sets V to the overflow of a difference of two words, which are kept.
    #[inline(always)]
    pub fn follow_difference(&mut self, x: u32, y: u32)
        ensures { self.new ≡ record self.old { v = (awc x (complement y) true).1.v } }
    {
        self.left = x;
        self.right = y;
    }
}

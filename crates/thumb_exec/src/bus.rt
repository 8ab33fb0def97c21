//! Memory, as an instruction accesses it.
ghost use Rattle.std.specs.Prelude.{◌≡◌, ℕ, ◌<◌, ◌≤◌, ◌+◌, ◌%◌, ◌^◌, Option, Some, None, MatchResult, IfOk, IfErr, ◌*◌, true, false};
ghost use Rattle.thumb_exec.specs.Sizes.{IsSize};
ghost use Rattle.region_check.specs.declared.Right.{Right as Rights};
ghost use Rattle.region_check.specs.declared.Right.TheVariants.{Read, Write, Execute};

use region_check::Right;

/// Memory behind a check of rights, byte by byte. Addresses have 32 bits; values are little-endian.
/// A refusal is the address of the first byte that lacks the right.
///
/// An implementation gives four meanings: which bytes are refused, what bytes hold, what the bus is
/// after a store, and what it is after a load. The last two are relations, so they may change more
/// than memory.
pub trait Bus {
    /// Address, number of bytes, right: the first of these bytes that lacks the right.
    ghost refuses: { Self → ℕ → ℕ → Rights → Option ℕ };

    /// Address, number of bytes: what these bytes hold, as a number.
    ghost holds: { Self → ℕ → ℕ → ℕ };

    /// The bus before, address, number of bytes, value, and the bus after this store.
    ghost stored: { Self → ℕ → ℕ → ℕ → Self → Type 0 };

    /// The bus before, address, and the bus after an instruction that goes on has loaded from
    /// there.
    ghost took: { Self → ℕ → Self → Type 0 };

    /// The first of n bytes, 1, 2 or 4 of them, that lacks the right.
    fn allows(&self, addr: u32, n: u32, right: Right) -> Option<u32>
        requires size { IsSize n }
        requires aligned { addr % n ≡ 0 }
        ensures { result ≡ refuses self.now addr n right };

    /// The halfword at an even address. Both of its bytes need the right to execute.
    fn fetch(&self, addr: u32) -> Result<u16, u32>
        requires { addr % 2 ≡ 0 }
        ensures { MatchResult result (λ code. (refuses self.now addr 2 Execute ≡ None)
            × (code ≡ holds self.now addr 2)) (λ at. refuses self.now addr 2 Execute ≡ Some at) };

    /// What n bytes hold. Each of them needs the right to read.
    fn load(&self, addr: u32, n: u32) -> Result<u32, u32>
        requires size { IsSize n }
        requires aligned { addr % n ≡ 0 }
        ensures { MatchResult result (λ value. (refuses self.now addr n Read ≡ None)
            × (value ≡ holds self.now addr n)) (λ at. refuses self.now addr n Read ≡ Some at) };

    /// Stores the low n bytes of a value. Each byte in memory needs the right to write; if one
    /// lacks it, nothing changes. No store changes a right.
    fn store(&mut self, addr: u32, n: u32, value: u32) -> Result<(), u32>
        requires size { IsSize n }
        requires aligned { addr % n ≡ 0 }
        ensures done { IfOk result (λ done. (refuses self.old addr n Write ≡ None)
            × stored self.old addr n value self.new) }
        ensures refused { IfErr result (λ at. (refuses self.old addr n Write ≡ Some at)
            × (self.new ≡ self.old)) }
        ensures rights { (a m : ℕ) (r : Rights) → refuses self.new a m r ≡ refuses self.old a m r };

    /// Is called after an instruction that goes on has loaded from an address. A device there
    /// removes what the load took. No right changes.
    fn taken(&mut self, addr: u32)
        ensures done { took self.old addr self.new }
        ensures rights { (a m : ℕ) (r : Rights) → refuses self.new a m r ≡ refuses self.old a m r };

    /// Whether a load may take anything from a device. If the answer is false, no load does.
    fn takes(&self) -> bool
        ensures { result ≡ false → (addr : ℕ) → took self.now addr self.now };

    /// Whether one test shows that each of `count` words from an address on has the right. If the
    /// answer is false, words may have the right or lack it.
    fn gives(&self, addr: u32, count: u32, right: Right) -> bool
        requires aligned { addr % 4 ≡ 0 }
        requires few { count ≤ 16 }
        ensures { result ≡ true → (k : ℕ) → k < count →
            refuses self.now ((addr + 4 * k) % 2 ^ 32) 4 right ≡ None };
}

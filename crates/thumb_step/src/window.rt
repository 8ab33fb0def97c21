//! Executes instructions one after another for a processor whose flash, RAM and two areas lie in
//! four vectors of bytes. An access tests its address once, and looks up nothing.
ghost use Rattle.std.specs.Prelude.{◌≡◌, ◌+◌, ◌*◌, ◌/◌, ◌≤◌, ◌<◌, None, Some, true, false, MatchOption, MatchResult, IfOk, IfErr, length, take, drop, vec_len};
ghost use Rattle.mem_banks.specs.Memory.{number_of, pasted};
ghost use Rattle.region_check.specs.declared.Right.TheVariants.{Read, Write};
ghost use Rattle.thumb_exec.specs.Effect.{Halts};
ghost use Rattle.thumb_exec.specs.Sizes.{IsSize};
ghost use Rattle.thumb_exec.specs.Fetch.{step_effect};
ghost use Rattle.words_core.specs.Regs.{reg_at, program_counter};
ghost use Rattle.thumb_step.specs.Windows.{has, has_code, may_read_beyond, may_write_area, code_places, IsFetched, refused_by, held_by, view_of, Glides, GoesOn, Keeps, IsApart, is_at_syscall, IsAtSyscall};
ghost use Rattle.thumb_step.specs.Did.{Did, IsStored, IsTaken};

use region_check::Right;
use thumb_decode::{Taker, decode, narrow_to};
use thumb_exec::bus::Bus;
use thumb_exec::cpu::Cpu;
use thumb_exec::step::proceed;
use thumb_insn::{Decoded, Insn};
use words_core::PROGRAM_COUNTER;

/// The memory that a processor may access, each part from an address on: the flash, of which it may
/// execute a stretch and perhaps read all; the RAM, which it may read and write; and two areas,
/// which it may read and perhaps write. Only accesses outside flash and RAM look at the first area,
/// and only those outside that one at the second, so the other accesses need no further test.
#[derive(Drop)]
pub struct Window {
    pub flash: Vec<u8>,
    pub flash_base: u32,

    /// Whether the flash may be read.
    pub readable: bool,

    /// The stretch of the flash from which it may fetch.
    pub code_base: u32,
    pub code_size: u32,
    pub ram: Vec<u8>,
    pub ram_base: u32,
    pub area: Vec<u8>,
    pub area_base: u32,

    /// Whether the area may be written.
    pub area_writable: bool,
    pub second: Vec<u8>,
    pub second_base: u32,

    /// Whether the second area may be written.
    pub second_writable: bool,
}

/// A processor and the memory that it may access.
#[derive(Drop)]
pub struct Runner {
    pub processor: Cpu,
    pub window: Window,
}

/// Whether all of n bytes from an address on are among these bytes, which begin at a base.
#[inline(always)]
fn has(base: u32, bytes: &[u8], addr: u32, n: u32) -> bool
    ensures { result ≡ has base bytes.now addr n }
{
    addr >= base && (addr - base) as usize + n as usize <= bytes.len()
}

/// The number in two bytes from an index on, little-endian. The hint is not `always`: on its own
/// LLVM makes one load of this function, but not after it is inlined into the decoder, which looks
/// only at the high byte.
#[inline]
fn half(bytes: &[u8], at: usize) -> u16
    requires { at + 2 ≤ length bytes.now }
    ensures { result ≡ number_of (take 2 (drop at bytes.now)) }
{
    u16::from(bytes[at]) + 256 * u16::from(bytes[at + 1])
}

/// The number in four bytes from an index on, little-endian.
#[inline(always)]
fn word(bytes: &[u8], at: usize) -> u32
    requires { at + 4 ≤ length bytes.now }
    ensures { result ≡ number_of (take 4 (drop at bytes.now)) }
{
    let low = u32::from(bytes[at]) + 256 * u32::from(bytes[at + 1]);
    let high = u32::from(bytes[at + 2]) + 256 * u32::from(bytes[at + 3]);
    low + 65536 * high
}

/// The number in 1, 2 or 4 bytes from an index on, little-endian.
#[inline(always)]
fn number(bytes: &[u8], at: usize, n: u32) -> u32
    requires size { IsSize n }
    requires there { at + n ≤ length bytes.now }
    ensures { result ≡ number_of (take n (drop at bytes.now)) }
{
    match n {
        1 => u32::from(bytes[at]),
        2 => u32::from(half(bytes, at)),
        _ => word(bytes, at),
    }
}

/// Writes bytes over those from an index on.
#[inline(always)]
fn put(bytes: &mut Vec<u8>, at: usize, new: &[u8])
    requires { at + length new.now ≤ vec_len bytes.old }
    ensures { bytes.new.items ≡ pasted bytes.old.items at new.now }
{
    let part = &mut bytes[at..at + new.len()];
    part.copy_from_slice(new);
}

impl Window {
    /// Whether the RAM has all of n bytes.
    #[inline(always)]
    fn has_ram(&self, addr: u32, n: u32) -> bool
        ensures { result ≡ has self.now.ram_base self.now.ram.items addr n }
    {
        has(self.ram_base, &self.ram, addr, n)
    }

    /// Whether the flash has all of n bytes.
    #[inline(always)]
    fn has_flash(&self, addr: u32, n: u32) -> bool
        ensures { result ≡ has self.now.flash_base self.now.flash.items addr n }
    {
        has(self.flash_base, &self.flash, addr, n)
    }

    /// Whether the area has all of n bytes.
    #[inline(always)]
    fn has_area(&self, addr: u32, n: u32) -> bool
        ensures { result ≡ has self.now.area_base self.now.area.items addr n }
    {
        has(self.area_base, &self.area, addr, n)
    }

    /// Whether the second area has all of n bytes.
    #[inline(always)]
    fn has_second(&self, addr: u32, n: u32) -> bool
        ensures { result ≡ has self.now.second_base self.now.second.items addr n }
    {
        has(self.second_base, &self.second, addr, n)
    }

    /// Whether bytes outside the RAM may be written.
    #[inline(never)]
    fn writes_area(&self, addr: u32, n: u32) -> bool
        ensures { result ≡ may_write_area (view_of self.now) addr n }
    {
        if self.has_area(addr, n) {
            self.area_writable
        } else {
            self.has_second(addr, n) && self.second_writable
        }
    }

    /// Whether the flash has all of n bytes, and all of them lie in the stretch.
    #[inline(always)]
    fn has_code(&self, addr: u32, n: u32) -> bool
        ensures { result ≡ has_code (view_of self.now) addr n }
    {
        self.has_flash(addr, n)
            && addr >= self.code_base
            && (addr - self.code_base) as usize + n as usize <= self.code_size as usize
    }

    /// The number of addresses in the stretch at which a halfword can begin.
    #[inline(always)]
    pub fn code_places(&self) -> u32
        ensures { result ≡ code_places (view_of self.now) }
    {
        if self.code_size > 0 {
            self.code_size - 1
        } else {
            0
        }
    }

    /// The halfword at an address, if the stretch has it. `places` is the number of addresses at
    /// which a halfword can begin. The stretch ends within the address space, because the flash
    /// ends below the RAM, so one comparison is enough.
    #[inline(always)]
    pub fn code_half(&self, addr: u32, places: u32) -> Option<u16>
        requires apart { IsApart (view_of self.now) }
        requires places { places ≡ code_places (view_of self.now) }
        ensures { MatchOption result (has_code (view_of self.now) addr 2 ≡ false)
            (λ half. IsFetched (view_of self.now) addr half) }
    {
        // This read is only for the proof, which needs that the base is below 2^32: the range of a
        // field is known after it is read.
        let _end = self.ram_base;
        if addr.wrapping_sub(self.code_base) < places {
            Some(half(&self.flash, (addr - self.flash_base) as usize))
        } else {
            None
        }
    }

    /// Whether the instruction at a processor's PC lies in the stretch and is a system call, by
    /// reading only its halfword.
    #[inline(always)]
    pub fn is_at_syscall(&self, processor: &Cpu) -> bool
        requires apart { IsApart (view_of self.now) }
        ensures is { result ≡ is_at_syscall (view_of self.now) processor.now }
        ensures fetched { result ≡ true → IsAtSyscall (view_of self.now) processor.now }
    {
        let at = processor.regs.get(PROGRAM_COUNTER);
        match self.code_half(at, self.code_places()) {
            None => false,
            Some(half) => half / 256 == 0xDF,
        }
    }

    /// Whether bytes outside the RAM may be read.
    #[inline(never)]
    fn reads_beyond(&self, addr: u32, n: u32) -> bool
        ensures { result ≡ may_read_beyond (view_of self.now) addr n }
    {
        if self.has_flash(addr, n) {
            self.readable
        } else {
            self.has_area(addr, n) || self.has_second(addr, n)
        }
    }

    /// A load of bytes outside RAM and flash: from an area.
    #[inline(never)]
    fn load_area(&self, addr: u32, n: u32) -> Result<u32, u32>
        requires size { IsSize n }
        requires beyond { has self.now.ram_base self.now.ram.items addr n ≡ false }
        requires beside { has self.now.flash_base self.now.flash.items addr n ≡ false }
        ensures { MatchResult result (λ value. (refused_by (view_of self.now) addr n Read ≡ None)
            × (value ≡ held_by (view_of self.now) addr n))
            (λ at. refused_by (view_of self.now) addr n Read ≡ Some at) }
    {
        if self.has_area(addr, n) {
            Ok(number(&self.area, (addr - self.area_base) as usize, n))
        } else if self.has_second(addr, n) {
            Ok(number(&self.second, (addr - self.second_base) as usize, n))
        } else {
            Err(addr)
        }
    }

    /// A load of bytes outside the RAM: from the flash, or else from an area. The load from an area
    /// is another function, so that a load from the flash does not have to prepare for it.
    #[inline(never)]
    fn load_flash(&self, addr: u32, n: u32) -> Result<u32, u32>
        requires size { IsSize n }
        requires beyond { has self.now.ram_base self.now.ram.items addr n ≡ false }
        ensures { MatchResult result (λ value. (refused_by (view_of self.now) addr n Read ≡ None)
            × (value ≡ held_by (view_of self.now) addr n))
            (λ at. refused_by (view_of self.now) addr n Read ≡ Some at) }
    {
        if self.has_flash(addr, n) {
            if !self.readable {
                return Err(addr);
            }
            Ok(number(&self.flash, (addr - self.flash_base) as usize, n))
        } else {
            self.load_area(addr, n)
        }
    }

    /// A store of bytes outside the RAM.
    #[inline(never)]
    fn store_area(&mut self, addr: u32, n: u32, value: u32) -> Result<(), u32>
        requires size { IsSize n }
        requires beyond { has self.old.ram_base self.old.ram.items addr n ≡ false }
        ensures done { IfOk result (λ done. (refused_by (view_of self.old) addr n Write ≡ None)
            × IsStored self.old addr n value self.new) }
        ensures refused { IfErr result (λ at. (refused_by (view_of self.old) addr n Write ≡ Some at)
            × (self.new ≡ self.old)) }
        ensures fixed { Keeps (view_of self.old) (view_of self.new) }
    {
        if !self.writes_area(addr, n) {
            return Err(addr);
        }
        let bytes = value.to_le_bytes();
        if self.has_area(addr, n) {
            let at = (addr - self.area_base) as usize;
            put(&mut self.area, at, &bytes[..n as usize]);
        } else {
            let at = (addr - self.second_base) as usize;
            put(&mut self.second, at, &bytes[..n as usize]);
        }
        Ok(())
    }
}

impl Bus for Window {
    ghost refuses = { λ w a n r. refused_by (view_of w) a n r };

    ghost holds = { λ w a n. held_by (view_of w) a n };

    ghost stored = { λ w a n x w'. IsStored w a n x w' };

    ghost took = { λ w a w'. IsTaken w a w' };

    #[inline(always)]
    fn allows(&self, addr: u32, n: u32, right: Right) -> Option<u32> {
        let is_given = match right {
            Right::Read => self.has_ram(addr, n) || self.reads_beyond(addr, n),
            Right::Write => self.has_ram(addr, n) || self.writes_area(addr, n),
            Right::Execute => self.has_code(addr, n),
        };
        if is_given { None } else { Some(addr) }
    }

    fn fetch(&self, addr: u32) -> Result<u16, u32> {
        if !self.has_code(addr, 2) {
            return Err(addr);
        }
        if self.has_ram(addr, 2) {
            Ok(half(&self.ram, (addr - self.ram_base) as usize))
        } else {
            Ok(half(&self.flash, (addr - self.flash_base) as usize))
        }
    }

    #[inline(always)]
    fn load(&self, addr: u32, n: u32) -> Result<u32, u32> {
        if self.has_ram(addr, n) {
            Ok(number(&self.ram, (addr - self.ram_base) as usize, n))
        } else {
            self.load_flash(addr, n)
        }
    }

    #[inline(always)]
    fn store(&mut self, addr: u32, n: u32, value: u32) -> Result<(), u32> {
        if !self.has_ram(addr, n) {
            return self.store_area(addr, n, value);
        }
        let at = (addr - self.ram_base) as usize;
        let bytes = value.to_le_bytes();
        put(&mut self.ram, at, &bytes[..n as usize]);
        Ok(())
    }

    /// A window has no device, so a load takes nothing.
    #[inline(always)]
    fn taken(&mut self, _addr: u32) {}

    #[inline(always)]
    fn takes(&self) -> bool {
        false
    }

    #[inline(always)]
    fn gives(&self, addr: u32, count: u32, right: Right) -> bool {
        if 4 * count > 0xFFFF_FFFF - addr {
            return false;
        }
        match right {
            Right::Read | Right::Write => self.has_ram(addr, 4 * count),
            Right::Execute => self.has_code(addr, 4 * count),
        }
    }
}

impl Taker for Runner {
    ghost did = { λ a d r b. Did a d r b };

    #[inline(always)]
    fn take(&mut self, h: u16, insn: Insn) -> bool {
        proceed(&mut self.processor, &insn, &mut self.window)
    }

    #[inline(always)]
    fn illegal(&mut self) -> bool {
        false
    }

    #[inline(always)]
    fn needs_second(&mut self) -> bool {
        false
    }
}

impl Runner {
    /// Executes one instruction, if it is fetched from the stretch and goes on within the window;
    /// otherwise nothing changes, and the answer is false. `places` is the number of addresses in
    /// the stretch at which a halfword can begin.
    #[inline(always)]
    fn step(&mut self, places: u32) -> bool
        requires apart { IsApart (view_of self.old.window) }
        requires places { places ≡ code_places (view_of self.old.window) }
        ensures goes { result ≡ true → GoesOn (view_of self.old.window) self.old.processor
            (view_of self.new.window) self.new.processor }
        ensures halts { result ≡ false →
            Halts (step_effect (refused_by (view_of self.old.window))
            (held_by (view_of self.old.window)) self.old.processor) }
        ensures kept { result ≡ false → self.new ≡ self.old }
        ensures fixed { Keeps (view_of self.old.window) (view_of self.new.window) }
    {
        let at = self.processor.regs.get(PROGRAM_COUNTER);
        let Some(first) = self.window.code_half(at, places) else {
            return false;
        };
        if narrow_to(first, self) {
            return true;
        }
        // For speed the test for wide instructions, which are rare, is here: others need no test.
        if first / 2048 >= 29 {
            return self.step_wide(at, first, places);
        }
        false
    }

    /// The same for a wide instruction that begins with this halfword.
    #[inline(never)]
    fn step_wide(&mut self, at: u32, first: u16, places: u32) -> bool
        requires apart { IsApart (view_of self.old.window) }
        requires places { places ≡ code_places (view_of self.old.window) }
        requires here { at ≡ reg_at self.old.processor.regs program_counter }
        requires first { IsFetched (view_of self.old.window) at first }
        requires wide { 29 ≤ first / 2048 }
        ensures goes { result ≡ true → GoesOn (view_of self.old.window) self.old.processor
            (view_of self.new.window) self.new.processor }
        ensures halts { result ≡ false →
            Halts (step_effect (refused_by (view_of self.old.window))
            (held_by (view_of self.old.window)) self.old.processor) }
        ensures kept { result ≡ false → self.new ≡ self.old }
        ensures fixed { Keeps (view_of self.old.window) (view_of self.new.window) }
    {
        let Some(second) = self.window.code_half(at.wrapping_add(2), places) else {
            return false;
        };
        match decode(first, Some(second)) {
            Decoded::Wide(insn) => proceed(&mut self.processor, &insn, &mut self.window),
            _ => false,
        }
    }

    /// Executes at most `most` instructions one after another, as long as each is fetched from the
    /// stretch and goes on within the window. The result is how many it executed.
    pub fn glide(&mut self, most: u32) -> u32
        requires apart { IsApart (view_of self.old.window) }
        ensures glides { Glides (view_of self.old.window) self.old.processor result
            (view_of self.new.window) self.new.processor }
        ensures within { result ≤ most }

        // It stops earlier only if the next instruction is a system call, faults or accesses bytes
        // outside the window.
        ensures far { result < most → Halts
            (step_effect (refused_by (view_of self.new.window)) (held_by (view_of self.new.window))
            self.new.processor) }
        ensures fixed { Keeps (view_of self.old.window) (view_of self.new.window) }
    {
        let places = self.window.code_places();
        let mut left = most;
        'on: while left > 0 && self.step(places) {
            left -= 1;
        }
        most - left
    }
}

//! The processor of the current task while it has a window and, beside it, devices, some of which
//! the task may read.
ghost use Rattle.std.specs.Prelude.{◌≡◌, ◌/◌, ◌≤◌, ◌<◌, Some, MatchOption, true, false, []};
ghost use Rattle.words_core.specs.Regs.{reg_at, program_counter};
ghost use Rattle.region_check.specs.declared.Right.TheVariants.{Execute};
ghost use Rattle.thumb_exec.specs.Sizes.{IsSize};
ghost use Rattle.thumb_step.specs.Windows.{code_places, IsApart, Keeps, view_of};
ghost use Rattle.board_model.specs.Turn.{is_device};
ghost use Rattle.board_core.specs.Data.{data_of};
ghost use Rattle.board_core.specs.fast.Sights.{GoesOnBeside, Polls, IsAtLimit, IsRead, IsFetchedAt, in_io_region, refused_at, held_at};
ghost use Rattle.board_core.specs.fast.Gliding.{TellsCall};
ghost use Rattle.board_core.specs.fast.Polling.{sight_of, Did, IsPut, IsTaken, HasPolled};

use crate::fast_path::glider::{is_apart, no_context, no_window};
use crate::list::Devices;
use crate::space::is_device;
use mem_banks::WindowUser;
use region_check::{Region, Right};
use std::alloc::Global;
use std::mem::swap;
use thumb_decode::{Taker, decode, narrow_to};
use thumb_exec::bus::Bus;
use thumb_exec::cpu::Cpu;
use thumb_exec::step::proceed;
use thumb_insn::{Decoded, Insn};
use thumb_step::Window;
use words_core::PROGRAM_COUNTER;

/// What a task sees if it may read devices: a window and, beside it, the devices.
#[derive(Drop)]
pub struct Seen {
    pub window: Window,
    pub devices: Devices,

    /// The regions of devices that the task may read.
    pub io_regions: Vec<Region>,
}

/// A processor that makes instructions one after another over a window and the devices. Between two
/// uses it has no devices and no I/O regions, and its window has no bytes.
#[derive(Drop)]
pub struct Poller {
    pub processor: Cpu,
    pub seen: Seen,

    /// How many instructions it may make at most, and how many it made.
    pub most: u32,
    pub made: u32,

    /// Whether the next instruction is a system call, if fewer were made.
    pub at_syscall: bool,
}

impl Seen {
    /// Whether one of the I/O regions has all of n bytes.
    #[inline(always)]
    fn in_io_region(&self, addr: u32, n: u32) -> bool
        ensures { result ≡ in_io_region self.now.io_regions.items addr n }
    {
        self.io_regions.iter().any(|port| port.spans(addr, n))
    }

    /// A load at a device address.
    #[inline(never)]
    fn load_device(&self, addr: u32, n: u32) -> Result<u32, u32>
        requires size { IsSize n }
        requires there { is_device addr ≡ true }
        ensures { IsRead (sight_of shown self.now) addr n result }
    {
        if !self.in_io_region(addr, n) {
            return Err(addr);
        }
        match self.devices.number(addr, n) {
            Some(value) => Ok(value),
            None => Ok(0),
        }
    }

    /// The halfword at an address, if it may be executed. `places` is how many places the stretch
    /// of the window has for a halfword.
    #[inline(always)]
    fn code_half(&self, addr: u32, places: u32) -> Option<u16>
        requires apart { IsApart (view_of self.now.window) }
        requires places { places ≡ code_places (view_of self.now.window) }
        ensures { MatchOption result (refused_at (sight_of shown self.now) addr 2 Execute ≡ Some
            addr) (λ half. IsFetchedAt (sight_of shown self.now) addr half) }
    {
        if is_device(addr) {
            return None;
        }
        self.window.code_half(addr, places)
    }
}

impl Bus for Seen {
    ghost refuses = { λ p a n r. refused_at (sight_of (λ b. (Device-box b).shown b.value) p) a n
        r };

    ghost holds = { λ p a n. held_at (sight_of (λ b. (Device-box b).shown b.value) p) a n };

    ghost stored = { λ p a n v q. IsPut p a n v q };

    ghost took = { λ p a q. IsTaken (λ b. (Device-box b).shown b.value) p a q };

    fn allows(&self, addr: u32, n: u32, right: Right) -> Option<u32> {
        if !is_device(addr) {
            return self.window.allows(addr, n, right);
        }
        match right {
            Right::Read if self.in_io_region(addr, n) => None,
            _ => Some(addr),
        }
    }

    #[inline(always)]
    fn fetch(&self, addr: u32) -> Result<u16, u32> {
        if is_device(addr) {
            return Err(addr);
        }
        self.window.fetch(addr)
    }

    #[inline(always)]
    fn load(&self, addr: u32, n: u32) -> Result<u32, u32> {
        if is_device(addr) {
            return self.load_device(addr, n);
        }
        self.window.load(addr, n)
    }

    #[inline(always)]
    fn store(&mut self, addr: u32, n: u32, value: u32) -> Result<(), u32> {
        if is_device(addr) {
            return Err(addr);
        }
        self.window.store(addr, n, value)
    }

    #[inline(always)]
    fn taken(&mut self, addr: u32) {
        if is_device(addr) {
            self.devices.taken(addr);
        }
    }

    /// There are devices, or the poller would not be used.
    #[inline(always)]
    fn takes(&self) -> bool {
        true
    }

    /// Loads of several words are made one word at a time.
    #[inline(always)]
    fn gives(&self, _addr: u32, _count: u32, _right: Right) -> bool {
        false
    }
}

impl Taker for Poller {
    ghost did = { λ a d r b. Did (λ x. (Device-box x).shown x.value) a d r b };

    #[inline(always)]
    fn take(&mut self, h: u16, insn: Insn) -> bool {
        proceed(&mut self.processor, &insn, &mut self.seen)
    }

    #[inline(always)]
    fn illegal(&mut self) -> bool {
        false
    }

    #[inline(always)]
    fn needs_second(&mut self) -> bool {
        false
    }
}

impl Poller {
    /// A poller that has never had a window.
    pub fn new(alloc: Global) -> Poller
        ensures devices { data_of shown result.seen.devices ≡ [] }
        ensures io_regions { result.seen.io_regions.items ≡ [] }
        ensures none { result.made ≡ 0 }
    {
        Poller {
            processor: no_context(),
            seen: Seen {
                window: no_window(alloc),
                devices: Devices::of(Vec::new(alloc)),
                io_regions: Vec::new(alloc),
            },
            most: 0,
            made: 0,
            at_syscall: false,
        }
    }

    /// Makes one instruction over the window and the devices. If it cannot go on, nothing changes
    /// and the result is false.
    #[inline(always)]
    fn step(&mut self, places: u32) -> bool
        requires apart { IsApart (view_of self.old.seen.window) }
        requires places { places ≡ code_places (view_of self.old.seen.window) }
        ensures goes { result ≡ true → GoesOnBeside (sight_of shown self.old.seen)
            self.old.processor (sight_of shown self.new.seen) self.new.processor }
        ensures halts { result ≡ false →
            IsAtLimit (sight_of shown self.old.seen) self.old.processor }
        ensures kept { result ≡ false → self.new ≡ self.old }
        ensures fixed { Keeps (view_of self.old.seen.window) (view_of self.new.seen.window) }
        ensures io_regions { self.new.seen.io_regions ≡ self.old.seen.io_regions }
    {
        let at = self.processor.regs.get(PROGRAM_COUNTER);
        let Some(first) = self.seen.code_half(at, places) else {
            return false;
        };
        if narrow_to(first, self) {
            return true;
        }
        // Wide instructions are rare. The test for them is here for speed, as in a runner.
        if first / 2048 >= 29 {
            return self.step_wide(at, first, places);
        }
        false
    }

    /// The same, if this first halfword begins a wide instruction.
    #[inline(never)]
    fn step_wide(&mut self, at: u32, first: u16, places: u32) -> bool
        requires apart { IsApart (view_of self.old.seen.window) }
        requires places { places ≡ code_places (view_of self.old.seen.window) }
        requires here { at ≡ reg_at self.old.processor.regs program_counter }
        requires first { IsFetchedAt (sight_of shown self.old.seen) at first }
        requires wide { 29 ≤ first / 2048 }
        ensures goes { result ≡ true → GoesOnBeside (sight_of shown self.old.seen)
            self.old.processor (sight_of shown self.new.seen) self.new.processor }
        ensures halts { result ≡ false →
            IsAtLimit (sight_of shown self.old.seen) self.old.processor }
        ensures kept { result ≡ false → self.new ≡ self.old }
        ensures fixed { Keeps (view_of self.old.seen.window) (view_of self.new.seen.window) }
        ensures io_regions { self.new.seen.io_regions ≡ self.old.seen.io_regions }
    {
        let Some(second) = self.seen.code_half(at.wrapping_add(2), places) else {
            return false;
        };
        match decode(first, Some(second)) {
            Decoded::Wide(insn) => proceed(&mut self.processor, &insn, &mut self.seen),
            _ => false,
        }
    }

    /// Makes instructions one after another, at most `most`, as long as each goes on. Returns how
    /// many it made.
    #[inline(never)]
    fn run(&mut self, most: u32) -> u32
        requires apart { IsApart (view_of self.old.seen.window) }
        ensures polls { Polls (sight_of shown self.old.seen) self.old.processor result
            (sight_of shown self.new.seen) self.new.processor }
        ensures within { result ≤ most }
        ensures far { result < most → IsAtLimit (sight_of shown self.new.seen) self.new.processor }
        ensures fixed { Keeps (view_of self.old.seen.window) (view_of self.new.seen.window) }
        ensures io_regions { self.new.seen.io_regions ≡ self.old.seen.io_regions }
    {
        let places = self.seen.window.code_places();
        let mut left = most;
        'on: while left > 0 && self.step(places) {
            left -= 1;
        }
        most - left
    }

    /// Makes the instructions, if the stretch lies within the flash, and the flash below the RAM.
    fn glide(&mut self) -> u32
        ensures polls { Polls (sight_of shown self.old.seen) self.old.processor result
            (sight_of shown self.new.seen) self.new.processor }
        ensures within { result ≤ self.old.most }
        ensures far { IsApart (view_of self.old.seen.window) → result < self.old.most →
            IsAtLimit (sight_of shown self.new.seen) self.new.processor }
        ensures fixed { Keeps (view_of self.old.seen.window) (view_of self.new.seen.window) }
        ensures io_regions { self.new.seen.io_regions ≡ self.old.seen.io_regions }
        ensures tells { TellsCall self.old.most result (view_of self.old.seen.window)
            (view_of self.new.seen.window) self.new.processor self.new.at_syscall }
    {
        if !is_apart(&self.seen.window) {
            self.at_syscall = false;
            return 0;
        }
        let most = self.most;
        let made = self.run(most);
        self.at_syscall = made < most && self.seen.window.is_at_syscall(&self.processor);
        made
    }
}

impl WindowUser for Poller {
    ghost did = { λ a flash ram area second b after area_after second_after. HasPolled
        (λ b. (Device-box b).shown b.value) a flash ram area second b after area_after
        second_after };

    fn work(
        &mut self,
        flash: &mut Vec<u8>,
        ram: &mut Vec<u8>,
        area: &mut Vec<u8>,
        second: &mut Vec<u8>,
    ) {
        swap(&mut self.seen.window.flash, flash);
        swap(&mut self.seen.window.ram, ram);
        swap(&mut self.seen.window.area, area);
        swap(&mut self.seen.window.second, second);
        self.made = self.glide();
        swap(&mut self.seen.window.second, second);
        swap(&mut self.seen.window.area, area);
        swap(&mut self.seen.window.ram, ram);
        swap(&mut self.seen.window.flash, flash);
    }
}

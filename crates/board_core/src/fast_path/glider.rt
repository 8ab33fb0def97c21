//! The processor of the current task, which can have a window: the bytes of four of the task's
//! regions.
ghost use Rattle.std.specs.Prelude.{◌≡◌, ◌≤◌, ◌<◌, true, false, length, replicate, []};
ghost use Rattle.thumb_step.specs.Windows.{Glides, IsApart, Keeps, IsAtSyscall, is_at_syscall, view_of};
ghost use Rattle.board_core.specs.fast.Gliding.{HasWorked, IsLast, TellsCall};

use crate::fast_path::breakpoints::Stretch;
use mem_banks::WindowUser;
use region_check::Region;
use std::alloc::Global;
use std::mem::swap;
use thumb_exec::cpu::Cpu;
use thumb_exec::lazy_flags::LazyFlags;
use thumb_step::{Runner, Window};
use words_core::{Flags, Regs};

/// A processor that makes instructions one after another while it has a window: the bytes of one
/// region of flash and of three of RAM. Between two uses its window has no bytes.
#[derive(Drop)]
pub struct Glider {
    pub runner: Runner,

    /// How many instructions it may make at most, and how many it made.
    pub most: u32,
    pub made: u32,

    /// Whether the next instruction is a system call, if fewer were made.
    pub at_syscall: bool,
}

/// Whether the stretch of a window lies within its flash, and the flash below its RAM.
#[inline(always)]
pub fn is_apart(window: &Window) -> bool
    ensures apart { result ≡ true → IsApart (view_of window.now) }
    ensures otherwise { result ≡ false → IsApart (view_of window.now) → ⊥ }
{
    let end = window.flash_base as usize + window.flash.len();
    window.code_base >= window.flash_base
        && window.code_base as usize + window.code_size as usize <= end
        && end <= window.ram_base as usize
}

/// A processor that has no task's context yet.
pub fn no_context() -> Cpu
    ensures registers { result.regs.words ≡ replicate 16 0 }
    ensures flags { result.flags ≡ record { n = false; z = false; c = false; v = false } }
{
    let flags = Flags {
        n: false,
        z: false,
        c: false,
        v: false,
    };
    Cpu {
        regs: Regs::of([0; 16]),
        flags: LazyFlags::of(flags),
    }
}

/// A window that has no bytes.
pub fn no_window(alloc: Global) -> Window
    ensures flash { result.flash.items ≡ [] }
    ensures ram { result.ram.items ≡ [] }
    ensures area { result.area.items ≡ [] }
    ensures second { result.second.items ≡ [] }
{
    Window {
        flash: Vec::new(alloc),
        flash_base: 0,
        readable: false,
        code_base: 0,
        code_size: 0,
        ram: Vec::new(alloc),
        ram_base: 0,
        area: Vec::new(alloc),
        area_base: 0,
        area_writable: false,
        second: Vec::new(alloc),
        second_base: 0,
        second_writable: false,
    }
}

/// Aims a window at these four regions. Instructions are fetched from a stretch of the first one.
#[inline(always)]
pub fn aim_window(
    window: &mut Window,
    flash: &Region,
    code: Stretch,
    ram: &Region,
    area: &Region,
    second: &Region,
)
    ensures flash { window.new.flash_base ≡ flash.now.base }
    ensures readable { window.new.readable ≡ flash.now.rights.read }
    ensures code { window.new.code_base ≡ code.base }
    ensures size { window.new.code_size ≡ code.size }
    ensures ram { window.new.ram_base ≡ ram.now.base }
    ensures area { window.new.area_base ≡ area.now.base }
    ensures writable { window.new.area_writable ≡ area.now.rights.write }
    ensures second { window.new.second_base ≡ second.now.base }
    ensures second_writable { window.new.second_writable ≡ second.now.rights.write }
{
    window.flash_base = flash.base;
    window.readable = flash.rights.read;
    window.code_base = code.base;
    window.code_size = code.size;
    window.ram_base = ram.base;
    window.area_base = area.base;
    window.area_writable = area.rights.write;
    window.second_base = second.base;
    window.second_writable = second.rights.write;
}

impl Glider {
    /// A glider that has never had a window.
    pub fn new(alloc: Global) -> Glider
        ensures flash { result.runner.window.flash.items ≡ [] }
        ensures ram { result.runner.window.ram.items ≡ [] }
        ensures area { result.runner.window.area.items ≡ [] }
        ensures second { result.runner.window.second.items ≡ [] }
        ensures none { result.made ≡ 0 }
    {
        Glider {
            runner: Runner {
                processor: no_context(),
                window: no_window(alloc),
            },
            most: 0,
            made: 0,
            at_syscall: false,
        }
    }

    /// Prepares for at most this many instructions within these four regions, each fetched from a
    /// stretch of the first one.
    pub fn aim(
        &mut self,
        flash: &Region,
        code: Stretch,
        ram: &Region,
        area: &Region,
        second: &Region,
        most: u32,
    )
        ensures processor { self.new.runner.processor ≡ self.old.runner.processor }
        ensures flash { self.new.runner.window.flash_base ≡ flash.now.base }
        ensures readable { self.new.runner.window.readable ≡ flash.now.rights.read }
        ensures code { self.new.runner.window.code_base ≡ code.base }
        ensures size { self.new.runner.window.code_size ≡ code.size }
        ensures ram { self.new.runner.window.ram_base ≡ ram.now.base }
        ensures area { self.new.runner.window.area_base ≡ area.now.base }
        ensures writable { self.new.runner.window.area_writable ≡ area.now.rights.write }
        ensures second { self.new.runner.window.second_base ≡ second.now.base }
        ensures second_writable { self.new.runner.window.second_writable ≡ second.now.rights.write }
        ensures most { self.new.most ≡ most }
    {
        aim_window(&mut self.runner.window, flash, code, ram, area, second);
        self.most = most;
    }

    /// Makes the instructions, if the stretch lies within the flash, and the flash below the RAM.
    fn glide(&mut self) -> u32
        ensures glides { Glides (view_of self.old.runner.window) self.old.runner.processor result
            (view_of self.new.runner.window) self.new.runner.processor }
        ensures within { result ≤ self.old.most }
        ensures far { IsApart (view_of self.old.runner.window) → result < self.old.most →
            IsLast (view_of self.new.runner.window) self.new.runner.processor }
        ensures fixed { Keeps (view_of self.old.runner.window) (view_of self.new.runner.window) }
        ensures most { self.new.most ≡ self.old.most }
        ensures tells { TellsCall self.old.most result (view_of self.old.runner.window)
            (view_of self.new.runner.window) self.new.runner.processor self.new.at_syscall }
    {
        if !is_apart(&self.runner.window) {
            self.at_syscall = false;
            return 0;
        }
        self.run()
    }

    /// The same, when this is known. It is a function of its own, so that LLVM puts the runner's
    /// loop into it.
    #[inline(never)]
    fn run(&mut self) -> u32
        requires apart { IsApart (view_of self.old.runner.window) }
        ensures glides { Glides (view_of self.old.runner.window) self.old.runner.processor result
            (view_of self.new.runner.window) self.new.runner.processor }
        ensures within { result ≤ self.old.most }
        ensures far { result < self.old.most →
            IsLast (view_of self.new.runner.window) self.new.runner.processor }
        ensures fixed { Keeps (view_of self.old.runner.window) (view_of self.new.runner.window) }
        ensures most { self.new.most ≡ self.old.most }

        // If it says that it stopped at a system call, it did; and it says so whenever it did.
        ensures short { self.new.at_syscall ≡ true → result < self.old.most }
        ensures calls { self.new.at_syscall ≡ true →
            IsAtSyscall (view_of self.new.runner.window) self.new.runner.processor }
        ensures told { result < self.old.most →
            self.new.at_syscall ≡ is_at_syscall (view_of self.new.runner.window)
            self.new.runner.processor }
    {
        let made = self.runner.glide(self.most);
        self.at_syscall = made < self.most
            && self.runner.window.is_at_syscall(&self.runner.processor);
        made
    }

    /// Makes the instructions when the window has flash and RAM, with these two areas. Most tasks
    /// have no areas. The window's own are then emptied, which is one store each, while two swaps
    /// are twelve.
    #[inline(always)]
    fn work_beside(&mut self, area: &mut Vec<u8>, second: &mut Vec<u8>)
        ensures did { HasWorked self.old self.old.runner.window.flash.items
            self.old.runner.window.ram.items area.old.items second.old.items self.new
            self.new.runner.window.ram.items area.new.items second.new.items }
        ensures flash { self.new.runner.window.flash.items ≡ self.old.runner.window.flash.items }
        ensures length { length self.new.runner.window.ram.items ≡ length
            self.old.runner.window.ram.items }
        ensures area { length area.new.items ≡ length area.old.items }
        ensures second { length second.new.items ≡ length second.old.items }
    {
        if area.is_empty() && second.is_empty() {
            self.runner.window.area.clear();
            self.runner.window.second.clear();
            self.made = self.glide();
            return;
        }
        swap(&mut self.runner.window.area, area);
        swap(&mut self.runner.window.second, second);
        self.made = self.glide();
        swap(&mut self.runner.window.second, second);
        swap(&mut self.runner.window.area, area);
    }
}

impl WindowUser for Glider {
    ghost did = { λ a flash ram area second b after area_after second_after. HasWorked a flash ram
        area second b after area_after second_after };

    #[inline(always)]
    fn work(
        &mut self,
        flash: &mut Vec<u8>,
        ram: &mut Vec<u8>,
        area: &mut Vec<u8>,
        second: &mut Vec<u8>,
    ) {
        swap(&mut self.runner.window.flash, flash);
        swap(&mut self.runner.window.ram, ram);
        self.work_beside(area, second);
        swap(&mut self.runner.window.ram, ram);
        swap(&mut self.runner.window.flash, flash);
    }
}

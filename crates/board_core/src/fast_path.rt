//! Instructions of the chosen task one after another: the fast path.
ghost use Rattle.std.specs.Prelude.{◌≡◌, ◌≤◌, ◌<◌, [], length, true, false};
ghost use Rattle.task_table.specs.model.State.{Setup, Turn};
ghost use Rattle.task_table.specs.model.Reading.{is_ready};
ghost use Rattle.task_table.specs.kept.Holds.{task_count, note_count};
ghost use Rattle.board_core.specs.Machine.{MachineHolds, HasContext};
ghost use Rattle.board_core.specs.fast.Gliding.{GlidesFrom};
ghost use Rattle.board_core.specs.fast.Stops.{stops_at};

pub mod breakpoints;
pub mod glider;
pub mod poller;
pub mod regions;

use crate::fast_path::breakpoints::stretch_of;
use crate::fast_path::glider::aim_window;
use crate::machine::{Machine, load};
use region_check::Region;
use std::mem::swap;
use words_core::{PROGRAM_COUNTER, STACK_POINTER};

/// How many instructions a task made one after another, and whether the next one is known to be a
/// system call.
#[derive(Clone, Copy)]
pub struct Glided {
    pub made: u32,
    pub at_syscall: bool,
}

/// No instructions. It is cold, so that the path that goes on does not prepare for it.
#[cold]
#[inline(never)]
fn none_made() -> Glided
    ensures made { result.made ≡ 0 }
    ensures call { result.at_syscall ≡ false }
{
    Glided {
        made: 0,
        at_syscall: false,
    }
}

impl Machine {
    /// Gives the processor a task's context. The task becomes the current one only when it has run.
    #[inline(always)]
    fn take_context(&mut self, task: usize)
        requires { task < task_count self.old.space.kernel }
        ensures holds { (g : Setup) (t : Turn) → MachineHolds shown g self.old t →
            MachineHolds shown g self.new t }
        ensures taken { (g : Setup) (t : Turn) → MachineHolds shown g self.old t →
            task < length t.state.tasks → is_ready t.state task ≡ true →
            HasContext shown g self.new task t }
        ensures tasks { task_count self.new.space.kernel ≡ task_count self.old.space.kernel }
        ensures count { note_count self.new.space.kernel ≡ note_count self.old.space.kernel }
    {
        if !self.is_loaded_for(task) {
            self.save_context();
            load(&mut self.glider.runner.processor, &self.space.kernel, task);
        }
    }

    /// Makes at most this many instructions of a task, within a window of its memory. None of them
    /// is at a breakpoint, and the window does not have the watched byte. If there were any, the
    /// task is the current one. `poll` is for tasks that may read devices.
    #[inline(always)]
    pub fn glide(
        &mut self,
        breakpoints: &[u32],
        watched: Option<u32>,
        task: usize,
        most: u32,
    ) -> Glided
        requires { task < task_count self.old.space.kernel }
        ensures glided { GlidesFrom shown (stops_at breakpoints.now watched) [] task most self.old
            self.new result.made result.at_syscall }
        ensures within { result.made ≤ most }
        ensures count { note_count self.new.space.kernel ≡ note_count self.old.space.kernel }
    {
        self.take_context(task);
        let pc = self.glider.runner.processor.regs.get(PROGRAM_COUNTER);
        let sp = self.glider.runner.processor.regs.get(STACK_POINTER);
        let Some(regions) = self.space.window(task, pc, sp, watched) else {
            return none_made();
        };
        let code = stretch_of(breakpoints, &regions.flash, pc);
        self.glider.aim(
            &regions.flash,
            code,
            &regions.ram,
            &regions.area,
            &regions.second,
            most,
        );
        if !self.space.kernel.open_window(
            &regions.flash,
            &regions.ram,
            &regions.area,
            &regions.second,
            &mut self.glider,
        ) {
            return none_made();
        }
        let made = self.glider.made;
        let glided = Glided {
            made,
            at_syscall: self.glider.at_syscall,
        };
        if made == 0 {
            return glided;
        }
        self.space.kernel.set_current(task);
        self.loaded = true;
        glided
    }

    /// The same for a task that may read devices, through these regions: its instructions stay
    /// within a window of its memory, or over it and the devices. Few tasks have a device, so this
    /// is a function of its own.
    #[cold]
    #[inline(never)]
    pub fn poll(
        &mut self,
        breakpoints: &[u32],
        watched: Option<u32>,
        task: usize,
        most: u32,
        io_regions: &mut Vec<Region>,
    ) -> Glided
        requires { task < task_count self.old.space.kernel }
        ensures glided { GlidesFrom shown (stops_at breakpoints.now watched) io_regions.old.items
            task most self.old self.new result.made result.at_syscall }
        ensures within { result.made ≤ most }
        ensures count { note_count self.new.space.kernel ≡ note_count self.old.space.kernel }
        ensures io_regions { io_regions.new ≡ io_regions.old }
    {
        self.take_context(task);
        let pc = self.glider.runner.processor.regs.get(PROGRAM_COUNTER);
        let sp = self.glider.runner.processor.regs.get(STACK_POINTER);
        let Some(regions) = self.space.window(task, pc, sp, watched) else {
            return none_made();
        };
        let code = stretch_of(breakpoints, &regions.flash, pc);
        aim_window(
            &mut self.poller.seen.window,
            &regions.flash,
            code,
            &regions.ram,
            &regions.area,
            &regions.second,
        );
        self.poller.most = most;
        self.poller.processor = self.glider.runner.processor.copied();
        swap(&mut self.poller.seen.devices, &mut self.space.devices);
        swap(&mut self.poller.seen.io_regions, io_regions);
        let opened = self.space.kernel.open_window(
            &regions.flash,
            &regions.ram,
            &regions.area,
            &regions.second,
            &mut self.poller,
        );
        swap(&mut self.poller.seen.io_regions, io_regions);
        swap(&mut self.poller.seen.devices, &mut self.space.devices);
        if !opened {
            return none_made();
        }
        self.glider.runner.processor = self.poller.processor.copied();
        let glided = Glided {
            made: self.poller.made,
            at_syscall: self.poller.at_syscall,
        };
        if glided.made == 0 {
            return glided;
        }
        self.space.kernel.set_current(task);
        self.loaded = true;
        glided
    }
}

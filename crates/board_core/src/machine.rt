//! The kernel as the bus of its current task, and one instruction of that task.
ghost use Rattle.std.specs.Prelude.{◌≡◌, ◌≢◌, ◌⊎◌, ◌+◌, ◌*◌, ◌≤◌, ◌<◌, ◌^◌, Option, Some, true, false, fold, take, drop, slice_get, None};
ghost use Rattle.run_script.specs.Events.{script_data};
ghost use Rattle.run_script.specs.Scripts.{IsFirstListed, events_of};
ghost use Rattle.task_table.specs.model.State.{Setup, Turn};
ghost use Rattle.task_table.specs.model.Reading.{is_ready, task_at};
ghost use Rattle.task_table.specs.model.Start.{begun};
ghost use Rattle.task_table.specs.model.Effects.{faulted};
ghost use Rattle.task_table.specs.model.Rows.{syscall_noted};
ghost use Rattle.task_table.specs.model.Syscalls.{syscall_made};
ghost use Rattle.task_table.specs.kept.Holds.{Holds, task_count, note_count, current_of};
ghost use Rattle.task_table.specs.kept.Limits.{syscall_notes, turn_notes};
ghost use Rattle.task_table.specs.kept.Frames.{AddsNotes};
ghost use Rattle.thumb_insn.specs.Range.{IsCoded};
ghost use Rattle.board_model.specs.Turn.{with_current, noted_at, happened, stepped, executed, cpu_of, with_registers_noted, turn_of, turned_of, happened_next};
ghost use Rattle.board_core.specs.Machine.{IsReady, IsNext, SpaceHolds, MachineHolds, MachineStands, IsLoaded, MayAct, HasActed, MayTurn};
ghost use Rattle.board_core.specs.fast.Windowed.{IsCalling};

use crate::asking::asked;
use crate::fast_path::glider::Glider;
use crate::fast_path::poller::Poller;
use crate::list::Devices;
use crate::space::AddressSpace;
use crate::syscalls::syscall;
use board_model::{Level, Turned};
use kernel_abi::{Fault, Note};
use run_script::{Event, Script};
use std::alloc::Global;
use task_table::Kernel;
use thumb_exec::cpu::{Cpu, Outcome};
use thumb_exec::lazy_flags::LazyFlags;
use thumb_exec::step::exec;
use thumb_insn::Insn;
use thumb_step::fetch;
use timer_irq::{drive, interrupt, tick};
use words_core::{Flags, PROGRAM_COUNTER, Regs};

/// A kernel and a processor, which is the glider's. While the context of the current task is
/// loaded, the processor has that task's registers and flags, and the kernel's copy of them is out
/// of date.
#[derive(Drop)]
pub struct Machine {
    pub space: AddressSpace,
    pub loaded: bool,

    /// The processor, which can make instructions one after another within a window of the task's
    /// memory.
    pub glider: Glider,

    /// Makes them for tasks that may read devices.
    pub poller: Poller,
}

/// Gives a processor the kernel's registers and flags of a task. They are written in place, not
/// through a copy.
#[inline(always)]
pub fn load(processor: &mut Cpu, kernel: &Kernel, task: usize)
    requires { task < task_count kernel.now }
    ensures { (g : Setup) (t : Turn) → Holds g kernel.now t →
        processor.new ≡ cpu_of (task_at t.state task) }
{
    processor.regs = Regs::of(kernel.registers(task));
    processor.flags = LazyFlags::of(kernel.flags(task));
}

impl Machine {
    /// A machine with this kernel and these devices, whose processor has no task's context.
    pub fn of(alloc: Global, kernel: Kernel, devices: Devices) -> Machine
        ensures kernel { result.space.kernel ≡ kernel }
        ensures devices { result.space.devices ≡ devices }
        ensures loaded { result.loaded ≡ false }
    {
        Machine {
            space: AddressSpace { kernel, devices },
            loaded: false,
            glider: Glider::new(alloc),
            poller: Poller::new(alloc),
        }
    }

    /// Gives the kernel the registers and flags of the current task again. This comes before the
    /// kernel acts.
    pub fn save_context(&mut self)
        ensures holds { (g : Setup) (t : Turn) → MachineHolds shown g self.old t →
            SpaceHolds shown g self.new.space t }
        ensures unloaded { self.new.loaded ≡ false }
        ensures frame { AddsNotes self.old.space.kernel 0 self.new.space.kernel }
    {
        if self.loaded {
            let task = self.space.kernel.current();
            let processor = &self.glider.runner.processor;
            self.space
                .kernel
                .set_processor(task, processor.regs.words(), processor.flags.told());
            self.loaded = false;
        }
    }

    /// Whether the processor has this task's context.
    pub fn is_loaded_for(&self, task: usize) -> bool
        ensures loaded { result ≡ true → self.now.loaded ≡ true }
        ensures current { result ≡ true → current_of self.now.space.kernel ≡ task }
        ensures other { result ≡ false → (self.now.loaded ≡ false)
            ⊎ (current_of self.now.space.kernel ≢ task) }
    {
        if self.loaded {
            self.space.kernel.current() == task
        } else {
            false
        }
    }

    /// Makes the task the current one, and gives the processor its context.
    fn load_context(&mut self, task: usize)
        requires { task < task_count self.old.space.kernel }
        ensures loaded { self.new.loaded ≡ true }
        ensures holds { (g : Setup) (t : Turn) → MachineHolds shown g self.old t →
            is_ready t.state task ≡ true →
            IsLoaded shown g self.new.space self.new.glider.runner.processor (with_current task t) }
        ensures count { note_count self.new.space.kernel ≡ note_count self.old.space.kernel }
    {
        if self.is_loaded_for(task) {
            return;
        }
        self.save_context();
        self.space.kernel.set_current(task);
        load(&mut self.glider.runner.processor, &self.space.kernel, task);
        self.loaded = true;
    }
}

impl Machine {
    /// Begins a turn: the notes of the last one are dropped.
    #[inline(always)]
    pub fn begin(&mut self)
        ensures holds { (g : Setup) (t : Turn) → MachineHolds shown g self.old t →
            MachineHolds shown g self.new (begun t.state) }
        ensures count { note_count self.new.space.kernel ≡ 0 }
        ensures loaded { self.new.loaded ≡ self.old.loaded }
    {
        self.space.kernel.clear_notes();
    }

    /// Lets an event from outside happen.
    fn happen(&mut self, event: Event)
        requires stands { (g : Setup) × (t : Turn) × MachineStands shown g self.old t
            × (t.state.now + 1 < 2 ^ 64) }
        requires room { note_count self.old.space.kernel + syscall_notes ≤ turn_notes }
        ensures stands { (g : Setup) (t : Turn) → MachineStands shown g self.old t →
            MachineStands shown g self.new (happened g t event) }
        ensures count { note_count self.new.space.kernel ≤ note_count self.old.space.kernel +
            syscall_notes }
    {
        self.save_context();
        match event {
            Event::Tick => tick(&mut self.space.kernel),
            Event::Irq { line } => interrupt(&mut self.space.kernel, line),
            Event::Feed { device, byte } => {
                let fed = self.space.devices.feed(usize::from(device), byte);
                self.space.kernel.note(Note::In { device, byte, fed });
                let asked = asked(&self.space.kernel, &self.space.devices);
                drive(&mut self.space.kernel, &asked);
            }
        }
    }

    /// Lets the k-th event of a turn happen; false if there is none.
    fn happen_at(&mut self, script: &Script, first: usize, turn: u32, k: u32) -> bool
        requires first { IsFirstListed (script_data script.now) turn first }
        requires stands { (g : Setup) × (t : Turn) × MachineStands shown g self.old t
            × (t.state.now + 1 < 2 ^ 64) }
        requires room { note_count self.old.space.kernel + syscall_notes ≤ turn_notes }
        ensures stands { (g : Setup) (t : Turn) → MachineStands shown g self.old t →
            MachineStands shown g self.new
            (happened_next g (slice_get (events_of (script_data script.now) turn) k) t) }
        ensures count { note_count self.new.space.kernel ≤ note_count self.old.space.kernel +
            syscall_notes }
        ensures over { result ≡ false →
            slice_get (events_of (script_data script.now) turn) k ≡ None }
    {
        match script.event_from(first, turn, k) {
            None => false,
            Some(event) => {
                self.happen(event);
                true
            }
        }
    }

    /// Lets everything happen that comes from outside in a turn, in the order of the script.
    pub fn happen_all(&mut self, script: &Script, first: usize, turn: u32)
        requires first { IsFirstListed (script_data script.now) turn first }
        requires stands { (g : Setup) × (t : Turn) × MachineStands shown g self.old t
            × (t.state.now + 9 < 2 ^ 64) }
        requires room { note_count self.old.space.kernel ≡ 0 }
        ensures stands { (g : Setup) (t : Turn) → MachineStands shown g self.old t →
            MachineStands shown g self.new
            (fold (happened g) t (events_of (script_data script.now) turn)) }
        ensures count { note_count self.new.space.kernel ≤ 9 * syscall_notes }
    {
        script.facts();
        for k in 0..9 {
            if !self.happen_at(script, first, turn, k) {
                return;
            }
        }
    }
}

/// The note of the registers r0 to r7.
fn low_note(registers: &[u32; 16]) -> Note
    ensures { result ≡ Note.Low (take 8 registers.now) }
{
    let r = registers;
    Note::Low {
        registers: [r[0], r[1], r[2], r[3], r[4], r[5], r[6], r[7]],
    }
}

/// The note of the registers r8 to r15 and of the flags.
fn high_note(registers: &[u32; 16], flags: Flags) -> Note
    ensures { result ≡ Note.High (drop 8 registers.now) flags.n flags.z flags.c flags.v }
{
    let r = registers;
    Note::High {
        registers: [r[8], r[9], r[10], r[11], r[12], r[13], r[14], r[15]],
        n: flags.n,
        z: flags.z,
        c: flags.c,
        v: flags.v,
    }
}

impl Machine {
    /// Notes the instruction of the current task, if the level is that of all instructions.
    #[inline(always)]
    fn note_insn(&mut self, level: Level, at: u32, code: u32)
        requires { note_count self.old.space.kernel < turn_notes }
        ensures ready { (g : Setup) (t : Turn) → IsReady shown g self.old t →
            IsReady shown g self.new (noted_at level (Note.Insn t.state.current at code) t) }
        ensures count { note_count self.new.space.kernel ≤ note_count self.old.space.kernel + 1 }
    {
        match level {
            Level::Calls => {}
            Level::All => {
                let task = self.space.kernel.current() as u16;
                self.space.kernel.note(Note::Insn { task, at, code });
            }
        }
    }

    /// Notes an idle turn, if the level is that of all instructions.
    fn note_idle(&mut self, level: Level)
        requires room { note_count self.old.space.kernel < turn_notes }
        ensures holds { (g : Setup) (t : Turn) → MachineHolds shown g self.old t →
            MachineHolds shown g self.new (noted_at level Note.Idle t) }
        ensures count { note_count self.new.space.kernel ≤ note_count self.old.space.kernel + 1 }
    {
        match level {
            Level::Calls => {}
            Level::All => self.space.kernel.note(Note::Idle),
        }
    }

    /// Notes the registers and flags of a task.
    fn note_registers(&mut self, task: usize)
        requires there { task < task_count self.old.space.kernel }
        requires room { note_count self.old.space.kernel + 2 ≤ turn_notes }
        ensures holds { (g : Setup) (t : Turn) → MachineHolds shown g self.old t →
            MachineHolds shown g self.new (with_registers_noted Level.All task t) }
        ensures count { note_count self.new.space.kernel ≤ note_count self.old.space.kernel + 2 }
    {
        self.save_context();
        let registers = self.space.kernel.registers(task);
        let flags = self.space.kernel.flags(task);
        self.space.kernel.note(low_note(&registers));
        self.space.kernel.note(high_note(&registers, flags));
    }

    /// Notes the registers and flags of the task that ran, if the level is that of all
    /// instructions.
    #[inline(always)]
    fn note_task(&mut self, level: Level, task: usize)
        requires there { task < task_count self.old.space.kernel }
        requires room { note_count self.old.space.kernel + 2 ≤ turn_notes }
        ensures holds { (g : Setup) (t : Turn) → MachineHolds shown g self.old t →
            MachineHolds shown g self.new (with_registers_noted level task t) }
        ensures count { note_count self.new.space.kernel ≤ note_count self.old.space.kernel + 2 }
    {
        match level {
            Level::Calls => {}
            Level::All => self.note_registers(task),
        }
    }
}

impl Machine {
    /// Executes one instruction of the current task: its effect on the task and on memory.
    fn execute(&mut self, insn: &Insn)
        requires coded { IsCoded insn.now }
        requires may_act { MayAct shown self.old (syscall_notes + 1) }
        ensures { HasActed shown (λ g i. executed g i insn.now) (syscall_notes + 1) self.old
            self.new }
    {
        match insn {
            Insn::Svc { .. } => self.syscall(),
            _ => self.execute_own(insn),
        }
    }

    /// The same for an instruction that is no system call.
    fn execute_own(&mut self, insn: &Insn)
        requires coded { IsCoded insn.now }
        requires may_act { MayAct shown self.old (syscall_notes + 1) }
        ensures { HasActed shown (λ g i. executed g i insn.now) (syscall_notes + 1) self.old
            self.new }
    {
        match exec(&mut self.glider.runner.processor, insn, &mut self.space) {
            Outcome::Next => {}
            Outcome::Call => self.syscall(),
            Outcome::Trap(fault) => self.fault(fault),
        }
    }

    /// The current task makes a system call.
    fn syscall(&mut self)
        requires { MayAct shown self.old (syscall_notes + 1) }
        ensures { HasActed shown (λ g i t. syscall_made g i (syscall_noted i t)) (syscall_notes + 1)
            self.old self.new }
    {
        self.save_context();
        let task = self.space.kernel.current();
        self.space.kernel.note_syscall(task);
        syscall(&mut self.space.kernel, &self.space.devices, task);
    }

    /// The current task faults.
    fn fault(&mut self, fault: Fault)
        requires from_one { 1 ≤ fault.number }
        requires to_ten { fault.number ≤ 10 }
        requires room { note_count self.old.space.kernel + 4 ≤ turn_notes }
        ensures { HasActed shown (λ g i. faulted g i fault) 4 self.old self.new }
    {
        self.save_context();
        let task = self.space.kernel.current();
        self.space.kernel.fault(task, fault);
    }

    /// Makes one instruction of the current task: fetches, decodes and executes it.
    #[inline(never)]
    pub fn step(&mut self, level: Level)
        requires { MayAct shown self.old (syscall_notes + 2) }
        ensures { HasActed shown (stepped level) (syscall_notes + 2) self.old self.new }
    {
        let at = self.glider.runner.processor.regs.get(PROGRAM_COUNTER);
        match fetch(&self.space, at) {
            Ok(fetched) => {
                self.note_insn(level, at, fetched.code);
                self.execute(&fetched.insn);
            }
            Err(fault) => self.fault(fault),
        }
    }
}

impl Machine {
    /// What the chosen task does after the events of the turn: one instruction, or nothing if no
    /// task is chosen.
    pub fn turn(&mut self, level: Level, next: Option<usize>) -> Turned
        requires { MayTurn shown self.old next }
        ensures holds { (g : Setup) (t : Turn) → IsNext shown g self.old t next →
            MachineHolds shown g self.new (turn_of level g next t) }
        ensures turned { (g : Setup) (t : Turn) → IsNext shown g self.old t next →
            result ≡ turned_of t.state next }
        ensures count { note_count self.new.space.kernel ≤ note_count self.old.space.kernel +
            syscall_notes + 4 }
    {
        match next {
            None => {
                self.note_idle(level);
                Turned::Idle
            }
            Some(task) => {
                self.load_context(task);
                let at = self.glider.runner.processor.regs.get(PROGRAM_COUNTER);
                self.step(level);
                self.note_task(level, task);
                Turned::Ran {
                    task: task as u16,
                    at,
                }
            }
        }
    }

    /// A turn of a task whose next instruction is known to be a system call, so that it is not
    /// fetched and decoded again.
    #[inline(always)]
    pub fn call(&mut self, task: usize)
        requires { MayTurn shown self.old (Some task) }
        ensures holds { (g : Setup) (t : Turn) → IsNext shown g self.old t (Some task) →
            IsCalling g task t.state → MachineHolds shown g self.new
            (turn_of Level.Calls g (Some task) t) }
        ensures count { note_count self.new.space.kernel ≤ note_count self.old.space.kernel +
            syscall_notes + 4 }
    {
        self.load_context(task);
        self.syscall();
    }
}

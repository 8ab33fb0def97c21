//! The kernel: its tasks, their memory, and the operations on them.
//!
//! Most clauses speak of each setup and each turn of the abstract kernel that this kernel holds.
//! They say what the answer is, or which turn the kernel holds afterwards.

ghost use Rattle.std.specs.Prelude.{◌≡◌, ◌<◌, ◌≤◌, length, map, vec_capacity};
ghost use Rattle.task_table.specs.kept.Limits.{most_tasks, board_lines, turn_notes};
ghost use Rattle.task_table.specs.kept.Parts.{task_setup};
ghost use Rattle.task_table.specs.kept.Order.{priorities_of, AreOrdered};
ghost use Rattle.task_table.specs.kept.Readiness.{is_free, AreThose, AreOffers};
ghost use Rattle.task_table.specs.kept.Deadlines.{AreTimed};
ghost use Rattle.task_table.specs.kept.Entries.{AreFresh, AreEntriesOf};
ghost use Rattle.task_table.specs.kept.Openable.{AreOpenable};

mod entries;
mod sets;
mod setting;
mod slots;
mod timers;
mod window;

use crate::Line;
use crate::entry::{KeptEntry, Watch, no_entries};
use crate::limits::{LINES, TURN_NOTES, WHEEL};
use crate::order::{Order, order_of};
use crate::readiness::{empty_sets, ready_tasks};
use crate::slot::{Found, Slot, Wait};
use crate::start::{LineStart, TaskStart, copies_of, first_slots};
use crate::task_set::TaskSet;
use kernel_abi::{Generation, Health, Note, TaskId, Timer};
use mem_banks::Memory;
use region_check::Region;
use std::alloc::{AllocError, Global};
use words_core::Flags;

/// The tasks and all that they share: at most `TASKS` tasks, the interrupt lines of the board, and
/// at most `TURN_NOTES` notes of a turn, for which there is room from the start.
#[derive(Drop)]
pub struct Kernel {
    tasks: Vec<TaskStart>,
    order: Order,
    owners: Vec<LineStart>,
    fault_bits: u32,
    slots: Vec<Slot>,
    ready: TaskSet,
    offers: Vec<TaskSet>,
    entries: Vec<Option<KeptEntry>>,
    watch: Watch,
    lines: [Line; LINES],
    notes: Vec<Note>,
    memory: Memory,
    clock: u64,
    wheel: Vec<TaskSet>,
    current: usize,
    next_call: u32,
    ghost few: { length slots.items ≤ most_tasks },
    ghost all_lines: { length lines ≡ board_lines },
    ghost few_owners: { length owners.items ≤ board_lines },
    ghost many: { length tasks.items ≡ length slots.items },
    ghost there: { current < length slots.items },
    ghost order_is: { AreOrdered (priorities_of (map task_setup tasks.items)) order.keys.items order.places.items },
    ghost ready_now: { AreThose is_free slots.items order.places.items ready.words },
    ghost offered_now: { AreOffers slots.items order.places.items offers.items },
    ghost timed_now: { AreTimed slots.items wheel.items },
    ghost openable: { ∥ AreOpenable memory.regions (map task_setup tasks.items) ∥₁ },
    ghost fresh: { AreFresh memory.bytes watch.low watch.span entries.items },
    ghost of_calls: { AreEntriesOf (map task_setup tasks.items) slots.items entries.items },
    ghost room: { turn_notes ≤ vec_capacity notes },
}

impl Kernel {
    ghost use Rattle.std.specs.Prelude.{◌≡◌, ◌+◌, ◌-◌, ◌%◌, ◌<◌, ◌≤◌, ◌^◌, ◌⊎◌, ℕ, false, length, map, replicate, Option, Some, IfOk, slice_get};
    ghost use Rattle.task_table.specs.model.State.{Setup, Turn, Ground, Own};
    ghost use Rattle.mem_banks.specs.Memory.{is_ram, byte_at, number_at, IsWithin, IsWithinRam};
    ghost use Rattle.task_table.specs.model.Reading.{task_at, setup_at, register, priority, is_ready, call_of, listen_of};
    ghost use Rattle.task_table.specs.model.Effects.{changed, noted, clocked, with_line, stored, copied};
    ghost use Rattle.task_table.specs.model.Start.{start as started_at, begun};
    ghost use Rattle.task_table.specs.kept.Parts.{setup_of_parts, line_setup, IsSound};
    ghost use Rattle.task_table.specs.kept.Holds.{Holds, Stands, IsKept, wait_of, task_count, note_count, clock_of, next_call_of, memory_of, setup_of, current_of, notes_of, entries_of};
    ghost use Rattle.task_table.specs.kept.Entries.{kept_at, meets};
    ghost use Rattle.task_table.specs.kept.Found.{IsFound, IsInRange};
    ghost use Rattle.task_table.specs.kept.Limits.{most_tasks, board_lines, turn_notes};
    ghost use Rattle.task_table.specs.kept.Frames.{AddsNotes};
    ghost use Rattle.task_table.specs.declared.entry.KeptEntry.{KeptEntry};

    /// The kernel at the start of a run, with at least one task. Each task is as at its first
    /// birth. The memory is the one that is handed in, with zeros in the RAM; it was given each
    /// region of a task that is not a device. The order of the tasks gives their indices. If the
    /// parts are those of a sound image, the state is sane.
    ///
    /// # Errors
    ///
    /// Only if memory runs out. The memory that was handed in is then dropped.
    pub fn start(
        alloc: Global,
        memory: Memory,
        fault_bits: u32,
        tasks: &[TaskStart],
        lines: &[LineStart],
    ) -> Result<Kernel, AllocError>
        requires some { 0 < length tasks.now }
        requires few { length tasks.now ≤ most_tasks }
        requires few_owners { length lines.now ≤ board_lines }
        requires zeros { memory.bytes.ram ≡ replicate (length memory.bytes.ram) 0 }
        requires given { AreOpenable memory.regions (map task_setup tasks.now) }
        ensures holds { let g = setup_of_parts memory.bytes fault_bits tasks.now lines.now in
            IfOk result (λ k. Holds g k (begun (started_at g))) }
        ensures stands { let g = setup_of_parts memory.bytes fault_bits tasks.now lines.now in
            IsSound g → IfOk result (λ k. Stands g k (begun (started_at g))) }
        ensures count { IfOk result (λ k. task_count k ≡ length tasks.now) }
        ensures notes { IfOk result (λ k. note_count k ≡ 0) }
    {
        let copies = copies_of(alloc, tasks)?;
        let order = order_of(alloc, &copies)?;
        let owners = Vec::from_slice(alloc, lines)?;
        let slots = first_slots(alloc, tasks)?;
        let ready = ready_tasks(&slots, &order);
        let offers = empty_sets(alloc, slots.len())?;
        let entries = no_entries(alloc, slots.len())?;
        let wheel = empty_sets(alloc, WHEEL)?;
        let notes = Vec::with_capacity(alloc, TURN_NOTES)?;
        Ok(Kernel {
            tasks: copies,
            order,
            owners,
            fault_bits,
            slots,
            ready,
            offers,
            entries,
            watch: Watch::nowhere(),
            lines: [Line {
                enabled: false,
                pending: false,
            }; LINES],
            notes,
            memory,
            clock: 0,
            wheel,
            current: 0,
            next_call: 1,
        })
    }

    /// How many tasks there are.
    pub fn task_count(&self) -> usize
        ensures value { result ≡ task_count self.now }
        ensures few { result ≤ most_tasks }
        ensures holds { (g : Setup) (t : Turn) → Holds g self.now t →
            result ≡ length t.state.tasks }
    {
        self.slots.len()
    }

    /// What was noted since the notes were cleared, in order.
    pub fn notes(&self) -> &[Note]
        ensures value { result.now ≡ notes_of self.now }
        ensures holds { (g : Setup) (t : Turn) → Holds g self.now t → result.now ≡ t.notes }
    {
        self.notes.as_slice()
    }

    /// The task that ran last.
    #[inline(always)]
    pub fn current(&self) -> usize
        ensures value { result ≡ current_of self.now }
        ensures there { result < task_count self.now }
        ensures holds { (g : Setup) (t : Turn) → Holds g self.now t → result ≡ t.state.current }
    {
        self.current
    }

    /// The time, in ticks since the start.
    pub fn now(&self) -> u64
        ensures value { result ≡ clock_of self.now }
        ensures holds { (g : Setup) (t : Turn) → Holds g self.now t → result ≡ t.state.now }
    {
        self.clock
    }

    /// The number that the next call gets.
    pub fn next_call(&self) -> u32
        ensures { (g : Setup) (t : Turn) → Holds g self.now t → result ≡ t.state.next_call }
    {
        self.next_call
    }

    /// The state of an interrupt line, or None if there is no line with this number.
    pub fn line(&self, number: usize) -> Option<Line>
        ensures { (g : Setup) (t : Turn) → Holds g self.now t →
            result ≡ slice_get t.state.lines number }
    {
        self.lines.get(number).copied()
    }

    /// The owners of the interrupt lines that have one, in the order of the image.
    pub fn owners(&self) -> &[LineStart]
        ensures few { length result.now ≤ board_lines }
        ensures holds { (g : Setup) (t : Turn) → Holds g self.now t →
            map line_setup result.now ≡ g.lines }
    {
        &self.owners
    }

    /// The bits that are posted to task 0 when another task faults.
    pub fn fault_bits(&self) -> u32
        ensures { (g : Setup) (t : Turn) → Holds g self.now t → result ≡ g.fault_bits }
    {
        self.fault_bits
    }

    /// The bytes that a task may use; none if there is no such task.
    #[inline(always)]
    pub fn regions(&self, task: usize) -> &[Region]
        ensures value { result.now ≡ (setup_at (setup_of self.now) task).regions }
        ensures holds { (g : Setup) (t : Turn) → Holds g self.now t →
            result.now ≡ (setup_at g task).regions }
    {
        match self.tasks.get(task) {
            Some(start) => &start.regions,
            None => &[],
        }
    }

    /// The address at which a task begins at each birth, as in the image. Bit 0 has no meaning. 0
    /// if there is no such task.
    pub fn entry(&self, task: usize) -> u32
        ensures { (g : Setup) (t : Turn) → Holds g self.now t →
            result ≡ (setup_at g task).entry }
    {
        match self.tasks.get(task) {
            Some(start) => start.entry,
            None => 0,
        }
    }

    /// The priority number of a task; a task with a lower one goes first.
    pub fn priority(&self, task: usize) -> u8
        requires { task < task_count self.now }
        ensures { (g : Setup) (t : Turn) → Holds g self.now t → result ≡ priority g task }
    {
        self.tasks[task].priority
    }

    /// What is kept of a task.
    pub(crate) fn slot(&self, task: usize) -> Slot
        requires { task < task_count self.now }
        ensures { (g : Setup) (t : Turn) → Holds g self.now t → IsKept t.state task result }
    {
        self.slots[task]
    }

    /// Whether a task is well and waits for nothing.
    pub fn is_ready(&self, task: usize) -> bool
        requires { task < task_count self.now }
        ensures { (g : Setup) (t : Turn) → Holds g self.now t → result ≡ is_ready t.state task }
    {
        let slot = self.slot(task);
        slot.is_ready()
    }

    /// The health of a task.
    pub fn health(&self, task: usize) -> Health
        requires { task < task_count self.now }
        ensures { (g : Setup) (t : Turn) → Holds g self.now t →
            result ≡ (task_at t.state task).health }
    {
        self.slot(task).health
    }

    /// How often a task was restarted, modulo 64.
    pub fn generation(&self, task: usize) -> Generation
        requires { task < task_count self.now }
        ensures { (g : Setup) (t : Turn) → Holds g self.now t →
            result.number ≡ (task_at t.state task).births % 64 }
    {
        self.slot(task).generation
    }

    /// The registers of a task.
    pub fn registers(&self, task: usize) -> [u32; 16]
        requires { task < task_count self.now }
        ensures { (g : Setup) (t : Turn) → Holds g self.now t →
            result ≡ (task_at t.state task).registers }
    {
        self.slot(task).registers
    }

    /// One register of a task.
    pub fn register(&self, task: usize, number: usize) -> u32
        requires there { task < task_count self.now }
        requires small { number < 16 }
        ensures { (g : Setup) (t : Turn) → Holds g self.now t →
            result ≡ register t.state task number }
    {
        let slot = self.slot(task);
        slot.registers[number]
    }

    /// The flags of a task.
    pub fn flags(&self, task: usize) -> Flags
        requires { task < task_count self.now }
        ensures { (g : Setup) (t : Turn) → Holds g self.now t →
            result ≡ (task_at t.state task).flags }
    {
        self.slot(task).flags
    }

    /// The posted bits of a task.
    pub fn posted_bits(&self, task: usize) -> u32
        requires { task < task_count self.now }
        ensures { (g : Setup) (t : Turn) → Holds g self.now t →
            result ≡ (task_at t.state task).posted }
    {
        self.slot(task).posted
    }

    /// The timer of a task, or None if it is off.
    pub fn timer(&self, task: usize) -> Option<Timer>
        requires { task < task_count self.now }
        ensures { (g : Setup) (t : Turn) → Holds g self.now t →
            result ≡ (task_at t.state task).timer }
    {
        self.slot(task).timer
    }

    /// What a task waits for.
    pub fn wait(&self, task: usize) -> Wait
        requires { task < task_count self.now }
        ensures { (g : Setup) (t : Turn) → Holds g self.now t →
            result ≡ wait_of (call_of t.state task) (listen_of t.state task) }
    {
        self.slot(task).wait
    }

    /// What an id names: a task at its present birth, an earlier birth of one, or no task (Hubris
    /// Reference, on task ids).
    pub fn lookup(&self, id: u16) -> Found
        ensures found { (g : Setup) (t : Turn) → Holds g self.now t → IsFound t.state id result }
        ensures in_range { IsInRange (task_count self.now) result }
    {
        let id = TaskId::of(id);
        let index = usize::from(id.index());
        if index >= self.slots.len() {
            return Found::Out;
        }
        let slot = self.slot(index);
        let generation = slot.generation.number % 64;
        if generation == id.generation().number {
            Found::Live(index)
        } else {
            Found::Dead(Generation { number: generation })
        }
    }

    /// The byte at an address, or None if there is no memory.
    pub fn byte(&self, addr: u32) -> Option<u8>
        ensures { (g : Setup) (t : Turn) → Holds g self.now t →
            result ≡ byte_at t.state.memory addr }
    {
        if self.memory.holds(addr) {
            Some(self.memory.byte(addr))
        } else {
            None
        }
    }

    /// The number in 1, 2 or 4 bytes from an address on, little-endian. A byte where there is no
    /// memory counts as 0.
    #[inline(always)]
    pub fn number(&self, addr: u32, size: u32) -> u32
        requires { (size ≡ 1) ⊎ (size ≡ 2) ⊎ (size ≡ 4) }
        ensures value { result ≡ number_at (memory_of self.now) addr size }
        ensures holds { (g : Setup) (t : Turn) → Holds g self.now t →
            result ≡ number_at t.state.memory addr size }
    {
        self.memory.number(addr, size)
    }

    /// Removes all notes. In the model, the writes and reads of the turn are forgotten too.
    pub fn clear_notes(&mut self)
        ensures holds { (g : Setup) (t : Turn) → Holds g self.old t →
            Holds g self.new (begun t.state) }
        ensures count { note_count self.new ≡ 0 }
        ensures tasks { task_count self.new ≡ task_count self.old }
        ensures setup { setup_of self.new ≡ setup_of self.old }
    {
        self.notes.clear();
    }

    /// Makes a task the current one.
    pub fn set_current(&mut self, task: usize)
        requires { task < task_count self.old }
        ensures holds { (g : Setup) (t : Turn) → Holds g self.old t →
            Holds g self.new (changed (λ s. record s { current = task }) t) }
        ensures frame { AddsNotes self.old 0 self.new }
    {
        self.current = task;
    }

    /// Adds a note.
    pub fn note(&mut self, note: Note)
        requires { note_count self.old < turn_notes }
        ensures holds { (g : Setup) (t : Turn) → Holds g self.old t →
            Holds g self.new (noted note t) }
        ensures entries { entries_of self.new ≡ entries_of self.old }
        ensures current { current_of self.new ≡ current_of self.old }
        ensures frame { AddsNotes self.old 1 self.new }
    {
        self.notes.push_reserved(note);
    }

    /// Advances the time by one tick, and notes it.
    pub fn step_clock(&mut self)
        requires room { note_count self.old < turn_notes }
        requires small { clock_of self.old + 1 < 2 ^ 64 }
        ensures holds { (g : Setup) (t : Turn) → Holds g self.old t → Holds g self.new (clocked t) }
        ensures frame { AddsNotes self.old 1 self.new }
    {
        self.clock += 1;
        self.note(Note::Tick { now: self.clock });
    }

    /// Sets the state of an interrupt line. If there is no line with this number, nothing changes.
    pub fn set_line(&mut self, number: usize, line: Line)
        ensures holds { (g : Setup) (t : Turn) → Holds g self.old t →
            Holds g self.new (with_line number line t) }
        ensures frame { AddsNotes self.old 0 self.new }
    {
        if number < LINES {
            self.lines[number] = line;
        }
    }

    /// Uses the number of the next call.
    pub(crate) fn use_number(&mut self)
        requires { next_call_of self.old + 1 < 2 ^ 32 }
        ensures holds { (g : Setup) (t : Turn) → Holds g self.old t →
            Holds g self.new (changed (λ s. record s { next_call = s.next_call + 1 }) t) }
        ensures frame { AddsNotes self.old 0 self.new }
    {
        self.next_call += 1;
    }

    /// The number in the two bytes from an address on, little-endian. A byte where there is no
    /// memory counts as 0.
    #[inline(always)]
    pub fn half(&self, addr: u32) -> u16
        ensures value { result ≡ number_at (memory_of self.now) addr 2 }
        ensures holds { (g : Setup) (t : Turn) → Holds g self.now t →
            result ≡ number_at t.state.memory addr 2 }
    {
        self.memory.half(addr)
    }

    /// Whether `count` bytes from an address on lie in the RAM.
    #[inline(always)]
    pub fn is_ram(&self, addr: u32, count: u32) -> bool
        ensures { result ≡ is_ram (memory_of self.now) addr count }
    {
        self.memory.is_ram(addr, count)
    }

    /// Copies `count` bytes into the RAM, as if all were read before the first is written. A kept
    /// entry stays if none of its bytes is written.
    pub fn copy(&mut self, from: u32, to: u32, count: u32)
        requires source { IsWithin (memory_of self.old) from count }
        requires target { IsWithinRam (memory_of self.old) to count }
        ensures holds { (g : Setup) (t : Turn) (on : Ground) → Holds g self.old t →
            Holds g self.new (copied on from to count t) }
        ensures stay { (i : ℕ) (x : KeptEntry) → kept_at (entries_of self.old) i ≡ Some x →
            meets x to count ≡ false → kept_at (entries_of self.new) i ≡ Some x }
        ensures frame { AddsNotes self.old 0 self.new }
    {
        self.touched(to, count as usize);
        self.memory.copy(from, to, count);
    }

    /// Writes bytes into the RAM for the current task, on the ground that they are its own memory.
    pub fn store(&mut self, addr: u32, bytes: &[u8])
        requires { IsWithinRam (memory_of self.old) addr (length bytes.now) }
        ensures holds { (g : Setup) (t : Turn) → Holds g self.old t →
            Holds g self.new (stored Own addr bytes.now t) }
        ensures current { current_of self.new ≡ current_of self.old }
        ensures frame { AddsNotes self.old 0 self.new }
    {
        self.touched(addr, bytes.len());
        self.memory.store(addr, bytes);
    }
}

//! The slots of the tasks, and how they are written.

use super::Kernel;
use crate::readiness::{follow_readiness, move_member};
use crate::slot::Slot;
use crate::start::birth_slot;
use kernel_abi::Generation;
use words_core::Flags;

impl Kernel {
    ghost use Rattle.std.specs.Prelude.{◌≡◌, ◌<◌};
    ghost use Rattle.task_table.specs.model.State.{Setup, State, Turn};
    ghost use Rattle.task_table.specs.model.Reading.{IsSameBut, TimersAlike, DiffersInRest};
    ghost use Rattle.task_table.specs.model.Effects.{changed, with_processor, reborn};
    ghost use Rattle.task_table.specs.kept.Holds.{Holds, IsKept, task_count, entries_of};
    ghost use Rattle.task_table.specs.kept.Frames.{AddsNotes};

    /// Sets the slot of a task, except its timer, which does not change. The sets of the tasks that
    /// are ready and of those that offer a call are brought up to date, and its kept entry is
    /// dropped. This is the only place where its health or its wait changes. The slot is written
    /// first: parts of it that were just read and do not change then cost nothing.
    #[inline(always)]
    pub(crate) fn set_slot(&mut self, task: usize, slot: Slot)
        requires { task < task_count self.old }
        ensures holds { (g : Setup) (t : Turn) (u : State) → Holds g self.old t →
            IsKept u task slot → IsSameBut task t.state u → TimersAlike task t.state u →
            Holds g self.new record t { state = u } }
        ensures frame { AddsNotes self.old 0 self.new }
    {
        let before = &self.slots[task];
        let place = self.order.place(task);
        let ready_before = before.is_ready();
        let ready_after = slot.is_ready();
        let server_before = before.wait.server();
        let server_after = slot.wait.server();
        let kept = &mut self.slots[task];
        kept.health = slot.health;
        kept.wait = slot.wait;
        kept.generation = slot.generation;
        kept.registers = slot.registers;
        kept.flags = slot.flags;
        kept.posted = slot.posted;
        follow_readiness(&mut self.ready, place, ready_before, ready_after);
        move_member(&mut self.offers, place, server_before, server_after);
        self.entries[task] = None;
    }

    /// Sets the slot of a task, except its health, its wait and its timer, which do not change.
    #[inline(always)]
    pub(crate) fn set_rest(&mut self, task: usize, rest: &Slot)
        requires { task < task_count self.old }
        ensures holds { (g : Setup) (t : Turn) (u : State) → Holds g self.old t →
            IsKept u task rest.now → DiffersInRest task t.state u →
            Holds g self.new record t { state = u } }
        ensures entries { entries_of self.new ≡ entries_of self.old }
        ensures frame { AddsNotes self.old 0 self.new }
    {
        let slot = &mut self.slots[task];
        slot.generation = rest.generation;
        slot.registers = rest.registers;
        slot.flags = rest.flags;
        slot.posted = rest.posted;
    }

    /// Sets the registers and flags of a task.
    pub fn set_processor(&mut self, task: usize, registers: [u32; 16], flags: Flags)
        requires { task < task_count self.old }
        ensures holds { (g : Setup) (t : Turn) → Holds g self.old t →
            Holds g self.new (with_processor task registers flags t) }
        ensures frame { AddsNotes self.old 0 self.new }
    {
        let mut slot = self.slot(task);
        slot.registers = registers;
        slot.flags = flags;
        self.set_rest(task, &slot);
    }

    /// A task is born again. Its generation goes up by one, modulo 64. Its registers, flags, posted
    /// bits and timer are as at its first birth. It is well if it is started, else stopped. Its
    /// wait does not change (Hubris Reference, on supervision).
    pub fn reset_task(&mut self, task: usize, start: bool)
        requires there { task < task_count self.old }
        ensures holds { (g : Setup) (t : Turn) → Holds g self.old t →
            Holds g self.new (changed (reborn g task start) t) }
        ensures frame { AddsNotes self.old 0 self.new }
    {
        let before = self.slot(task);
        let generation = Generation {
            number: before.generation.number.wrapping_add(1) % 64,
        };
        let mut slot = birth_slot(&self.tasks[task], generation, start);
        slot.wait = before.wait;
        self.set_timer(task, None);
        self.set_slot(task, slot);
    }
}

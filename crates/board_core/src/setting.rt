//! Setting the parts of a board one by one. The states in between need not be sane. If the last one
//! is, and its counts are in order, the board stands for it.
//!
//! A board holds boxes of devices. A call that changes a box is proved across crates only if it
//! requires something, so each call here does, if only the range of a number.
ghost use Rattle.std.specs.Prelude.{◌≡◌, ◌<◌, ◌≤◌, ◌^◌, ◌∷◌, [], length, true, slice_set};
ghost use Rattle.std.specs.Option.{option_map};
ghost use Rattle.kernel_abi.specs.Devices.{device_at, with_device, IsSettable};
ghost use Rattle.mem_banks.specs.Memory.{with_bytes, is_held};
ghost use Rattle.task_table.specs.model.State.{State};
ghost use Rattle.task_table.specs.kept.Setting.{with_slot, IsTold};
ghost use Rattle.run_script.specs.Events.{script_data};
ghost use Rattle.board_model.specs.Laid.{with_script};
ghost use Rattle.board_model.specs.Script.{Scenario};
ghost use Rattle.board_core.specs.Stands.{Holds, count_of, script_of, turns_of};
ghost use Rattle.board_core.specs.Setting.{timer_told, slot_told, with_flash};

use crate::board::Board;
use crate::choice::choice_of;
use crate::views::TaskView;
use kernel_abi::{Generation, Timer};
use run_script::Script;
use std::mem::swap;
use task_table::{Line, Slot};

/// The timer with this deadline and these bits.
fn timer(told: Option<(u64, u32)>) -> Option<Timer>
    ensures { result ≡ option_map timer_told told }
{
    match told {
        Some((deadline, bits)) => Some(Timer { deadline, bits }),
        None => None,
    }
}

/// The slot of a task that has this view.
fn slot(view: &TaskView) -> Slot
    ensures { result ≡ slot_told view.now }
{
    Slot {
        generation: Generation {
            number: view.generation,
        },
        registers: view.regs,
        flags: view.flags,
        health: view.health,
        posted: view.posted,
        timer: timer(view.timer),
        wait: view.wait,
    }
}

impl Board {
    /// Sets how many turns were made.
    pub fn set_turns(&mut self, v: u32)
        requires { v < 2 ^ 32 }
        ensures holds { (x : Scenario) (s : State) → Holds shown x self.old s →
            Holds shown x self.new (record s { turn = v }) }
        ensures count { count_of self.new ≡ count_of self.old }
    {
        self.turns = v;
        self.due = self.script.next(v);
    }

    /// Exchanges the script: the board continues with this one, and `script` gets the one before.
    pub fn exchange_script(&mut self, script: &mut Script)
        requires { turns_of self.old < 2 ^ 32 }
        ensures holds { (x : Scenario) (s : State) → Holds shown x self.old s →
            Holds shown (with_script x (script_data script.old)) self.new s }
        ensures taken { script_of self.new ≡ script.old }
        ensures given { script.new ≡ script_of self.old }
        ensures count { count_of self.new ≡ count_of self.old }
    {
        swap(&mut self.script, script);
        self.due = self.script.next(self.turns);
    }

    /// Sets the time in ticks.
    pub fn set_now(&mut self, v: u64)
        requires { v < 2 ^ 64 }
        ensures holds { (x : Scenario) (s : State) → Holds shown x self.old s →
            Holds shown x self.new (record s { now = v }) }
        ensures count { count_of self.new ≡ count_of self.old }
    {
        self.machine.save_context();
        self.machine.space.kernel.set_now(v);
    }

    /// Makes the task with this index the one that ran last.
    pub fn set_current(&mut self, v: usize)
        requires { v < count_of self.old }
        ensures holds { (x : Scenario) (s : State) → Holds shown x self.old s →
            Holds shown x self.new (record s { current = v }) }
        ensures count { count_of self.new ≡ count_of self.old }
    {
        self.machine.save_context();
        self.machine.space.kernel.set_current(v);
        self.choice = choice_of(&self.machine.space.kernel);
    }

    /// Sets the number of the next call.
    pub fn set_next_call(&mut self, v: u32)
        requires { v < 2 ^ 32 }
        ensures holds { (x : Scenario) (s : State) → Holds shown x self.old s →
            Holds shown x self.new (record s { next_call = v }) }
        ensures count { count_of self.new ≡ count_of self.old }
    {
        self.machine.save_context();
        self.machine.space.kernel.set_next_call(v);
    }

    /// Sets an interrupt line; nothing changes if there is none with this number.
    pub fn set_irq_line(&mut self, k: usize, enabled: bool, pending: bool)
        requires { k < 2 ^ 64 }
        ensures holds { (x : Scenario) (s : State) → Holds shown x self.old s →
            Holds shown x self.new (record s
            { lines = slice_set s.lines k (record { enabled = enabled; pending = pending }) }) }
        ensures count { count_of self.new ≡ count_of self.old }
    {
        self.machine.save_context();
        self.machine
            .space
            .kernel
            .set_line(k, Line { enabled, pending });
    }

    /// Sets a task, with what it waits for and nothing else that it waits for. The number of its
    /// birth becomes its generation. If it waits in a call, that birth is the call's client.
    pub fn set_task(&mut self, i: usize, v: &TaskView)
        requires there { i < count_of self.old }
        requires told { IsTold i (slot_told v.now) }
        ensures holds { (x : Scenario) (s : State) → Holds shown x self.old s →
            Holds shown x self.new (with_slot i (slot_told v.now) s) }
        ensures count { count_of self.new ≡ count_of self.old }
    {
        self.machine.save_context();
        self.machine.space.kernel.set_task(i, slot(v));
        self.choice = choice_of(&self.machine.space.kernel);
    }

    /// Sets the byte at an address of the flash or of the RAM. With another flash the board is one
    /// of an image that has that flash.
    pub fn set_byte(&mut self, addr: u32, v: u8)
        requires { (x : Scenario) × (s : State) × Holds shown x self.old s
            × (is_held s.memory addr ≡ true) }
        ensures holds { (x : Scenario) (s : State) → Holds shown x self.old s →
            Holds shown (with_flash (with_bytes s.memory addr (v ∷ [])).flash x) self.new
            (record s { memory = with_bytes s.memory addr (v ∷ []) }) }
        ensures ram { 0x20000000 ≤ addr → (x : Scenario) (s : State) → Holds shown x self.old s →
            Holds shown x self.new (record s { memory = with_bytes s.memory addr (v ∷ []) }) }
        ensures count { count_of self.new ≡ count_of self.old }
    {
        self.machine.save_context();
        self.machine.space.kernel.set_byte(addr, v);
    }

    /// Sets all bytes of the RAM.
    pub fn set_ram(&mut self, bytes: &[u8])
        requires { (x : Scenario) × (s : State) × Holds shown x self.old s
            × (length bytes.now ≡ length s.memory.ram) }
        ensures holds { (x : Scenario) (s : State) → Holds shown x self.old s →
            Holds shown x self.new (record s { memory = record s.memory { ram = bytes.now } }) }
        ensures count { count_of self.new ≡ count_of self.old }
    {
        self.machine.save_context();
        self.machine.space.kernel.set_ram(bytes);
    }

    /// Sets, for the k-th device, how many bytes were stored to it modulo 2^32, and the bytes that
    /// wait in it, oldest first.
    pub fn set_device(&mut self, k: usize, count: u32, queue: &[u8])
        requires { (x : Scenario) × (s : State) × Holds shown x self.old s × (k < length s.devices)
            × IsSettable (device_at s.devices k).kind count queue.now }
        ensures holds { (x : Scenario) (s : State) → Holds shown x self.old s →
            Holds shown x self.new (record s {
              devices = with_device s.devices k
                  (record (device_at s.devices k) { count = count; queue = queue.now });
            }) }
        ensures count { count_of self.new ≡ count_of self.old }
    {
        self.machine.save_context();
        self.machine.space.devices.set(k, count, queue);
    }
}

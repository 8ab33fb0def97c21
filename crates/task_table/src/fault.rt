//! How a task stops: it changes its health, drops its listen, closes its call, and faults.

ghost use Rattle.std.specs.Prelude.{◌≡◌, slice_range};

use crate::kernel::Kernel;
use crate::slot::Wait;
use kernel_abi::{Ending, Fault, Health, Note, SYSCALL_SELECTOR, Usage};

impl Kernel {
    ghost use Rattle.std.specs.Prelude.{◌≡◌, ◌+◌, ◌<◌, ◌≤◌};
    ghost use Rattle.kernel_abi.specs.Faults.{usage_number};
    ghost use Rattle.task_table.specs.model.State.{Setup, Turn};
    ghost use Rattle.task_table.specs.model.Reading.{call_of, listen_of};
    ghost use Rattle.task_table.specs.model.Effects.{changed, with_health, without_listen, closed, faulted_as, faulted, is_to, awaits};
    ghost use Rattle.task_table.specs.model.Rows.{misused, panicked, syscall_noted};
    ghost use Rattle.task_table.specs.kept.Holds.{Holds, Stands, task_count, note_count};
    ghost use Rattle.task_table.specs.kept.Waits.{AreFew};
    ghost use Rattle.task_table.specs.kept.Limits.{turn_notes};
    ghost use Rattle.task_table.specs.kept.Frames.{AddsNotes, AddsAtMost};

    /// Sets the health of a task.
    fn set_health(&mut self, task: usize, health: Health)
        requires { task < task_count self.old }
        ensures holds { (g : Setup) (t : Turn) → Holds g self.old t →
            Holds g self.new (with_health task health t) }
        ensures frame { AddsNotes self.old 0 self.new }
    {
        let mut slot = self.slot(task);
        slot.health = health;
        self.set_slot(task, slot);
    }

    /// Drops the listen of a task, if it has one.
    pub fn stop_listening(&mut self, task: usize)
        requires { task < task_count self.old }
        ensures holds { (g : Setup) (t : Turn) → Holds g self.old t →
            Holds g self.new (changed (without_listen task) t) }
        ensures frame { AddsNotes self.old 0 self.new }
    {
        let mut slot = self.slot(task);
        if slot.wait.listen().is_some() {
            slot.wait = Wait::Nothing;
            self.set_slot(task, slot);
        }
    }

    /// Closes the call of a client, if it has one.
    pub fn close(&mut self, client: usize, ending: Ending)
        requires there { client < task_count self.old }
        requires room { note_count self.old < turn_notes }
        ensures holds { (g : Setup) (t : Turn) → Holds g self.old t →
            Holds g self.new (closed client ending t) }
        ensures frame { AddsAtMost self.old 1 self.new }
    {
        let mut slot = self.slot(client);
        if let Some(call) = slot.wait.call() {
            slot.wait = Wait::Nothing;
            self.set_slot(client, slot);
            self.note(Note::Close {
                call: call.number,
                ending,
            });
        }
    }

    /// Whether another task waits for the end of its call to a task.
    pub fn calls_to(&self, other: usize, task: usize) -> bool
        requires { other < task_count self.now }
        ensures { (g : Setup) (t : Turn) → Holds g self.now t → AreFew t.state →
            result ≡ is_to task (call_of t.state other) }
    {
        let slot = self.slot(other);
        slot.wait.is_to(task)
    }

    /// Whether another task listens for a message of this one task only.
    pub fn awaits(&self, other: usize, task: usize) -> bool
        requires { other < task_count self.now }
        ensures { (g : Setup) (t : Turn) → Holds g self.now t → AreFew t.state →
            result ≡ awaits task (listen_of t.state other) }
    {
        let slot = self.slot(other);
        slot.wait.awaits(task)
    }

    /// A task faults, and its call is closed with this ending.
    pub(crate) fn fault_as(&mut self, task: usize, fault: Fault, ending: Ending)
        requires there { task < task_count self.old }
        requires room { note_count self.old + 4 ≤ turn_notes }
        ensures holds { (g : Setup) (t : Turn) → Holds g self.old t →
            Holds g self.new (faulted_as g task fault ending t) }
        ensures frame { AddsAtMost self.old 4 self.new }
    {
        self.set_health(task, Health::Faulted(fault));
        self.stop_listening(task);
        self.note(Note::Fault {
            task: task as u16,
            fault,
        });
        self.close(task, ending);
        if task != 0 {
            let bits = self.fault_bits();
            self.post(0, bits);
        }
    }

    /// A task faults: it becomes Faulted, its listen is dropped, the call of which it is the client
    /// is closed, and the fault bits are posted to the supervisor, which is task 0. Clients whose
    /// server is the task go on waiting. A fault of the supervisor itself posts nothing (Hubris
    /// Reference, on supervision).
    pub fn fault(&mut self, task: usize, fault: Fault)
        requires there { task < task_count self.old }
        requires room { note_count self.old + 4 ≤ turn_notes }
        requires from_one { 1 ≤ fault.number }
        requires to_ten { fault.number ≤ 10 }
        ensures holds { (g : Setup) (t : Turn) → Holds g self.old t →
            Holds g self.new (faulted g task fault t) }
        ensures stands { (g : Setup) (t : Turn) → Stands g self.old t →
            Stands g self.new (faulted g task fault t) }
        ensures frame { AddsAtMost self.old 4 self.new }
    {
        self.fault_as(task, fault, Ending::Client);
    }

    /// A task faults because it misused a system call.
    pub fn misuse(&mut self, task: usize, usage: Usage)
        requires there { task < task_count self.old }
        requires room { note_count self.old + 4 ≤ turn_notes }
        ensures holds { (g : Setup) (t : Turn) → Holds g self.old t →
            Holds g self.new (misused g task (usage_number usage) t) }
        ensures stands { (g : Setup) (t : Turn) → Stands g self.old t →
            Stands g self.new (misused g task (usage_number usage) t) }
        ensures frame { AddsAtMost self.old 4 self.new }
    {
        self.fault(task, Fault::usage(usage));
    }

    /// Notes the system call that a task makes by its registers: the number in r11, the arguments
    /// in r4 to r10.
    pub fn note_syscall(&mut self, task: usize)
        requires there { task < task_count self.old }
        requires room { note_count self.old < turn_notes }
        ensures holds { (g : Setup) (t : Turn) → Holds g self.old t →
            Holds g self.new (syscall_noted task t) }
        ensures frame { AddsNotes self.old 1 self.new }
    {
        let slot = self.slot(task);
        self.note(Note::Syscall {
            task: task as u16,
            number: slot.registers[SYSCALL_SELECTOR],
            arguments: arguments_in(&slot.registers),
        });
    }

    /// PANIC: the caller faults, and its r4 and r5 are its x and y (Hubris Reference, on PANIC).
    pub fn panic(&mut self, caller: usize)
        requires there { caller < task_count self.old }
        requires room { note_count self.old + 4 ≤ turn_notes }
        ensures stands { (g : Setup) (t : Turn) → Stands g self.old t →
            Stands g self.new (panicked g caller t) }
        ensures frame { AddsAtMost self.old 4 self.new }
    {
        let r4 = self.register(caller, 4);
        let r5 = self.register(caller, 5);
        self.fault(caller, Fault::panic(r4, r5));
    }
}

/// The registers r4 to r10.
fn arguments_in(registers: &[u32; 16]) -> [u32; 7]
    ensures { result ≡ slice_range registers.now 4 11 }
{
    let mut arguments = [0; 7];
    arguments.copy_from_slice(&registers[4..11]);
    arguments
}

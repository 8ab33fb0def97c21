//! Operations on one task: results of its system calls, and posts.

use crate::kernel::Kernel;
use kernel_abi::Note;
use words_core::PROGRAM_COUNTER;

impl Kernel {
    ghost use Rattle.std.specs.Prelude.{◌≡◌, ◌+◌, ◌<◌, ◌≤◌, length};
    ghost use Rattle.task_table.specs.model.State.{Setup, Turn};
    ghost use Rattle.task_table.specs.model.Reading.{arguments};
    ghost use Rattle.task_table.specs.model.Effects.{given, returned, past_syscall, bits_added, bits_cleared, woken, posted};
    ghost use Rattle.task_table.specs.model.Rows.{goes_on, goes_on_with};
    ghost use Rattle.task_table.specs.kept.Holds.{Holds, Stands, task_count, note_count, entries_of};
    ghost use Rattle.task_table.specs.kept.Limits.{turn_notes};
    ghost use Rattle.task_table.specs.kept.Frames.{AddsNotes, AddsAtMost};

    /// The registers r4 to r11 of a task: the arguments of its system call, and its number.
    pub fn arguments(&self, task: usize) -> [u32; 8]
        requires { task < task_count self.now }
        ensures { (g : Setup) (t : Turn) → Holds g self.now t → result ≡ arguments t.state task }
    {
        let slot = self.slot(task);
        words_in(&slot.registers)
    }

    /// Gives at most six results to a task, from r4 on.
    pub fn give(&mut self, task: usize, values: &[u32])
        requires there { task < task_count self.old }
        requires few { length values.now ≤ 6 }
        ensures holds { (g : Setup) (t : Turn) → Holds g self.old t →
            Holds g self.new (given task values.now t) }
        ensures entries { entries_of self.new ≡ entries_of self.old }
        ensures frame { AddsNotes self.old 0 self.new }
    {
        let mut slot = self.slot(task);
        write_results(&mut slot.registers, values);
        self.set_rest(task, &slot);
    }

    /// Notes that a system call of a task has ended, with its r4 to r9.
    pub fn note_return(&mut self, task: usize)
        requires there { task < task_count self.old }
        requires room { note_count self.old < turn_notes }
        ensures holds { (g : Setup) (t : Turn) → Holds g self.old t →
            Holds g self.new (returned task t) }
        ensures entries { entries_of self.new ≡ entries_of self.old }
        ensures frame { AddsNotes self.old 1 self.new }
    {
        let slot = self.slot(task);
        let results = results_in(&slot.registers);
        self.note(Note::Ret {
            task: task as u16,
            results,
        });
    }

    /// The program counter of a task goes past its system call.
    pub(crate) fn go_past_syscall(&mut self, task: usize)
        requires { task < task_count self.old }
        ensures holds { (g : Setup) (t : Turn) → Holds g self.old t →
            Holds g self.new (past_syscall task t) }
        ensures entries { entries_of self.new ≡ entries_of self.old }
        ensures frame { AddsNotes self.old 0 self.new }
    {
        let mut slot = self.slot(task);
        slot.registers[PROGRAM_COUNTER] = slot.registers[PROGRAM_COUNTER].wrapping_add(2);
        self.set_rest(task, &slot);
    }

    /// A caller goes on after its system call.
    pub fn go_on(&mut self, task: usize)
        requires there { task < task_count self.old }
        requires room { note_count self.old < turn_notes }
        ensures holds { (g : Setup) (t : Turn) → Holds g self.old t →
            Holds g self.new (goes_on task t) }
        ensures entries { entries_of self.new ≡ entries_of self.old }
        ensures frame { AddsNotes self.old 1 self.new }
    {
        self.go_past_syscall(task);
        self.note_return(task);
    }

    /// A caller goes on after its system call, with results from r4 on.
    pub fn answer(&mut self, task: usize, values: &[u32])
        requires there { task < task_count self.old }
        requires few { length values.now ≤ 6 }
        requires room { note_count self.old < turn_notes }
        ensures holds { (g : Setup) (t : Turn) → Holds g self.old t →
            Holds g self.new (goes_on_with task values.now t) }
        ensures entries { entries_of self.new ≡ entries_of self.old }
        ensures frame { AddsNotes self.old 1 self.new }
    {
        self.give(task, values);
        self.go_on(task);
    }

    /// Adds bits to those that are posted to a task, and notes it.
    fn add_bits(&mut self, task: usize, bits: u32)
        requires there { task < task_count self.old }
        requires room { note_count self.old < turn_notes }
        ensures holds { (g : Setup) (t : Turn) → Holds g self.old t →
            Holds g self.new (bits_added task bits t) }
        ensures frame { AddsNotes self.old 1 self.new }
    {
        let mut slot = self.slot(task);
        slot.posted |= bits;
        self.set_rest(task, &slot);
        self.note(Note::Post {
            task: task as u16,
            bits,
            posted: slot.posted,
        });
    }

    /// Clears the posted bits of a task that are in a mask.
    pub(crate) fn clear_bits(&mut self, task: usize, mask: u32)
        requires { task < task_count self.old }
        ensures holds { (g : Setup) (t : Turn) → Holds g self.old t →
            Holds g self.new (bits_cleared task mask t) }
        ensures frame { AddsNotes self.old 0 self.new }
    {
        let mut slot = self.slot(task);
        slot.posted &= !mask;
        self.set_rest(task, &slot);
    }

    /// If a task listens and has posted bits under its mask, it takes them.
    fn wake(&mut self, task: usize)
        requires there { task < task_count self.old }
        requires room { note_count self.old < turn_notes }
        ensures holds { (g : Setup) (t : Turn) → Holds g self.old t →
            Holds g self.new (woken task t) }
        ensures frame { AddsAtMost self.old 1 self.new }
    {
        if let Some(listening) = self.slot(task).wait.listen() {
            let under = self.posted_bits(task) & listening.mask;
            if under != 0 {
                self.stop_listening(task);
                self.clear_bits(task, listening.mask);
                self.give(task, &[0, 0xFFFF, under, 0, 0, 0]);
                self.note_return(task);
            }
        }
    }

    /// Posts bits to a task of any health. If the task listens and has posted bits under its mask,
    /// it takes them: r4 is 0, r5 is 0xFFFF, r6 has the posted bits under the mask, and r7 to r9
    /// are 0. Those bits are cleared, and the task no longer listens (Hubris Reference, on
    /// notifications).
    pub fn post(&mut self, task: usize, bits: u32)
        requires there { task < task_count self.old }
        requires room { note_count self.old + 2 ≤ turn_notes }
        ensures holds { (g : Setup) (t : Turn) → Holds g self.old t →
            Holds g self.new (posted task bits t) }
        ensures stands { (g : Setup) (t : Turn) → Stands g self.old t →
            Stands g self.new (posted task bits t) }
        ensures frame { AddsAtMost self.old 2 self.new }
    {
        self.add_bits(task, bits);
        self.wake(task);
    }
}

ghost use Rattle.std.specs.Prelude.{◌≡◌, ◌≤◌, length, slice_range};
ghost use Rattle.task_table.specs.model.Effects.{with_results};

/// Writes results from r4 on.
fn write_results(registers: &mut [u32; 16], values: &[u32])
    requires { length values.now ≤ 6 }
    ensures { registers.new ≡ with_results values.now registers.old }
{
    registers[4..4 + values.len()].copy_from_slice(values);
}

/// The registers r4 to r9.
fn results_in(registers: &[u32; 16]) -> [u32; 6]
    ensures { result ≡ slice_range registers.now 4 10 }
{
    let mut results = [0; 6];
    results.copy_from_slice(&registers[4..10]);
    results
}

/// The registers r4 to r11.
fn words_in(registers: &[u32; 16]) -> [u32; 8]
    ensures { result ≡ slice_range registers.now 4 12 }
{
    let mut words = [0; 8];
    words.copy_from_slice(&registers[4..12]);
    words
}

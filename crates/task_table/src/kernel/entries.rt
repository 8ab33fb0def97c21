//! The entries of lease tables that are kept for the tasks that wait for a reply.

use super::Kernel;
use crate::entry::{KeptEntry, drop_met};
use kernel_abi::LeaseEntry;

impl Kernel {
    ghost use Rattle.std.specs.Prelude.{◌≡◌, ◌<◌, ℕ, Some, None, false, IfSome};
    ghost use Rattle.region_check.specs.declared.Right.TheVariants.{Read};
    ghost use Rattle.task_table.specs.model.State.{Setup, Turn};
    ghost use Rattle.task_table.specs.model.Reading.{bad_byte};
    ghost use Rattle.task_table.specs.kept.Entries.{kept_at, entry_at, meets, IsKeptFor};
    ghost use Rattle.task_table.specs.kept.Holds.{Holds, kept_of, task_count, memory_of, current_of, entries_of};
    ghost use Rattle.task_table.specs.kept.Messages.{IsRead};
    ghost use Rattle.task_table.specs.kept.Frames.{AddsNotes};
    ghost use Rattle.task_table.specs.declared.entry.KeptEntry.{KeptEntry};
    ghost use Rattle.task_table.specs.declared.slot.OpenCall.{OpenCall};

    /// The entry that begins at an address, if it is kept for a task. The task may read it, and
    /// memory has the same there.
    pub fn kept_entry(&self, task: usize, base: u32) -> Option<LeaseEntry>
        requires { task < task_count self.now }
        ensures kept { IfSome result (λ e. IsKeptFor (entries_of self.now) task base e) }
        ensures holds { (g : Setup) (t : Turn) → Holds g self.now t →
            IfSome result (λ e. (bad_byte g task Read record { base = base; len = 12 } ≡ None)
            × (entry_at t.state.memory base ≡ e)) }
    {
        match self.entries[task] {
            Some(kept) => {
                if kept.base == base {
                    Some(kept.entry)
                } else {
                    None
                }
            }
            None => None,
        }
    }

    /// Keeps an entry that was read for a task, instead of the one that was kept for it before. It
    /// is the entry of a lease of the task's call, which is taken, and the task may read it.
    pub fn keep_entry(&mut self, task: usize, kept: KeptEntry)
        requires there { task < task_count self.old }
        requires read { (borrower : ℕ) × (call : OpenCall)
            × IsRead self.old task borrower call kept }
        ensures holds { (g : Setup) (t : Turn) → Holds g self.old t → Holds g self.new t }
        ensures kept { IsKeptFor (entries_of self.new) task kept.base kept.entry }
        ensures frame { AddsNotes self.old 0 self.new }
    {
        self.watch = self.watch.with(kept.base);
        self.entries[task] = Some(kept);
    }

    /// Has to be called before `len` bytes from an address on are written. An entry that has any of
    /// them is dropped, and the others stay. Nothing else changes.
    #[inline(always)]
    pub fn touched(&mut self, base: u32, len: usize)
        ensures holds { (g : Setup) (t : Turn) → Holds g self.old t → Holds g self.new t }
        ensures memory { memory_of self.new ≡ memory_of self.old }
        ensures current { current_of self.new ≡ current_of self.old }
        ensures same { kept_of self.new ≡ kept_of self.old }
        ensures there { (i : ℕ) (x : KeptEntry) → kept_at (entries_of self.new) i ≡ Some x →
            kept_at (entries_of self.old) i ≡ Some x }
        ensures apart { (i : ℕ) (x : KeptEntry) → kept_at (entries_of self.new) i ≡ Some x →
            meets x base len ≡ false }
        ensures stay { (i : ℕ) (x : KeptEntry) → kept_at (entries_of self.old) i ≡ Some x →
            meets x base len ≡ false → kept_at (entries_of self.new) i ≡ Some x }
        ensures frame { AddsNotes self.old 0 self.new }
    {
        if self.watch.catches(base, len) {
            self.drop_touched(base, len);
        }
    }

    /// As `touched`, if an entry may have one of the bytes.
    #[cold]
    #[inline(never)]
    fn drop_touched(&mut self, base: u32, len: usize)
        ensures holds { (g : Setup) (t : Turn) → Holds g self.old t → Holds g self.new t }
        ensures memory { memory_of self.new ≡ memory_of self.old }
        ensures current { current_of self.new ≡ current_of self.old }
        ensures same { kept_of self.new ≡ kept_of self.old }
        ensures there { (i : ℕ) (x : KeptEntry) → kept_at (entries_of self.new) i ≡ Some x →
            kept_at (entries_of self.old) i ≡ Some x }
        ensures apart { (i : ℕ) (x : KeptEntry) → kept_at (entries_of self.new) i ≡ Some x →
            meets x base len ≡ false }
        ensures stay { (i : ℕ) (x : KeptEntry) → kept_at (entries_of self.old) i ≡ Some x →
            meets x base len ≡ false → kept_at (entries_of self.new) i ≡ Some x }
        ensures frame { AddsNotes self.old 0 self.new }
    {
        self.watch = drop_met(&mut self.entries, base, len);
    }
}

//! Setters for single parts of a kernel. What the kernel keeps besides, such as its sets of tasks,
//! is brought up to date. The state between two of them need not be sane.

use super::Kernel;
use crate::slot::Slot;
use mem_banks::RAM;

impl Kernel {
    ghost use Rattle.std.specs.Prelude.{◌≡◌, ◌<◌, ◌≤◌, ◌∷◌, [], length, true};
    ghost use Rattle.task_table.specs.model.State.{Setup, Turn};
    ghost use Rattle.mem_banks.specs.Memory.{is_held, with_bytes};
    ghost use Rattle.task_table.specs.model.Effects.{changed};
    ghost use Rattle.task_table.specs.kept.Setting.{with_slot, IsTold};
    ghost use Rattle.task_table.specs.kept.Holds.{Holds, task_count, note_count, memory_of};
    ghost use Rattle.task_table.specs.kept.Frames.{AddsNotes};

    /// Sets the time.
    pub fn set_now(&mut self, time: u64)
        ensures holds { (g : Setup) (t : Turn) → Holds g self.old t →
            Holds g self.new (changed (λ s. record s { now = time }) t) }
        ensures frame { AddsNotes self.old 0 self.new }
    {
        self.clock = time;
    }

    /// Sets the number that the next call gets.
    pub fn set_next_call(&mut self, number: u32)
        ensures holds { (g : Setup) (t : Turn) → Holds g self.old t →
            Holds g self.new (changed (λ s. record s { next_call = number }) t) }
        ensures frame { AddsNotes self.old 0 self.new }
    {
        self.next_call = number;
    }

    /// Sets the slot of a task. In the model its number of births becomes its generation. Its kept
    /// entry is dropped.
    pub fn set_task(&mut self, task: usize, slot: Slot)
        requires there { task < task_count self.old }
        requires told { IsTold task slot }
        ensures holds { (g : Setup) (t : Turn) → Holds g self.old t →
            Holds g self.new (changed (with_slot task slot) t) }
        ensures frame { AddsNotes self.old 0 self.new }
    {
        self.set_timer(task, slot.timer);
        self.set_slot(task, slot);
    }

    /// Sets a byte of the flash or of the RAM. The flash of the setup becomes that of the memory.
    pub fn set_byte(&mut self, addr: u32, byte: u8)
        requires { is_held (memory_of self.old) addr ≡ true }
        ensures holds { (g : Setup) (t : Turn) → Holds g self.old t →
            Holds (record g { flash = (memory_of self.new).flash }) self.new
            (changed (λ s. record s { memory = with_bytes s.memory addr (byte ∷ []) }) t) }
        ensures memory { memory_of self.new ≡ with_bytes (memory_of self.old) addr (byte ∷ []) }
        ensures tasks { task_count self.new ≡ task_count self.old }
        ensures notes { note_count self.new ≡ note_count self.old }
    {
        self.touched(addr, 1);
        self.memory.store(addr, &[byte]);
    }

    /// Sets all bytes of the RAM.
    pub fn set_ram(&mut self, bytes: &[u8])
        requires { length bytes.now ≡ length (memory_of self.old).ram }
        ensures holds { (g : Setup) (t : Turn) → Holds g self.old t →
            Holds g self.new (changed (λ s. record s
            { memory = record s.memory { ram = bytes.now } }) t) }
        ensures frame { AddsNotes self.old 0 self.new }
    {
        self.touched(RAM, bytes.len());
        self.memory.set_ram(bytes);
    }

    /// How many bytes the RAM has.
    pub fn ram_len(&self) -> u32
        ensures len { result ≡ length (memory_of self.now).ram }
        ensures few { result ≤ 262144 }
    {
        self.memory.ram_len()
    }

    /// All bytes of the RAM.
    pub fn read_ram(&self, out: &mut [u8])
        requires { length out.old ≡ length (memory_of self.now).ram }
        ensures { out.new ≡ (memory_of self.now).ram }
    {
        self.memory.read_ram(out);
    }
}

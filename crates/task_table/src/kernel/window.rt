//! The bytes of four regions, lent to a user for the time of one call.

use super::Kernel;
use mem_banks::WindowUser;
use region_check::Region;

impl Kernel {
    ghost use Rattle.std.specs.Prelude.{◌≡◌, ◌<◌, ℕ, Some, true, false};
    ghost use Rattle.task_table.specs.model.State.{Setup, Turn};
    ghost use Rattle.task_table.specs.model.Reading.{setup_at};
    ghost use Rattle.task_table.specs.kept.Holds.{Holds, memory_of, current_of, setup_of, entries_of};
    ghost use Rattle.task_table.specs.kept.Entries.{kept_at, meets};
    ghost use Rattle.task_table.specs.declared.entry.KeptEntry.{KeptEntry};
    ghost use Rattle.task_table.specs.kept.Frames.{AddsNotes};
    ghost use Rattle.task_table.specs.kept.Openable.{AreUsable};
    ghost use Rattle.task_table.specs.kept.Window.{IsWindowOpened};

    /// As `touched`, for a range that may be empty. Most tasks have no area, and a kept entry may
    /// lie where its empty region begins.
    #[inline(always)]
    fn area_touched(&mut self, base: u32, len: usize)
        ensures holds { (g : Setup) (t : Turn) → Holds g self.old t → Holds g self.new t }
        ensures memory { memory_of self.new ≡ memory_of self.old }
        ensures current { current_of self.new ≡ current_of self.old }
        ensures there { (i : ℕ) (x : KeptEntry) → kept_at (entries_of self.new) i ≡ Some x →
            kept_at (entries_of self.old) i ≡ Some x }
        ensures apart { 0 < len → (i : ℕ) (x : KeptEntry) →
            kept_at (entries_of self.new) i ≡ Some x → meets x base len ≡ false }
        ensures frame { AddsNotes self.old 0 self.new }
    {
        if len > 0 {
            self.touched(base, len);
        }
    }

    /// Opens the bytes of a region of code and of three regions of the RAM, if each of them has a
    /// bank for itself; otherwise the answer is false. A region of the RAM may be empty, and then
    /// begins where the RAM does. It succeeds for usable regions of one task. A kept entry that has
    /// a byte of the three is dropped, because the user may write over it.
    #[inline(always)]
    pub fn open_window<B: WindowUser>(
        &mut self,
        flash: &Region,
        ram: &Region,
        area: &Region,
        second: &Region,
        user: &mut B,
    ) -> bool
        ensures opened { result ≡ true →
            IsWindowOpened B.did self.old flash.now ram.now area.now second.now user.old user.new
            self.new }
        ensures given { (task : ℕ) → AreUsable (setup_at (setup_of self.old) task).regions flash.now
            ram.now area.now second.now → result ≡ true }
        ensures memory { result ≡ false → memory_of self.new ≡ memory_of self.old }
        ensures holds { result ≡ false → (g : Setup) (t : Turn) → Holds g self.old t →
            Holds g self.new t }
        ensures left { result ≡ false → user.new ≡ user.old }
        ensures current { current_of self.new ≡ current_of self.old }
        ensures frame { AddsNotes self.old 0 self.new }
    {
        self.touched(ram.base, ram.size as usize);
        self.area_touched(area.base, area.size as usize);
        self.area_touched(second.base, second.size as usize);
        self.memory.open_window(
            (flash.base, flash.size),
            (ram.base, ram.size),
            (area.base, area.size),
            (second.base, second.size),
            user,
        )
    }
}

//! The address space of the current task: the bus of its processor.
ghost use Rattle.std.specs.Prelude.{◌≡◌, ◌+◌, ◌*◌, ◌≤◌, ◌<◌, ◌^◌, Option, Some, false, None};
ghost use Rattle.region_check.specs.declared.Right.TheVariants.{Execute, Read};
ghost use Rattle.kernel_abi.specs.Devices.{device_number};
ghost use Rattle.kernel_abi.specs.declared.Note.TheVariants.{Out};
ghost use Rattle.task_table.specs.model.State.{Setup, Turn};
ghost use Rattle.task_table.specs.model.Effects.{noted};
ghost use Rattle.task_table.specs.kept.Holds.{Holds, current_of, note_count};
ghost use Rattle.task_table.specs.kept.Limits.{turn_notes};
ghost use Rattle.task_table.specs.kept.Frames.{AddsAtMost};
ghost use Rattle.thumb_exec.specs.Sizes.{IsSize};
ghost use Rattle.board_model.specs.Turn.{is_device, or_zero};
ghost use Rattle.board_core.specs.Data.{data_of};
ghost use Rattle.board_core.specs.Machine.{IsStored, IsGiven, IsTaken, shown_by, refused};

use crate::list::Devices;
use kernel_abi::{Given, Note};
use region_check::{Right, first_lacking, one_gives};
use task_table::Kernel;
use task_table::limits::TURN_NOTES;
use thumb_exec::bus::Bus;

/// The kernel and the devices. The current task reaches as much of them as its regions permit.
#[derive(Drop)]
pub struct AddressSpace {
    pub kernel: Kernel,
    pub devices: Devices,
}

/// Whether an address is a device address: 0x40000000 to 0x5FFFFFFF.
#[inline(always)]
pub fn is_device(addr: u32) -> bool
    ensures { result ≡ is_device addr }
{
    addr >> 29 == 2
}

impl AddressSpace {
    /// The value of n bytes: from the kernel's memory or, at a device address, what the device
    /// behind it shows.
    #[inline(always)]
    fn number(&self, addr: u32, n: u32) -> u32
        requires { IsSize n }
        ensures { result ≡ shown_by shown self.now addr n }
    {
        if is_device(addr) {
            self.device_number(addr, n)
        } else {
            self.kernel.number(addr, n)
        }
    }

    /// The same for a halfword.
    #[inline(always)]
    fn half(&self, addr: u32) -> u16
        ensures { result ≡ shown_by shown self.now addr 2 }
    {
        if is_device(addr) {
            self.device_number(addr, 2) as u16
        } else {
            self.kernel.half(addr)
        }
    }

    /// The n bytes that the device behind an address shows; 0 if there is no device.
    #[inline(never)]
    fn device_number(&self, addr: u32, n: u32) -> u32
        requires { IsSize n }
        ensures { result ≡ or_zero (device_number (data_of shown self.now.devices) addr n) }
    {
        match self.devices.number(addr, n) {
            Some(value) => value,
            None => 0,
        }
    }

    /// Writes the low n bytes of a value to the RAM, or stores the value to the device behind the
    /// address. A store to any other address changes nothing.
    #[inline(always)]
    fn write(&mut self, addr: u32, n: u32, value: u32)
        requires { IsSize n }
        ensures { IsStored shown self.old addr n value self.new }
    {
        let bytes = value.to_le_bytes();
        if self.kernel.is_ram(addr, n) {
            self.kernel.store(addr, &bytes[..n as usize]);
        } else if is_device(addr) {
            self.give(addr, value);
        }
    }

    /// Stores a value to the device behind an address. A byte that the device gives out is noted,
    /// if there is room.
    #[inline(never)]
    fn give(&mut self, addr: u32, value: u32)
        ensures { IsGiven shown self.old addr value self.new }
    {
        match self.devices.store(addr, value) {
            Some(given) => self.note_given(given),
            None => {}
        }
    }

    /// Notes a byte that a device gives out, if there is room.
    fn note_given(&mut self, given: Given)
        ensures noted { note_count self.old.kernel < turn_notes → (g : Setup) (t : Turn) →
            Holds g self.old.kernel t → Holds g self.new.kernel
            (noted (Out given.device given.byte) t) }
        ensures frame { AddsAtMost self.old.kernel 1 self.new.kernel }
        ensures current { current_of self.new.kernel ≡ current_of self.old.kernel }
        ensures devices { self.new.devices ≡ self.old.devices }
    {
        if self.kernel.notes().len() < TURN_NOTES {
            self.kernel.note(Note::Out {
                device: given.device,
                byte: given.byte,
            });
        }
    }

    /// The first of n bytes for which the task lacks the right.
    #[inline(never)]
    fn lacks(&self, addr: u32, n: u32, right: Right) -> Option<u32>
        requires { addr + n ≤ 2 ^ 32 }
        ensures { result ≡ refused self.now.kernel addr n right }
    {
        first_lacking(self.kernel.regions(self.kernel.current()), addr, n, right)
    }
}

impl Bus for AddressSpace {
    ghost refuses = { λ m a n r. refused m.kernel a n r };

    ghost holds = { λ m a n. shown_by (λ b. (Device-box b).shown b.value) m a n };

    ghost stored = { λ m a n v m'. IsStored (λ b. (Device-box b).shown b.value) m a n v m' };

    ghost took = { λ m a m'. IsTaken (λ b. (Device-box b).shown b.value) m a m' };

    #[inline(always)]
    fn allows(&self, addr: u32, n: u32, right: Right) -> Option<u32> {
        self.lacks(addr, n, right)
    }

    fn fetch(&self, addr: u32) -> Result<u16, u32> {
        match self.lacks(addr, 2, Right::Execute) {
            Some(at) => Err(at),
            None => Ok(self.half(addr)),
        }
    }

    #[inline(always)]
    fn load(&self, addr: u32, n: u32) -> Result<u32, u32> {
        match self.lacks(addr, n, Right::Read) {
            Some(at) => Err(at),
            None => Ok(self.number(addr, n)),
        }
    }

    #[inline(always)]
    fn store(&mut self, addr: u32, n: u32, value: u32) -> Result<(), u32> {
        match self.lacks(addr, n, Right::Write) {
            Some(at) => Err(at),
            None => {
                self.write(addr, n, value);
                Ok(())
            }
        }
    }

    #[inline(always)]
    fn taken(&mut self, addr: u32) {
        if is_device(addr) {
            self.devices.taken(addr);
        }
    }

    /// Whether there is a device.
    #[inline(always)]
    fn takes(&self) -> bool {
        !self.devices.is_empty()
    }

    #[inline(always)]
    fn gives(&self, addr: u32, count: u32, right: Right) -> bool {
        if 4 * count > 0xFFFF_FFFF - addr {
            return false;
        }
        let regions = self.kernel.regions(self.kernel.current());
        one_gives(regions, addr, 4 * count, right)
    }
}

//! The bytes of flash and RAM, as one map from addresses to bytes. They are kept in banks: one for
//! each different region of the tasks, so that a shared region has one bank, and one for each
//! stretch between regions.
#![tactic(auto)]

mod bank;
mod moving;
mod opening;
mod reading;
mod window;

ghost use Rattle.std.specs.Prelude.{◌≡◌, ◌≤◌, ◌⊎◌, length, IfOk, replicate};
ghost use Rattle.mem_banks.specs.Memory.{is_held, is_ram, number_at, with_bytes, copied, IsWithin, AreAllBytes, AreRegions};

use bank::{Bank, find, page, search, whole_half, whole_word};
use moving::{copy_from_end, copy_from_start, store_at};
use opening::{all_banks, table_of};
use reading::read_pieces;
use std::alloc::{AllocError, Global};
use std::marker::Model;
pub use window::WindowUser;

/// The first address of the flash, which is only read and executed.
pub const FLASH: u32 = 0x0800_0000;
/// The first address of the RAM.
pub const RAM: u32 = 0x2000_0000;

/// The flash and the RAM of a board, and the regions that were given. Callers see the two lists of
/// bytes and the regions, but not the banks.
#[derive(Drop)]
pub struct Memory {
    /// In the order of their bases. If there is no memory at all, there is one empty bank.
    banks: Vec<Bank>,
    /// For each page of 256 bytes, the index of the bank to look in first. It is a hint: the bounds
    /// of a bank say whether an address is in it.
    table: Vec<u16>,
    /// How many bytes the RAM has.
    ram: u32,
    regions: Vec<(u32, u32)>,
    /// For the empty lists that stand in for an absent region, and for a bank whose bytes are taken
    /// out.
    alloc: Global,
}

impl Model for Memory {
    ghost use Rattle.std.specs.Prelude.{◌≡◌};
    ghost use Rattle.mem_banks.specs.Memory.{Opened};
    ghost use Rattle.mem_banks.specs.Banks.{flash_of, ram_of};
    ghost use Rattle.mem_banks.specs.Kept.{AreKept, spans_of};
    ghost use Rattle.mem_banks.specs.Parts.{AreParts, ram_size};

    ghost Value = { Opened };

    ghost view = { λ m. record {
      bytes = record { flash = flash_of m.banks.items; ram = ram_of m.banks.items };
      regions = m.regions.items;
    } };

    ghost invariant = { λ m. AreKept m.table.items m.banks.items
        × AreParts m.regions.items (spans_of m.banks.items)
        × (m.ram ≡ ram_size (spans_of m.banks.items)) };
}

impl Memory {
    /// A memory with these bytes of flash and this many zero bytes of RAM. The regions are those
    /// that are no devices, by base and size in bytes.
    ///
    /// # Errors
    ///
    /// Only if memory runs out.
    pub fn open(
        alloc: Global,
        flash: &[u8],
        ram: u32,
        regions: &[(u32, u32)],
    ) -> Result<Memory, AllocError>
        requires flash { length flash.now ≤ 1048576 }
        requires ram { ram ≤ 262144 }
        requires regions { AreRegions (length flash.now) ram regions.now }
        ensures value { IfOk result (λ m. m ≡ record {
          bytes = record { flash = flash.now; ram = replicate ram 0 };
          regions = regions.now;
        }) }
        ensures bytes { AreAllBytes flash.now }
    {
        let banks = all_banks(alloc, flash.len() as u32, ram, regions)?;
        let table = table_of(alloc, &banks)?;
        let mut memory = Memory {
            banks,
            table,
            ram,
            regions: regions.to_vec(alloc)?,
            alloc,
        };
        memory.store(FLASH, flash);
        Ok(memory)
    }

    /// Whether there is a byte at an address.
    pub fn holds(&self, addr: u32) -> bool
        ensures { result ≡ is_held self.now.bytes addr }
    {
        find(&self.banks, &self.table, addr).is_some()
    }

    /// The byte at an address; 0 if there is no memory at the address.
    #[inline(always)]
    pub fn byte(&self, addr: u32) -> u8
        ensures { result ≡ number_at self.now.bytes addr 1 }
    {
        let bank = &self.banks[self.table[page(addr)] as usize];
        let at = addr.wrapping_sub(bank.base) as usize;
        if at < bank.bytes.len() {
            return bank.bytes[at];
        }
        self.byte_beyond(addr)
    }

    /// The same if another bank than the one that the table names may have the byte.
    #[cold]
    #[inline(never)]
    fn byte_beyond(&self, addr: u32) -> u8
        ensures { result ≡ number_at self.now.bytes addr 1 }
    {
        match search(&self.banks, addr) {
            Some(place) => self.banks[place.bank].bytes[place.at],
            None => 0,
        }
    }

    /// The number that the two bytes from an address on spell, the lowest byte first. A byte that
    /// is not in memory counts as 0.
    pub fn half(&self, addr: u32) -> u16
        ensures { result ≡ number_at self.now.bytes addr 2 }
    {
        let bank = &self.banks[self.table[page(addr)] as usize];
        let at = addr.wrapping_sub(bank.base) as usize;
        if at + 1 < bank.bytes.len() {
            return whole_half(&bank.bytes, at);
        }
        self.half_beyond(addr)
    }

    /// The same if the two bytes may lie in two banks.
    #[cold]
    #[inline(never)]
    fn half_beyond(&self, addr: u32) -> u16
        ensures { result ≡ number_at self.now.bytes addr 2 }
    {
        if find(&self.banks, &self.table, addr).is_none() {
            return 0;
        }
        u16::from(self.byte(addr)) + 256 * u16::from(self.byte(addr + 1))
    }

    /// The number that the four bytes from an address on spell, the lowest byte first. A byte that
    /// is not in memory counts as 0.
    #[inline(always)]
    pub fn word(&self, addr: u32) -> u32
        ensures { result ≡ number_at self.now.bytes addr 4 }
    {
        let bank = &self.banks[self.table[page(addr)] as usize];
        let at = addr.wrapping_sub(bank.base) as usize;
        if at + 3 < bank.bytes.len() {
            return whole_word(&bank.bytes, at);
        }
        self.word_beyond(addr)
    }

    /// The same if the four bytes may lie in two or more banks.
    #[cold]
    #[inline(never)]
    fn word_beyond(&self, addr: u32) -> u32
        ensures { result ≡ number_at self.now.bytes addr 4 }
    {
        if find(&self.banks, &self.table, addr).is_none() {
            return 0;
        }
        let low = u32::from(self.byte(addr)) + 256 * u32::from(self.byte(addr + 1));
        let high = u32::from(self.byte(addr + 2)) + 256 * u32::from(self.byte(addr + 3));
        low + 65536 * high
    }

    /// The number that 1, 2 or 4 bytes from an address on spell, the lowest byte first. A byte that
    /// is not in memory counts as 0.
    #[inline(never)]
    pub fn number(&self, addr: u32, size: u32) -> u32
        requires { (size ≡ 1) ⊎ (size ≡ 2) ⊎ (size ≡ 4) }
        ensures { result ≡ number_at self.now.bytes addr size }
    {
        match size {
            1 => u32::from(self.byte(addr)),
            2 => u32::from(self.half(addr)),
            _ => self.word(addr),
        }
    }

    /// Whether this many bytes from an address on lie in the RAM.
    #[inline(always)]
    pub fn is_ram(&self, addr: u32, count: u32) -> bool
        ensures { result ≡ is_ram self.now.bytes addr count }
    {
        addr >= RAM && u64::from(addr - RAM) + u64::from(count) <= u64::from(self.ram)
    }

    /// How many bytes the RAM has.
    pub fn ram_len(&self) -> u32
        ensures len { result ≡ length self.now.bytes.ram }
        ensures few { result ≤ 262144 }
    {
        self.ram
    }

    /// Reads all bytes of the RAM.
    pub fn read_ram(&self, out: &mut [u8])
        requires { length out.old ≡ length self.now.bytes.ram }
        ensures { out.new ≡ self.now.bytes.ram }
    {
        read_pieces(&self.banks, &self.table, RAM, out);
    }

    /// Writes all bytes of the RAM.
    pub fn set_ram(&mut self, bytes: &[u8])
        requires { length bytes.now ≡ length self.old.bytes.ram }
        ensures { self.new ≡ record self.old { bytes = record self.old.bytes { ram = bytes.now } } }
    {
        store_at(&mut self.banks, &self.table, RAM, bytes);
    }

    /// Copies this many bytes, as if all of them were read before the first is written.
    pub fn copy(&mut self, from: u32, to: u32, count: u32)
        requires source { IsWithin self.old.bytes from count }
        requires target { IsWithin self.old.bytes to count }
        ensures { self.new ≡ record self.old { bytes = copied self.old.bytes from to count } }
    {
        if from < to {
            copy_from_end(&mut self.banks, &self.table, from, to, count);
        } else {
            copy_from_start(&mut self.banks, &self.table, from, to, count);
        }
    }

    /// Writes bytes over those from an address on.
    #[inline(always)]
    pub fn store(&mut self, addr: u32, bytes: &[u8])
        requires { IsWithin self.old.bytes addr (length bytes.now) }
        ensures { self.new ≡ record self.old { bytes = with_bytes self.old.bytes addr bytes.now } }
    {
        store_at(&mut self.banks, &self.table, addr, bytes);
    }
}

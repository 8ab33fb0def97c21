//! A bus with a flash and a RAM, and regions that say what a task may do with them.
ghost use Rattle.std.specs.Prelude.{◌≡◌, ◌+◌, ◌<◌, ◌≤◌, ◌*◌, ◌^◌, ◌/◌, ◌%◌, length, replicate, ◌∷◌, [], IfOk};
ghost use Rattle.insn_vectors.specs.Flat.{first_bad, byte_at, number_of, IsStored, IsPut, flash_with, ram_with, with_half, with_bytes, flash_region, ram_region};
ghost use Rattle.insn_vectors.specs.Played.{banks_of, with_code};

use mem_banks::{FLASH, RAM};
use region_check::{Region, Right, Rights, may};
use std::alloc::{AllocError, Global};
use thumb_exec::bus::Bus;

/// The bytes of a flash and of a RAM, and what a task may do with them.
#[derive(Drop)]
pub struct Memory {
    pub flash: Vec<u8>,
    pub ram: Vec<u8>,
    pub regions: Vec<Region>,
}

/// The first of n bytes that lacks the right.
#[tactic(auto, using(crate::proofs::Steps::bad_here, crate::proofs::Steps::bad_later, crate::proofs::Steps::bad_none))]
fn first_bad(regions: &[Region], a: u32, n: u32, right: Right) -> Option<u32>
    requires { a + n ≤ 2 ^ 32 }
    ensures { result ≡ first_bad regions.now a n right }
{
    for k in 0..n {
        if !may(regions, a + k, right) {
            return Some(a + k);
        }
    }
    None
}

impl Memory {
    /// A memory of zeros: 64 KiB of flash, which may be read and executed, and 4 KiB of RAM, which
    /// may be read and written.
    pub fn new(alloc: Global) -> Result<Memory, AllocError>
        ensures flash { IfOk result (λ m. m.flash.items ≡ replicate 0x10000 0) }
        ensures ram { IfOk result (λ m. m.ram.items ≡ replicate 0x1000 0) }
        ensures regions { IfOk result (λ m. m.regions.items ≡ flash_region ∷ ram_region ∷ []) }
    {
        let flash = vec![in alloc; 0; 0x1_0000]?;
        let ram = vec![in alloc; 0; 0x1000]?;
        let code = Rights {
            read: true,
            write: false,
            execute: true,
            device: false,
        };
        let store = Rights {
            read: true,
            write: true,
            execute: false,
            device: false,
        };
        let regions = vec![in alloc;
            Region {
                base: FLASH,
                size: 0x1_0000,
                rights: code
            },
            Region {
                base: RAM,
                size: 0x1000,
                rights: store
            },
        ]?;
        Ok(Memory {
            flash,
            ram,
            regions,
        })
    }

    /// The byte at an address, or 0 outside flash and RAM.
    fn byte(&self, a: u32) -> u32
        ensures value { result ≡ byte_at self.now.flash.items self.now.ram.items a }
        ensures bound { result < 256 }
    {
        let (bank, base) = if a >= RAM {
            (&self.ram, RAM)
        } else {
            (&self.flash, FLASH)
        };
        if a < base {
            return 0;
        }
        match bank.get((a - base) as usize) {
            Some(byte) => u32::from(*byte),
            None => 0,
        }
    }

    /// Writes a byte of the RAM. Outside the RAM it does nothing.
    #[tactic(auto, using(crate::proofs::Stored::put_in, crate::proofs::Stored::put_out))]
    fn put(&mut self, a: u32, byte: u8)
        ensures put { IsPut self.old.ram.items a byte self.new.ram.items }
        ensures ram { self.new.ram.items ≡ ram_with self.old.ram.items a byte }
        ensures size { length self.new.ram.items ≡ length self.old.ram.items }
        ensures flash { self.new.flash ≡ self.old.flash }
        ensures regions { self.new.regions ≡ self.old.regions }
    {
        if a >= RAM {
            let i = (a - RAM) as usize;
            if i < self.ram.len() {
                self.ram[i] = byte;
            }
        }
    }

    /// Writes a byte of flash or RAM, whatever the rights are. Outside both it does nothing.
    fn fill(&mut self, a: u32, byte: u8)
        ensures ram { self.new.ram.items ≡ ram_with self.old.ram.items a byte }
        ensures flash { self.new.flash.items ≡ flash_with self.old.flash.items a byte }
        ensures regions { self.new.regions ≡ self.old.regions }
    {
        if a >= RAM {
            self.put(a, byte);
        } else if a >= FLASH {
            let i = (a - FLASH) as usize;
            if i < self.flash.len() {
                self.flash[i] = byte;
            }
        }
    }

    /// Writes a halfword in the same way, its low byte first.
    fn fill_half(&mut self, a: u32, half: u16)
        ensures banks { banks_of self.new ≡ with_half (banks_of self.old) a half }
        ensures regions { self.new.regions ≡ self.old.regions }
    {
        self.fill(a, (half % 256) as u8);
        self.fill(a.wrapping_add(1), (half / 256) as u8);
    }

    /// Writes a code in the same way. Its second halfword, if it has one, comes right after the
    /// first.
    pub fn fill_code(&mut self, at: u32, first: u16, second: Option<u16>)
        ensures banks { banks_of self.new ≡ with_code (banks_of self.old) at first second }
        ensures regions { self.new.regions ≡ self.old.regions }
    {
        self.fill_half(at, first);
        match second {
            None => {}
            Some(second) => self.fill_half(at.wrapping_add(2), second),
        }
    }

    /// Writes bytes in the same way, one after another, each at its address.
    pub fn fill_all(&mut self, bytes: &[(u32, u8)])
        ensures banks { banks_of self.new ≡ with_bytes (banks_of self.old) bytes.now }
        ensures regions { self.new.regions ≡ self.old.regions }
    {
        for pair in bytes {
            self.fill(pair.0, pair.1);
        }
    }
}

impl Bus for Memory {
    ghost refuses = { λ s a n r. first_bad s.regions.items a n r };

    ghost holds = { λ s a n. number_of s.flash.items s.ram.items a n };

    ghost stored = { λ s a n v t. IsStored s.ram.items a n v t.ram.items
        × (length t.ram.items ≡ length s.ram.items) × (t.flash ≡ s.flash)
        × (t.regions ≡ s.regions) };

    ghost took = { λ s a t. t ≡ s };

    fn allows(&self, addr: u32, n: u32, right: Right) -> Option<u32> {
        first_bad(self.regions.as_slice(), addr, n, right)
    }

    #[tactic(auto, using(crate::proofs::Steps::number_2))]
    fn fetch(&self, addr: u32) -> Result<u16, u32> {
        if let Some(at) = first_bad(self.regions.as_slice(), addr, 2, Right::Execute) {
            return Err(at);
        }
        Ok((self.byte(addr) + 0x100 * self.byte(addr + 1)) as u16)
    }

    #[tactic(auto, using(crate::proofs::Steps::number_1, crate::proofs::Steps::number_2, crate::proofs::Steps::number_4))]
    fn load(&self, addr: u32, n: u32) -> Result<u32, u32> {
        if let Some(at) = first_bad(self.regions.as_slice(), addr, n, Right::Read) {
            return Err(at);
        }
        let low = self.byte(addr);
        if n == 1 {
            return Ok(low);
        }
        let half = low + 0x100 * self.byte(addr + 1);
        if n == 2 {
            return Ok(half);
        }
        Ok(half + 0x1_0000 * self.byte(addr + 2) + 0x100_0000 * self.byte(addr + 3))
    }

    #[tactic(auto, using(crate::proofs::Stored::stored_more, crate::proofs::Stored::stored_none, crate::proofs::Stored::rest_more))]
    fn store(&mut self, addr: u32, n: u32, value: u32) -> Result<(), u32> {
        if let Some(at) = first_bad(self.regions.as_slice(), addr, n, Right::Write) {
            return Err(at);
        }
        let mut rest = value;
        for k in 0..n {
            self.put(addr + k, (rest % 256) as u8);
            rest /= 256;
        }
        Ok(())
    }

    /// There is no device.
    fn taken(&mut self, _addr: u32) {}

    fn takes(&self) -> bool {
        false
    }

    fn gives(&self, _addr: u32, _count: u32, _right: Right) -> bool {
        false
    }
}

ghost use Rattle.std.specs.Prelude.{◌≡◌, ◌<◌, ◌≤◌, IfOk, [], ◌∷◌, length, replicate};
ghost use Rattle.mem_banks.specs.Memory.{IsWithinRam};

use std::alloc::{AllocError, Global};
use task_table::{Memory, RAM};

/// A memory with these bytes of flash and `ram` zero bytes of RAM, without regions.
pub fn memory_of(alloc: Global, flash: &[u8], ram: u32) -> Result<Memory, AllocError>
    requires flash { length flash.now ≤ 1048576 }
    requires ram { ram ≤ 262144 }
    ensures value { IfOk result (λ m. m ≡ record
        { bytes = record { flash = flash.now; ram = replicate ram 0 }; regions = [] }) }
{
    Memory::open(alloc, flash, ram, &[])
}

/// The same, with the whole RAM as one region.
pub fn memory_with_ram(alloc: Global, flash: &[u8], ram: u32) -> Result<Memory, AllocError>
    requires flash { length flash.now ≤ 1048576 }
    requires some { 0 < ram }
    requires ram { ram ≤ 262144 }
    ensures value { IfOk result (λ m. m ≡ record {
      bytes = record { flash = flash.now; ram = replicate ram 0 };
      regions = (0x20000000, ram) ∷
          [];
    }) }
{
    Memory::open(alloc, flash, ram, &[(RAM, ram)])
}

/// Stores into the RAM, which keeps its length.
pub fn store(memory: &mut Memory, addr: u32, bytes: &[u8])
    requires { IsWithinRam memory.old.bytes addr (length bytes.now) }
    ensures { length memory.new.bytes.ram ≡ length memory.old.bytes.ram }
{
    memory.store(addr, bytes);
}

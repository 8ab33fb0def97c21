//! Tests memory in banks: copies over the edges of regions, compared with the same copies in a
//! plain list.
ghost use Rattle.std.specs.Prelude.{◌≡◌, ◌+◌, ◌<◌, ◌≤◌, length, IfOk};
ghost use Rattle.mem_banks.specs.Memory.{AreRegions};

use crate::memory::store;
use std::alloc::{AllocError, Global};
use std::test::Fail;
use task_table::{Memory, RAM};

/// The bytes of RAM: five times 256.
const SIZE: u32 = 1280;

/// A memory of RAM alone, with these regions.
fn open(alloc: Global, regions: &[(u32, u32)]) -> Result<Memory, AllocError>
    requires { AreRegions 0 1280 regions.now }
    ensures { IfOk result (λ m. length m.bytes.ram ≡ 1280) }
{
    Memory::open(alloc, &[], SIZE, regions)
}

/// Sets each byte of the RAM to the low byte of its place.
fn fill(memory: &mut Memory)
    requires { length memory.old.bytes.ram ≡ 1280 }
    ensures { length memory.new.bytes.ram ≡ 1280 }
{
    for k in 0..SIZE {
        store(memory, RAM + k, &[(k % 256) as u8]);
    }
}

/// The same bytes in a list.
fn filled() -> [u8; 1280] {
    let mut list = [0; 1280];
    for k in 0..1280usize {
        list[k] = (k % 256) as u8;
    }
    list
}

/// Copies bytes of the RAM from one place to another.
fn copy(memory: &mut Memory, from: u32, to: u32, count: u32)
    requires size { length memory.old.bytes.ram ≡ 1280 }
    requires source { from + count ≤ 1280 }
    requires target { to + count ≤ 1280 }
    ensures { length memory.new.bytes.ram ≡ 1280 }
{
    memory.copy(RAM + from, RAM + to, count);
}

/// Whether the RAM has the same bytes as a list.
fn has(memory: &Memory, list: &[u8; 1280]) -> bool {
    for k in 0..1280usize {
        if memory.byte(RAM + k as u32) != list[k] {
            return false;
        }
    }
    true
}

/// Whether a copy in the RAM has the same result as in a list.
fn copies(memory: &mut Memory, from: u32, to: u32, count: u32) -> bool
    requires size { length memory.old.bytes.ram ≡ 1280 }
    requires source { from + count ≤ 1280 }
    requires target { to + count ≤ 1280 }
    ensures { length memory.new.bytes.ram ≡ 1280 }
{
    let mut list = filled();
    let start = from as usize;
    list.copy_within(start..start + count as usize, to as usize);
    fill(memory);
    copy(memory, from, to, count);
    has(memory, &list)
}

/// Whether this is true of the copies from and to each place that is at most four bytes away from
/// the given ones, in both directions.
fn copies_around(memory: &mut Memory, from: u32, to: u32, count: u32) -> bool
    requires size { length memory.old.bytes.ram ≡ 1280 }
    requires source { (4 ≤ from) × (from + count + 4 ≤ 1280) }
    requires target { (4 ≤ to) × (to + count + 4 ≤ 1280) }
    ensures { length memory.new.bytes.ram ≡ 1280 }
{
    for k in 0..81 {
        let one = from - 4 + k / 9;
        let other = to - 4 + k % 9;
        if !copies(memory, one, other, count) || !copies(memory, other, one, count) {
            return false;
        }
    }
    true
}

/// Whether it is true of copies of a few bytes, of one bank, of more than one bank, and of nearly
/// all bytes.
fn copies_over_edges(memory: Memory) -> bool
    requires { length memory.bytes.ram ≡ 1280 }
{
    let mut memory = memory;
    copies_around(&mut memory, 256, 512, 3)
        && copies_around(&mut memory, 256, 512, 256)
        && copies_around(&mut memory, 256, 260, 300)
        && copies_around(&mut memory, 4, 256, 1000)
}

#[test]
fn a_copy_over_three_regions(rt: HostRuntime) -> Result<(), Fail> {
    let regions = [(RAM, 256), (RAM + 256, 256), (RAM + 512, 256)];
    let mut memory = open(rt.alloc(), &regions)?;
    fill(&mut memory);
    copy(&mut memory, 0xF0, 0x110, 300);
    let upwards = [
        memory.byte(RAM + 0x110),
        memory.byte(RAM + 0x23B),
        memory.byte(RAM + 0x23C),
    ];
    fill(&mut memory);
    copy(&mut memory, 0x110, 0xF0, 300);
    let downwards = [
        memory.byte(RAM + 0xF0),
        memory.byte(RAM + 0x21B),
        memory.byte(RAM + 0x21C),
    ];
    assert!(rt; [upwards, downwards] == [[0xF0, 0x1B, 0x3C], [0x10, 0x3B, 0x1C]]);
    Ok(())
}

// The memories have one bank; two banks; five banks, each ending where the next begins; a shared
// region, which is one bank, with stretches between regions; and regions that do not begin at a
// page.
#[test]
fn copies_over_the_edges_of_banks(rt: HostRuntime) -> Result<(), Fail> {
    let alloc = rt.alloc();
    let two = [(RAM, 256)];
    let five = [
        (RAM, 256),
        (RAM + 256, 256),
        (RAM + 512, 256),
        (RAM + 768, 256),
        (RAM + 1024, 256),
    ];
    let shared = [(RAM + 256, 256), (RAM + 1024, 128), (RAM + 256, 256)];
    let odd = [(RAM + 3, 5), (RAM + 8, 1), (RAM + 250, 300)];
    let found = [
        copies_over_edges(open(alloc, &[])?),
        copies_over_edges(open(alloc, &two)?),
        copies_over_edges(open(alloc, &five)?),
        copies_over_edges(open(alloc, &shared)?),
        copies_over_edges(open(alloc, &odd)?),
    ];
    assert!(rt; found == [true, true, true, true, true]);
    Ok(())
}

//! Tests windows of four regions or fewer. A clause says that a window of the memory's regions is
//! opened. That a window of other regions is not opened is only tested here.
ghost use Rattle.std.specs.Prelude.{◌≡◌, ◌<◌, length, slice_set};

use std::test::Fail;
use task_table::{FLASH, Memory, RAM, WindowUser};

/// Reads the first byte of the code and of the second area, and overwrites the first byte of the
/// data and of both areas.
#[derive(Drop)]
pub struct Stamp {
    pub seen: u8,
    pub second_seen: u8,
    pub byte: u8,
}

impl WindowUser for Stamp {
    ghost did = { λ old flash ram area second new after left second_left.
        (after ≡ slice_set ram 0 old.byte) × (left ≡ slice_set area 0 old.byte)
        × (second_left ≡ slice_set second 0 old.byte) };

    fn work(
        &mut self,
        flash: &mut Vec<u8>,
        ram: &mut Vec<u8>,
        area: &mut Vec<u8>,
        second: &mut Vec<u8>,
    ) {
        if flash.len() > 0 {
            self.seen = flash[0];
        }
        if ram.len() > 0 {
            ram[0] = self.byte;
        }
        if area.len() > 0 {
            area[0] = self.byte;
        }
        if second.len() > 0 {
            self.second_seen = second[0];
            second[0] = self.byte;
        }
    }
}

/// Counts the bytes of each region.
#[derive(Drop)]
struct Sizes {
    flash: usize,
    ram: usize,
    area: usize,
    second: usize,
}

impl WindowUser for Sizes {
    ghost did = { λ old flash ram area second new after left second_left. (new.flash ≡ length flash)
        × (new.ram ≡ length ram) × (new.area ≡ length area) × (new.second ≡ length second) };

    fn work(
        &mut self,
        flash: &mut Vec<u8>,
        ram: &mut Vec<u8>,
        area: &mut Vec<u8>,
        second: &mut Vec<u8>,
    ) {
        self.flash = flash.len();
        self.ram = ram.len();
        self.area = area.len();
        self.second = second.len();
    }
}

// No region.
const NONE: (u32, u32) = (RAM, 0);

/// Whether a window of four regions is opened. None if the stamp read or wrote the wrong bytes in
/// it, or if anything is written although no window is opened.
fn is_lent(
    memory: &mut Memory,
    flash: (u32, u32),
    ram: (u32, u32),
    area: (u32, u32),
    second: (u32, u32),
    byte: u8,
) -> Option<bool> {
    let before = [
        memory.byte(ram.0),
        memory.byte(area.0),
        memory.byte(second.0),
    ];
    let mut stamp = Stamp {
        seen: 0,
        second_seen: 0,
        byte,
    };
    let opened = memory.open_window(flash, ram, area, second, &mut stamp);
    let after = [
        memory.byte(ram.0),
        memory.byte(area.0),
        memory.byte(second.0),
    ];
    let seen = (stamp.seen, stamp.second_seen);
    let right = if opened {
        let left = if area.1 > 0 { byte } else { before[1] };
        let (read, second_left) = if second.1 > 0 {
            (before[2], byte)
        } else {
            (0, before[2])
        };
        seen == (memory.byte(flash.0), read) && after == [byte, left, second_left]
    } else {
        seen == (0, 0) && after == before
    };
    right.then_some(opened)
}

// Regions that share a page or do not begin at a page.
const REGIONS: [(u32, u32); 5] = [
    (FLASH, 32),
    (FLASH + 32, 16),
    (RAM + 3, 5),
    (RAM + 8, 24),
    (RAM + 64, 256),
];

/// Whether each area is opened with these two regions, as the first area, as the second one, and
/// together with each other area, exactly if no two of the regions are the same.
fn opens_each_area(memory: &mut Memory, flash: usize, ram: usize) -> bool
    requires flash { flash < 5 }
    requires ram { ram < 5 }
{
    for area in 2..5usize {
        let others = flash != ram && flash != area && ram != area;
        let byte = (16 * flash + ram + 30 * area) as u8;
        let first = is_lent(
            memory,
            REGIONS[flash],
            REGIONS[ram],
            REGIONS[area],
            NONE,
            byte,
        );
        let last = is_lent(
            memory,
            REGIONS[flash],
            REGIONS[ram],
            NONE,
            REGIONS[area],
            byte ^ 0xFF,
        );
        if (first, last) != (Some(others), Some(others)) {
            return false;
        }
        for second in 2..5usize {
            let wanted = Some(others && flash != second && ram != second && area != second);
            let byte = (16 * flash + ram + 30 * area + 7 * second) as u8;
            if is_lent(
                memory,
                REGIONS[flash],
                REGIONS[ram],
                REGIONS[area],
                REGIONS[second],
                byte,
            ) != wanted
            {
                return false;
            }
        }
    }
    true
}

/// Whether each code and data region is opened with no area, with one and with two, exactly if no
/// two of the regions are the same.
fn opens_each_four(memory: &mut Memory) -> bool {
    for flash in 0..5usize {
        for ram in 2..5usize {
            let byte = (16 * flash + ram) as u8;
            if is_lent(memory, REGIONS[flash], REGIONS[ram], NONE, NONE, byte)
                != Some(flash != ram)
            {
                return false;
            }
            if !opens_each_area(memory, flash, ram) {
                return false;
            }
        }
    }
    true
}

// Ranges that are not banks are not opened.
#[test]
fn regions_of_a_memory_are_opened(rt: HostRuntime) -> Result<(), Fail> {
    let mut memory = Memory::open(rt.alloc(), &[7; 64], 512, &REGIONS)?;
    let opens = opens_each_four(&mut memory);
    let code = (FLASH, 32);
    let data = (RAM + 64, 256);
    let others = [
        is_lent(&mut memory, code, (FLASH + 32, 16), NONE, NONE, 9),
        is_lent(&mut memory, (FLASH, 31), (RAM + 3, 5), NONE, NONE, 9),
        is_lent(&mut memory, code, (RAM + 3, 4), NONE, NONE, 9),
        is_lent(&mut memory, code, (RAM + 3, 29), NONE, NONE, 9),
        is_lent(&mut memory, code, (RAM + 4, 5), NONE, NONE, 9),
        is_lent(&mut memory, code, (RAM + 512, 5), NONE, NONE, 9),
        is_lent(&mut memory, code, data, (FLASH + 32, 16), NONE, 9),
        is_lent(&mut memory, code, data, NONE, (FLASH + 32, 16), 9),
        is_lent(&mut memory, code, data, (RAM + 8, 24), (FLASH + 32, 16), 9),
        is_lent(&mut memory, code, data, (RAM + 3, 4), NONE, 9),
        is_lent(&mut memory, code, data, NONE, (RAM + 3, 4), 9),
        is_lent(&mut memory, code, data, (RAM + 8, 24), (RAM + 3, 4), 9),
        is_lent(&mut memory, code, data, (RAM + 4, 5), NONE, 9),
        is_lent(&mut memory, code, data, NONE, (RAM + 4, 5), 9),
        is_lent(&mut memory, code, data, (RAM + 8, 24), (RAM + 4, 5), 9),
        is_lent(&mut memory, code, data, (RAM + 512, 5), NONE, 9),
        is_lent(&mut memory, code, data, NONE, (RAM + 512, 5), 9),
        is_lent(&mut memory, code, data, (RAM + 8, 24), (RAM + 512, 5), 9),
    ];
    assert!(rt; (opens, others) == (true, [Some(false); 18]));
    Ok(())
}

// A code region is opened alone, even if the RAM begins with a region. An empty region elsewhere is
// not accepted as no region.
#[test]
fn a_text_alone_is_opened(rt: HostRuntime) -> Result<(), Fail> {
    let regions = [(FLASH, 32), (RAM, 8)];
    let mut memory = Memory::open(rt.alloc(), &[7; 64], 16, &regions)?;
    let mut sizes = Sizes {
        flash: 99,
        ram: 99,
        area: 99,
        second: 99,
    };
    let opened = memory.open_window((FLASH, 32), NONE, NONE, NONE, &mut sizes);
    let found = (opened, sizes.flash, sizes.ram, sizes.area, sizes.second);
    let beside = memory.open_window((FLASH, 32), NONE, (RAM, 8), NONE, &mut sizes);
    let with_area = (beside, sizes.flash, sizes.ram, sizes.area, sizes.second);
    let last = memory.open_window((FLASH, 32), NONE, NONE, (RAM, 8), &mut sizes);
    let with_second = (last, sizes.flash, sizes.ram, sizes.area, sizes.second);
    sizes.ram = 99;
    let others = [
        memory.open_window((FLASH, 31), NONE, NONE, NONE, &mut sizes),
        memory.open_window((FLASH, 32), (RAM + 8, 0), NONE, NONE, &mut sizes),
        memory.open_window((FLASH, 32), NONE, (RAM + 8, 0), NONE, &mut sizes),
        memory.open_window((FLASH, 32), NONE, NONE, (RAM + 8, 0), &mut sizes),
    ];
    assert!(rt; found == (true, 32, 0, 0, 0));
    assert!(rt; (with_area, with_second) == ((true, 32, 0, 8, 0), (true, 32, 0, 0, 8)));
    assert!(rt; (others, sizes.ram) == ([false; 4], 99));
    Ok(())
}

// The second area of the first window is the data of the second window, and the first area of the
// first window is the second area of the second window.
#[test]
fn a_second_area_is_read_and_written(rt: HostRuntime) -> Result<(), Fail> {
    let mut memory = Memory::open(rt.alloc(), &[7; 64], 512, &REGIONS)?;
    let code = (FLASH, 32);
    let (low, middle, high) = ((RAM + 3, 5), (RAM + 8, 24), (RAM + 64, 256));
    let mut stamp = Stamp {
        seen: 0,
        second_seen: 9,
        byte: 0x5A,
    };
    let opened = memory.open_window(code, low, middle, high, &mut stamp);
    let before = (opened, stamp.second_seen, memory.half(RAM + 64));
    stamp.byte = 0x6B;
    let again = memory.open_window(code, high, low, middle, &mut stamp);
    let after = (again, stamp.second_seen, memory.half(RAM + 8));
    assert!(rt; (before, after) == ((true, 0, 0x5A), (true, 0x5A, 0x6B)));
    Ok(())
}

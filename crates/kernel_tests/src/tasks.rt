ghost use Rattle.std.specs.Prelude.{◌≡◌, ◌≤◌, IfOk, length};
ghost use Rattle.task_table.specs.kept.Holds.{task_count, note_count, memory_of};

use crate::memory::{memory_of, memory_with_ram, store};
use crate::window::Stamp;
use kernel_abi::{Fault, Generation, Health, Note, Usage};
use region_check::{Region, Rights};
use std::alloc::{AllocError, Global};
use std::test::Fail;
use task_table::{FLASH, Found, Kernel, Line, LineStart, RAM, TaskStart};

#[test]
fn memory_at_its_edges(rt: HostRuntime) -> Result<(), Fail> {
    let memory = memory_of(rt.alloc(), &[0x11, 0x22, 0x33, 0x44, 0x55], 8)?;
    let holds = [
        memory.holds(FLASH - 1),
        memory.holds(FLASH + 4),
        memory.holds(FLASH + 5),
        memory.holds(RAM - 1),
        memory.holds(RAM + 7),
        memory.holds(RAM + 8),
        memory.holds(u32::MAX),
    ];
    let bytes = [
        memory.byte(FLASH),
        memory.byte(FLASH + 4),
        memory.byte(RAM + 7),
    ];
    let halves = [
        memory.half(FLASH),
        memory.half(FLASH + 4),
        memory.half(FLASH - 1),
    ];
    let words = [
        memory.word(FLASH + 1),
        memory.word(u32::MAX),
        memory.number(FLASH + 2, 1),
    ];
    assert!(rt; holds == [false, true, false, false, true, false, false]);
    assert!(rt; (bytes, halves) == ([0x11, 0x55, 0], [0x2211, 0x55, 0]));
    assert!(rt; words == [0x5544_3322, 0, 0x33]);
    Ok(())
}

#[test]
fn memory_is_stored_to(rt: HostRuntime) -> Result<(), Fail> {
    let mut memory = memory_of(rt.alloc(), &[], 8)?;
    memory.store(RAM + 4, &[0xAA, 0xBB, 0xCC, 0xDD]);
    let words = [memory.word(RAM + 4), memory.word(RAM + 2)];
    assert!(rt; (words, memory.half(RAM + 7)) == ([0xDDCC_BBAA, 0xBBAA_0000], 0xDD));
    Ok(())
}

#[test]
fn memory_is_copied_from_flash(rt: HostRuntime) -> Result<(), Fail> {
    let mut memory = memory_of(rt.alloc(), &[0x11, 0x22, 0x33], 4)?;
    memory.copy(FLASH + 1, RAM + 1, 2);
    assert!(rt; memory.word(RAM) == 0x0033_2200);
    Ok(())
}

/// Both words of a RAM of eight bytes, after a copy of six bytes inside it.
fn six_copied(alloc: Global, from: u32, to: u32) -> Result<[u32; 2], AllocError>
    requires from { from ≤ 2 }
    requires to { to ≤ 2 }
{
    let mut memory = memory_of(alloc, &[], 8)?;
    store(&mut memory, RAM + from, &[1, 2, 3, 4, 5, 6]);
    memory.copy(RAM + from, RAM + to, 6);
    Ok([memory.word(RAM), memory.word(RAM + 4)])
}

#[test]
fn memory_is_copied_where_ranges_overlap(rt: HostRuntime) -> Result<(), Fail> {
    let upwards = six_copied(rt.alloc(), 0, 2)?;
    let downwards = six_copied(rt.alloc(), 2, 0)?;
    assert!(rt; upwards == [0x0201_0201, 0x0605_0403]);
    assert!(rt; downwards == [0x0403_0201, 0x0605_0605]);
    Ok(())
}

/// A kernel with two tasks and one interrupt line that has an owner. The second task is not
/// started.
fn two_tasks(alloc: Global) -> Result<Kernel, AllocError>
    ensures { IfOk result (λ k. (task_count k ≡ 2) × (note_count k ≡ 0)
        × (length (memory_of k).ram ≡ 8)) }
{
    let memory = memory_with_ram(alloc, &[0x20, 0x21, 0x42], 8)?;
    let region = Region {
        base: RAM,
        size: 8,
        rights: Rights {
            read: true,
            write: true,
            execute: false,
            device: false,
        },
    };
    let tasks = vec![in alloc;
        TaskStart {
            priority: 0,
            started: true,
            entry: FLASH + 1,
            sp: RAM + 8,
            regions: vec![in alloc; region]?,
        },
        TaskStart {
            priority: 3,
            started: false,
            entry: FLASH + 2,
            sp: RAM + 4,
            regions: Vec::new(alloc),
        },
    ]?;
    let lines = [LineStart {
        line: 7,
        task: 1,
        bits: 0x10,
        device: 0,
    }];
    Kernel::start(alloc, memory, 0x8000_0000, &tasks, &lines)
}

#[test]
fn the_start_of_a_run(rt: HostRuntime) -> Result<(), Fail> {
    let kernel = two_tasks(rt.alloc())?;
    let counts = [kernel.task_count(), kernel.notes().len(), kernel.current()];
    let run = (kernel.now(), kernel.next_call(), kernel.fault_bits());
    let lines = [kernel.line(63), kernel.line(64)];
    let names = [
        kernel.lookup(1),
        kernel.lookup(1 + 5 * 1024),
        kernel.lookup(2),
        kernel.lookup(0xFFFF),
    ];
    let off = Line {
        enabled: false,
        pending: false,
    };
    let dead = Found::Dead(Generation { number: 0 });
    assert!(rt; (counts, run, lines) == ([2, 0, 0], (0, 1, 0x8000_0000), [Some(off), None]));
    assert!(rt; names == [Found::Live(1), dead, Found::Out, Found::Out]);
    Ok(())
}

#[test]
fn a_call_is_misused(rt: HostRuntime) -> Result<(), Fail> {
    let mut kernel = two_tasks(rt.alloc())?;
    kernel.misuse(1, Usage::BadReason);
    let health = kernel.health(1);
    let told = (kernel.notes().len(), kernel.notes().get(1).copied());
    let posted = kernel.posted_bits(0);
    kernel.clear_notes();
    let left = kernel.notes().len();
    let post = Note::Post {
        task: 0,
        bits: 0x8000_0000,
        posted: 0x8000_0000,
    };
    assert!(rt; health == Health::Faulted(Fault::usage(Usage::BadReason)));
    assert!(rt; (told, posted, left) == ((2, Some(post)), 0x8000_0000, 0));
    Ok(())
}

#[test]
fn a_kernel_stores_and_lends_its_memory(rt: HostRuntime) -> Result<(), Fail> {
    let mut kernel = two_tasks(rt.alloc())?;
    kernel.store(RAM, &[1, 2]);
    let stored = (kernel.number(RAM, 4), kernel.byte(FLASH + 1));
    let rights = Rights {
        read: true,
        write: false,
        execute: true,
        device: false,
    };
    let flash = Region {
        base: FLASH,
        size: 3,
        rights,
    };
    let ram = Region {
        base: RAM,
        size: 8,
        rights,
    };
    let none = Region {
        base: RAM,
        size: 0,
        rights,
    };
    let mut stamp = Stamp {
        seen: 0,
        second_seen: 0,
        byte: 0x5A,
    };
    let opened = [
        kernel.open_window(&ram, &flash, &none, &none, &mut stamp),
        kernel.open_window(&flash, &ram, &none, &none, &mut stamp),
        kernel.open_window(&flash, &ram, &ram, &none, &mut stamp),
        kernel.open_window(&flash, &none, &ram, &none, &mut stamp),
    ];
    let left = kernel.number(RAM, 2);
    stamp.byte = 0x6B;
    let with_second = [
        kernel.open_window(&flash, &none, &none, &ram, &mut stamp),
        kernel.open_window(&flash, &ram, &none, &ram, &mut stamp),
        kernel.open_window(&flash, &none, &ram, &ram, &mut stamp),
    ];
    let second_left = (stamp.second_seen, kernel.number(RAM, 2));
    assert!(rt; stored == (0x0201, Some(0x21)));
    assert!(rt; (opened, stamp.seen, left) == ([false, true, false, true], 0x20, 0x025A));
    assert!(rt; (with_second, second_left) == ([true, false, false], (0x5A, 0x026B)));
    Ok(())
}

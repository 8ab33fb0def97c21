//! Runs a loop of ten instructions for the number of steps in its argument, and prints how many
//! steps it made and a checksum of the registers. Each step decodes its instruction again.
#![tactic(auto)]

mod words;

ghost use Rattle.std.specs.Prelude.{◌%◌};

use crate::words::Words;
use std::{env, io};
use thumb_exec::cpu::{Cpu, Outcome};
use thumb_exec::lazy_flags::LazyFlags;
use thumb_step::step;
use words_core::{Flags, PROGRAM_COUNTER, Regs, STACK_POINTER};

/// Executes one instruction. Returns false if the program does not go on after it.
fn goes_on(cpu: &mut Cpu, bus: &mut Words) -> bool {
    if cpu.regs.get(PROGRAM_COUNTER) % 2 != 0 {
        return false;
    }
    step(cpu, bus) == Outcome::Next
}

/// A checksum of the registers, which shows whether every step was made.
fn checksum(regs: &Regs) -> u32 {
    let mut sum = 0_u32;
    for i in 0..16_usize {
        sum = sum.rotate_left(5).wrapping_add(regs.get(i));
    }
    sum
}

fn main(rt: HostRuntime) -> io::Result<()> {
    let mut steps = 0_u64;
    for word in env::args(&rt)?.skip(1) {
        steps = word.as_str().parse::<u64>().unwrap_or(0);
    }
    let mut bus = Words::new();
    let mut regs = Regs::of([0; 16]);
    regs.set(4, 0x2000_0000);
    regs.set(STACK_POINTER, 0x2000_0100);
    regs.set(PROGRAM_COUNTER, 0x0800_0000);
    let flags = Flags {
        n: false,
        z: false,
        c: false,
        v: false,
    };
    let mut cpu = Cpu {
        regs,
        flags: LazyFlags::of(flags),
    };
    let mut done = 0_u64;
    for _ in 0..steps {
        if !goes_on(&mut cpu, &mut bus) {
            break;
        }
        done = done.saturating_add(1);
    }
    let sum = checksum(&cpu.regs);
    println!(rt; "{done} steps, checksum {sum:08x}")
}

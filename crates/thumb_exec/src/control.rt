//! Branches, and results that go to any register.
ghost use Rattle.std.specs.Prelude.{◌≡◌, ◌<◌, ◌/◌, ◌*◌, ◌%◌, ◌-◌, MatchOption, [], true, false};
ghost use Rattle.thumb_exec.specs.Effect.{Next, operand, place, holds_if, target, branch_to, link_to, linked, base, changed, apsr, flags_from, Effects};

use crate::arith::{get, go_past};
use crate::cpu::{Cpu, Outcome};
use crate::lazy_flags::LazyFlags;
use kernel_abi::Fault;
use thumb_insn::{Bytes, Cond, Reg};
use words_core::{Flags, LINK_REGISTER, PROGRAM_COUNTER, STACK_POINTER, extend};

/// A register as an operand: PC reads as the address plus 4.
pub fn operand(cpu: &Cpu, r: Reg) -> u32
    requires { r.number < 16 }
    ensures { result ≡ operand cpu.now r }
{
    if usize::from(r.number) == PROGRAM_COUNTER {
        cpu.regs.get(PROGRAM_COUNTER).wrapping_add(4)
    } else {
        get(cpu, r)
    }
}

/// Writes a result without flags and goes on. To PC it is a branch; to SP the two low bits are
/// cleared.
pub fn put_any(cpu: &mut Cpu, d: Reg, value: u32)
    requires { d.number < 16 }
    ensures { place cpu.old d value ≡ Next cpu.new [] }
{
    if usize::from(d.number) == PROGRAM_COUNTER {
        cpu.regs.set(PROGRAM_COUNTER, value / 2 * 2);
    } else if usize::from(d.number) == STACK_POINTER {
        cpu.regs.set(STACK_POINTER, value / 4 * 4);
        go_past(cpu, 2);
    } else {
        cpu.regs.set(usize::from(d.number), value);
        go_past(cpu, 2);
    }
}

/// Whether the condition holds (section A6.3). For speed the flags are passed by reference: those
/// that the condition does not need are not read.
pub fn holds(cond: Cond, f: &LazyFlags) -> bool
    ensures { result ≡ holds_if cond f.now }
{
    match cond {
        Cond::Eq => f.z(),
        Cond::Ne => !f.z(),
        Cond::Cs => f.c(),
        Cond::Cc => !f.c(),
        Cond::Mi => f.n(),
        Cond::Pl => !f.n(),
        Cond::Vs => f.v(),
        Cond::Vc => !f.v(),
        Cond::Hi => f.c() && !f.z(),
        Cond::Ls => !(f.c() && !f.z()),
        Cond::Ge => f.n() == f.v(),
        Cond::Lt => f.n() != f.v(),
        Cond::Gt => f.n() == f.v() && !f.z(),
        Cond::Le => !(f.n() == f.v() && !f.z()),
    }
}

/// The target of an offset, which counts from the address plus 4.
pub fn target(cpu: &Cpu, offset: i32) -> u32
    ensures { result ≡ target cpu.now offset }
{
    cpu.regs
        .get(PROGRAM_COUNTER)
        .wrapping_add(4)
        .wrapping_add(offset.cast_unsigned())
}

/// The target of a branch to a value; None if bit 0 is not set.
#[inline(always)]
pub fn code_address(value: u32) -> Option<u32>
    ensures { MatchOption result (value % 2 ≡ 0) (λ to. (value % 2 ≡ 1) × (to ≡ value - 1)) }
{
    if value % 2 == 0 {
        None
    } else {
        Some(value - 1)
    }
}

/// A branch to a value, which needs bit 0 set.
pub fn branch_to(cpu: &mut Cpu, value: u32) -> Outcome
    ensures { Effects cpu.old cpu.new result (branch_to cpu.old value) }
{
    let Some(to) = code_address(value) else {
        return Outcome::Trap(Fault::state(value));
    };
    cpu.regs.set(PROGRAM_COUNTER, to);
    Outcome::Next
}

/// Puts the address of the next instruction, n bytes further, into LR, with bit 0 set.
pub fn link(cpu: &mut Cpu, n: u32)
    requires { n < 8 }
    ensures { cpu.new ≡ linked cpu.old n }
{
    let at = cpu.regs.get(PROGRAM_COUNTER).wrapping_add(n);
    cpu.regs.set(LINK_REGISTER, at / 2 * 2 + 1);
}

/// A branch with link to a value, which needs bit 0 set.
pub fn link_to(cpu: &mut Cpu, value: u32) -> Outcome
    ensures { Effects cpu.old cpu.new result (link_to cpu.old value) }
{
    let Some(to) = code_address(value) else {
        return Outcome::Trap(Fault::state(value));
    };
    link(cpu, 2);
    cpu.regs.set(PROGRAM_COUNTER, to);
    Outcome::Next
}

/// PC as a base: the address plus 4, aligned down to a word.
pub fn base(cpu: &Cpu) -> u32
    ensures { result ≡ base cpu.now }
{
    cpu.regs.get(PROGRAM_COUNTER).wrapping_add(4) / 4 * 4
}

/// Extends the low part of a word, or reverses bytes.
pub fn change(bytes: Bytes, v: u32) -> u32
    ensures { result ≡ changed bytes v }
{
    match bytes {
        Bytes::Sxth => extend(v, 16, true),
        Bytes::Sxtb => extend(v, 8, true),
        Bytes::Uxth => extend(v, 16, false),
        Bytes::Uxtb => extend(v, 8, false),
        Bytes::Rev => v % 256 * 0x100_0000
            + (v >> 8) % 256 * 0x1_0000
            + (v >> 16) % 256 * 0x100
            + (v >> 24),
        Bytes::Rev16 => (v >> 16) % 256 * 0x100_0000
            + (v >> 24) * 0x1_0000
            + v % 256 * 0x100
            + (v >> 8) % 256,
        Bytes::Revsh => extend(v % 256 * 0x100 + (v >> 8) % 256, 16, true),
    }
}

/// The flags in bits 31 to 28.
pub fn flags_word(cpu: &Cpu) -> u32
    ensures { result ≡ apsr cpu.now.flags }
{
    let f = cpu.flags.told();
    let n = if f.n { 0x8000_0000 } else { 0 };
    let z = if f.z { 0x4000_0000 } else { 0 };
    let c = if f.c { 0x2000_0000 } else { 0 };
    let v = if f.v { 0x1000_0000 } else { 0 };
    n + z + c + v
}

/// Bits 31 to 28 as flags.
pub fn flags_of(v: u32) -> Flags
    ensures { result ≡ flags_from v }
{
    Flags {
        n: (v >> 31) % 2 == 1,
        z: (v >> 30) % 2 == 1,
        c: (v >> 29) % 2 == 1,
        v: (v >> 28) % 2 == 1,
    }
}

//! Loads and stores of several words, all or nothing: each word is tested before the first one
//! moves. A mask has bit k for register k.
ghost use Rattle.std.specs.Prelude.{◌≡◌, ◌<◌, ◌≤◌, ◌+◌, ◌/◌, ◌%◌, ◌^◌, ℕ, nat_eq, ◌∷◌, true, false, if◌then◌else◌, None, IfSome, IfNone};
ghost use Rattle.region_check.specs.declared.Right.{Right as Rights};
ghost use Rattle.region_check.specs.declared.Right.TheVariants as rights;
ghost use Rattle.thumb_exec.specs.Effect.{Acts, Moves, transfers, first_refused, stores_of, loads_of, loaded_all, count, store_all, effect, go_past, put};
ghost use Rattle.thumb_insn.specs.declared.Insn.TheVariants as insns;

use crate::arith::{get, go_past, set};
use crate::bus::Bus;
use crate::control::code_address;
use crate::cpu::{Cpu, Outcome};
use kernel_abi::{Access, Fault};
use region_check::Right;
use thumb_insn::Reg;
use words_core::{PROGRAM_COUNTER, Regs, STACK_POINTER};

/// How many registers a mask has.
#[tactic(auto, using(crate::proofs::Lowest::ones_counted))]
pub fn count_of(mask: u16) -> u32
    ensures value { result ≡ count mask }
    ensures low { result ≤ 16 }
{
    mask.count_ones()
}

/// The lowest register of a mask, and the mask without it.
#[inline(always)]
fn split_lowest(mask: u16) -> (usize, u16)
    requires { 0 < mask }
    ensures first { (addr : ℕ) → transfers mask addr ≡ (result.0, addr) ∷ transfers result.1
        ((addr + 4) % 2 ^ 32) }
    ensures register { result.0 < 16 }
    ensures rest { result.1 < mask }
{
    (mask.trailing_zeros() as usize, mask & (mask - 1))
}

/// The first byte that lacks the right, in the order of transfer.
fn refused<B: Bus>(bus: &B, mask: u16, addr: u32, right: Right) -> Option<u32>
    requires { addr % 4 ≡ 0 }
    ensures { result ≡ first_refused (B.refuses bus.now) right (transfers mask addr) }
{
    if bus.gives(addr, count_of(mask), right) {
        return None;
    }
    let mut at = addr;
    let mut rest = mask;
    while rest != 0 {
        let (_, others) = split_lowest(rest);
        if let Some(byte) = bus.allows(at, 4, right) {
            return Some(byte);
        }
        at = at.wrapping_add(4);
        rest = others;
    }
    None
}

/// A word that may be loaded.
fn load_word<B: Bus>(bus: &B, addr: u32) -> u32
    requires aligned { addr % 4 ≡ 0 }
    requires allowed { B.refuses bus.now addr 4 rights.Read ≡ None }
    ensures { result ≡ B.holds bus.now addr 4 }
{
    match bus.load(addr, 4) {
        Ok(word) => word,
        Err(_) => unreachable!(),
    }
}

/// Stores a word that may be stored.
fn store_word<B: Bus>(bus: &mut B, addr: u32, value: u32)
    requires aligned { addr % 4 ≡ 0 }
    requires allowed { B.refuses bus.old addr 4 rights.Write ≡ None }
    ensures done { B.stored bus.old addr 4 value bus.new }
    ensures kept { (a n : ℕ) (r : Rights) → B.refuses bus.new a n r ≡ B.refuses bus.old a n r }
{
    match bus.store(addr, 4, value) {
        Ok(()) => {}
        Err(_) => unreachable!(),
    }
}

/// Loads the registers of a mask from ascending words.
fn load_words<B: Bus>(regs: &mut Regs, bus: &B, mask: u16, addr: u32)
    requires aligned { addr % 4 ≡ 0 }
    requires allowed { first_refused (B.refuses bus.now) rights.Read (transfers mask addr) ≡ None }
    ensures { regs.new ≡ loaded_all (B.holds bus.now) regs.old (transfers mask addr) }
{
    let mut at = addr;
    let mut rest = mask;
    while rest != 0 {
        let (k, others) = split_lowest(rest);
        regs.set(k, load_word(bus, at));
        at = at.wrapping_add(4);
        rest = others;
    }
}

/// Is called after the words of a mask were loaded: a device removes what the loads took.
fn take_words<B: Bus>(bus: &mut B, mask: u16, addr: u32)
    ensures { Moves B.stored B.took bus.old (loads_of (transfers mask addr)) bus.new }
{
    if !bus.takes() {
        return;
    }
    let mut at = addr;
    let mut rest = mask;
    while rest != 0 {
        let (_, others) = split_lowest(rest);
        bus.taken(at);
        at = at.wrapping_add(4);
        rest = others;
    }
}

/// Stores the registers of a mask to ascending words.
fn store_words<B: Bus>(regs: &Regs, bus: &mut B, mask: u16, addr: u32)
    requires aligned { addr % 4 ≡ 0 }
    requires allowed { first_refused (B.refuses bus.old) rights.Write (transfers mask addr) ≡ None }
    ensures { Moves B.stored B.took bus.old (stores_of regs.now (transfers mask addr)) bus.new }
{
    let mut at = addr;
    let mut rest = mask;
    while rest != 0 {
        let (k, others) = split_lowest(rest);
        store_word(bus, at, regs.get(k));
        at = at.wrapping_add(4);
        rest = others;
    }
}

/// Stores the registers of a mask to ascending words. If a byte lacks the right, it stores nothing
/// and returns the first one.
#[inline(always)]
fn store_if_allowed<B: Bus>(regs: &Regs, bus: &mut B, mask: u16, addr: u32) -> Option<u32>
    requires { addr % 4 ≡ 0 }
    ensures tells { result ≡ first_refused (B.refuses bus.old) rights.Write (transfers mask addr) }
    ensures nothing { IfSome result (λ at. bus.new ≡ bus.old) }
    ensures all { IfNone result (Moves B.stored B.took bus.old
        (stores_of regs.now (transfers mask addr)) bus.new) }
{
    let refusal = refused(bus, mask, addr, Right::Write);
    if refusal.is_none() {
        store_words(regs, bus, mask, addr);
    }
    refusal
}

/// The mask of a list of low registers, with the bit of one more register if `more`.
pub fn mask_of(list: u8, more: bool, bit: u16) -> u16
    requires { bit ≤ 0x8000 }
    ensures { result ≡ (if more then list + bit else list) }
{
    if more {
        u16::from(list) + bit
    } else {
        u16::from(list)
    }
}

/// Stores the registers of a mask from an address on, and then puts a word into a register.
#[inline(never)]
pub fn store_all<B: Bus>(
    cpu: &mut Cpu,
    bus: &mut B,
    mask: u16,
    addr: u32,
    d: Reg,
    value: u32,
) -> Outcome
    requires { d.number < 16 }
    ensures { Acts B.stored B.took cpu.old cpu.new bus.old bus.new result
        (store_all (B.refuses bus.old) cpu.old mask addr (go_past 2 (put cpu.old d.number value))) }
{
    if addr % 4 != 0 {
        return Outcome::Trap(Fault::unaligned(addr, true));
    }
    if let Some(at) = store_if_allowed(&cpu.regs, bus, mask, addr) {
        return Outcome::Trap(Fault::access(at, Access::Store));
    }
    set(cpu, d, value, 2);
    Outcome::Next
}

/// Whether a mask has a register.
#[inline(always)]
fn has(mask: u16, r: Reg) -> bool
    requires { r.number < 16 }
    ensures { result ≡ nat_eq (mask / 2 ^ r.number % 2) 1 }
{
    (mask >> r.number) % 2 == 1
}

/// Loads the registers of a mask from the address in a base register on, and raises the base unless
/// it is loaded too.
#[tactic(auto, unfolding(crate::specs::Effect::effect))]
#[inline(never)]
pub fn ldm<B: Bus>(cpu: &mut Cpu, bus: &mut B, n: Reg, list: u8) -> Outcome
    requires { n.number < 8 }
    ensures { Acts B.stored B.took cpu.old cpu.new bus.old bus.new result
        (effect (B.refuses bus.old) (B.holds bus.old) cpu.old (insns.Ldm n list)) }
{
    let mask = u16::from(list);
    let addr = get(cpu, n);
    if addr % 4 != 0 {
        return Outcome::Trap(Fault::unaligned(addr, false));
    }
    if let Some(at) = refused(bus, mask, addr, Right::Read) {
        return Outcome::Trap(Fault::access(at, Access::Load));
    }
    load_words(&mut cpu.regs, bus, mask, addr);
    if !has(mask, n) {
        cpu.regs.set(usize::from(n.number), addr.wrapping_add(4 * count_of(mask)));
    }
    take_words(bus, mask, addr);
    go_past(cpu, 2);
    Outcome::Next
}

/// Loads the registers of a mask from SP on, and raises SP. PC is the last one, and is a branch.
#[tactic(auto, unfolding(crate::specs::Effect::effect))]
#[inline(never)]
pub fn pop<B: Bus>(cpu: &mut Cpu, bus: &mut B, list: u8, has_pc: bool) -> Outcome
    ensures { Acts B.stored B.took cpu.old cpu.new bus.old bus.new result
        (effect (B.refuses bus.old) (B.holds bus.old) cpu.old (insns.Pop list has_pc)) }
{
    let mask = mask_of(list, has_pc, 0x8000);
    let addr = cpu.regs.get(STACK_POINTER);
    if addr % 4 != 0 {
        return Outcome::Trap(Fault::unaligned(addr, false));
    }
    if let Some(at) = refused(bus, mask, addr, Right::Read) {
        return Outcome::Trap(Fault::access(at, Access::Load));
    }
    let before = cpu.regs;
    load_words(&mut cpu.regs, bus, mask, addr);
    let target = cpu.regs.get(PROGRAM_COUNTER);
    cpu.regs
        .set(STACK_POINTER, addr.wrapping_add(4 * count_of(mask)));
    if has_pc {
        let Some(to) = code_address(target) else {
            cpu.regs = before;
            return Outcome::Trap(Fault::state(target));
        };
        cpu.regs.set(PROGRAM_COUNTER, to);
    } else {
        go_past(cpu, 2);
    }
    take_words(bus, mask, addr);
    Outcome::Next
}

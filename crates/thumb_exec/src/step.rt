//! One instruction, by the rows of the table. One function executes each family of instructions.
ghost use Rattle.std.specs.Prelude.{◌≡◌, ◌<◌, [], true, false};
ghost use Rattle.thumb_exec.specs.Effect.{Acts, Effects, Halts, Next, Refusals, Contents, effect, load_effect, store_effect, store_all, sum_to, put, go_past, shifted, sum, get};
ghost use Rattle.thumb_exec.specs.declared.cpu.Outcome.TheVariants as outcome;
ghost use Rattle.thumb_exec.specs.Families.{IsSum, IsData, IsAddress, IsBranch, IsJump, IsSystem, IsLoad, IsStore, IsStoreAll, IsRest};
ghost use Rattle.thumb_insn.specs.Range.{InRange, IsCoded};

use crate::arith::{
    carry, compare, data, finish_add, finish_nz, finish_nzc, finish_subtract, get, go_past, set,
};
use crate::bus::Bus;
use crate::control::{
    base, branch_to, change, flags_of, flags_word, holds, link, link_to, operand, put_any, target,
};
use crate::cpu::{Cpu, Outcome};
use crate::lazy_flags::LazyFlags;
use crate::memory::{load, store};
use crate::several::{count_of, ldm, mask_of, pop, store_all};
use kernel_abi::Fault;
use thumb_insn::{Insn, Load, Reg, Shift, Size};
use words_core::{PROGRAM_COUNTER, STACK_POINTER, asr, lsl, lsr};

/// SP, as a register of an instruction.
const SP: Reg = Reg {
    number: STACK_POINTER as u8,
};

/// A shift by a number of bits.
#[inline(always)]
fn shift(by: Shift, x: u32, n: u8, c: bool) -> (u32, bool)
    ensures { result ≡ shifted by x n c }
{
    match by {
        Shift::Lsl => lsl(x, n, c),
        Shift::Lsr => lsr(x, n, c),
        Shift::Asr => asr(x, n, c),
    }
}

/// Sums and differences.
#[tactic(auto, unfolding(crate::specs::Effect::effect))]
#[inline(always)]
fn sum(cpu: &mut Cpu, insn: Insn)
    requires family { IsSum insn }
    requires range { InRange insn }
    ensures { (refuses : Refusals) (holds : Contents) →
        effect refuses holds cpu.old insn ≡ Next cpu.new [] }
{
    match insn {
        Insn::AddsReg { d, n, m } => finish_add(cpu, d, get(cpu, n), get(cpu, m)),
        Insn::SubsReg { d, n, m } => finish_subtract(cpu, d, get(cpu, n), get(cpu, m)),
        Insn::AddsImm3 { d, n, value } => finish_add(cpu, d, get(cpu, n), value),
        Insn::SubsImm3 { d, n, value } => finish_subtract(cpu, d, get(cpu, n), value),
        Insn::AddsImm8 { d, value } => finish_add(cpu, d, get(cpu, d), value),
        Insn::SubsImm8 { d, value } => finish_subtract(cpu, d, get(cpu, d), value),
        _ => unreachable!(),
    }
}

/// Other operations on low registers, immediates or flags.
#[tactic(auto, unfolding(crate::specs::Effect::effect))]
#[inline(always)]
fn compute(cpu: &mut Cpu, insn: Insn)
    requires family { IsData insn }
    requires range { InRange insn }
    ensures { (refuses : Refusals) (holds : Contents) →
        effect refuses holds cpu.old insn ≡ Next cpu.new [] }
{
    match insn {
        Insn::ShiftImm {
            shift: kind,
            d,
            m,
            by,
        } => {
            let shifted = shift(kind, get(cpu, m), by as u8, carry(cpu));
            finish_nzc(cpu, d, shifted);
        }
        Insn::MovsImm { d, value } => {
            finish_nz(cpu, d, value);
        }
        Insn::CmpImm { n, value } => compare(cpu, n, value),
        Insn::CmpHigh { n, m } => {
            let y = get(cpu, m);
            compare(cpu, n, y);
        }
        Insn::Data { op, d, m } => data(cpu, op, d, m),
        Insn::Change { bytes, d, m } => {
            let value = change(bytes, get(cpu, m));
            set(cpu, d, value, 2);
        }
        Insn::Mrs { d } => {
            let value = flags_word(cpu);
            set(cpu, d, value, 4);
        }
        _ => unreachable!(),
    }
}

/// Instructions that read or write SP, PC or a high register, and change no flags.
#[tactic(auto, unfolding(crate::specs::Effect::effect))]
#[inline(always)]
fn place(cpu: &mut Cpu, insn: Insn)
    requires family { IsAddress insn }
    requires range { InRange insn }
    ensures { (refuses : Refusals) (holds : Contents) →
        effect refuses holds cpu.old insn ≡ Next cpu.new [] }
{
    match insn {
        Insn::AddHigh { d, m } => {
            let sum = operand(cpu, d).wrapping_add(operand(cpu, m));
            put_any(cpu, d, sum);
        }
        Insn::MovHigh { d, m } => {
            let value = operand(cpu, m);
            put_any(cpu, d, value);
        }
        Insn::Adr { d, offset } => {
            let value = base(cpu).wrapping_add(offset);
            set(cpu, d, value, 2);
        }
        Insn::AddSp { d, offset } => {
            let value = cpu.regs.get(STACK_POINTER).wrapping_add(offset);
            set(cpu, d, value, 2);
        }
        Insn::RaiseSp { offset } => {
            let value = cpu.regs.get(STACK_POINTER).wrapping_add(offset);
            set(cpu, SP, value, 2);
        }
        Insn::LowerSp { offset } => {
            let value = cpu.regs.get(STACK_POINTER).wrapping_sub(offset);
            set(cpu, SP, value, 2);
        }
        _ => unreachable!(),
    }
}

/// Branches by an offset, which always go on.
#[tactic(auto, unfolding(crate::specs::Effect::effect))]
#[inline(always)]
fn branch(cpu: &mut Cpu, insn: Insn)
    requires family { IsBranch insn }
    requires range { InRange insn }
    ensures { (refuses : Refusals) (holds : Contents) →
        effect refuses holds cpu.old insn ≡ Next cpu.new [] }
{
    match insn {
        Insn::BranchIf { cond, offset } => {
            if holds(cond, &cpu.flags) {
                let to = target(cpu, offset);
                cpu.regs.set(PROGRAM_COUNTER, to);
            } else {
                go_past(cpu, 2);
            }
        }
        Insn::Branch { offset } => {
            let to = target(cpu, offset);
            cpu.regs.set(PROGRAM_COUNTER, to);
        }
        Insn::Bl { offset } => {
            let to = target(cpu, offset);
            link(cpu, 4);
            cpu.regs.set(PROGRAM_COUNTER, to);
        }
        _ => unreachable!(),
    }
}

/// Branches to a register.
#[tactic(auto, unfolding(crate::specs::Effect::effect))]
#[inline(always)]
fn jump(cpu: &mut Cpu, insn: Insn) -> Outcome
    requires family { IsJump insn }
    requires range { InRange insn }
    ensures { (refuses : Refusals) (holds : Contents) →
        Effects cpu.old cpu.new result (effect refuses holds cpu.old insn) }
{
    match insn {
        Insn::Bx { m } => {
            let value = get(cpu, m);
            branch_to(cpu, value)
        }
        Insn::Blx { m } => {
            let value = get(cpu, m);
            link_to(cpu, value)
        }
        _ => unreachable!(),
    }
}

/// Hints, barriers, and the write of the flags from a register.
#[tactic(auto, unfolding(crate::specs::Effect::effect))]
#[inline(always)]
fn system(cpu: &mut Cpu, insn: Insn)
    requires family { IsSystem insn }
    requires range { InRange insn }
    ensures { (refuses : Refusals) (holds : Contents) →
        effect refuses holds cpu.old insn ≡ Next cpu.new [] }
{
    match insn {
        Insn::Cpsie | Insn::Cpsid | Insn::Hint { .. } => go_past(cpu, 2),
        Insn::Fence { .. } => go_past(cpu, 4),
        Insn::Msr { n } => {
            cpu.flags = LazyFlags::of(flags_of(get(cpu, n)));
            go_past(cpu, 4);
        }
        _ => unreachable!(),
    }
}

/// The address at an offset from the word in a register.
#[inline(always)]
fn address(cpu: &Cpu, n: Reg, offset: u32) -> u32
    requires { n.number < 16 }
    ensures { result ≡ sum (get cpu.now n) offset }
{
    get(cpu, n).wrapping_add(offset)
}

/// A load of one unit: its kind, its register and its address.
#[tactic(auto, unfolding(crate::specs::Effect::effect))]
#[inline(always)]
fn loading(cpu: &Cpu, insn: Insn) -> (Load, Reg, u32)
    requires family { IsLoad insn }
    requires range { InRange insn }
    ensures effect { (refuses : Refusals) (holds : Contents) →
        effect refuses holds cpu.now insn ≡ load_effect refuses holds cpu.now result.0 result.1
        result.2 }
    ensures register { result.1.number < 16 }
{
    match insn {
        Insn::LdrLiteral { t, offset } => {
            let addr = base(cpu).wrapping_add(offset);
            (Load::Whole(Size::Word), t, addr)
        }
        Insn::LoadReg { load, t, n, m } => {
            let addr = address(cpu, n, get(cpu, m));
            (load, t, addr)
        }
        Insn::LoadImm { size, t, n, offset } => {
            let addr = address(cpu, n, offset);
            (Load::Whole(size), t, addr)
        }
        Insn::LoadSp { t, offset } => {
            let addr = cpu.regs.get(STACK_POINTER).wrapping_add(offset);
            (Load::Whole(Size::Word), t, addr)
        }
        _ => unreachable!(),
    }
}

/// A store of one unit: its size, its register and its address.
#[tactic(auto, unfolding(crate::specs::Effect::effect))]
#[inline(always)]
fn storing(cpu: &Cpu, insn: Insn) -> (Size, Reg, u32)
    requires family { IsStore insn }
    requires range { InRange insn }
    ensures effect { (refuses : Refusals) (holds : Contents) →
        effect refuses holds cpu.now insn ≡ store_effect refuses cpu.now result.0 result.1
        result.2 }
    ensures register { result.1.number < 16 }
{
    match insn {
        Insn::StoreReg { size, t, n, m } => {
            let addr = address(cpu, n, get(cpu, m));
            (size, t, addr)
        }
        Insn::StoreImm { size, t, n, offset } => {
            let addr = address(cpu, n, offset);
            (size, t, addr)
        }
        Insn::StoreSp { t, offset } => {
            let addr = cpu.regs.get(STACK_POINTER).wrapping_add(offset);
            (Size::Word, t, addr)
        }
        _ => unreachable!(),
    }
}

/// A store of several words: the registers and the address, and then the register that changes and
/// its word.
#[tactic(auto, unfolding(crate::specs::Effect::effect))]
#[inline(always)]
fn storing_all(cpu: &Cpu, insn: Insn) -> (u16, u32, Reg, u32)
    requires family { IsStoreAll insn }
    requires range { InRange insn }
    ensures effect { (refuses : Refusals) (holds : Contents) →
        effect refuses holds cpu.now insn ≡ store_all refuses cpu.now result.0 result.1
        (go_past 2 (put cpu.now result.2.number result.3)) }
    ensures register { result.2.number < 16 }
{
    match insn {
        Insn::Push { list, lr } => {
            let mask = mask_of(list, lr, 0x4000);
            let addr = cpu.regs.get(STACK_POINTER).wrapping_sub(4 * count_of(mask));
            (mask, addr, SP, addr)
        }
        Insn::Stm { n, list } => {
            let mask = u16::from(list);
            let addr = get(cpu, n);
            (mask, addr, n, addr.wrapping_add(4 * count_of(mask)))
        }
        _ => unreachable!(),
    }
}

/// Executes a branch to a register, or a rare instruction.
#[tactic(auto, unfolding(crate::specs::Effect::effect))]
#[inline(never)]
fn rest(cpu: &mut Cpu, insn: Insn) -> Outcome
    requires range { InRange insn }
    requires rest { IsRest insn }
    ensures { (refuses : Refusals) (holds : Contents) →
        Effects cpu.old cpu.new result (effect refuses holds cpu.old insn) }
{
    match insn {
        Insn::Bx { .. } | Insn::Blx { .. } => jump(cpu, insn),
        Insn::Bkpt { value } => Outcome::Trap(Fault::breakpoint(value)),
        Insn::Cpsie | Insn::Cpsid | Insn::Hint { .. } | Insn::Fence { .. } | Insn::Msr { .. } => {
            system(cpu, insn);
            Outcome::Next
        }
        _ => unreachable!(),
    }
}

/// Executes an instruction whose fields are in range.
#[tactic(auto, using(crate::proofs::Acting::acts_next, crate::proofs::Acting::acts_of), unfolding(crate::specs::Effect::effect))]
#[inline(always)]
fn step<B: Bus>(cpu: &mut Cpu, insn: Insn, bus: &mut B) -> Outcome
    requires { InRange insn }
    ensures { Acts B.stored B.took cpu.old cpu.new bus.old bus.new result
        (effect (B.refuses bus.old) (B.holds bus.old) cpu.old insn) }
{
    match insn {
        Insn::AddsReg { .. }
        | Insn::SubsReg { .. }
        | Insn::AddsImm3 { .. }
        | Insn::SubsImm3 { .. }
        | Insn::AddsImm8 { .. }
        | Insn::SubsImm8 { .. } => {
            sum(cpu, insn);
            Outcome::Next
        }
        Insn::ShiftImm { .. }
        | Insn::MovsImm { .. }
        | Insn::CmpImm { .. }
        | Insn::CmpHigh { .. }
        | Insn::Data { .. }
        | Insn::Change { .. }
        | Insn::Mrs { .. } => {
            compute(cpu, insn);
            Outcome::Next
        }
        Insn::AddHigh { .. }
        | Insn::MovHigh { .. }
        | Insn::Adr { .. }
        | Insn::AddSp { .. }
        | Insn::RaiseSp { .. }
        | Insn::LowerSp { .. } => {
            place(cpu, insn);
            Outcome::Next
        }
        Insn::BranchIf { .. } | Insn::Branch { .. } | Insn::Bl { .. } => {
            branch(cpu, insn);
            Outcome::Next
        }
        Insn::LdrLiteral { .. }
        | Insn::LoadReg { .. }
        | Insn::LoadImm { .. }
        | Insn::LoadSp { .. } => {
            let (kind, t, addr) = loading(cpu, insn);
            load(cpu, bus, kind, t, addr)
        }
        Insn::StoreReg { .. } | Insn::StoreImm { .. } | Insn::StoreSp { .. } => {
            let (size, t, addr) = storing(cpu, insn);
            store(cpu, bus, size, t, addr)
        }
        Insn::Push { .. } | Insn::Stm { .. } => {
            let (mask, addr, d, value) = storing_all(cpu, insn);
            store_all(cpu, bus, mask, addr, d, value)
        }
        Insn::Ldm { n, list } => ldm(cpu, bus, n, list),
        Insn::Pop { list, pc } => pop(cpu, bus, list, pc),
        Insn::Svc { .. } => Outcome::Call,
        _ => rest(cpu, insn),
    }
}

/// Executes an instruction at PC that has a code. Its effect is exactly that of its row in the
/// table of instructions (docs/FORMATS.md; ARMv6-M Architecture Reference Manual, A6.7).
///
/// Faults are tested in this order: Unaligned, Access at the first byte in order of transfer that
/// lacks its right, State, Breakpoint. A fault and a system call do not change processor and bus;
/// the kernel moves PC past a system call.
#[tactic(auto, using(thumb_insn::proofs::InRange::coded_in_range))]
#[inline(never)]
pub fn exec<B: Bus>(cpu: &mut Cpu, insn: &Insn, bus: &mut B) -> Outcome
    requires { IsCoded insn.now }
    ensures { Acts B.stored B.took cpu.old cpu.new bus.old bus.new result
        (effect (B.refuses bus.old) (B.holds bus.old) cpu.old insn.now) }
{
    step(cpu, *insn, bus)
}

/// Executes an instruction at PC that has a code, as `exec` does, if it goes on. If it is a system
/// call or faults, nothing changes and the answer is false.
#[tactic(auto, using(thumb_insn::proofs::InRange::coded_in_range, crate::proofs::Acting::acts_halted))]
#[inline(always)]
pub fn proceed<B: Bus>(cpu: &mut Cpu, insn: &Insn, bus: &mut B) -> bool
    requires { IsCoded insn.now }
    ensures done { result ≡ true → Acts B.stored B.took cpu.old cpu.new bus.old bus.new outcome.Next
        (effect (B.refuses bus.old) (B.holds bus.old) cpu.old insn.now) }
    ensures halts { result ≡ false → Halts
        (effect (B.refuses bus.old) (B.holds bus.old) cpu.old insn.now) }
    ensures cpu { result ≡ false → cpu.new ≡ cpu.old }
    ensures bus { result ≡ false → bus.new ≡ bus.old }
{
    match step(cpu, *insn, bus) {
        Outcome::Next => true,
        _ => false,
    }
}

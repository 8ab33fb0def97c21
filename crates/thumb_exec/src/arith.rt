//! Instructions that do not access memory.
ghost use Rattle.std.specs.Prelude.{◌≡◌, ◌<◌, [], false, true};
ghost use Rattle.thumb_exec.specs.Effect.{Next, go_past, put, get, with_flags, nz, nzc, data_effect, sum_to, tested, FollowsSum};
ghost use Rattle.words_core.specs.Words.{awc, complement};

use crate::cpu::{Cpu, Outcome};
use thumb_insn::{Op, Reg};
use words_core::{Flags, PROGRAM_COUNTER, add, add_with_carry, asr, lsl, lsr, ror, subtract};

/// The word in a register.
pub fn get(cpu: &Cpu, r: Reg) -> u32
    requires { r.number < 16 }
    ensures { result ≡ get cpu.now r }
{
    cpu.regs.get(usize::from(r.number))
}

/// The flag C.
#[inline(always)]
pub fn carry(cpu: &Cpu) -> bool
    ensures { result ≡ cpu.now.flags.c }
{
    cpu.flags.c()
}

/// Moves PC forward by n bytes.
pub fn go_past(cpu: &mut Cpu, n: u32)
    requires { n < 8 }
    ensures { cpu.new ≡ go_past n cpu.old }
{
    let at = cpu.regs.get(PROGRAM_COUNTER);
    cpu.regs.set(PROGRAM_COUNTER, at.wrapping_add(n));
}

/// Puts a value into a register, and moves PC forward by n bytes.
pub fn set(cpu: &mut Cpu, d: Reg, value: u32, n: u32)
    requires place { d.number < 16 }
    requires step { n < 8 }
    ensures { cpu.new ≡ go_past n (put cpu.old d.number value) }
{
    cpu.regs.set(usize::from(d.number), value);
    go_past(cpu, n);
}

/// Sets the flags of a sum with a carry. N and Z are those of its value.
#[inline(always)]
fn set_flags(cpu: &mut Cpu, sum: (u32, Flags))
    requires { FollowsSum sum }
    ensures { cpu.new ≡ with_flags cpu.old sum.1 }
{
    cpu.flags.follow(sum.0);
    cpu.flags.set_c(sum.1.c);
    cpu.flags.set_v(sum.1.v);
}

/// Sets the flags of a sum of two words. The sum minus the second word overflows if the sum of the
/// two words does.
#[inline(always)]
fn set_sum(cpu: &mut Cpu, x: u32, y: u32)
    ensures { cpu.new ≡ with_flags cpu.old (awc x y false).1 }
{
    let (value, flags) = add(x, y);
    cpu.flags.follow(value);
    cpu.flags.set_c(flags.c);
    cpu.flags.follow_difference(value, y);
}

/// Sets the flags of a difference.
#[inline(always)]
fn set_difference(cpu: &mut Cpu, x: u32, y: u32)
    ensures { cpu.new ≡ with_flags cpu.old (awc x (complement y) true).1 }
{
    let (value, flags) = subtract(x, y);
    cpu.flags.follow(value);
    cpu.flags.set_c(flags.c);
    cpu.flags.follow_difference(x, y);
}

/// Sets N and Z from the result. C and V do not change: for speed they are neither read nor
/// written.
#[inline(always)]
fn set_nz(cpu: &mut Cpu, value: u32)
    ensures { cpu.new ≡ with_flags cpu.old (nz cpu.old.flags value) }
{
    cpu.flags.follow(value);
}

/// Writes a result with N and Z, and goes on.
#[inline(always)]
pub fn finish_nz(cpu: &mut Cpu, d: Reg, value: u32)
    requires { d.number < 16 }
    ensures { sum_to cpu.old d (value, nz cpu.old.flags value) ≡ Next cpu.new [] }
{
    set_nz(cpu, value);
    set(cpu, d, value, 2);
}

/// Writes a shifted word with N, Z and C, and goes on.
#[inline(always)]
pub fn finish_nzc(cpu: &mut Cpu, d: Reg, shifted: (u32, bool))
    requires { d.number < 16 }
    ensures { sum_to cpu.old d (shifted.0, nzc cpu.old.flags shifted.0 shifted.1) ≡ Next cpu.new
        [] }
{
    cpu.flags.set_c(shifted.1);
    finish_nz(cpu, d, shifted.0);
}

/// Sets only N and Z, and goes on.
#[inline(always)]
fn test_nz(cpu: &mut Cpu, value: u32)
    ensures { tested cpu.old (nz cpu.old.flags value) ≡ Next cpu.new [] }
{
    set_nz(cpu, value);
    go_past(cpu, 2);
}

/// Writes a sum with its flags, and goes on.
pub fn finish_sum(cpu: &mut Cpu, d: Reg, sum: (u32, Flags))
    requires place { d.number < 16 }
    requires follows { FollowsSum sum }
    ensures { sum_to cpu.old d sum ≡ Next cpu.new [] }
{
    cpu.regs.set(usize::from(d.number), sum.0);
    set_flags(cpu, sum);
    go_past(cpu, 2);
}

/// Writes a sum of two words with its flags, and goes on.
#[inline(always)]
pub fn finish_add(cpu: &mut Cpu, d: Reg, x: u32, y: u32)
    requires { d.number < 16 }
    ensures { sum_to cpu.old d (awc x y false) ≡ Next cpu.new [] }
{
    set_sum(cpu, x, y);
    set(cpu, d, x.wrapping_add(y), 2);
}

/// Writes a difference with its flags, and goes on.
#[inline(always)]
pub fn finish_subtract(cpu: &mut Cpu, d: Reg, x: u32, y: u32)
    requires { d.number < 16 }
    ensures { sum_to cpu.old d (awc x (complement y) true) ≡ Next cpu.new [] }
{
    set_difference(cpu, x, y);
    set(cpu, d, x.wrapping_sub(y), 2);
}

/// Sets only the flags of a sum, and goes on.
#[inline(always)]
fn test_sum(cpu: &mut Cpu, x: u32, y: u32)
    ensures { tested cpu.old (awc x y false).1 ≡ Next cpu.new [] }
{
    set_sum(cpu, x, y);
    go_past(cpu, 2);
}

/// Sets only the flags of a difference, and goes on.
#[inline(always)]
fn test_difference(cpu: &mut Cpu, x: u32, y: u32)
    ensures { tested cpu.old (awc x (complement y) true).1 ≡ Next cpu.new [] }
{
    set_difference(cpu, x, y);
    go_past(cpu, 2);
}

/// Sets only the flags of a subtraction, and goes on.
pub fn compare(cpu: &mut Cpu, n: Reg, y: u32)
    requires { n.number < 16 }
    ensures { tested cpu.old (awc (get cpu.old n) (complement y) true).1 ≡ Next cpu.new [] }
{
    let x = get(cpu, n);
    test_difference(cpu, x, y);
}

/// Does an operation on two low registers, and goes on.
#[inline(always)]
pub fn data(cpu: &mut Cpu, op: Op, d: Reg, m: Reg)
    requires first { d.number < 8 }
    requires second { m.number < 8 }
    ensures { data_effect op cpu.old d m ≡ Next cpu.new [] }
{
    let (x, y) = (get(cpu, d), get(cpu, m));
    let by = (y % 256) as u8;
    match op {
        Op::Ands => finish_nz(cpu, d, x & y),
        Op::Tst => test_nz(cpu, x & y),
        Op::Eors => finish_nz(cpu, d, x ^ y),
        Op::Lsls => finish_nzc(cpu, d, lsl(x, by, carry(cpu))),
        Op::Lsrs => finish_nzc(cpu, d, lsr(x, by, carry(cpu))),
        Op::Asrs => finish_nzc(cpu, d, asr(x, by, carry(cpu))),
        Op::Adcs => finish_sum(cpu, d, add_with_carry(x, y, carry(cpu))),
        Op::Sbcs => finish_sum(cpu, d, add_with_carry(x, !y, carry(cpu))),
        Op::Rors => finish_nzc(cpu, d, ror(x, by, carry(cpu))),
        Op::Rsbs => finish_subtract(cpu, d, 0, y),
        Op::Cmp => test_difference(cpu, x, y),
        Op::Cmn => test_sum(cpu, x, y),
        Op::Orrs => finish_nz(cpu, d, x | y),
        Op::Muls => finish_nz(cpu, d, x.wrapping_mul(y)),
        Op::Bics => finish_nz(cpu, d, x & !y),
        Op::Mvns => finish_nz(cpu, d, !y),
    }
}

//! From instructions to codes: the table of instructions read in the other direction
//! (docs/FORMATS.md, after the ARMv6-M Architecture Reference Manual, chapter A5 and section A6.7).
#![tactic(auto)]

ghost use Rattle.std.specs.Prelude.{◌≡◌, ◌<◌, ◌≤◌, ◌*◌, ◌/◌, ◌^◌, None, Some, pos, ◌<ℤ◌, ◌≤ℤ◌, nat_abs, IfOk, IfErr, OnOk, ◌||◌};
ghost use Rattle.thumb_encode.specs.Codes.{fit_of, is_high, low3, low2, half_offset, code_of, split, load_code, store_code, imm_code, bytes_code, shift_code, barrier_code, scale, long_first, long_second, HasList, DecodesTo, IsOnlyCode, UndoesNarrow, UndoesWide, code_size, insn_size, misfit, is_no_register, outside, is_odd};
ghost use Rattle.thumb_insn.specs.Range.{insn_of, IsCode};
ghost use Rattle.thumb_insn.specs.Table.{is_later, branch_bit};

use thumb_insn::{Barrier, Bytes, Code, Insn, Load, Reg, Shift, Size};

/// Why an instruction has no code. If several causes apply, the answer is the first one in the
/// order `Register`, `Offset`, `Align`.
#[derive(Clone, Copy, PartialEq, Eq, Debug)]
pub enum Fit {
    /// An immediate or a branch's offset is outside the range of its row.
    Offset,
    /// The row does not allow a register or a list of registers.
    Register,
    /// An immediate or a branch's offset is not a multiple of the unit of its row.
    Align,
}

/// The code of an instruction, or why it has none. The ranges are those of docs/FORMATS.md. The
/// offset of `b` is from -2048 to 2046, that of a conditional branch from -256 to 254, that of `bl`
/// from -16777216 to 16777214, and all are even. Other immediates are as their row says.
pub fn encode(insn: &Insn) -> Result<Code, Fit>
    ensures coded { IfOk result (λ c. insn_of c ≡ Some insn.now) }
    ensures halfwords { IfOk result IsCode }
    ensures size { IfOk result (λ c. code_size c ≡ insn_size insn.now) }
    ensures only { IsOnlyCode insn.now result }

    ensures decoded { IfOk result (DecodesTo insn.now) }
    ensures undoes_narrow { UndoesNarrow insn.now result }
    ensures undoes_wide { UndoesWide insn.now result }

    ensures fits { OnOk result (fit_of insn.now ≡ None) }
    ensures cause { IfErr result (λ f. fit_of insn.now ≡ Some f) }
{
    match misfit_of(insn) {
        Some(fit) => Err(fit),
        None => Ok(code(insn)),
    }
}

fn is_high(r: Reg) -> bool
    ensures { result ≡ is_high r }
{
    r.number >= 8
}

fn low3(m: Reg, n: Reg, d: Reg) -> u16
    requires first { d.number < 8 }
    requires second { n.number < 8 }
    requires third { m.number < 8 }
    ensures value { result ≡ low3 m n d }
    ensures bound { result < 512 }
{
    u16::from(m.number) * 64 + u16::from(n.number) * 8 + u16::from(d.number)
}

fn low2(m: Reg, d: Reg) -> u16
    requires first { d.number < 8 }
    requires second { m.number < 8 }
    ensures value { result ≡ low2 m d }
    ensures bound { result < 64 }
{
    u16::from(m.number) * 8 + u16::from(d.number)
}

fn offset8(offset: i32) -> u16
    ensures { result ≡ half_offset offset 8 }
{
    (offset.cast_unsigned() / 2 % 256) as u16
}

fn offset11(offset: i32) -> u16
    ensures { result ≡ half_offset offset 11 }
{
    (offset.cast_unsigned() / 2 % 2048) as u16
}

fn split(d: Reg) -> u16
    requires { d.number < 16 }
    ensures value { result ≡ split d }
    ensures bound { result < 256 }
{
    u16::from(d.number) / 8 * 128 + u16::from(d.number) % 8
}

fn load_code(load: Load) -> u16
    ensures value { result ≡ load_code load }
    ensures bound { result < 0x6000 }
{
    match load {
        Load::Whole(Size::Word) => 0x5800,
        Load::Whole(Size::Half) => 0x5A00,
        Load::Whole(Size::Byte) => 0x5C00,
        Load::SignedByte => 0x5600,
        Load::SignedHalf => 0x5E00,
    }
}

fn store_code(size: Size) -> u16
    ensures value { result ≡ store_code size }
    ensures bound { result < 0x6000 }
{
    match size {
        Size::Word => 0x5000,
        Size::Half => 0x5200,
        Size::Byte => 0x5400,
    }
}

fn imm_code(size: Size) -> u16
    ensures value { result ≡ imm_code size }
    ensures bound { result ≤ 0x8000 }
{
    match size {
        Size::Word => 0x6000,
        Size::Half => 0x8000,
        Size::Byte => 0x7000,
    }
}

fn bytes_code(bytes: Bytes) -> u16
    ensures value { result ≡ bytes_code bytes }
    ensures bound { result < 0xC000 }
{
    match bytes {
        Bytes::Sxth => 0xB200,
        Bytes::Sxtb => 0xB240,
        Bytes::Uxth => 0xB280,
        Bytes::Uxtb => 0xB2C0,
        Bytes::Rev => 0xBA00,
        Bytes::Rev16 => 0xBA40,
        Bytes::Revsh => 0xBAC0,
    }
}

fn shift_code(shift: Shift) -> u16
    ensures value { result ≡ shift_code shift }
    ensures bound { result ≤ 0x1000 }
{
    match shift {
        Shift::Lsl => 0,
        Shift::Lsr => 0x0800,
        Shift::Asr => 0x1000,
    }
}

/// An immediate offset in units of its size, at bit 6.
fn scaled(size: Size, offset: u32) -> u16
    requires { offset / scale size < 32 }
    ensures value { result ≡ offset / scale size * 64 }
    ensures bound { result < 2048 }
{
    match size {
        Size::Word => (offset / 4) as u16 * 64,
        Size::Half => (offset / 2) as u16 * 64,
        Size::Byte => offset as u16 * 64,
    }
}

/// A register at bit 8.
fn at_bit8(r: Reg) -> u16
    requires { r.number < 8 }
    ensures value { result ≡ r.number * 256 }
    ensures bound { result < 2048 }
{
    u16::from(r.number) * 256
}

fn barrier_code(barrier: Barrier) -> u16
    ensures value { result ≡ barrier_code barrier }
    ensures bound { result < 0x9000 }
{
    match barrier {
        Barrier::Dsb => 0x8F40,
        Barrier::Dmb => 0x8F50,
        Barrier::Isb => 0x8F60,
    }
}

/// Bit J1 or J2 of a long branch, from bit I1 or I2 and the sign.
fn branch_bit(bit: u32, sign: u32) -> u32
    ensures value { result ≡ branch_bit bit sign }
    ensures bound { result < 2 }
{
    if bit == sign { 1 } else { 0 }
}

fn long_first(half: u32) -> u16
    requires { half < 2 ^ 24 }
    ensures { result ≡ long_first half }
{
    (0xF000 + half / 0x80_0000 * 1024 + half / 2048 % 1024) as u16
}

fn long_second(half: u32) -> u16
    requires { half < 2 ^ 24 }
    ensures { result ≡ long_second half }
{
    let sign = half / 0x80_0000;
    let first = branch_bit(half / 0x40_0000 % 2, sign);
    let second = branch_bit(half / 0x20_0000 % 2, sign);
    (0xD000 + first * 8192 + second * 2048 + half % 2048) as u16
}

/// The two halfwords of `bl`.
fn long_branch(offset: i32) -> Code
    ensures { result ≡ code_of (Insn.Bl offset) }
{
    let half = offset.cast_unsigned() / 2 % 0x100_0000;
    Code::Two(long_first(half), long_second(half))
}

/// The code of an instruction that fits.
fn code(insn: &Insn) -> Code
    requires { fit_of insn.now ≡ None }
    ensures value { result ≡ code_of insn.now }
    ensures lists { HasList insn.now }
    ensures halfwords { IsCode result }
{
    match *insn {
        Insn::ShiftImm { shift, d, m, by } => Code::One(
            shift_code(shift) + (by % 32) as u16 * 64 + low2(m, d),
        ),
        Insn::AddsReg { d, n, m } => Code::One(0x1800 + low3(m, n, d)),
        Insn::SubsReg { d, n, m } => Code::One(0x1A00 + low3(m, n, d)),
        Insn::AddsImm3 { d, n, value } => Code::One(0x1C00 + value as u16 * 64 + low2(n, d)),
        Insn::SubsImm3 { d, n, value } => Code::One(0x1E00 + value as u16 * 64 + low2(n, d)),
        Insn::MovsImm { d, value } => Code::One(0x2000 + at_bit8(d) + value as u16),
        Insn::CmpImm { n, value } => Code::One(0x2800 + at_bit8(n) + value as u16),
        Insn::AddsImm8 { d, value } => Code::One(0x3000 + at_bit8(d) + value as u16),
        Insn::SubsImm8 { d, value } => Code::One(0x3800 + at_bit8(d) + value as u16),
        Insn::Data { op, d, m } => Code::One(0x4000 + op as u16 * 64 + low2(m, d)),
        Insn::AddHigh { d, m } => Code::One(0x4400 + u16::from(m.number) * 8 + split(d)),
        Insn::CmpHigh { n, m } => Code::One(0x4500 + u16::from(m.number) * 8 + split(n)),
        Insn::MovHigh { d, m } => Code::One(0x4600 + u16::from(m.number) * 8 + split(d)),
        Insn::Bx { m } => Code::One(0x4700 + u16::from(m.number) * 8),
        Insn::Blx { m } => Code::One(0x4780 + u16::from(m.number) * 8),
        Insn::LdrLiteral { t, offset } => Code::One(0x4800 + at_bit8(t) + (offset / 4) as u16),
        Insn::StoreReg { size, t, n, m } => Code::One(store_code(size) + low3(m, n, t)),
        Insn::LoadReg { load, t, n, m } => Code::One(load_code(load) + low3(m, n, t)),
        Insn::StoreImm { size, t, n, offset } => Code::One(
            imm_code(size) + scaled(size, offset) + low2(n, t),
        ),
        Insn::LoadImm { size, t, n, offset } => Code::One(
            imm_code(size) + 0x0800 + scaled(size, offset) + low2(n, t),
        ),
        Insn::StoreSp { t, offset } => Code::One(0x9000 + at_bit8(t) + (offset / 4) as u16),
        Insn::LoadSp { t, offset } => Code::One(0x9800 + at_bit8(t) + (offset / 4) as u16),
        Insn::Adr { d, offset } => Code::One(0xA000 + at_bit8(d) + (offset / 4) as u16),
        Insn::AddSp { d, offset } => Code::One(0xA800 + at_bit8(d) + (offset / 4) as u16),
        Insn::RaiseSp { offset } => Code::One(0xB000 + (offset / 4) as u16),
        Insn::LowerSp { offset } => Code::One(0xB080 + (offset / 4) as u16),
        Insn::Change { bytes, d, m } => Code::One(bytes_code(bytes) + low2(m, d)),
        Insn::Push { list, lr } => Code::One(0xB400 + u16::from(lr) * 256 + u16::from(list)),
        Insn::Pop { list, pc } => Code::One(0xBC00 + u16::from(pc) * 256 + u16::from(list)),
        Insn::Cpsie => Code::One(0xB662),
        Insn::Cpsid => Code::One(0xB672),
        Insn::Bkpt { value } => Code::One(0xBE00 + value as u16),
        Insn::Hint { value } => Code::One(0xBF00 + value as u16 * 16),
        Insn::Stm { n, list } => Code::One(0xC000 + at_bit8(n) + u16::from(list)),
        Insn::Ldm { n, list } => Code::One(0xC800 + at_bit8(n) + u16::from(list)),
        Insn::BranchIf { cond, offset } => Code::One(0xD000 + cond as u16 * 256 + offset8(offset)),
        Insn::Svc { value } => Code::One(0xDF00 + value as u16),
        Insn::Branch { offset } => Code::One(0xE000 + offset11(offset)),
        Insn::Bl { offset } => long_branch(offset),
        Insn::Fence { barrier, option } => Code::Two(0xF3BF, barrier_code(barrier) + option as u16),
        Insn::Mrs { d } => Code::Two(0xF3EF, 0x8000 + u16::from(d.number) * 256),
        Insn::Msr { n } => Code::Two(0xF380 + u16::from(n.number), 0x8800),
    }
}

fn first_of(register: bool, offset: bool, align: bool) -> Option<Fit>
    ensures { result ≡ misfit register offset align }
{
    if register {
        Some(Fit::Register)
    } else if offset {
        Some(Fit::Offset)
    } else if align {
        Some(Fit::Align)
    } else {
        None
    }
}

fn is_no_register(r: Reg) -> bool
    ensures { result ≡ is_no_register r }
{
    r.number >= 16
}

fn is_outside(z: i32, low: i32, top: i32) -> bool
    requires negative { low <ℤ pos 0 }
    requires positive { pos 0 ≤ℤ top }
    ensures { result ≡ outside z (nat_abs low) (nat_abs top) }
{
    z < low || z > top
}

fn is_odd(z: i32) -> bool
    ensures { result ≡ is_odd z }
{
    z.cast_unsigned() % 2 != 0
}

fn is_later(list: u8, n: u8) -> bool
    requires { n < 8 }
    ensures { result ≡ is_later list n }
{
    (list >> n) % 2 == 1 && 0 < list % (1 << n)
}

fn scale(size: Size) -> u32
    ensures value { result ≡ scale size }
    ensures bound { result ≤ 4 }
    ensures positive { 0 < result }
{
    match size {
        Size::Word => 4,
        Size::Half => 2,
        Size::Byte => 1,
    }
}

fn is_either_high(d: Reg, m: Reg) -> bool
    ensures { result ≡ (is_high d || is_high m) }
{
    is_high(d) || is_high(m)
}

fn is_any_high(d: Reg, n: Reg, m: Reg) -> bool
    ensures { result ≡ (is_high d || is_high n || is_high m) }
{
    is_high(d) || is_high(n) || is_high(m)
}

fn lacks_either(d: Reg, m: Reg) -> bool
    ensures { result ≡ (is_no_register d || is_no_register m) }
{
    is_no_register(d) || is_no_register(m)
}

/// Why an instruction has no code.
fn misfit_of(insn: &Insn) -> Option<Fit>
    ensures { result ≡ fit_of insn.now }
{
    match *insn {
        Insn::ShiftImm { shift, d, m, by } => first_of(
            is_either_high(d, m),
            match shift {
                Shift::Lsl => 31 < by,
                Shift::Lsr | Shift::Asr => by == 0 || 32 < by,
            },
            false,
        ),
        Insn::AddsReg { d, n, m }
        | Insn::SubsReg { d, n, m }
        | Insn::StoreReg { t: d, n, m, .. }
        | Insn::LoadReg { t: d, n, m, .. } => first_of(is_any_high(d, n, m), false, false),
        Insn::AddsImm3 { d, n, value } | Insn::SubsImm3 { d, n, value } => first_of(
            is_either_high(d, n),
            7 < value,
            false,
        ),
        Insn::AddHigh { d, m } => first_of(
            lacks_either(d, m) || (d.number == 15 && m.number == 15),
            false,
            false,
        ),
        Insn::LdrLiteral { t, offset }
        | Insn::StoreSp { t, offset }
        | Insn::LoadSp { t, offset }
        | Insn::Adr { d: t, offset }
        | Insn::AddSp { d: t, offset } => first_of(is_high(t), 1020 < offset, offset % 4 != 0),
        Insn::StoreImm { size, t, n, offset } | Insn::LoadImm { size, t, n, offset } => {
            let unit = scale(size);
            first_of(is_either_high(t, n), 31 * unit < offset, offset % unit != 0)
        }
        Insn::Push { list, lr } => first_of(list == 0 && !lr, false, false),
        Insn::Stm { n, list } => first_of(
            is_high(n) || list == 0 || is_later(list, n.number),
            false,
            false,
        ),
        Insn::BranchIf { offset, .. } => first_of(
            false,
            is_outside(offset, -256, 254),
            is_odd(offset),
        ),
        Insn::MovsImm { d, value } => first_of(is_high(d), 255 < value, false),
        Insn::CmpImm { n, value }
        | Insn::AddsImm8 { d: n, value }
        | Insn::SubsImm8 { d: n, value } => first_of(is_high(n), 255 < value, false),
        Insn::Data { d, m, .. } | Insn::Change { d, m, .. } => first_of(
            is_either_high(d, m),
            false,
            false,
        ),
        Insn::CmpHigh { n, m } => first_of(
            lacks_either(n, m) || !(is_high(n) || is_high(m)) || n.number == 15 || m.number == 15,
            false,
            false,
        ),
        Insn::MovHigh { d, m } => first_of(lacks_either(d, m), false, false),
        Insn::Bx { m } | Insn::Blx { m } => first_of(
            is_no_register(m) || m.number == 15,
            false,
            false,
        ),
        Insn::RaiseSp { offset } | Insn::LowerSp { offset } => first_of(
            false,
            508 < offset,
            offset % 4 != 0,
        ),
        Insn::Pop { list, pc } => first_of(list == 0 && !pc, false, false),
        Insn::Cpsie | Insn::Cpsid => None,
        Insn::Bkpt { value } | Insn::Svc { value } => first_of(false, 255 < value, false),
        Insn::Hint { value } | Insn::Fence { option: value, .. } => first_of(
            false,
            15 < value,
            false,
        ),
        Insn::Ldm { n, list } => first_of(is_high(n) || list == 0, false, false),
        Insn::Branch { offset } => first_of(false, is_outside(offset, -2048, 2046), is_odd(offset)),
        Insn::Bl { offset } => first_of(
            false,
            is_outside(offset, -16_777_216, 16_777_214),
            is_odd(offset),
        ),
        Insn::Mrs { d } | Insn::Msr { n: d } => first_of(
            is_no_register(d) || d.number == 13 || d.number == 15,
            false,
            false,
        ),
    }
}

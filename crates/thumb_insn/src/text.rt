//! The text of an instruction, piece by piece.
ghost use Rattle.std.specs.Prelude.{◌≡◌, ◌≤◌, ◌<◌, ◌+◌, ◌++◌, [], ◌∷◌, map, codes, decimal, true, false, if◌then◌else◌};
ghost use Rattle.arrayvec.specs.ArrayString.{array_string_len};
ghost use Rattle.thumb_insn.specs.Fields.{is_listed};
ghost use Rattle.thumb_insn.specs.Text.{branch_target, literal_target, register_name, reg_text, hex_digit, hex_word, place, joined, low_registers, is_empty, and_also, braces, shift_text, op_text, hint_text, line, insn_text, raised};
ghost use Rattle.thumb_insn.specs.Line.{name_text, operand_text, line_text};
ghost use Rattle.thumb_insn.specs.declared.text.Operand.TheVariants as operand;

use crate::mnemonics::{Name, name_of};
use crate::{Insn, Load, Op, Reg, Shift};
use arrayvec::ArrayString;
use itoa::Buffer;

/// An operand, as the text shows it.
#[derive(Clone, Copy)]
enum Operand {
    Register(Reg),
    Imm(u32),
    Place(u32),
    Sum(Reg, Reg),
    Beyond(Reg, u32),
    Apsr,
    Interrupts,
}

/// What the text of an instruction consists of: its mnemonic and its operands. The last four have a
/// list of registers: alone, with one more register at its end, after a base register, and after a
/// base register with `!`.
#[derive(Clone, Copy)]
enum Line {
    Bare(Name),
    One(Name, Operand),
    Two(Name, Reg, Operand),
    Three(Name, Reg, Reg, Operand),
    ToStatus(Reg),
    List(Name, u8),
    ListAnd(Name, u8, u8),
    Several(Name, Reg, u8),
    Raised(Name, Reg, u8),
}

const SP: Reg = Reg { number: 13 };

/// A number of one digit. Most registers and immediates have one digit, and so do not need the
/// formatter.
fn push_one(out: &mut ArrayString<64>, n: u32)
    requires one { n < 10 }
    requires room { array_string_len out.old < 64 }
    ensures bytes { out.new.bytes ≡ out.old.bytes ++ decimal n }
    ensures len { array_string_len out.new ≡ array_string_len out.old + 1 }
{
    out.push((b'0' + n as u8) as char);
}

fn push_decimal(out: &mut ArrayString<64>, n: u32)
    requires { array_string_len out.old + 10 ≤ 64 }
    ensures bytes { out.new.bytes ≡ out.old.bytes ++ decimal n }
    ensures len { array_string_len out.new ≤ array_string_len out.old + 10 }
{
    if n < 10 {
        push_one(out, n);
    } else {
        let mut digits = Buffer::new();
        out.push_str(digits.format(n));
    }
}

/// A hexadecimal digit, in lower case.
pub fn hex_digit(digit: u32) -> u8
    requires { digit < 16 }
    ensures value { result ≡ hex_digit digit }
    ensures ascii { result < 128 }
{
    if digit < 10 {
        b'0' + digit as u8
    } else {
        b'a' + (digit as u8 - 10)
    }
}

fn push_digit(out: &mut ArrayString<64>, d: u32)
    requires digit { d < 16 }
    requires room { array_string_len out.old < 64 }
    ensures bytes { out.new.bytes ≡ out.old.bytes ++ hex_digit d ∷ [] }
    ensures len { array_string_len out.new ≡ array_string_len out.old + 1 }
{
    out.push(hex_digit(d) as char);
}

/// `0x` and eight hexadecimal digits.
#[tactic(auto, unfolding(crate::specs::Text::hex_word))]
fn push_place(out: &mut ArrayString<64>, n: u32)
    requires { array_string_len out.old + 10 ≤ 64 }
    ensures bytes { out.new.bytes ≡ out.old.bytes ++ place n }
    ensures len { array_string_len out.new ≡ array_string_len out.old + 10 }
{
    out.push_str("0x");
    push_digit(out, n / 0x1000_0000 % 16);
    push_digit(out, n / 0x0100_0000 % 16);
    push_digit(out, n / 0x0010_0000 % 16);
    push_digit(out, n / 0x0001_0000 % 16);
    push_digit(out, n / 0x1000 % 16);
    push_digit(out, n / 0x0100 % 16);
    push_digit(out, n / 0x10 % 16);
    push_digit(out, n % 16);
}

/// The name of a register. The longest one has `r` and three digits.
fn push_register(out: &mut ArrayString<64>, k: u8)
    requires { array_string_len out.old + 4 ≤ 64 }
    ensures bytes { out.new.bytes ≡ out.old.bytes ++ register_name k }
    ensures len { array_string_len out.new ≤ array_string_len out.old + 4 }
{
    match k {
        k if k < 10 => {
            out.push_str("r");
            push_one(out, u32::from(k));
        }
        13 => out.push_str("sp"),
        14 => out.push_str("lr"),
        15 => out.push_str("pc"),
        k => {
            let mut digits = Buffer::new();
            out.push_str("r");
            out.push_str(digits.format(k));
        }
    }
}

fn push_imm(out: &mut ArrayString<64>, i: u32)
    requires { array_string_len out.old + 11 ≤ 64 }
    ensures bytes { out.new.bytes ≡ out.old.bytes ++ codes "#" ++ decimal i }
    ensures len { array_string_len out.new ≤ array_string_len out.old + 11 }
{
    out.push_str("#");
    push_decimal(out, i);
}

/// One more register of a list, after a comma unless it is the first one.
fn push_listed(out: &mut ArrayString<64>, first: bool, k: u8)
    requires { array_string_len out.old + 6 ≤ 64 }
    ensures bytes { out.new.bytes ≡ out.old.bytes
        ++ (if first then register_name k else codes ", " ++ register_name k) }
    ensures len { array_string_len out.new ≤ array_string_len out.old + 6 }
{
    if !first {
        out.push_str(", ");
    }
    push_register(out, k);
}

/// The registers r0 to r7 of a list. The result is true if the list has none of them.
fn push_registers(out: &mut ArrayString<64>, list: u8) -> bool
    requires { array_string_len out.old + 48 ≤ 64 }
    ensures bytes { out.new.bytes ≡ out.old.bytes
        ++ joined (map register_name (low_registers list)) }
    ensures len { array_string_len out.new ≤ array_string_len out.old + 48 }
    ensures none { result ≡ is_empty (low_registers list) }
{
    let mut first = true;
    for k in 0..8_u8 {
        if (list >> k) % 2 == 1 {
            push_listed(out, first, k);
            first = false;
        }
    }
    first
}

fn push_list(out: &mut ArrayString<64>, list: u8)
    requires { array_string_len out.old + 50 ≤ 64 }
    ensures bytes { out.new.bytes ≡ out.old.bytes ++ braces (low_registers list) }
    ensures len { array_string_len out.new ≤ array_string_len out.old + 50 }
{
    out.push_str("{");
    push_registers(out, list);
    out.push_str("}");
}

/// A list of registers: those of r0 to r7 that are listed, and one more.
#[tactic(auto, using(crate::proofs::Listed::ends))]
fn push_list_and(out: &mut ArrayString<64>, list: u8, k: u8)
    requires { array_string_len out.old + 56 ≤ 64 }
    ensures bytes { out.new.bytes ≡ out.old.bytes ++ braces (low_registers list ++ k ∷ []) }
    ensures len { array_string_len out.new ≤ array_string_len out.old + 56 }
{
    out.push_str("{");
    let first = push_registers(out, list);
    push_listed(out, first, k);
    out.push_str("}");
}

fn push_operand(out: &mut ArrayString<64>, operand: Operand)
    requires { array_string_len out.old + 19 ≤ 64 }
    ensures bytes { out.new.bytes ≡ out.old.bytes ++ operand_text operand }
    ensures len { array_string_len out.new ≤ array_string_len out.old + 19 }
{
    match operand {
        Operand::Register(r) => push_register(out, r.number),
        Operand::Imm(i) => push_imm(out, i),
        Operand::Place(n) => push_place(out, n),
        Operand::Sum(n, m) => {
            out.push_str("[");
            push_register(out, n.number);
            out.push_str(", ");
            push_register(out, m.number);
            out.push_str("]");
        }
        Operand::Beyond(n, i) => {
            out.push_str("[");
            push_register(out, n.number);
            out.push_str(", ");
            push_imm(out, i);
            out.push_str("]");
        }
        Operand::Apsr => out.push_str("apsr"),
        Operand::Interrupts => out.push_str("i"),
    }
}

/// A mnemonic, which has five bytes at most.
#[tactic(auto, using(crate::proofs::Names::is_short))]
fn push_name(out: &mut ArrayString<64>, name: Name)
    requires { out.old.bytes ≡ [] }
    ensures bytes { out.new.bytes ≡ name_text name }
    ensures len { array_string_len out.new ≤ 5 }
{
    out.push_str(name_of(name));
}

/// A mnemonic and the space after it.
fn open_line(out: &mut ArrayString<64>, name: Name)
    requires { out.old.bytes ≡ [] }
    ensures bytes { out.new.bytes ≡ name_text name ++ codes " " }
    ensures len { array_string_len out.new ≤ 6 }
{
    push_name(out, name);
    out.push_str(" ");
}

/// A mnemonic and a register.
fn push_first(out: &mut ArrayString<64>, name: Name, d: Reg)
    requires { out.old.bytes ≡ [] }
    ensures bytes { out.new.bytes ≡ (name_text name ++ codes " ") ++ reg_text d }
    ensures len { array_string_len out.new ≤ 10 }
{
    open_line(out, name);
    push_register(out, d.number);
}

/// One more operand, after a comma.
fn push_next(out: &mut ArrayString<64>, x: Operand)
    requires { array_string_len out.old + 21 ≤ 64 }
    ensures bytes { out.new.bytes ≡ (out.old.bytes ++ codes ", ") ++ operand_text x }
    ensures len { array_string_len out.new ≤ array_string_len out.old + 21 }
{
    out.push_str(", ");
    push_operand(out, x);
}

fn push_line(out: &mut ArrayString<64>, line: Line)
    requires { out.old.bytes ≡ [] }
    ensures { out.new.bytes ≡ line_text line }
{
    match line {
        Line::Bare(name) => push_name(out, name),
        Line::One(name, x) => {
            open_line(out, name);
            push_operand(out, x);
        }
        Line::Two(name, d, x) => {
            push_first(out, name, d);
            push_next(out, x);
        }
        Line::Three(name, d, n, x) => {
            push_first(out, name, d);
            push_next(out, Operand::Register(n));
            push_next(out, x);
        }
        Line::ToStatus(n) => {
            out.push_str("msr apsr, ");
            push_register(out, n.number);
        }
        Line::List(name, list) => {
            open_line(out, name);
            push_list(out, list);
        }
        Line::ListAnd(name, list, k) => {
            open_line(out, name);
            push_list_and(out, list, k);
        }
        Line::Several(name, n, list) => {
            push_first(out, name, n);
            out.push_str(", ");
            push_list(out, list);
        }
        Line::Raised(name, n, list) => {
            push_first(out, name, n);
            out.push_str("!, ");
            push_list(out, list);
        }
    }
}

fn shift_by(shift: Shift, d: Reg, m: Reg, by: u32) -> Line
    ensures { line_text result ≡ shift_text shift d m by }
{
    match shift {
        Shift::Lsl if by == 0 => Line::Two(Name::Movs, d, Operand::Register(m)),
        _ => Line::Three(Name::ShiftBy(shift), d, m, Operand::Imm(by)),
    }
}

fn compute(op: Op, d: Reg, m: Reg) -> Line
    ensures { line_text result ≡ op_text op d m }
{
    match op {
        Op::Rsbs => Line::Three(Name::Compute(op), d, m, Operand::Imm(0)),
        _ => Line::Two(Name::Compute(op), d, Operand::Register(m)),
    }
}

fn hint(h: u32) -> Line
    ensures { line_text result ≡ hint_text h }
{
    match h {
        0 => Line::Bare(Name::Nop),
        1 => Line::Bare(Name::Yield),
        2 => Line::Bare(Name::Wfe),
        3 => Line::Bare(Name::Wfi),
        4 => Line::Bare(Name::Sev),
        _ => Line::One(Name::Hint, Operand::Imm(h)),
    }
}

/// CPSIE or CPSID: its operand, the interrupts, is `i` in the text.
fn of_interrupts(name: Name) -> Line
    ensures { line_text result ≡ line (name_text name) (codes "i" ∷ []) }
{
    Line::One(name, Operand::Interrupts)
}

fn branch_to(at: u32, offset: i32) -> Operand
    ensures { result ≡ operand.Place (branch_target at offset) }
{
    Operand::Place(at.wrapping_add(4).wrapping_add(offset.cast_unsigned()))
}

fn literal(at: u32, offset: u32) -> Operand
    ensures { result ≡ operand.Place (literal_target at offset) }
{
    Operand::Place((at.wrapping_add(4) / 4 * 4).wrapping_add(offset))
}

/// A list of registers, with register k at its end if it has that one too.
fn list_with(name: Name, list: u8, has: bool, k: u8) -> Line
    ensures { line_text result ≡ line (name_text name)
        (braces (low_registers list ++ and_also has k) ∷ []) }
{
    if has {
        Line::ListAnd(name, list, k)
    } else {
        Line::List(name, list)
    }
}

/// Whether a list holds register n.
#[tactic(auto, using(crate::proofs::Listed::high_is_unlisted))]
fn is_listed(list: u8, n: u8) -> bool
    ensures { result ≡ is_listed list n }
{
    if n < 8 { (list >> n) % 2 == 1 } else { false }
}

/// A load of several registers. Its base is raised, and has a `!`, unless it is in the list.
fn loaded(n: Reg, list: u8) -> Line
    ensures { line_text result ≡ line (codes "ldm")
        ((if is_listed list n.number then reg_text n else raised n) ∷ braces (low_registers list) ∷
        []) }
{
    if is_listed(list, n.number) {
        Line::Several(Name::Ldm, n, list)
    } else {
        Line::Raised(Name::Ldm, n, list)
    }
}

/// The parts of an instruction's text, at address `at`.
#[tactic(auto, unfolding(crate::specs::Text::insn_text))]
fn line_of(insn: Insn, at: u32) -> Line
    ensures { line_text result ≡ insn_text insn at }
{
    match insn {
        Insn::ShiftImm { shift, d, m, by } => shift_by(shift, d, m, by),
        Insn::AddsReg { d, n, m } => Line::Three(Name::Adds, d, n, Operand::Register(m)),
        Insn::SubsReg { d, n, m } => Line::Three(Name::Subs, d, n, Operand::Register(m)),
        Insn::AddsImm3 { d, n, value } => Line::Three(Name::Adds, d, n, Operand::Imm(value)),
        Insn::SubsImm3 { d, n, value } => Line::Three(Name::Subs, d, n, Operand::Imm(value)),
        Insn::MovsImm { d, value } => Line::Two(Name::Movs, d, Operand::Imm(value)),
        Insn::CmpImm { n, value } => Line::Two(Name::Cmp, n, Operand::Imm(value)),
        Insn::AddsImm8 { d, value } => Line::Two(Name::Adds, d, Operand::Imm(value)),
        Insn::SubsImm8 { d, value } => Line::Two(Name::Subs, d, Operand::Imm(value)),
        Insn::Data { op, d, m } => compute(op, d, m),
        Insn::AddHigh { d, m } => Line::Two(Name::Add, d, Operand::Register(m)),
        Insn::CmpHigh { n, m } => Line::Two(Name::Cmp, n, Operand::Register(m)),
        Insn::MovHigh { d, m } => Line::Two(Name::Mov, d, Operand::Register(m)),
        Insn::Bx { m } => Line::One(Name::Bx, Operand::Register(m)),
        Insn::Blx { m } => Line::One(Name::Blx, Operand::Register(m)),
        Insn::LdrLiteral { t, offset } => Line::Two(Name::Ldr, t, literal(at, offset)),
        Insn::StoreReg { size, t, n, m } => Line::Two(Name::StoreOf(size), t, Operand::Sum(n, m)),
        Insn::LoadReg { load, t, n, m } => Line::Two(Name::LoadOf(load), t, Operand::Sum(n, m)),
        Insn::StoreImm { size, t, n, offset } => Line::Two(
            Name::StoreOf(size),
            t,
            Operand::Beyond(n, offset),
        ),
        Insn::LoadImm { size, t, n, offset } => Line::Two(
            Name::LoadOf(Load::Whole(size)),
            t,
            Operand::Beyond(n, offset),
        ),
        Insn::StoreSp { t, offset } => Line::Two(Name::Str, t, Operand::Beyond(SP, offset)),
        Insn::LoadSp { t, offset } => Line::Two(Name::Ldr, t, Operand::Beyond(SP, offset)),
        Insn::Adr { d, offset } => Line::Two(Name::Adr, d, literal(at, offset)),
        Insn::AddSp { d, offset } => Line::Three(Name::Add, d, SP, Operand::Imm(offset)),
        Insn::RaiseSp { offset } => Line::Two(Name::Add, SP, Operand::Imm(offset)),
        Insn::LowerSp { offset } => Line::Two(Name::Sub, SP, Operand::Imm(offset)),
        Insn::Change { bytes, d, m } => Line::Two(Name::Change(bytes), d, Operand::Register(m)),
        Insn::Push { list, lr } => list_with(Name::Push, list, lr, 14),
        Insn::Pop { list, pc } => list_with(Name::Pop, list, pc, 15),
        Insn::Cpsie => of_interrupts(Name::Cpsie),
        Insn::Cpsid => of_interrupts(Name::Cpsid),
        Insn::Bkpt { value } => Line::One(Name::Bkpt, Operand::Imm(value)),
        Insn::Hint { value } => hint(value),
        Insn::Stm { n, list } => Line::Raised(Name::Stm, n, list),
        Insn::Ldm { n, list } => loaded(n, list),
        Insn::BranchIf { cond, offset } => Line::One(Name::BranchIf(cond), branch_to(at, offset)),
        Insn::Svc { value } => Line::One(Name::Svc, Operand::Imm(value)),
        Insn::Branch { offset } => Line::One(Name::B, branch_to(at, offset)),
        Insn::Bl { offset } => Line::One(Name::Bl, branch_to(at, offset)),
        Insn::Fence { barrier, option } => Line::One(Name::Fence(barrier), Operand::Imm(option)),
        Insn::Mrs { d } => Line::Two(Name::Mrs, d, Operand::Apsr),
        Insn::Msr { n } => Line::ToStatus(n),
    }
}

impl Insn {
    /// Writes the text of the instruction at address `at` into `out`, which is empty, as the
    /// syntax column of the table of instructions in docs/FORMATS.md has it: lower case, one
    /// space after the mnemonic and after each comma, immediates in decimal, the places of
    /// branches, literals and `adr` as `0x` and eight digits, each register of a list by name.
    /// It is written for a value without a code too, as its variant has it.
    pub fn text(&self, at: u32, out: &mut ArrayString<64>)
        requires empty { out.old.bytes ≡ [] }
        ensures { out.new.bytes ≡ insn_text self.now at }
    {
        push_line(out, line_of(*self, at));
    }
}

//! The mnemonics.
ghost use Rattle.std.specs.Prelude.{◌≡◌};
ghost use Rattle.thumb_insn.specs.Text.{shift_name, op_name, store_name, load_name, change_name, branch_name, barrier_name};
ghost use Rattle.thumb_insn.specs.Line.{name_text};

use crate::{Barrier, Bytes, Cond, Load, Op, Shift, Size};

/// A mnemonic: a fixed one, or one that a part of the instruction chooses, such as its shift.
#[derive(Clone, Copy)]
pub enum Name {
    Movs,
    Adds,
    Subs,
    Add,
    Sub,
    Cmp,
    Mov,
    Bx,
    Blx,
    Ldr,
    Str,
    Adr,
    Push,
    Pop,
    Cpsie,
    Cpsid,
    Bkpt,
    Stm,
    Ldm,
    Svc,
    B,
    Bl,
    Mrs,
    Nop,
    Yield,
    Wfe,
    Wfi,
    Sev,
    Hint,
    ShiftBy(Shift),
    Compute(Op),
    StoreOf(Size),
    LoadOf(Load),
    Change(Bytes),
    BranchIf(Cond),
    Fence(Barrier),
}

fn shift_name(shift: Shift) -> &'static str
    ensures { result.now ≡ shift_name shift }
{
    match shift {
        Shift::Lsl => "lsls",
        Shift::Lsr => "lsrs",
        Shift::Asr => "asrs",
    }
}

fn op_name(op: Op) -> &'static str
    ensures { result.now ≡ op_name op }
{
    match op {
        Op::Ands => "ands",
        Op::Eors => "eors",
        Op::Lsls => "lsls",
        Op::Lsrs => "lsrs",
        Op::Asrs => "asrs",
        Op::Adcs => "adcs",
        Op::Sbcs => "sbcs",
        Op::Rors => "rors",
        Op::Tst => "tst",
        Op::Rsbs => "rsbs",
        Op::Cmp => "cmp",
        Op::Cmn => "cmn",
        Op::Orrs => "orrs",
        Op::Muls => "muls",
        Op::Bics => "bics",
        Op::Mvns => "mvns",
    }
}

fn store_name(size: Size) -> &'static str
    ensures { result.now ≡ store_name size }
{
    match size {
        Size::Word => "str",
        Size::Half => "strh",
        Size::Byte => "strb",
    }
}

fn load_name(load: Load) -> &'static str
    ensures { result.now ≡ load_name load }
{
    match load {
        Load::Whole(Size::Word) => "ldr",
        Load::Whole(Size::Half) => "ldrh",
        Load::Whole(Size::Byte) => "ldrb",
        Load::SignedHalf => "ldrsh",
        Load::SignedByte => "ldrsb",
    }
}

fn change_name(bytes: Bytes) -> &'static str
    ensures { result.now ≡ change_name bytes }
{
    match bytes {
        Bytes::Sxth => "sxth",
        Bytes::Sxtb => "sxtb",
        Bytes::Uxth => "uxth",
        Bytes::Uxtb => "uxtb",
        Bytes::Rev => "rev",
        Bytes::Rev16 => "rev16",
        Bytes::Revsh => "revsh",
    }
}

fn branch_name(cond: Cond) -> &'static str
    ensures { result.now ≡ branch_name cond }
{
    match cond {
        Cond::Eq => "beq",
        Cond::Ne => "bne",
        Cond::Cs => "bcs",
        Cond::Cc => "bcc",
        Cond::Mi => "bmi",
        Cond::Pl => "bpl",
        Cond::Vs => "bvs",
        Cond::Vc => "bvc",
        Cond::Hi => "bhi",
        Cond::Ls => "bls",
        Cond::Ge => "bge",
        Cond::Lt => "blt",
        Cond::Gt => "bgt",
        Cond::Le => "ble",
    }
}

fn barrier_name(barrier: Barrier) -> &'static str
    ensures { result.now ≡ barrier_name barrier }
{
    match barrier {
        Barrier::Dsb => "dsb",
        Barrier::Dmb => "dmb",
        Barrier::Isb => "isb",
    }
}

pub fn name_of(name: Name) -> &'static str
    ensures { result.now ≡ name_text name }
{
    match name {
        Name::Movs => "movs",
        Name::Adds => "adds",
        Name::Subs => "subs",
        Name::Add => "add",
        Name::Sub => "sub",
        Name::Cmp => "cmp",
        Name::Mov => "mov",
        Name::Bx => "bx",
        Name::Blx => "blx",
        Name::Ldr => "ldr",
        Name::Str => "str",
        Name::Adr => "adr",
        Name::Push => "push",
        Name::Pop => "pop",
        Name::Cpsie => "cpsie",
        Name::Cpsid => "cpsid",
        Name::Bkpt => "bkpt",
        Name::Stm => "stm",
        Name::Ldm => "ldm",
        Name::Svc => "svc",
        Name::B => "b",
        Name::Bl => "bl",
        Name::Mrs => "mrs",
        Name::Nop => "nop",
        Name::Yield => "yield",
        Name::Wfe => "wfe",
        Name::Wfi => "wfi",
        Name::Sev => "sev",
        Name::Hint => "hint",
        Name::ShiftBy(shift) => shift_name(shift),
        Name::Compute(op) => op_name(op),
        Name::StoreOf(size) => store_name(size),
        Name::LoadOf(load) => load_name(load),
        Name::Change(bytes) => change_name(bytes),
        Name::BranchIf(cond) => branch_name(cond),
        Name::Fence(barrier) => barrier_name(barrier),
    }
}

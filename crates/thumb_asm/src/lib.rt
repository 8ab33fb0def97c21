//! The assembler (docs/FORMATS.md, Assembler): it turns lines of text into the bytes of
//! instructions and data, or gives the first cause why they are refused. The language is defined in
//! `specs/`: `Parts` cuts a line, `Operands` reads its operands, `Syntax` has one line for each
//! syntax, `Meaning` says which bytes and labels lines have, and `Causes` what is refused and in
//! which order.
#![tactic(auto)]

ghost use Rattle.std.specs.Prelude.{◌≡◌};
ghost use Rattle.thumb_asm.specs.declared.AsmFault.TheVariants.{Memory};
ghost use Rattle.thumb_asm.specs.Causes.{cause_number};

mod checks;
mod codes;
mod data;
mod expr;
mod index;
mod listing;
mod lists;
mod operand;
mod parts;
mod passes;
mod quotes;
mod shape;
mod syntax;
mod words;

pub use index::Symbols;
pub use listing::{
    InsnLine, Label, accepted_texts_are_listed_whole, instruction_lines, label_lines,
};
pub use passes::{Object, assemble, assemble_with};
use std::alloc::AllocError;
use std::fmt;
use thiserror::Error;
use thumb_insn::{Barrier, Bytes, Cond, Load, Op, Shift, Size};

/// What the first word of a statement means.
#[derive(Clone, Copy)]
pub(crate) enum Mnemonic {
    Shift(Shift),
    Movs,
    Adds,
    Subs,
    Cmp,
    Rors,
    Rsbs,
    Pair(Op),
    Add,
    Sub,
    Mov,
    Bx,
    Blx,
    Load(Load),
    Store(Size),
    Adr,
    Change(Bytes),
    Push,
    Pop,
    Cpsie,
    Cpsid,
    Bkpt,
    Hint,
    Named(u32),
    Stm,
    Ldm,
    BranchIf(Cond),
    Svc,
    Branch,
    Bl,
    Fence(Barrier),
    Mrs,
    Msr,
    Values(Size),
    Ascii,
    Space,
    Align,
}

/// Why a line is refused.
#[derive(Clone, Copy, PartialEq, Eq, Debug, Drop)]
pub enum Cause {
    BadByte,
    BadLabel,
    LabelTwice,
    UnknownMnemonic,
    BadOperands,
    BadRegister,
    BadNumber,
    UnknownSymbol,
    OutOfRange,
    Misaligned,
    BadList,
    TooLong,
    NameClash,
    LineTooLong,
}

impl Cause {
    /// The number of a cause, as docs/FORMATS.md lists them.
    pub fn number(self) -> u8
        ensures { result ≡ cause_number self }
    {
        match self {
            Cause::BadByte => 1,
            Cause::BadLabel => 2,
            Cause::LabelTwice => 3,
            Cause::UnknownMnemonic => 4,
            Cause::BadOperands => 5,
            Cause::BadRegister => 6,
            Cause::BadNumber => 7,
            Cause::UnknownSymbol => 8,
            Cause::OutOfRange => 9,
            Cause::Misaligned => 10,
            Cause::BadList => 11,
            Cause::TooLong => 12,
            Cause::NameClash => 13,
            Cause::LineTooLong => 14,
        }
    }

    /// The text of a cause.
    fn text(self) -> &'static str {
        match self {
            Cause::BadByte => "a byte that is not allowed",
            Cause::BadLabel => "what stands before the colon is no name",
            Cause::LabelTwice => "the label stands on an earlier line",
            Cause::UnknownMnemonic => "an unknown mnemonic",
            Cause::BadOperands => "operands that the mnemonic does not take",
            Cause::BadRegister => "a register that cannot stand here",
            Cause::BadNumber => "no number of 32 bits",
            Cause::UnknownSymbol => "a name that is neither a label nor a symbol",
            Cause::OutOfRange => "a value out of range",
            Cause::Misaligned => "a value or an address that is no multiple",
            Cause::BadList => "a list of registers that is not allowed",
            Cause::TooLong => "more than 1048576 bytes",
            Cause::NameClash => "the label is the name of a register or a symbol",
            Cause::LineTooLong => "a line of more than 255 bytes",
        }
    }
}

impl fmt::Display for Cause {
    fn fmt<W: fmt::Write>(&self, f: &mut fmt::Formatter<W>) -> fmt::Result {
        f.write_str(self.text())
    }
}

impl std::error::Error for Cause {}

/// Why a text is not assembled.
#[derive(Debug, Drop, Error)]
pub enum AsmFault {
    /// Memory runs out.
    #[error("out of memory")]
    Memory,
    /// A cause, and its line, counted from 1.
    #[error("line {1}: {0}")]
    Refused(Cause, usize),
}

/// Why the bytes of a line are not appended.
#[derive(Drop)]
pub(crate) enum Stop {
    Memory,
    Cause(Cause),
}

impl From<AllocError> for AsmFault {
    ghost from_gives = { λ _ e. e ≡ Memory };

    fn from(_error: AllocError) -> AsmFault {
        AsmFault::Memory
    }
}

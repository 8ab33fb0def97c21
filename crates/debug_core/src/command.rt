//! Commands, and why a text is refused as commands.

use thiserror::Error;
use trace_text::NoteKind;

/// What a search looks for.
#[derive(Clone, Copy, PartialEq, Eq)]
pub enum Sought {
    /// A note of a kind. If there is a number, the note's line has it as the first word after the
    /// kind.
    Note { kind: NoteKind, number: Option<u32> },
    /// A change of the byte at an address.
    Change { at: u32 },
}

/// A command to a run (docs/FORMATS.md, Commands).
#[derive(Clone, Copy, PartialEq, Eq)]
pub enum Command {
    /// Makes an address a breakpoint.
    Break { at: u32 },
    /// Removes the breakpoint at an address.
    Clear { at: u32 },
    /// Goes `turns` turns forwards.
    Step { turns: u32 },
    /// Goes `turns` turns back.
    Back { turns: u32 },
    /// Goes `turns` turns forwards, but stops after the first one that runs a task at a breakpoint.
    Go { turns: u32 },
    /// Goes to a turn, or to the end of the run if that comes first.
    At { turn: u32 },
    /// Goes `turns` turns forwards, but stops right after the first one in which this is found.
    GoFor { turns: u32, sought: Sought },
    /// Goes `turns` turns back, but stops right before the last one in which this is found.
    BackFor { turns: u32, sought: Sought },
    /// Shows the notes of the turn before the cursor.
    Notes,
    /// Names the forms of the commands.
    Help,
    /// Ends the session.
    Quit,
    /// Shows the registers of a task, by its index.
    Regs { task: u16 },
    /// Shows the state of a task, by its index.
    Task { task: u16 },
    /// Shows the owner and the state of an interrupt line, by its number.
    Irq { line: u8 },
    /// Shows the state of a device, by its index.
    Device { device: u8 },
    /// Shows `len` bytes from an address on, 1 to 64.
    Mem { at: u32, len: u8 },
}

/// Why `Commands::read` gives no commands: the bytes are refused, or memory ran out.
#[derive(Debug, Drop, Error)]
pub enum CommandFault {
    /// A cause of docs/FORMATS.md, Commands, and the line, counted from 1.
    #[error("refused with cause {cause} at line {line}")]
    Refused { cause: u8, line: usize },
    #[error("out of memory")]
    Memory,
}

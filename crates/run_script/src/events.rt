//! Events, and why a script is refused.

use thiserror::Error;

/// What happens from outside before a turn.
#[derive(Clone, Copy, Debug, PartialEq, Eq)]
pub enum Event {
    /// The clock goes on by one.
    Tick,
    /// An interrupt on a line, 0 to 63.
    Irq { line: u8 },
    /// A byte for a device, 0 to 7.
    Feed { device: u8, byte: u8 },
}

/// Why `Script::read` gives no script: the bytes are refused, or memory ran out.
#[derive(Debug, Drop, Error)]
pub enum ScriptFault {
    /// A cause of docs/FORMATS.md, Script, and the line, from 1.
    #[error("refused with cause {cause} at line {line}")]
    Refused { cause: u8, line: usize },
    #[error("out of memory")]
    Memory,
}

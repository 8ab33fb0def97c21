//! What an audit answers.

/// Whether a trace is good.
#[derive(Clone, Copy, PartialEq, Eq)]
pub enum Judgement {
    /// The trace is good. It offers `calls` calls, and closes all but `left` of them.
    Yes { calls: u64, left: u64 },
    /// The trace is not good. This line, from 1 on, is the first one that is not good, or it is one
    /// past the last line.
    No { line: u64 },
}

/// Why a text has no judgement.
#[derive(Clone, Copy, PartialEq, Eq)]
pub enum AuditFault {
    /// A line, from 1 on, has a byte other than 32 to 126 (cause 1) or more than 159 bytes (cause
    /// 2).
    Refused { cause: u8, line: u64 },
    /// Memory runs out.
    Memory,
}

//! How much of a run is noted, and what its turns and its end are.

/// How much of a run is noted: what system calls, events and faults did; or all instructions too,
/// with the registers after each.
#[derive(Clone, Copy, Debug, PartialEq, Eq)]
pub enum Level {
    Calls,
    All,
}

/// How a run ended.
#[derive(Clone, Copy, Debug, PartialEq, Eq)]
pub enum End {
    Bound,
    Still,
    Supervisor,
}

/// What a turn did: nothing, or one instruction of a task whose PC was at `at`.
#[derive(Clone, Copy, Debug, PartialEq, Eq)]
pub enum Turned {
    Idle,
    Ran { task: u16, at: u32 },
}

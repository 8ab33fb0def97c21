//! What is asked of each run (docs/EXPLORE.md, Question).

use trace_text::NoteKind;

/// How a number is compared with a value.
#[derive(Clone, Copy, PartialEq, Eq)]
pub enum Test {
    Is,
    Above,
}

/// What may be so of a task.
#[derive(Clone, Copy, PartialEq, Eq)]
pub enum TaskFact {
    Well,
    Ready,
    Calling,
    Listening,
    Posted { bits: u32 },
}

/// What may be so in a state. Tasks and devices are told by their indices.
#[derive(Clone, Copy, PartialEq, Eq)]
pub enum Fact {
    Byte { at: u32, test: Test, value: u8 },
    Word { at: u32, test: Test, value: u32 },
    Task { task: u16, fact: TaskFact },
    Waiting { device: u8 },
}

/// It is so, or it is not.
#[derive(Clone, Copy, PartialEq, Eq)]
pub struct Condition {
    pub negated: bool,
    pub fact: Fact,
}

/// A kind of line, and where there is a number, one that has it first behind the kind.
#[derive(Clone, Copy, PartialEq, Eq)]
pub struct Line {
    pub kind: NoteKind,
    pub number: Option<u32>,
}

/// What each run is to keep.
#[derive(Clone, Copy, PartialEq, Eq)]
pub enum Property {
    /// No turn tells such a line.
    NeverTold {
        line: Line,
    },
    /// No turn changes the byte at an address, or none but one that runs this task.
    NeverChanged {
        at: u32,
        but: Option<u16>,
    },
    /// No state is so, for so many turns.
    NeverSo {
        condition: Condition,
        turns: u32,
    },
    /// The last state is so.
    EndsSo {
        condition: Condition,
    },
    /// The run ends since no task is ready and nothing more comes.
    EndsStill,
    /// Where a line is told, the answer is told then or within so many turns.
    Answered {
        line: Line,
        answer: Line,
        turns: u32,
    },
}

//! Upper limits; the same as in specs/Limits.

/// Tasks of an application.
pub const TASKS: usize = 512;

/// Words of a set of tasks, with a bit for each task.
pub const TASK_WORDS: usize = 16;

/// Sets of tasks by the deadlines of their timers, one for each remainder of a deadline. A timer
/// that is set for longer than this many ticks is looked at once in this many ticks before it is
/// due.
pub const WHEEL: usize = 64;

/// Interrupt lines of a board.
pub const LINES: usize = 64;

/// Notes of one system call, and of one event from outside.
pub const SYSCALL_NOTES: usize = 1_100;

/// Notes of one turn: those of at most nine events and of one system call, and four on the
/// instruction itself.
pub const TURN_NOTES: usize = 12_288;

#![tactic(auto)]
//! The tasks of the kernel, the memory that they share, and the operations on a task.

pub mod dead_ids;
mod effect;
mod entry;
mod fault;
mod kernel;
pub mod laws;
pub mod limits;
mod order;
mod readiness;
mod receiving;
mod sending;
mod slot;
mod start;
mod task_set;

pub use entry::KeptEntry;
pub use kernel::Kernel;
pub use mem_banks::{FLASH, Memory, RAM, WindowUser};
pub use order::{Order, first_around};
pub use slot::{Found, FromId, Listening, OpenCall, Phase, Slice, Slot, Wait};
pub use start::{LineStart, TaskStart};
pub use task_set::TaskSet;

/// The state of an interrupt line.
#[derive(Clone, Copy, Debug, PartialEq, Eq)]
pub struct Line {
    pub enabled: bool,
    pub pending: bool,
}

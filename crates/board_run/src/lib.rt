//! The run of a board up to its end, and its text: the lines of notes, of the end and of each task,
//! and of memories.
#![tactic(auto)]

mod counts;
mod laws;
mod line;
mod memory;
mod observer;
mod pushing;
mod regions;
mod running;
mod silence;
mod summary;

pub use counts::Counts;
pub use laws::{generations_decide_what_is_told, memories_have_each_region_once};
pub use line::end_name;
pub use memory::{byte_at, write_memory};
pub use observer::Observer;
pub use pushing::{push_high, push_low, push_notes, push_task_line};
pub use regions::{RegionTest, first_region};
pub use running::{ending, play, run};
pub use silence::Nobody;
pub use summary::summarize;

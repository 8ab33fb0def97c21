//! What each task does in each turn of a run, and a run as a timeline and as a picture
//! (docs/FORMATS.md, What a task does in a turn, Timeline, and Picture).
#![tactic(auto)]

mod activity;
mod calls;
mod canvas;
mod cells;
mod columns;
mod events;
mod exchange;
mod first;
mod lanes;
mod laws;
mod line;
mod names;
mod picture;
mod pushing;
mod thread_names;
mod timeline;
mod watching;

pub use activity::Activity;
pub use laws::{columns_tile_the_turns, stretches_tile_the_turns};
pub use picture::draw_run;
pub use timeline::{TimelineFault, write_timeline};
pub use watching::{Watcher, watch};

//! The cover of a run: how often each instruction of an image was executed, and which bytes are
//! known to be code (docs/FORMATS.md, Cover).
#![tactic(auto)]

mod counts;
mod covering;
mod known;
mod laws;
mod line;
mod listing;
mod places;
mod totals;
mod tracefile;
mod ways;

pub use counts::PlaceCounts;
pub use covering::{Cover, write_cover};
pub use laws::{each_count_is_a_number_of_turns, taken_and_faulted_are_executed};
pub use tracefile::{Source, write_tracefile};

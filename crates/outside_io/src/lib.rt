//! The outside of a program: files by name and a sink for its text, with the data that they show of
//! themselves and their counts of faults. Real files and outputs are trusted. Those in memory fail
//! at the calls that they are told to fail at, and their contracts say all of what they do.
#![tactic(auto)]

mod held;
mod host;
mod lines;
mod memory;
mod reading;
mod replacing;
mod traits;

pub use host::{HostFiles, HostSink};
pub use lines::push_lines;
pub use memory::{MemFiles, MemSink};
pub use reading::{ReadAll, read_all};
pub use traits::{Failed, Files, Sink};

//! The commands that run a board and write or put no more than its run and its state: `run`, `go`,
//! `save`, `resume` and `sample`.
#![tactic(auto)]

mod resume;
mod run;
mod sample;
mod save;

pub use resume::resume_files;
pub use run::{go_files, run_files};
pub use sample::run_sample;
pub use save::save_file;

//! Sweeps: how a run ends for each time at which some events may arrive (docs/FORMATS.md, Sweep).
#![tactic(auto)]

mod checkpoints;
mod comparing;
mod laws;
mod laying;
mod leader;
mod meeting;
mod outcome;
mod sweeper;
mod tally;
mod text;
mod told;

pub use laws::no_difference_says_so_of_each_time;
pub use outcome::{OutcomeText, outcome_of};
pub use sweeper::Sweeper;
pub use tally::Tally;

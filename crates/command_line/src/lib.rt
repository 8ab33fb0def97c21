//! The command line of the program, by `clap`.
#![tactic(auto)]

mod commands;
mod definition;
mod job;
mod laws;
mod reading;

pub use job::{
    CommandName, CoverJob, DebugJob, Detail, GoJob, Job, LcovJob, LiveJob, PictureJob, ResumeJob,
    RunJob, SaveJob, SweepJob, TimelineJob,
};
pub use laws::every_accepted_command_is_whole;
pub use reading::{Refusal, read_words};

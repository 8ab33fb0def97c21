//! A time-travel debugger: commands that take a run forwards and back (docs/FORMATS.md, Commands).
#![tactic(auto)]

mod answer;
mod breakpoints;
mod command;
mod commands;
mod debugger;
mod laws;
mod line;
mod live;
mod replay;
mod searching;
mod text;

pub use answer::Answer;
pub use command::{Command, CommandFault, Sought};
pub use commands::Commands;
pub use debugger::Debugger;
pub use laws::{
    the_turn_that_was_found_is_why, there_and_back, what_is_found_is_told, who_changed_a_byte_could,
};
pub use live::LiveFault;

//! The help on the program and on each of its commands: constant texts, which are generated from
//! the tables of docs/FORMATS.md.
#![tactic(auto)]

mod telling;
mod texts;

pub use telling::push_help;

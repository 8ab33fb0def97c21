//! The commands that run nothing, each in a module of its name.

pub mod audit;
pub mod build;
pub mod help;
pub mod list;
pub mod migrate;

//! The commands that run something, each in a module of its name.

pub mod cover;
pub mod debug;
pub mod lcov;
pub mod live;
pub mod picture;
pub mod run;
pub mod sweep;
pub mod timeline;

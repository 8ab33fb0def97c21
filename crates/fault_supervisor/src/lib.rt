#![tactic(auto)]
//! What the supervisor can do: restart a task or make it fault; and the kernel messages by which
//! task 0 requests this (Hubris Reference, on supervision; the messages are this project's profile,
//! docs/FORMATS.md).

mod message;
mod rebirth;

pub use message::{inject, kernel_message};
pub use rebirth::restart;

#![tactic(auto)]
//! Messages between tasks: the system calls SEND, RECV, REPLY and REPLY_FAULT, and those that work
//! only on ids, POST and REFRESH_TASK_ID (Hubris Reference, on IPC).

mod posting;
mod range;
mod receiving;
mod replying;
mod sending;

pub use posting::{post_call, refresh};
pub use receiving::recv;
pub use replying::{reply, reply_fault};
pub use sending::send;

#![tactic(auto)]
//! Timers and interrupt lines: ticks and interrupts, which come from outside, the lines that devices
//! drive, and the system calls SET_TIMER, GET_TIMER, IRQ_CONTROL and IRQ_STATUS (Hubris Reference:
//! timers, interrupts; docs/FORMATS.md, Script, Devices, System calls).
//!
//! Each event and each system call needs room for `SYSCALL_NOTES` notes, and makes at most that
//! many. Driving the lines of devices makes at most three a line.

mod asking;
mod controlling;
mod interrupts;
mod owners;
mod ticks;
mod timers;

pub use asking::irq_status;
pub use controlling::irq_control;
pub use interrupts::{drive, interrupt};
pub use ticks::tick;
pub use timers::{get_timer, set_timer};

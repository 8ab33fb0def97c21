//! What one instruction does to the registers and flags of a task and to the memory that it may
//! access, by the table of instructions in docs/FORMATS.md (ARMv6-M Architecture Reference Manual,
//! section A6.7, at user level).
#![tactic(auto)]

mod arith;
pub mod bus;
mod control;
pub mod cpu;
pub mod fetch;
pub mod laws;
pub mod lazy_flags;
mod memory;
mod several;
pub mod step;

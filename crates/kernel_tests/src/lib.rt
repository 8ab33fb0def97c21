//! Tests of the kernel's crates over their public calls, with values from outside. They test what
//! the text of a run cannot show. Receives, timers and choices of senders are tested by stored runs
//! (crates/stored_runs). Nothing else is here.
#![tactic(auto)]

#[cfg(test)]
mod banks;
#[cfg(test)]
mod board;
#[cfg(test)]
mod choosing;
#[cfg(test)]
mod eight_devices;
#[cfg(test)]
mod guide;
#[cfg(test)]
mod memory;
#[cfg(test)]
mod tasks;
#[cfg(test)]
mod window;

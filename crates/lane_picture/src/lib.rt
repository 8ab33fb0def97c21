//! A picture of lanes as SVG (docs/FORMATS.md, Picture), made from counts: what each task did in
//! each column of turns, the arrows of calls, and some words about the tasks.
#![tactic(auto)]

mod arrows;
mod drawing;
mod events;
mod heading;
mod lanes;
mod names;
mod outside;
mod parts;
mod sizes;
mod text;

pub use drawing::draw;
pub use parts::{Arrow, ArrowKind, AskedCall, Cell, LanePicture, Longest, TaskCalls};

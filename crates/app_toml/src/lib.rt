//! The description of an application, a TOML document: read, checked and held. docs/FORMATS.md,
//! Application, has its keys and the table of causes.
//!
//! The modules, in the order of reading. Text to table: `reading`, by the crate toml. Table to
//! forms: `document`, which holds the tables in it to the keys of `tables`, by `keys` and `forms`;
//! then `values` makes them `parts`. Forms to rules between tables: `crossed`, by causes `repeats`,
//! `unknowns`, `tasks`, `lines` with `overlaps`, over the sets of `known`, and `names`. Parts:
//! `app` keeps an accepted description, `views` reads it, and `making` makes one from tables
//! without a text. `places` says where a fault is.
#![tactic(auto)]

mod app;
mod crossed;
mod document;
mod forms;
mod keys;
mod known;
mod lines;
mod making;
mod names;
mod overlaps;
mod parts;
mod places;
mod reading;
mod repeats;
mod tables;
mod tasks;
mod unknowns;
mod values;
mod views;

pub use app::App;
pub use parts::{AppFault, DeviceSpec, LineSpec, RegionSpec, TaskSpec};

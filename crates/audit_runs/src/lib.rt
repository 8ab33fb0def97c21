//! Laws: the text of a run is good. Nothing runs here.
//!
//! - What the notes of a chain of steps say of calls is good, and agrees with the calls that are
//!   open (`chains_say_what_is_good`). So each client waits as they say
//!   (`clients_wait_as_notes_say`).
//! - The same is true of what the notes of a run from the start say. The notes are also right, and
//!   their turns do not decrease (`runs_say_what_is_good`).
//! - The text of such a run is good, with any lines after it that show something
//!   (`texts_of_runs_are_good`). The lines of its last memory do (`memories_are_shown`).
#![tactic(auto)]

mod calls;
mod runs;
mod texts;

pub use calls::{chains_say_what_is_good, clients_wait_as_notes_say};
pub use runs::runs_say_what_is_good;
pub use texts::{memories_are_shown, texts_of_runs_are_good};

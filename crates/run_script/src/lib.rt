//! The script of what happens from outside: reads its text, and gives the events of each turn.
//! docs/FORMATS.md, Script, has the grammar and the table of causes.
#![tactic(auto)]

mod draft;
mod event_words;
mod events;
mod forms;
mod laws;
mod laying;
mod making;
mod quotes;
mod reading;
mod script;
mod statement;
mod text;
mod turns;
mod values;
mod words;

pub use events::{Event, ScriptFault};
pub use laws::script_text_is_read;
pub use script::Script;
pub use statement::starts_by_hash;
pub use values::number_within;
pub use words::{are_allowed, first_word, words_end_at_blanks};

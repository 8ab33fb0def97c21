//! Laws about the lines of a trace and how an audit reads them. Nothing runs here.
//!
//! - A decimal number reads back, and a word in hexadecimal is eight digits (`words_are_read`).
//! - The line of each note is one line, and an audit reads it as what the note says about calls
//! (`lines_of_notes_are_read`).
//! - The same is true of each line after the notes (`last_lines_are_read`).
//! - A text is good if its notes say good things about calls and its last lines agree with them
//! (`texts_of_good_notes_are_good`).
#![tactic(auto)]

mod last_lines;
mod notes;
mod whole;
mod words;

pub use last_lines::last_lines_are_read;
pub use notes::lines_of_notes_are_read;
pub use whole::texts_of_good_notes_are_good;
pub use words::words_are_read;

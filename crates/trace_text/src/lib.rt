#![tactic(auto)]
//! The lines of a trace, one for each note (docs/FORMATS.md, Trace); the words of these lines; and
//! the kinds of notes.

mod kinds;
mod lines;
mod turn;
mod words;

pub use kinds::{NoteKind, is_sought, kind_in};
pub use turn::TurnLines;
pub use words::{
    code_decoded, push_byte, push_decimal, push_digit, push_hex, push_high, push_low,
    push_registers, push_spaced_hex, push_text,
};

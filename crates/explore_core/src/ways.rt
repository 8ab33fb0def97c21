//! How the arrivals of a question come.

/// The most arrivals of a question.
pub(crate) const PLACES: usize = 8;

/// How an arrival comes: in which turn, and with which of its choices, counted from 0.
#[derive(Clone, Copy, PartialEq, Eq)]
pub(crate) struct Way {
    pub(crate) turn: u32,
    pub(crate) choice: u64,
}

/// How each arrival comes, by its place; `None` if it does not come.
pub(crate) type Ways = [Option<Way>; PLACES];

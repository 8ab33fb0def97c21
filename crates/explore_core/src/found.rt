//! What is found of the properties of a question.

use crate::ways::Ways;

/// The first schedule that breaks a property, and the turn in which it does.
#[derive(Clone, Copy)]
pub(crate) struct Found {
    pub(crate) ways: Ways,
    pub(crate) turn: u32,
}

/// What is answered to a property: no schedule breaks it; or none does, and nothing was asked of
/// any; or one does.
#[derive(Clone, Copy)]
pub(crate) enum Answer {
    Holds,
    Unasked,
    Broken(Found),
}

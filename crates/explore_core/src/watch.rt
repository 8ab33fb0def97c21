//! What is watched of a run: the properties that are asked, each with its verdict so far.
ghost use Rattle.std.specs.Prelude.{◌≤◌, length};

use crate::verdict::Verdict;
use run_question::Property;

/// A property, what a run so far makes of it, and the byte that is looked at before a turn.
#[derive(Drop)]
pub(crate) struct Watched {
    pub(crate) property: Property,
    pub(crate) verdict: Verdict,
    pub(crate) before: Option<u8>,
}

/// The properties of a question, in their order.
#[derive(Drop)]
pub(crate) struct Watch {
    pub(crate) properties: Vec<Watched>,
    ghost few: { length properties.items ≤ 16 },
}

//! Compares outcomes one after the other, to find whether they make a difference.
ghost use Rattle.std.specs.Prelude.{◌≡◌};
ghost use Rattle.sweep_core.specs.Comparing.{compared_of, differs_from, nothing_compared, with_outcome, words_of};
ghost use Rattle.sweep_core.specs.Told.{is_worse_told};

use crate::outcome::OutcomeText;
use crate::told::{Told, is_worse};

/// The comparison of the outcomes so far, each with the first one and with the run without an
/// arrival. The others need not be kept: if all equal the first one, no two of them differ.
#[derive(Drop)]
pub(crate) struct Compared {
    first: Option<OutcomeText>,
    pub(crate) found: bool,
}

fn differs_from(first: &Option<OutcomeText>, words: &OutcomeText) -> bool
    ensures { result ≡ differs_from (words_of first.now) words.now.bytes }
{
    match first {
        None => false,
        Some(first) => words.as_str() != first.as_str(),
    }
}

impl Compared {
    /// No outcome yet.
    pub(crate) fn new() -> Compared
        ensures { compared_of result ≡ nothing_compared }
    {
        Compared {
            first: None,
            found: false,
        }
    }

    /// Compares one more outcome.
    pub(crate) fn add(&mut self, base: &Told, told: &Told)
        ensures { compared_of self.new ≡ with_outcome (compared_of self.old)
            (is_worse_told base.now told.now) told.now.words.bytes }
    {
        if is_worse(base, told) || differs_from(&self.first, &told.words) {
            self.found = true;
        }
        if self.first.is_none() {
            self.first = Some(told.words);
        }
    }
}

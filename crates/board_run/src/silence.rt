//! An observer that ignores the notes: a run is made, and nothing is told.
ghost use Rattle.std.specs.Prelude.{◌≡◌};

use crate::observer::Observer;
use kernel_abi::Note;
use outside_io::Failed;
use trace_text::TurnLines;

/// The observer that ignores everything.
#[derive(Clone, Copy)]
pub struct Nobody;

/// This never fails.
impl Observer for Nobody {
    ghost heard = { λ t notes u. u ≡ t };

    ghost broke = { λ _ _ _. ⊥ };

    fn tell(&mut self, _turn: u32, _notes: &[Note], _lines: &mut TurnLines) -> Result<(), Failed> {
        Ok(())
    }

    fn pass_on(&mut self) -> Result<(), Failed> {
        Ok(())
    }

    fn hears_in_parts() {}
}

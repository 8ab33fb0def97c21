//! `Observer`: code that is handed the notes of a run. A sink is one: it takes their text.
ghost use Rattle.std.specs.Prelude.{ℕ, List, [], ◌++◌, MatchResult};
ghost use Rattle.kernel_abi.specs.declared.Note.{Note as Noted};
ghost use Rattle.board_model.specs.Run.{at_turn};
ghost use Rattle.board_run.specs.Telling.{HearsText, BreaksText};

use crate::pushing::push_notes;
use kernel_abi::Note;
use outside_io::{Failed, Sink};
use trace_text::TurnLines;

/// An observer of the turns of a run.
///
/// An implementation has two relations: how it changes as notes are told, and how it may change if
/// that fails.
pub trait Observer {
    /// All of these notes, each with its turn, were told. The first observer is the one before, the
    /// second the one after.
    ghost heard: { Self → List (ℕ × Noted) → Self → Type 0 };

    /// These notes were being told, and that failed.
    ghost broke: { Self → List (ℕ × Noted) → Self → Type 0 };

    /// Tells the notes of a turn. An observer that writes text makes its lines in `lines`, which
    /// still has those of the turn before.
    fn tell(&mut self, turn: u32, notes: &[Note], lines: &mut TurnLines) -> Result<(), Failed>
        ensures { MatchResult result (λ _. heard self.old (at_turn turn notes.now) self.new)
            (λ _. broke self.old (at_turn turn notes.now) self.new) };

    /// Passes on what was told and held back. Nothing new is told.
    fn pass_on(&mut self) -> Result<(), Failed>
        ensures { MatchResult result (λ _. heard self.old [] self.new)
            (λ _. broke self.old [] self.new) };

    /// A law; the function does nothing. If nothing is told, nothing changes, and notes may be told
    /// in parts. A failure after some notes is a failure of all of them.
    fn hears_in_parts()
        ensures nothing { (t : Self) → heard t [] t }
        ensures parts { (t u v : Self) (a b : List (ℕ × Noted)) → heard t a u → heard u b v →
            heard t (a ++ b) v }
        ensures fails { (t u v : Self) (a b : List (ℕ × Noted)) → heard t a u → broke u b v →
            broke t (a ++ b) v };
}

/// A sink gets the text of the notes, with one push for each line.
impl<S: Sink> Observer for S {
    ghost heard = { λ t notes u. HearsText (S.seen t).written (S.seen u).written (S.seen t).faults
        (S.seen u).faults notes };

    ghost broke = { λ t notes u. BreaksText (S.seen t).written (S.seen u).written (S.seen t).faults
        (S.seen u).faults notes };

    fn tell(&mut self, turn: u32, notes: &[Note], lines: &mut TurnLines) -> Result<(), Failed> {
        push_notes(turn, notes, lines, self)
    }

    fn pass_on(&mut self) -> Result<(), Failed> {
        self.flush()
    }

    fn hears_in_parts() {}
}

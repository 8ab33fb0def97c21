//! Searches a run, forwards and back, for a turn with a certain note or a turn that changes a
//! certain byte.

ghost use Rattle.std.specs.Prelude.{ℕ, ◌≡◌, ◌≤◌, ◌<◌, ◌+◌, None, find};
ghost use Rattle.board_model.specs.declared.outcomes.Level.TheVariants.{All};
ghost use Rattle.board_model.specs.Run.{ending};
ghost use Rattle.board_model.specs.Script.{Scenario};
ghost use Rattle.board_model.specs.Turn.{turn};
ghost use Rattle.board_core.specs.Data.{boxed};
ghost use Rattle.board_core.specs.Stands.{notes_of, turns_of};
ghost use Rattle.debug_core.specs.Runs.{state_at};
ghost use Rattle.trace_text.specs.Kinds.{is_sought};
ghost use Rattle.debug_core.specs.Searched.{can_be};
ghost use Rattle.debug_core.specs.Searches.{CameFor, IsLastFound, WentBackFor, WentFor};
ghost use Rattle.debug_core.specs.Times.{IsAt};

use crate::answer::Answer;
use crate::command::Sought;
use crate::replay::{Replay, stop_before};
use board_core::Level;
use kernel_abi::Note;
use trace_text::{NoteKind, is_sought};

/// The first of some notes that matches the search.
fn first_sought(kind: NoteKind, number: Option<u32>, notes: &[Note]) -> Option<Note>
    ensures { result ≡ find (is_sought kind number) notes.now }
{
    notes
        .iter()
        .copied()
        .find(|note| is_sought(kind, number, note))
}

impl Replay {
    /// Whether a turn as the search wants it can exist.
    pub(crate) fn can_find(&self, sought: &Sought) -> bool
        ensures { (x : Scenario) (turn : ℕ) → IsAt (boxed shown) x self.now turn →
            result ≡ can_be sought.now (state_at x turn).memory }
    {
        match sought {
            Sought::Note { .. } => true,
            Sought::Change { at } => self.board.byte(*at).is_some(),
        }
    }

    /// Makes one whole turn. Its notes include the instruction.
    pub(crate) fn make_turn(&mut self)
        requires { (x : Scenario) × (n : ℕ) × IsAt (boxed shown) x self.old n
            × (ending x 1 (state_at x n) ≡ None) × (n < 1000000000) }
        ensures at { (x : Scenario) (n : ℕ) → IsAt (boxed shown) x self.old n →
            ending x 1 (state_at x n) ≡ None → n < 1000000000 →
            IsAt (boxed shown) x self.new (n + 1) }
        ensures notes { (x : Scenario) (n : ℕ) → IsAt (boxed shown) x self.old n →
            notes_of self.new.board ≡ (turn All x (state_at x n)).notes }
    {
        self.board.turn_at(Level::All);
    }

    /// Goes on by some turns before turn `stop`, and returns the first matching note of the last of
    /// them. No turn before it has a matching note.
    fn advance_to_note(&mut self, kind: NoteKind, number: Option<u32>, stop: u32) -> Option<Answer>
        requires from { (x : Scenario) × (turn : ℕ) × IsAt (boxed shown) x self.old turn
            × (ending x 1 (state_at x turn) ≡ None) }
        requires left { turns_of self.old.board < stop }
        requires few { stop ≤ 1000000000 }
        ensures went { (x : Scenario) (turn : ℕ) → IsAt (boxed shown) x self.old turn →
            ending x 1 (state_at x turn) ≡ None →
            WentFor (boxed shown) x (Sought.Note kind number) turn self.new result }
        ensures more { turns_of self.old.board < turns_of self.new.board }
        ensures within { turns_of self.new.board ≤ stop }
    {
        self.board.advance(Level::Calls, stop);
        let turn = self.board.turns() - 1;
        let note = first_sought(kind, number, self.board.notes())?;
        Some(Answer::Told { turn, note })
    }

    /// Goes on by some turns before turn `stop`, and returns how the last of them changed the byte
    /// at an address. No turn before it changed the byte.
    fn advance_past_change(&mut self, at: u32, stop: u32) -> Option<Answer>
        requires from { (x : Scenario) × (turn : ℕ) × IsAt (boxed shown) x self.old turn
            × (ending x 1 (state_at x turn) ≡ None) }
        requires left { turns_of self.old.board < stop }
        requires few { stop ≤ 1000000000 }
        ensures went { (x : Scenario) (turn : ℕ) → IsAt (boxed shown) x self.old turn →
            ending x 1 (state_at x turn) ≡ None →
            WentFor (boxed shown) x (Sought.Change at) turn self.new result }
        ensures more { turns_of self.old.board < turns_of self.new.board }
        ensures within { turns_of self.new.board ≤ stop }
    {
        let change = self.board.advance_watching(at, stop)?;
        Some(Answer::Changed {
            turn: self.board.turns() - 1,
            task: change.task,
            at,
            old: change.old,
            new: change.new,
        })
    }

    /// Goes on by some turns before turn `stop`, and returns what is found in the last of them.
    /// Nothing is found in a turn before it.
    fn advance_for(&mut self, sought: &Sought, stop: u32) -> Option<Answer>
        requires from { (x : Scenario) × (turn : ℕ) × IsAt (boxed shown) x self.old turn
            × (ending x 1 (state_at x turn) ≡ None) }
        requires left { turns_of self.old.board < stop }
        requires few { stop ≤ 1000000000 }
        ensures went { (x : Scenario) (turn : ℕ) → IsAt (boxed shown) x self.old turn →
            ending x 1 (state_at x turn) ≡ None →
            WentFor (boxed shown) x sought.now turn self.new result }
        ensures more { turns_of self.old.board < turns_of self.new.board }
        ensures within { turns_of self.new.board ≤ stop }
    {
        match sought {
            Sought::Note { kind, number } => self.advance_to_note(*kind, *number, stop),
            Sought::Change { at } => self.advance_past_change(*at, stop),
        }
    }

    /// Goes on to a turn, or to the end of the run before it, but stops right after the first turn
    /// in which something is found. Then it returns what is found.
    pub(crate) fn go_for(&mut self, sought: &Sought, to: u32) -> Option<Answer>
        requires from { (x : Scenario) × (turn : ℕ) × IsAt (boxed shown) x self.old turn
            × (turn ≤ to) }
        requires few { to ≤ 1000000000 }
        ensures { (x : Scenario) (turn : ℕ) → IsAt (boxed shown) x self.old turn → turn ≤ to →
            CameFor (boxed shown) x sought.now turn to self.new result }
    {
        'stretches: while self.ending(to).is_none() {
            let stop = stop_before(self.board.turns(), to);
            let found = self.advance_for(sought, stop);
            self.keep();
            if found.is_some() {
                return found;
            }
        }
        None
    }

    /// The last turn before turn `to`, from here on, in which something is found, and what is
    /// found. It makes no checkpoints on the way: they would replace earlier ones from which the
    /// search goes on further back.
    fn last_found(&mut self, sought: &Sought, to: u32) -> Option<(u32, Answer)>
        requires from { (x : Scenario) × (turn : ℕ) × IsAt (boxed shown) x self.old turn
            × (turn ≤ to) × ((state_at x to).turn ≡ to) }
        requires few { to ≤ 1000000000 }
        ensures at { (x : Scenario) (turn : ℕ) → IsAt (boxed shown) x self.old turn → turn ≤ to →
            (state_at x to).turn ≡ to → IsAt (boxed shown) x self.new to }
        ensures last { (x : Scenario) (turn : ℕ) → IsAt (boxed shown) x self.old turn → turn ≤ to →
            (state_at x to).turn ≡ to → IsLastFound x sought.now turn to result }
    {
        let mut last = None;
        'stretches: while self.board.turns() < to {
            if let Some(answer) = self.advance_for(sought, to) {
                let turn = self.board.turns() - 1;
                last = Some((turn, answer));
            }
        }
        last
    }

    /// Goes back to the last checkpoint before a turn, or to turn `low` if that is later, and
    /// returns the turn there.
    fn back_before(&mut self, low: u32, to: u32) -> u32
        requires from { (x : Scenario) × (turn : ℕ) × IsAt (boxed shown) x self.old turn
            × (to ≤ turn) }
        requires some { low < to }
        ensures at { (x : Scenario) (turn : ℕ) → IsAt (boxed shown) x self.old turn → to ≤ turn →
            IsAt (boxed shown) x self.new result }
        ensures above { low ≤ result }
        ensures before { result < to }
    {
        let (place, turn) = self.last_until(to - 1);
        self.load(place);
        let from = turn.max(low);
        self.run_to(from);
        from
    }

    /// Goes back to turn `low`, but stops right before the last earlier turn in which something is
    /// found, and returns what is found. It searches from checkpoint to checkpoint, the last one
    /// first. So it makes each turn at most once, and then once more the turns from a checkpoint to
    /// the turn that was found.
    pub(crate) fn back_for(&mut self, sought: &Sought, low: u32) -> Option<Answer>
        requires { (x : Scenario) × (turn : ℕ) × IsAt (boxed shown) x self.old turn × (low ≤ turn) }
        ensures { (x : Scenario) (turn : ℕ) → IsAt (boxed shown) x self.old turn → low ≤ turn →
            WentBackFor (boxed shown) x sought.now low turn self.new result }
    {
        let mut to = self.board.turns();
        'segments: while low < to {
            let from = self.back_before(low, to);
            if let Some((found, answer)) = self.last_found(sought, to) {
                self.back_to(found);
                return Some(answer);
            }
            to = from;
        }
        self.back_to(low);
        None
    }
}

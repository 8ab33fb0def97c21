//! The calls of each task as turns are seen, and the first arrows between lanes. All memory is
//! allocated before the first turn.
ghost use Rattle.std.specs.Prelude.{◌≡◌, ◌≤◌, vec_len};

use crate::calls::{NO_CALLS, arrow_of, renew};
use crate::first::First;
use kernel_abi::Note;
use lane_picture::{Arrow, TaskCalls};
use std::alloc::{AllocError, Global};

// No more arrows than these are drawn.
const MOST_ARROWS: usize = 300;

/// The calls of each task, and the arrows of all.
#[derive(Drop)]
pub struct Exchange {
    pub calls: Vec<TaskCalls>,
    pub arrows: First<Arrow>,
    ghost few: { vec_len calls ≤ 65536 },
}

impl Exchange {
    ghost use Rattle.std.specs.Prelude.{ℕ, List, [], ◌++◌, IfOk, vec_capacity};
    ghost use Rattle.lane_picture.specs.declared.parts.Arrow.{Arrow as AnArrow};
    ghost use Rattle.lane_picture.specs.Drawing.{most_arrows};
    ghost use Rattle.run_lanes.specs.First.{IsFirst};
    ghost use Rattle.run_lanes.specs.Told.{arrows_of, arrows_of_notes, calls_after, calls_at_end_of, no_calls_of};

    /// The calls and arrows before the first turn, for this many tasks.
    ///
    /// # Errors
    ///
    /// Only if memory runs out.
    pub fn open(alloc: Global, tasks: usize) -> Result<Exchange, AllocError>
        requires { tasks ≤ 65536 }
        ensures calls { IfOk result (λ e. e.calls.items ≡ no_calls_of tasks) }
        ensures arrows { IfOk result (λ e. IsFirst most_arrows e.arrows.kept.items
            (vec_capacity e.arrows.kept) e.arrows.all []) }
    {
        let calls = Vec::from_elem(alloc, NO_CALLS, tasks)?;
        let arrows = First::open(alloc, MOST_ARROWS)?;
        Ok(Exchange { calls, arrows })
    }

    // Takes in a note of a turn that has these notes.
    fn hear(&mut self, turn: u32, notes: &[Note], note: &Note)
        ensures calls { self.new.calls.items ≡ calls_after turn self.old.calls.items note.now }
        ensures arrows { (most : ℕ) (xs : List AnArrow) →
            IsFirst most self.old.arrows.kept.items (vec_capacity self.old.arrows.kept)
            self.old.arrows.all xs →
            IsFirst most self.new.arrows.kept.items (vec_capacity self.new.arrows.kept)
            self.new.arrows.all (xs ++ arrows_of turn notes.now self.old.calls.items note.now) }
    {
        let arrow = arrow_of(turn, notes, &self.calls, note);
        self.arrows.push_some(arrow);
        renew(turn, note, &mut self.calls);
    }

    /// Takes in a turn, with its notes.
    pub fn add(&mut self, turn: u32, notes: &[Note])
        ensures calls { self.new.calls.items ≡ calls_at_end_of turn self.old.calls.items notes.now }
        ensures arrows { (most : ℕ) (xs : List AnArrow) →
            IsFirst most self.old.arrows.kept.items (vec_capacity self.old.arrows.kept)
            self.old.arrows.all xs →
            IsFirst most self.new.arrows.kept.items (vec_capacity self.new.arrows.kept)
            self.new.arrows.all
            (xs ++ arrows_of_notes turn notes.now self.old.calls.items notes.now) }
    {
        for note in notes {
            self.hear(turn, notes, note);
        }
    }
}

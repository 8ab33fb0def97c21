//! Checkpoints of a run: its states, each with the tally up to there.
ghost use Rattle.std.specs.Prelude.{◌≡◌, ◌≤◌, length, vec_len, IfOk};

use crate::tally::Tally;
use std::alloc::{AllocError, Global};

/// The state of a run before a turn, as bytes, and the tally of the run up to there.
#[derive(Drop)]
pub(crate) struct Checkpoint {
    pub(crate) turn: u32,
    pub(crate) heard: Tally,
    pub(crate) state: Vec<u8>,
}

/// The checkpoints of one run, with room for more. The first `count` ones are in use.
#[derive(Drop)]
pub(crate) struct Checkpoints {
    pub(crate) states: Vec<Checkpoint>,
    pub(crate) count: usize,
    ghost within: { count ≤ vec_len states },
}

impl Checkpoints {
    /// Takes room for checkpoints with states of `len` bytes each.
    ///
    /// # Errors
    ///
    /// Only if memory runs out.
    pub(crate) fn with_room(
        alloc: Global,
        states: usize,
        len: usize,
    ) -> Result<Checkpoints, AllocError>
        ensures none { IfOk result (λ t. t.count ≡ 0) }
        ensures room { IfOk result (λ t. length t.states.items ≡ states) }
    {
        let mut room = Vec::with_capacity(alloc, states)?;
        for _ in 0..states {
            room.push(Checkpoint {
                turn: 0,
                heard: Tally::new(),
                state: vec![in alloc; 0; len]?,
            })?;
        }
        Ok(Checkpoints {
            states: room,
            count: 0,
        })
    }

    /// Drops all checkpoints and keeps the room.
    pub(crate) fn clear(&mut self)
        ensures { self.new.count ≡ 0 }
    {
        self.count = 0;
    }

    /// The first turn, from this one on, before which a state is kept; the largest number if there
    /// is none.
    pub(crate) fn next(&self, from: u32) -> u32
        ensures { from ≤ result }
    {
        let mut next = u32::MAX;
        for k in 0..self.count {
            let turn = self.states[k].turn;
            if from <= turn {
                next = next.min(turn);
            }
        }
        next
    }
}

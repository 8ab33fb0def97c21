//! Finds where a run meets another one.
ghost use Rattle.std.specs.Prelude.{◌≡◌, ◌<◌, ◌≤◌, true, false, vec_len};
ghost use Rattle.sweep_core.specs.Leading.{HasNone, HasSame, IsOneMore, IsSameAs};

use crate::checkpoints::{Checkpoint, Checkpoints};
use crate::tally::Tally;
use std::mem::swap;

impl Checkpoint {
    /// Whether this checkpoint has these bytes and this tally.
    fn is_same(&self, heard: &Tally, state: &[u8]) -> bool
        ensures same { result ≡ true → IsSameAs heard.now state.now self.now }
        ensures other { IsSameAs heard.now state.now self.now → result ≡ true }
    {
        self.heard == *heard && self.state.as_slice() == state
    }
}

impl Checkpoints {
    /// Whether a checkpoint with this state and this tally is kept.
    pub(crate) fn has(&self, heard: &Tally, state: &[u8]) -> bool
        ensures some { result ≡ true → HasSame heard.now state.now self.now }
        ensures none { result ≡ false → HasNone heard.now state.now self.now }
    {
        for k in 0..self.count {
            if self.states[k].is_same(heard, state) {
                return true;
            }
        }
        false
    }

    /// Keeps one more state, if there is room. Its bytes are swapped with those of the free
    /// checkpoint.
    pub(crate) fn keep(&mut self, turn: u32, heard: &Tally, state: &mut Vec<u8>)
        ensures more { self.old.count < vec_len self.old.states →
            IsOneMore turn heard.now state.old.items self.old self.new }
        ensures full { vec_len self.old.states ≤ self.old.count → self.new ≡ self.old }
    {
        if self.count < self.states.len() {
            let meeting = &mut self.states[self.count];
            meeting.turn = turn;
            meeting.heard = *heard;
            swap(&mut meeting.state, state);
            self.count += 1;
        }
    }
}

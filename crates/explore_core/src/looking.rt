//! Whether a state was seen.
ghost use Rattle.std.specs.Prelude.{◌≡◌, true};
ghost use Rattle.explore_core.specs.Seen.{HasSame, IsSameAs, IsWithSlot};

use crate::seen::{Seen, Slot};
use std::mem::swap;

impl Slot {
    /// Whether it is this state of a turn, with as much to come and as much kept.
    fn is_same(&self, turn: u32, pending: &[bool; 8], kept: &[u32; 16], state: &[u8]) -> bool
        ensures { result ≡ true → IsSameAs turn pending.now kept.now state.now self.now }
    {
        self.used
            && self.turn == turn
            && self.pending == *pending
            && self.kept == *kept
            && self.state.as_slice() == state
    }
}

impl Seen {
    /// Whether such a state was seen. Where to look is told by any number.
    pub(crate) fn has(
        &self,
        digest: u64,
        turn: u32,
        pending: &[bool; 8],
        kept: &[u32; 16],
        state: &[u8],
    ) -> bool
        ensures { result ≡ true → HasSame turn pending.now kept.now state.now self.now }
    {
        let place = (digest % self.slots.len() as u64) as usize;
        self.slots[place].is_same(turn, pending, kept, state)
    }

    /// It is kept. The bytes change places with those that were kept there.
    pub(crate) fn keep(
        &mut self,
        digest: u64,
        turn: u32,
        pending: &[bool; 8],
        kept: &[u32; 16],
        state: &mut Vec<u8>,
    )
        ensures { IsWithSlot turn pending.now kept.now state.old.items self.old self.new }
    {
        let place = (digest % self.slots.len() as u64) as usize;
        let slot = &mut self.slots[place];
        slot.used = true;
        slot.turn = turn;
        slot.pending = *pending;
        slot.kept = *kept;
        swap(&mut slot.state, state);
    }
}

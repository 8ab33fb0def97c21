//! Copies a script into another one and adds events to it one by one, in memory that was allocated
//! before.

ghost use Rattle.std.specs.Prelude.{◌≡◌, ◌+◌, ◌==◌, ◌++◌, ◌||◌, not, ◌∷◌, [], ℕ, true, false, length, nat_le, is_some, if◌then◌else◌, IfOk, IfSome, slice_get};
ghost use Rattle.run_script.specs.Events.{script_data};
ghost use Rattle.run_script.specs.Facts.{HasDevice, HasLine, IsListed};
ghost use Rattle.run_script.specs.Laying.{HasRoom, has_no_place};
ghost use Rattle.run_script.specs.Scripts.{events_of, inserted, lasts, no_script};

use crate::draft::{MOST, MOST_OF_TURN};
use crate::events::Event;
use crate::script::Script;
use crate::turns::{TURNS, first_of, listed_at};
use std::alloc::{AllocError, Global};

impl Script {
    /// A script without events that has room for this many. Within this room, `become_as` and `add`
    /// allocate no memory.
    ///
    /// # Errors
    ///
    /// Only if memory runs out.
    pub fn with_room(alloc: Global, events: usize) -> Result<Script, AllocError>
        ensures nothing { IfOk result (λ s. script_data s ≡ no_script) }
        ensures room { IfOk result (λ s. HasRoom s events) }
    {
        Ok(Script {
            every: None,
            events: Vec::with_capacity(alloc, events)?,
        })
    }

    /// How many events are listed; the ticks of an `every` are not among them.
    pub fn count(&self) -> usize
        ensures { result ≡ length (script_data self.now).events }
    {
        self.events.len()
    }

    /// Whether it has an `every`, a tick in each turn that is a multiple of a period
    /// (docs/FORMATS.md, Script).
    pub fn has_every(&self) -> bool
        ensures { result ≡ is_some (script_data self.now).every }
    {
        self.every.is_some()
    }

    /// The event at an index of the list, from 0, with its turn; `None` past the last one.
    pub fn listed_event(&self, place: usize) -> Option<(u32, Event)>
        ensures event { result ≡ slice_get (script_data self.now).events place }
        ensures known { IfSome result IsListed }
    {
        self.events.get(place).copied()
    }

    /// Becomes a copy of another script, for whose events it needs to have room. It loses its own
    /// events, keeps its room, and allocates no memory.
    pub fn become_as(&mut self, other: &Script)
        requires { HasRoom self.old (length (script_data other.now).events) }
        ensures same { script_data self.new ≡ script_data other.now }
        ensures room { (n : ℕ) → HasRoom self.old n → HasRoom self.new n }
    {
        self.every = other.every;
        self.events.clear();
        match self.events.extend_from_slice(&other.events) {
            Ok(()) => {}
            Err(_) => unreachable!(),
        }
    }

    /// Lists one more event, after those of its turn and of the turns before. There needs to be
    /// room for it, so no memory is allocated. If the result would not be a script, since the
    /// event's turn is past the last one, or 65,536 events are listed, or eight of its turn
    /// (docs/FORMATS.md, Script), the method returns `false`, and nothing changes.
    pub fn add(&mut self, turn: u32, event: Event) -> bool
        requires line { HasLine event }
        requires device { HasDevice event }
        requires room { HasRoom self.old (length (script_data self.old).events + 1) }
        ensures full { result ≡ false → self.new ≡ self.old }
        ensures free { result ≡ not (has_no_place (script_data self.old) turn) }
        ensures list { result ≡ true → script_data self.new ≡
            (record (script_data self.old) {
              events = inserted turn event
                  (script_data self.old).events;
            }) }
        ensures events { result ≡ true → (u : ℕ) → events_of (script_data self.new) u
            ≡ events_of (script_data self.old) u ++ (if turn == u then event ∷ [] else []) }
        ensures lasts { result ≡ true → (u : ℕ) → lasts (script_data self.new) u
            ≡ (lasts (script_data self.old) u || nat_le u turn) }
        ensures count { result ≡ true → length (script_data self.new).events
            ≡ length (script_data self.old).events + 1 }
        ensures room { (n : ℕ) → HasRoom self.old n → HasRoom self.new n }
    {
        if turn >= TURNS || self.events.len() >= MOST {
            return false;
        }
        if listed_at(self, first_of(self, turn), turn, MOST_OF_TURN as u32 - 1).is_some() {
            return false;
        }
        let at = first_of(self, turn + 1);
        match self.events.insert(at, (turn, event)) {
            Ok(()) => true,
            Err(_) => unreachable!(),
        }
    }
}

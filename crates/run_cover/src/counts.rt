//! Counts how often each instruction was executed, was taken as a branch, and faulted, from the
//! notes of a run.
ghost use Rattle.std.specs.Prelude.{◌≡◌, ℕ, Bool, List, IfOk, slice_index};
ghost use Rattle.kernel_abi.specs.declared.Note.TheVariants as note;
ghost use Rattle.board_model.specs.Run.{at_turn};
ghost use Rattle.run_cover.specs.Counted.{Heard, HeardNote, IsCounted, IsNewlyCounted, count_of, is_taken, leads_on, no_count, raised_in};

use crate::places::{PLACES, place_of};
use crate::ways::{decoded, is_conditional};
use kernel_abi::{Fault, Note};
use std::alloc::{AllocError, Global};

/// The counts of the instruction at a place. `executed` is the number of turns in which it was
/// executed. `taken` is how many of these left the PC elsewhere than right after it, if it is a
/// conditional branch. `faulted` is the number of turns in which the task faulted at it. A run has
/// at most 1,000,000,000 turns.
#[derive(Clone, Copy)]
pub struct Count {
    pub executed: u32,
    pub taken: u32,
    pub faulted: u32,
}

/// What is counted.
#[derive(Clone, Copy)]
pub enum What {
    Executed,
    Taken,
    Faulted,
}

/// An instruction that a task executes in this turn. The other notes of the turn say how it ended.
#[derive(Clone, Copy)]
pub struct Begun {
    pub task: u16,
    pub at: u32,
    pub code: u32,
}

/// A count for each place.
#[derive(Drop)]
pub struct PlaceCounts {
    pub counts: Vec<Count>,
    pub begun: Option<Begun>,
}

impl Count {
    /// The count of nothing.
    fn none() -> Count
        ensures { result ≡ no_count }
    {
        Count {
            executed: 0,
            taken: 0,
            faulted: 0,
        }
    }

    /// One more, up to 2^32 - 1, which no run comes near.
    fn raised(self, what: What) -> Count
        ensures { result ≡ raised_in what self }
    {
        let mut count = self;
        match what {
            What::Executed => count.executed = self.executed.saturating_add(1),
            What::Taken => count.taken = self.taken.saturating_add(1),
            What::Faulted => count.faulted = self.faulted.saturating_add(1),
        }
        count
    }

    /// Whether the instruction leads anywhere. An instruction that was executed and faulted each
    /// time does not.
    pub fn leads_on(&self) -> bool
        ensures { result ≡ leads_on self.now }
    {
        self.executed == 0 || self.faulted < self.executed
    }
}

impl Begun {
    // Whether the instruction is a conditional branch that was taken, if the PC is `pc` afterwards.
    fn is_taken(&self, pc: u32) -> bool
        ensures { result ≡ is_taken self.now pc }
    {
        u64::from(pc) != u64::from(self.at) + 2 && is_conditional(decoded(self.code))
    }
}

impl PlaceCounts {
    /// A table in which nothing was counted yet.
    ///
    /// # Errors
    ///
    /// Only if memory runs out.
    pub fn open(alloc: Global) -> Result<PlaceCounts, AllocError>
        ensures { IfOk result IsNewlyCounted }
    {
        let counts = Vec::from_elem(alloc, Count::none(), PLACES)?;
        Ok(PlaceCounts {
            counts,
            begun: None,
        })
    }

    /// The count at an address; zeros if the address is not a place.
    pub fn at(&self, addr: u32) -> Count
        ensures { result ≡ count_of self.now addr }
    {
        match place_of(addr) {
            None => Count::none(),
            Some(k) => {
                if k < self.counts.len() {
                    self.counts[k]
                } else {
                    Count::none()
                }
            }
        }
    }

    // Counts one more at an address.
    fn count(&mut self, at: u32, what: What)
        ensures { IsCounted self.old at what self.new }
    {
        match place_of(at) {
            None => {}
            Some(k) => {
                if k < self.counts.len() {
                    self.counts[k] = self.counts[k].raised(what);
                }
            }
        }
    }

    // Counts the fault of a task, at the instruction that it has begun, if it has begun one.
    fn fault(&mut self, task: u16, fault: &Fault)
        ensures { HeardNote self.old (note.Fault task fault.now) self.new }
    {
        if let Some(begun) = self.begun
            && begun.task == task
        {
            self.begun = None;
            self.count(begun.at, What::Faulted);
        }
    }

    // Ends the turn with a task's PC at an address.
    fn end(&mut self, pc: u32)
        ensures { (registers : List ℕ) (n z c v : Bool) → slice_index registers 7 ≡ pc →
            HeardNote self.old (note.High registers n z c v) self.new }
    {
        if let Some(begun) = self.begun {
            self.begun = None;
            if begun.is_taken(pc) {
                self.count(begun.at, What::Taken);
            }
        }
    }

    // Begins an instruction of a task.
    fn begin(&mut self, begun: Begun)
        ensures { HeardNote self.old (note.Insn begun.task begun.at begun.code) self.new }
    {
        self.begun = Some(begun);
        self.count(begun.at, What::Executed);
    }

    // Counts a note.
    fn hear(&mut self, note: &Note)
        ensures { HeardNote self.old note.now self.new }
    {
        match note {
            Note::Insn { task, at, code } => self.begin(Begun {
                task: *task,
                at: *at,
                code: *code,
            }),
            Note::Fault { task, fault } => self.fault(*task, fault),
            Note::High { registers, .. } => self.end(registers[7]),
            _ => {}
        }
    }

    /// Counts the notes of a turn.
    pub fn hear_all(&mut self, turn: u32, notes: &[Note])
        ensures { Heard self.old (at_turn turn notes.now) self.new }
    {
        for note in notes {
            self.hear(note);
        }
    }
}

//! How many notes of each kind a run has.
ghost use Rattle.std.specs.Prelude.{◌≡◌};
ghost use Rattle.board_model.specs.Run.{at_turn};
ghost use Rattle.board_run.specs.Counts.{CountedKind};
ghost use Rattle.board_run.specs.Counting.{HaveGrown, count_at, counted};

use crate::observer::Observer;
use kernel_abi::Note;
use outside_io::Failed;
use trace_text::TurnLines;

/// How many notes of each kind were told: up to 2^64 - 1, which no run comes near.
#[derive(Clone, Copy, Debug, PartialEq, Eq)]
pub struct Counts {
    pub tick: u64,
    pub irq: u64,
    pub post: u64,
    pub call: u64,
    pub offer: u64,
    pub take: u64,
    pub listen: u64,
    pub borrow: u64,
    pub ret: u64,
    pub close: u64,
    pub fault: u64,
    pub restart: u64,
}

impl Counts {
    /// No notes were told yet.
    pub fn new() -> Counts
        ensures { (kind : CountedKind) → count_at result kind ≡ 0 }
    {
        Counts {
            tick: 0,
            irq: 0,
            post: 0,
            call: 0,
            offer: 0,
            take: 0,
            listen: 0,
            borrow: 0,
            ret: 0,
            close: 0,
            fault: 0,
            restart: 0,
        }
    }

    // Counts one more note.
    fn count(&mut self, note: &Note)
        ensures { self.new ≡ counted self.old note.now }
    {
        match note {
            Note::Tick { .. } => self.tick = self.tick.saturating_add(1),
            Note::Irq { .. } => self.irq = self.irq.saturating_add(1),
            Note::Post { .. } => self.post = self.post.saturating_add(1),
            Note::Syscall { .. } => self.call = self.call.saturating_add(1),
            Note::Offer { .. } => self.offer = self.offer.saturating_add(1),
            Note::Take { .. } => self.take = self.take.saturating_add(1),
            Note::Listen { .. } => self.listen = self.listen.saturating_add(1),
            Note::Borrow { .. } => self.borrow = self.borrow.saturating_add(1),
            Note::Ret { .. } => self.ret = self.ret.saturating_add(1),
            Note::Close { .. } => self.close = self.close.saturating_add(1),
            Note::Fault { .. } => self.fault = self.fault.saturating_add(1),
            Note::Restart { .. } => self.restart = self.restart.saturating_add(1),
            // of a kind that is not counted
            Note::In { .. } | Note::Out { .. } => {}
            Note::IrqStatus { .. } | Note::Find { .. } => {}
            Note::Insn { .. } | Note::Idle | Note::Low { .. } | Note::High { .. } => {}
        }
    }

    // Counts the notes of a turn.
    fn count_all(&mut self, turn: u32, notes: &[Note])
        ensures { HaveGrown self.old (at_turn turn notes.now) self.new }
    {
        for note in notes {
            self.count(note);
        }
    }
}

/// Counting never fails.
impl Observer for Counts {
    ghost heard = { HaveGrown };

    ghost broke = { λ _ _ _. ⊥ };

    fn tell(&mut self, turn: u32, notes: &[Note], _lines: &mut TurnLines) -> Result<(), Failed> {
        self.count_all(turn, notes);
        Ok(())
    }

    fn pass_on(&mut self) -> Result<(), Failed> {
        Ok(())
    }

    fn hears_in_parts() {}
}

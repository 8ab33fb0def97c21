//! `Tally`: what a sweep counts of the notes of a run.
ghost use Rattle.std.specs.Prelude.{◌≡◌};
ghost use Rattle.board_model.specs.Run.{at_turn};
ghost use Rattle.sweep_core.specs.Outcomes.{digest, first_of, heard, heard_note, nothing_heard};

use board_run::Observer;
use kernel_abi::{Fault, Note};
use outside_io::Failed;
use trace_text::TurnLines;

/// The counts of faults, restarts and bytes that went out, up to 2^64 - 1 each; the first fault
/// with its task; and the digest of the bytes that went out.
#[derive(Clone, Copy, Debug, PartialEq, Eq)]
pub struct Tally {
    pub faults: u64,
    pub first: Option<(u16, Fault)>,
    pub restarts: u64,
    pub outs: u64,
    pub out: u32,
}

/// The digest after one more byte.
pub(crate) fn digest(d: u32, byte: u8) -> u32
    ensures { result ≡ digest d byte }
{
    ((u64::from(d) * 16_777_619 + u64::from(byte)) % 4_294_967_296) as u32
}

fn first_of(first: Option<(u16, Fault)>, task: u16, fault: Fault) -> Option<(u16, Fault)>
    ensures { result ≡ first_of first task fault }
{
    match first {
        None => Some((task, fault)),
        Some(first) => Some(first),
    }
}

impl Tally {
    /// The tally of no notes.
    pub fn new() -> Tally
        ensures { result ≡ nothing_heard }
    {
        Tally {
            faults: 0,
            first: None,
            restarts: 0,
            outs: 0,
            out: 0x811c_9dc5,
        }
    }

    // Counts one more note.
    fn hear(&mut self, note: &Note)
        ensures { self.new ≡ heard_note self.old note.now }
    {
        match note {
            Note::Fault { task, fault } => {
                self.first = first_of(self.first, *task, *fault);
                self.faults = self.faults.saturating_add(1);
            }
            Note::Restart { .. } => self.restarts = self.restarts.saturating_add(1),
            Note::Out { device, byte } => {
                self.outs = self.outs.saturating_add(1);
                self.out = digest(digest(self.out, (*device % 256) as u8), *byte);
            }
            _ => {}
        }
    }

    // Counts the notes of a turn.
    fn hear_all(&mut self, turn: u32, notes: &[Note])
        ensures { self.new ≡ heard self.old (at_turn turn notes.now) }
    {
        for note in notes {
            self.hear(note);
        }
    }
}

/// Counting never fails.
impl Observer for Tally {
    ghost heard = { λ t notes u. u ≡ heard t notes };

    ghost broke = { λ _ _ _. ⊥ };

    fn tell(&mut self, turn: u32, notes: &[Note], _lines: &mut TurnLines) -> Result<(), Failed> {
        self.hear_all(turn, notes);
        Ok(())
    }

    fn pass_on(&mut self) -> Result<(), Failed> {
        Ok(())
    }

    fn hears_in_parts() {}
}

//! The lines of notes.
ghost use Rattle.std.specs.Prelude.{ℕ, ◌<◌, ◌^◌};
ghost use Rattle.kernel_abi.specs.declared.Note.{Note};
ghost use Rattle.trace_text.specs.Fit.{IsFitNote};
ghost use Rattle.audit_laws.specs.Told.{IsRight, IsReadAs};

/// The line of each note with numbers in range, in a turn below 2^32, is one line of printable
/// bytes. An audit reads it as what the note says about calls in that turn. The note has to be
/// right: the code of an instruction is an instruction, a borrow for information moves no bytes,
/// and the index of a device that gives out a byte is below 2^32.
pub fn lines_of_notes_are_read()
    ensures { (turn : ℕ) (note : Note) → turn < 2 ^ 32 → IsFitNote note → IsRight note →
        IsReadAs turn note }
{}

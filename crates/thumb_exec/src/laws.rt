//! What is true of the effect of every instruction, for proofs about whole turns and runs. Nothing
//! here is executed.
ghost use Rattle.std.specs.Prelude.{◌≡◌};
ghost use Rattle.thumb_exec.specs.Effect.{Refusals, Contents, effect};
ghost use Rattle.thumb_exec.specs.Keeps.{IsWholeCpu, Keeps, AllPermitted, Agree, Widens, GoesOnAs};
ghost use Rattle.thumb_exec.specs.declared.cpu.Cpu.{Cpu as Processor};
ghost use Rattle.thumb_insn.specs.Range.{IsCoded};
ghost use Rattle.thumb_insn.specs.declared.Insn.{Insn as Instruction};

/// An instruction that has a code keeps PC even and SP a multiple of 4. It stores only bytes that
/// may be written and loads only bytes that may be read, at most sixteen times. It raises only the
/// faults of an instruction: Access, Unaligned, State and Breakpoint.
pub fn every_effect_keeps()
    ensures { (refuses : Refusals) (holds : Contents) (c : Processor) (i : Instruction) →
        IsCoded i → IsWholeCpu c → Keeps refuses (effect refuses holds c i) }
{}

/// An instruction stores only what it may store, and loads only what it may load.
pub fn every_move_is_permitted()
    ensures { (refuses : Refusals) (holds : Contents) (c : Processor) (i : Instruction) →
        AllPermitted refuses (effect refuses holds c i) }
{}

/// What an instruction does depends on memory only where it may be read.
pub fn every_effect_reads_what_it_may()
    ensures { (refuses : Refusals) (holds held : Contents) → Agree refuses holds held →
        (c : Processor) (i : Instruction) → effect refuses holds c i ≡ effect refuses held c i }
{}

/// An instruction that goes on does the same if it has more rights and memory holds the same
/// wherever it may be read.
pub fn what_goes_on_goes_on_with_more_rights()
    ensures { (refuses wider : Refusals) (holds held : Contents) → Widens refuses wider holds held →
        (c : Processor) (i : Instruction) →
        GoesOnAs (effect refuses holds c i) (effect wider held c i) }
{}

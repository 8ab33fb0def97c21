//! What is true of every step, for proofs about whole turns and runs. Nothing here is executed.
ghost use Rattle.thumb_exec.specs.Effect.{Refusals, Contents};
ghost use Rattle.thumb_exec.specs.declared.cpu.Cpu.{Cpu as Processor};
ghost use Rattle.thumb_exec.specs.Keeps.{GoesOnAs};
ghost use Rattle.thumb_exec.specs.Fetch.{WidensFetch, step_effect};

/// A step that goes on does the same if it has more rights and memory holds the same wherever it
/// may be read or executed.
pub fn what_goes_on_goes_on_with_more_rights()
    ensures { (refuses wider : Refusals) (holds held : Contents) →
        WidensFetch refuses wider holds held → (c : Processor) →
        GoesOnAs (step_effect refuses holds c) (step_effect wider held c) }
{}

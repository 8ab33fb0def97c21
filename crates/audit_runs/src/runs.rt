//! The notes of a run.
ghost use Rattle.std.specs.Prelude.{ℕ};
ghost use Rattle.task_table.specs.model.Sane.{Sane};
ghost use Rattle.board_model.specs.declared.outcomes.Level.{Level};
ghost use Rattle.board_model.specs.Script.{Scenario, start_of};
ghost use Rattle.board_model.specs.Run.{run};
ghost use Rattle.board_model.specs.Lifetimes.{notes_in};
ghost use Rattle.audit_laws.specs.Whole.{AreInOrder, AreRight};
ghost use Rattle.audit_runs.specs.Spoken.{IsSpoken};

/// What the notes of a run from the start say of calls is good, and agrees with the calls that are
/// open at its end. Their turns do not decrease. The code in the note of an instruction is one of
/// an instruction, and a borrow for information moves nothing.
pub fn runs_say_what_is_good()
    ensures spoken { (level : Level) (x : Scenario) (n : ℕ) → Sane x.setup (start_of x)
        → IsSpoken (notes_in (run level x n (start_of x)).notes) (run level x n (start_of x)).last }
    ensures order { (level : Level) (x : Scenario) (n : ℕ) → Sane x.setup (start_of x) →
        AreInOrder 0 (run level x n (start_of x)).notes }
    ensures right { (level : Level) (x : Scenario) (n : ℕ) → Sane x.setup (start_of x) →
        AreRight (run level x n (start_of x)).notes }
{}

//! The text of a run.
ghost use Rattle.std.specs.Prelude.{ℕ, List, [], ◌++◌};
ghost use Rattle.task_table.specs.model.State.{Setup, State};
ghost use Rattle.task_table.specs.model.Sane.{Sane};
ghost use Rattle.board_model.specs.declared.outcomes.Level.{Level};
ghost use Rattle.board_model.specs.Script.{Scenario, start_of};
ghost use Rattle.board_model.specs.Run.{Run};
ghost use Rattle.board_model.specs.Lifetimes.{notes_in};
ghost use Rattle.board_run.specs.Text.{trace_text};
ghost use Rattle.board_run.specs.MemoryText.{memory_text};
ghost use Rattle.trace_text.specs.Fit.{AreFit};
ghost use Rattle.audit_laws.specs.Whole.{AreInOrder, AreRight};
ghost use Rattle.audit_runs.specs.Spoken.{IsSpoken};
ghost use Rattle.audit_runs.specs.Last.{IsFitLast, IsShown, IsGoodText, IsGoodRun};

/// The lines of the memory of a sane state show something. No lines at all are accepted too.
pub fn memories_are_shown()
    ensures none { IsShown [] }
    ensures memories { (g : Setup) (s : State) → Sane g s → IsShown (memory_text g s) }
{}

/// The text of a run is good, with any lines after it that show something, and no line of it has a
/// cause. For this the run's last state is sane and in range. Its notes are in range and right,
/// their turns do not decrease, and what they say of calls is good and agrees with the last state.
/// A run from the start has all this, except that numbers are in range.
pub fn texts_of_runs_are_good()
    ensures any { (g : Setup) (r : Run) (more : List ℕ) → Sane g r.last → IsFitLast r.last →
        IsShown more
        → AreInOrder 0 r.notes → AreFit r.notes → AreRight r.notes →
        IsSpoken (notes_in r.notes) r.last
        → IsGoodText (trace_text r ++ more) }
    ensures runs { (level : Level) (x : Scenario) (n : ℕ) → Sane x.setup (start_of x) →
        IsGoodRun level x n }
{}

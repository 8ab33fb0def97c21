//! Laws about searches and what they find (docs/FORMATS.md, Commands). Nothing runs here.
//!
//! - The last turn that changed a byte gave the byte its present value
//! (`the_turn_that_was_found_is_why`).
//! - A search back right after a search forwards finds the same turn, and the other way round
//! (`there_and_back`).
//! - A note that is found is a note of the run (`what_is_found_is_told`).
//! - The task that an answer names with a change could make it (`who_changed_a_byte_could`).

ghost use Rattle.std.specs.Prelude.{ℕ, ◌≡◌, ◌<◌, ◌≤◌, true, Option, Some, None, Contains};
ghost use Rattle.kernel_abi.specs.declared.Note.{Note};
ghost use Rattle.task_table.specs.model.Sane.{Sane};
ghost use Rattle.board_model.specs.Script.{Scenario, start_of};
ghost use Rattle.board_core.specs.Changes.{change_of};
ghost use Rattle.trace_text.specs.declared.kinds.NoteKind.{NoteKind};
ghost use Rattle.debug_core.specs.declared.answer.Answer.TheVariants.{Changed, Told};
ghost use Rattle.debug_core.specs.declared.command.Command.TheVariants.{BackFor, GoFor};
ghost use Rattle.debug_core.specs.declared.command.Sought.{Sought};
ghost use Rattle.debug_core.specs.declared.command.Sought.TheVariants.{Change};
ghost use Rattle.debug_core.specs.Runs.{Reaches, end_here, most_turns, notes_of_run};
ghost use Rattle.debug_core.specs.Changers.{CouldChange};
ghost use Rattle.debug_core.specs.Searched.{byte_before, byte_left, found, told_at};
ghost use Rattle.debug_core.specs.Session.{Session, after, ahead, behind, may_find};

/// If a search back finds a turn that changed a byte, the byte at the cursor has the value that
/// this turn gave it, and no later turn changed it.
pub fn the_turn_that_was_found_is_why()
    ensures value { (x : Scenario) (s : Session) (n at t : ℕ) → Reaches x s.cursor →
        behind x s n (Change at) ≡ Some t → byte_before x at s.cursor ≡ byte_left x at t }
    ensures since { (x : Scenario) (s : Session) (n at t u : ℕ) →
        behind x s n (Change at) ≡ Some t → t < u → u < s.cursor →
        change_of (byte_before x at u) (byte_left x at u) ≡ None }
{}

/// A search back right after a search forwards that found a turn finds the same turn. So does a
/// search forwards right after a search back, at a cursor that the run reaches.
pub fn there_and_back()
    ensures back { (x : Scenario) (s : Session) (n m t : ℕ) (what : Sought) →
        may_find x s what ≡ true → ahead x s n what ≡ Some t → 0 < m →
        behind x (after x s (GoFor n what)) m what ≡ Some t }
    ensures on { (x : Scenario) (s : Session) (n m t : ℕ) (what : Sought) → Reaches x s.cursor →
        s.cursor ≤ most_turns → may_find x s what ≡ true → behind x s n what ≡ Some t → 0 < m →
        ahead x (after x s (BackFor n what)) m what ≡ Some t }
{}

/// If the run reaches and makes a turn, a note that is found in the turn is a note of the run, with
/// that turn.
pub fn what_is_found_is_told()
    ensures line { (x : Scenario) (kind : NoteKind) (number : Option ℕ) (t : ℕ) (note : Note) →
        Reaches x t → end_here x t ≡ None → told_at x kind number t ≡ Some (Told t note) →
        Contains (notes_of_run x) (t, note) }
{}

/// The task that an answer names with a change of a byte ran in that turn, and could change the
/// byte. The byte lies in one of the task's own regions, in the buffer of a listening task that
/// takes the task's message in this turn, or in the reply buffer or a writable lease of an open
/// call that the task serves. Each change has such a task: if no task runs, no byte changes.
pub fn who_changed_a_byte_could()
    ensures { (x : Scenario) (n at old new : ℕ) (task : Option ℕ) → Sane x.setup (start_of x) →
        found x (Change at) n ≡ Some (Changed n task at old new) → CouldChange x n at task }
{}

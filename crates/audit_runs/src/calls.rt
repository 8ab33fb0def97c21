//! What notes say of calls.
ghost use Rattle.std.specs.Prelude.{ℕ, List, [], ◌++◌};
ghost use Rattle.kernel_abi.specs.declared.Note.{Note};
ghost use Rattle.task_table.specs.model.State.{Setup, State, Turn};
ghost use Rattle.task_table.specs.model.Placed.{ArePlaced};
ghost use Rattle.task_table.specs.model.Reading.{call_of};
ghost use Rattle.task_table.specs.model.Start.{start};
ghost use Rattle.task_table.specs.model.Chain.{Chain};
ghost use Rattle.task_table.specs.model.Step.{Step};
ghost use Rattle.trace_audit.specs.Rules.{IsGoodWait};
ghost use Rattle.audit_runs.specs.Spoken.{sayings, wait_by_call, IsSpoken};

/// What notes say of calls is good, and agrees with the calls that are open. This is so at the
/// start, where nothing is noted, and it stays so after a chain of steps. (The rules are those of
/// an audit. An offer has the next number, and a client that has no call. A take and a close are of
/// an open call. An answer and a borrow are of a call that is taken.)
pub fn chains_say_what_is_good()
    ensures start { (g : Setup) → IsSpoken [] (start g) }
    ensures chains { (g : Setup) (s : State) (c : ℕ) (old : List Note) (u v : Turn) →
        ArePlaced g s.memory
        → Chain (Step g s c) u v → IsSpoken (old ++ u.notes) u.state →
        IsSpoken (old ++ v.notes) v.state }
{}

/// Each client waits for its open call, as the notes say.
pub fn clients_wait_as_notes_say()
    ensures { (notes : List Note) (s : State) (i : ℕ) → IsSpoken notes s →
        IsGoodWait (sayings notes) i (wait_by_call (call_of s i)) }
{}

//! Laws about runs with different scripts. Nothing runs here.

ghost use Rattle.std.specs.Prelude.{◌≡◌, ◌≤◌, ◌+◌, ℕ, true, List};
ghost use Rattle.run_script.specs.Scripts.{Listed, ScriptData};
ghost use Rattle.task_table.specs.model.State.{State};
ghost use Rattle.task_table.specs.model.Sane.{Sane};
ghost use Rattle.board_model.specs.declared.outcomes.Level.{Level as NoteLevel};
ghost use Rattle.board_model.specs.Script.{Scenario};
ghost use Rattle.board_model.specs.Alike.{reduced};
ghost use Rattle.board_model.specs.Run.{run, with_front};
ghost use Rattle.board_model.specs.Cut.{cut_at, left_of};
ghost use Rattle.board_model.specs.Laid.{with_script, arriving, is_over};
ghost use Rattle.board_model.specs.SameScripts.{AgreeFor, EndAlike};

/// Of its script, a run depends only on what happens in each of its turns, and on whether the
/// script lasts there.
pub fn what_happens_decides()
    ensures { (level : NoteLevel) (x : Scenario) (other : ScriptData) (n : ℕ) (s : State) →
        Sane x.setup s → AgreeFor x.script other s.turn n →
        run level (with_script x other) n s ≡ run level x n s }
{}

/// Before an arrival comes, its time does not matter: up to there the runs of two arrival times are
/// the same. After it is over, it does not matter any more: from there on the run is the one
/// without it.
pub fn arrivals_decide_nothing_before_and_after()
    ensures before { (level : NoteLevel) (x : Scenario) (arrival : List Listed) (time later n : ℕ)
        (s : State) → Sane x.setup s → s.turn + n ≤ time → s.turn + n ≤ later →
        run level (arriving x arrival time) n s ≡ run level (arriving x arrival later) n s }
    ensures after { (level : NoteLevel) (x : Scenario) (arrival : List Listed) (time n : ℕ)
        (s : State) → Sane x.setup s → is_over arrival time s.turn ≡ true →
        run level (arriving x arrival time) n s ≡ run level x n s }
{}

/// The run of one arrival time is that of another up to any turn before both, and its own from
/// there. Births are kept modulo 64 there, as `runs_go_on_from_a_cut` says of each run.
pub fn an_arrival_goes_on_from_before_it()
    ensures { (level : NoteLevel) (x : Scenario) (arrival : List Listed) (time later m n : ℕ)
        (s : State) → Sane x.setup s → m ≤ n → s.turn + m ≤ time → s.turn + m ≤ later →
        let c = cut_at level (arriving x arrival later) m s in
        run level (arriving x arrival time) n s ≡ with_front
        (run level (arriving x arrival later) m s).notes
        (run level (arriving x arrival time) (left_of n s c) c) }
{}

/// Runs of two arrival times that meet end in the same way. If two states are equal with births
/// modulo 64, and neither arrival has any more events to come, the runs from them have the same
/// notes and the same end.
pub fn arrivals_that_meet_end_alike()
    ensures { (level : NoteLevel) (x : Scenario) (arrival : List Listed) (time other n : ℕ)
        (s u : State) → Sane x.setup s → Sane x.setup u → reduced s ≡ reduced u →
        is_over arrival time s.turn ≡ true → is_over arrival other u.turn ≡ true →
        EndAlike (run level (arriving x arrival time) n s)
        (run level (arriving x arrival other) n u) }
{}

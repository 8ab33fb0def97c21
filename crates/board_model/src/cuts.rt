//! Laws about a run that is cut at a turn and goes on from there. Nothing runs here.
//!
//! - The two parts are the whole run. They have the same notes and the same end if births are kept
//!   modulo 64 at the cut (`runs_go_on_from_a_cut`).
//! - What is seen at a cut depends on births only modulo 64 too
//!   (`generations_decide_what_is_seen`).

ghost use Rattle.std.specs.Prelude.{◌≡◌, ◌≤◌, ◌+◌, ℕ};
ghost use Rattle.task_table.specs.model.State.{State};
ghost use Rattle.task_table.specs.model.Sane.{Sane};
ghost use Rattle.board_model.specs.declared.outcomes.Level.{Level as NoteLevel};
ghost use Rattle.board_model.specs.Script.{Scenario};
ghost use Rattle.board_model.specs.Turn.{turned};
ghost use Rattle.board_model.specs.Run.{run, with_front, ending};
ghost use Rattle.board_model.specs.Alike.{reduced};
ghost use Rattle.board_model.specs.Cut.{cut_at, from_turn, left_of, rest_from, IsCutWithin};

/// A run of at most n turns, followed from its last state by the turns that are left of m, is the
/// run of at most m turns: the same notes, end and last state. What comes after the cut is the run
/// without what was noted before it, whatever the level before the cut. From the cut's state with
/// its births modulo 64 there are the same notes and the same end (as `generations_decide` says of
/// each state), and the same last state with births modulo 64. The run to the cut reaches each turn
/// before it, with a bound of exactly that many turns.
pub fn runs_go_on_from_a_cut()
    ensures whole { (level : NoteLevel) (x : Scenario) (n m : ℕ) (s : State) → Sane x.setup s →
        IsCutWithin level x n m s →
        run level x m s ≡ with_front (run level x n s).notes
        (rest_from level x m s (cut_at level x n s)) }
    ensures rest { (level before : NoteLevel) (x : Scenario) (n m : ℕ) (s : State) →
        Sane x.setup s → IsCutWithin before x n m s →
        rest_from level x m s (cut_at before x n s) ≡ from_turn (cut_at before x n s).turn
        (run level x m s) }
    ensures notes { (level before : NoteLevel) (x : Scenario) (n m : ℕ) (s : State) →
        Sane x.setup s → IsCutWithin before x n m s →
        (run level x (left_of m s (cut_at before x n s)) (reduced (cut_at before x n s))).notes ≡
        (from_turn (cut_at before x n s).turn (run level x m s)).notes }
    ensures end { (level before : NoteLevel) (x : Scenario) (n m : ℕ) (s : State) → Sane x.setup s →
        IsCutWithin before x n m s →
        (run level x (left_of m s (cut_at before x n s)) (reduced (cut_at before x n s))).end ≡
        (run level x m s).end }
    ensures last { (level before : NoteLevel) (x : Scenario) (n m : ℕ) (s : State) →
        Sane x.setup s → IsCutWithin before x n m s →
        reduced (run level x (left_of m s (cut_at before x n s))
        (reduced (cut_at before x n s))).last ≡ reduced (run level x m s).last }
    ensures sane { (level : NoteLevel) (x : Scenario) (n : ℕ) (s : State) → Sane x.setup s →
        Sane x.setup (cut_at level x n s) }
    ensures reached { (level : NoteLevel) (x : Scenario) (n k : ℕ) (s : State) → Sane x.setup s →
        s.turn + k ≤ (cut_at level x n s).turn → (cut_at level x k s).turn ≡ s.turn + k }
{}

/// What is seen of a state between turns depends on births only modulo 64: whether and why a run
/// ends there, which task its turn runs, and at which PC.
pub fn generations_decide_what_is_seen()
    ensures end { (x : Scenario) (left : ℕ) (s : State) →
        ending x left (reduced s) ≡ ending x left s }
    ensures turned { (x : Scenario) (s : State) → turned x (reduced s) ≡ turned x s }
{}

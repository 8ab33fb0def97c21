//! Laws about tasks that share nothing. Nothing runs here.
//!
//! - A turn that is not a task's own, and the events of any turn, leave what the task has for
//!   itself as it was, if it waits for nothing and the supervisor neither restarts it nor makes it
//!   fault (`others_leave_loners_alone`).
//! - A loner's own turn depends only on what the loner has for itself
//!   (`loners_decide_their_own_turns`).
//! - So what a loner reaches by itself from a birth is the same in any two runs
//!   (`loners_go_their_own_way`), and each birth begins alike (`births_begin_alike`).
//! - A task that is alone by the comparison of regions is a loner (`who_is_alone_is_a_loner`).

ghost use Rattle.std.specs.Prelude.{◌≢◌, ◌<◌, ℕ, suc, length};
ghost use Rattle.task_table.specs.model.State.{Setup, State};
ghost use Rattle.task_table.specs.model.Reading.{task_at, IsIdle};
ghost use Rattle.task_table.specs.model.Start.{start};
ghost use Rattle.task_table.specs.model.Sane.{Sane};
ghost use Rattle.board_model.specs.declared.outcomes.Level.{Level as NoteLevel};
ghost use Rattle.board_model.specs.Script.{Scenario};
ghost use Rattle.board_model.specs.Turn.{after_events, turn};
ghost use Rattle.board_model.specs.Run.{state_after};
ghost use Rattle.board_model.specs.Loners.{IsAlone, IsLoner, HaveSameOwn, IsUntouched, IsAtBirth};
ghost use Rattle.board_model.specs.LonerTurns.{IsRestart, LeavesLoners, LonersDecide, LiveAsLong, LivesAlone, AreBornAlike};

/// What others do leaves a loner as it is. A task that waits for nothing keeps its births,
/// registers, flags and health in a turn that is not its own, and still waits for nothing, unless
/// the supervisor restarted it or made it fault in that turn. The events of a turn cannot do even
/// that, whichever task's turn it is. The bytes of a loner stay in any case.
pub fn others_leave_loners_alone()
    ensures events { (x : Scenario) (s : State) (i : ℕ) → IsIdle s i →
        IsUntouched s i (after_events x s).state }
    ensures turn { (level : NoteLevel) (x : Scenario) (s : State) → Sane x.setup s →
        LeavesLoners level x s }
{}

/// A loner's own turn depends only on its registers, its flags and the bytes of its regions, if it
/// makes no system call except PANIC. A loner with the same of these, with its regions in any
/// order, in any other state of any other image, has the same after its own turn.
pub fn loners_decide_their_own_turns()
    ensures { (level : NoteLevel) (x : Scenario) (s : State) → Sane x.setup s →
        LonersDecide level x s }
{}

/// A loner goes its own way. Take two loners that the images make alike, at births with the same
/// bytes in their regions. After the same number of own turns of these births, at least one, they
/// have the same registers, flags, health and bytes. The other tasks, the priorities, the scripts
/// and when these turns come do not matter. This holds as long as neither loner makes a system call
/// except PANIC, and the supervisor does not make either fault.
pub fn loners_go_their_own_way()
    ensures runs { (level other : NoteLevel) (x y : Scenario) (i j n m : ℕ) (s u : State) →
        AreBornAlike x y i j s u → LiveAsLong level other x y i j s u n m →
        HaveSameOwn x.setup i j (state_after level x n s) (state_after other y m u) }
    ensures lives { (level other : NoteLevel) (x y : Scenario) (i j k : ℕ) (s u z v : State) →
        AreBornAlike x y i j s u → LivesAlone level x i s (suc k) z →
        LivesAlone other y j u (suc k) v → HaveSameOwn x.setup i j z v }
{}

/// A birth begins with the registers and flags that the image gives it, and waits for nothing. The
/// first birth begins at the start of a run, each other one after the turn in which a task
/// restarted it and went on. Each turn that changes a task's number of births is such a turn.
pub fn births_begin_alike()
    ensures first { (g : Setup) (i : ℕ) → i < length g.tasks → IsAtBirth g i (start g) }
    ensures later { (level : NoteLevel) (x : Scenario) (s : State) (c i : ℕ) →
        IsRestart level x s c i → i ≢ c → IsAtBirth x.setup i (turn level x s).state }
    ensures each { (level : NoteLevel) (x : Scenario) (s : State) (i : ℕ) → Sane x.setup s →
        (task_at (turn level x s).state i).births ≢ (task_at s i).births →
        IsAtBirth x.setup i (turn level x s).state }
{}

/// A task that is alone by the comparison of regions, and has no device, is a loner if any two
/// regions are at the same place or share no byte, as in every image.
pub fn who_is_alone_is_a_loner()
    ensures { (g : Setup) (i : ℕ) → IsAlone g i → IsLoner g i }
{}

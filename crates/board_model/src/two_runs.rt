//! Laws about two turns, or two runs, side by side. Nothing runs here.
//!
//! - What is noted on request has no effect (`what_is_noted_decides_nothing`). So a run without it
//!   is the run with it, except for its notes (`instructions_are_noted_beside`).
//! - A turn depends on memory only where it reads (`a_turn_depends_on_what_it_reads`).
//! - Of the number of births only the generation has an effect (`generations_decide`).

ghost use Rattle.std.specs.Prelude.{◌≡◌, ℕ};
ghost use Rattle.task_table.specs.model.State.{Setup, State, Turn};
ghost use Rattle.task_table.specs.model.Syscalls.{syscall_made};
ghost use Rattle.task_table.specs.model.Sane.{Sane};
ghost use Rattle.board_model.specs.declared.outcomes.Level.{Level as NoteLevel};
ghost use Rattle.board_model.specs.declared.outcomes.Level.TheVariants.{Calls, All};
ghost use Rattle.board_model.specs.Script.{Scenario};
ghost use Rattle.board_model.specs.Turn.{turn};
ghost use Rattle.board_model.specs.Run.{run};
ghost use Rattle.board_model.specs.Levels.{IsLessNoted, without_instructions};
ghost use Rattle.board_model.specs.Alike.{reduced};
ghost use Rattle.board_model.specs.Agreement.{DependsOnReads};

/// What is noted on request has no effect. Two turns that differ only in it still do after a system
/// call of a task. So do two turns from one state, if one notes only system calls and the other all
/// instructions.
pub fn what_is_noted_decides_nothing()
    ensures syscall_made { (g : Setup) (c : ℕ) (t u : Turn) → IsLessNoted t u →
        IsLessNoted (syscall_made g c t) (syscall_made g c u) }
    ensures turn { (x : Scenario) (s : State) → IsLessNoted (turn Calls x s) (turn All x s) }
{}

/// Notes of instructions, registers and idle turns are added to those of a run. Without them it is
/// the run in which only system calls, events and faults are noted.
pub fn instructions_are_noted_beside()
    ensures { (x : Scenario) (n : ℕ) (s : State) →
        run Calls x n s ≡ without_instructions (run All x n s) }
{}

/// What a turn does after its events depends on memory only where it reads: in those regions of its
/// own task that are no devices, and where it read for another task. With the same devices, and any
/// memory that has the same bytes there, it has the same writes, reads and notes, and the same next
/// state except for memory.
pub fn a_turn_depends_on_what_it_reads()
    ensures { (level : NoteLevel) (x : Scenario) (s : State) → Sane x.setup s →
        DependsOnReads level x s }
{}

/// Of the number of births only the generation has an effect. A sane state is still sane with its
/// births modulo 64. A turn, or a run, from it has the same notes and end as one from it with
/// births modulo 64. Their last states are equal with their births modulo 64.
pub fn generations_decide()
    ensures sane { (g : Setup) (s : State) → Sane g s → Sane g (reduced s) }
    ensures notes { (level : NoteLevel) (x : Scenario) (s : State) → Sane x.setup s →
        (turn level x (reduced s)).notes ≡ (turn level x s).notes }
    ensures state { (level : NoteLevel) (x : Scenario) (s : State) → Sane x.setup s →
        reduced (turn level x (reduced s)).state ≡ reduced (turn level x s).state }
    ensures run_notes { (level : NoteLevel) (x : Scenario) (n : ℕ) (s : State) → Sane x.setup s →
        (run level x n (reduced s)).notes ≡ (run level x n s).notes }
    ensures last { (level : NoteLevel) (x : Scenario) (n : ℕ) (s : State) → Sane x.setup s →
        reduced (run level x n (reduced s)).last ≡ reduced (run level x n s).last }
    ensures end { (level : NoteLevel) (x : Scenario) (n : ℕ) (s : State) → Sane x.setup s →
        (run level x n (reduced s)).end ≡ (run level x n s).end }
{}

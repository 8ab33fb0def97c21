//! Laws about counts. Nothing runs here.
ghost use Rattle.std.specs.Prelude.{◌≡◌, ◌≤◌, ◌+◌, ◌-◌, ℕ, List};
ghost use Rattle.kernel_abi.specs.declared.Note.{Note};
ghost use Rattle.task_table.specs.model.State.{State};
ghost use Rattle.task_table.specs.model.Sane.{Sane};
ghost use Rattle.board_model.specs.declared.outcomes.Level.TheVariants.{All};
ghost use Rattle.board_model.specs.Script.{Scenario};
ghost use Rattle.board_model.specs.Run.{run};
ghost use Rattle.run_cover.specs.Counted.{executed, faulted, taken};
ghost use Rattle.run_cover.specs.Executing.{turns_executing, turns_faulting, turns_taking};

/// Each count of the instruction at an address is a number of turns of the run (docs/FORMATS.md,
/// Cover).
///
/// - It is executed in a turn if the task that runs has its PC there and can execute what stands
///   there. The task may execute each halfword, and the halfwords are an instruction. So a system
///   call counts, and so does an instruction that faults; a fault of the fetch does not.
/// - It faults in a turn in which it is executed and the task that runs faults.
/// - It is taken in a turn in which it is executed, is a conditional branch, and does not fault,
///   and in which the task's PC ends elsewhere than right after it.
pub fn each_count_is_a_number_of_turns()
    ensures executed { (x : Scenario) (n : ℕ) (s : State) (a : ℕ) → Sane x.setup s →
        executed (run All x n s).notes a ≡ turns_executing x a ((run All x n s).last.turn - s.turn)
        s }
    ensures taken { (x : Scenario) (n : ℕ) (s : State) (a : ℕ) → Sane x.setup s →
        taken (run All x n s).notes a ≡ turns_taking x a ((run All x n s).last.turn - s.turn) s }
    ensures faulted { (x : Scenario) (n : ℕ) (s : State) (a : ℕ) → Sane x.setup s →
        faulted (run All x n s).notes a ≡ turns_faulting x a ((run All x n s).last.turn - s.turn)
        s }
{}

/// Turns in which a branch was taken or an instruction faulted are turns in which it was executed.
/// No instruction does both in one turn. (docs/FORMATS.md, Cover.)
pub fn taken_and_faulted_are_executed()
    ensures { (notes : List (ℕ × Note)) (a : ℕ) →
        taken notes a + faulted notes a ≤ executed notes a }
{}

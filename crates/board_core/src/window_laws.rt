//! Laws about turns over what a task sees of its memory and of devices. Nothing runs here.

ghost use Rattle.std.specs.Prelude.{ℕ};
ghost use Rattle.thumb_exec.specs.declared.cpu.Cpu.{Cpu as Processor};
ghost use Rattle.task_table.specs.model.State.{State};
ghost use Rattle.task_table.specs.model.Reading.{task_at};
ghost use Rattle.task_table.specs.model.Sane.{Sane};
ghost use Rattle.board_model.specs.Script.{Scenario};
ghost use Rattle.board_model.specs.Turn.{cpu_of};
ghost use Rattle.board_core.specs.fast.Sights.{Sight, Polls};
ghost use Rattle.board_core.specs.fast.Windowed.{IsUndisturbed, AreTurns};

/// Consecutive instructions of a task, each within a window of its memory or over it and the
/// devices that it may read, are its turns, if nothing is due and the task is the chosen one. None
/// of them is noted. They change nothing but the task's processor, the data and the areas of the
/// window, and what devices give up.
pub fn instructions_within_a_window_are_turns()
    ensures { (x : Scenario) (s : State) (c n : ℕ) (o p : Sight) (cpu : Processor) →
        Sane x.setup s → IsUndisturbed x s c o n → Polls o (cpu_of (task_at s c)) n p cpu →
        AreTurns x s c o n p cpu }
{}

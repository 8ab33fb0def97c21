//! Laws about interrupt lines that devices drive. Nothing runs here.

ghost use Rattle.std.specs.Prelude.{◌≡◌, ◌%◌, ℕ, true, Contains};
ghost use Rattle.kernel_abi.specs.declared.Handled.TheVariants.{Posted};
ghost use Rattle.kernel_abi.specs.declared.Note.TheVariants.{Irq};
ghost use Rattle.run_script.specs.declared.events.Event.TheVariants.{Feed};
ghost use Rattle.task_table.specs.model.State.{Setup, LineSetup, State, Turn};
ghost use Rattle.task_table.specs.model.Asking.{is_asked};
ghost use Rattle.task_table.specs.model.Reading.{line_at};
ghost use Rattle.task_table.specs.model.Events.{fed};
ghost use Rattle.task_table.specs.model.Sane.{Sane};
ghost use Rattle.board_model.specs.declared.outcomes.Level.{Level as NoteLevel};
ghost use Rattle.board_model.specs.Script.{Scenario, start_of};
ghost use Rattle.board_model.specs.Asked.{AreAscending, AreAnswered};
ghost use Rattle.board_model.specs.Turn.{happened, turn};
ghost use Rattle.board_model.specs.Run.{state_after};

/// Behind each byte that comes for a device no enabled line is asked for, whatever the state was.
/// Each line that was enabled, and whose device asks once it has the byte, has posted.
pub fn a_byte_for_a_device_posts_at_once()
    ensures answered { (g : Setup) (device byte : ℕ) (t : Turn) →
        AreAnswered g (happened g t (Feed device byte)).state }
    ensures posted { (g : Setup) (device byte : ℕ) (t : Turn) (o : LineSetup) →
        Contains g.lines o → (line_at t.state o.line).enabled ≡ true →
        is_asked (fed device (byte % 256) t).state o ≡ true →
        Contains (happened g t (Feed device byte)).notes (Irq o.line Posted) }
{}

/// Between the turns of a run no enabled line is asked for. At the start no line is enabled. A turn
/// keeps it: a line is enabled only where its device does not ask, and a device begins to ask only
/// as a byte comes for it. The lines of the setup ascend, as those of an image do.
pub fn enabled_lines_ask_for_nothing()
    ensures start { (x : Scenario) → AreAnswered x.setup (start_of x) }
    ensures turn { (level : NoteLevel) (x : Scenario) (s : State) → AreAscending x.setup →
        Sane x.setup s → AreAnswered x.setup s → AreAnswered x.setup (turn level x s).state }
    ensures run { (level : NoteLevel) (x : Scenario) (n : ℕ) → AreAscending x.setup →
        Sane x.setup (start_of x) → AreAnswered x.setup (state_after level x n (start_of x)) }
{}

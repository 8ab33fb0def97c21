//! A task is born again, and the tasks that wait for it get its dead code.

ghost use Rattle.std.specs.Prelude.{◌+◌, ◌<◌, ◌≤◌};
ghost use Rattle.task_table.specs.model.State.{Setup, Turn};
ghost use Rattle.task_table.specs.model.Effects.{dead_answered, restarted};
ghost use Rattle.task_table.specs.kept.Holds.{Holds, Stands, task_count, note_count};
ghost use Rattle.task_table.specs.kept.Limits.{turn_notes};
ghost use Rattle.task_table.specs.kept.Frames.{AddsAtMost};
ghost use Rattle.task_table.specs.kept.Waits.{AreFew};
ghost use Rattle.fault_supervisor.specs.Restarts.{restart_notes};

use kernel_abi::{Ending, Note, dead_code};
use task_table::Kernel;

/// A task that waits for a task that was born again gets the dead code, and no longer waits.
fn answer_dead(k: &mut Kernel, task: usize, other: usize)
    requires there { task < task_count k.old }
    requires other { other < task_count k.old }
    requires room { note_count k.old + 2 ≤ turn_notes }
    ensures holds { (g : Setup) (t : Turn) → Holds g k.old t → AreFew t.state →
        Holds g k.new (dead_answered task t other) }
    ensures frame { AddsAtMost k.old 2 k.new }
{
    let code = dead_code(k.generation(task));
    if k.calls_to(other, task) {
        k.close(other, Ending::Restart);
        k.give(other, &[code, 0]);
        k.note_return(other);
    } else if k.awaits(other, task) {
        k.stop_listening(other);
        k.give(other, &[code, 0, 0, 0, 0, 0]);
        k.note_return(other);
    }
}

/// The restart of a task, for a kernel that stands for a turn.
fn restart_task(k: &mut Kernel, task: usize, start: bool)
    requires there { task < task_count k.old }
    requires room { note_count k.old + restart_notes ≤ turn_notes }
    ensures holds { (g : Setup) (t : Turn) → Stands g k.old t →
        Holds g k.new (restarted g task start t) }
    ensures frame { AddsAtMost k.old restart_notes k.new }
{
    k.close(task, Ending::Restart);
    k.stop_listening(task);
    k.reset_task(task, start);
    k.note(Note::Restart {
        task: task as u16,
        generation: k.generation(task).number,
    });
    for other in 0..k.task_count() {
        answer_dead(k, task, other);
    }
}

/// Restarts a task. Its call and its listen are dropped, and it is born again: well if it is to
/// start, else stopped. Its memory does not change. Then each task that waits for an answer of it,
/// or for a message of only this task, goes on and gets the dead code with its new generation, in
/// order (Hubris Reference, on supervision and on task ids).
pub fn restart(k: &mut Kernel, task: usize, start: bool)
    requires there { task < task_count k.old }
    requires room { note_count k.old + restart_notes ≤ turn_notes }
    ensures stands { (g : Setup) (t : Turn) → Stands g k.old t →
        Stands g k.new (restarted g task start t) }
    ensures frame { AddsAtMost k.old restart_notes k.new }
{
    restart_task(k, task, start);
}

//! Ticks: the timers that are due.
ghost use Rattle.std.specs.Prelude.{◌+◌, ◌*◌, ◌<◌, ◌≤◌, ◌^◌, Some, length, fold};
ghost use Rattle.std.specs.List.{range_with_len};
ghost use Rattle.task_table.specs.model.State.{Setup, Turn};
ghost use Rattle.task_table.specs.model.Events.{expired, ticked};
ghost use Rattle.task_table.specs.kept.Holds.{Holds, Stands, task_count, note_count, clock_of};
ghost use Rattle.task_table.specs.kept.Limits.{most_tasks, syscall_notes, turn_notes};
ghost use Rattle.task_table.specs.kept.Frames.{AddsAtMost};
ghost use Rattle.timer_irq.specs.Midway.{AreNotPast};

use crate::timers::set_timer;
use task_table::Kernel;

/// Turns off the timer of a task and posts its bits, if it is due.
fn expire(k: &mut Kernel, task: usize)
    requires there { task < task_count k.old }
    requires room { note_count k.old + 2 ≤ turn_notes }
    ensures holds { (g : Setup) (t : Turn) → Holds g k.old t → Holds g k.new (expired t task) }
    ensures frame { AddsAtMost k.old 2 k.new }
{
    if let Some(timer) = k.timer(task) {
        if timer.deadline <= k.now() {
            k.set_timer(task, None);
            k.post(task, timer.bits);
        }
    }
}

/// Posts to each task whose timer is due, in order. No deadline has passed before now, so it looks
/// only at the tasks whose deadline may be now.
fn expire_all(k: &mut Kernel)
    requires { note_count k.old + 2 * most_tasks ≤ turn_notes }
    ensures holds { (g : Setup) (t : Turn) → Holds g k.old t → AreNotPast t.state →
        Holds g k.new (fold expired t (range_with_len 0 (length t.state.tasks))) }
    ensures frame { AddsAtMost k.old (2 * most_tasks) k.new }
{
    let due = *k.due();
    let mut from = 0;
    'members: while let Some(task) = due.first_from(from) {
        expire(k, task);
        from = task + 1;
    }
}

/// A tick. The time advances by one. Then each task whose deadline is at most that time, in order,
/// has its timer turned off and gets the timer's bits posted.
pub fn tick(k: &mut Kernel)
    requires room { note_count k.old + syscall_notes ≤ turn_notes }
    requires small { clock_of k.old + 1 < 2 ^ 64 }
    ensures stands { (g : Setup) (t : Turn) → Stands g k.old t → Stands g k.new (ticked t) }
    ensures frame { AddsAtMost k.old syscall_notes k.new }
{
    k.step_clock();
    expire_all(k);
}

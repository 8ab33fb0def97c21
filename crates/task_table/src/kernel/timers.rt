//! The timers of the tasks, and which tasks have a timer that is due.

use super::Kernel;
use crate::limits::WHEEL;
use crate::readiness::move_member;
use crate::task_set::TaskSet;
use kernel_abi::Timer;

impl Kernel {
    ghost use Rattle.std.specs.Prelude.{◌≡◌, ◌<◌, ℕ, true, Option};
    ghost use Rattle.task_table.specs.model.State.{Setup, Turn};
    ghost use Rattle.task_table.specs.model.Effects.{with_timer};
    ghost use Rattle.task_table.specs.kept.TaskSets.{has};
    ghost use Rattle.task_table.specs.kept.Deadlines.{HasDue};
    ghost use Rattle.task_table.specs.kept.Holds.{Holds, task_count};
    ghost use Rattle.task_table.specs.kept.Frames.{AddsNotes};

    /// Sets the timer of a task, or turns it off. The sets of the tasks by their deadlines are
    /// brought up to date. This is the only place where a timer changes.
    pub fn set_timer(&mut self, task: usize, timer: Option<Timer>)
        requires { task < task_count self.old }
        ensures holds { (g : Setup) (t : Turn) → Holds g self.old t →
            Holds g self.new (with_timer task timer t) }
        ensures frame { AddsNotes self.old 0 self.new }
    {
        let before = self.slots[task].timer;
        move_member(&mut self.wheel, task, wheel_set(before), wheel_set(timer));
        self.slots[task].timer = timer;
    }

    /// A set of tasks, by index. It has each task whose timer is due now. The others in it have a
    /// deadline that is a multiple of `WHEEL` ticks away.
    #[inline(always)]
    pub fn due(&self) -> &TaskSet
        ensures there { (i : ℕ) → has result.now.words i ≡ true → i < task_count self.now }
        ensures holds { (g : Setup) (t : Turn) → Holds g self.now t →
            HasDue t.state result.now.words }
    {
        &self.wheel[(self.clock % WHEEL as u64) as usize]
    }
}

ghost use Rattle.std.specs.Prelude.{◌≡◌};
ghost use Rattle.task_table.specs.kept.Deadlines.{wheel_set};

/// The number of the set that a task with this timer is in; None if the timer is off.
#[inline(always)]
fn wheel_set(timer: Option<Timer>) -> Option<usize>
    ensures { result ≡ wheel_set timer }
{
    match timer {
        Some(timer) => Some((timer.deadline % WHEEL as u64) as usize),
        None => None,
    }
}

//! The choice of the task that runs next, kept from turn to turn, since most turns do not change
//! it.
ghost use Rattle.std.specs.Prelude.{◌≡◌, ◌<◌, ℕ, true, Some};
ghost use Rattle.task_table.specs.model.State.{Setup, Turn};
ghost use Rattle.task_table.specs.model.Reading.{is_faulted, task_at};
ghost use Rattle.task_table.specs.kept.Holds.{Holds, task_count};
ghost use Rattle.task_table.specs.kept.TaskSets.{has};
ghost use Rattle.board_core.specs.Kept.{IsChoice, WasChoice};

use dispatch::choose;
use kernel_abi::Health;
use task_table::{Kernel, TaskSet};

/// Which task runs next (None if none is ready), which tasks are ready, and whether the supervisor
/// has faulted.
#[derive(Clone, Copy)]
pub struct Choice {
    pub next: Option<usize>,
    pub ready: TaskSet,
    pub down: bool,
}

/// Whether the supervisor has faulted.
fn is_down(kernel: &Kernel) -> bool
    requires { 0 < task_count kernel.now }
    ensures { (g : Setup) (t : Turn) → Holds g kernel.now t →
        result ≡ is_faulted (task_at t.state 0).health }
{
    match kernel.health(0) {
        Health::Well => false,
        Health::Stopped => false,
        Health::Faulted(_) => true,
    }
}

/// The choice for a kernel.
pub fn choice_of(kernel: &Kernel) -> Choice
    ensures { (g : Setup) (t : Turn) → Holds g kernel.now t → IsChoice g t.state result }
{
    Choice {
        next: choose(kernel),
        ready: *kernel.ready(),
        down: is_down(kernel),
    }
}

/// Whether the task that was chosen is the current one, and the same tasks are ready.
fn stays(last: &Choice, ready: &TaskSet, current: usize) -> bool
    ensures next { result ≡ true → last.now.next ≡ Some current }
    ensures ready { result ≡ true → (p : ℕ) → has last.now.ready.words p ≡ has ready.now.words p }
{
    last.next == Some(current) && last.ready.is_same(ready)
}

/// Brings the choice up to date with a kernel. The task that was chosen and runs is chosen again as
/// long as the same tasks are ready. Their set is copied only if it has changed, and then whole,
/// because copying a part takes longer.
#[inline(always)]
pub fn renew_choice(kernel: &Kernel, choice: &mut Choice)
    ensures { (g : Setup) (t : Turn) → Holds g kernel.now t → WasChoice g choice.old →
        IsChoice g t.state choice.new }
{
    choice.down = is_down(kernel);
    if stays(choice, kernel.ready(), kernel.current()) {
        return;
    }
    choice.next = choose(kernel);
    choice.ready = *kernel.ready();
}

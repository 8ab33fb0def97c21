#![tactic(auto)]
//! Which task runs, and whose message is received: by strict priority (Hubris Reference,
//! Scheduling), and among tasks of equal priority the next one in order (this project's profile).

ghost use Rattle.std.specs.Prelude.{◌≡◌, ◌<◌, IfSome};
ghost use Rattle.task_table.specs.model.State.{Setup, Turn};
ghost use Rattle.task_table.specs.model.Reading.{chosen, best_sender};
ghost use Rattle.task_table.specs.kept.Holds.{Holds, Stands, StandsForSome, task_count};

use task_table::{Kernel, first_around};

/// The task that runs next, or None if none is ready. Among the ready tasks with the lowest
/// priority number it is the current one, or else the first one after it, cyclically.
pub fn choose(k: &Kernel) -> Option<usize>
    ensures { (g : Setup) (t : Turn) → Holds g k.now t → result ≡ chosen g t.state }
{
    first_around(k.order(), k.ready(), k.current())
}

/// The task whose message the receiver takes if it accepts any, or None if no task offers a call to
/// it. Among the tasks that do and have the lowest priority number (Hubris Reference, on RECV), it
/// is the first one after the receiver, cyclically (this project's profile).
pub fn best_sender(k: &Kernel, receiver: usize) -> Option<usize>
    requires stood { StandsForSome k.now }
    requires there { receiver < task_count k.now }
    ensures best { (g : Setup) (t : Turn) → Stands g k.now t →
        result ≡ best_sender g t.state receiver }
    ensures inside { IfSome result (λ i. i < task_count k.now) }
{
    first_around(k.order(), k.clients(receiver), receiver + 1)
}

//! The order of the tasks, and the sets of places in it that the kernel keeps.

use super::Kernel;
use crate::order::Order;
use crate::task_set::TaskSet;

impl Kernel {
    ghost use Rattle.std.specs.Prelude.{◌≡◌, ◌<◌, ◌≤◌, ℕ, true, length};
    ghost use Rattle.task_table.specs.model.State.{Setup, Turn};
    ghost use Rattle.task_table.specs.kept.Limits.{most_tasks};
    ghost use Rattle.task_table.specs.model.Reading.{is_ready, offers};
    ghost use Rattle.task_table.specs.kept.TaskSets.{has};
    ghost use Rattle.task_table.specs.kept.Order.{priorities_of, AreAtPlaces, AreOrdered};
    ghost use Rattle.task_table.specs.kept.Holds.{Holds, Stands, order_of, task_count};

    /// The order in which tasks are chosen: by priority number, and equal ones by index.
    #[inline(always)]
    pub fn order(&self) -> &Order
        ensures value { result.now ≡ order_of self.now }
        ensures few { length result.now.keys.items ≤ most_tasks }
        ensures there { length result.now.keys.items ≡ task_count self.now }
        ensures holds { (g : Setup) (t : Turn) → Holds g self.now t →
            AreOrdered (priorities_of g.tasks) result.now.keys.items result.now.places.items }
    {
        &self.order
    }

    /// The tasks that are well and wait for nothing, by their places in the order.
    #[inline(always)]
    pub fn ready(&self) -> &TaskSet
        ensures there { (p : ℕ) → has result.now.words p ≡ true → p < task_count self.now }
        ensures holds { (g : Setup) (t : Turn) → Holds g self.now t →
            AreAtPlaces g.tasks (order_of self.now) result.now.words (is_ready t.state) }
    {
        &self.ready
    }

    /// The tasks that offer a call to a server, by their places in the order.
    #[inline(always)]
    pub fn clients(&self, server: usize) -> &TaskSet
        requires { server < task_count self.now }
        ensures there { (p : ℕ) → has result.now.words p ≡ true → p < task_count self.now }
        ensures stands { (g : Setup) (t : Turn) → Stands g self.now t →
            AreAtPlaces g.tasks (order_of self.now) result.now.words (offers t.state server) }
    {
        &self.offers[server]
    }
}

//! Which tasks are ready; and lists of sets in which a task is in at most one set, such as the
//! clients of each server.

ghost use Rattle.std.specs.Prelude.{◌≡◌, ◌<◌, ◌≤◌, ◌&&◌, ◌==◌, ℕ, false, length, IfOk, if◌then◌else◌, slice_index_or};
ghost use Rattle.task_table.specs.kept.Limits.{most_tasks};
ghost use Rattle.task_table.specs.kept.TaskSets.{has};
ghost use Rattle.task_table.specs.kept.Order.{ArePlaces};
ghost use Rattle.task_table.specs.kept.Readiness.{is_free, is_at, AreThose};
ghost use Rattle.task_table.specs.declared.task_set.TaskSet.{TaskSet};

use crate::order::Order;
use crate::slot::Slot;
use crate::task_set::TaskSet;
use std::alloc::{AllocError, Global};

/// The tasks that are ready by their slots, as a set of their places.
pub(crate) fn ready_tasks(slots: &[Slot], order: &Order) -> TaskSet
    requires few { length slots.now ≤ most_tasks }
    requires places { ArePlaces (length slots.now) order.now.places.items }
    ensures { AreThose is_free slots.now order.now.places.items result.words }
{
    let mut ready = TaskSet::empty();
    for task in 0..slots.len() {
        ready.set(order.place(task), slots[task].is_ready());
    }
    ready
}

/// `count` empty sets.
pub(crate) fn empty_sets(alloc: Global, count: usize) -> Result<Vec<TaskSet>, AllocError>
    ensures count { IfOk result (λ sets. length sets.items ≡ count) }
    ensures empty { IfOk result (λ sets. (k i : ℕ) (d : TaskSet) → k < length sets.items →
        has (slice_index_or sets.items k d).words i ≡ false) }
{
    let mut sets = Vec::new(alloc);
    for _ in 0..count {
        sets.push(TaskSet::empty())?;
    }
    Ok(sets)
}

/// Updates the set of ready tasks for the task at a place: whether it was ready before, and whether
/// it is ready after.
pub(crate) fn follow_readiness(ready: &mut TaskSet, place: usize, before: bool, after: bool)
    requires small { place < most_tasks }
    requires before { has ready.old.words place ≡ before }
    ensures { (p : ℕ) → has ready.new.words p ≡
        (if p == place then after else has ready.old.words p) }
{
    if before != after {
        ready.set(place, after);
    }
}

/// Puts a task into the set with a number, or takes it out of it, if there is such a set.
fn set_member(sets: &mut [TaskSet], number: Option<usize>, task: usize, member: bool)
    requires { task < most_tasks }
    ensures count { length sets.new ≡ length sets.old }
    ensures each { (k i : ℕ) (d : TaskSet) → k < length sets.old →
        has (slice_index_or sets.new k d).words i ≡
        (if is_at k number && i == task then member else has (slice_index_or sets.old k d).words
        i) }
{
    if let Some(number) = number {
        if number < sets.len() {
            sets[number].set(task, member);
        }
    }
}

/// Moves a task, given by its place or its index, from the set that it was in to the set with
/// another number. None is no set.
pub(crate) fn move_member(
    sets: &mut [TaskSet],
    task: usize,
    before: Option<usize>,
    after: Option<usize>,
)
    requires small { task < most_tasks }
    requires before { (k : ℕ) (d : TaskSet) → k < length sets.old →
        has (slice_index_or sets.old k d).words task ≡ is_at k before }
    ensures count { length sets.new ≡ length sets.old }
    ensures each { (k i : ℕ) (d : TaskSet) → k < length sets.old →
        has (slice_index_or sets.new k d).words i ≡
        (if i == task then is_at k after else has (slice_index_or sets.old k d).words i) }
{
    if before != after {
        set_member(sets, before, task, false);
        set_member(sets, after, task, true);
    }
}

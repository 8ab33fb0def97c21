//! The order in which tasks are chosen, and the first of a set in it.

ghost use Rattle.std.specs.Prelude.{◌≡◌, ◌<◌, ◌≤◌, ◌%◌, ℕ, List, true, length, map, All, IfOk};
ghost use Rattle.std.specs.List.Sorted.{IsPermutation, IsSorted};
ghost use Rattle.std.specs.Ordering.{nat_cmp};
ghost use Rattle.task_table.specs.kept.Limits.{most_tasks};
ghost use Rattle.task_table.specs.kept.Parts.{task_setup};
ghost use Rattle.task_table.specs.kept.TaskSets.{has};
ghost use Rattle.task_table.specs.kept.Order.{AreOnce, AreOrdered, HavePlaces, IsKeyFrom, IsPlaceOf, first_around, has_task, keyed, priorities_of};

use crate::start::TaskStart;
use crate::task_set::TaskSet;
use std::alloc::{AllocError, Global};

/// The tasks by priority number, and tasks with the same number by index. Sets of tasks are sets of
/// places in this order, so the least place of a set is that of a task with its lowest priority
/// number.
#[derive(Drop)]
pub struct Order {
    /// For each place the key of its task: 1024 times the priority number, plus the index.
    keys: Vec<u32>,
    /// The place of each task.
    places: Vec<u16>,
}

/// The keys of tasks with these priority numbers, in ascending order.
fn keys_of(alloc: Global, priorities: &[u8]) -> Result<Vec<u32>, AllocError>
    requires { length priorities.now ≤ 1024 }
    ensures permutation { IfOk result (λ v. IsPermutation (keyed 0 priorities.now) v.items) }
    ensures sorted { IfOk result (λ v. IsSorted nat_cmp v.items) }
{
    let mut keys = Vec::new(alloc);
    for i in 0..priorities.len() {
        keys.push(1024 * u32::from(priorities[i]) + i as u32)?;
    }
    keys.sort()?;
    Ok(keys)
}

/// The place of each task, from the ascending keys.
fn places_of(alloc: Global, keys: &[u32]) -> Result<Vec<u16>, AllocError>
    requires few { length keys.now ≤ 1024 }
    requires below { All (λ k. k % 1024 < length keys.now) keys.now }
    requires once { AreOnce keys.now }
    ensures count { IfOk result (λ v. length v.items ≡ length keys.now) }
    ensures at { IfOk result (λ v. HavePlaces keys.now (length keys.now) v.items) }
{
    let mut places = Vec::from_elem(alloc, 0u16, keys.len())?;
    for place in 0..keys.len() {
        places[(keys[place] % 1024) as usize] = place as u16;
    }
    Ok(places)
}

/// The priority numbers of tasks, by index.
fn priorities_of(alloc: Global, tasks: &[TaskStart]) -> Result<Vec<u8>, AllocError>
    ensures { IfOk result (λ v. v.items ≡ priorities_of (map task_setup tasks.now)) }
{
    let mut priorities = Vec::new(alloc);
    for task in tasks {
        priorities.push(task.priority)?;
    }
    Ok(priorities)
}

/// The order of the tasks of an image.
pub(crate) fn order_of(alloc: Global, tasks: &[TaskStart]) -> Result<Order, AllocError>
    requires { length tasks.now ≤ most_tasks }
    ensures { IfOk result (λ o. AreOrdered (priorities_of (map task_setup tasks.now)) o.keys.items
        o.places.items) }
{
    let priorities = priorities_of(alloc, tasks)?;
    Order::of(alloc, &priorities)
}

/// The least place whose key is at least this one.
#[inline(never)]
fn place_of(keys: &[u32], key: u32) -> usize
    ensures { (priorities places : List ℕ) → AreOrdered priorities keys.now places →
        IsPlaceOf keys.now key result }
{
    match keys.binary_search(&key) {
        Ok(place) => place,
        Err(place) => place,
    }
}

/// The key of the first task of a set from a place on, if it has this priority number; else another
/// key.
#[inline(always)]
fn key_from(keys: &[u32], among: &TaskSet, place: usize, priority: u32, other: u32) -> u32
    requires inside { (p : ℕ) → has among.now.words p ≡ true → p < length keys.now }
    ensures { IsKeyFrom keys.now among.now.words place priority other result }
{
    match among.first_from(place) {
        None => other,
        Some(found) => {
            if keys[found] / 1024 == priority {
                keys[found]
            } else {
                other
            }
        }
    }
}

impl Order {
    ghost use Rattle.std.specs.Prelude.{◌≡◌, ◌+◌, ◌*◌, ◌<◌, ◌≤◌, ℕ, List, length, IfOk};
    ghost use Rattle.task_table.specs.kept.Order.{AreOrdered, IsPlaceOf, place_in};

    /// The order of tasks with these priority numbers, of which there are at most 1,024.
    ///
    /// # Errors
    ///
    /// Only if memory runs out.
    pub fn of(alloc: Global, priorities: &[u8]) -> Result<Order, AllocError>
        requires { length priorities.now ≤ 1024 }
        ensures { IfOk result (λ o. AreOrdered priorities.now o.keys.items o.places.items) }
    {
        let keys = keys_of(alloc, priorities)?;
        let places = places_of(alloc, &keys)?;
        Ok(Order { keys, places })
    }

    /// The place of a task.
    #[inline(always)]
    pub(crate) fn place(&self, task: usize) -> usize
        requires { task < length self.now.places.items }
        ensures { result ≡ place_in self.now.places.items task }
    {
        usize::from(self.places[task])
    }

    /// The least place whose key is at least this one. Most often it is the place of this task.
    #[inline(always)]
    fn place_at(&self, key: u32, task: usize) -> usize
        ensures { (priorities : List ℕ) →
            AreOrdered priorities self.now.keys.items self.now.places.items →
            IsPlaceOf self.now.keys.items key result }
    {
        match self.places.get(task) {
            None => place_of(&self.keys, key),
            Some(place) => {
                let place = usize::from(*place);
                match self.keys.get(place) {
                    Some(own) if *own == key => place,
                    _ => place_of(&self.keys, key),
                }
            }
        }
    }
}

/// The first task, cyclically from a task on, among those of a set that have its lowest priority
/// number.
pub fn first_around(order: &Order, among: &TaskSet, from: usize) -> Option<usize>
    requires few { from < 1024 }
    requires inside { (p : ℕ) → has among.now.words p ≡ true → p < length order.now.keys.items }
    ensures { (priorities : List ℕ) →
        AreOrdered priorities order.now.keys.items order.now.places.items → from ≤ length priorities
        → result ≡ first_around priorities (has_task order.now.places.items among.now.words)
        (length priorities) from }
{
    match among.first_from(0) {
        None => None,
        Some(first) => {
            let lowest = order.keys[first];
            let task = (lowest % 1024) as usize;
            if task >= from {
                return Some(task);
            }
            let priority = lowest / 1024;
            let place = order.place_at(priority * 1024 + from as u32, from);
            let key = key_from(&order.keys, among, place, priority, lowest);
            Some((key % 1024) as usize)
        }
    }
}

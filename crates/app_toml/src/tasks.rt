//! Causes 11 to 17: how many tasks, notifications and regions, and how tasks start.

ghost use Rattle.std.specs.Prelude.{◌≡◌, ◌+◌, map, nat_lt, option_map};
ghost use Rattle.app_toml.specs.Crossed.{count_fault, is_bad_stack, is_wrong, start_fault, supervisor_stopped, task_count, task_site};
ghost use Rattle.app_toml.specs.Places.{first_fault};
ghost use Rattle.app_toml.specs.Rules.{rule_fault};
ghost use Rattle.app_toml.specs.Sites.{refusal_of, site_of, task_of};

use crate::parts::TaskSpec;
use crate::places::{
    Location, PlacedCause, fault_if, first_of, head_place, index_place, key_place,
};

pub(crate) fn task_place(k: usize, key: &'static str) -> Location<'static>
    ensures { site_of result ≡ task_site k key.now }
{
    key_place(index_place("task", k), key)
}

/// The rules that each task has to keep by itself.
#[derive(Clone, Copy)]
pub(crate) enum Rule {
    Notifications,
    Regions,
    Priority,
    Stack,
}

fn are_above_six(uses: usize, reads: usize) -> bool
    ensures { result ≡ nat_lt 6 (uses + reads) }
{
    uses > 6 || reads > 6 - uses
}

fn is_wrong(k: usize, priority: u8) -> bool
    ensures { result ≡ is_wrong k priority }
{
    if k == 0 { priority != 0 } else { priority == 0 }
}

fn is_bad_stack(ram: u32, stack: u32) -> bool
    ensures { result ≡ is_bad_stack ram stack }
{
    stack > ram || stack % 8 != 0
}

/// The fault of the k-th task by a rule.
fn rule_fault(rule: Rule, k: usize, task: &TaskSpec) -> Option<PlacedCause<'static>>
    ensures { option_map refusal_of result ≡ rule_fault rule k (task_of task.now) }
{
    let (is_broken, cause, key) = match rule {
        Rule::Notifications => (task.notifications.len() > 32, 13, "notifications"),
        Rule::Regions => (are_above_six(task.uses.len(), task.reads.len()), 14, "uses"),
        Rule::Priority => (is_wrong(k, task.priority), 15, "priority"),
        Rule::Stack => (is_bad_stack(task.ram, task.stack), 17, "stack"),
    };
    fault_if(is_broken, cause, task_place(k, key))
}

/// The first task that breaks a rule.
fn first_broken(rule: Rule, tasks: &[TaskSpec]) -> Option<PlacedCause<'static>>
    ensures { option_map refusal_of result ≡ first_fault (rule_fault rule) 0
        (map task_of tasks.now) }
{
    for i in 0..tasks.len() {
        let found = rule_fault(rule, i, &tasks[i]);
        if found.is_some() {
            return found;
        }
    }
    None
}

fn task_count(tasks: &[TaskSpec]) -> Option<PlacedCause<'static>>
    ensures { option_map refusal_of result ≡ task_count (map task_of tasks.now) }
{
    let many = fault_if(tasks.len() > 512, 11, index_place("task", 512));
    if many.is_some() {
        return many;
    }
    fault_if(tasks.is_empty(), 12, head_place("task"))
}

/// The first fault of causes 11 to 14.
pub(crate) fn count_fault(tasks: &[TaskSpec]) -> Option<PlacedCause<'static>>
    ensures { option_map refusal_of result ≡ count_fault (map task_of tasks.now) }
{
    let notifications = first_broken(Rule::Notifications, tasks);
    let regions = first_broken(Rule::Regions, tasks);
    first_of(task_count(tasks), first_of(notifications, regions))
}

fn supervisor_stopped(tasks: &[TaskSpec]) -> Option<PlacedCause<'static>>
    ensures { option_map refusal_of result ≡ supervisor_stopped (map task_of tasks.now) }
{
    if tasks.is_empty() {
        return None;
    }
    fault_if(!tasks[0].start, 16, task_place(0, "start"))
}

/// The first fault of causes 15 to 17.
pub(crate) fn start_fault(tasks: &[TaskSpec]) -> Option<PlacedCause<'static>>
    ensures { option_map refusal_of result ≡ start_fault (map task_of tasks.now) }
{
    let priority = first_broken(Rule::Priority, tasks);
    let stack = first_broken(Rule::Stack, tasks);
    first_of(priority, first_of(supervisor_stopped(tasks), stack))
}

ghost use Rattle.std.specs.Prelude.{◌≡◌, ◌<◌, ◌≤◌, []};

use crate::memory::memory_of;
use dispatch::choose;
use std::alloc::{AllocError, Global};
use std::test::Fail;
use task_table::{Kernel, TaskStart};

/// A task without regions.
fn a_task(alloc: Global, priority: u8, started: bool) -> TaskStart
    ensures { result.regions.items ≡ [] }
{
    TaskStart {
        priority,
        started,
        entry: 0x0800_0001,
        sp: 0x2000_0000,
        regions: Vec::new(alloc),
    }
}

/// A kernel of 512 tasks. Their priority numbers go from 0 up to `numbers - 1`, again and again.
/// The tasks before task `first` are not started, and neither is every `gap`-th task. Task
/// `current` is the current one.
fn many_tasks(
    alloc: Global,
    numbers: u16,
    first: u16,
    gap: u16,
    current: usize,
) -> Result<Kernel, AllocError>
    requires some { 0 < numbers }
    requires few { numbers ≤ 256 }
    requires gap { 0 < gap }
    requires current { current < 512 }
{
    let memory = memory_of(alloc, &[], 0)?;
    let mut tasks = Vec::new(alloc);
    for i in 0..512u16 {
        let started = i >= first && (i + 1) % gap != 0;
        tasks.push(a_task(alloc, (i % numbers) as u8, started))?;
    }
    let mut kernel = Kernel::start(alloc, memory, 1, &tasks, &[])?;
    kernel.set_current(current);
    Ok(kernel)
}

/// Whether a priority number is lower than that of the task that was found so far, if any.
fn is_lower(number: u8, found: Option<(usize, u8)>) -> bool {
    match found {
        Some((_, lowest)) => number < lowest,
        None => true,
    }
}

/// The task that a look at each task chooses. It goes round once and begins with the current task.
fn chosen_by_a_look_at_each(kernel: &Kernel) -> Option<usize> {
    let current = kernel.current();
    let count = kernel.task_count();
    let mut found = None;
    for step in 0..count {
        let task = (current + step) % count;
        let number = kernel.priority(task);
        if kernel.is_ready(task) && is_lower(number, found) {
            found = Some((task, number));
        }
    }
    match found {
        Some((task, _)) => Some(task),
        None => None,
    }
}

#[test]
fn the_choice_is_that_by_a_look_at_each_task(rt: HostRuntime) -> Result<(), Fail> {
    for numbers in [1, 5, 254] {
        for gap in [1, 2, 3, 513] {
            for current in [0, 31, 32, 255, 511] {
                let kernel = many_tasks(rt.alloc(), numbers, 0, gap, current)?;
                assert!(rt; choose(&kernel) == chosen_by_a_look_at_each(&kernel));
            }
        }
    }
    Ok(())
}

#[test]
fn the_choice_is_found_in_a_later_word(rt: HostRuntime) -> Result<(), Fail> {
    for numbers in [1, 2, 254] {
        for first in [31, 32, 480, 511, 512] {
            for current in [0, 495, 511] {
                let kernel = many_tasks(rt.alloc(), numbers, first, 513, current)?;
                assert!(rt; choose(&kernel) == chosen_by_a_look_at_each(&kernel));
            }
        }
    }
    Ok(())
}

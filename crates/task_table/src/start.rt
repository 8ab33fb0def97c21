//! What an image says of a task and of an interrupt line, and the slot of a task at its first
//! birth.

ghost use Rattle.std.specs.Prelude.{◌≡◌, ◌<◌, IfOk, map, length, if◌then◌else◌};
ghost use Rattle.kernel_abi.specs.declared.Health.TheVariants.{Well, Stopped};
ghost use Rattle.task_table.specs.kept.Parts.{task_setup};
ghost use Rattle.task_table.specs.model.Effects.{at_birth};
ghost use Rattle.task_table.specs.model.Start.{born};
ghost use Rattle.task_table.specs.kept.Holds.{packed_task};
ghost use Rattle.task_table.specs.declared.slot.Wait.TheVariants.{Nothing};

use crate::slot::{Slot, Wait};
use kernel_abi::{Generation, Health};
use region_check::Region;
use std::alloc::{AllocError, Global};
use words_core::Flags;

/// What an image says of a task: its priority number (a task with a lower one goes first), whether
/// it is started, its PC (bit 0 has no meaning) and SP at birth, and the bytes that it may use.
#[derive(Drop)]
pub struct TaskStart {
    pub priority: u8,
    pub started: bool,
    pub entry: u32,
    pub sp: u32,
    pub regions: Vec<Region>,
}

/// The task that owns an interrupt line, the bits that are posted to it, and the first address of
/// the device that drives the line: 0, where no device is, if none does.
#[derive(Clone, Copy, Debug, PartialEq, Eq)]
pub struct LineStart {
    pub line: u8,
    pub task: u16,
    pub bits: u32,
    pub device: u32,
}

/// A copy.
fn copy_of(alloc: Global, task: &TaskStart) -> Result<TaskStart, AllocError>
    ensures { IfOk result (λ x. task_setup x ≡ task_setup task.now) }
{
    Ok(TaskStart {
        priority: task.priority,
        started: task.started,
        entry: task.entry,
        sp: task.sp,
        regions: task.regions.as_slice().to_vec(alloc)?,
    })
}

/// A copy of the tasks.
pub(crate) fn copies_of(alloc: Global, tasks: &[TaskStart]) -> Result<Vec<TaskStart>, AllocError>
    ensures setup { IfOk result (λ xs. map task_setup xs.items ≡ map task_setup tasks.now) }
    ensures length { IfOk result (λ xs. length xs.items ≡ length tasks.now) }
{
    let mut copies = Vec::new(alloc);
    for task in tasks {
        copies.push(copy_of(alloc, task)?)?;
    }
    Ok(copies)
}

/// The health of a task at birth: well if it is started, else stopped.
fn birth_health(started: bool) -> Health
    ensures { result ≡ (if started then Well else Stopped) }
{
    if started {
        Health::Well
    } else {
        Health::Stopped
    }
}

/// The slot of a task at a birth with this generation.
pub(crate) fn birth_slot(task: &TaskStart, generation: Generation, started: bool) -> Slot
    requires { generation.number < 64 }
    ensures { result ≡ packed_task (at_birth (task_setup task.now) generation.number
        (if started then Well else Stopped)) Nothing }
{
    let pc = task.entry - task.entry % 2;
    Slot {
        generation,
        registers: [
            0,
            0,
            0,
            0,
            0,
            0,
            0,
            0,
            0,
            0,
            0,
            0,
            0,
            task.sp,
            0xFFFF_FFFF,
            pc,
        ],
        flags: Flags {
            n: false,
            z: false,
            c: false,
            v: false,
        },
        health: birth_health(started),
        posted: 0,
        timer: None,
        wait: Wait::Nothing,
    }
}

/// The slot of a task at its first birth.
fn first_slot(task: &TaskStart) -> Slot
    ensures { result ≡ packed_task (born (task_setup task.now)) Nothing }
{
    birth_slot(task, Generation { number: 0 }, task.started)
}

/// The slot of each task at its first birth.
pub(crate) fn first_slots(alloc: Global, tasks: &[TaskStart]) -> Result<Vec<Slot>, AllocError>
    ensures { IfOk result (λ xs. xs.items ≡ map (λ x. packed_task (born (task_setup x)) Nothing)
        tasks.now) }
{
    let mut slots = Vec::new(alloc);
    for task in tasks {
        slots.push(first_slot(task))?;
    }
    Ok(slots)
}

//! Causes 8 to 10: a name that names nothing.

ghost use Rattle.std.specs.Prelude.{◌≡◌, IfOk, List, map, option_map, string_bytes};
ghost use Rattle.app_toml.specs.Apps.{DeviceData, RegionData, TaskData};
ghost use Rattle.app_toml.specs.Crossed.{has_device, interrupt_site, task_site, unknown_bit, unknown_entry, unknown_fault_bit, unknown_line_device, unknown_name, unknown_owner, unknown_region};
ghost use Rattle.app_toml.specs.Held.{parts_of};
ghost use Rattle.app_toml.specs.Known.{HasJust, Keeps, NamesAreas};
ghost use Rattle.app_toml.specs.Places.{first_fault};
ghost use Rattle.app_toml.specs.Sites.{interrupt_of, refusal_of, site_of, task_of};

use crate::known::{
    Names, TaskNames, has_area, has_bit, is_area, is_kept, is_known, kept_tasks, known_areas,
    known_devices,
};
use crate::names::is_among;
use crate::parts::{LineSpec, Parts, TaskSpec};
use crate::places::{
    Location, PlacedCause, entry_place, fault_at, fault_if, first_of, head_place, index_place,
    key_place,
};
use crate::tasks::task_place;
use std::alloc::{AllocError, Global};

pub(crate) fn interrupt_place(k: usize, key: &'static str) -> Location<'static>
    ensures { site_of result ≡ interrupt_site k key.now }
{
    key_place(index_place("interrupt", k), key)
}

/// The first interrupt whose task does not exist.
fn unknown_owner(kept: &TaskNames, interrupts: &[LineSpec]) -> Option<PlacedCause<'static>>
    ensures { (tasks : List TaskData) → Keeps kept.now tasks → option_map refusal_of result
        ≡ first_fault (unknown_owner tasks) 0 (map interrupt_of interrupts.now) }
{
    for i in 0..interrupts.len() {
        if !is_kept(kept, interrupts[i].task.as_str()) {
            return fault_at(8, interrupt_place(i, "task"));
        }
    }
    None
}

/// The fault of a fault notification that task 0 does not have. None if there is no task.
fn unknown_fault_bit(fault: &str, tasks: &[TaskSpec]) -> Option<PlacedCause<'static>>
    ensures { option_map refusal_of result ≡ unknown_fault_bit fault.now (map task_of tasks.now) }
{
    if tasks.is_empty() {
        return None;
    }
    let known = is_among(fault, tasks[0].notifications.as_slice());
    fault_if(!known, 9, key_place(head_place("supervisor"), "fault"))
}

/// The first interrupt whose notification its task does not have.
fn unknown_bit(kept: &TaskNames, interrupts: &[LineSpec]) -> Option<PlacedCause<'static>>
    ensures { (tasks : List TaskData) → Keeps kept.now tasks → option_map refusal_of result
        ≡ first_fault (unknown_bit tasks) 0 (map interrupt_of interrupts.now) }
{
    for i in 0..interrupts.len() {
        let interrupt = &interrupts[i];
        let bit = interrupt.notification.as_str();
        if !has_bit(kept, interrupt.task.as_str(), bit) {
            return fault_at(9, interrupt_place(i, "notification"));
        }
    }
    None
}

/// The first name in a list of the k-th task that no region and no device has.
fn unknown_entry(
    known: &Names,
    k: usize,
    key: &'static str,
    names: &[String],
) -> Option<PlacedCause<'static>>
    ensures { (regions : List RegionData) (devices : List DeviceData) →
        NamesAreas known.now regions devices → option_map refusal_of result
        ≡ first_fault (unknown_entry regions devices (task_site k key.now)) 0
        (map string_bytes names.now) }
{
    let place = task_place(k, key);
    for i in 0..names.len() {
        if !is_area(known, names[i].as_str()) {
            return fault_at(10, entry_place(place, i));
        }
    }
    None
}

/// The first unknown name in `uses` of the k-th task, then in `reads`.
fn unknown_region(known: &Names, k: usize, task: &TaskSpec) -> Option<PlacedCause<'static>>
    ensures { (regions : List RegionData) (devices : List DeviceData) →
        NamesAreas known.now regions devices → option_map refusal_of result
        ≡ unknown_region regions devices k (task_of task.now) }
{
    let uses = unknown_entry(known, k, "uses", task.uses.as_slice());
    if uses.is_some() {
        return uses;
    }
    unknown_entry(known, k, "reads", task.reads.as_slice())
}

fn unknown_regions(known: &Names, tasks: &[TaskSpec]) -> Option<PlacedCause<'static>>
    ensures { (regions : List RegionData) (devices : List DeviceData) →
        NamesAreas known.now regions devices → option_map refusal_of result
        ≡ first_fault (unknown_region regions devices) 0 (map task_of tasks.now) }
{
    for i in 0..tasks.len() {
        let found = unknown_region(known, i, &tasks[i]);
        if found.is_some() {
            return found;
        }
    }
    None
}

/// The fault of the k-th interrupt's device, where it is none that the task uses or reads.
fn unknown_line_device(
    kept: &TaskNames,
    known: &Names,
    k: usize,
    interrupt: &LineSpec,
) -> Option<PlacedCause<'static>>
    ensures { (tasks : List TaskData) (devices : List DeviceData) → Keeps kept.now tasks
        → HasJust known.now (λ name. has_device name devices) → option_map refusal_of result
        ≡ unknown_line_device tasks devices k (interrupt_of interrupt.now) }
{
    match &interrupt.device {
        Some(device) => {
            let name = device.as_str();
            let is_own = has_area(kept, interrupt.task.as_str(), name) && is_known(known, name);
            fault_if(!is_own, 10, interrupt_place(k, "device"))
        }
        None => None,
    }
}

/// The first interrupt whose device is none that its task uses or reads.
fn unknown_line_devices(
    kept: &TaskNames,
    known: &Names,
    interrupts: &[LineSpec],
) -> Option<PlacedCause<'static>>
    ensures { (tasks : List TaskData) (devices : List DeviceData) → Keeps kept.now tasks
        → HasJust known.now (λ name. has_device name devices) → option_map refusal_of result
        ≡ first_fault (unknown_line_device tasks devices) 0 (map interrupt_of interrupts.now) }
{
    for i in 0..interrupts.len() {
        let found = unknown_line_device(kept, known, i, &interrupts[i]);
        if found.is_some() {
            return found;
        }
    }
    None
}

/// The first fault of causes 8 to 10.
pub(crate) fn unknown_name(
    alloc: Global,
    parts: &Parts,
) -> Result<Option<PlacedCause<'static>>, AllocError>
    ensures { IfOk result (λ found. option_map refusal_of found ≡ unknown_name
        (parts_of parts.now)) }
{
    let tasks = parts.tasks.as_slice();
    let interrupts = parts.interrupts.as_slice();
    let kept = kept_tasks(alloc, tasks)?;
    let owner = unknown_owner(&kept, interrupts);
    let bit = unknown_bit(&kept, interrupts);
    let fault = unknown_fault_bit(parts.fault.as_str(), tasks);
    let areas = known_areas(alloc, parts.regions.as_slice(), parts.devices.as_slice())?;
    let regions = unknown_regions(&areas, tasks);
    let own = known_devices(alloc, parts.devices.as_slice())?;
    let devices = unknown_line_devices(&kept, &own, interrupts);
    let areas_or_devices = first_of(regions, devices);
    Ok(first_of(owner, first_of(fault, first_of(bit, areas_or_devices))))
}

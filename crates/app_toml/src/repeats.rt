//! Cause 7: a name used before.

ghost use Rattle.std.specs.Prelude.{◌≡◌, IfOk, [], codes, map, option_map, string_bytes};
ghost use Rattle.app_toml.specs.Crossed.{device_twice, entries_twice, lists_twice, name_twice, region_twice, task_site, task_twice};
ghost use Rattle.app_toml.specs.Held.{parts_of};
ghost use Rattle.app_toml.specs.Places.{at_key, first_clash, index_site, refuse};
ghost use Rattle.app_toml.specs.Sites.{device_of, refusal_of, region_of, task_of};

use crate::known::{known_names, known_regions, learn};
use crate::parts::{DeviceSpec, Parts, RegionSpec, TaskSpec};
use crate::places::{PlacedCause, entry_place, fault_at, first_of, index_place, key_place};
use crate::tasks::task_place;
use std::alloc::{AllocError, Global};
use std::collections::BTreeSet;

/// The first name in a list of the k-th task that is among the earlier ones, or occurs before in
/// the same list.
fn entries_twice(
    alloc: Global,
    earlier: &[String],
    k: usize,
    key: &'static str,
    names: &[String],
) -> Result<Option<PlacedCause<'static>>, AllocError>
    ensures { IfOk result (λ found. option_map refusal_of found
        ≡ entries_twice (map string_bytes earlier.now) (task_site k key.now)
        (map string_bytes names.now)) }
{
    let place = task_place(k, key);
    let mut known = known_names(alloc, earlier)?;
    for i in 0..names.len() {
        let name = names[i].as_str();
        let is_new = learn(alloc, &mut known, name)?;
        if !is_new {
            return Ok(fault_at(7, entry_place(place, i)));
        }
    }
    Ok(None)
}

/// The fault of the i-th table of a list, whose name is not new.
fn named_twice(head: &'static str, i: usize) -> Option<PlacedCause<'static>>
    ensures { option_map refusal_of result ≡ refuse 7
        (at_key (codes "name") (index_site head.now i)) }
{
    fault_at(7, key_place(index_place(head, i), "name"))
}

/// The first repeated name of the k-th task: among its notifications, then among `uses` and `reads`
/// together.
fn lists_twice(
    alloc: Global,
    k: usize,
    task: &TaskSpec,
) -> Result<Option<PlacedCause<'static>>, AllocError>
    ensures { IfOk result (λ found. option_map refusal_of found ≡ lists_twice k
        (task_of task.now)) }
{
    let uses = task.uses.as_slice();
    let of_bits = entries_twice(
        alloc,
        &[],
        k,
        "notifications",
        task.notifications.as_slice(),
    )?;
    let of_uses = entries_twice(alloc, &[], k, "uses", uses)?;
    let of_reads = entries_twice(alloc, uses, k, "reads", task.reads.as_slice())?;
    Ok(first_of(of_bits, first_of(of_uses, of_reads)))
}

/// The first repeated name of the tasks: for each task its name, then its lists.
fn tasks_twice(
    alloc: Global,
    tasks: &[TaskSpec],
) -> Result<Option<PlacedCause<'static>>, AllocError>
    ensures { IfOk result (λ found. option_map refusal_of found ≡ first_clash task_twice [] 0
        (map task_of tasks.now)) }
{
    let mut known = BTreeSet::new(alloc);
    for i in 0..tasks.len() {
        let task = &tasks[i];
        let name = task.name.as_str();
        let is_new = learn(alloc, &mut known, name)?;
        if !is_new {
            return Ok(named_twice("task", i));
        }
        let lists = lists_twice(alloc, i, task)?;
        if lists.is_some() {
            return Ok(lists);
        }
    }
    Ok(None)
}

fn regions_twice(
    alloc: Global,
    regions: &[RegionSpec],
) -> Result<Option<PlacedCause<'static>>, AllocError>
    ensures { IfOk result (λ found. option_map refusal_of found
        ≡ first_clash region_twice [] 0 (map region_of regions.now)) }
{
    let mut known = BTreeSet::new(alloc);
    for i in 0..regions.len() {
        let region = &regions[i];
        let name = region.name.as_str();
        let is_new = learn(alloc, &mut known, name)?;
        if !is_new {
            return Ok(named_twice("region", i));
        }
    }
    Ok(None)
}

/// The first repeated name of the devices, which share their names with the regions.
fn devices_twice(
    alloc: Global,
    regions: &[RegionSpec],
    devices: &[DeviceSpec],
) -> Result<Option<PlacedCause<'static>>, AllocError>
    ensures { IfOk result (λ found. option_map refusal_of found
        ≡ first_clash (device_twice (map region_of regions.now)) [] 0 (map device_of devices.now)) }
{
    let mut known = known_regions(alloc, regions)?;
    for i in 0..devices.len() {
        let device = &devices[i];
        let name = device.name.as_str();
        let is_new = learn(alloc, &mut known, name)?;
        if !is_new {
            return Ok(named_twice("device", i));
        }
    }
    Ok(None)
}

/// The first name used before: task by task, then regions, then devices.
pub(crate) fn name_twice(
    alloc: Global,
    parts: &Parts,
) -> Result<Option<PlacedCause<'static>>, AllocError>
    ensures { IfOk result (λ found. option_map refusal_of found ≡ name_twice (parts_of parts.now)) }
{
    let regions = parts.regions.as_slice();
    let of_tasks = tasks_twice(alloc, parts.tasks.as_slice())?;
    let of_regions = regions_twice(alloc, regions)?;
    let of_devices = devices_twice(alloc, regions, parts.devices.as_slice())?;
    Ok(first_of(of_tasks, first_of(of_regions, of_devices)))
}

//! Names that are kept in the order of their bytes, so that one of many is found in few steps.

ghost use Rattle.std.specs.Prelude.{◌≡◌, ◌||◌, ◌++◌, ◌∷◌, [], IfOk, List, OnOk, map, not, string_bytes};
ghost use Rattle.std.specs.BTreeSet.{contains_text};
ghost use Rattle.std.specs.Str.{bytes_eq};
ghost use Rattle.app_toml.specs.Apps.{DeviceData, RegionData, TaskData};
ghost use Rattle.app_toml.specs.Crossed.{areas_of, has_device, has_region, has_task, is_among, notifications_of};
ghost use Rattle.app_toml.specs.Known.{HasJust, Keeps, KeepsNames, NamesAreas};
ghost use Rattle.app_toml.specs.Places.{Text};
ghost use Rattle.app_toml.specs.Sites.{device_of, region_of, task_of};

use crate::parts::{DeviceSpec, RegionSpec, TaskSpec};
use std::alloc::{AllocError, Global};
use std::collections::{BTreeMap, BTreeSet};

pub(crate) type Names = BTreeSet<String>;

/// What is kept of a task: its notifications, and the regions and devices that it uses or reads.
#[derive(Drop)]
pub(crate) struct KeptTask {
    pub(crate) notifications: Names,
    pub(crate) areas: Names,
}

/// Tasks by their names.
pub(crate) type TaskNames = BTreeMap<String, KeptTask>;

pub(crate) fn is_known(known: &Names, name: &str) -> bool
    ensures { result ≡ contains_text known.now name.now }
{
    known.contains(name)
}

/// Adds a name, and returns whether it is new.
pub(crate) fn learn(alloc: Global, known: &mut Names, name: &str) -> Result<bool, AllocError>
    ensures new { IfOk result (λ added. added ≡ not (contains_text known.old name.now)) }
    ensures known { OnOk result ((q : Text) →
        contains_text known.new q ≡ (bytes_eq name.now q || contains_text known.old q)) }
{
    let added = known.insert(String::from_str(alloc, name)?)?;
    Ok(added)
}

fn learn_names(alloc: Global, known: &mut Names, names: &[String]) -> Result<(), AllocError>
    ensures { OnOk result ((q : Text) →
        contains_text known.new q ≡ (contains_text known.old q || is_among q
        (map string_bytes names.now))) }
{
    for name in names {
        learn(alloc, known, name.as_str())?;
    }
    Ok(())
}

pub(crate) fn known_names(alloc: Global, names: &[String]) -> Result<Names, AllocError>
    ensures { IfOk result (λ known. HasJust known (λ q. is_among q (map string_bytes names.now))) }
{
    let mut known = BTreeSet::new(alloc);
    learn_names(alloc, &mut known, names)?;
    Ok(known)
}

pub(crate) fn known_regions(alloc: Global, regions: &[RegionSpec]) -> Result<Names, AllocError>
    ensures { IfOk result (λ known. HasJust known (λ q. has_region q (map region_of regions.now))) }
{
    let mut known = BTreeSet::new(alloc);
    for region in regions {
        learn(alloc, &mut known, region.name.as_str())?;
    }
    Ok(known)
}

fn learn_devices(alloc: Global, known: &mut Names, devices: &[DeviceSpec]) -> Result<(), AllocError>
    ensures { OnOk result ((q : Text) →
        contains_text known.new q ≡ (contains_text known.old q || has_device q
        (map device_of devices.now))) }
{
    for device in devices {
        learn(alloc, known, device.name.as_str())?;
    }
    Ok(())
}

pub(crate) fn known_devices(alloc: Global, devices: &[DeviceSpec]) -> Result<Names, AllocError>
    ensures { IfOk result (λ known. HasJust known (λ q. has_device q (map device_of devices.now))) }
{
    let mut known = BTreeSet::new(alloc);
    learn_devices(alloc, &mut known, devices)?;
    Ok(known)
}

/// The names of regions and devices.
pub(crate) fn known_areas(
    alloc: Global,
    regions: &[RegionSpec],
    devices: &[DeviceSpec],
) -> Result<Names, AllocError>
    ensures { IfOk result (λ known. NamesAreas known (map region_of regions.now)
        (map device_of devices.now)) }
{
    let mut known = known_regions(alloc, regions)?;
    learn_devices(alloc, &mut known, devices)?;
    Ok(known)
}

/// Whether a region or a device has the name.
pub(crate) fn is_area(known: &Names, name: &str) -> bool
    ensures { (regions : List RegionData) (devices : List DeviceData) →
        NamesAreas known.now regions devices
        → result ≡ (has_region name.now regions || has_device name.now devices) }
{
    known.contains(name)
}

fn kept_task(alloc: Global, task: &TaskSpec) -> Result<KeptTask, AllocError>
    ensures { let t = task_of task.now in
        IfOk result (λ kept. KeepsNames kept t.notifications (t.uses ++ t.reads)) }
{
    let notifications = known_names(alloc, task.notifications.as_slice())?;
    let mut areas = known_names(alloc, task.uses.as_slice())?;
    learn_names(alloc, &mut areas, task.reads.as_slice())?;
    Ok(KeptTask {
        notifications,
        areas,
    })
}

/// Adds a task, unless there is already one of this name.
fn keep_task(alloc: Global, kept: &mut TaskNames, task: &TaskSpec) -> Result<(), AllocError>
    ensures { OnOk result ((tasks : List TaskData) → Keeps kept.old tasks →
        Keeps kept.new (tasks ++ task_of task.now ∷ [])) }
{
    if kept.contains_key(task.name.as_str()) {
        return Ok(());
    }
    let names = kept_task(alloc, task)?;
    kept.insert(String::from_str(alloc, task.name.as_str())?, names)?;
    Ok(())
}

pub(crate) fn kept_tasks(alloc: Global, tasks: &[TaskSpec]) -> Result<TaskNames, AllocError>
    ensures { IfOk result (λ kept. Keeps kept (map task_of tasks.now)) }
{
    let mut kept = BTreeMap::new(alloc);
    for task in tasks {
        keep_task(alloc, &mut kept, task)?;
    }
    Ok(kept)
}

/// Whether a task of the name has the notification.
pub(crate) fn has_bit(kept: &TaskNames, task: &str, bit: &str) -> bool
    ensures { (tasks : List TaskData) → Keeps kept.now tasks →
        result ≡ is_among bit.now (notifications_of task.now tasks) }
{
    match kept.get(task) {
        Some(names) => is_known(&names.notifications, bit),
        None => false,
    }
}

/// Whether a task of the name uses or reads the region or device.
pub(crate) fn has_area(kept: &TaskNames, task: &str, area: &str) -> bool
    ensures { (tasks : List TaskData) → Keeps kept.now tasks →
        result ≡ is_among area.now (areas_of task.now tasks) }
{
    match kept.get(task) {
        Some(names) => is_known(&names.areas, area),
        None => false,
    }
}

/// Whether there is a task of the name.
pub(crate) fn is_kept(kept: &TaskNames, task: &str) -> bool
    ensures { (tasks : List TaskData) → Keeps kept.now tasks → result ≡ has_task task.now tasks }
{
    kept.contains_key(task)
}

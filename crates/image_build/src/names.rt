//! Looks up what names refer to.

ghost use Rattle.std.specs.Prelude.{◌≡◌, ◌≤◌, ◌<◌, ◌+◌, ◌^◌, ◌++◌, length, map, string_bytes, true};
ghost use Rattle.app_toml.specs.Crossed.{areas_of, is_among, notifications_of};
ghost use Rattle.app_toml.specs.Sites.{device_of, region_of, task_of};
ghost use Rattle.image_build.specs.Built.{bit_of};
ghost use Rattle.image_build.specs.Layout.{index_of};

use app_toml::{DeviceSpec, RegionSpec, TaskSpec};

/// The index of a name in a list, or the length of the list if it is not in it.
fn place_of(name: &str, names: &[String]) -> usize
    ensures { result ≡ index_of name.now (map string_bytes names.now) }
{
    for i in 0..names.len() {
        if names[i].as_str() == name {
            return i;
        }
    }
    names.len()
}

/// The index of a name in two lists, the second behind the first, or the length of both if it is in
/// neither.
pub(crate) fn place_in_two(name: &str, first: &[String], second: &[String]) -> usize
    requires { length first.now + length second.now ≤ 6 }
    ensures place { result ≡ index_of name.now
        (map string_bytes first.now ++ map string_bytes second.now) }
    ensures most { result ≤ 6 }
{
    let place = place_of(name, first);
    if place < first.len() {
        place
    } else {
        place + place_of(name, second)
    }
}

pub(crate) fn task_place(name: &str, tasks: &[TaskSpec]) -> usize
    ensures { result ≡ index_of name.now (map (λ t. t.name) (map task_of tasks.now)) }
{
    for i in 0..tasks.len() {
        if tasks[i].name.as_str() == name {
            return i;
        }
    }
    tasks.len()
}

pub(crate) fn region_place(name: &str, regions: &[RegionSpec]) -> usize
    ensures { result ≡ index_of name.now (map (λ r. r.name) (map region_of regions.now)) }
{
    for i in 0..regions.len() {
        if regions[i].name.as_str() == name {
            return i;
        }
    }
    regions.len()
}

pub(crate) fn device_place(name: &str, devices: &[DeviceSpec]) -> usize
    ensures { result ≡ index_of name.now (map (λ d. d.name) (map device_of devices.now)) }
{
    for i in 0..devices.len() {
        if devices[i].name.as_str() == name {
            return i;
        }
    }
    devices.len()
}

pub(crate) fn bit(k: usize) -> u32
    requires { k < 32 }
    ensures { result ≡ 2 ^ k }
{
    1u32 << k
}

/// The bit of a notification that is one of these.
pub(crate) fn bit_of(name: &str, notifications: &[String]) -> u32
    requires known { is_among name.now (map string_bytes notifications.now) ≡ true }
    requires few { length notifications.now ≤ 32 }
    ensures { result ≡ bit_of name.now (map string_bytes notifications.now) }
{
    bit(place_of(name, notifications))
}

/// The notifications of the first task of that name; none if there is no such task.
pub(crate) fn notifications_of<'a>(name: &str, tasks: &'a [TaskSpec]) -> &'a [String]
    ensures { map string_bytes result.now ≡ notifications_of name.now (map task_of tasks.now) }
{
    for task in tasks {
        if task.name.as_str() == name {
            return task.notifications.as_slice();
        }
    }
    &[]
}

/// What the first task of that name uses, and what it reads; nothing if there is no such task.
pub(crate) fn areas_of<'a>(name: &str, tasks: &'a [TaskSpec]) -> (&'a [String], &'a [String])
    ensures { map string_bytes result.0.now ++ map string_bytes result.1.now
        ≡ areas_of name.now (map task_of tasks.now) }
{
    for task in tasks {
        if task.name.as_str() == name {
            return (task.uses.as_slice(), task.reads.as_slice());
        }
    }
    (&[], &[])
}

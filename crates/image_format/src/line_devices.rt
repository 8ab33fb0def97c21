//! The check of the devices that drive interrupts.

ghost use Rattle.std.specs.Prelude.{◌≡◌, ◌≤◌, ◌<◌, ◌+◌, ◌^◌, length, slice_get, take, None};
ghost use Rattle.image_format.specs.Regions.{is_devices, line_device_fault, line_devices_fault, own_regions};
ghost use Rattle.image_format.specs.Steps.{count_fault, counted, field_fault, lines_fault};

use crate::places::lines_place;
use crate::records::{Header, LineRecord, RegionRecord, TaskRecord};

/// How many regions the first n tasks have.
fn counted(tasks: &[TaskRecord], n: usize) -> usize
    requires few { length tasks.now ≤ 512 }
    requires within { n ≤ length tasks.now }
    ensures { result ≡ counted (take n tasks.now) }
{
    let mut sum = 0usize;
    for i in 0..n {
        sum += usize::from(tasks[i].regions);
    }
    sum
}

/// The regions of the i-th task, among those of all tasks in order.
pub(crate) fn own_regions<'a>(
    tasks: &[TaskRecord],
    regions: &'a [RegionRecord],
    i: usize,
) -> &'a [RegionRecord]
    requires few { length tasks.now ≤ 512 }
    requires within { i < length tasks.now }
    requires all { counted tasks.now ≡ length regions.now }
    ensures { result.now ≡ own_regions tasks.now regions.now i }
{
    let start = counted(tasks, i);
    let end = start + usize::from(tasks[i].regions);
    &regions[start..end]
}

/// Whether there is a k-th region, and it is a device's.
fn is_devices(own: &[RegionRecord], k: usize) -> bool
    ensures { result ≡ is_devices (slice_get own.now k) }
{
    match own.get(k) {
        Some(region) => region.rights >= 8,
        None => false,
    }
}

/// The refusal of one interrupt's device, whose record lies at `place`.
fn check_line_device(
    tasks: &[TaskRecord],
    regions: &[RegionRecord],
    l: &LineRecord,
    place: u32,
) -> Option<(u8, u32)>
    requires few { length tasks.now ≤ 512 }
    requires owner { l.now.task < length tasks.now }
    requires all { counted tasks.now ≡ length regions.now }
    requires room { place + 8 ≤ 2 ^ 32 }
    ensures { result ≡ line_device_fault (own_regions tasks.now regions.now l.now.task)
        l.now place }
{
    if l.device == 0 {
        return None;
    }
    let own = own_regions(tasks, regions, usize::from(l.task));
    if is_devices(own, usize::from(l.device) - 1) {
        None
    } else {
        Some((3, place + 1))
    }
}

/// The first refusal of the devices that drive the interrupts in order, as a cause and the place of
/// a byte, or None if there is none. docs/FORMATS.md, Image.
#[tactic(auto, using(crate::proofs::Limits::few_tasks, crate::proofs::Limits::few_lines, crate::proofs::Limits::early_lines, crate::proofs::Limits::all_counted))]
pub fn check_line_devices(
    h: &Header,
    tasks: &[TaskRecord],
    regions: &[RegionRecord],
    lines: &[LineRecord],
) -> Option<(u8, u32)>
    requires fields { field_fault h.now ≡ None }
    requires tasks { length tasks.now ≡ h.now.tasks }
    requires regions { length regions.now ≡ h.now.regions }
    requires lines { length lines.now ≡ h.now.lines }
    requires count { count_fault h.now tasks.now ≡ None }
    requires each { lines_fault h.now lines.now ≡ None }
    ensures { result ≡ line_devices_fault h.now tasks.now regions.now lines.now }
{
    let mut place = lines_place(h);
    for i in 0..lines.len() {
        let found = check_line_device(tasks, regions, &lines[i], place);
        if found.is_some() {
            return found;
        }
        place += 8;
    }
    None
}

//! The checks of regions and of entries.

ghost use Rattle.std.specs.Prelude.{◌≡◌, ◌≤◌, ◌+◌, ◌*◌, ◌<◌, ◌^◌, [], length, None};
ghost use Rattle.std.specs.List.{list_any};
ghost use Rattle.image_format.specs.Regions.{clashes, cuts, entries_fault, entry_fault, has_area, has_rights, has_shape, lies_in, meets, own_fault, region_fault, regions_fault, runs_at};
ghost use Rattle.image_format.specs.Steps.{count_fault, field_fault, tasks_fault};

use crate::places::{header_size, regions_place};
use crate::records::{Header, RegionRecord, TaskRecord};
use region_check::is_size;

fn has_shape(r: &RegionRecord) -> bool
    ensures { result ≡ has_shape r.now }
{
    is_size(r.size) && r.base % r.size == 0
}

fn has_rights(r: &RegionRecord) -> bool
    ensures { result ≡ has_rights r.now }
{
    matches!(r.rights, 1 | 3 | 5 | 7 | 9 | 11)
}

fn lies_in(r: &RegionRecord, base: u64, end: u64) -> bool
    ensures { result ≡ lies_in r.now base end }
{
    base <= u64::from(r.base) && u64::from(r.base) + u64::from(r.size) <= end
}

fn has_area(h: &Header, r: &RegionRecord) -> bool
    ensures { result ≡ has_area h.now r.now }
{
    let flash = lies_in(r, 0x0800_0000, 0x0800_0000 + u64::from(h.flash));
    let ram = lies_in(r, 0x2000_0000, 0x2000_0000 + u64::from(h.ram));
    if r.rights == 1 || r.rights == 5 {
        flash || ram
    } else if r.rights == 3 || r.rights == 7 {
        ram
    } else {
        lies_in(r, 0x4000_0000, 0x6000_0000)
    }
}

fn meets(r: &RegionRecord, e: &RegionRecord) -> bool
    ensures { result ≡ meets r.now e.now }
{
    u64::from(r.base) < u64::from(e.base) + u64::from(e.size)
        && u64::from(e.base) < u64::from(r.base) + u64::from(r.size)
}

fn cuts(r: &RegionRecord, e: &RegionRecord) -> bool
    ensures { result ≡ cuts r.now e.now }
{
    meets(r, e) && (r.base != e.base || r.size != e.size)
}

fn any_meets(own: &[RegionRecord], r: &RegionRecord) -> bool
    ensures { result ≡ list_any (meets r.now) own.now }
{
    own.iter().any(|e| meets(r, e))
}

fn any_cuts(others: &[RegionRecord], r: &RegionRecord) -> bool
    ensures { result ≡ list_any (cuts r.now) others.now }
{
    others.iter().any(|e| cuts(r, e))
}

/// Whether the region has a byte in common with one of its own task, or overlaps one of another
/// task without being the same bytes.
fn clashes(others: &[RegionRecord], own: &[RegionRecord], r: &RegionRecord) -> bool
    ensures { result ≡ clashes others.now own.now r.now }
{
    any_meets(own, r) || any_cuts(others, r)
}

/// The first refusal of one region's record, which lies at `place`.
fn check_region(h: &Header, overlaps: bool, r: &RegionRecord, place: u32) -> Option<(u8, u32)>
    requires { place + 12 ≤ 2 ^ 32 }
    ensures { result ≡ region_fault h.now overlaps r.now place }
{
    if !has_rights(r) {
        Some((8, place + 8))
    } else if !has_shape(r) {
        Some((9, place))
    } else if !has_area(h, r) {
        Some((10, place))
    } else if overlaps {
        Some((11, place))
    } else {
        None
    }
}

/// The first refusal of one task's regions, whose records lie at `place`. `others` are the regions
/// of earlier tasks.
fn check_own(
    h: &Header,
    others: &[RegionRecord],
    own: &[RegionRecord],
    at: u32,
) -> Option<(u8, u32)>
    requires { at + 12 * length own.now ≤ 2 ^ 31 }
    ensures { result ≡ own_fault h.now others.now [] at own.now }
{
    let mut place = at;
    for i in 0..own.len() {
        let overlaps = clashes(others, &own[..i], &own[i]);
        let found = check_region(h, overlaps, &own[i], place);
        if found.is_some() {
            return found;
        }
        place += 12;
    }
    None
}

/// The first refusal of the regions in order, as a cause and the place of a byte, or None if there
/// is none. docs/FORMATS.md, Image.
#[tactic(auto, using(crate::proofs::Limits::few_tasks, crate::proofs::Limits::few_regions, crate::proofs::Limits::early_regions, crate::proofs::Limits::all_counted))]
pub fn check_regions(
    h: &Header,
    tasks: &[TaskRecord],
    regions: &[RegionRecord],
) -> Option<(u8, u32)>
    requires fields { field_fault h.now ≡ None }
    requires tasks { length tasks.now ≡ h.now.tasks }
    requires regions { length regions.now ≡ h.now.regions }
    requires each { tasks_fault h.now tasks.now ≡ None }
    requires count { count_fault h.now tasks.now ≡ None }
    ensures { result ≡ regions_fault h.now tasks.now regions.now }
{
    let mut start = 0usize;
    let mut place = regions_place(h);
    for i in 0..tasks.len() {
        let end = start + usize::from(tasks[i].regions);
        let found = check_own(h, &regions[..start], &regions[start..end], place);
        if found.is_some() {
            return found;
        }
        place += 12 * u32::from(tasks[i].regions);
        start = end;
    }
    None
}

fn runs_at(entry: u32, r: &RegionRecord) -> bool
    ensures { result ≡ runs_at entry r.now }
{
    (r.rights == 5 || r.rights == 7)
        && r.base < entry
        && u64::from(entry) <= u64::from(r.base) + u64::from(r.size)
}

fn any_runs(entry: u32, own: &[RegionRecord]) -> bool
    ensures { result ≡ list_any (runs_at entry) own.now }
{
    own.iter().any(|r| runs_at(entry, r))
}

/// The refusal of one task's entry, whose record lies at `place`.
fn check_entry(own: &[RegionRecord], t: &TaskRecord, place: u32) -> Option<(u8, u32)>
    requires { place + 12 ≤ 2 ^ 32 }
    ensures { result ≡ entry_fault own.now t.now place }
{
    if t.entry % 2 == 0 || !any_runs(t.entry, own) {
        Some((12, place + 4))
    } else {
        None
    }
}

/// The first refusal of the tasks' entries in order, as a cause and the place of a byte, or None if
/// there is none. docs/FORMATS.md, Image.
#[tactic(auto, using(crate::proofs::Limits::few_tasks, crate::proofs::Limits::few_regions, crate::proofs::Limits::all_counted))]
pub fn check_entries(
    h: &Header,
    tasks: &[TaskRecord],
    regions: &[RegionRecord],
) -> Option<(u8, u32)>
    requires fields { field_fault h.now ≡ None }
    requires tasks { length tasks.now ≡ h.now.tasks }
    requires regions { length regions.now ≡ h.now.regions }
    requires each { tasks_fault h.now tasks.now ≡ None }
    requires count { count_fault h.now tasks.now ≡ None }
    ensures { result ≡ entries_fault h.now tasks.now regions.now }
{
    let mut start = 0usize;
    let mut place = header_size(h.form);
    for i in 0..tasks.len() {
        let end = start + usize::from(tasks[i].regions);
        let found = check_entry(&regions[start..end], &tasks[i], place);
        if found.is_some() {
            return found;
        }
        place += 12;
        start = end;
    }
    None
}

//! Which regions of a task make up a window: that of its code, that of its stack, and two areas.
ghost use Rattle.std.specs.Prelude.{◌≡◌, ◌&&◌, ◌*◌, ◌<◌, Option, Some, true, false, None, IfSome, MatchOption, Contains};
ghost use Rattle.std.specs.List.{list_any};
ghost use Rattle.board_core.specs.fast.Reached.{is_flash_at, is_ram_at, is_area, is_second, IsStackRegion, IsAreaRegion, IsSecondRegion, AreReached, MakeWindow, no_region, unwatched, without_watched};
ghost use Rattle.task_table.specs.model.Reading.{setup_at};
ghost use Rattle.mem_banks.specs.Windows.{IsNoRegion};
ghost use Rattle.task_table.specs.kept.Openable.{span_of};
ghost use Rattle.task_table.specs.kept.Holds.{setup_of};

use crate::space::AddressSpace;
use mem_banks::RAM;
use region_check::{Region, Rights};

/// Whether this region of the flash may be executed and has the instruction at an address.
fn is_flash_at(region: &Region, at: u32) -> bool
    ensures { result ≡ is_flash_at at region.now }
{
    region.spans(at, 2) && region.rights.execute && !region.rights.device && region.base < RAM
}

/// Whether this region of the RAM may be read and written, and has an address or ends there.
fn is_ram_at(region: &Region, at: u32) -> bool
    ensures { result ≡ is_ram_at at region.now }
{
    region.spans(at, 0)
        && region.size > 0
        && region.rights.read
        && region.rights.write
        && !region.rights.device
        && region.base >= RAM
}

/// Whether this region of the RAM may be read, is not empty, and is not that of the stack.
fn is_area(region: &Region, stack: &Region) -> bool
    ensures { result ≡ is_area stack.now region.now }
{
    region.base >= RAM
        && region.size > 0
        && region.rights.read
        && !region.rights.device
        && !(region.base == stack.base && region.size == stack.size)
}

/// The empty region: it has no bytes, and begins where the RAM does.
fn no_region() -> Region
    ensures none { IsNoRegion (span_of result) }
    ensures is { result ≡ no_region }
{
    Region {
        base: RAM,
        size: 0,
        rights: Rights {
            read: false,
            write: false,
            execute: false,
            device: false,
        },
    }
}

/// A region; the empty one instead if it has the watched byte.
#[inline(always)]
fn unwatched(watched: Option<u32>, region: Region) -> Region
    ensures { result ≡ unwatched watched region }
{
    match watched {
        Some(at) if region.spans(at, 1) => no_region(),
        _ => region,
    }
}

/// The regions that make up a window: the one of the flash that has the instruction at PC, and
/// three of the RAM, which may be empty.
#[derive(Clone, Copy)]
pub struct WindowRegions {
    pub flash: Region,
    pub ram: Region,
    pub area: Region,
    pub second: Region,
}

impl WindowRegions {
    /// The same, but with the empty region for each one of the RAM that has the watched byte.
    #[inline(always)]
    fn without(self, watched: Option<u32>) -> WindowRegions
        ensures { result ≡ without_watched watched self }
    {
        WindowRegions {
            flash: self.flash,
            ram: unwatched(watched, self.ram),
            area: unwatched(watched, self.area),
            second: unwatched(watched, self.second),
        }
    }
}

/// A region of the flash that has the instruction at an address.
fn flash_at(regions: &[Region], at: u32) -> Option<Region>
    ensures { MatchOption result (list_any (is_flash_at at) regions.now ≡ false)
        (λ r. Contains regions.now r × (is_flash_at at r ≡ true)) }
{
    for region in regions {
        if is_flash_at(region, at) {
            return Some(*region);
        }
    }
    None
}

/// A region of the RAM that has an address, or ends there; the empty region if there is none.
fn ram_at(regions: &[Region], at: u32) -> Region
    ensures { IsStackRegion regions.now at result }
{
    for region in regions {
        if is_ram_at(region, at) {
            return *region;
        }
    }
    no_region()
}

/// The first region of the RAM that may be read and is not that of the stack; the empty region if
/// there is none.
fn area_of(regions: &[Region], stack: &Region) -> Region
    ensures { IsAreaRegion regions.now stack.now result }
{
    for region in regions {
        if is_area(region, stack) {
            return *region;
        }
    }
    no_region()
}

/// Whether a region can be an area and is not the first one.
fn is_second(region: &Region, stack: &Region, area: &Region) -> bool
    ensures { result ≡ is_second stack.now area.now region.now }
{
    is_area(region, stack) && !(region.base == area.base && region.size == area.size)
}

/// The first region that can be an area and is not the first area; the empty region if there is
/// none. If there is no first area, there is no second one either, so most tasks are not searched
/// again.
fn second_of(regions: &[Region], stack: &Region, area: &Region) -> Region
    requires { IsAreaRegion regions.now stack.now area.now }
    ensures { IsSecondRegion regions.now stack.now area.now result }
{
    if area.size == 0 {
        return no_region();
    }
    for region in regions {
        if is_second(region, stack, area) {
            return *region;
        }
    }
    no_region()
}

/// The window's regions if they are where a plan puts them: the first region has the instruction at
/// PC and the second one the stack. Then neither has to be searched for.
#[inline(always)]
fn laid_out(regions: &[Region], pc: u32, sp: u32) -> Option<WindowRegions>
    ensures { IfSome result (AreReached regions.now pc sp) }
{
    if regions.len() < 2 {
        return None;
    }
    let flash = &regions[0];
    let stack = &regions[1];
    if !is_flash_at(flash, pc) || !is_ram_at(stack, sp) {
        return None;
    }
    let area = area_of(&regions[2..], stack);
    let second = second_of(&regions[2..], stack, &area);
    Some(WindowRegions {
        flash: *flash,
        ram: *stack,
        area,
        second,
    })
}

/// The same, wherever the regions are.
#[inline(never)]
fn looked_up(regions: &[Region], pc: u32, sp: u32) -> Option<WindowRegions>
    ensures { MatchOption result (list_any (is_flash_at pc) regions.now ≡ false)
        (AreReached regions.now pc sp) }
{
    let flash = flash_at(regions, pc)?;
    let ram = ram_at(regions, sp);
    let area = area_of(regions, &ram);
    let second = second_of(regions, &ram, &area);
    Some(WindowRegions {
        flash,
        ram,
        area,
        second,
    })
}

impl AddressSpace {
    /// The four regions in which a task may make many instructions: the one of the flash that has
    /// its PC, the one of the RAM that has its stack, and the first two other ones of the RAM that
    /// it may read. Each of the last three may be the empty region. It is the empty one if it would
    /// have the watched byte.
    #[inline(always)]
    pub fn window(
        &self,
        task: usize,
        pc: u32,
        sp: u32,
        watched: Option<u32>,
    ) -> Option<WindowRegions>
        ensures { let regions = (setup_at (setup_of self.now.kernel) task).regions in
            MatchOption result (list_any (is_flash_at pc) regions ≡ false)
            (MakeWindow watched regions pc sp) }
    {
        let regions = self.kernel.regions(task);
        if let Some(window) = laid_out(regions, pc, sp) {
            return Some(window.without(watched));
        }
        let window = looked_up(regions, pc, sp)?;
        Some(window.without(watched))
    }
}

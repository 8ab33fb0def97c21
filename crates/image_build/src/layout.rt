//! Where the tasks' memory and the regions lie.

ghost use Rattle.std.specs.Prelude.{◌≡◌, ◌≤◌, ◌<◌, ◌+◌, ◌++◌, ◌^◌, map, All, IfOk, IfErr, OnOk};
ghost use Rattle.app_toml.specs.Held.{app_of};
ghost use Rattle.app_toml.specs.Sites.{region_of, task_of};
ghost use Rattle.mem_plan.specs.Faults.{IsTooSmall};
ghost use Rattle.mem_plan.specs.Placing.{IsMultiple};
ghost use Rattle.mem_plan.specs.Sizes.{rounded, total};
ghost use Rattle.image_build.specs.Building.{IsLaid, IsPlanned, LacksFlash, LacksRam, LacksRoom};
ghost use Rattle.image_build.specs.Layout.{flash_needed, flash_sizes, flash_wanted, ram_needed, ram_sizes, ram_wanted};

use crate::fault::BuildFault;
use app_toml::{App, RegionSpec, TaskSpec};
use mem_banks::{FLASH, RAM};
use mem_plan::{PlanFault, plan, rounded};
use std::alloc::{AllocError, Global};

/// The bases of the tasks' flash, and those of the tasks' RAM and after them of the regions. Also
/// how many bytes of flash and of RAM these take.
#[derive(Drop)]
pub(crate) struct Layout {
    pub(crate) flash: Vec<u32>,
    pub(crate) flash_length: u32,
    pub(crate) ram: Vec<u32>,
    pub(crate) ram_length: u32,
}

fn flash_wanted(alloc: Global, app: &App) -> Result<Vec<u32>, AllocError>
    ensures { IfOk result (λ v. v.items ≡ flash_wanted (app_of app.now)) }
{
    let tasks = app.tasks();
    let mut sizes = Vec::new(alloc);
    for task in tasks {
        sizes.push(task.flash)?;
    }
    Ok(sizes)
}

fn tasks_ram(alloc: Global, tasks: &[TaskSpec]) -> Result<Vec<u32>, AllocError>
    ensures { IfOk result (λ v. v.items ≡ map (λ t. t.ram) (map task_of tasks.now)) }
{
    let mut sizes = Vec::new(alloc);
    for task in tasks {
        sizes.push(task.ram)?;
    }
    Ok(sizes)
}

fn push_regions(sizes: &mut Vec<u32>, regions: &[RegionSpec]) -> Result<(), AllocError>
    ensures { OnOk result (sizes.new.items ≡ sizes.old.items
        ++ map (λ r. r.size) (map region_of regions.now)) }
{
    for region in regions {
        sizes.push(region.size)?;
    }
    Ok(())
}

fn ram_wanted(alloc: Global, app: &App) -> Result<Vec<u32>, AllocError>
    ensures { IfOk result (λ v. v.items ≡ ram_wanted (app_of app.now)) }
{
    let mut sizes = tasks_ram(alloc, app.tasks())?;
    push_regions(&mut sizes, app.regions())?;
    Ok(sizes)
}

/// How many bytes regions for these sizes take.
fn room_taken(sizes: &[u32]) -> u32
    requires sizes { All (λ s. s ≤ 1048576) sizes.now }
    requires small { total (map rounded sizes.now) < 2 ^ 32 }
    ensures { result ≡ total (map rounded sizes.now) }
{
    let mut sum = 0u32;
    for i in 0..sizes.len() {
        sum += rounded(sizes[i]);
    }
    sum
}

/// The bases of regions for these sizes, and how many bytes they take.
fn planned(alloc: Global, sizes: &[u32], base: u32, room: u32) -> Result<(Vec<u32>, u32), PlanFault>
    requires sizes { All (λ s. (1 ≤ s) × (s ≤ 1048576)) sizes.now }
    requires fits { base + room < 2 ^ 32 }
    requires whole { IsMultiple 1048576 base }
    ensures planned { IfOk result (λ p. IsPlanned base (map rounded sizes.now) p.0.items) }
    ensures accepted { IfOk result (λ p. p.1 ≡ total (map rounded sizes.now)) }
    ensures room { IfOk result (λ p. total (map rounded sizes.now) ≤ room) }
    ensures small { IfErr result (IsTooSmall (total (map rounded sizes.now)) room) }
{
    match plan(alloc, sizes, base, room) {
        Ok(plan) => Ok((plan.bases, room_taken(sizes))),
        Err(fault) => Err(fault),
    }
}

fn flash_plan(alloc: Global, app: &App) -> Result<(Vec<u32>, u32), BuildFault>
    ensures planned { IfOk result (λ p. IsPlanned 0x08000000 (flash_sizes (app_of app.now))
        p.0.items) }
    ensures accepted { IfOk result (λ p. p.1 ≡ flash_needed (app_of app.now)) }
    ensures room { IfOk result (λ p. flash_needed (app_of app.now) ≤ (app_of app.now).flash) }
    ensures refused { IfErr result (LacksFlash (app_of app.now)) }
{
    app.facts();
    let sizes = flash_wanted(alloc, app)?;
    match planned(alloc, sizes.as_slice(), FLASH, app.flash()) {
        Ok(plan) => Ok(plan),
        Err(PlanFault::TooSmall { needed }) => Err(BuildFault::Flash { needed }),
        Err(PlanFault::Memory) => Err(BuildFault::Memory),
    }
}

fn ram_plan(alloc: Global, app: &App) -> Result<(Vec<u32>, u32), BuildFault>
    ensures planned { IfOk result (λ p. IsPlanned 0x20000000 (ram_sizes (app_of app.now))
        p.0.items) }
    ensures accepted { IfOk result (λ p. p.1 ≡ ram_needed (app_of app.now)) }
    ensures room { IfOk result (λ p. ram_needed (app_of app.now) ≤ (app_of app.now).ram) }
    ensures refused { IfErr result (LacksRam (app_of app.now)) }
{
    app.facts();
    let sizes = ram_wanted(alloc, app)?;
    match planned(alloc, sizes.as_slice(), RAM, app.ram()) {
        Ok(plan) => Ok(plan),
        Err(PlanFault::TooSmall { needed }) => Err(BuildFault::Ram { needed }),
        Err(PlanFault::Memory) => Err(BuildFault::Memory),
    }
}

/// Where the application's memory lies. The flash is planned first, so if neither the flash nor the
/// RAM has room, the flash is refused.
pub(crate) fn laid_out(alloc: Global, app: &App) -> Result<Layout, BuildFault>
    ensures laid { IfOk result (IsLaid (app_of app.now)) }
    ensures refused { IfErr result (LacksRoom (app_of app.now)) }
{
    let (flash, flash_length) = flash_plan(alloc, app)?;
    let (ram, ram_length) = ram_plan(alloc, app)?;
    Ok(Layout {
        flash,
        flash_length,
        ram,
        ram_length,
    })
}

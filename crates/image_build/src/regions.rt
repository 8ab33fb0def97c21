//! The regions of a task.

ghost use Rattle.std.specs.Prelude.{◌≡◌, ◌<◌, ◌++◌, length, map, string_bytes, All, OnOk};
ghost use Rattle.app_toml.specs.Held.{app_of};
ghost use Rattle.image_format.specs.ImageData.{region_record};
ghost use Rattle.image_build.specs.Building.{IsKnown, IsLaid};
ghost use Rattle.image_build.specs.Layout.{named, task_at, task_regions};

use crate::layout::Layout;
use crate::names::{device_place, region_place};
use crate::reading::{flash_base, ram_base, task};
use app_toml::App;
use image_format::RegionRecord;
use mem_plan::rounded;
use std::alloc::AllocError;

const READ: u32 = 1;

const WRITE: u32 = 2;

const EXECUTE: u32 = 4;

const DEVICE: u32 = 8;

/// The region or the device of this name, which is one of them.
fn named(app: &App, layout: &Layout, is_written: bool, name: &str) -> RegionRecord
    requires laid { IsLaid (app_of app.now) layout.now }
    requires known { IsKnown (app_of app.now) name.now }
    ensures { result ≡ region_record (named (app_of app.now) is_written name.now) }
{
    app.facts();
    let rights = if is_written { READ + WRITE } else { READ };
    let regions = app.regions();
    let k = region_place(name, regions);
    if k < regions.len() {
        RegionRecord {
            base: ram_base(app, layout, app.tasks().len() + k),
            size: rounded(regions[k].size),
            rights,
        }
    } else {
        let devices = app.devices();
        let device = &devices[device_place(name, devices)];
        RegionRecord {
            base: device.base,
            size: device.size,
            rights: rights + DEVICE,
        }
    }
}

fn push_named(
    out: &mut Vec<RegionRecord>,
    app: &App,
    layout: &Layout,
    is_written: bool,
    names: &[String],
) -> Result<(), AllocError>
    requires laid { IsLaid (app_of app.now) layout.now }
    requires known { All (λ n. IsKnown (app_of app.now) (string_bytes n)) names.now }
    ensures { OnOk result (out.new.items ≡ out.old.items
        ++ map region_record (map (named (app_of app.now) is_written)
        (map string_bytes names.now))) }
{
    for name in names {
        out.push(named(app, layout, is_written, name.as_str()))?;
    }
    Ok(())
}

/// The i-th task's regions: its flash, its RAM, what it uses, what it reads.
pub(crate) fn push_task_regions(
    out: &mut Vec<RegionRecord>,
    app: &App,
    layout: &Layout,
    i: usize,
) -> Result<(), AllocError>
    requires task { i < length (app_of app.now).tasks }
    requires laid { IsLaid (app_of app.now) layout.now }
    ensures { OnOk result (out.new.items ≡ out.old.items
        ++ map region_record (task_regions (app_of app.now) i (task_at (app_of app.now) i))) }
{
    app.facts();
    let task = task(app, i);
    out.push(RegionRecord {
        base: flash_base(app, layout, i),
        size: rounded(task.flash),
        rights: READ + EXECUTE,
    })?;
    out.push(RegionRecord {
        base: ram_base(app, layout, i),
        size: rounded(task.ram),
        rights: READ + WRITE,
    })?;
    push_named(out, app, layout, true, task.uses.as_slice())?;
    push_named(out, app, layout, false, task.reads.as_slice())
}

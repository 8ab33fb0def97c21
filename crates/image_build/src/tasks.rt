//! The tasks' records.

ghost use Rattle.std.specs.Prelude.{◌≡◌, ◌<◌, length, map, IfOk};
ghost use Rattle.app_toml.specs.Held.{app_of};
ghost use Rattle.image_format.specs.ImageData.{all_regions, region_record, task_record};
ghost use Rattle.image_build.specs.Building.{IsLaid};
ghost use Rattle.image_build.specs.Built.{task_built, tasks_from};
ghost use Rattle.image_build.specs.Layout.{task_at};

use crate::layout::Layout;
use crate::reading::{flash_base, ram_base, task};
use crate::regions::push_task_regions;
use app_toml::App;
use image_format::{RegionRecord, TaskRecord};
use std::alloc::{AllocError, Global};

fn task_record(app: &App, layout: &Layout, i: usize) -> TaskRecord
    requires task { i < length (app_of app.now).tasks }
    requires laid { IsLaid (app_of app.now) layout.now }
    ensures { result ≡ task_record (task_built (app_of app.now) i (task_at (app_of app.now) i)) }
{
    let task = task(app, i);
    TaskRecord {
        priority: task.priority,
        flags: u8::from(task.start),
        regions: (2 + task.uses.len() + task.reads.len()) as u8,
        names: task.notifications.len() as u8,
        entry: flash_base(app, layout, i) + 1,
        sp: ram_base(app, layout, i) + task.stack,
    }
}

pub(crate) fn task_records(
    alloc: Global,
    app: &App,
    layout: &Layout,
) -> Result<Vec<TaskRecord>, AllocError>
    requires { IsLaid (app_of app.now) layout.now }
    ensures { IfOk result (λ v. v.items ≡ map task_record
        (tasks_from (app_of app.now) 0 (app_of app.now).tasks)) }
{
    let count = app.tasks().len();
    let mut out = Vec::new(alloc);
    for i in 0..count {
        out.push(task_record(app, layout, i))?;
    }
    Ok(out)
}

/// The regions of all tasks, in their order.
pub(crate) fn region_records(
    alloc: Global,
    app: &App,
    layout: &Layout,
) -> Result<Vec<RegionRecord>, AllocError>
    requires { IsLaid (app_of app.now) layout.now }
    ensures { IfOk result (λ v. v.items ≡ map region_record
        (all_regions (tasks_from (app_of app.now) 0 (app_of app.now).tasks))) }
{
    let count = app.tasks().len();
    let mut out = Vec::new(alloc);
    for i in 0..count {
        push_task_regions(&mut out, app, layout, i)?;
    }
    Ok(out)
}

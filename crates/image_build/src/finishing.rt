//! Makes the image from its parts.

ghost use Rattle.std.specs.Prelude.{◌≡◌, ◌<◌, ℕ, List, length, map, IfOk, IfErr};
ghost use Rattle.app_toml.specs.Held.{app_of};
ghost use Rattle.image_format.specs.Images.{image_data};
ghost use Rattle.image_format.specs.declared.records.ImageForm.TheVariants.{Second};
ghost use Rattle.image_format.specs.ImageData.{Sound, all_names, all_regions, header_of, line_record, region_record, task_record};
ghost use Rattle.image_build.specs.Building.{IsAccepted, IsLaid, Refuses};
ghost use Rattle.image_build.specs.Built.{Built, bit_of, lines_built, image_data_built, tasks_from};
ghost use Rattle.image_build.specs.Layout.{flash_needed, task_at};
ghost use Rattle.image_build.specs.Accepted.{HasAccepted, described, next_task};

use crate::builder::Builder;
use crate::fault::BuildFault;
use crate::interrupts::line_records;
use crate::layout::Layout;
use crate::names::bit_of;
use crate::reading::task;
use crate::spelled::all_names;
use crate::tasks::{region_records, task_records};
use app_toml::App;
use image_format::{Header, Image, ImageForm, LineRecord, RegionRecord, TaskRecord};
use std::alloc::Global;

/// The bit that is posted to the supervisor at a fault.
fn fault_bit(app: &App) -> u32
    ensures { result ≡ bit_of (app_of app.now).fault (task_at (app_of app.now) 0).notifications }
{
    app.facts();
    bit_of(app.fault(), task(app, 0).notifications.as_slice())
}

/// The header of the image that has these records.
fn header_of(
    app: &App,
    layout: &Layout,
    tasks: &[TaskRecord],
    regions: &[RegionRecord],
    lines: &[LineRecord],
    names: &[u8],
) -> Header
    requires laid { IsLaid (app_of app.now) layout.now }
    requires tasks { tasks.now ≡ map task_record
        (tasks_from (app_of app.now) 0 (app_of app.now).tasks) }
    requires regions { regions.now ≡ map region_record
        (all_regions (tasks_from (app_of app.now) 0 (app_of app.now).tasks)) }
    requires lines { lines.now ≡ map line_record (lines_built (app_of app.now)) }
    requires names { names.now ≡ all_names (tasks_from (app_of app.now) 0 (app_of app.now).tasks) }
    ensures { (flash : List ℕ) → length flash ≡ flash_needed (app_of app.now) →
        result ≡ header_of Second (image_data_built (app_of app.now) flash) }
{
    app.facts();
    app.relations();
    Header {
        form: ImageForm::Second,
        tasks: tasks.len() as u16,
        lines: lines.len() as u16,
        regions: regions.len() as u16,
        zero: 0,
        flash: layout.flash_length,
        ram: layout.ram_length,
        bits: fault_bit(app),
        names: names.len() as u32,
    }
}

impl<'a> Builder<'a> {
    /// The image, after the source of each task has been accepted. The error is `Memory` if memory
    /// ran out, and then the builder is lost.
    pub fn finish(self) -> Result<Image, BuildFault>
        requires { next_task self ≡ length (described self).tasks }
        ensures built { IfOk result (λ i. (sources : List (List ℕ)) →
            HasAccepted sources self.entry → Built (described self.entry) sources (image_data i)) }
        ensures sound { IfOk result (λ i. Sound (image_data i)) }
        ensures memory { IfErr result (λ e. e ≡ BuildFault.Memory) }
    {
        let app = self.app;
        app.facts();
        app.relations();
        let tasks = task_records(self.alloc, app, &self.layout)?;
        let regions = region_records(self.alloc, app, &self.layout)?;
        let lines = line_records(self.alloc, app)?;
        let names = all_names(self.alloc, app)?;
        let header = header_of(
            app,
            &self.layout,
            tasks.as_slice(),
            regions.as_slice(),
            lines.as_slice(),
            names.as_slice(),
        );
        Ok(Image::of_parts(header, tasks, regions, lines, names, self.flash))
    }
}

/// The image of the application and of these sources, one for each task. Otherwise the first of
/// these faults: too little flash, too little RAM, and then for each task a cause of the assembler,
/// or more code than the task has flash. docs/FORMATS.md, Building.
///
/// # Errors
///
/// Those of `Builder`; `Memory` may come in place of any.
pub fn build(alloc: Global, app: &App, sources: &[Vec<u8>]) -> Result<Image, BuildFault>
    requires { length sources.now ≡ length (app_of app.now).tasks }
    ensures built { IfOk result (λ i. Built (app_of app.now) (map (λ v. v.items) sources.now)
        (image_data i)) }
    ensures sound { IfOk result (λ i. Sound (image_data i)) }
    ensures accepted { IfOk result (λ i. IsAccepted (app_of app.now)
        (map (λ v. v.items) sources.now)) }
    ensures refused { IfErr result (Refuses (app_of app.now) (map (λ v. v.items) sources.now)) }
{
    let mut builder = Builder::open(alloc, app)?;
    for source in sources {
        builder.source(source.as_slice())?;
    }
    builder.finish()
}

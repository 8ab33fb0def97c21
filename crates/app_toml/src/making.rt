//! A description made of its tables.

ghost use Rattle.std.specs.Prelude.{◌≡◌, IfOk, Option, map, option_map, string_bytes};
ghost use Rattle.app_toml.specs.Accepted.{IsAccepted};
ghost use Rattle.app_toml.specs.Apps.{DeviceData, InterruptData, RegionData, TaskData};
ghost use Rattle.app_toml.specs.Held.{app_of, tables_of};
ghost use Rattle.app_toml.specs.Places.{Text};
ghost use Rattle.app_toml.specs.Sites.{device_of, interrupt_of, region_of, task_of};

use crate::app::App;
use crate::parts::{DeviceSpec, LineSpec, Parts, RegionSpec, TaskSpec};
use crate::reading::app_of_parts;
use std::alloc::{AllocError, Global};

/// An entry of a list in a description. A copy has the same contents.
trait Item: Sized {
    ghost Data: { Type 0 };

    ghost said: { Self → Data };

    fn copied(&self, alloc: Global) -> Result<Self, AllocError>
        ensures { IfOk result (λ copy. said copy ≡ said self.now) };
}

impl Item for String {
    ghost Data = { Text };

    ghost said = { string_bytes };

    fn copied(&self, alloc: Global) -> Result<String, AllocError> {
        String::from_str(alloc, self.as_str())
    }
}

impl Item for Option<String> {
    ghost Data = { Option Text };

    ghost said = { option_map string_bytes };

    fn copied(&self, alloc: Global) -> Result<Option<String>, AllocError> {
        match self {
            Some(text) => Ok(Some(text.copied(alloc)?)),
            None => Ok(None),
        }
    }
}

impl Item for TaskSpec {
    ghost Data = { TaskData };

    ghost said = { task_of };

    fn copied(&self, alloc: Global) -> Result<TaskSpec, AllocError> {
        let name = self.name.copied(alloc)?;
        let source = self.source.copied(alloc)?;
        let notifications = copies_of(alloc, self.notifications.as_slice())?;
        let uses = copies_of(alloc, self.uses.as_slice())?;
        let reads = copies_of(alloc, self.reads.as_slice())?;
        Ok(TaskSpec {
            name,
            source,
            priority: self.priority,
            start: self.start,
            flash: self.flash,
            ram: self.ram,
            stack: self.stack,
            notifications,
            uses,
            reads,
        })
    }
}

impl Item for RegionSpec {
    ghost Data = { RegionData };

    ghost said = { region_of };

    fn copied(&self, alloc: Global) -> Result<RegionSpec, AllocError> {
        let name = self.name.copied(alloc)?;
        Ok(RegionSpec {
            name,
            size: self.size,
        })
    }
}

impl Item for DeviceSpec {
    ghost Data = { DeviceData };

    ghost said = { device_of };

    fn copied(&self, alloc: Global) -> Result<DeviceSpec, AllocError> {
        let name = self.name.copied(alloc)?;
        Ok(DeviceSpec {
            name,
            base: self.base,
            size: self.size,
        })
    }
}

impl Item for LineSpec {
    ghost Data = { InterruptData };

    ghost said = { interrupt_of };

    fn copied(&self, alloc: Global) -> Result<LineSpec, AllocError> {
        let task = self.task.copied(alloc)?;
        let notification = self.notification.copied(alloc)?;
        let device = Item::copied(&self.device, alloc)?;
        Ok(LineSpec {
            line: self.line,
            task,
            notification,
            device,
        })
    }
}

fn copies_of<T: Item + Drop>(alloc: Global, items: &[T]) -> Result<Vec<T>, AllocError>
    ensures { IfOk result (λ v. map T.said v.items ≡ map T.said items.now) }
{
    let mut copies = Vec::new(alloc);
    for item in items {
        copies.push(item.copied(alloc)?)?;
    }
    Ok(copies)
}

impl App {
    /// The description with exactly these tables. Their values need to have their forms, and no
    /// cause may refuse them (docs/FORMATS.md, Application). Sizes are in bytes.
    ///
    /// # Errors
    ///
    /// Only if memory runs out.
    pub fn of(
        alloc: Global,
        flash: u32,
        ram: u32,
        fault: &str,
        tasks: &[TaskSpec],
        regions: &[RegionSpec],
        devices: &[DeviceSpec],
        interrupts: &[LineSpec],
    ) -> Result<App, AllocError>
        requires { IsAccepted (tables_of flash ram fault.now tasks.now regions.now devices.now
            interrupts.now) }
        ensures { IfOk result (λ a. app_of a
            ≡ tables_of flash ram fault.now tasks.now regions.now devices.now interrupts.now) }
    {
        let fault = String::from_str(alloc, fault)?;
        let tasks = copies_of(alloc, tasks)?;
        let regions = copies_of(alloc, regions)?;
        let devices = copies_of(alloc, devices)?;
        let interrupts = copies_of(alloc, interrupts)?;
        Ok(app_of_parts(Parts {
            flash,
            ram,
            fault,
            tasks,
            regions,
            devices,
            interrupts,
        }))
    }
}

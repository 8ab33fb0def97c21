//! An accepted description.

ghost use Rattle.std.specs.Prelude.{map, string_bytes};
ghost use Rattle.std.proofs.Props.{props};
ghost use Rattle.app_toml.specs.Accepted.{IsAccepted};
ghost use Rattle.app_toml.specs.Sites.{device_of, interrupt_of, region_of, task_of};

use crate::parts::{DeviceSpec, LineSpec, RegionSpec, TaskSpec};

/// A description that no cause refuses. `app_of` in the specs gives its contents.
#[derive(Drop)]
pub struct App {
    pub(crate) flash: u32,
    pub(crate) ram: u32,
    pub(crate) fault: String,
    pub(crate) tasks: Vec<TaskSpec>,
    pub(crate) regions: Vec<RegionSpec>,
    pub(crate) devices: Vec<DeviceSpec>,
    pub(crate) interrupts: Vec<LineSpec>,
    ghost accepted: { IsAccepted (record {
      flash = flash;
      ram = ram;
      fault = string_bytes fault;
      tasks = map task_of tasks.items;
      regions = map region_of regions.items;
      devices = map device_of devices.items;
      interrupts = map interrupt_of interrupts.items;
    }) } by { Prim.hlevel props },
}

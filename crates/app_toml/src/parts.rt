//! The tables of a description, and why bytes hold none.

use thiserror::Error;

/// A task: `source` names the file of its program, priority 0 is the highest, `start` says that it
/// runs from the start, `flash` and `ram` are its bytes and `stack` those of its RAM that are its
/// stack. Notification k is bit k; `uses` and `reads` name regions and devices.
#[derive(Debug, Drop)]
pub struct TaskSpec {
    pub name: String,
    pub source: String,
    pub priority: u8,
    pub start: bool,
    pub flash: u32,
    pub ram: u32,
    pub stack: u32,
    pub notifications: Vec<String>,
    pub uses: Vec<String>,
    pub reads: Vec<String>,
}

/// RAM that several tasks use, and how many bytes it has.
#[derive(Debug, Drop)]
pub struct RegionSpec {
    pub name: String,
    pub size: u32,
}

/// A device and its bytes.
#[derive(Debug, Drop)]
pub struct DeviceSpec {
    pub name: String,
    pub base: u32,
    pub size: u32,
}

/// An interrupt line, the task and the notification of it that the line posts, and the device that
/// drives the line, if one does.
#[derive(Debug, Drop)]
pub struct LineSpec {
    pub line: u8,
    pub task: String,
    pub notification: String,
    pub device: Option<String>,
}

/// A description before the check for causes 7 to 20.
#[derive(Drop)]
pub(crate) struct Parts {
    pub(crate) flash: u32,
    pub(crate) ram: u32,
    pub(crate) fault: String,
    pub(crate) tasks: Vec<TaskSpec>,
    pub(crate) regions: Vec<RegionSpec>,
    pub(crate) devices: Vec<DeviceSpec>,
    pub(crate) interrupts: Vec<LineSpec>,
}

/// Why `App::read` gives no description: the bytes are refused, or memory ran out.
#[derive(Debug, Drop, Error)]
pub enum AppFault {
    /// A cause of docs/FORMATS.md, Application, and its place, as `task[1].uses[2]`.
    #[error("refused with cause {cause} at {place}")]
    Refused { cause: u8, place: String },
    #[error("out of memory")]
    Memory,
}

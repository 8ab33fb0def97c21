//! The records of an image, and why bytes are refused.

use thiserror::Error;

/// The form of an image's file, which its first four bytes say.
#[derive(Clone, Copy, PartialEq, Eq)]
pub enum ImageForm {
    /// `HBI1`: at most 32 tasks and 32 interrupts, and no names.
    First,
    /// `HBI2`: at most 512 tasks and 64 interrupts, and the names of each task's notifications.
    Second,
}

/// The header of an image, after its four letters: the numbers of tasks, interrupts and regions, a
/// zero, the bytes of flash and of RAM, the bits that are posted to task 0 at a fault, and the
/// bytes of the names. The first form has no zero and no bytes of names: both fields are 0 then.
#[derive(Clone, Copy)]
pub struct Header {
    pub form: ImageForm,
    pub tasks: u16,
    pub lines: u16,
    pub regions: u16,
    pub zero: u16,
    pub flash: u32,
    pub ram: u32,
    pub bits: u32,
    pub names: u32,
}

/// A task: its priority (0 is the highest), flags (bit 0: started), how many regions and how many
/// names it has, where it begins (bit 0 set) and its first stack pointer. In the first form the
/// number of names is a byte that is to be 0.
#[derive(Clone, Copy)]
pub struct TaskRecord {
    pub priority: u8,
    pub flags: u8,
    pub regions: u8,
    pub names: u8,
    pub entry: u32,
    pub sp: u32,
}

/// Bytes that a task may use; rights are a sum of 1 read, 2 write, 4 execute, 8 device.
#[derive(Clone, Copy)]
pub struct RegionRecord {
    pub base: u32,
    pub size: u32,
    pub rights: u32,
}

/// An interrupt line, the task that owns it, and the notification bits that it posts. `device` is
/// the number, counted from one, of the region of its task whose device drives it; 0 if none does.
/// In the first form it is a half that is to be 0.
#[derive(Clone, Copy)]
pub struct LineRecord {
    pub line: u8,
    pub task: u16,
    pub device: u16,
    pub bits: u32,
}

/// Why `Image::read` gives no image: the bytes are refused, or memory ran out.
#[derive(Debug, Drop, Error)]
pub enum ImageFault {
    /// A cause of docs/FORMATS.md, Image, and the place of a byte.
    #[error("refused with cause {cause} at byte {place}")]
    Refused { cause: u8, place: u32 },
    #[error("out of memory")]
    Memory,
}

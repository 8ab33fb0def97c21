//! The answers to commands.

use arrayvec::ArrayVec;
use board_core::TaskView;
use board_model::End;
use kernel_abi::{Kind, Note};
use words_core::Flags;

/// An answer (docs/FORMATS.md, Commands).
#[derive(Drop)]
pub enum Answer {
    /// The address is a breakpoint.
    Set {
        at: u32,
    },
    /// No room: there are already as many other breakpoints as there may be.
    Full,
    /// The address was a breakpoint.
    Cleared {
        at: u32,
    },
    /// There is no such breakpoint, task, interrupt line, device or byte, or no earlier turn.
    Absent,
    /// The cursor, the time there in ticks, and why the run ends there, if it does.
    At {
        turn: u32,
        now: u64,
        end: Option<End>,
    },
    /// The cursor right after a turn that ran a task at a breakpoint.
    Hit {
        turn: u32,
        task: u16,
        at: u32,
    },
    /// The note that was sought, the first one in its turn, and that turn.
    Told {
        turn: u32,
        note: Note,
    },
    /// A turn that changed a byte, the task that ran in it, and the byte's old and new value.
    Changed {
        turn: u32,
        task: Option<u16>,
        at: u32,
        old: u8,
        new: u8,
    },
    /// The registers of a task.
    Registers {
        words: [u32; 16],
        flags: Flags,
    },
    /// The state of a task.
    Task {
        task: u16,
        view: TaskView,
    },
    /// The owner of an interrupt line, the bits that the owner gets, and the state of the line.
    Irq {
        line: u8,
        owner: u16,
        bits: u32,
        enabled: bool,
        pending: bool,
    },
    /// The state of a device. The bytes are the first 64 that wait in it.
    Device {
        device: u8,
        kind: Kind,
        base: u32,
        count: u32,
        queue: ArrayVec<u8, 64>,
    },
    /// Bytes from an address on.
    Bytes {
        at: u32,
        bytes: ArrayVec<u8, 64>,
    },
    /// The forms of the commands.
    Help,
    /// The session is over. This answer has no text.
    Over,
}

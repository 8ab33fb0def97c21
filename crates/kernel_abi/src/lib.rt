//! The words that a kernel and its tasks exchange: ids, faults, arguments of system calls, lease
//! entries, and the lines of a trace as data.
#![tactic(auto)]

ghost use Rattle.std.specs.Prelude.{◌≡◌, ◌+◌, ◌<◌, ◌≤◌, ◌^◌, IfSome, MatchOption, is_some, nat_le};
ghost use Rattle.kernel_abi.specs.Faults.{usage_number, reason_number, access_number};
ghost use Rattle.kernel_abi.specs.Ids.{index_of, generation_of, id_of, dead_code_of};
ghost use Rattle.kernel_abi.specs.Leases.{lease_entry};

mod arguments;
mod causes;
mod syscalls;

pub use arguments::{
    BorrowArgs, IdArgs, InfoArgs, IrqArgs, RecvArgs, ReplyArgs, SendArgs, TimerArgs,
};
pub use syscalls::{SYSCALL_SELECTOR, Syscall};

/// A task id of 16 bits: the task's index in bits 9..0, its generation in bits 15..10 (Hubris
/// Reference, on task ids).
#[derive(Clone, Copy, Debug, PartialEq, Eq)]
pub struct TaskId {
    pub number: u16,
}

/// How often a task was restarted, modulo 64.
#[derive(Clone, Copy, Debug, PartialEq, Eq)]
pub struct Generation {
    pub number: u8,
}

impl TaskId {
    /// The id of the kernel, as the recipient or the sender of a message.
    pub const KERNEL: u16 = 0xFFFF;

    /// The id that a register's low half holds.
    pub fn of(id: u16) -> TaskId
        ensures { result.number ≡ id }
    {
        TaskId { number: id }
    }

    /// The id of the task with this index at this generation. Only the low six bits of the
    /// generation are used.
    pub fn new(index: u16, generation: Generation) -> TaskId
        requires { index < 1024 }
        ensures { result.number ≡ id_of index generation.number }
    {
        TaskId {
            number: index + 1024 * u16::from(generation.number % 64),
        }
    }

    /// The index of the task, below 1,024. The application may have no task with this index.
    pub fn index(&self) -> u16
        ensures value { result ≡ index_of self.now.number }
        ensures small { result < 1024 }
    {
        self.number % 1024
    }

    /// The generation of the task, below 64.
    pub fn generation(&self) -> Generation
        ensures value { result.number ≡ generation_of self.now.number }
        ensures small { result.number < 64 }
    {
        Generation {
            number: (self.number / 1024) as u8,
        }
    }
}

/// The dead code, which a caller that names a dead id gets in r4: bits 31..8 are set, and the low
/// bits are the task's present generation (Hubris Reference, on task ids).
pub fn dead_code(g: Generation) -> u32
    ensures { result ≡ dead_code_of g.number }
{
    0xFFFF_FF00 + u32::from(g.number)
}

/// How a task misused a system call. This project chose the numbers.
#[derive(Clone, Copy, Debug, PartialEq, Eq)]
pub enum Usage {
    BadCall,
    BadTaskIndex,
    InvalidSlice,
    BadKernelMessage,
    NotSupervisor,
    NoIrq,
    OffsetOutOfRange,
    LeaseOutOfRange,
    ReplyTooBig,
    BadReason,
}

impl Usage {
    /// Its number, from 1 to 10.
    pub fn number(&self) -> u32
        ensures { result ≡ usage_number self.now }
    {
        match self {
            Usage::BadCall => 1,
            Usage::BadTaskIndex => 2,
            Usage::InvalidSlice => 3,
            Usage::BadKernelMessage => 4,
            Usage::NotSupervisor => 5,
            Usage::NoIrq => 6,
            Usage::OffsetOutOfRange => 7,
            Usage::LeaseOutOfRange => 8,
            Usage::ReplyTooBig => 9,
            Usage::BadReason => 10,
        }
    }
}

/// Why a server faults its client by REPLY_FAULT (Hubris Reference, on REPLY_FAULT).
#[derive(Clone, Copy, Debug, PartialEq, Eq)]
pub enum Reason {
    UndefinedOperation,
    BadMessageSize,
    BadMessageContents,
    BadLeases,
    ReplyBufferTooSmall,
    AccessViolation,
}

impl Reason {
    /// The reason with this number, or None if the number is above 5.
    pub fn of(value: u32) -> Option<Reason>
        ensures { MatchOption result (5 < value) (λ reason. reason_number reason ≡ value) }
    {
        match value {
            0 => Some(Reason::UndefinedOperation),
            1 => Some(Reason::BadMessageSize),
            2 => Some(Reason::BadMessageContents),
            3 => Some(Reason::BadLeases),
            4 => Some(Reason::ReplyBufferTooSmall),
            5 => Some(Reason::AccessViolation),
            _ => None,
        }
    }

    /// Its number, from 0 to 5.
    pub fn number(&self) -> u32
        ensures value { result ≡ reason_number self.now }
        ensures small { result ≤ 5 }
    {
        match self {
            Reason::UndefinedOperation => 0,
            Reason::BadMessageSize => 1,
            Reason::BadMessageContents => 2,
            Reason::BadLeases => 3,
            Reason::ReplyBufferTooSmall => 4,
            Reason::AccessViolation => 5,
        }
    }
}

/// Which access to a byte was not permitted.
#[derive(Clone, Copy, Debug, PartialEq, Eq)]
pub enum Access {
    /// By an instruction that loads.
    Load,
    /// By an instruction that stores.
    Store,
    /// By the kernel, which reads for a system call.
    KernelRead,
    /// By the kernel, which writes for a system call.
    KernelWrite,
}

impl Access {
    /// Its number, from 0 to 3.
    pub fn number(&self) -> u32
        ensures { result ≡ access_number self.now }
    {
        match self {
            Access::Load => 0,
            Access::Store => 1,
            Access::KernelRead => 2,
            Access::KernelWrite => 3,
        }
    }
}

/// Why a task faulted: a number from 1 to 10, and two words. The number says what the words mean.
#[derive(Clone, Copy, Debug, PartialEq, Eq)]
pub struct Fault {
    pub number: u8,
    pub x: u32,
    pub y: u32,
}

/// The health of a task.
#[derive(Clone, Copy, Debug, PartialEq, Eq)]
pub enum Health {
    Well,
    Stopped,
    Faulted(Fault),
}

/// A timer: the time at which bits are posted to the task, in ticks from the start, and these bits.
#[derive(Clone, Copy, Debug, PartialEq, Eq)]
pub struct Timer {
    pub deadline: u64,
    pub bits: u32,
}

/// A range of bytes that lies in the address space of 2^32 bytes.
#[derive(Clone, Copy, Debug, PartialEq, Eq)]
pub struct Range {
    pub base: u32,
    pub len: u64,
}

impl Range {
    /// The range, or None if it is invalid, which means that base + len is above 2^32.
    #[inline]
    pub fn of(base: u32, len: u64) -> Option<Range>
        ensures valid { MatchOption result (2 ^ 32 < base + len) (λ _. base + len ≤ 2 ^ 32) }
        ensures fits { is_some result ≡ nat_le (base + len) (2 ^ 32) }
        ensures value { IfSome result (λ range. range ≡ record { base = base; len = len }) }
    {
        if len <= 0x1_0000_0000 - u64::from(base) {
            Some(Range { base, len })
        } else {
            None
        }
    }
}

/// An entry of a lease table: bit 0 of the attributes lends for reading, bit 1 for writing.
#[derive(Clone, Copy, Debug, PartialEq, Eq)]
pub struct LeaseEntry {
    pub attributes: u32,
    pub base: u32,
    pub len: u32,
}

impl LeaseEntry {
    /// The entry in these bytes: three words, each little-endian.
    pub fn of(bytes: &[u8; 12]) -> LeaseEntry
        ensures { result ≡ lease_entry bytes.now }
    {
        LeaseEntry {
            attributes: u32::from_le_bytes([bytes[0], bytes[1], bytes[2], bytes[3]]),
            base: u32::from_le_bytes([bytes[4], bytes[5], bytes[6], bytes[7]]),
            len: u32::from_le_bytes([bytes[8], bytes[9], bytes[10], bytes[11]]),
        }
    }
}

/// What an interrupt did.
#[derive(Clone, Copy, PartialEq, Eq)]
pub enum Handled {
    /// Its line was enabled: the owner was posted.
    Posted,
    /// Its line was disabled: it is pending.
    Held,
    /// No task owns its line.
    Unowned,
}

/// Why an open call was closed.
#[derive(Clone, Copy, PartialEq, Eq)]
pub enum Ending {
    /// Its server made a REPLY.
    Reply,
    /// Its server made a REPLY_FAULT.
    ReplyFault,
    /// Its client faulted in another way.
    Client,
    /// Its client or its server was restarted.
    Restart,
}

/// Whose message a task listens for.
#[derive(Clone, Copy, PartialEq, Eq)]
pub enum FromIndex {
    /// The message of any task.
    Any,
    /// No message: the task listens only for notifications.
    Kernel,
    /// The message of the task with this index.
    One(u16),
}

/// What a server does with a lease of its client.
#[derive(Clone, Copy, PartialEq, Eq)]
pub enum Borrow {
    /// It reads bytes of the lease.
    Read,
    /// It writes bytes of the lease.
    Write,
    /// It gets the attributes and the length.
    Info,
}

/// The kind of a device. A console counts the bytes that are stored to it and gives them out. A
/// port keeps the bytes that come from outside until they are loaded.
#[derive(Clone, Copy, PartialEq, Eq)]
pub enum Kind {
    Console,
    Port,
}

/// What happened to a byte from outside: it is in the queue now, the queue was full, or the device
/// is no port.
#[derive(Clone, Copy, PartialEq, Eq)]
pub enum Fed {
    Queued,
    Full,
    NotPort,
}

/// A byte that a device has given out, with the device's index.
#[derive(Clone, Copy, PartialEq, Eq)]
pub struct Given {
    pub device: usize,
    pub byte: u8,
}

/// A line of the trace without its turn. The last four are only told with `--all`.
#[derive(Clone, Copy, PartialEq, Eq)]
pub enum Note {
    /// The time rose to this.
    Tick {
        now: u64,
    },
    /// An interrupt came on a line.
    Irq {
        line: u8,
        handled: Handled,
    },
    /// Bits were posted to a task. `posted` has all its posted bits after that, before it took any.
    Post {
        task: u16,
        bits: u32,
        posted: u32,
    },
    /// A task made a system call, with its r11 and its r4 to r10.
    Syscall {
        task: u16,
        number: u32,
        arguments: [u32; 7],
    },
    /// A system call of a task ended, with its r4 to r9.
    Ret {
        task: u16,
        results: [u32; 6],
    },
    /// An open call was closed.
    Close {
        call: u32,
        ending: Ending,
    },
    /// A task faulted.
    Fault {
        task: u16,
        fault: Fault,
    },
    /// A task listens, with a mask of notifications.
    Listen {
        task: u16,
        from: FromIndex,
        mask: u32,
    },
    /// A server took a call, and this many bytes were copied to it.
    Take {
        call: u32,
        copied: u32,
    },
    /// A client offers a call to a server.
    Offer {
        call: u32,
        client: u16,
        server: u16,
    },
    /// The server of an open call used one of its leases, from an offset on, and this many bytes
    /// were copied.
    Borrow {
        call: u32,
        borrow: Borrow,
        lease: u32,
        offset: u32,
        moved: u32,
    },
    /// A task was restarted; its generation from now on.
    Restart {
        task: u16,
        generation: u8,
    },
    /// A byte came from outside for a device; what happened to it, or None if there is no such
    /// device.
    In {
        device: u8,
        byte: u8,
        fed: Option<Fed>,
    },
    /// A device, by its index, gave out a byte.
    Out {
        device: usize,
        byte: u8,
    },
    /// A task asked for the state of its interrupt lines with these notification bits, and got this
    /// answer.
    IrqStatus {
        task: u16,
        bits: u32,
        status: u32,
    },
    /// The supervisor asked for the first faulted task from an index on, and got this index as the
    /// answer.
    Find {
        index: u16,
        found: u16,
    },
    /// A task runs the instruction at an address. It has one halfword or two; the first of two is
    /// in the high half.
    Insn {
        task: u16,
        at: u32,
        code: u32,
    },
    /// No task ran.
    Idle,
    /// The registers r0 to r7 of the task that ran.
    Low {
        registers: [u32; 8],
    },
    /// Its registers r8 to r15, and its flags.
    High {
        registers: [u32; 8],
        n: bool,
        z: bool,
        c: bool,
        v: bool,
    },
}

// A list of a fixed length has this note at the places where nothing was noted.
impl Default for Note {
    ghost use Rattle.kernel_abi.specs.Notes.{blank_note};

    ghost is_default = { λ note. note ≡ blank_note };

    fn default() -> Self {
        Note::Fault {
            task: 0,
            fault: Fault {
                number: 0,
                x: 0,
                y: 0,
            },
        }
    }
}

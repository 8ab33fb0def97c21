//! The arguments of system calls, read from the caller's registers r4 to r11 (Hubris Reference, on
//! system calls; this project chose which register holds which argument).
//!
//! Each `of` takes r4 to r11 in this order. It accepts every value. If a register holds only an id,
//! its bits above 15 are ignored.

ghost use Rattle.std.specs.Prelude.{◌≡◌, ◌+◌, ◌*◌, ◌/◌, ◌%◌, ◌<◌, ◌≤◌};
ghost use Rattle.kernel_abi.specs.Arguments.{register, low_half, high_half, send_args, recv_args, reply_args, timer_args, borrow_args, info_args, irq_args, id_args};

use crate::TaskId;

/// The register of this number.
fn register(registers: &[u32; 8], number: usize) -> u32
    requires from_r4 { 4 ≤ number }
    requires to_r11 { number < 12 }
    ensures { result ≡ register registers.now number }
{
    registers[number - 4]
}

/// Bits 15..0.
fn low_half(word: u32) -> u16
    ensures { result ≡ low_half word }
{
    (word % 0x1_0000) as u16
}

/// Bits 31..16.
fn high_half(word: u32) -> u16
    ensures { result ≡ high_half word }
{
    (word / 0x1_0000) as u16
}

/// SEND: the recipient and the operation, the message, the buffer for the reply, and the lease
/// table.
#[derive(Clone, Copy, PartialEq, Eq)]
pub struct SendArgs {
    pub recipient: TaskId,
    pub operation: u16,
    pub message_base: u32,
    pub message_length: u32,
    pub reply_base: u32,
    pub reply_capacity: u32,
    pub table: u32,
    pub leases: u32,
}

impl SendArgs {
    /// Reads r4 to r10.
    pub fn of(registers: &[u32; 8]) -> SendArgs
        ensures { result ≡ send_args registers.now }
    {
        let target = register(registers, 4);
        SendArgs {
            recipient: TaskId {
                number: high_half(target),
            },
            operation: low_half(target),
            message_base: register(registers, 5),
            message_length: register(registers, 6),
            reply_base: register(registers, 7),
            reply_capacity: register(registers, 8),
            table: register(registers, 9),
            leases: register(registers, 10),
        }
    }
}

/// RECV: the buffer for a message, the notifications that may wake the caller, and, if the RECV is
/// closed, the only sender whose messages it takes.
#[derive(Clone, Copy, PartialEq, Eq)]
pub struct RecvArgs {
    pub buffer_base: u32,
    pub buffer_length: u32,
    pub mask: u32,
    pub closed: bool,
    pub sender: TaskId,
}

impl RecvArgs {
    /// Reads r4 to r7.
    pub fn of(registers: &[u32; 8]) -> RecvArgs
        ensures { result ≡ recv_args registers.now }
    {
        let from = register(registers, 7);
        RecvArgs {
            buffer_base: register(registers, 4),
            buffer_length: register(registers, 5),
            mask: register(registers, 6),
            closed: from >= 0x8000_0000,
            sender: TaskId {
                number: low_half(from),
            },
        }
    }
}

/// REPLY: the client, the response code and the reply. REPLY_FAULT: the client, and as `code` the
/// number of the reason.
#[derive(Clone, Copy, PartialEq, Eq)]
pub struct ReplyArgs {
    pub client: TaskId,
    pub code: u32,
    pub reply_base: u32,
    pub reply_length: u32,
}

impl ReplyArgs {
    /// Reads r4 to r7.
    pub fn of(registers: &[u32; 8]) -> ReplyArgs
        ensures { result ≡ reply_args registers.now }
    {
        ReplyArgs {
            client: TaskId {
                number: low_half(register(registers, 4)),
            },
            code: register(registers, 5),
            reply_base: register(registers, 6),
            reply_length: register(registers, 7),
        }
    }
}

/// SET_TIMER: whether to set or to clear, the deadline in ticks, and the bits to post then.
#[derive(Clone, Copy, PartialEq, Eq)]
pub struct TimerArgs {
    pub set: bool,
    pub deadline: u64,
    pub bits: u32,
}

impl TimerArgs {
    /// Reads r4 to r7. The low word of the deadline comes first.
    pub fn of(registers: &[u32; 8]) -> TimerArgs
        ensures { result ≡ timer_args registers.now }
    {
        TimerArgs {
            set: register(registers, 4) != 0,
            deadline: u64::from(register(registers, 5))
                + 0x1_0000_0000 * u64::from(register(registers, 6)),
            bits: register(registers, 7),
        }
    }
}

/// BORROW_READ and BORROW_WRITE: the lender, the index of the lease, the offset in the lease at
/// which to begin, and the caller's buffer.
#[derive(Clone, Copy, PartialEq, Eq)]
pub struct BorrowArgs {
    pub lender: TaskId,
    pub lease: u32,
    pub offset: u32,
    pub buffer_base: u32,
    pub buffer_length: u32,
}

impl BorrowArgs {
    /// Reads r4 to r8.
    pub fn of(registers: &[u32; 8]) -> BorrowArgs
        ensures { result ≡ borrow_args registers.now }
    {
        BorrowArgs {
            lender: TaskId {
                number: low_half(register(registers, 4)),
            },
            lease: register(registers, 5),
            offset: register(registers, 6),
            buffer_base: register(registers, 7),
            buffer_length: register(registers, 8),
        }
    }
}

/// BORROW_INFO: the lender and the index of the lease.
#[derive(Clone, Copy, PartialEq, Eq)]
pub struct InfoArgs {
    pub lender: TaskId,
    pub lease: u32,
}

impl InfoArgs {
    /// Reads r4 and r5.
    pub fn of(registers: &[u32; 8]) -> InfoArgs
        ensures { result ≡ info_args registers.now }
    {
        InfoArgs {
            lender: TaskId {
                number: low_half(register(registers, 4)),
            },
            lease: register(registers, 5),
        }
    }
}

/// IRQ_CONTROL and IRQ_STATUS: the notification bits of the caller's interrupt lines, and for
/// IRQ_CONTROL whether to enable these lines.
#[derive(Clone, Copy, PartialEq, Eq)]
pub struct IrqArgs {
    pub bits: u32,
    pub enable: bool,
}

impl IrqArgs {
    /// Reads r4 and bit 0 of r5.
    pub fn of(registers: &[u32; 8]) -> IrqArgs
        ensures { result ≡ irq_args registers.now }
    {
        IrqArgs {
            bits: register(registers, 4),
            enable: register(registers, 5) % 2 == 1,
        }
    }
}

/// REFRESH_TASK_ID and POST: which task, and for POST the bits.
#[derive(Clone, Copy, PartialEq, Eq)]
pub struct IdArgs {
    pub id: TaskId,
    pub bits: u32,
}

impl IdArgs {
    /// Reads r4 and r5.
    pub fn of(registers: &[u32; 8]) -> IdArgs
        ensures { result ≡ id_args registers.now }
    {
        IdArgs {
            id: TaskId {
                number: low_half(register(registers, 4)),
            },
            bits: register(registers, 5),
        }
    }
}

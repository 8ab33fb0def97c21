//! The system calls by their names and numbers.

ghost use Rattle.std.specs.Prelude.{◌≡◌, ◌<◌, MatchOption};
ghost use Rattle.kernel_abi.specs.Syscalls.{syscall_number};

/// The register that holds the number of a system call. This project chose the register.
pub const SYSCALL_SELECTOR: usize = 11;

/// A system call. The numbers 0 to 8 are those of the Hubris Reference; this project added 9 to 13.
#[derive(Clone, Copy, PartialEq, Eq)]
pub enum Syscall {
    Send,
    Recv,
    Reply,
    SetTimer,
    BorrowRead,
    BorrowWrite,
    BorrowInfo,
    IrqControl,
    Panic,
    GetTimer,
    RefreshTaskId,
    Post,
    ReplyFault,
    IrqStatus,
}

impl Syscall {
    /// The system call with this number, or None if there is none.
    pub fn of(number: u32) -> Option<Syscall>
        ensures { MatchOption result (13 < number) (λ syscall. syscall_number syscall ≡ number) }
    {
        match number {
            0 => Some(Syscall::Send),
            1 => Some(Syscall::Recv),
            2 => Some(Syscall::Reply),
            3 => Some(Syscall::SetTimer),
            4 => Some(Syscall::BorrowRead),
            5 => Some(Syscall::BorrowWrite),
            6 => Some(Syscall::BorrowInfo),
            7 => Some(Syscall::IrqControl),
            8 => Some(Syscall::Panic),
            9 => Some(Syscall::GetTimer),
            10 => Some(Syscall::RefreshTaskId),
            11 => Some(Syscall::Post),
            12 => Some(Syscall::ReplyFault),
            13 => Some(Syscall::IrqStatus),
            _ => None,
        }
    }
}

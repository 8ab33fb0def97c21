//! The processor's part of a task.
ghost use Rattle.std.specs.Prelude.{◌≡◌};

use crate::lazy_flags::LazyFlags;
use kernel_abi::Fault;
use words_core::Regs;

/// Registers r0 to r15 (13 is SP, 14 LR, 15 PC: the address of the instruction) and flags.
#[derive(Drop)]
pub struct Cpu {
    pub regs: Regs,
    pub flags: LazyFlags,
}

impl Cpu {
    /// A second processor with the same registers and flags.
    #[inline(always)]
    pub fn copied(&self) -> Cpu
        ensures { result ≡ self.now }
    {
        Cpu {
            regs: self.regs,
            flags: self.flags.copied(),
        }
    }
}

/// How an instruction ends: done, as a system call, or in a fault.
#[derive(Clone, Copy, PartialEq, Eq)]
pub enum Outcome {
    Next,
    Call,
    Trap(Fault),
}

//! The faults by their causes.

ghost use Rattle.std.specs.Prelude.{◌≡◌};
ghost use Rattle.kernel_abi.specs.Faults.{illegal_fault, illegal_text_fault, access_fault, unaligned_fault, state_fault, breakpoint_fault, usage_fault, panic_fault, injected_fault, reply_fault};

use crate::{Access, Fault, Reason, TaskId, Usage};

impl Fault {
    /// No instruction at this address.
    pub fn illegal(at: u32) -> Fault
        ensures { result ≡ illegal_fault at }
    {
        Fault {
            number: 1,
            x: at,
            y: 0,
        }
    }

    /// The halfword at this address may not be executed.
    pub fn illegal_text(at: u32) -> Fault
        ensures { result ≡ illegal_text_fault at }
    {
        Fault {
            number: 2,
            x: at,
            y: 0,
        }
    }

    /// The byte at this address was not permitted.
    pub fn access(at: u32, access: Access) -> Fault
        ensures { result ≡ access_fault at access }
    {
        Fault {
            number: 3,
            x: at,
            y: access.number(),
        }
    }

    /// The address is no multiple of the size of a load or a store.
    pub fn unaligned(at: u32, is_store: bool) -> Fault
        ensures { result ≡ unaligned_fault at is_store }
    {
        Fault {
            number: 4,
            x: at,
            y: u32::from(is_store),
        }
    }

    /// A branch to a target whose bit 0 is clear.
    pub fn state(target: u32) -> Fault
        ensures { result ≡ state_fault target }
    {
        Fault {
            number: 5,
            x: target,
            y: 0,
        }
    }

    /// A breakpoint with this immediate.
    pub fn breakpoint(immediate: u32) -> Fault
        ensures { result ≡ breakpoint_fault immediate }
    {
        Fault {
            number: 6,
            x: immediate,
            y: 0,
        }
    }

    /// A system call that was misused.
    pub fn usage(usage: Usage) -> Fault
        ensures { result ≡ usage_fault usage }
    {
        Fault {
            number: 7,
            x: usage.number(),
            y: 0,
        }
    }

    /// The task made the system call PANIC, with these values in r4 and r5.
    pub fn panic(r4: u32, r5: u32) -> Fault
        ensures { result ≡ panic_fault r4 r5 }
    {
        Fault {
            number: 8,
            x: r4,
            y: r5,
        }
    }

    /// The supervisor made the task fault, by a message to the kernel.
    pub fn injected() -> Fault
        ensures { result ≡ injected_fault }
    {
        Fault {
            number: 9,
            x: 0,
            y: 0,
        }
    }

    /// A server made its client fault, by REPLY_FAULT.
    pub fn reply_fault(server: TaskId, reason: Reason) -> Fault
        ensures { result ≡ reply_fault server reason }
    {
        Fault {
            number: 10,
            x: u32::from(server.number),
            y: reason.number(),
        }
    }
}

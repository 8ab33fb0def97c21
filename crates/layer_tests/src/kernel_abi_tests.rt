//! Tests the layouts and numbers of the kernel's interface, and which argument each call takes from
//! which register.
use kernel_abi::{
    Access, BorrowArgs, Fault, Generation, IdArgs, InfoArgs, IrqArgs, LeaseEntry, Note, Range,
    Reason, RecvArgs, ReplyArgs, SYSCALL_SELECTOR, SendArgs, Syscall, TaskId, TimerArgs, Usage,
    dead_code,
};

// Each register holds a different number, so that a test fails if two are swapped.
const REGISTERS: [u32; 8] = [
    0x0402_0C05,
    0x5555_0001,
    0x6666_0002,
    0x8007_0803,
    0x8888_0004,
    0x9999_0005,
    0xAAAA_0006,
    0x0000_0000,
];

#[test]
fn ids(rt: HostRuntime) {
    let id = TaskId::of(0x0C05);
    let kernel = TaskId::of(TaskId::KERNEL);
    let found = (
        TaskId::new(5, Generation { number: 3 }).number,
        id.index(),
        id.generation().number,
        kernel.index(),
        kernel.generation().number,
        dead_code(Generation { number: 1 }),
        dead_code(Generation { number: 63 }),
    );
    assert!(rt; found == (0x0C05, 5, 3, 1023, 63, 0xFFFF_FF01, 0xFFFF_FF3F));
}

/// A fault with any number.
fn fault(number: u8, x: u32, y: u32) -> Fault {
    Fault { number, x, y }
}

#[test]
fn faults(rt: HostRuntime) {
    let found = [
        Fault::illegal(0x0800_0000),
        Fault::illegal_text(0x0800_0100),
        Fault::access(0, Access::Load),
        Fault::access(0x1FFF_FFFC, Access::Store),
        Fault::access(0, Access::KernelRead),
        Fault::access(0, Access::KernelWrite),
        Fault::unaligned(0, false),
        Fault::unaligned(0x2000_0001, true),
        Fault::state(0x0800_0002),
        Fault::breakpoint(255),
        Fault::usage(Usage::ReplyTooBig),
        Fault::panic(1, 2),
        Fault::injected(),
        Fault::reply_fault(TaskId::of(0x0402), Reason::BadLeases),
    ];
    let wanted = [
        fault(1, 0x0800_0000, 0),
        fault(2, 0x0800_0100, 0),
        fault(3, 0, 0),
        fault(3, 0x1FFF_FFFC, 1),
        fault(3, 0, 2),
        fault(3, 0, 3),
        fault(4, 0, 0),
        fault(4, 0x2000_0001, 1),
        fault(5, 0x0800_0002, 0),
        fault(6, 255, 0),
        fault(7, 9, 0),
        fault(8, 1, 2),
        fault(9, 0, 0),
        fault(10, 0x0402, 3),
    ];
    assert!(rt; found == wanted);
}

#[test]
fn misuses(rt: HostRuntime) {
    let usages = [
        Usage::BadCall,
        Usage::BadTaskIndex,
        Usage::InvalidSlice,
        Usage::BadKernelMessage,
        Usage::NotSupervisor,
        Usage::NoIrq,
        Usage::OffsetOutOfRange,
        Usage::LeaseOutOfRange,
        Usage::ReplyTooBig,
        Usage::BadReason,
    ];
    assert!(rt; usages.map(|usage| usage.number()) == [1, 2, 3, 4, 5, 6, 7, 8, 9, 10]);
}

#[test]
fn reasons(rt: HostRuntime) {
    let found = [
        Reason::of(0),
        Reason::of(1),
        Reason::of(2),
        Reason::of(3),
        Reason::of(4),
        Reason::of(5),
        Reason::of(6),
        Reason::of(u32::MAX),
    ];
    let wanted = [
        Some(Reason::UndefinedOperation),
        Some(Reason::BadMessageSize),
        Some(Reason::BadMessageContents),
        Some(Reason::BadLeases),
        Some(Reason::ReplyBufferTooSmall),
        Some(Reason::AccessViolation),
        None,
        None,
    ];
    assert!(rt; found == wanted);
    assert!(rt; Reason::AccessViolation.number() == 5);
}

#[test]
fn syscalls(rt: HostRuntime) {
    let numbers = [0, 1, 2, 3, 4, 5, 6, 7, 8, 9, 10, 11, 12, 13, 14, u32::MAX];
    let wanted = [
        Some(Syscall::Send),
        Some(Syscall::Recv),
        Some(Syscall::Reply),
        Some(Syscall::SetTimer),
        Some(Syscall::BorrowRead),
        Some(Syscall::BorrowWrite),
        Some(Syscall::BorrowInfo),
        Some(Syscall::IrqControl),
        Some(Syscall::Panic),
        Some(Syscall::GetTimer),
        Some(Syscall::RefreshTaskId),
        Some(Syscall::Post),
        Some(Syscall::ReplyFault),
        Some(Syscall::IrqStatus),
        None,
        None,
    ];
    assert!(rt; numbers.map(|number| Syscall::of(number)) == wanted);
    assert!(rt; SYSCALL_SELECTOR == 11);
}

// The last word of the address space, and all of it.
#[test]
fn ranges(rt: HostRuntime) {
    let found = [
        Range::of(0xFFFF_FFFC, 4),
        Range::of(0xFFFF_FFFC, 5),
        Range::of(0, 0x1_0000_0000),
        Range::of(0, 0x1_0000_0001),
        Range::of(u32::MAX, u64::MAX),
    ];
    let last = Range {
        base: 0xFFFF_FFFC,
        len: 4,
    };
    let whole = Range {
        base: 0,
        len: 0x1_0000_0000,
    };
    assert!(rt; found == [Some(last), None, Some(whole), None, None]);
}

#[test]
fn lease_entries_and_notes(rt: HostRuntime) {
    let entry = LeaseEntry::of(&[1, 0, 0, 0, 0x80, 1, 0, 0x20, 4, 0, 0, 0]);
    let wanted = LeaseEntry {
        attributes: 1,
        base: 0x2000_0180,
        len: 4,
    };
    assert!(rt; entry == wanted);
    let call = Note::Syscall {
        task: 1,
        number: 0,
        arguments: [0x0002_0005, 0x2000_0140, 10, 0, 0, 0, 0],
    };
    assert!(rt; call != Note::default());
}

#[test]
fn send(rt: HostRuntime) {
    let wanted = SendArgs {
        recipient: TaskId { number: 0x0402 },
        operation: 0x0C05,
        message_base: 0x5555_0001,
        message_length: 0x6666_0002,
        reply_base: 0x8007_0803,
        reply_capacity: 0x8888_0004,
        table: 0x9999_0005,
        leases: 0xAAAA_0006,
    };
    assert!(rt; SendArgs::of(&REGISTERS) == wanted);
}

#[test]
fn recv(rt: HostRuntime) {
    let wanted = RecvArgs {
        buffer_base: 0x0402_0C05,
        buffer_length: 0x5555_0001,
        mask: 0x6666_0002,
        closed: true,
        sender: TaskId { number: 0x0803 },
    };
    assert!(rt; RecvArgs::of(&REGISTERS) == wanted);
    assert!(rt; !RecvArgs::of(&[0, 0, 0, 0x7FFF_FFFF, 0, 0, 0, 0]).closed);
}

#[test]
fn reply_and_timer(rt: HostRuntime) {
    let reply = ReplyArgs {
        client: TaskId { number: 0x0C05 },
        code: 0x5555_0001,
        reply_base: 0x6666_0002,
        reply_length: 0x8007_0803,
    };
    assert!(rt; ReplyArgs::of(&REGISTERS) == reply);
    let timer = TimerArgs {
        set: true,
        deadline: 0x6666_0002_5555_0001,
        bits: 0x8007_0803,
    };
    assert!(rt; TimerArgs::of(&REGISTERS) == timer);
    assert!(rt; !TimerArgs::of(&[0, 1, 1, 1, 1, 1, 1, 1]).set);
}

#[test]
fn borrow(rt: HostRuntime) {
    let lender = TaskId { number: 0x0C05 };
    let borrow = BorrowArgs {
        lender,
        lease: 0x5555_0001,
        offset: 0x6666_0002,
        buffer_base: 0x8007_0803,
        buffer_length: 0x8888_0004,
    };
    assert!(rt; BorrowArgs::of(&REGISTERS) == borrow);
    let info = InfoArgs {
        lender,
        lease: 0x5555_0001,
    };
    assert!(rt; InfoArgs::of(&REGISTERS) == info);
}

#[test]
fn lines_and_ids(rt: HostRuntime) {
    let irq = IrqArgs {
        bits: 0x0402_0C05,
        enable: true,
    };
    assert!(rt; IrqArgs::of(&REGISTERS) == irq);
    assert!(rt; !IrqArgs::of(&[2, 2, 1, 1, 1, 1, 1, 1]).enable);
    let id = IdArgs {
        id: TaskId { number: 0x0C05 },
        bits: 0x5555_0001,
    };
    assert!(rt; IdArgs::of(&REGISTERS) == id);
}

//! The names of system calls and faults in a timeline (docs/FORMATS.md, Timeline).
ghost use Rattle.std.specs.Prelude.{◌≡◌, ◌≤◌, ◌+◌, ◌++◌, IfSome, length, codes, decimal, option_map};
ghost use Rattle.arrayvec.specs.ArrayString.{array_string_len};
ghost use Rattle.trace_text.specs.Text.{spaced_hex};
ghost use Rattle.run_lanes.specs.Names.{access_name, access_text, call_name, fault_name, named_text, numbers_text, plain_text, reason_name, reply_fault_text, syscall_name, unaligned_name, usage_name, usage_text};

use arrayvec::ArrayString;
use kernel_abi::{Fault, Reason, Syscall};
use trace_text::{push_decimal, push_spaced_hex};

type Line = ArrayString<160>;

// The name of the system call with this number.
#[tactic(auto, unfolding(crate::specs::Names::call_name))]
fn call_name(number: u32) -> Option<&'static str>
    ensures name { option_map (λ name. name.now) result ≡ call_name number }
    ensures short { IfSome result (λ name. length name.now ≤ 19) }
{
    let name = match Syscall::of(number)? {
        Syscall::Send => "SEND",
        Syscall::Recv => "RECV",
        Syscall::Reply => "REPLY",
        Syscall::SetTimer => "SET_TIMER",
        Syscall::BorrowRead => "BORROW_READ",
        Syscall::BorrowWrite => "BORROW_WRITE",
        Syscall::BorrowInfo => "BORROW_INFO",
        Syscall::IrqControl => "IRQ_CONTROL",
        Syscall::Panic => "PANIC",
        Syscall::GetTimer => "GET_TIMER",
        Syscall::RefreshTaskId => "REFRESH_TASK_ID",
        Syscall::Post => "POST",
        Syscall::ReplyFault => "REPLY_FAULT",
        Syscall::IrqStatus => "IRQ_STATUS",
    };
    Some(name)
}

// The name of the misuse with this number.
#[tactic(auto, unfolding(crate::specs::Names::usage_name))]
fn usage_name(number: u32) -> Option<&'static str>
    ensures name { option_map (λ name. name.now) result ≡ usage_name number }
    ensures short { IfSome result (λ name. length name.now ≤ 19) }
{
    match number {
        1 => Some("BadCall"),
        2 => Some("BadTaskIndex"),
        3 => Some("InvalidSlice"),
        4 => Some("BadKernelMessage"),
        5 => Some("NotSupervisor"),
        6 => Some("NoIrq"),
        7 => Some("OffsetOutOfRange"),
        8 => Some("LeaseOutOfRange"),
        9 => Some("ReplyTooBig"),
        10 => Some("BadReason"),
        _ => None,
    }
}

// The name of the reason with this number.
#[tactic(auto, unfolding(crate::specs::Names::reason_name))]
fn reason_name(number: u32) -> Option<&'static str>
    ensures name { option_map (λ name. name.now) result ≡ reason_name number }
    ensures short { IfSome result (λ name. length name.now ≤ 19) }
{
    let name = match Reason::of(number)? {
        Reason::UndefinedOperation => "UndefinedOperation",
        Reason::BadMessageSize => "BadMessageSize",
        Reason::BadMessageContents => "BadMessageContents",
        Reason::BadLeases => "BadLeases",
        Reason::ReplyBufferTooSmall => "ReplyBufferTooSmall",
        Reason::AccessViolation => "AccessViolation",
    };
    Some(name)
}

// The access with this number, as y of Access has it.
#[tactic(auto, unfolding(crate::specs::Names::access_name))]
fn access_name(number: u32) -> Option<&'static str>
    ensures name { option_map (λ name. name.now) result ≡ access_name number }
    ensures short { IfSome result (λ name. length name.now ≤ 19) }
{
    match number {
        0 => Some("load"),
        1 => Some("store"),
        2 => Some("kernel read"),
        3 => Some("kernel write"),
        _ => None,
    }
}

// The access with this number, as y of Unaligned has it.
#[tactic(auto, unfolding(crate::specs::Names::unaligned_name))]
fn unaligned_name(number: u32) -> Option<&'static str>
    ensures name { option_map (λ name. name.now) result ≡ unaligned_name number }
    ensures short { IfSome result (λ name. length name.now ≤ 19) }
{
    match number {
        0 => Some("load"),
        1 => Some("store"),
        _ => None,
    }
}

/// A system call by its name, or by its number if it has no name.
#[tactic(auto, unfolding(crate::specs::Names::syscall_name))]
pub fn push_call(number: u32, out: &mut Line)
    requires room { array_string_len out.old + 60 ≤ 160 }
    ensures bytes { out.new.bytes ≡ out.old.bytes ++ syscall_name number }
    ensures len { array_string_len out.new ≤ array_string_len out.old + 60 }
{
    match call_name(number) {
        Some(name) => out.push_str(name),
        None => {
            out.push_str("call ");
            push_decimal(out, u64::from(number));
        }
    }
}

// A fault by its numbers.
#[tactic(auto, unfolding(crate::specs::Names::numbers_text))]
fn push_numbers(fault: &Fault, out: &mut Line)
    requires room { array_string_len out.old + 60 ≤ 160 }
    ensures bytes { out.new.bytes ≡ out.old.bytes ++ numbers_text fault.now }
    ensures len { array_string_len out.new ≤ array_string_len out.old + 60 }
{
    out.push_str("fault ");
    push_decimal(out, u64::from(fault.number));
    push_spaced_hex(out, fault.x);
    push_spaced_hex(out, fault.y);
}

// A word, and x of a fault.
#[tactic(auto, unfolding(crate::specs::Names::plain_text))]
fn push_plain(word: &str, x: u32, out: &mut Line)
    requires word { length word.now ≤ 19 }
    requires room { array_string_len out.old + 28 ≤ 160 }
    ensures bytes { out.new.bytes ≡ out.old.bytes ++ plain_text word.now x }
    ensures len { array_string_len out.new ≤ array_string_len out.old + 28 }
{
    out.push_str(word);
    push_spaced_hex(out, x);
}

// A fault of an access to an address.
fn push_access(word: &str, name: Option<&'static str>, fault: &Fault, out: &mut Line)
    requires word { length word.now ≤ 11 }
    requires short { IfSome name (λ name. length name.now ≤ 19) }
    requires room { array_string_len out.old + 60 ≤ 160 }
    ensures bytes { out.new.bytes ≡ out.old.bytes
        ++ access_text word.now fault.now (option_map (λ name. name.now) name.entry) }
    ensures len { array_string_len out.new ≤ array_string_len out.old + 60 }
{
    match name {
        Some(name) => {
            push_plain(word, fault.x, out);
            out.push_str(" ");
            out.push_str(name);
        }
        None => push_numbers(fault, out),
    }
}

// The misuse of a system call.
fn push_usage(name: Option<&'static str>, fault: &Fault, out: &mut Line)
    requires short { IfSome name (λ name. length name.now ≤ 19) }
    requires room { array_string_len out.old + 60 ≤ 160 }
    ensures bytes { out.new.bytes ≡ out.old.bytes
        ++ usage_text fault.now (option_map (λ name. name.now) name.entry) }
    ensures len { array_string_len out.new ≤ array_string_len out.old + 60 }
{
    match name {
        Some(name) => {
            out.push_str("Usage ");
            out.push_str(name);
        }
        None => push_numbers(fault, out),
    }
}

// A word, a name, and x of a fault.
#[tactic(auto, unfolding(crate::specs::Names::named_text))]
fn push_named(word: &str, name: &str, x: u32, out: &mut Line)
    requires word { length word.now ≤ 11 }
    requires name { length name.now ≤ 19 }
    requires room { array_string_len out.old + 60 ≤ 160 }
    ensures bytes { out.new.bytes ≡ out.old.bytes ++ named_text word.now name.now x }
    ensures len { array_string_len out.new ≤ array_string_len out.old + 60 }
{
    out.push_str(word);
    push_plain(name, x, out);
}

// A fault that a server made, with the reason and the server's id.
fn push_reply_fault(name: Option<&'static str>, fault: &Fault, out: &mut Line)
    requires short { IfSome name (λ name. length name.now ≤ 19) }
    requires room { array_string_len out.old + 60 ≤ 160 }
    ensures bytes { out.new.bytes ≡ out.old.bytes
        ++ reply_fault_text fault.now (option_map (λ name. name.now) name.entry) }
    ensures len { array_string_len out.new ≤ array_string_len out.old + 60 }
{
    match name {
        Some(name) => push_named("ReplyFault ", name, fault.x, out),
        None => push_numbers(fault, out),
    }
}

// The immediate of a breakpoint.
fn push_breakpoint(immediate: u32, out: &mut Line)
    requires room { array_string_len out.old + 60 ≤ 160 }
    ensures bytes { out.new.bytes ≡ out.old.bytes ++ codes "Breakpoint " ++ decimal immediate }
    ensures len { array_string_len out.new ≤ array_string_len out.old + 60 }
{
    out.push_str("Breakpoint ");
    push_decimal(out, u64::from(immediate));
}

// A task's own PANIC, with its r4 and r5.
fn push_panic(r4: u32, r5: u32, out: &mut Line)
    requires room { array_string_len out.old + 60 ≤ 160 }
    ensures bytes { out.new.bytes ≡ out.old.bytes ++ plain_text (codes "Panic") r4
        ++ spaced_hex r5 }
    ensures len { array_string_len out.new ≤ array_string_len out.old + 60 }
{
    push_plain("Panic", r4, out);
    push_spaced_hex(out, r5);
}

/// A fault in words, or by its numbers if one of them has no name.
#[tactic(auto, unfolding(crate::specs::Names::fault_name, crate::specs::Names::fault_text))]
pub fn push_fault(fault: &Fault, out: &mut Line)
    requires room { array_string_len out.old + 60 ≤ 160 }
    ensures bytes { out.new.bytes ≡ out.old.bytes ++ fault_name fault.now }
    ensures len { array_string_len out.new ≤ array_string_len out.old + 60 }
{
    match fault.number {
        1 => push_plain("Illegal", fault.x, out),
        2 => push_plain("IllegalText", fault.x, out),
        3 => push_access("Access", access_name(fault.y), fault, out),
        4 => push_access("Unaligned", unaligned_name(fault.y), fault, out),
        5 => push_plain("State", fault.x, out),
        6 => push_breakpoint(fault.x, out),
        7 => push_usage(usage_name(fault.x), fault, out),
        8 => push_panic(fault.x, fault.y, out),
        9 => out.push_str("Injected"),
        10 => push_reply_fault(reason_name(fault.y), fault, out),
        _ => push_numbers(fault, out),
    }
}

//! Kernel messages.

ghost use Rattle.std.specs.Prelude.{◌≡◌, ◌+◌, ◌<◌, ◌≤◌, ◌^◌, Some, Option};
ghost use Rattle.std.specs.Option.{option_map};
ghost use Rattle.mem_banks.specs.Memory.{IsWithinRam};
ghost use Rattle.task_table.specs.model.State.{Setup, Turn};
ghost use Rattle.task_table.specs.model.Reading.{is_faulted};
ghost use Rattle.task_table.specs.model.Requests.{request_of, word_bytes, status_bytes, injected, first_faulted, fault_found, served, requested};
ghost use Rattle.task_table.specs.kept.Holds.{Holds, Stands, StandsForSome, task_count, note_count, memory_of};
ghost use Rattle.task_table.specs.kept.Limits.{syscall_notes, turn_notes};
ghost use Rattle.task_table.specs.kept.Frames.{AddsNotes, AddsAtMost};
ghost use Rattle.task_table.specs.kept.Calls.{MayCall, Performs};
ghost use Rattle.fault_supervisor.specs.Restarts.{restart_notes};
ghost use Rattle.fault_supervisor.specs.Meanings.{meaning, status_words, heard};

use crate::rebirth::restart;
use kernel_abi::{Access, Fault, Health, Note, SendArgs, Usage};
use region_check::Right;
use task_table::{Kernel, Slice};

/// What a kernel message asks for.
#[derive(Clone, Copy)]
enum Request {
    /// The status of a task.
    Status,
    /// The restart of a task.
    Restart,
    /// A fault of a task.
    Fault,
    /// The search for a task that has faulted.
    Find,
}

impl Request {
    /// The request with a number.
    fn of(operation: u16) -> Option<Request>
        ensures { option_map meaning result ≡ request_of operation }
    {
        match operation {
            1 => Some(Request::Status),
            2 => Some(Request::Restart),
            3 => Some(Request::Fault),
            9 => Some(Request::Find),
            _ => None,
        }
    }

    /// How many bytes the message has.
    fn message_length(self) -> u32
        ensures { result ≡ (meaning self).message }
    {
        match self {
            Request::Status => 4,
            Request::Restart => 8,
            Request::Fault => 4,
            Request::Find => 4,
        }
    }

    /// How many bytes the answer has.
    fn reply_length(self) -> u32
        ensures { result ≡ (meaning self).reply }
    {
        match self {
            Request::Status => 16,
            Request::Restart => 0,
            Request::Fault => 0,
            Request::Find => 4,
        }
    }

    /// Whether the request may be about the supervisor itself.
    fn is_on_supervisor(self) -> bool
        ensures { result ≡ (meaning self).on_supervisor }
    {
        match self {
            Request::Status => true,
            Request::Restart => false,
            Request::Fault => false,
            Request::Find => true,
        }
    }
}

/// The status of a task in four words: 0 well, 1 stopped, 2 faulted; then for a fault its number, x
/// and y.
fn words_of(health: Health) -> [u32; 4]
    ensures { result ≡ status_words health }
{
    match health {
        Health::Well => [0, 0, 0, 0],
        Health::Stopped => [1, 0, 0, 0],
        Health::Faulted(fault) => [2, u32::from(fault.number), fault.x, fault.y],
    }
}

/// The four bytes of a word, the lowest first.
fn word_bytes(word: u32) -> [u8; 4]
    ensures { result ≡ word_bytes word }
{
    word.to_le_bytes()
}

/// The status of a task, in sixteen bytes.
fn status_of(health: Health) -> [u8; 16]
    ensures { result ≡ status_bytes health }
{
    let words = words_of(health);
    let [a, b, c, d] = word_bytes(words[0]);
    let [e, f, g, h] = word_bytes(words[1]);
    let [i, j, k, l] = word_bytes(words[2]);
    let [m, n, o, p] = word_bytes(words[3]);
    [a, b, c, d, e, f, g, h, i, j, k, l, m, n, o, p]
}

/// Makes a task fault; a task that has faulted does not change (Hubris Reference, on supervision).
pub fn inject(k: &mut Kernel, task: usize)
    requires there { task < task_count k.old }
    requires room { note_count k.old + 4 ≤ turn_notes }
    ensures holds { (g : Setup) (t : Turn) → Holds g k.old t → Holds g k.new (injected g task t) }
    ensures stands { (g : Setup) (t : Turn) → Stands g k.old t →
        Stands g k.new (injected g task t) }
    ensures frame { AddsAtMost k.old 4 k.new }
{
    match k.health(task) {
        Health::Faulted(_) => {}
        Health::Well => k.fault(task, Fault::injected()),
        Health::Stopped => k.fault(task, Fault::injected()),
    }
}

/// Whether this health is a fault.
fn is_faulted(health: Health) -> bool
    ensures { result ≡ is_faulted health }
{
    matches!(health, Health::Faulted(_))
}

/// The first task from an index on that has faulted, or 0 if there is none.
fn first_faulted(k: &Kernel, index: usize) -> usize
    requires { index < task_count k.now }
    ensures small { result < task_count k.now }
    ensures value { (g : Setup) (t : Turn) → Holds g k.now t →
        result ≡ first_faulted t.state index }
{
    for task in index..k.task_count() {
        if is_faulted(k.health(task)) {
            return task;
        }
    }
    0
}

/// Answers a search for a faulted task from an index on, and notes it.
fn find_fault(k: &mut Kernel, args: &SendArgs, index: usize)
    requires there { index < task_count k.old }
    requires room { note_count k.old + 1 ≤ turn_notes }
    requires reply { IsWithinRam (memory_of k.old) args.now.reply_base 4 }
    ensures holds { (g : Setup) (t : Turn) → Holds g k.old t →
        Holds g k.new (fault_found args.now index t) }
    ensures frame { AddsNotes k.old 1 k.new }
{
    let found = first_faulted(k, index);
    let answer = word_bytes(found as u32);
    k.store(args.reply_base, &answer);
    k.note(Note::Find {
        index: index as u16,
        found: found as u16,
    });
}

/// The table of operations: what a request does to a task.
fn carry_out(k: &mut Kernel, args: &SendArgs, request: Request, task: usize)
    requires there { task < task_count k.old }
    requires room { note_count k.old + restart_notes ≤ turn_notes }
    requires message { args.now.message_base + (meaning request).message ≤ 2 ^ 32 }
    requires reply { IsWithinRam (memory_of k.old) args.now.reply_base (meaning request).reply }
    ensures holds { (g : Setup) (t : Turn) → Stands g k.old t →
        Holds g k.new ((meaning request).does g args.now task t) }
    ensures frame { AddsAtMost k.old restart_notes k.new }
{
    match request {
        Request::Status => {
            let status = status_of(k.health(task));
            k.store(args.reply_base, &status);
        }
        Request::Restart => {
            let start = k.number(args.message_base + 4, 4);
            restart(k, task, start != 0);
        }
        Request::Fault => inject(k, task),
        Request::Find => find_fault(k, args, task),
    }
}

/// Checks the lengths, then the index in the first word, and then carries out the request.
fn serve(k: &mut Kernel, caller: usize, args: &SendArgs, request: Request)
    requires there { caller < task_count k.old }
    requires room { note_count k.old + syscall_notes ≤ turn_notes }
    requires message { args.now.message_base + args.now.message_length ≤ 2 ^ 32 }
    requires reply { IsWithinRam (memory_of k.old) args.now.reply_base args.now.reply_capacity }
    ensures holds { (g : Setup) (t : Turn) → Stands g k.old t →
        Holds g k.new (served g caller args.now (Some (meaning request)) t) }
    ensures frame { AddsAtMost k.old syscall_notes k.new }
{
    if args.message_length != request.message_length()
        || args.reply_capacity < request.reply_length()
    {
        return k.misuse(caller, Usage::BadKernelMessage);
    }
    let task = k.number(args.message_base, 4) as usize;
    if k.task_count() <= task {
        return k.misuse(caller, Usage::BadTaskIndex);
    }
    if task == 0 && !request.is_on_supervisor() {
        return k.misuse(caller, Usage::BadKernelMessage);
    }
    carry_out(k, args, request, task);
    k.answer(caller, &[0, request.reply_length()]);
}

/// The supervisor's request: first its ranges are checked, then the request itself.
#[inline(always)]
fn hear_request(k: &mut Kernel, caller: usize, args: &SendArgs)
    requires there { caller < task_count k.old }
    requires room { note_count k.old + syscall_notes ≤ turn_notes }
    requires stood { StandsForSome k.old }
    ensures holds { (g : Setup) (t : Turn) → Stands g k.old t →
        Holds g k.new (heard g caller args.now t) }
    ensures frame { AddsAtMost k.old syscall_notes k.new }
{
    let message = Slice {
        base: args.message_base,
        len: args.message_length,
    };
    let reply = Slice {
        base: args.reply_base,
        len: args.reply_capacity,
    };
    if !message.is_valid() || !reply.is_valid() {
        return k.misuse(caller, Usage::InvalidSlice);
    }
    if let Some(at) = k.bad_byte(caller, Right::Read, message.base, message.len) {
        return k.deny(caller, at, Access::KernelRead);
    }
    if let Some(at) = k.bad_byte(caller, Right::Write, reply.base, reply.len) {
        return k.deny(caller, at, Access::KernelWrite);
    }
    match Request::of(args.operation) {
        None => k.misuse(caller, Usage::BadKernelMessage),
        Some(request) => serve(k, caller, args, request),
    }
}

/// A kernel message, from its first condition on, which is that the caller is the supervisor.
fn kernel_message_rows(k: &mut Kernel, caller: usize)
    requires there { caller < task_count k.old }
    requires room { note_count k.old + syscall_notes ≤ turn_notes }
    requires stood { StandsForSome k.old }
    ensures holds { (g : Setup) (t : Turn) → Stands g k.old t →
        Holds g k.new (requested g caller t) }
    ensures frame { AddsAtMost k.old syscall_notes k.new }
{
    if caller != 0 {
        return k.misuse(caller, Usage::NotSupervisor);
    }
    let args = SendArgs::of(&k.arguments(caller));
    hear_request(k, caller, &args);
}

/// A SEND to the kernel, which only the supervisor may make. Bits 15 to 0 of r4 are the operation,
/// r5 and r6 the message, r7 and r8 the buffer for the answer. Leases are ignored. The first word
/// of the message is the index of a task.
///
/// - 1: the status of the task, in four words (health 0 well, 1 stopped, 2 faulted; then for a
///   fault its number, x and y).
/// - 2: the task is restarted, and started if the second word is not 0. It may not be the
///   supervisor.
/// - 3: the task is made to fault, unless it has faulted. It may not be the supervisor.
/// - 9: the index of the first task from this one on that has faulted, in one word; 0 if there is
///   none.
///
/// r4 becomes 0, and r5 the length of the answer (docs/FORMATS.md; Hubris Reference, on
/// supervision).
pub fn kernel_message(k: &mut Kernel, caller: usize)
    requires { MayCall k.old caller }
    ensures { Performs requested k.old caller k.new }
{
    kernel_message_rows(k, caller);
}

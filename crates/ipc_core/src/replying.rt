//! The system calls REPLY and REPLY_FAULT (Hubris Reference, on REPLY and REPLY_FAULT). Rows are
//! those of docs/FORMATS.md.

ghost use Rattle.std.specs.Prelude.{◌≡◌, ◌+◌, ◌<◌, ◌≤◌, Some};
ghost use Rattle.kernel_abi.specs.Faults.{reason_number};
ghost use Rattle.task_table.specs.model.State.{Setup, Turn, Call};
ghost use Rattle.task_table.specs.model.Reading.{taken_by};
ghost use Rattle.task_table.specs.model.Sends.{replied_to, replied, reply_faulted_to, reply_faulted};
ghost use Rattle.task_table.specs.kept.Holds.{Holds, Stands, StandsForSome, kept_call, task_count, note_count};
ghost use Rattle.task_table.specs.kept.Limits.{syscall_notes, turn_notes};
ghost use Rattle.task_table.specs.kept.Frames.{AddsAtMost};
ghost use Rattle.task_table.specs.kept.Calls.{MayCall, Performs};
ghost use Rattle.ipc_core.specs.Sending.{IsTaken};

use crate::range::is_valid;
use kernel_abi::{Access, Reason, ReplyArgs, Usage};
use region_check::Right;
use task_table::{Found, Kernel, OpenCall};

/// REPLY, rows 3 and 4: the reply is checked, and the caller answers a call that it has taken.
fn reply_checked(k: &mut Kernel, caller: usize, client: usize, call: &OpenCall, args: &ReplyArgs)
    requires there { caller < task_count k.old }
    requires client { client < task_count k.old }
    requires room { note_count k.old + syscall_notes ≤ turn_notes }
    requires taken { IsTaken k.old caller client call.now }
    ensures holds { (g : Setup) (t : Turn) (c : Call) → Stands g k.old t →
        taken_by t.state client caller ≡ Some c → kept_call c ≡ call.now →
        Holds g k.new (replied_to g caller args.now (Some c) t) }
    ensures frame { AddsAtMost k.old syscall_notes k.new }
{
    if !is_valid(args.reply_base, args.reply_length) {
        return k.misuse(caller, Usage::InvalidSlice);
    }
    if let Some(at) = k.bad_byte(caller, Right::Read, args.reply_base, args.reply_length) {
        return k.deny(caller, at, Access::KernelRead);
    }
    if args.reply_length > call.reply.len {
        return k.misuse(caller, Usage::ReplyTooBig);
    }
    k.hand_reply(caller, client, call, args);
}

/// REPLY, rows 2 to 4: the caller answers a client that may await its reply.
fn reply_to_client(k: &mut Kernel, caller: usize, client: usize, args: &ReplyArgs)
    requires there { caller < task_count k.old }
    requires client { client < task_count k.old }
    requires room { note_count k.old + syscall_notes ≤ turn_notes }
    requires stood { StandsForSome k.old }
    ensures holds { (g : Setup) (t : Turn) → Stands g k.old t →
        Holds g k.new (replied_to g caller args.now (taken_by t.state client caller) t) }
    ensures frame { AddsAtMost k.old syscall_notes k.new }
{
    match k.taken(client, caller) {
        Some(call) => reply_checked(k, caller, client, &call, args),
        None => k.go_on(caller),
    }
}

/// REPLY, of any caller, from row 1 on.
fn reply_rows(k: &mut Kernel, caller: usize)
    requires there { caller < task_count k.old }
    requires room { note_count k.old + syscall_notes ≤ turn_notes }
    requires stood { StandsForSome k.old }
    ensures holds { (g : Setup) (t : Turn) → Stands g k.old t → Holds g k.new (replied g caller t) }
    ensures frame { AddsAtMost k.old syscall_notes k.new }
{
    let args = ReplyArgs::of(&k.arguments(caller));
    match k.lookup(args.client.number) {
        Found::Out => k.misuse(caller, Usage::BadTaskIndex),
        Found::Dead(_) => k.go_on(caller),
        Found::Live(client) => reply_to_client(k, caller, client, &args),
    }
}

/// REPLY: r4 is the client's id, r5 the response code, r6 and r7 are the reply. The client gets the
/// reply in its buffer, the code in r4 and the reply's length in r5. A client that does not await
/// the caller's reply does not change. A reply that is longer than the client's buffer is a misuse
/// by the caller (Hubris Reference, on REPLY).
pub fn reply(k: &mut Kernel, caller: usize)
    requires { MayCall k.old caller }
    ensures { Performs replied k.old caller k.new }
{
    reply_rows(k, caller);
}

/// The caller faults a client that may await its reply.
fn fault_client(k: &mut Kernel, caller: usize, client: usize, reason: Reason)
    requires there { caller < task_count k.old }
    requires client { client < task_count k.old }
    requires room { note_count k.old + syscall_notes ≤ turn_notes }
    ensures holds { (g : Setup) (t : Turn) → Stands g k.old t →
        Holds g k.new (reply_faulted_to g caller (reason_number reason)
        (taken_by t.state client caller) t) }
    ensures frame { AddsAtMost k.old syscall_notes k.new }
{
    if k.taken(client, caller).is_some() {
        k.reply_fault(caller, client, reason);
    } else {
        k.go_on(caller);
    }
}

/// REPLY_FAULT, of any caller.
fn reply_fault_rows(k: &mut Kernel, caller: usize)
    requires there { caller < task_count k.old }
    requires room { note_count k.old + syscall_notes ≤ turn_notes }
    ensures holds { (g : Setup) (t : Turn) → Stands g k.old t →
        Holds g k.new (reply_faulted g caller t) }
    ensures frame { AddsAtMost k.old syscall_notes k.new }
{
    let args = ReplyArgs::of(&k.arguments(caller));
    match (k.lookup(args.client.number), Reason::of(args.code)) {
        (Found::Out, _) => k.misuse(caller, Usage::BadTaskIndex),
        (_, None) => k.misuse(caller, Usage::BadReason),
        (Found::Dead(_), _) => k.go_on(caller),
        (Found::Live(client), Some(reason)) => fault_client(k, caller, client, reason),
    }
}

/// REPLY_FAULT: r4 is the client's id, r5 the number of a reason, 0 to 5. The client faults, and
/// the fault has the caller's id and the reason. A client that does not await the caller's reply
/// does not change. Any other reason is a misuse by the caller (Hubris Reference, on REPLY_FAULT).
pub fn reply_fault(k: &mut Kernel, caller: usize)
    requires { MayCall k.old caller }
    ensures { Performs reply_faulted k.old caller k.new }
{
    reply_fault_rows(k, caller);
}

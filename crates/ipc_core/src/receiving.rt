//! The system call RECV (Hubris Reference, on RECV). Rows are those of docs/FORMATS.md.

ghost use Rattle.std.specs.Prelude.{◌≡◌, ◌+◌, ◌<◌, ◌≤◌, true, Some, None, Option, IfSome};
ghost use Rattle.task_table.specs.model.State.{Setup, Turn};
ghost use Rattle.task_table.specs.model.Reading.{arguments, is_ready, best_sender, offer_by, IsIdle};
ghost use Rattle.task_table.specs.model.Rows.{asked, receives_or_listens, message_received, input_received, received};
ghost use Rattle.task_table.specs.kept.Holds.{Holds, Stands, StandsForSome, task_count, note_count};
ghost use Rattle.task_table.specs.kept.Limits.{syscall_notes, turn_notes};
ghost use Rattle.task_table.specs.kept.Frames.{AddsAtMost};
ghost use Rattle.task_table.specs.kept.Calls.{MayCall};
ghost use Rattle.task_table.specs.kept.Messages.{from_of, IsListened, IsReceiving};
ghost use Rattle.ipc_core.specs.Named.{AsksFor, IsNamed, IsInside};

use crate::range::is_valid;
use kernel_abi::{Access, FromIndex, Generation, RecvArgs, TaskId, Usage, dead_code};
use region_check::Right;
use task_table::{Found, Kernel};

/// Whose messages a receive accepts.
#[derive(Clone, Copy)]
enum Sender {
    /// Any task.
    Any,
    /// Only the kernel.
    Kernel,
    /// An earlier birth of a task that is now at this generation.
    Dead(Generation),
    /// Only the task with this index.
    One(usize),
}

/// Row 2, and the choice between rows 4 to 7: the sender that the caller's receive names. None if
/// it names the caller or no task.
fn sender_of(k: &Kernel, caller: usize, args: &RecvArgs) -> Option<Sender>
    ensures named { (g : Setup) (t : Turn) → Holds g k.now t →
        IsNamed t.state caller args.now result }
    ensures inside { IfSome result (IsInside (task_count k.now)) }
{
    if !args.closed {
        return Some(Sender::Any);
    }
    if args.sender.number == TaskId::KERNEL {
        return Some(Sender::Kernel);
    }
    if usize::from(args.sender.index()) == caller {
        return None;
    }
    match k.lookup(args.sender.number) {
        Found::Out => None,
        Found::Dead(generation) => Some(Sender::Dead(generation)),
        Found::Live(index) => Some(Sender::One(index)),
    }
}

/// Rows 6 and 7: the caller takes the call that a client offers to it; if there is none, it
/// listens.
fn receive_or_listen(k: &mut Kernel, caller: usize, client: usize, from: FromIndex)
    requires there { caller < task_count k.old }
    requires client { client < task_count k.old }
    requires whom { IsListened (task_count k.old) from }
    requires room { note_count k.old + 2 ≤ turn_notes }
    requires ready { IsReceiving k.old caller }
    ensures holds { (g : Setup) (t : Turn) → Stands g k.old t → IsIdle t.state caller →
        Holds g k.new (receives_or_listens caller (asked t.state caller) (from_of t.state from)
        (offer_by t.state client caller) t) }
    ensures frame { AddsAtMost k.old 2 k.new }
{
    match k.offered(client, caller) {
        Some(call) => k.receive(caller, client, &call),
        None => k.listen(caller, from),
    }
}

/// Rows 4 to 7: a message, if no posted bit is under the mask.
fn receive_message(k: &mut Kernel, caller: usize, sender: Sender, best: Option<usize>)
    requires there { caller < task_count k.old }
    requires sender { IsInside (task_count k.old) sender }
    requires best { IfSome best (λ i. i < task_count k.old) }
    requires room { note_count k.old + 2 ≤ turn_notes }
    requires ready { IsReceiving k.old caller }
    ensures holds { (g : Setup) (t : Turn) → Stands g k.old t → IsIdle t.state caller →
        AsksFor t.state caller sender → Holds g k.new (message_received caller best t) }
    ensures frame { AddsAtMost k.old 2 k.new }
{
    match sender {
        Sender::Any => match best {
            Some(client) => receive_or_listen(k, caller, client, FromIndex::Any),
            None => k.listen(caller, FromIndex::Any),
        },
        Sender::Kernel => k.listen(caller, FromIndex::Kernel),
        Sender::Dead(generation) => k.answer(caller, &[dead_code(generation), 0, 0, 0, 0, 0]),
        Sender::One(client) => {
            receive_or_listen(k, caller, client, FromIndex::One(client as u16));
        }
    }
}

/// Rows 3 to 7: the posted bits of the caller under its mask, if there are any, else a message.
fn receive_input(k: &mut Kernel, caller: usize, mask: u32, sender: Sender, best: Option<usize>)
    requires there { caller < task_count k.old }
    requires sender { IsInside (task_count k.old) sender }
    requires best { IfSome best (λ i. i < task_count k.old) }
    requires room { note_count k.old + 2 ≤ turn_notes }
    requires ready { IsReceiving k.old caller }
    ensures holds { (g : Setup) (t : Turn) → Stands g k.old t → IsIdle t.state caller →
        mask ≡ (asked t.state caller).mask → AsksFor t.state caller sender →
        Holds g k.new (input_received caller best t) }
    ensures frame { AddsAtMost k.old 2 k.new }
{
    if k.posted_bits(caller) & mask != 0 {
        k.take_bits(caller, mask);
    } else {
        receive_message(k, caller, sender, best);
    }
}

/// RECV of a caller that waits for nothing, from row 1 on.
fn recv_rows(k: &mut Kernel, caller: usize, best: Option<usize>)
    requires there { caller < task_count k.old }
    requires best { IfSome best (λ i. i < task_count k.old) }
    requires room { note_count k.old + syscall_notes ≤ turn_notes }
    requires stood { StandsForSome k.old }
    ensures holds { (g : Setup) (t : Turn) → Stands g k.old t → IsIdle t.state caller →
        Holds g k.new (received g caller best t) }
    ensures frame { AddsAtMost k.old syscall_notes k.new }
{
    let args = RecvArgs::of(&k.arguments(caller));
    if !is_valid(args.buffer_base, args.buffer_length) {
        return k.misuse(caller, Usage::InvalidSlice);
    }
    if let Some(at) = k.bad_byte(caller, Right::Write, args.buffer_base, args.buffer_length) {
        return k.deny(caller, at, Access::KernelWrite);
    }
    match sender_of(k, caller, &args) {
        None => k.misuse(caller, Usage::BadTaskIndex),
        Some(sender) => receive_input(k, caller, args.mask, sender, best),
    }
}

/// RECV: r4 and r5 are the buffer, r6 a mask of notifications. If bit 31 of r7 is set, the receive
/// is closed: it accepts only the sender whose id is in bits 15 to 0 (0xFFFF: only the kernel).
/// Notifications under the mask come before messages. If there is neither, the caller listens
/// (Hubris Reference, on RECV).
///
/// `best` is the best sender to the caller.
pub fn recv(k: &mut Kernel, caller: usize, best: Option<usize>)
    requires may_call { MayCall k.old caller }
    requires best { IfSome best (λ i. i < task_count k.old) }
    ensures stands { (g : Setup) (t : Turn) → Stands g k.old t → is_ready t.state caller ≡ true →
        best ≡ best_sender g t.state caller → Stands g k.new (received g caller best t) }
    ensures frame { AddsAtMost k.old syscall_notes k.new }
{
    recv_rows(k, caller, best);
}

//! What RECV does to a task: it takes its posted bits, listens, or takes a call that is offered to
//! it.

use crate::kernel::Kernel;
use crate::slot::{FromId, Listening, OpenCall, Slice, Wait};
use kernel_abi::{Access, Fault, FromIndex, Note, RecvArgs, TaskId};
use region_check::{Right, may_range};

impl Kernel {
    ghost use Rattle.std.specs.Prelude.{◌≡◌, ◌+◌, ◌<◌, ◌≤◌, ◌^◌, Option, Some};
    ghost use Rattle.std.specs.Option.{option_map};
    ghost use Rattle.kernel_abi.specs.Faults.{access_number};
    ghost use Rattle.mem_banks.specs.Memory.{IsWithin, IsWithinRam};
    ghost use Rattle.task_table.specs.model.State.{Setup, Turn, Call, Ground};
    ghost use Rattle.task_table.specs.model.Reading.{arguments, present_id, bad_byte, offer_by, taken_by, IsIdle};
    ghost use Rattle.task_table.specs.model.Effects.{changed, with_taken, handed};
    ghost use Rattle.task_table.specs.model.Rows.{asked, denied, takes_bits, listens, receives};
    ghost use Rattle.task_table.specs.kept.Holds.{Holds, Stands, kept_call, from_id_of, task_count, note_count, memory_of};
    ghost use Rattle.task_table.specs.kept.Limits.{turn_notes};
    ghost use Rattle.task_table.specs.kept.Frames.{AddsNotes, AddsAtMost};
    ghost use Rattle.task_table.specs.kept.Messages.{from_of, listening, IsListened, IsReceivable};

    /// The call that a client offers to a server, if there is one.
    pub fn offered(&self, client: usize, server: usize) -> Option<OpenCall>
        requires { client < task_count self.now }
        ensures { (g : Setup) (t : Turn) → Stands g self.now t →
            result ≡ option_map kept_call (offer_by t.state client server) }
    {
        let slot = self.slot(client);
        slot.wait.offered_to(server)
    }

    /// The call of a client that a server has taken, if there is one.
    pub fn taken(&self, client: usize, server: usize) -> Option<OpenCall>
        requires { client < task_count self.now }
        ensures { (g : Setup) (t : Turn) → Stands g self.now t →
            result ≡ option_map kept_call (taken_by t.state client server) }
    {
        let slot = self.slot(client);
        slot.wait.taken_by(server)
    }

    /// The first byte of a range that may not be copied for a task, if there is one.
    pub fn bad_byte(&self, task: usize, right: Right, base: u32, len: u32) -> Option<u32>
        requires { base + len ≤ 2 ^ 32 }
        ensures { (g : Setup) (t : Turn) → Holds g self.now t →
            result ≡ bad_byte g task right record { base = base; len = len } }
    {
        may_range(self.regions(task), base, len, right)
    }

    /// A task faults at a byte that the kernel may not read or write for its system call.
    pub fn deny(&mut self, task: usize, at: u32, access: Access)
        requires there { task < task_count self.old }
        requires room { note_count self.old + 4 ≤ turn_notes }
        ensures holds { (g : Setup) (t : Turn) → Holds g self.old t →
            Holds g self.new (denied g task (access_number access) (Some at) t) }
        ensures stands { (g : Setup) (t : Turn) → Stands g self.old t →
            Stands g self.new (denied g task (access_number access) (Some at) t) }
        ensures frame { AddsAtMost self.old 4 self.new }
    {
        self.fault(task, Fault::access(at, access));
    }

    /// A caller takes its posted bits under a mask, which are then cleared, and goes on: r4 is 0,
    /// r5 is 0xFFFF, r6 has those bits, and r7 to r9 are 0 (Hubris Reference, on notifications).
    pub fn take_bits(&mut self, task: usize, mask: u32)
        requires there { task < task_count self.old }
        requires room { note_count self.old < turn_notes }
        ensures holds { (g : Setup) (t : Turn) → Holds g self.old t →
            Holds g self.new (takes_bits task mask t) }
        ensures frame { AddsNotes self.old 1 self.new }
    {
        let under = self.posted_bits(task) & mask;
        self.clear_bits(task, mask);
        self.answer(task, &[0, 0xFFFF, under, 0, 0, 0]);
    }

    /// The present id of a task (Hubris Reference, on task ids).
    pub fn id(&self, task: usize) -> TaskId
        requires { task < task_count self.now }
        ensures { (g : Setup) (t : Turn) → Holds g self.now t →
            result.number ≡ present_id t.state task }
    {
        TaskId::new(task as u16, self.generation(task))
    }

    /// Whose messages a task listens for, by id.
    fn from_id(&self, from: FromIndex) -> FromId
        requires { IsListened (task_count self.now) from }
        ensures { (g : Setup) (t : Turn) → Holds g self.now t →
            result ≡ from_id_of (from_of t.state from) }
    {
        match from {
            FromIndex::Any => FromId::Any,
            FromIndex::Kernel => FromId::Kernel,
            FromIndex::One(index) => FromId::One(self.id(usize::from(index))),
        }
    }

    /// A task that waits for nothing starts to listen, with the buffer and the mask of its
    /// registers.
    fn start_listening(&mut self, task: usize, from: FromIndex)
        requires there { task < task_count self.old }
        requires whom { IsListened (task_count self.old) from }
        requires room { note_count self.old < turn_notes }
        ensures holds { (g : Setup) (t : Turn) → Holds g self.old t → IsIdle t.state task →
            Holds g self.new (listening task (asked t.state task) (from_of t.state from) t) }
        ensures frame { AddsNotes self.old 1 self.new }
    {
        let args = RecvArgs::of(&self.arguments(task));
        let mut slot = self.slot(task);
        slot.wait = Wait::Listen(Listening {
            from: self.from_id(from),
            mask: args.mask,
            buffer: buffer_of(&args),
        });
        self.set_slot(task, slot);
        self.note(Note::Listen {
            task: task as u16,
            from,
            mask: args.mask,
        });
    }

    /// A caller that waits for nothing goes past its system call and listens, with the buffer and
    /// the mask of its registers r4 to r6 (Hubris Reference, on RECV).
    pub fn listen(&mut self, task: usize, from: FromIndex)
        requires there { task < task_count self.old }
        requires whom { IsListened (task_count self.old) from }
        requires room { note_count self.old < turn_notes }
        ensures holds { (g : Setup) (t : Turn) → Holds g self.old t → IsIdle t.state task →
            Holds g self.new (listens task (asked t.state task) (from_of t.state from) t) }
        ensures frame { AddsNotes self.old 1 self.new }
    {
        self.go_past_syscall(task);
        self.start_listening(task, from);
    }

    /// Marks the call of a client as taken, if it has one.
    fn take(&mut self, client: usize)
        requires { client < task_count self.old }
        ensures holds { (g : Setup) (t : Turn) → Holds g self.old t →
            Holds g self.new (changed (with_taken client) t) }
        ensures frame { AddsNotes self.old 0 self.new }
    {
        let mut slot = self.slot(client);
        slot.wait = slot.wait.once_taken();
        self.set_slot(client, slot);
    }

    /// The open call of a client goes to its server, with as much of the message as fits into a
    /// buffer.
    pub(crate) fn hand_over(&mut self, client: usize, server: usize, call: &OpenCall, buffer: Slice)
        requires client { client < task_count self.old }
        requires server { server < task_count self.old }
        requires room { note_count self.old < turn_notes }
        requires source { IsWithin (memory_of self.old) call.now.message.base call.now.message.len }
        requires target { IsWithinRam (memory_of self.old) buffer.base buffer.len }
        ensures holds { (g : Setup) (t : Turn) (on : Ground) (c : Call) → Holds g self.old t →
            kept_call c ≡ call.now → c.client.index ≡ client → c.server.index ≡ server →
            Holds g self.new (handed on c buffer t) }
        ensures frame { AddsNotes self.old 1 self.new }
    {
        let copied = call.message.len.min(buffer.len);
        self.copy(call.message.base, buffer.base, copied);
        self.take(client);
        self.note(Note::Take {
            call: call.number,
            copied,
        });
        self.stop_listening(server);
        self.give(
            server,
            &[
                0,
                u32::from(call.client.number),
                u32::from(call.operation),
                call.message.len,
                call.reply.len,
                call.leases,
            ],
        );
    }

    /// A caller goes past its system call and takes the call that a client offers to it, with as
    /// much of the message as fits into the buffer of its registers r4 and r5. Then r4 is 0, r5 the
    /// client's id, r6 the operation, r7 the length of the message, r8 the length of the buffer for
    /// the reply, and r9 the number of leases (Hubris Reference, on RECV).
    pub fn receive(&mut self, server: usize, client: usize, call: &OpenCall)
        requires there { server < task_count self.old }
        requires client { client < task_count self.old }
        requires room { note_count self.old + 2 ≤ turn_notes }
        requires receivable { IsReceivable self.old server client call.now }
        ensures holds { (g : Setup) (t : Turn) (c : Call) → Stands g self.old t →
            offer_by t.state client server ≡ Some c → kept_call c ≡ call.now →
            Holds g self.new (receives server (asked t.state server) c t) }
        ensures frame { AddsNotes self.old 2 self.new }
    {
        let args = RecvArgs::of(&self.arguments(server));
        self.go_past_syscall(server);
        self.hand_over(client, server, call, buffer_of(&args));
        self.note_return(server);
    }
}

ghost use Rattle.std.specs.Prelude.{◌≡◌};
ghost use Rattle.task_table.specs.model.Rows.{buffer_of};

/// The buffer of a receive.
fn buffer_of(args: &RecvArgs) -> Slice
    ensures { result ≡ buffer_of args.now }
{
    Slice {
        base: args.buffer_base,
        len: args.buffer_length,
    }
}

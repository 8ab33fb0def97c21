//! What SEND, REPLY and REPLY_FAULT do to two tasks. A call is offered, and taken at once if its
//! server listens for it. Later it is answered, or its client is faulted.

use crate::kernel::Kernel;
use crate::slot::{OpenCall, Phase, Slice, Wait};
use kernel_abi::{Ending, Fault, Note, Reason, ReplyArgs, SendArgs};

impl Kernel {
    ghost use Rattle.std.specs.Prelude.{◌≡◌, ◌≢◌, ◌+◌, ◌<◌, ◌≤◌, ◌^◌, Option, Some};
    ghost use Rattle.kernel_abi.specs.Faults.{reason_number};
    ghost use Rattle.kernel_abi.specs.declared.Ending.TheVariants.{ReplyFault};
    ghost use Rattle.task_table.specs.model.State.{Setup, Turn, Call};
    ghost use Rattle.task_table.specs.model.Reading.{present, listen_of, taken_by, IsIdle};
    ghost use Rattle.task_table.specs.model.Effects.{offered};
    ghost use Rattle.task_table.specs.model.Sends.{call_made, sends, answers, faults_client};
    ghost use Rattle.task_table.specs.kept.Holds.{Holds, Stands, kept_call, task_count, note_count, next_call_of};
    ghost use Rattle.task_table.specs.kept.Limits.{turn_notes};
    ghost use Rattle.task_table.specs.kept.Frames.{AddsNotes, AddsAtMost};
    ghost use Rattle.task_table.specs.kept.Messages.{buffer_for, IsSending, IsReplying};

    /// The buffer of a server, if it listens for a message of a client.
    fn buffer_for(&self, server: usize, client: usize) -> Option<Slice>
        requires server { server < task_count self.now }
        requires client { client < task_count self.now }
        ensures { (g : Setup) (t : Turn) → Stands g self.now t →
            result ≡ buffer_for (present t.state client) (listen_of t.state server) }
    {
        let slot = self.slot(server);
        slot.wait.buffer_for(self.id(client))
    }

    /// The call that a client makes to a server, under the next number.
    fn call_to(&self, client: usize, server: usize, args: &SendArgs) -> OpenCall
        requires client { client < task_count self.now }
        requires server { server < task_count self.now }
        ensures { (g : Setup) (t : Turn) → Holds g self.now t →
            result ≡ kept_call (call_made t.state client args.now server) }
    {
        OpenCall {
            number: self.next_call(),
            client: self.id(client),
            server: self.id(server),
            operation: args.operation,
            message: Slice {
                base: args.message_base,
                len: args.message_length,
            },
            reply: Slice {
                base: args.reply_base,
                len: args.reply_capacity,
            },
            table: args.table,
            leases: args.leases,
            phase: Phase::Offered,
        }
    }

    /// A client that waits for nothing offers a call, and waits for its end.
    fn offer(&mut self, client: usize, server: usize, call: &OpenCall)
        requires there { client < task_count self.old }
        requires server { server < task_count self.old }
        requires room { note_count self.old < turn_notes }
        requires number { next_call_of self.old + 1 < 2 ^ 32 }
        ensures holds { (g : Setup) (t : Turn) (k : Call) → Holds g self.old t →
            IsIdle t.state client → kept_call k ≡ call.now → k.client.index ≡ client →
            k.server.index ≡ server → Holds g self.new (offered k t) }
        ensures frame { AddsNotes self.old 1 self.new }
    {
        // Nothing is written between reading the slot and writing it.
        self.use_number();
        let mut slot = self.slot(client);
        slot.wait = Wait::Call(*call);
        self.set_slot(client, slot);
        self.note(Note::Offer {
            call: call.number,
            client: client as u16,
            server: server as u16,
        });
    }

    /// A caller that waits for nothing goes past its system call and offers a call to a server,
    /// under the next number and with the ids that both have now. A server that listens for it
    /// takes it at once (Hubris Reference, on SEND).
    pub fn send(&mut self, caller: usize, server: usize, args: &SendArgs)
        requires there { caller < task_count self.old }
        requires server { server < task_count self.old }
        requires room { note_count self.old + 3 ≤ turn_notes }
        requires number { next_call_of self.old + 1 < 2 ^ 32 }
        requires sendable { IsSending self.old caller args.now }
        ensures holds { (g : Setup) (t : Turn) → Stands g self.old t → IsIdle t.state caller →
            caller ≢ server → Holds g self.new (sends caller args.now server t) }
        ensures frame { AddsAtMost self.old 3 self.new }
    {
        let buffer = self.buffer_for(server, caller);
        self.go_past_syscall(caller);
        let call = self.call_to(caller, server, args);
        self.offer(caller, server, &call);
        if let Some(buffer) = buffer {
            self.hand_over(caller, server, &call, buffer);
            self.note_return(server);
        }
    }

    /// A caller answers the call of a client that it has taken, and goes on. The client gets the
    /// reply, the response code in r4 and the length of the reply in r5, and its call is closed
    /// (Hubris Reference, on REPLY).
    pub fn hand_reply(&mut self, caller: usize, client: usize, call: &OpenCall, args: &ReplyArgs)
        requires there { caller < task_count self.old }
        requires client { client < task_count self.old }
        requires room { note_count self.old + 3 ≤ turn_notes }
        requires replying { IsReplying self.old caller client call.now args.now }
        ensures holds { (g : Setup) (t : Turn) (k : Call) → Stands g self.old t →
            taken_by t.state client caller ≡ Some k → kept_call k ≡ call.now →
            Holds g self.new (answers caller args.now k t) }
        ensures frame { AddsAtMost self.old 3 self.new }
    {
        self.copy(args.reply_base, call.reply.base, args.reply_length);
        self.close(client, Ending::Reply);
        self.give(client, &[args.code, args.reply_length]);
        self.note_return(client);
        self.go_on(caller);
    }

    /// A caller faults the client of a call that it has taken, and goes on. The fault has the
    /// caller's id and the reason (Hubris Reference, on REPLY_FAULT).
    pub fn reply_fault(&mut self, caller: usize, client: usize, reason: Reason)
        requires there { caller < task_count self.old }
        requires client { client < task_count self.old }
        requires room { note_count self.old + 5 ≤ turn_notes }
        ensures holds { (g : Setup) (t : Turn) (k : Call) → Stands g self.old t →
            taken_by t.state client caller ≡ Some k →
            Holds g self.new (faults_client g caller k (reason_number reason) t) }
        ensures frame { AddsAtMost self.old 5 self.new }
    {
        let fault = Fault::reply_fault(self.id(caller), reason);
        self.fault_as(client, fault, Ending::ReplyFault);
        self.go_on(caller);
    }
}

//! The slot of a task, and what an id names.

ghost use Rattle.std.specs.Prelude.{◌≡◌};

use kernel_abi::{Generation, Health, TaskId, Timer};
use words_core::Flags;

/// Bytes of the address space, from an address on.
#[derive(Clone, Copy, Debug, PartialEq, Eq)]
pub struct Slice {
    pub base: u32,
    pub len: u32,
}

impl Slice {
    ghost use Rattle.std.specs.Prelude.{◌≡◌};
    ghost use Rattle.task_table.specs.model.Reading.{is_valid};

    /// Whether the range ends inside the address space.
    pub fn is_valid(&self) -> bool
        ensures { result ≡ is_valid self.now }
    {
        kernel_abi::Range::of(self.base, u64::from(self.len)).is_some()
    }
}

/// How far an open call has come.
#[derive(Clone, Copy, Debug, PartialEq, Eq)]
pub enum Phase {
    /// Its server has not taken it yet.
    Offered,
    /// Its server has taken it, and has to reply.
    Taken,
}

/// An open call, as its client made it, with the ids that client and server had then: the message,
/// the buffer for the reply, and the lease table with its number of leases (Hubris Reference, on
/// SEND).
#[derive(Clone, Copy, Debug, PartialEq, Eq)]
pub struct OpenCall {
    pub number: u32,
    pub client: TaskId,
    pub server: TaskId,
    pub operation: u16,
    pub message: Slice,
    pub reply: Slice,
    pub table: u32,
    pub leases: u32,
    pub phase: Phase,
}

impl OpenCall {
    ghost use Rattle.std.specs.Prelude.{◌≡◌};
    ghost use Rattle.task_table.specs.kept.Holds.{is_offer_to, is_taken_at};

    /// Whether the call is offered to the server with this index.
    pub fn is_offered_to(&self, index: usize) -> bool
        ensures { result ≡ is_offer_to self.now index }
    {
        usize::from(self.server.index()) == index && self.phase == Phase::Offered
    }

    /// Whether the server with this index has taken the call.
    pub fn is_taken_by(&self, index: usize) -> bool
        ensures { result ≡ is_taken_at self.now index }
    {
        usize::from(self.server.index()) == index && self.phase == Phase::Taken
    }
}

/// Whose message a task listens for.
#[derive(Clone, Copy, Debug, PartialEq, Eq)]
pub enum FromId {
    /// A message of any task.
    Any,
    /// No message: only notifications.
    Kernel,
    /// A message of the task with this id.
    One(TaskId),
}

impl FromId {
    ghost use Rattle.std.specs.Prelude.{◌≡◌};
    ghost use Rattle.task_table.specs.kept.Waits.{is_one};
    ghost use Rattle.task_table.specs.kept.Holds.{hears};

    /// Whether it is only the task with this index.
    pub fn is_one(&self, index: usize) -> bool
        ensures { result ≡ is_one self.now index }
    {
        match *self {
            FromId::One(id) => usize::from(id.index()) == index,
            _ => false,
        }
    }

    /// Whether a task that listens like this accepts a message of the task with this id.
    pub fn hears(self, client: TaskId) -> bool
        ensures { result ≡ hears self client }
    {
        match self {
            FromId::Any => true,
            FromId::Kernel => false,
            FromId::One(id) => id.number == client.number,
        }
    }
}

/// What a task listens for: a message, which goes into its buffer, or a notification under its mask
/// (Hubris Reference, on RECV).
#[derive(Clone, Copy, Debug, PartialEq, Eq)]
pub struct Listening {
    pub from: FromId,
    pub mask: u32,
    pub buffer: Slice,
}

/// What a task waits for.
#[derive(Clone, Copy, Debug, PartialEq, Eq)]
pub enum Wait {
    /// Nothing.
    Nothing,
    /// The end of its call.
    Call(OpenCall),
    /// A message or a notification.
    Listen(Listening),
}

impl Wait {
    ghost use Rattle.std.specs.Prelude.{◌≡◌};
    ghost use Rattle.task_table.specs.kept.Holds.{call_in, listen_in, offered_in, taken_in, buffer_in, taken_wait};
    ghost use Rattle.task_table.specs.kept.Waits.{is_to_in, awaits_in};
    ghost use Rattle.task_table.specs.kept.Readiness.{server_in};

    /// The call that the task waits to end, if any.
    pub fn call(&self) -> Option<OpenCall>
        ensures { result ≡ call_in self.now }
    {
        match *self {
            Wait::Call(call) => Some(call),
            _ => None,
        }
    }

    /// What the task listens for, if it listens.
    pub fn listen(&self) -> Option<Listening>
        ensures { result ≡ listen_in self.now }
    {
        match *self {
            Wait::Listen(listening) => Some(listening),
            _ => None,
        }
    }

    /// The call, if it is offered to the server with this index.
    pub fn offered_to(&self, index: usize) -> Option<OpenCall>
        ensures { result ≡ offered_in self.now index }
    {
        match *self {
            Wait::Call(call) => {
                if call.is_offered_to(index) {
                    Some(call)
                } else {
                    None
                }
            }
            _ => None,
        }
    }

    /// The index of the server to which the call is offered, if there is one.
    pub fn server(&self) -> Option<usize>
        ensures { result ≡ server_in self.now }
    {
        match *self {
            Wait::Call(call) => match call.phase {
                Phase::Offered => Some(usize::from(call.server.index())),
                Phase::Taken => None,
            },
            _ => None,
        }
    }

    /// Whether the task waits for the end of a call to the task with this index.
    pub fn is_to(&self, index: usize) -> bool
        ensures { result ≡ is_to_in self.now index }
    {
        match *self {
            Wait::Call(call) => usize::from(call.server.index()) == index,
            _ => false,
        }
    }

    /// Whether the task waits for a message of only the task with this index.
    pub fn awaits(&self, index: usize) -> bool
        ensures { result ≡ awaits_in self.now index }
    {
        match *self {
            Wait::Listen(listening) => listening.from.is_one(index),
            _ => false,
        }
    }

    /// The call, if the server with this index has taken it.
    pub fn taken_by(&self, index: usize) -> Option<OpenCall>
        ensures { result ≡ taken_in self.now index }
    {
        match *self {
            Wait::Call(call) => {
                if call.is_taken_by(index) {
                    Some(call)
                } else {
                    None
                }
            }
            _ => None,
        }
    }

    /// The buffer for a message of the client with this id, if the task listens for one.
    pub fn buffer_for(&self, client: TaskId) -> Option<Slice>
        ensures { result ≡ buffer_in self.now client }
    {
        match *self {
            Wait::Listen(listening) => {
                if listening.from.hears(client) {
                    Some(listening.buffer)
                } else {
                    None
                }
            }
            _ => None,
        }
    }

    /// The same wait after its call is taken.
    pub fn once_taken(self) -> Wait
        ensures { result ≡ taken_wait self }
    {
        match self {
            Wait::Call(call) => Wait::Call(OpenCall {
                phase: Phase::Taken,
                ..call
            }),
            other => other,
        }
    }
}

/// The slot of a task: all that the kernel keeps of it and that may change.
#[derive(Clone, Copy)]
pub struct Slot {
    pub generation: Generation,
    pub registers: [u32; 16],
    pub flags: Flags,
    pub health: Health,
    pub posted: u32,
    pub timer: Option<Timer>,
    pub wait: Wait,
}

impl Slot {
    ghost use Rattle.std.specs.Prelude.{◌≡◌};
    ghost use Rattle.task_table.specs.kept.Readiness.{is_free};

    /// Whether the task is well and waits for nothing.
    pub fn is_ready(&self) -> bool
        ensures { result ≡ is_free self.now }
    {
        match self.health {
            Health::Well => match self.wait {
                Wait::Nothing => true,
                _ => false,
            },
            _ => false,
        }
    }
}

/// What an id names (Hubris Reference, on task ids).
#[derive(Clone, Copy, PartialEq, Eq)]
pub enum Found {
    /// The task with this index.
    Live(usize),
    /// An earlier birth of a task that is now at this generation.
    Dead(Generation),
    /// No task of the application.
    Out,
}

//! The kinds of notes, as the words of a trace name them, and the search for notes by kind and
//! number.
ghost use Rattle.std.specs.Prelude.{◌≡◌};
ghost use Rattle.trace_text.specs.Kinds.{agrees, call_kind, event_kind, first_number, is_of_kind, is_sought, kind_in, task_kind};

use kernel_abi::Note;

/// The kinds of notes, except those of instructions and registers (docs/FORMATS.md, Trace).
#[derive(Clone, Copy, PartialEq, Eq)]
pub enum NoteKind {
    Tick,
    Irq,
    In,
    Out,
    Post,
    Call,
    Ret,
    Close,
    Listen,
    Offer,
    Take,
    Borrow,
    Fault,
    Restart,
    IrqStatus,
    Find,
}

/// The kinds of notes about ticks, interrupts and devices.
fn event_kind(word: &[u8]) -> Option<NoteKind>
    ensures { result ≡ event_kind word.now }
{
    if word == b"tick".as_slice() {
        Some(NoteKind::Tick)
    } else if word == b"irq".as_slice() {
        Some(NoteKind::Irq)
    } else if word == b"in".as_slice() {
        Some(NoteKind::In)
    } else if word == b"out".as_slice() {
        Some(NoteKind::Out)
    } else {
        None
    }
}

/// The kinds of notes about system calls and calls.
fn call_kind(word: &[u8]) -> Option<NoteKind>
    ensures { result ≡ call_kind word.now }
{
    if word == b"call".as_slice() {
        Some(NoteKind::Call)
    } else if word == b"ret".as_slice() {
        Some(NoteKind::Ret)
    } else if word == b"offer".as_slice() {
        Some(NoteKind::Offer)
    } else if word == b"take".as_slice() {
        Some(NoteKind::Take)
    } else if word == b"borrow".as_slice() {
        Some(NoteKind::Borrow)
    } else if word == b"close".as_slice() {
        Some(NoteKind::Close)
    } else {
        None
    }
}

/// The other kinds of notes about tasks.
fn task_kind(word: &[u8]) -> Option<NoteKind>
    ensures { result ≡ task_kind word.now }
{
    if word == b"post".as_slice() {
        Some(NoteKind::Post)
    } else if word == b"listen".as_slice() {
        Some(NoteKind::Listen)
    } else if word == b"fault".as_slice() {
        Some(NoteKind::Fault)
    } else if word == b"restart".as_slice() {
        Some(NoteKind::Restart)
    } else if word == b"irqstat".as_slice() {
        Some(NoteKind::IrqStatus)
    } else if word == b"find".as_slice() {
        Some(NoteKind::Find)
    } else {
        None
    }
}

/// The kind that a word names.
pub fn kind_in(word: &[u8]) -> Option<NoteKind>
    ensures { result ≡ kind_in word.now }
{
    event_kind(word).or(call_kind(word).or(task_kind(word)))
}

fn is_of_kind(kind: NoteKind, note: &Note) -> bool
    ensures { result ≡ is_of_kind kind note.now }
{
    match kind {
        NoteKind::Tick => matches!(note, Note::Tick { .. }),
        NoteKind::Irq => matches!(note, Note::Irq { .. }),
        NoteKind::In => matches!(note, Note::In { .. }),
        NoteKind::Out => matches!(note, Note::Out { .. }),
        NoteKind::Post => matches!(note, Note::Post { .. }),
        NoteKind::Call => matches!(note, Note::Syscall { .. }),
        NoteKind::Ret => matches!(note, Note::Ret { .. }),
        NoteKind::Close => matches!(note, Note::Close { .. }),
        NoteKind::Listen => matches!(note, Note::Listen { .. }),
        NoteKind::Offer => matches!(note, Note::Offer { .. }),
        NoteKind::Take => matches!(note, Note::Take { .. }),
        NoteKind::Borrow => matches!(note, Note::Borrow { .. }),
        NoteKind::Fault => matches!(note, Note::Fault { .. }),
        NoteKind::Restart => matches!(note, Note::Restart { .. }),
        NoteKind::IrqStatus => matches!(note, Note::IrqStatus { .. }),
        NoteKind::Find => matches!(note, Note::Find { .. }),
    }
}

/// The first number after the kind in a note's line, if it has one.
fn first_number(note: &Note) -> Option<u64>
    ensures { result ≡ first_number note.now }
{
    match *note {
        Note::Tick { now } => Some(now),
        Note::Irq { line, .. } => Some(u64::from(line)),
        Note::In { device, .. } => Some(u64::from(device)),
        Note::Out { device, .. } => Some(device as u64),
        Note::Post { task, .. }
        | Note::Syscall { task, .. }
        | Note::Ret { task, .. }
        | Note::Listen { task, .. }
        | Note::Fault { task, .. }
        | Note::Restart { task, .. }
        | Note::IrqStatus { task, .. } => Some(u64::from(task)),
        Note::Close { call, .. }
        | Note::Offer { call, .. }
        | Note::Take { call, .. }
        | Note::Borrow { call, .. } => Some(u64::from(call)),
        Note::Find { index, .. } => Some(u64::from(index)),
        Note::Insn { .. } | Note::Idle | Note::Low { .. } | Note::High { .. } => None,
    }
}

/// Whether the first number of a line is the wanted one. Without a wanted number every line agrees.
fn agrees(number: Option<u32>, first: Option<u64>) -> bool
    ensures { result ≡ agrees number first }
{
    match (number, first) {
        (None, _) => true,
        (Some(_), None) => false,
        (Some(wanted), Some(number)) => u64::from(wanted) == number,
    }
}

/// Whether a note is of this kind and, if a number is wanted, has it as the first number after the
/// kind.
pub fn is_sought(kind: NoteKind, number: Option<u32>, note: &Note) -> bool
    ensures { result ≡ is_sought kind number note.now }
{
    is_of_kind(kind, note) && agrees(number, first_number(note))
}

//! The breakpoints of a session.

ghost use Rattle.std.specs.Prelude.{◌≡◌, if◌then◌else◌};
ghost use Rattle.board_core.specs.fast.Breakpoints.{stands};
ghost use Rattle.debug_core.specs.Session.{is_full, others, with_breakpoint};

use crate::answer::Answer;
use arrayvec::ArrayVec;

/// At most 16 different addresses.
pub(crate) type Breakpoints = ArrayVec<u32, 16>;

fn stands(breakpoints: &[u32], at: u32) -> bool
    ensures { result ≡ stands breakpoints.now at }
{
    breakpoints.contains(&at)
}

/// Makes an address a breakpoint, if there is room for it.
pub(crate) fn set(breakpoints: &mut Breakpoints, at: u32) -> Answer
    ensures answer { result ≡ (if is_full breakpoints.old.items at then Answer.Full else Answer.Set
        at) }
    ensures after { breakpoints.new.items ≡ with_breakpoint breakpoints.old.items at }
{
    if stands(breakpoints.as_slice(), at) {
        return Answer::Set { at };
    }
    match breakpoints.try_push(at) {
        Ok(()) => Answer::Set { at },
        Err(_) => Answer::Full,
    }
}

/// Removes the breakpoint at an address.
pub(crate) fn clear(breakpoints: &mut Breakpoints, at: u32) -> Answer
    ensures answer { result ≡ (if stands breakpoints.old.items at then Answer.Cleared at else
        Answer.Absent) }
    ensures after { breakpoints.new.items ≡ others breakpoints.old.items at }
{
    if !stands(breakpoints.as_slice(), at) {
        return Answer::Absent;
    }
    breakpoints.retain(|b| *b != at);
    Answer::Cleared { at }
}

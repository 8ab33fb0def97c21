//! What a turn changes of a byte of memory.
ghost use Rattle.std.specs.Prelude.{◌≡◌};
ghost use Rattle.board_core.specs.Changes.{change_by, change_of, runner_of};

use board_model::Turned;

/// A byte of memory that a turn changed: the task that ran in it, and what the byte was and is.
#[derive(Clone, Copy)]
pub struct Change {
    pub task: Option<u16>,
    pub old: u8,
    pub new: u8,
}

/// The task that a turn ran.
pub fn runner_of(turned: Turned) -> Option<u16>
    ensures { result ≡ runner_of turned }
{
    match turned {
        Turned::Idle => None,
        Turned::Ran { task, .. } => Some(task),
    }
}

/// What a byte was and what it is, if the two differ.
fn change_of(before: Option<u8>, after: Option<u8>) -> Option<(u8, u8)>
    ensures { result ≡ change_of before after }
{
    let (old, new) = (before?, after?);
    if old == new { None } else { Some((old, new)) }
}

/// The change of a byte in a turn that ran this task; none if the byte stayed.
pub fn change_by(task: Option<u16>, before: Option<u8>, after: Option<u8>) -> Option<Change>
    ensures { result ≡ change_by task before after }
{
    let (old, new) = change_of(before, after)?;
    Some(Change { task, old, new })
}

//! Lines that are pushed one after the other.
ghost use Rattle.std.specs.List.{flat_map};
ghost use Rattle.outside_io.specs.Outside.{HasCause, Pushes};

use crate::{Failed, Sink};

/// Pushes the lines in their order, one push each. After a failing push nothing more is pushed.
pub fn push_lines<S: Sink>(lines: &[&str], out: &mut S) -> Result<(), Failed>
    ensures bytes { Pushes (S.seen out.old).written (S.seen out.new).written
        (flat_map (λ line. line.now) lines.now) result }
    ensures cause { HasCause (S.seen out.old).faults (S.seen out.new).faults result }
{
    for line in lines {
        out.push(line.as_bytes())?;
    }
    Ok(())
}

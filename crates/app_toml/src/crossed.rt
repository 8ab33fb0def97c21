//! Causes 7 to 20 by number.

ghost use Rattle.std.specs.Prelude.{◌≡◌, IfOk, option_map};
ghost use Rattle.app_toml.specs.Crossed.{cross_fault};
ghost use Rattle.app_toml.specs.Held.{parts_of};
ghost use Rattle.app_toml.specs.Sites.{refusal_of};

use crate::lines::line_fault;
use crate::parts::Parts;
use crate::places::{PlacedCause, first_of};
use crate::repeats::name_twice;
use crate::tasks::{count_fault, start_fault};
use crate::unknowns::unknown_name;
use std::alloc::{AllocError, Global};

/// The first fault of causes 7 to 20.
pub(crate) fn cross_fault(
    alloc: Global,
    parts: &Parts,
) -> Result<Option<PlacedCause<'static>>, AllocError>
    ensures { IfOk result (λ found. option_map refusal_of found ≡ cross_fault
        (parts_of parts.now)) }
{
    let tasks = parts.tasks.as_slice();
    let twice = name_twice(alloc, parts)?;
    let unknown = unknown_name(alloc, parts)?;
    let line = line_fault(alloc, parts)?;
    let late = first_of(count_fault(tasks), first_of(start_fault(tasks), line));
    Ok(first_of(twice, first_of(unknown, late)))
}

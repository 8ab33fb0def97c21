//! Why a file is not accepted.
ghost use Rattle.std.specs.Prelude.{◌≡◌, ◌≤◌, ℕ, List, length, Some, IfOk, string_bytes};
ghost use Rattle.app_toml.specs.Apps.{AppData};
ghost use Rattle.image_build.specs.Building.{LacksRoom, RefusesSource};
ghost use Rattle.command_files.specs.Contents.{file_limit, at_number, room_refusal, source_refusal};
ghost use Rattle.outside_io.specs.Seen.{FilesSeen};
ghost use Rattle.command_files.specs.Sources.{File};
ghost use Rattle.command_files.specs.FileFaults.{IsFaultFor, IsFaultOf, IsNamedFaultOf};

use image_build::BuildFault;
use std::alloc::{AllocError, Global};

/// Why a file is not accepted. If it is refused, this has the number of the cause and the place.
#[derive(Drop)]
pub enum FileFault {
    Memory,
    CannotRead,
    Refused { cause: u8, place: String },
}

/// The file that is not accepted, and why; or memory is short.
#[derive(Drop)]
pub enum NamedFault {
    Memory,
    CannotRead {
        name: String,
    },
    Refused {
        name: String,
        cause: u8,
        place: String,
    },
}

/// A refusal at a place that is a text, if there was memory for the text.
pub fn refused_at(cause: u8, place: Result<String, AllocError>) -> FileFault
    ensures { (text : List ℕ) → IfOk place (λ p. string_bytes p ≡ text) →
        IsFaultFor (Some (cause, text)) result }
{
    match place {
        Ok(place) => FileFault::Refused { cause, place },
        Err(_) => FileFault::Memory,
    }
}

/// A refusal at a place that is a number: a byte of an image, a line of a text.
pub fn refused_at_number(alloc: Global, cause: u8, place: u64) -> FileFault
    ensures { IsFaultFor (Some (at_number (cause, place))) result }
{
    refused_at(cause, format!(in alloc; "{place}"))
}

/// Why an application is refused for its plan.
pub fn fault_by_plan(alloc: Global, fault: BuildFault) -> FileFault
    ensures { (app : AppData) → LacksRoom app fault → IsFaultFor (room_refusal app) result }
{
    match fault {
        BuildFault::Flash { needed } => refused_at(21, format!(in alloc; "flash:{needed}")),
        BuildFault::Ram { needed } => refused_at(21, format!(in alloc; "ram:{needed}")),
        _ => FileFault::Memory,
    }
}

/// Why the source of a task is refused.
pub fn fault_by_source(alloc: Global, fault: BuildFault) -> FileFault
    ensures { (app : AppData) (i : ℕ) (source : List ℕ) → length source ≤ file_limit →
        RefusesSource app i source fault → IsFaultFor (source_refusal app i source) result }
{
    match fault {
        BuildFault::Source { cause, line, .. } => refused_at_number(alloc, cause, line as u64),
        BuildFault::Code { length, .. } => refused_at_number(alloc, 15, length as u64),
        _ => FileFault::Memory,
    }
}

/// The same with the name of the file.
pub fn fault_named(alloc: Global, name: &str, file_fault: FileFault) -> NamedFault
    ensures { (before after : FilesSeen) (f : File) → f.name ≡ name.now →
        IsFaultOf before after f file_fault → IsNamedFaultOf before after f result }
{
    match (String::from_str(alloc, name), file_fault) {
        (Ok(name), FileFault::CannotRead) => NamedFault::CannotRead { name },
        (Ok(name), FileFault::Refused { cause, place }) => NamedFault::Refused {
            name,
            cause,
            place,
        },
        _ => NamedFault::Memory,
    }
}

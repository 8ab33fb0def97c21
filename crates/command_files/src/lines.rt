//! The lines that commands end with (`built ..`, `refused ..`), each with its exit status.
ghost use Rattle.std.specs.Prelude.{◌≡◌, [], IfOk, string_bytes};
ghost use Rattle.image_format.specs.Images.{image_data};
ghost use Rattle.command_files.specs.Pushed.{Pushed, Says, SaysNamedFault};
ghost use Rattle.command_files.specs.Verdict.{Verdict, unread, refused, refused_front, refused_line, unread_line, built_line, saved_line, drawn_line, traced_line, listed, listing_line, status_of};

use crate::file_faults::NamedFault;
use board_core::End;
use image_format::Image;
use image_list::list;
use outside_io::Sink;
use std::alloc::{AllocError, Global};

/// The status of a run, by how it ended.
pub fn status_by(end: End) -> u8
    ensures { result ≡ status_of end }
{
    match end {
        End::Bound | End::Still => 0,
        End::Supervisor => 6,
    }
}

/// Pushes a single line, and returns the status that goes with it.
pub fn tell<S: Sink>(line: &[u8], status: u8, out: &mut S) -> u8
    ensures { (v : Verdict) → v.status ≡ status → v.text ≡ line.now →
        Pushed (S.seen out.old) (S.seen out.new) v result }
{
    match out.push(line) {
        Ok(()) => status,
        Err(_) => 4,
    }
}

/// The line of a file that cannot be read.
#[tactic(auto, unfolding(crate::specs::Verdict::unread_line))]
pub fn line_of_unread(alloc: Global, name: &str) -> Result<String, AllocError>
    ensures { IfOk result (λ line. string_bytes line ≡ unread_line name.now) }
{
    format!(in alloc; "cannot read {name}\n")
}

// Writes that a file cannot be read.
fn tell_unread<S: Sink>(alloc: Global, name: &str, out: &mut S) -> u8
    ensures { Says (S.seen out.old) (S.seen out.new) (unread [] name.now) result }
{
    match line_of_unread(alloc, name) {
        Ok(line) => tell(line.as_bytes(), 3, out),
        Err(_) => 5,
    }
}

#[tactic(auto, unfolding(crate::specs::Verdict::refused_front))]
fn front_of_refused(alloc: Global, name: &str, cause: u8) -> Result<String, AllocError>
    ensures { IfOk result (λ line. string_bytes line ≡ refused_front name.now cause) }
{
    let front = format!(in alloc; "refused {name} {cause} ")?;
    Ok(front)
}

#[tactic(auto, unfolding(crate::specs::Verdict::refused_line))]
fn line_of_refused(alloc: Global, name: &str, cause: u8, place: &str) -> Result<String, AllocError>
    ensures { IfOk result (λ line. string_bytes line ≡ refused_line name.now cause place.now) }
{
    let mut line = front_of_refused(alloc, name, cause)?;
    line.push_str(place)?;
    line.push_str("\n")?;
    Ok(line)
}

// Writes that a file is refused, with the cause and the place.
fn tell_refused<S: Sink>(alloc: Global, name: &str, cause: u8, place: &str, out: &mut S) -> u8
    ensures { Says (S.seen out.old) (S.seen out.new) (refused name.now (cause, place.now)) result }
{
    match line_of_refused(alloc, name, cause, place) {
        Ok(line) => tell(line.as_bytes(), 1, out),
        Err(_) => 5,
    }
}

fn line_of_listing(alloc: Global, image: &Image) -> Result<String, AllocError>
    ensures { IfOk result (λ line. string_bytes line ≡ listing_line (image_data image.now)) }
{
    let mut line = list(alloc, image)?;
    line.push_str("\n")?;
    Ok(line)
}

/// Writes what an image contains.
pub fn tell_listing<S: Sink>(alloc: Global, image: &Image, out: &mut S) -> u8
    ensures { Says (S.seen out.old) (S.seen out.new) (listed (image_data image.now)) result }
{
    match line_of_listing(alloc, image) {
        Ok(line) => tell(line.as_bytes(), 0, out),
        Err(_) => 5,
    }
}

/// The line for an image of this many bytes that was built.
#[tactic(auto, unfolding(crate::specs::Verdict::built_line))]
pub fn line_of_built(alloc: Global, bytes: usize) -> Result<String, AllocError>
    ensures { IfOk result (λ line. string_bytes line ≡ built_line bytes) }
{
    format!(in alloc; "built {bytes} bytes\n")
}

/// The line for a state of this many bytes that was put.
#[tactic(auto, unfolding(crate::specs::Verdict::saved_line))]
pub fn line_of_saved(alloc: Global, bytes: usize) -> Result<String, AllocError>
    ensures { IfOk result (λ line. string_bytes line ≡ saved_line bytes) }
{
    format!(in alloc; "saved {bytes} bytes\n")
}

/// The line for a picture of this many bytes that was put.
#[tactic(auto, unfolding(crate::specs::Verdict::drawn_line))]
pub fn line_of_drawn(alloc: Global, bytes: usize) -> Result<String, AllocError>
    ensures { IfOk result (λ line. string_bytes line ≡ drawn_line bytes) }
{
    format!(in alloc; "drawn {bytes} bytes\n")
}

/// The line for a tracefile of this many bytes that was put.
#[tactic(auto, unfolding(crate::specs::Verdict::traced_line))]
pub fn line_of_traced(alloc: Global, bytes: usize) -> Result<String, AllocError>
    ensures { IfOk result (λ line. string_bytes line ≡ traced_line bytes) }
{
    format!(in alloc; "traced {bytes} bytes\n")
}

/// Writes what there is to say of a file that is not accepted.
pub fn tell_named_fault<S: Sink>(alloc: Global, named_fault: &NamedFault, out: &mut S) -> u8
    ensures { SaysNamedFault (S.seen out.old) (S.seen out.new) named_fault.now result }
{
    match named_fault {
        NamedFault::Memory => 5,
        NamedFault::CannotRead { name } => tell_unread(alloc, name, out),
        NamedFault::Refused { name, cause, place } => tell_refused(alloc, name, *cause, place, out),
    }
}

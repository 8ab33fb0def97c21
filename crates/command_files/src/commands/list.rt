//! What an image says: from its file to its listing.
ghost use Rattle.outside_io.specs.Seen.{OnlyReads};
ghost use Rattle.command_files.specs.Sources.{image_file, only};
ghost use Rattle.command_files.specs.Verdict.{Lists};
ghost use Rattle.command_files.specs.Answer.{AnswersBy};

use crate::lines::{tell_listing, tell_named_fault};
use crate::preparing::read_image;
use outside_io::{Files, Sink};
use std::alloc::Global;

/// `list IMAGE`.
pub fn list_file<F: Files, S: Sink>(alloc: Global, image: &str, files: &mut F, out: &mut S) -> u8
    ensures answer { AnswersBy (only (image_file image.now)) Lists (F.seen files.old)
        (F.seen files.new) (S.seen out.old) (S.seen out.new) result }
    ensures only_reads { OnlyReads (F.seen files.old) (F.seen files.new) }
{
    match read_image(alloc, files, image) {
        Ok(image_data) => tell_listing(alloc, &image_data, out),
        Err(named_fault) => tell_named_fault(alloc, &named_fault, out),
    }
}

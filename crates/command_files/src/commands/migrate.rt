//! An image of either form, put under a name in the second form.
ghost use Rattle.std.specs.Prelude.{◌≤◌};
ghost use Rattle.command_files.specs.Sources.{image_file, only};
ghost use Rattle.command_files.specs.Verdict.{Migrates};
ghost use Rattle.command_files.specs.Answer.{AnswersBy};

use crate::lines::tell_named_fault;
use crate::preparing::read_image;
use crate::putting::put_image;
use outside_io::{Files, Sink};
use std::alloc::Global;

/// `migrate IMAGE OUT`.
pub fn migrate_file<F: Files, S: Sink>(
    alloc: Global,
    image: &str,
    name: &str,
    files: &mut F,
    out: &mut S,
) -> u8
    ensures answer { AnswersBy (only (image_file image.now)) (Migrates name.now) (F.seen files.old)
        (F.seen files.new) (S.seen out.old) (S.seen out.new) result }
    ensures later { (F.seen files.old).read_faults ≤ (F.seen files.new).read_faults }
    ensures puts { (F.seen files.old).put_faults ≤ (F.seen files.new).put_faults }
{
    match read_image(alloc, files, image) {
        Ok(image_data) => put_image(alloc, &image_data, name, files, out),
        Err(named_fault) => tell_named_fault(alloc, &named_fault, out),
    }
}

//! From the files of an application to its image, which is put under a name.
ghost use Rattle.std.specs.Prelude.{◌≤◌};
ghost use Rattle.command_files.specs.Sources.{files_to_build};
ghost use Rattle.command_files.specs.Verdict.{Builds};
ghost use Rattle.command_files.specs.Answer.{AnswersBy};

use crate::building::built_image;
use crate::lines::tell_named_fault;
use crate::putting::put_image;
use outside_io::{Files, Sink};
use std::alloc::Global;

/// `build APP OUT`.
pub fn build_file<F: Files, S: Sink>(
    alloc: Global,
    app: &str,
    name: &str,
    files: &mut F,
    out: &mut S,
) -> u8
    ensures answer { AnswersBy (files_to_build app.now) (Builds name.now) (F.seen files.old)
        (F.seen files.new) (S.seen out.old) (S.seen out.new) result }
    ensures later { (F.seen files.old).read_faults ≤ (F.seen files.new).read_faults }
    ensures puts { (F.seen files.old).put_faults ≤ (F.seen files.new).put_faults }
{
    match built_image(alloc, files, app) {
        Ok(image) => put_image(alloc, &image, name, files, out),
        Err(named_fault) => tell_named_fault(alloc, &named_fault, out),
    }
}

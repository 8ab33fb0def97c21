//! Puts a file, and writes the line that says so.
ghost use Rattle.std.specs.Prelude.{◌≡◌, ◌≤◌, Some};
ghost use Rattle.image_format.specs.Images.{image_data};
ghost use Rattle.command_files.specs.Answer.{Tells};
ghost use Rattle.command_files.specs.Verdict.{Verdict, built};

use crate::lines::{line_of_built, tell};
use image_format::Image;
use outside_io::{Files, Sink};
use std::alloc::Global;

/// Puts bytes under a name, and writes this line about them.
pub fn put_told<F: Files, S: Sink>(
    bytes: &[u8],
    name: &str,
    line: &[u8],
    files: &mut F,
    out: &mut S,
) -> u8
    ensures tells { (v : Verdict) → v.status ≡ 0 → v.text ≡ line.now →
        v.put ≡ Some (name.now, bytes.now) →
        Tells (F.seen files.old) (F.seen files.new) (S.seen out.old) (S.seen out.new) v result }
    ensures reads { (F.seen files.new).read_faults ≡ (F.seen files.old).read_faults }
    ensures puts { (F.seen files.old).put_faults ≤ (F.seen files.new).put_faults }
{
    match files.put(name, bytes) {
        Ok(()) => tell(line, 0, out),
        Err(_) => 4,
    }
}

/// Puts an image under a name, and says so.
pub fn put_image<F: Files, S: Sink>(
    alloc: Global,
    image: &Image,
    name: &str,
    files: &mut F,
    out: &mut S,
) -> u8
    ensures tells { Tells (F.seen files.old) (F.seen files.new) (S.seen out.old) (S.seen out.new)
        (built name.now (image_data image.now)) result }
    ensures reads { (F.seen files.new).read_faults ≡ (F.seen files.old).read_faults }
    ensures puts { (F.seen files.old).put_faults ≤ (F.seen files.new).put_faults }
{
    let bytes = match image.write() {
        Ok(bytes) => bytes,
        Err(_) => return 5,
    };
    let line = match line_of_built(alloc, bytes.len()) {
        Ok(line) => line,
        Err(_) => return 5,
    };
    put_told(&bytes, name, line.as_bytes(), files, out)
}

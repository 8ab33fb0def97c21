//! The contents of files.
ghost use Rattle.std.specs.Prelude.{◌≡◌, ◌≤◌, ◌<◌, length, None, Ok, IfOk, IfErr};
ghost use Rattle.app_toml.specs.Held.{app_of};
ghost use Rattle.app_toml.specs.Reading.{read_app};
ghost use Rattle.image_format.specs.Images.{image_data};
ghost use Rattle.run_script.specs.Events.{script_data};
ghost use Rattle.outside_io.specs.Seen.{OnlyReads};
ghost use Rattle.command_files.specs.Contents.{file_limit, image_refusal, image_data_of, script_refusal, script_of, fault_in};
ghost use Rattle.command_files.specs.Sources.{MayBe};
ghost use Rattle.command_files.specs.FileFaults.{IsFaultFor, CannotTake};

use crate::file_faults::{FileFault, refused_at_number};
use app_toml::{App, AppFault};
use image_format::{Image, ImageFault};
use outside_io::{Files, ReadAll, read_all};
use run_script::{Script, ScriptFault};
use std::alloc::Global;

/// The most bytes of an image, a script, an application, a source, a saved state or commands.
pub const FILE_LIMIT: u32 = 2_097_152;

/// The contents under a name, of at most `limit` bytes.
pub fn read_contents<F: Files>(
    alloc: Global,
    files: &mut F,
    name: &str,
    limit: u32,
) -> Result<Vec<u8>, FileFault>
    ensures held { IfOk result (λ v. MayBe (F.seen files.old).contents name.now v.items) }
    ensures few { IfOk result (λ v. length v.items ≤ limit) }
    ensures file_fault { IfErr result
        (CannotTake (F.seen files.old) (F.seen files.new) name.now limit) }
    ensures only_reads { OnlyReads (F.seen files.old) (F.seen files.new) }
{
    match read_all(alloc, files, name, limit as usize) {
        Ok(bytes) => Ok(bytes),
        Err(ReadAll::Failed) => Err(FileFault::CannotRead),
        Err(ReadAll::TooLong) => Err(refused_at_number(alloc, 0, limit as u64)),
        Err(ReadAll::Memory) => Err(FileFault::Memory),
    }
}

/// The image that the bytes of a file spell.
pub fn image_in(alloc: Global, bytes: &[u8]) -> Result<Image, FileFault>
    requires { length bytes.now ≤ file_limit }
    ensures accepted { IfOk result (λ i. image_refusal bytes.now ≡ None) }
    ensures image { IfOk result (λ i. image_data i ≡ image_data_of bytes.now) }
    ensures file_fault { IfErr result (IsFaultFor (image_refusal bytes.now)) }
{
    match Image::read(alloc, bytes) {
        Ok(image) => Ok(image),
        Err(ImageFault::Refused { cause, place }) => {
            Err(refused_at_number(alloc, cause, place as u64))
        }
        Err(ImageFault::Memory) => Err(FileFault::Memory),
    }
}

/// The script that the bytes of a file hold.
pub fn script_in(alloc: Global, bytes: &[u8]) -> Result<Script, FileFault>
    requires { length bytes.now ≤ file_limit }
    ensures accepted { IfOk result (λ s. script_refusal bytes.now ≡ None) }
    ensures script { IfOk result (λ s. script_data s ≡ script_of bytes.now) }
    ensures file_fault { IfErr result (IsFaultFor (script_refusal bytes.now)) }
{
    match Script::read(alloc, bytes) {
        Ok(script) => Ok(script),
        Err(ScriptFault::Refused { cause, line }) => {
            Err(refused_at_number(alloc, cause, line as u64))
        }
        Err(ScriptFault::Memory) => Err(FileFault::Memory),
    }
}

/// The application that the bytes of a file describe, whatever it is wanted for.
pub fn app_in(alloc: Global, bytes: &[u8]) -> Result<App, FileFault>
    requires { length bytes.now ≤ file_limit }
    ensures app { IfOk result (λ a. read_app bytes.now ≡ Ok (app_of a)) }
    ensures file_fault { IfErr result (IsFaultFor (fault_in (read_app bytes.now))) }
{
    match App::read(alloc, bytes) {
        Ok(app) => Ok(app),
        Err(AppFault::Refused { cause, place }) => Err(FileFault::Refused { cause, place }),
        Err(AppFault::Memory) => Err(FileFault::Memory),
    }
}

//! From the files of a command to the board of its run.
ghost use Rattle.std.specs.Prelude.{ℕ, List, map, IfOk, IfErr};
ghost use Rattle.kernel_abi.specs.Devices.{AreFresh};
ghost use Rattle.app_toml.specs.Held.{app_of};
ghost use Rattle.image_format.specs.Images.{image_data};
ghost use Rattle.run_script.specs.Events.{script_data};
ghost use Rattle.outside_io.specs.Seen.{OnlyReads};
ghost use Rattle.command_files.specs.Sources.{File, image_file, script_file};
ghost use Rattle.command_files.specs.FileFaults.{IsNamedFaultOf};
ghost use Rattle.command_files.specs.Ready.{IsImageFile, IsScriptFile, IsSet, IsRunSet, TakesImage, TakesApp, IsAppSet, IsGoSet, IsNamedFaultIn};

use crate::building::{BuiltApp, built_app};
use crate::file_faults::{NamedFault, fault_named};
use crate::sources::{FILE_LIMIT, image_in, read_contents, script_in};
use board_core::Board;
use devices::Device;
use image_format::Image;
use outside_io::Files;
use run_script::Script;
use std::alloc::Global;

/// The image under a name.
pub fn read_image<F: Files>(alloc: Global, files: &mut F, name: &str) -> Result<Image, NamedFault>
    ensures image { IfOk result (λ i. IsImageFile (F.seen files.old).contents name.now
        (image_data i)) }
    ensures named_fault { IfErr result
        (IsNamedFaultOf (F.seen files.old) (F.seen files.new) (image_file name.now)) }
    ensures only_reads { OnlyReads (F.seen files.old) (F.seen files.new) }
{
    let bytes = match read_contents(alloc, files, name, FILE_LIMIT) {
        Ok(bytes) => bytes,
        Err(file_fault) => return Err(fault_named(alloc, name, file_fault)),
    };
    match image_in(alloc, &bytes) {
        Ok(image) => Ok(image),
        Err(file_fault) => Err(fault_named(alloc, name, file_fault)),
    }
}

/// The script under a name.
pub fn read_script<F: Files>(alloc: Global, files: &mut F, name: &str) -> Result<Script, NamedFault>
    ensures script { IfOk result (λ s. IsScriptFile (F.seen files.old).contents name.now
        (script_data s)) }
    ensures named_fault { IfErr result
        (IsNamedFaultOf (F.seen files.old) (F.seen files.new) (script_file name.now)) }
    ensures only_reads { OnlyReads (F.seen files.old) (F.seen files.new) }
{
    let bytes = match read_contents(alloc, files, name, FILE_LIMIT) {
        Ok(bytes) => bytes,
        Err(file_fault) => return Err(fault_named(alloc, name, file_fault)),
    };
    match script_in(alloc, &bytes) {
        Ok(script) => Ok(script),
        Err(file_fault) => Err(fault_named(alloc, name, file_fault)),
    }
}

// The board of an image with the script under a name and with devices.
fn set_up<F: Files>(
    alloc: Global,
    files: &mut F,
    image: &Image,
    script: &str,
    devices: Vec<Box<dyn Device>>,
) -> Result<Board, NamedFault>
    requires fresh { AreFresh (map shown devices.items) }
    ensures set { IfOk result (IsSet shown (map shown devices.items) (F.seen files.old).contents
        (image_data image.now) script.now) }
    ensures named_fault { IfErr result
        (IsNamedFaultOf (F.seen files.old) (F.seen files.new) (script_file script.now)) }
    ensures only_reads { OnlyReads (F.seen files.old) (F.seen files.new) }
{
    let script = match read_script(alloc, files, script) {
        Ok(script) => script,
        Err(named_fault) => return Err(named_fault),
    };
    match Board::open(alloc, image, &script, devices) {
        Ok(board) => Ok(board),
        Err(_) => Err(NamedFault::Memory),
    }
}

/// The board at the start of the run of the image and the script under these names, with devices.
/// This is the run of each command that takes these two files first.
pub fn prepare_run<F: Files>(
    alloc: Global,
    files: &mut F,
    image: &str,
    script: &str,
    devices: Vec<Box<dyn Device>>,
) -> Result<Board, NamedFault>
    requires fresh { AreFresh (map shown devices.items) }
    ensures set { IfOk result (IsRunSet shown (map shown devices.items) image.now script.now
        (F.seen files.old).contents) }
    ensures named_fault { (files_of : List ℕ → List File) →
        TakesImage files_of image.now script.now →
        IfErr result (IsNamedFaultIn files_of (F.seen files.old) (F.seen files.new)) }
    ensures only_reads { OnlyReads (F.seen files.old) (F.seen files.new) }
{
    match read_image(alloc, files, image) {
        Ok(image_data) => set_up(alloc, files, &image_data, script, devices),
        Err(named_fault) => Err(named_fault),
    }
}

/// The board at the start of the run of the application and the script under these names, with
/// devices, and the application. If it is wanted, also where the instructions and the labels of its
/// sources lie. This is the run of each command that takes these files.
pub fn prepare_app<F: Files>(
    alloc: Global,
    files: &mut F,
    app: &str,
    script: &str,
    wanted: bool,
    devices: Vec<Box<dyn Device>>,
) -> Result<(Board, BuiltApp), NamedFault>
    requires fresh { AreFresh (map shown devices.items) }
    ensures set { IfOk result (λ p. IsAppSet shown (map shown devices.items) app.now script.now
        (F.seen files.old).contents wanted p.0 (app_of p.1.app) p.1.lines) }
    ensures named_fault { (files_of : List ℕ → List File) →
        TakesApp files_of app.now script.now →
        IfErr result (IsNamedFaultIn files_of (F.seen files.old) (F.seen files.new)) }
    ensures only_reads { OnlyReads (F.seen files.old) (F.seen files.new) }
{
    let built = match built_app(alloc, files, app, wanted) {
        Ok(built) => built,
        Err(named_fault) => return Err(named_fault),
    };
    match set_up(alloc, files, &built.image, script, devices) {
        Ok(board) => Ok((board, built)),
        Err(named_fault) => Err(named_fault),
    }
}

/// The board at the start of the run of the application and the script under these names, with
/// devices.
pub fn prepare_go<F: Files>(
    alloc: Global,
    files: &mut F,
    app: &str,
    script: &str,
    devices: Vec<Box<dyn Device>>,
) -> Result<Board, NamedFault>
    requires fresh { AreFresh (map shown devices.items) }
    ensures set { IfOk result (IsGoSet shown (map shown devices.items) app.now script.now
        (F.seen files.old).contents) }
    ensures named_fault { (files_of : List ℕ → List File) →
        TakesApp files_of app.now script.now →
        IfErr result (IsNamedFaultIn files_of (F.seen files.old) (F.seen files.new)) }
    ensures only_reads { OnlyReads (F.seen files.old) (F.seen files.new) }
{
    match prepare_app(alloc, files, app, script, false, devices) {
        Ok((board, _)) => Ok(board),
        Err(named_fault) => Err(named_fault),
    }
}

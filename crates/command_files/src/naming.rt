//! The names of tasks: their places in an image, or the names that an application gives them.
ghost use Rattle.std.specs.Prelude.{◌≡◌, ◌≤◌, None, ℕ, List, IfOk, IfErr, length, map, option_map, string_bytes};
ghost use Rattle.kernel_abi.specs.Devices.{AreFresh};
ghost use Rattle.app_toml.specs.Sites.{task_of};
ghost use Rattle.board_core.specs.Stands.{count_of};
ghost use Rattle.outside_io.specs.Seen.{OnlyReads};
ghost use Rattle.command_files.specs.Contents.{file_limit, names_in, names_refusal};
ghost use Rattle.command_files.specs.FileFaults.{IsFaultFor, IsNamedFaultOf};
ghost use Rattle.command_files.specs.Ready.{AreNames, IsNamedFaultIn, IsNamedSet, IsNamesFault, IsNamesFile, TakesNamed};
ghost use Rattle.command_files.specs.Sources.{File, names_file};
ghost use Rattle.command_files.specs.Verdict.{task_name, task_names};

use crate::file_faults::{FileFault, NamedFault, fault_named, refused_at};
use crate::preparing::prepare_run;
use crate::sources::{FILE_LIMIT, app_in, read_contents};
use app_toml::TaskSpec;
use board_core::Board;
use devices::Device;
use outside_io::Files;
use std::alloc::{AllocError, Global};

// The name of a task of an image. An image has no names, so this is the task's place in it.
fn task_name(alloc: Global, i: usize) -> Result<String, AllocError>
    ensures { IfOk result (λ name. string_bytes name ≡ task_name i) }
{
    let name = format!(in alloc; "task {i}")?;
    Ok(name)
}

fn task_names(alloc: Global, tasks: usize) -> Result<Vec<String>, AllocError>
    ensures names { IfOk result (λ v. map string_bytes v.items ≡ task_names tasks) }
    ensures count { IfOk result (λ v. length v.items ≡ tasks) }
{
    let mut names = Vec::new(alloc);
    for i in 0..tasks {
        names.push(task_name(alloc, i)?)?;
    }
    Ok(names)
}

// The names of tasks of an application.
fn names_of(alloc: Global, tasks: &[TaskSpec]) -> Result<Vec<String>, AllocError>
    ensures names { IfOk result (λ v. map string_bytes v.items ≡ map (λ t. t.name)
        (map task_of tasks.now)) }
    ensures count { IfOk result (λ v. length v.items ≡ length tasks.now) }
{
    let mut names = Vec::new(alloc);
    for task in tasks {
        names.push(String::from_str(alloc, task.name.as_str())?)?;
    }
    Ok(names)
}

// The names of this many tasks, as the bytes of an application have them.
fn names_in(alloc: Global, tasks: usize, bytes: &[u8]) -> Result<Vec<String>, FileFault>
    requires { length bytes.now ≤ file_limit }
    ensures accepted { IfOk result (λ v. names_refusal tasks bytes.now ≡ None) }
    ensures names { IfOk result (λ v. map string_bytes v.items ≡ names_in bytes.now) }
    ensures count { IfOk result (λ v. length v.items ≡ tasks) }
    ensures file_fault { IfErr result (IsFaultFor (names_refusal tasks bytes.now)) }
{
    let app = match app_in(alloc, bytes) {
        Ok(app) => app,
        Err(file_fault) => return Err(file_fault),
    };
    let described = app.tasks();
    if described.len() != tasks {
        return Err(refused_at(22, String::from_str(alloc, "task")));
    }
    match names_of(alloc, described) {
        Ok(names) => Ok(names),
        Err(_) => Err(FileFault::Memory),
    }
}

// The same for the application under a name.
fn read_names_in<F: Files>(
    alloc: Global,
    files: &mut F,
    tasks: usize,
    name: &str,
) -> Result<Vec<String>, NamedFault>
    ensures names { IfOk result (λ v. IsNamesFile (F.seen files.old).contents tasks name.now
        (map string_bytes v.items)) }
    ensures count { IfOk result (λ v. length v.items ≡ tasks) }
    ensures named_fault { IfErr result
        (IsNamedFaultOf (F.seen files.old) (F.seen files.new) (names_file tasks name.now)) }
    ensures only_reads { OnlyReads (F.seen files.old) (F.seen files.new) }
{
    let bytes = match read_contents(alloc, files, name, FILE_LIMIT) {
        Ok(bytes) => bytes,
        Err(file_fault) => return Err(fault_named(alloc, name, file_fault)),
    };
    match names_in(alloc, tasks, &bytes) {
        Ok(names) => Ok(names),
        Err(file_fault) => Err(fault_named(alloc, name, file_fault)),
    }
}

// The names of this many tasks: those of an application, if one names them, or else their places.
fn read_names<F: Files>(
    alloc: Global,
    files: &mut F,
    tasks: usize,
    names: Option<&str>,
) -> Result<Vec<String>, NamedFault>
    ensures names { IfOk result (λ v. AreNames (F.seen files.old).contents tasks
        (option_map (λ n. n.now) names.entry) (map string_bytes v.items)) }
    ensures count { IfOk result (λ v. length v.items ≡ tasks) }
    ensures named_fault { IfErr result
        (IsNamesFault (F.seen files.old) (F.seen files.new) tasks
        (option_map (λ n. n.now) names.entry)) }
    ensures only_reads { OnlyReads (F.seen files.old) (F.seen files.new) }
{
    match names {
        Some(name) => read_names_in(alloc, files, tasks, name),
        None => match task_names(alloc, tasks) {
            Ok(names) => Ok(names),
            Err(_) => Err(NamedFault::Memory),
        },
    }
}

/// The board at the start of the run of the image and the script under these names, with devices,
/// and the names of its tasks. This is the run of each command that takes these two files and the
/// names of tasks.
pub fn prepare_named<F: Files>(
    alloc: Global,
    files: &mut F,
    image: &str,
    script: &str,
    names: Option<&str>,
    devices: Vec<Box<dyn Device>>,
) -> Result<(Board, Vec<String>), NamedFault>
    requires fresh { AreFresh (map shown devices.items) }
    ensures set { IfOk result (λ p. IsNamedSet shown (map shown devices.items) image.now script.now
        (option_map (λ n. n.now) names.entry) (F.seen files.old).contents p.0
        (map string_bytes p.1.items)) }
    ensures count { IfOk result (λ p. length p.1.items ≡ count_of p.0) }
    ensures named_fault { (files_of : List ℕ → List File) →
        TakesNamed files_of image.now script.now (option_map (λ n. n.now) names.entry) →
        IfErr result (IsNamedFaultIn files_of (F.seen files.old) (F.seen files.new)) }
    ensures only_reads { OnlyReads (F.seen files.old) (F.seen files.new) }
{
    let board = match prepare_run(alloc, files, image, script, devices) {
        Ok(board) => board,
        Err(named_fault) => return Err(named_fault),
    };
    let tasks = board.task_count();
    match read_names(alloc, files, tasks, names) {
        Ok(names) => Ok((board, names)),
        Err(named_fault) => Err(named_fault),
    }
}

//! A run from a saved state: from its files to what is written of it.
ghost use Rattle.std.specs.Prelude.{◌≡◌, ◌≤◌, ℕ, List, length, map, None, IfOk, IfErr};
ghost use Rattle.kernel_abi.specs.Devices.{DeviceData, AreFresh};
ghost use Rattle.mem_banks.specs.Memory.{AreAllBytes};
ghost use Rattle.image_format.specs.ImageData.{ImageData};
ghost use Rattle.image_format.specs.Images.{image_data};
ghost use Rattle.run_script.specs.Events.{script_data};
ghost use Rattle.board_core.specs.Opened.{scenario_of};
ghost use Rattle.board_core.specs.Stands.{turns_of};
ghost use Rattle.snapshot.specs.Saved.{expected_of};
ghost use Rattle.snapshot.specs.Waits.{state_fault};
ghost use Rattle.snapshot.specs.Loaded.{IsStateFault};
ghost use Rattle.outside_io.specs.Seen.{OnlyReads};
ghost use Rattle.command_files.specs.Contents.{file_limit, setup_of_image};
ghost use Rattle.command_files.specs.FileFaults.{IsFaultFor, IsNamedFaultOf};
ghost use Rattle.command_files.specs.Ready.{IsNamedFaultIn};
ghost use Rattle.command_files.specs.Answer.{AnswersBy};
ghost use Rattle.board_commands.specs.Contents.{state_refusal};
ghost use Rattle.board_commands.specs.Sources.{state_file, state_files};
ghost use Rattle.board_commands.specs.Ready.{StartsWell, StartsSeen, StartsUnless, IsLoaded, IsStateSet, IsResumable};
ghost use Rattle.board_commands.specs.Verdict.{Resumes};
ghost use Rattle.board_commands.specs.Answer.{TellsResumed};

use crate::run::tell_run;
use board_core::Board;
use command_files::{
    FILE_LIMIT, FileFault, NamedFault, fault_named, read_contents, read_image, read_script,
    refused_at_number, tell_named_fault,
};
use command_line::ResumeJob;
use devices::Device;
use image_format::Image;
use outside_io::{Files, Sink};
use run_script::Script;
use snapshot::{StateFault, load};
use std::alloc::Global;

// Why these bytes are refused as a state.
fn fault_by_state(alloc: Global, fault: StateFault) -> FileFault
    ensures { (devices : List DeviceData) (image : ImageData) (bound : ℕ) (bytes : List ℕ) →
        length bytes ≤ file_limit
        → IsStateFault (state_fault (expected_of (setup_of_image image) devices) bytes) fault →
        IsFaultFor (state_refusal devices image bound bytes) result }
{
    match fault {
        StateFault::Refused { cause, place } => refused_at_number(alloc, cause, place as u64),
        StateFault::Memory => FileFault::Memory,
    }
}

// The elements of a slice are bytes.
fn are_bytes(bytes: &[u8])
    ensures { AreAllBytes bytes.now }
{
    let _len = bytes.len();
}

// The run of an image and a script that were read, with devices to which nothing has come yet,
// starts well.
fn starts_well(image: &Image, script: &Script)
    ensures { (devices : List DeviceData) → AreFresh devices →
        StartsWell (scenario_of (image_data image.now) (script_data script.now) devices) }
{
    image.facts();
    script.facts();
    are_bytes(image.flash());
}

// The board in the state that the bytes spell. That state is of no turn after the bound.
fn board_in(
    alloc: Global,
    image: &Image,
    script: &Script,
    bytes: &[u8],
    bound: u32,
    devices: Vec<Box<dyn Device>>,
) -> Result<Board, FileFault>
    requires fresh { AreFresh (map shown devices.items) }
    requires few { length bytes.now ≤ file_limit }
    ensures accepted { IfOk result (λ b. state_refusal (map shown devices.items)
        (image_data image.now)
        bound bytes.now ≡ None) }
    ensures loaded { IfOk result (IsLoaded shown
        (scenario_of (image_data image.now) (script_data script.now) (map shown devices.items))
        bytes.now) }
    ensures turns { IfOk result (λ b. turns_of b ≤ bound) }
    ensures file_fault { IfErr result
        (IsFaultFor (state_refusal (map shown devices.items) (image_data image.now) bound
        bytes.now)) }
{
    let board = match load(alloc, image, script, bytes, devices) {
        Ok(board) => board,
        Err(fault) => return Err(fault_by_state(alloc, fault)),
    };
    if board.turns() > bound {
        return Err(refused_at_number(alloc, 8, 4));
    }
    Ok(board)
}

// The board of an image with a script and with devices, in the state under a name.
fn set_state<F: Files>(
    alloc: Global,
    files: &mut F,
    image: &Image,
    script: &Script,
    state: &str,
    bound: u32,
    devices: Vec<Box<dyn Device>>,
) -> Result<Board, NamedFault>
    requires fresh { AreFresh (map shown devices.items) }
    ensures set { IfOk result (IsStateSet shown (map shown devices.items)
        (F.seen files.old).contents (image_data image.now) (script_data script.now) state.now
        bound) }
    ensures named_fault { IfErr result
        (IsNamedFaultOf (F.seen files.old) (F.seen files.new)
        (state_file (map shown devices.items) (image_data image.now) bound state.now)) }
    ensures starts { StartsWell (scenario_of (image_data image.now) (script_data script.now)
        (map shown devices.items)) }
    ensures only_reads { OnlyReads (F.seen files.old) (F.seen files.new) }
{
    starts_well(image, script);
    let bytes = match read_contents(alloc, files, state, FILE_LIMIT) {
        Ok(bytes) => bytes,
        Err(file_fault) => return Err(fault_named(alloc, state, file_fault)),
    };
    match board_in(alloc, image, script, &bytes, bound, devices) {
        Ok(board) => Ok(board),
        Err(file_fault) => Err(fault_named(alloc, state, file_fault)),
    }
}

// The board in the state from which the run of the job's image and script goes on, with devices.
fn prepare_resume<F: Files>(
    alloc: Global,
    files: &mut F,
    job: &ResumeJob,
    devices: Vec<Box<dyn Device>>,
) -> Result<Board, NamedFault>
    requires fresh { AreFresh (map shown devices.items) }
    ensures ready { IfOk result (IsResumable shown (map shown devices.items) job.now.image.now
        job.now.script.now job.now.state.now (F.seen files.old).contents job.now.steps) }
    ensures named_fault { IfErr result (IsNamedFaultIn
        (state_files (map shown devices.items) job.now.image.now job.now.script.now
        job.now.state.now job.now.steps)
        (F.seen files.old) (F.seen files.new)) }
    ensures starts { IfOk result (λ b. StartsSeen (map shown devices.items)
        (F.seen files.old).contents job.now.image.now job.now.script.now) }
    ensures unless { IfErr result (StartsUnless (map shown devices.items) (F.seen files.old)
        (F.seen files.new) job.now.image.now job.now.script.now) }
    ensures only_reads { OnlyReads (F.seen files.old) (F.seen files.new) }
{
    let image_data = match read_image(alloc, files, job.image) {
        Ok(image_data) => image_data,
        Err(named_fault) => return Err(named_fault),
    };
    let events = match read_script(alloc, files, job.script) {
        Ok(events) => events,
        Err(named_fault) => return Err(named_fault),
    };
    set_state(
        alloc,
        files,
        &image_data,
        &events,
        job.state,
        job.steps,
        devices,
    )
}

/// `resume IMAGE SCRIPT STATE --steps M [--all] [--mem]`.
pub fn resume_files<F: Files, S: Sink>(
    alloc: Global,
    job: &ResumeJob,
    files: &mut F,
    out: &mut S,
    devices: Vec<Box<dyn Device>>,
) -> u8
    requires fresh { AreFresh (map shown devices.items) }
    requires few { job.now.steps ≤ 1000000000 }
    ensures answer { AnswersBy
        (state_files (map shown devices.items) job.now.image.now job.now.script.now
        job.now.state.now job.now.steps)
        (Resumes job.now.steps job.now.detail (map shown devices.items)) (F.seen files.old)
        (F.seen files.new) (S.seen out.old) (S.seen out.new) result }
    ensures each { TellsResumed (map shown devices.items) job.now.image.now job.now.script.now
        job.now.state.now job.now.steps job.now.detail (F.seen files.old) (F.seen files.new)
        (S.seen out.old) (S.seen out.new) result }
    ensures only_reads { OnlyReads (F.seen files.old) (F.seen files.new) }
{
    match prepare_resume(alloc, files, job, devices) {
        Ok(board) => {
            let mut board = board;
            tell_run(&mut board, job.steps, job.detail, out)
        }
        Err(named_fault) => tell_named_fault(alloc, &named_fault, out),
    }
}

//! A sweep: from its files to its lines.
ghost use Rattle.std.specs.Prelude.{◌≡◌, ◌≤◌, List, None, IfOk, IfErr, length, map};
ghost use Rattle.kernel_abi.specs.Devices.{AreFresh};
ghost use Rattle.run_script.specs.Events.{script_data};
ghost use Rattle.run_script.specs.Scripts.{Listed};
ghost use Rattle.board_model.specs.Script.{Scenario};
ghost use Rattle.board_core.specs.Data.{boxed};
ghost use Rattle.sweep_core.specs.Sweeping.{IsReady as IsReadyToSweep, asked};
ghost use Rattle.command_line.specs.Asking.{asked_sweep};
ghost use Rattle.outside_io.specs.Seen.{OnlyReads};
ghost use Rattle.command_files.specs.Contents.{file_limit, script_of};
ghost use Rattle.trace_cli.specs.Contents.{arrival_refusal};
ghost use Rattle.trace_cli.specs.Sources.{arrival_file, files_of};
ghost use Rattle.command_files.specs.FileFaults.{IsFaultFor, IsNamedFaultOf};
ghost use Rattle.trace_cli.specs.Ready.{IsArrivalFile, IsSweepReady};
ghost use Rattle.command_files.specs.Ready.{IsNamedFaultIn};
ghost use Rattle.command_files.specs.Pushed.{Pushed};
ghost use Rattle.trace_cli.specs.Verdict.{swept};
ghost use Rattle.trace_cli.specs.Answer.{AnswersJob};

use board_core::Board;
use command_files::{
    FILE_LIMIT, FileFault, NamedFault, fault_named, read_contents, read_image, read_script,
    refused_at_number, script_in, tell_named_fault,
};
use command_line::SweepJob;
use devices::Device;
use outside_io::{Files, Sink};
use run_script::Script;
use std::alloc::Global;
use sweep_core::Sweeper;

/// The most events of an arrival.
const MOST_ARRIVING: usize = 256;

// The script of an arrival that the bytes of a file hold.
fn arrival_in(alloc: Global, bytes: &[u8]) -> Result<Script, FileFault>
    requires { length bytes.now ≤ file_limit }
    ensures accepted { IfOk result (λ s. arrival_refusal bytes.now ≡ None) }
    ensures script { IfOk result (λ s. script_data s ≡ script_of bytes.now) }
    ensures file_fault { IfErr result (IsFaultFor (arrival_refusal bytes.now)) }
{
    let script = match script_in(alloc, bytes) {
        Ok(script) => script,
        Err(file_fault) => return Err(file_fault),
    };
    if script.count() > MOST_ARRIVING {
        return Err(refused_at_number(alloc, 5, 0));
    }
    if script.has_every() {
        return Err(refused_at_number(alloc, 6, 0));
    }
    Ok(script)
}

// The arrival under a name.
fn read_arrival<F: Files>(alloc: Global, files: &mut F, name: &str) -> Result<Script, NamedFault>
    ensures arrival { IfOk result (λ s. IsArrivalFile (F.seen files.old).contents name.now
        (script_data s)) }
    ensures named_fault { IfErr result
        (IsNamedFaultOf (F.seen files.old) (F.seen files.new) (arrival_file name.now)) }
    ensures only_reads { OnlyReads (F.seen files.old) (F.seen files.new) }
{
    let bytes = match read_contents(alloc, files, name, FILE_LIMIT) {
        Ok(bytes) => bytes,
        Err(file_fault) => return Err(fault_named(alloc, name, file_fault)),
    };
    match arrival_in(alloc, &bytes) {
        Ok(arrival) => Ok(arrival),
        Err(file_fault) => Err(fault_named(alloc, name, file_fault)),
    }
}

// The sweeper at the start of the run of the job's image and script, with devices and the job's
// arrival.
fn prepare_sweep<F: Files>(
    alloc: Global,
    files: &mut F,
    job: &SweepJob,
    devices: Vec<Box<dyn Device>>,
) -> Result<Sweeper, NamedFault>
    requires fresh { AreFresh (map shown devices.items) }
    ensures ready { IfOk result (IsSweepReady shown (map shown devices.items) (asked_sweep job.now)
        (F.seen files.old).contents job.now.from job.now.to job.now.steps job.now.memory) }
    ensures named_fault { IfErr result
        (IsNamedFaultIn (files_of (map shown devices.items) (asked_sweep job.now))
        (F.seen files.old) (F.seen files.new)) }
    ensures only_reads { OnlyReads (F.seen files.old) (F.seen files.new) }
{
    let image_data = match read_image(alloc, files, job.image) {
        Ok(image_data) => image_data,
        Err(named_fault) => return Err(named_fault),
    };
    let events = match read_script(alloc, files, job.script) {
        Ok(events) => events,
        Err(named_fault) => return Err(named_fault),
    };
    let arrival = match read_arrival(alloc, files, job.arrival) {
        Ok(arrival) => arrival,
        Err(named_fault) => return Err(named_fault),
    };
    let board = match Board::open(alloc, &image_data, &events, devices) {
        Ok(board) => board,
        Err(_) => return Err(NamedFault::Memory),
    };
    match Sweeper::open(alloc, board, &events, &arrival) {
        Ok(sweeper) => Ok(sweeper),
        Err(_) => Err(NamedFault::Memory),
    }
}

// Writes the sweep, from a sweeper at its start.
fn tell_sweep<S: Sink>(sweeper: &mut Sweeper, job: &SweepJob, out: &mut S) -> u8
    requires ready { (x : Scenario) × (arrival : List Listed)
        × IsReadyToSweep (boxed shown) x arrival sweeper.old }
    requires range { job.now.to ≤ 1000000000 }
    requires few { job.now.steps ≤ 1000000000 }
    ensures { (x : Scenario) (arrival : List Listed) →
        IsReadyToSweep (boxed shown) x arrival sweeper.old → Pushed (S.seen out.old)
        (S.seen out.new)
        (swept x (asked arrival job.now.from job.now.to job.now.steps job.now.memory)) result }
{
    match sweeper.sweep(job.from, job.to, job.steps, job.memory, out) {
        Ok(true) => 8,
        Ok(false) => 0,
        Err(_) => 4,
    }
}

/// `sweep IMAGE SCRIPT ARRIVAL FROM TO --steps N [--mem]`.
pub fn sweep_files<F: Files, S: Sink>(
    alloc: Global,
    job: &SweepJob,
    files: &mut F,
    out: &mut S,
    devices: Vec<Box<dyn Device>>,
) -> u8
    requires fresh { AreFresh (map shown devices.items) }
    requires range { job.now.to ≤ 1000000000 }
    requires few { job.now.steps ≤ 1000000000 }
    ensures answer { AnswersJob (map shown devices.items) (asked_sweep job.now) (F.seen files.old)
        (F.seen files.new) (S.seen out.old) (S.seen out.new) result }
    ensures only_reads { OnlyReads (F.seen files.old) (F.seen files.new) }
{
    match prepare_sweep(alloc, files, job, devices) {
        Ok(sweeper) => {
            let mut sweeper = sweeper;
            tell_sweep(&mut sweeper, job, out)
        }
        Err(named_fault) => tell_named_fault(alloc, &named_fault, out),
    }
}

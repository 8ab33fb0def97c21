//! Commands over a run: from their files to the answers.
ghost use Rattle.std.specs.Prelude.{◌≡◌, ◌≤◌, Ok, length, map, None, IfOk, IfErr};
ghost use Rattle.kernel_abi.specs.Devices.{AreFresh};
ghost use Rattle.board_model.specs.Script.{Scenario, start_of};
ghost use Rattle.board_core.specs.Data.{boxed};
ghost use Rattle.board_core.specs.Stands.{Stands};
ghost use Rattle.debug_core.specs.Listed.{listed};
ghost use Rattle.debug_core.specs.Reading.{commands_or_fault};
ghost use Rattle.command_line.specs.Asking.{asked_debug};
ghost use Rattle.outside_io.specs.Seen.{OnlyReads};
ghost use Rattle.command_files.specs.Contents.{file_limit};
ghost use Rattle.trace_cli.specs.Contents.{commands_refusal};
ghost use Rattle.trace_cli.specs.Sources.{commands_file, files_of};
ghost use Rattle.command_files.specs.FileFaults.{IsFaultFor, IsNamedFaultOf};
ghost use Rattle.trace_cli.specs.Ready.{IsCommandsFile, IsDebugReady};
ghost use Rattle.command_files.specs.Ready.{IsNamedFaultIn};
ghost use Rattle.command_files.specs.Pushed.{Says};
ghost use Rattle.trace_cli.specs.Verdict.{debugged};
ghost use Rattle.trace_cli.specs.Answer.{AnswersJob};

use board_core::Board;
use command_files::{
    FILE_LIMIT, FileFault, NamedFault, fault_named, read_contents, read_image, read_script,
    refused_at_number, tell_named_fault,
};
use command_line::DebugJob;
use debug_core::{CommandFault, Commands, Debugger};
use devices::Device;
use outside_io::{Files, Sink};
use std::alloc::Global;

// The commands that the bytes of a file say.
fn commands_in(alloc: Global, bytes: &[u8]) -> Result<Commands, FileFault>
    requires { length bytes.now ≤ file_limit }
    ensures accepted { IfOk result (λ c. commands_refusal bytes.now ≡ None) }
    ensures commands { IfOk result (λ c. commands_or_fault bytes.now ≡ Ok (listed c)) }
    ensures file_fault { IfErr result (IsFaultFor (commands_refusal bytes.now)) }
{
    match Commands::read(alloc, bytes) {
        Ok(commands) => Ok(commands),
        Err(CommandFault::Refused { cause, line }) => {
            Err(refused_at_number(alloc, cause, line as u64))
        }
        Err(CommandFault::Memory) => Err(FileFault::Memory),
    }
}

// The commands under a name.
fn read_commands<F: Files>(alloc: Global, files: &mut F, name: &str) -> Result<Commands, NamedFault>
    ensures commands { IfOk result (λ c. IsCommandsFile (F.seen files.old).contents name.now
        (listed c)) }
    ensures named_fault { IfErr result
        (IsNamedFaultOf (F.seen files.old) (F.seen files.new) (commands_file name.now)) }
    ensures only_reads { OnlyReads (F.seen files.old) (F.seen files.new) }
{
    let bytes = match read_contents(alloc, files, name, FILE_LIMIT) {
        Ok(bytes) => bytes,
        Err(file_fault) => return Err(fault_named(alloc, name, file_fault)),
    };
    match commands_in(alloc, &bytes) {
        Ok(commands) => Ok(commands),
        Err(file_fault) => Err(fault_named(alloc, name, file_fault)),
    }
}

// The board at the start of the run of the job's image and script, with devices, and the job's
// commands.
fn prepare_debug<F: Files>(
    alloc: Global,
    files: &mut F,
    job: &DebugJob,
    devices: Vec<Box<dyn Device>>,
) -> Result<(Board, Commands), NamedFault>
    requires fresh { AreFresh (map shown devices.items) }
    ensures ready { IfOk result (λ p. IsDebugReady shown (map shown devices.items)
        (asked_debug job.now) (F.seen files.old).contents (listed p.1) p.0) }
    ensures named_fault { IfErr result
        (IsNamedFaultIn (files_of (map shown devices.items) (asked_debug job.now))
        (F.seen files.old) (F.seen files.new)) }
    ensures only_reads { OnlyReads (F.seen files.old) (F.seen files.new) }
{
    let image_data = match read_image(alloc, files, job.image) {
        Ok(image_data) => image_data,
        Err(named_fault) => return Err(named_fault),
    };
    let events = match read_script(alloc, files, job.script) {
        Ok(events) => events,
        Err(named_fault) => return Err(named_fault),
    };
    let commands = match read_commands(alloc, files, job.commands) {
        Ok(commands) => commands,
        Err(named_fault) => return Err(named_fault),
    };
    match Board::open(alloc, &image_data, &events, devices) {
        Ok(board) => Ok((board, commands)),
        Err(_) => Err(NamedFault::Memory),
    }
}

// Carries commands out over the run of a board from its start.
fn carry_out<S: Sink>(alloc: Global, board: Board, commands: &Commands, out: &mut S) -> u8
    requires started { (x : Scenario) × Stands (boxed shown) x board (start_of x) }
    ensures { (x : Scenario) → Stands (boxed shown) x board (start_of x) →
        Says (S.seen out.old) (S.seen out.new) (debugged x (listed commands.now)) result }
{
    let mut debugger = match Debugger::open(alloc, board) {
        Ok(debugger) => debugger,
        Err(_) => return 5,
    };
    match debugger.carry_out_all(commands, out) {
        Ok(()) => 0,
        Err(_) => 4,
    }
}

/// `debug IMAGE SCRIPT COMMANDS`.
pub fn debug_files<F: Files, S: Sink>(
    alloc: Global,
    job: &DebugJob,
    files: &mut F,
    out: &mut S,
    devices: Vec<Box<dyn Device>>,
) -> u8
    requires fresh { AreFresh (map shown devices.items) }
    ensures answer { AnswersJob (map shown devices.items) (asked_debug job.now) (F.seen files.old)
        (F.seen files.new) (S.seen out.old) (S.seen out.new) result }
    ensures only_reads { OnlyReads (F.seen files.old) (F.seen files.new) }
{
    match prepare_debug(alloc, files, job, devices) {
        Ok((board, commands)) => carry_out(alloc, board, &commands, out),
        Err(named_fault) => tell_named_fault(alloc, &named_fault, out),
    }
}

//! Lines that are carried out over a run as they come: from their files to the answers.
ghost use Rattle.std.specs.Prelude.{map};
ghost use Rattle.kernel_abi.specs.Devices.{AreFresh};
ghost use Rattle.board_model.specs.Script.{Scenario, start_of};
ghost use Rattle.board_core.specs.Data.{boxed};
ghost use Rattle.board_core.specs.Stands.{Stands};
ghost use Rattle.command_line.specs.Asking.{asked_live};
ghost use Rattle.outside_io.specs.Seen.{OnlyReads};
ghost use Rattle.trace_cli.specs.Pushed.{SaysLive};
ghost use Rattle.trace_cli.specs.Answer.{AnswersJob};

use board_core::Board;
use command_files::{line_of_unread, prepare_run, tell, tell_named_fault};
use command_line::LiveJob;
use debug_core::{Debugger, LiveFault};
use devices::Device;
use outside_io::{Files, Sink};
use std::alloc::Global;

// Carries the lines under a name out over the run of a board from its start, as they come. The line
// that says that they cannot be read is made before the first of them, because memory may run out
// then, but not later.
fn carry_out<F: Files, S: Sink>(
    alloc: Global,
    board: Board,
    files: &mut F,
    commands: &str,
    out: &mut S,
) -> u8
    requires started { (x : Scenario) × Stands (boxed shown) x board (start_of x) }
    ensures says { (x : Scenario) → Stands (boxed shown) x board (start_of x) →
        SaysLive x commands.now (F.seen files.old) (F.seen files.new) (S.seen out.old)
        (S.seen out.new) result }
    ensures only_reads { OnlyReads (F.seen files.old) (F.seen files.new) }
{
    let unread = match line_of_unread(alloc, commands) {
        Ok(line) => line,
        Err(_) => return 5,
    };
    let mut debugger = match Debugger::open(alloc, board) {
        Ok(debugger) => debugger,
        Err(_) => return 5,
    };
    match debugger.carry_out_live(files, commands, out) {
        Ok(()) => 0,
        Err(LiveFault::Unread) => tell(unread.as_bytes(), 3, out),
        Err(LiveFault::Failed) => 4,
    }
}

/// `live IMAGE SCRIPT COMMANDS`.
pub fn live_files<F: Files, S: Sink>(
    alloc: Global,
    job: &LiveJob,
    files: &mut F,
    out: &mut S,
    devices: Vec<Box<dyn Device>>,
) -> u8
    requires fresh { AreFresh (map shown devices.items) }
    ensures answer { AnswersJob (map shown devices.items) (asked_live job.now) (F.seen files.old)
        (F.seen files.new) (S.seen out.old) (S.seen out.new) result }
    ensures only_reads { OnlyReads (F.seen files.old) (F.seen files.new) }
{
    match prepare_run(alloc, files, job.image, job.script, devices) {
        Ok(board) => carry_out(alloc, board, files, job.commands, out),
        Err(named_fault) => tell_named_fault(alloc, &named_fault, out),
    }
}

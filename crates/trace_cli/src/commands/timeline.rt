//! A run, written as a timeline.
ghost use Rattle.std.specs.Prelude.{◌≡◌, ◌≤◌, length, map, string_bytes};
ghost use Rattle.kernel_abi.specs.Devices.{AreFresh};
ghost use Rattle.board_model.specs.Script.{Scenario, start_of};
ghost use Rattle.board_core.specs.Data.{boxed};
ghost use Rattle.board_core.specs.Stands.{Stands, StandsForSome, count_of, turns_of};
ghost use Rattle.command_line.specs.Asking.{asked_timeline};
ghost use Rattle.outside_io.specs.Seen.{OnlyReads};
ghost use Rattle.command_files.specs.Pushed.{Says};
ghost use Rattle.trace_cli.specs.Verdict.{timed};
ghost use Rattle.trace_cli.specs.Answer.{AnswersJob};

use board_core::Board;
use command_files::{prepare_named, status_by, tell_named_fault};
use command_line::TimelineJob;
use devices::Device;
use outside_io::{Files, Sink};
use run_lanes::{TimelineFault, write_timeline};
use std::alloc::Global;

// Writes the run of a board from its start as events, with these names of tasks.
fn time_board<S: Sink>(
    alloc: Global,
    board: &mut Board,
    names: &[String],
    steps: u32,
    out: &mut S,
) -> u8
    requires stood { StandsForSome (boxed shown) board.old }
    requires fresh { turns_of board.old ≡ 0 }
    requires few { steps ≤ 1000000000 }
    requires named { length names.now ≡ count_of board.old }
    ensures { (x : Scenario) → Stands (boxed shown) x board.old (start_of x) →
        Says (S.seen out.old) (S.seen out.new) (timed steps (map string_bytes names.now) x) result }
{
    match write_timeline(alloc, board, steps, names, out) {
        Ok(end) => status_by(end),
        Err(TimelineFault::Memory) => 5,
        Err(TimelineFault::Failed) => 4,
    }
}

/// `timeline IMAGE SCRIPT --steps N [--names APP]`.
pub fn timeline_files<F: Files, S: Sink>(
    alloc: Global,
    job: &TimelineJob,
    files: &mut F,
    out: &mut S,
    devices: Vec<Box<dyn Device>>,
) -> u8
    requires fresh { AreFresh (map shown devices.items) }
    requires few { job.now.steps ≤ 1000000000 }
    ensures answer { AnswersJob (map shown devices.items) (asked_timeline job.now)
        (F.seen files.old) (F.seen files.new) (S.seen out.old) (S.seen out.new) result }
    ensures only_reads { OnlyReads (F.seen files.old) (F.seen files.new) }
{
    match prepare_named(alloc, files, job.image, job.script, job.names, devices) {
        Ok((board, names)) => {
            let mut board = board;
            time_board(alloc, &mut board, &names, job.steps, out)
        }
        Err(named_fault) => tell_named_fault(alloc, &named_fault, out),
    }
}

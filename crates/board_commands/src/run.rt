//! Writes the run of a board from the state that it stands for; for `run` and `go` that is the
//! start.
ghost use Rattle.std.specs.Prelude.{◌≡◌, ◌≤◌, map, IfOk};
ghost use Rattle.kernel_abi.specs.Devices.{AreFresh};
ghost use Rattle.outside_io.specs.Outside.{Pushes, HasCause};
ghost use Rattle.outside_io.specs.Seen.{OnlyReads};
ghost use Rattle.task_table.specs.model.State.{State};
ghost use Rattle.board_model.specs.Script.{Scenario, start_of};
ghost use Rattle.board_core.specs.Data.{boxed};
ghost use Rattle.board_core.specs.Stands.{Stands, StandsForSome, turns_of};
ghost use Rattle.command_files.specs.Pushed.{Pushed};
ghost use Rattle.board_commands.specs.Sources.{image_and_script, app_and_script};
ghost use Rattle.board_commands.specs.Verdict.{level_of, resumed, run_from, Runs, Goes};
ghost use Rattle.board_commands.specs.Fit.{IsOfRun, IsFitRun};
ghost use Rattle.board_commands.specs.Answer.{AnswersRun};

use board_core::{Board, End, Level};
use board_run::{run, write_memory};
use command_files::{prepare_go, prepare_run, status_by, tell_named_fault};
use command_line::{Detail, GoJob, RunJob};
use devices::Device;
use outside_io::{Failed, Files, Sink};
use std::alloc::Global;

fn level_of(detail: Detail) -> Level
    ensures { result ≡ level_of detail }
{
    if detail.instructions {
        Level::All
    } else {
        Level::Calls
    }
}

// Pushes a run's trace, and then perhaps its memory. If the run begins at its start, its numbers
// are in range.
fn push_run<S: Sink>(
    board: &mut Board,
    steps: u32,
    detail: Detail,
    out: &mut S,
) -> Result<End, Failed>
    requires stood { StandsForSome (boxed shown) board.old }
    requires from { turns_of board.old ≤ steps }
    requires few { steps ≤ 1000000000 }
    ensures text { (x : Scenario) (s : State) → Stands (boxed shown) x board.old s →
        Pushes (S.seen out.old).written (S.seen out.new).written (resumed steps detail x s).text
        result }
    ensures end { (x : Scenario) (s : State) → Stands (boxed shown) x board.old s →
        IfOk result (λ e. e ≡ (run_from (level_of detail) steps x s).end) }
    ensures fits { (x : Scenario) → Stands (boxed shown) x board.old (start_of x) →
        IfOk result (λ _. IsFitRun x (run_from (level_of detail) steps x (start_of x))) }
    ensures cause { HasCause (S.seen out.old).faults (S.seen out.new).faults result }
{
    let end = run(board, steps, level_of(detail), out)?;
    if detail.memory {
        write_memory(board, out)?;
    }
    Ok(end)
}

/// Writes the run of a board up to a turn.
pub fn tell_run<S: Sink>(board: &mut Board, steps: u32, detail: Detail, out: &mut S) -> u8
    requires stood { StandsForSome (boxed shown) board.old }
    requires from { turns_of board.old ≤ steps }
    requires few { steps ≤ 1000000000 }
    ensures pushed { (x : Scenario) (s : State) → Stands (boxed shown) x board.old s →
        Pushed (S.seen out.old) (S.seen out.new) (resumed steps detail x s) result }
    ensures fits { (x : Scenario) → Stands (boxed shown) x board.old (start_of x) → IsOfRun result →
        IsFitRun x (run_from (level_of detail) steps x (start_of x)) }
{
    match push_run(board, steps, detail, out) {
        Ok(end) => status_by(end),
        Err(_) => 4,
    }
}

/// `run IMAGE SCRIPT --steps N [--all] [--mem]`.
pub fn run_files<F: Files, S: Sink>(
    alloc: Global,
    job: &RunJob,
    files: &mut F,
    out: &mut S,
    devices: Vec<Box<dyn Device>>,
) -> u8
    requires fresh { AreFresh (map shown devices.items) }
    requires few { job.now.steps ≤ 1000000000 }
    ensures answer { AnswersRun (image_and_script job.now.image.now job.now.script.now)
        (Runs job.now.steps job.now.detail (map shown devices.items)) job.now.steps job.now.detail
        (F.seen files.old) (F.seen files.new) (S.seen out.old) (S.seen out.new) result }
    ensures only_reads { OnlyReads (F.seen files.old) (F.seen files.new) }
{
    match prepare_run(alloc, files, job.image, job.script, devices) {
        Ok(board) => {
            let mut board = board;
            tell_run(&mut board, job.steps, job.detail, out)
        }
        Err(named_fault) => tell_named_fault(alloc, &named_fault, out),
    }
}

/// `go APP SCRIPT --steps N [--all] [--mem]`.
pub fn go_files<F: Files, S: Sink>(
    alloc: Global,
    job: &GoJob,
    files: &mut F,
    out: &mut S,
    devices: Vec<Box<dyn Device>>,
) -> u8
    requires fresh { AreFresh (map shown devices.items) }
    requires few { job.now.steps ≤ 1000000000 }
    ensures answer { AnswersRun (app_and_script job.now.app.now job.now.script.now)
        (Goes job.now.steps job.now.detail (map shown devices.items)) job.now.steps job.now.detail
        (F.seen files.old) (F.seen files.new) (S.seen out.old) (S.seen out.new) result }
    ensures only_reads { OnlyReads (F.seen files.old) (F.seen files.new) }
{
    match prepare_go(alloc, files, job.app, job.script, devices) {
        Ok(board) => {
            let mut board = board;
            tell_run(&mut board, job.steps, job.detail, out)
        }
        Err(named_fault) => tell_named_fault(alloc, &named_fault, out),
    }
}

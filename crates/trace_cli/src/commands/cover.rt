//! Writes how often a run executed each instruction.
ghost use Rattle.std.specs.Prelude.{◌≡◌, ◌≤◌, [], map, false, true};
ghost use Rattle.kernel_abi.specs.Devices.{AreFresh};
ghost use Rattle.board_model.specs.Script.{Scenario, start_of};
ghost use Rattle.board_core.specs.Data.{boxed};
ghost use Rattle.board_core.specs.Stands.{Stands, StandsForSome, turns_of};
ghost use Rattle.command_line.specs.Asking.{asked_cover};
ghost use Rattle.command_line.specs.CommandLine.{cover as cover_job};
ghost use Rattle.thumb_asm.specs.Listed.{labels_in};
ghost use Rattle.outside_io.specs.Seen.{OnlyReads};
ghost use Rattle.trace_cli.specs.Pushed.{SaysCovered};
ghost use Rattle.trace_cli.specs.Answer.{AnswersJob};

use board_core::Board;
use command_files::{prepare_app, prepare_run, status_by, tell_named_fault};
use command_line::CoverJob;
use devices::Device;
use outside_io::{Files, Sink};
use run_cover::{Cover, write_cover};
use std::alloc::Global;
use thumb_asm::Label;

// Writes what the run of a board from its start executes, with these labels.
fn cover_board<S: Sink>(
    alloc: Global,
    board: &mut Board,
    steps: u32,
    labels: &[Label],
    out: &mut S,
) -> u8
    requires stood { StandsForSome (boxed shown) board.old }
    requires fresh { turns_of board.old ≡ 0 }
    requires few { steps ≤ 1000000000 }
    ensures { (x : Scenario) → Stands (boxed shown) x board.old (start_of x) →
        SaysCovered steps x (labels_in labels.now) (S.seen out.old) (S.seen out.new) result }
{
    let mut cover = match Cover::open(alloc) {
        Ok(cover) => cover,
        Err(_) => return 5,
    };
    match write_cover(board, steps, &mut cover, labels, out) {
        Ok(end) => status_by(end),
        Err(_) => 4,
    }
}

// `cover IMAGE SCRIPT --steps N`.
fn cover_image<F: Files, S: Sink>(
    alloc: Global,
    job: &CoverJob,
    files: &mut F,
    out: &mut S,
    devices: Vec<Box<dyn Device>>,
) -> u8
    requires fresh { AreFresh (map shown devices.items) }
    requires few { job.now.steps ≤ 1000000000 }
    ensures answer { AnswersJob (map shown devices.items)
        (cover_job job.now.image.now job.now.script.now job.now.steps false) (F.seen files.old)
        (F.seen files.new) (S.seen out.old) (S.seen out.new) result }
    ensures only_reads { OnlyReads (F.seen files.old) (F.seen files.new) }
{
    match prepare_run(alloc, files, job.image, job.script, devices) {
        Ok(board) => {
            let mut board = board;
            cover_board(alloc, &mut board, job.steps, &[], out)
        }
        Err(named_fault) => tell_named_fault(alloc, &named_fault, out),
    }
}

// `cover APP SCRIPT --steps N --labels`.
fn cover_app<F: Files, S: Sink>(
    alloc: Global,
    job: &CoverJob,
    files: &mut F,
    out: &mut S,
    devices: Vec<Box<dyn Device>>,
) -> u8
    requires fresh { AreFresh (map shown devices.items) }
    requires few { job.now.steps ≤ 1000000000 }
    ensures answer { AnswersJob (map shown devices.items)
        (cover_job job.now.image.now job.now.script.now job.now.steps true) (F.seen files.old)
        (F.seen files.new) (S.seen out.old) (S.seen out.new) result }
    ensures only_reads { OnlyReads (F.seen files.old) (F.seen files.new) }
{
    match prepare_app(alloc, files, job.image, job.script, true, devices) {
        Ok((board, built)) => {
            let mut board = board;
            cover_board(alloc, &mut board, job.steps, &built.lines.labels, out)
        }
        Err(named_fault) => tell_named_fault(alloc, &named_fault, out),
    }
}

/// `cover IMAGE SCRIPT --steps N`; with labels, the same for the image that is built from an
/// application.
pub fn cover_files<F: Files, S: Sink>(
    alloc: Global,
    job: &CoverJob,
    files: &mut F,
    out: &mut S,
    devices: Vec<Box<dyn Device>>,
) -> u8
    requires fresh { AreFresh (map shown devices.items) }
    requires few { job.now.steps ≤ 1000000000 }
    ensures answer { AnswersJob (map shown devices.items) (asked_cover job.now) (F.seen files.old)
        (F.seen files.new) (S.seen out.old) (S.seen out.new) result }
    ensures only_reads { OnlyReads (F.seen files.old) (F.seen files.new) }
{
    let labels = job.labels;
    if labels {
        cover_app(alloc, job, files, out, devices)
    } else {
        cover_image(alloc, job, files, out, devices)
    }
}

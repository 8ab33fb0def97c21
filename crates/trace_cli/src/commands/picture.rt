//! `picture`: a run drawn as SVG, put under a name.
ghost use Rattle.std.specs.Prelude.{◌≡◌, ◌≤◌, length, map, string_bytes};
ghost use Rattle.kernel_abi.specs.Devices.{AreFresh};
ghost use Rattle.board_model.specs.Script.{Scenario, start_of};
ghost use Rattle.board_core.specs.Data.{boxed};
ghost use Rattle.board_core.specs.Stands.{Stands, StandsForSome, count_of, turns_of};
ghost use Rattle.command_line.specs.Asking.{asked_picture};
ghost use Rattle.trace_cli.specs.Answer.{AnswersJob};
ghost use Rattle.command_files.specs.Answer.{Tells};
ghost use Rattle.trace_cli.specs.Verdict.{drawn};

use board_core::Board;
use command_files::{line_of_drawn, prepare_named, put_told, tell_named_fault};
use command_line::PictureJob;
use devices::Device;
use outside_io::{Files, Sink};
use run_lanes::draw_run;
use std::alloc::Global;

// Draws the run of a board from its start as a picture, with the name of the job's image as its
// title and these names of tasks, and puts it.
fn draw_board<F: Files, S: Sink>(
    alloc: Global,
    board: &mut Board,
    job: &PictureJob,
    names: &[String],
    files: &mut F,
    out: &mut S,
) -> u8
    requires stood { StandsForSome (boxed shown) board.old }
    requires fresh { turns_of board.old ≡ 0 }
    requires few { job.now.steps ≤ 1000000000 }
    requires named { length names.now ≡ count_of board.old }
    ensures tells { (x : Scenario) → Stands (boxed shown) x board.old (start_of x)
        → Tells (F.seen files.old) (F.seen files.new) (S.seen out.old) (S.seen out.new)
        (drawn job.now.out.now job.now.steps job.now.image.now (map string_bytes names.now) x)
        result }
    ensures reads { (F.seen files.new).read_faults ≡ (F.seen files.old).read_faults }
    ensures puts { (F.seen files.old).put_faults ≤ (F.seen files.new).put_faults }
{
    let bytes = match draw_run(alloc, board, job.steps, job.image, names) {
        Ok((bytes, _)) => bytes,
        Err(_) => return 5,
    };
    let line = match line_of_drawn(alloc, bytes.len()) {
        Ok(line) => line,
        Err(_) => return 5,
    };
    put_told(&bytes, job.out, line.as_bytes(), files, out)
}

/// `picture IMAGE SCRIPT OUT --steps N [--names APP]`.
pub fn picture_files<F: Files, S: Sink>(
    alloc: Global,
    job: &PictureJob,
    files: &mut F,
    out: &mut S,
    devices: Vec<Box<dyn Device>>,
) -> u8
    requires fresh { AreFresh (map shown devices.items) }
    requires few { job.now.steps ≤ 1000000000 }
    ensures answer { AnswersJob (map shown devices.items) (asked_picture job.now)
        (F.seen files.old) (F.seen files.new) (S.seen out.old) (S.seen out.new) result }
    ensures later { (F.seen files.old).read_faults ≤ (F.seen files.new).read_faults }
    ensures puts { (F.seen files.old).put_faults ≤ (F.seen files.new).put_faults }
{
    match prepare_named(alloc, files, job.image, job.script, job.names, devices) {
        Ok((board, names)) => {
            let mut board = board;
            draw_board(alloc, &mut board, job, &names, files, out)
        }
        Err(named_fault) => tell_named_fault(alloc, &named_fault, out),
    }
}

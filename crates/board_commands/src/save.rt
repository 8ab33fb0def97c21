//! The last state of a run, put under a name.
ghost use Rattle.std.specs.Prelude.{◌≡◌, ◌≤◌, ℕ, map, IfOk};
ghost use Rattle.kernel_abi.specs.Devices.{AreFresh};
ghost use Rattle.board_model.specs.Script.{Scenario, start_of};
ghost use Rattle.board_core.specs.Data.{boxed};
ghost use Rattle.board_core.specs.Stands.{Stands, StandsForSome, turns_of};
ghost use Rattle.command_files.specs.Answer.{Tells, AnswersBy};
ghost use Rattle.board_commands.specs.Sources.{image_and_script};
ghost use Rattle.board_commands.specs.Verdict.{saved, saved_bytes, Saves};

use board_core::{Board, Level};
use board_run::{Nobody, play};
use command_files::{line_of_saved, prepare_run, put_told, tell_named_fault};
use command_line::SaveJob;
use devices::Device;
use outside_io::{Files, Sink};
use snapshot::save;
use std::alloc::{AllocError, Global};

// The bytes of the last state of the run of a board from its start. Nothing is written of that run.
fn last_bytes(alloc: Global, board: &mut Board, steps: u32) -> Result<Vec<u8>, AllocError>
    requires stood { StandsForSome (boxed shown) board.old }
    requires fresh { turns_of board.old ≡ 0 }
    requires few { steps ≤ 1000000000 }
    ensures { (x : Scenario) → Stands (boxed shown) x board.old (start_of x) →
        IfOk result (λ v. v.items ≡ saved_bytes steps x) }
{
    match play(board, steps, Level::Calls, &mut Nobody) {
        Ok(_) => save(alloc, board),
        Err(_) => unreachable!(),
    }
}

// Puts the bytes of a state under a name, and says so.
fn put_state<F: Files, S: Sink>(
    alloc: Global,
    bytes: &[u8],
    name: &str,
    files: &mut F,
    out: &mut S,
) -> u8
    ensures tells { (n : ℕ) (x : Scenario) → bytes.now ≡ saved_bytes n x →
        Tells (F.seen files.old) (F.seen files.new) (S.seen out.old) (S.seen out.new)
        (saved name.now n x) result }
    ensures reads { (F.seen files.new).read_faults ≡ (F.seen files.old).read_faults }
    ensures puts { (F.seen files.old).put_faults ≤ (F.seen files.new).put_faults }
{
    let line = match line_of_saved(alloc, bytes.len()) {
        Ok(line) => line,
        Err(_) => return 5,
    };
    put_told(bytes, name, line.as_bytes(), files, out)
}

// Puts the last state of the run of a board from its start.
fn save_board<F: Files, S: Sink>(
    alloc: Global,
    board: &mut Board,
    job: &SaveJob,
    files: &mut F,
    out: &mut S,
) -> u8
    requires stood { StandsForSome (boxed shown) board.old }
    requires fresh { turns_of board.old ≡ 0 }
    requires few { job.now.steps ≤ 1000000000 }
    ensures tells { (x : Scenario) → Stands (boxed shown) x board.old (start_of x) →
        Tells (F.seen files.old) (F.seen files.new) (S.seen out.old) (S.seen out.new)
        (saved job.now.out.now job.now.steps x) result }
    ensures reads { (F.seen files.new).read_faults ≡ (F.seen files.old).read_faults }
    ensures puts { (F.seen files.old).put_faults ≤ (F.seen files.new).put_faults }
{
    match last_bytes(alloc, board, job.steps) {
        Ok(bytes) => put_state(alloc, &bytes, job.out, files, out),
        Err(_) => 5,
    }
}

/// `save IMAGE SCRIPT OUT --steps N`.
pub fn save_file<F: Files, S: Sink>(
    alloc: Global,
    job: &SaveJob,
    files: &mut F,
    out: &mut S,
    devices: Vec<Box<dyn Device>>,
) -> u8
    requires fresh { AreFresh (map shown devices.items) }
    requires few { job.now.steps ≤ 1000000000 }
    ensures answer { AnswersBy (image_and_script job.now.image.now job.now.script.now)
        (Saves job.now.out.now job.now.steps (map shown devices.items)) (F.seen files.old)
        (F.seen files.new) (S.seen out.old) (S.seen out.new) result }
    ensures later { (F.seen files.old).read_faults ≤ (F.seen files.new).read_faults }
    ensures puts { (F.seen files.old).put_faults ≤ (F.seen files.new).put_faults }
{
    match prepare_run(alloc, files, job.image, job.script, devices) {
        Ok(board) => {
            let mut board = board;
            save_board(alloc, &mut board, job, files, out)
        }
        Err(named_fault) => tell_named_fault(alloc, &named_fault, out),
    }
}

//! The sample of a seed: from its making to what is written of its run.
ghost use Rattle.std.specs.Prelude.{◌≡◌, ◌≤◌, IfOk, IfErr, length, map, string_bytes};
ghost use Rattle.app_toml.specs.Held.{app_of};
ghost use Rattle.board_core.specs.Data.{boxed};
ghost use Rattle.board_core.specs.Stands.{Stands, StandsForSome, turns_of};
ghost use Rattle.board_model.specs.Script.{Scenario, start_of};
ghost use Rattle.image_build.specs.Building.{Refuses};
ghost use Rattle.image_build.specs.Built.{Built};
ghost use Rattle.image_format.specs.Images.{image_data};
ghost use Rattle.outside_io.specs.Seen.{FilesSeen};
ghost use Rattle.command_files.specs.Pushed.{Pushed};
ghost use Rattle.command_files.specs.Sources.{no_files};
ghost use Rattle.command_files.specs.Answer.{AnswersBy};
ghost use Rattle.board_commands.specs.Ready.{IsSampleReady};
ghost use Rattle.board_commands.specs.Verdict.{sampled, Samples};

use app_toml::App;
use board_core::Board;
use board_run::summarize;
use build_laws::build_is_not_refused;
use command_files::status_by;
use image_build::{BuildFault, Builder};
use image_format::Image;
use outside_io::Sink;
use sample_gen::sample;
use std::alloc::Global;

// The image of an application and the sources of its tasks.
fn image_by(alloc: Global, app: &App, sources: &[String]) -> Result<Image, BuildFault>
    requires { length sources.now ≡ length (app_of app.now).tasks }
    ensures built { IfOk result (λ i. Built (app_of app.now) (map string_bytes sources.now)
        (image_data i)) }
    ensures refused { IfErr result (Refuses (app_of app.now) (map string_bytes sources.now)) }
{
    let mut builder = Builder::open(alloc, app)?;
    for source in sources {
        builder.source(source.as_bytes())?;
    }
    builder.finish()
}

// The board at the start of the run of the sample of a seed, which has no devices. It fails only if
// memory runs out.
fn prepare_sample(alloc: Global, seed: u32) -> Result<Board, BuildFault>
    ensures ready { IfOk result (IsSampleReady (boxed shown) seed) }
    ensures memory { IfErr result (λ e. e ≡ BuildFault.Memory) }
{
    build_is_not_refused();
    let (app, sources, script) = sample(alloc, seed)?;
    let image = match image_by(alloc, &app, &sources) {
        Ok(image) => image,
        Err(fault) => return Err(fault),
    };
    match Board::open(alloc, &image, &script, Vec::new(alloc)) {
        Ok(board) => Ok(board),
        Err(_) => Err(BuildFault::Memory),
    }
}

// Runs a board from its start, and writes how the run ended and how many notes of each kind it had.
fn tell_sample<S: Sink>(board: &mut Board, steps: u32, out: &mut S) -> u8
    requires stood { StandsForSome (boxed shown) board.old }
    requires fresh { turns_of board.old ≡ 0 }
    requires few { steps ≤ 1000000000 }
    ensures { (x : Scenario) → Stands (boxed shown) x board.old (start_of x) →
        Pushed (S.seen out.old) (S.seen out.new) (sampled steps x) result }
{
    match summarize(board, steps, out) {
        Ok(end) => status_by(end),
        Err(_) => 4,
    }
}

/// `sample SEED STEPS`. Its run has no devices, even if other jobs have some.
pub fn run_sample<S: Sink>(alloc: Global, seed: u32, steps: u32, out: &mut S) -> u8
    requires few { steps ≤ 1000000000 }
    ensures { (before after : FilesSeen) → after.contents ≡ before.contents →
        AnswersBy no_files (Samples seed steps) before after (S.seen out.old) (S.seen out.new)
        result }
{
    match prepare_sample(alloc, seed) {
        Ok(board) => {
            let mut board = board;
            tell_sample(&mut board, steps, out)
        }
        Err(_) => 5,
    }
}

//! `lcov`: how often a run executed each line of the sources of its application, put under a name.
ghost use Rattle.std.specs.Prelude.{◌≡◌, ◌≤◌, IfOk, [], map, slice_index_or};
ghost use Rattle.kernel_abi.specs.Devices.{AreFresh};
ghost use Rattle.app_toml.specs.Held.{app_of};
ghost use Rattle.board_model.specs.Script.{Scenario, start_of};
ghost use Rattle.board_core.specs.Data.{boxed};
ghost use Rattle.board_core.specs.Stands.{Stands, StandsForSome, turns_of};
ghost use Rattle.command_line.specs.Asking.{asked_lcov};
ghost use Rattle.run_cover.specs.Tracefile.{section_of};
ghost use Rattle.trace_cli.specs.Answer.{AnswersJob};
ghost use Rattle.command_files.specs.Answer.{Tells};
ghost use Rattle.command_files.specs.Building.{kept_lines};
ghost use Rattle.trace_cli.specs.Tracing.{sections_by};
ghost use Rattle.trace_cli.specs.Verdict.{traced};

use app_toml::App;
use board_core::Board;
use command_files::{SourceLines, line_of_traced, prepare_app, put_told, tell_named_fault};
use command_line::LcovJob;
use devices::Device;
use outside_io::{Files, Sink};
use run_cover::{PlaceCounts, Source, write_tracefile};
use std::alloc::{AllocError, Global};
use thumb_asm::InsnLine;

// The lines of the i-th source; none if no lines are kept for it.
fn lines_of(lines: &SourceLines, i: usize) -> &[InsnLine]
    ensures { result.now ≡ slice_index_or (kept_lines lines.now) i [] }
{
    match lines.lists.get(i) {
        Some(list) => list.as_slice(),
        None => &[],
    }
}

// The source of each task.
fn sources_of<'a>(
    alloc: Global,
    app: &'a App,
    lines: &'a SourceLines,
) -> Result<Vec<Source<'a>>, AllocError>
    ensures { IfOk result (λ v. map section_of v.items ≡ sections_by (app_of app.now)
        (kept_lines lines.now)) }
{
    let tasks = app.tasks();
    let mut sources = Vec::new(alloc);
    for i in 0..tasks.len() {
        sources.push(Source {
            name: tasks[i].source.as_str(),
            lines: lines_of(lines, i),
        })?;
    }
    Ok(sources)
}

// Counts how often the run of a board from its start executes each line of these sources, and puts
// the counts.
fn trace_board<F: Files, S: Sink>(
    alloc: Global,
    board: &mut Board,
    sources: &[Source<'_>],
    job: &LcovJob,
    files: &mut F,
    out: &mut S,
) -> u8
    requires stood { StandsForSome (boxed shown) board.old }
    requires fresh { turns_of board.old ≡ 0 }
    requires few { job.now.steps ≤ 1000000000 }
    ensures tells { (x : Scenario) → Stands (boxed shown) x board.old (start_of x)
        → Tells (F.seen files.old) (F.seen files.new) (S.seen out.old) (S.seen out.new)
        (traced job.now.out.now job.now.steps (map section_of sources.now) x) result }
    ensures reads { (F.seen files.new).read_faults ≡ (F.seen files.old).read_faults }
    ensures puts { (F.seen files.old).put_faults ≤ (F.seen files.new).put_faults }
{
    let mut counts = match PlaceCounts::open(alloc) {
        Ok(counts) => counts,
        Err(_) => return 5,
    };
    let text = match write_tracefile(alloc, board, job.steps, &mut counts, sources) {
        Ok((text, _)) => text,
        Err(_) => return 5,
    };
    let bytes = text.as_bytes();
    let line = match line_of_traced(alloc, bytes.len()) {
        Ok(line) => line,
        Err(_) => return 5,
    };
    put_told(bytes, job.out, line.as_bytes(), files, out)
}

// The same for an application whose lines are known.
fn trace_app<F: Files, S: Sink>(
    alloc: Global,
    board: &mut Board,
    app: &App,
    lines: &SourceLines,
    job: &LcovJob,
    files: &mut F,
    out: &mut S,
) -> u8
    requires stood { StandsForSome (boxed shown) board.old }
    requires fresh { turns_of board.old ≡ 0 }
    requires few { job.now.steps ≤ 1000000000 }
    ensures tells { (x : Scenario) → Stands (boxed shown) x board.old (start_of x) →
        Tells (F.seen files.old) (F.seen files.new) (S.seen out.old) (S.seen out.new)
        (traced job.now.out.now job.now.steps
        (sections_by (app_of app.now) (kept_lines lines.now)) x) result }
    ensures reads { (F.seen files.new).read_faults ≡ (F.seen files.old).read_faults }
    ensures puts { (F.seen files.old).put_faults ≤ (F.seen files.new).put_faults }
{
    match sources_of(alloc, app, lines) {
        Ok(sources) => trace_board(alloc, board, &sources, job, files, out),
        Err(_) => 5,
    }
}

/// `lcov APP SCRIPT OUT --steps N`.
pub fn lcov_files<F: Files, S: Sink>(
    alloc: Global,
    job: &LcovJob,
    files: &mut F,
    out: &mut S,
    devices: Vec<Box<dyn Device>>,
) -> u8
    requires fresh { AreFresh (map shown devices.items) }
    requires few { job.now.steps ≤ 1000000000 }
    ensures answer { AnswersJob (map shown devices.items) (asked_lcov job.now) (F.seen files.old)
        (F.seen files.new) (S.seen out.old) (S.seen out.new) result }
    ensures later { (F.seen files.old).read_faults ≤ (F.seen files.new).read_faults }
    ensures puts { (F.seen files.old).put_faults ≤ (F.seen files.new).put_faults }
{
    match prepare_app(alloc, files, job.app, job.script, true, devices) {
        Ok((board, built)) => {
            let mut board = board;
            trace_app(alloc, &mut board, &built.app, &built.lines, job, files, out)
        }
        Err(named_fault) => tell_named_fault(alloc, &named_fault, out),
    }
}

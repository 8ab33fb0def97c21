//! A run as a picture (docs/FORMATS.md, Picture).
ghost use Rattle.std.specs.Prelude.{◌≡◌, ◌≤◌, ◌+◌, ◌-◌, List, IfOk, length, map, string_bytes};
ghost use Rattle.task_table.specs.model.State.{State};
ghost use Rattle.board_model.specs.declared.outcomes.Level.TheVariants.{Calls};
ghost use Rattle.board_model.specs.Script.{Scenario};
ghost use Rattle.board_model.specs.Run.{Run, run};
ghost use Rattle.board_core.specs.Data.{boxed};
ghost use Rattle.board_core.specs.Stands.{Stands, StandsForSome, count_of, turns_of};
ghost use Rattle.lane_picture.specs.Drawing.{drawing_text};
ghost use Rattle.run_lanes.specs.Painted.{Painted, Paints};
ghost use Rattle.run_lanes.specs.Pictured.{drawn, picture_text};
ghost use Rattle.run_lanes.specs.Activities.{TurnSight, sights};

use crate::activity::Activity;
use crate::canvas::Canvas;
use crate::events::event_texts;
use crate::watching::watch;
use board_core::{Board, End};
use board_run::end_name;
use lane_picture::{LanePicture, draw};
use std::alloc::{AllocError, Global};

// Makes the turns up to the end of the run, and shows them to a canvas.
fn watch_all(board: &mut Board, limit: u32, activities: &mut [Activity], canvas: &mut Canvas) -> End
    requires stood { StandsForSome (boxed shown) board.old }
    requires from { turns_of board.old ≤ limit }
    requires few { limit ≤ 1000000000 }
    requires one_each { (x : Scenario) (s : State) → Stands (boxed shown) x board.old s →
        length activities.old ≡ length x.setup.tasks }
    ensures paints { (x : Scenario) (s : State) → Stands (boxed shown) x board.old s →
        Paints canvas.old (sights x (limit - s.turn) s) canvas.new }
    ensures end { (x : Scenario) (s : State) → Stands (boxed shown) x board.old s →
        result ≡ (run Calls x (limit - s.turn) s).end }
    ensures last { (x : Scenario) (s : State) → Stands (boxed shown) x board.old s →
        Stands (boxed shown) x board.new (run Calls x (limit - s.turn) s).last }
    ensures turns { (x : Scenario) (s : State) → Stands (boxed shown) x board.old s →
        turns_of board.new ≡ s.turn + length (sights x (limit - s.turn) s) }
    ensures within { turns_of board.new ≤ limit }
{
    match watch(board, limit, activities, canvas, &mut ()) {
        Ok(end) => end,
        Err(_) => unreachable!(),
    }
}

// The picture of what a canvas has of turns, with how many there are, the time after them and how
// they end.
fn paint(
    alloc: Global,
    title: &str,
    names: &[String],
    canvas: &Canvas,
    turns: u32,
    ticks: u64,
    end: End,
) -> Result<Vec<u8>, AllocError>
    requires few { length names.now ≤ 65536 }
    requires painted { (seen : List TurnSight) × Painted (length names.now) canvas.now seen }
    ensures { (r : Run) (seen : List TurnSight) → Painted (length names.now) canvas.now seen →
        turns ≡ length seen → ticks ≡ r.last.now → end ≡ r.end →
        IfOk result (λ v. v.items ≡ drawing_text
        (drawn title.now (map string_bytes names.now) r seen)) }
{
    let events = event_texts(alloc, names, &canvas.events.kept)?;
    let picture = LanePicture {
        title,
        ending: end_name(end),
        turns,
        ticks,
        column_turns: canvas.columns.width,
        names,
        outside: canvas.columns.all_outside(),
        cells: canvas.columns.all_cells(),
        calls: &canvas.exchange.calls,
        arrows: &canvas.exchange.arrows.kept,
        all_arrows: canvas.exchange.arrows.all,
        events: &events,
        all_events: canvas.events.all,
    };
    draw(alloc, &picture)
}

/// Makes the turns up to the end of the run, and returns its picture as the bytes of an SVG file
/// (docs/FORMATS.md, Picture), with this title and these names of tasks. Memory is allocated before
/// the first turn, in proportion to the number of tasks, and after the last turn.
///
/// # Errors
///
/// Only if memory runs out.
pub fn draw_run(
    alloc: Global,
    board: &mut Board,
    limit: u32,
    title: &str,
    names: &[String],
) -> Result<(Vec<u8>, End), AllocError>
    requires stood { StandsForSome (boxed shown) board.old }
    requires from { turns_of board.old ≤ limit }
    requires few { limit ≤ 1000000000 }
    requires named { length names.now ≡ count_of board.old }
    ensures text { (x : Scenario) (s : State) → Stands (boxed shown) x board.old s →
        IfOk result (λ r. r.0.items ≡ picture_text title.now (map string_bytes names.now) x
        (limit - s.turn) s) }
    ensures end { (x : Scenario) (s : State) → Stands (boxed shown) x board.old s →
        IfOk result (λ r. r.1 ≡ (run Calls x (limit - s.turn) s).end) }
    ensures last { (x : Scenario) (s : State) → Stands (boxed shown) x board.old s →
        IfOk result (λ _. Stands (boxed shown) x board.new (run Calls x (limit - s.turn) s).last) }
    ensures within { turns_of board.new ≤ limit }
{
    let tasks = board.task_count();
    let from = board.turns();
    let mut activities = Vec::from_elem(alloc, Activity::Ready, tasks)?;
    let mut canvas = Canvas::open(alloc, tasks)?;
    let end = watch_all(board, limit, &mut activities, &mut canvas);
    let turns = board.turns() - from;
    let bytes = paint(alloc, title, names, &canvas, turns, board.now(), end)?;
    Ok((bytes, end))
}

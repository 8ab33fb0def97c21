//! Makes lcov's tracefile of a run.
ghost use Rattle.std.specs.Prelude.{◌≡◌, ◌≤◌, ◌<◌, ◌-◌, ◌*◌, ◌++◌, IfOk, OnOk, map, string_bytes};
ghost use Rattle.std.specs.List.{flat_map};
ghost use Rattle.task_table.specs.model.State.{State};
ghost use Rattle.board_model.specs.declared.outcomes.Level.TheVariants.{All};
ghost use Rattle.board_model.specs.Script.{Scenario};
ghost use Rattle.board_model.specs.Run.{run};
ghost use Rattle.board_core.specs.Stands.{Stands, StandsForSome, turns_of};
ghost use Rattle.board_core.specs.Data.{boxed};
ghost use Rattle.run_cover.specs.Counted.{IsNewlyCounted, count_of};
ghost use Rattle.run_cover.specs.Tracefile.{branch_text, data_line, head_lines, is_branch, lines_found, run_tracefile, section_of, source_text, source_totals, times_text, tracefile_text, way_line, ways_found, ways_lines};

use crate::counts::{Count, PlaceCounts};
use crate::covering::count_run;
use crate::places::place_of;
use crate::totals::{Totals, totals_of};
use crate::ways::{is_conditional, stands_at};
use board_core::{Board, End};
use std::alloc::{AllocError, Global};
use thumb_asm::InsnLine;

/// A source: the name of its file, and the lines that are instructions.
#[derive(Clone, Copy)]
pub struct Source<'a> {
    pub name: &'a str,
    pub lines: &'a [InsnLine],
}

// Whether a conditional branch stands at an address.
fn is_branch(board: &Board, addr: u32) -> bool
    ensures { (x : Scenario) (s : State) → Stands (boxed shown) x board.now s →
        result ≡ is_branch s.memory addr }
{
    match place_of(addr) {
        None => false,
        Some(_) => is_conditional(stands_at(board, addr)),
    }
}

fn times_text(alloc: Global, executed: u32, times: u32) -> Result<String, AllocError>
    ensures { IfOk result (λ text. string_bytes text ≡ times_text executed times) }
{
    if executed == 0 {
        return String::from_str(alloc, "-");
    }
    let text = format!(in alloc; "{times}")?;
    Ok(text)
}

// The line that says how often a way of a branch was used.
fn way_line(
    alloc: Global,
    number: usize,
    way: u32,
    executed: u32,
    times: u32,
) -> Result<String, AllocError>
    ensures { IfOk result (λ line. string_bytes line ≡ way_line number way executed times) }
{
    let times = times_text(alloc, executed, times)?;
    let line = format!(in alloc; "BRDA:{number},0,{way},{times}\n")?;
    Ok(line)
}

// Pushes how often a branch was taken, and how often it was not.
fn push_ways(alloc: Global, number: usize, count: Count, out: &mut String) -> Result<(), AllocError>
    ensures { OnOk result (string_bytes out.new ≡ string_bytes out.old ++ ways_lines number count) }
{
    let passed = count.executed.saturating_sub(count.taken);
    let taken = way_line(alloc, number, 0, count.executed, count.taken)?;
    let passed = way_line(alloc, number, 1, count.executed, passed)?;
    out.push_str(&taken)?;
    out.push_str(&passed)?;
    Ok(())
}

// Pushes the same for a line, if it is a branch.
fn push_branch(
    alloc: Global,
    board: &Board,
    counts: &PlaceCounts,
    line: &InsnLine,
    out: &mut String,
) -> Result<(), AllocError>
    ensures { (x : Scenario) (s : State) → Stands (boxed shown) x board.now s →
        OnOk result (string_bytes out.new ≡ string_bytes out.old
        ++ branch_text s.memory (count_of counts.now) line.now) }
{
    if is_branch(board, line.at) {
        push_ways(alloc, line.number, counts.at(line.at), out)?;
    }
    Ok(())
}

fn push_branches(
    alloc: Global,
    board: &Board,
    counts: &PlaceCounts,
    lines: &[InsnLine],
    out: &mut String,
) -> Result<(), AllocError>
    ensures { (x : Scenario) (s : State) → Stands (boxed shown) x board.now s →
        OnOk result (string_bytes out.new ≡ string_bytes out.old
        ++ flat_map (branch_text s.memory (count_of counts.now)) lines.now) }
{
    for line in lines {
        push_branch(alloc, board, counts, line, out)?;
    }
    Ok(())
}

// The line that says how often a source line was executed.
fn data_line(alloc: Global, counts: &PlaceCounts, line: &InsnLine) -> Result<String, AllocError>
    ensures { IfOk result (λ text. string_bytes text ≡ data_line (count_of counts.now) line.now) }
{
    let number = line.number;
    let executed = counts.at(line.at).executed;
    let text = format!(in alloc; "DA:{number},{executed}\n")?;
    Ok(text)
}

fn push_data_lines(
    alloc: Global,
    counts: &PlaceCounts,
    lines: &[InsnLine],
    out: &mut String,
) -> Result<(), AllocError>
    ensures { OnOk result (string_bytes out.new ≡ string_bytes out.old
        ++ flat_map (data_line (count_of counts.now)) lines.now) }
{
    for line in lines {
        out.push_str(&data_line(alloc, counts, line)?)?;
    }
    Ok(())
}

// How many lines and ways there are, and how many of them were executed.
#[tactic(auto, unfolding(crate::specs::Tracefile::source_totals))]
fn source_totals(board: &Board, counts: &PlaceCounts, lines: &[InsnLine]) -> Totals
    ensures { (x : Scenario) (s : State) → Stands (boxed shown) x board.now s →
        result ≡ source_totals s.memory (count_of counts.now) lines.now }
{
    let mut totals = Totals::none();
    for line in lines {
        totals = totals.added(totals_of(is_branch(board, line.at), counts.at(line.at)));
    }
    totals
}

fn head_lines(alloc: Global, source: Source<'_>) -> Result<String, AllocError>
    ensures { IfOk result (λ text. string_bytes text ≡ head_lines (section_of source.entry)) }
{
    let name = source.name;
    let text = format!(in alloc; "TN:\nSF:{name}\n")?;
    Ok(text)
}

fn ways_found(alloc: Global, totals: Totals) -> Result<String, AllocError>
    ensures { IfOk result (λ text. string_bytes text ≡ ways_found totals) }
{
    let ways = totals.ways;
    let gone = totals.gone;
    let text = format!(in alloc; "BRF:{ways}\nBRH:{gone}\n")?;
    Ok(text)
}

fn lines_found(alloc: Global, totals: Totals) -> Result<String, AllocError>
    ensures { IfOk result (λ text. string_bytes text ≡ lines_found totals) }
{
    let lines = totals.known;
    let executed = totals.executed;
    let text = format!(in alloc; "LF:{lines}\nLH:{executed}\nend_of_record\n")?;
    Ok(text)
}

// Pushes the section of a source.
fn push_source(
    alloc: Global,
    board: &Board,
    counts: &PlaceCounts,
    source: Source<'_>,
    out: &mut String,
) -> Result<(), AllocError>
    ensures { (x : Scenario) (s : State) → Stands (boxed shown) x board.now s →
        OnOk result (string_bytes out.new ≡ string_bytes out.old
        ++ source_text s.memory (count_of counts.now) (section_of source.entry)) }
{
    let totals = source_totals(board, counts, source.lines);
    out.push_str(&head_lines(alloc, source)?)?;
    push_branches(alloc, board, counts, source.lines, out)?;
    out.push_str(&ways_found(alloc, totals)?)?;
    push_data_lines(alloc, counts, source.lines, out)?;
    out.push_str(&lines_found(alloc, totals)?)?;
    Ok(())
}

fn tracefile_text(
    alloc: Global,
    board: &Board,
    counts: &PlaceCounts,
    sources: &[Source<'_>],
) -> Result<String, AllocError>
    ensures { (x : Scenario) (s : State) → Stands (boxed shown) x board.now s →
        IfOk result (λ text. string_bytes text ≡ tracefile_text s.memory (count_of counts.now)
        (map section_of sources.now)) }
{
    let mut text = String::new(alloc);
    for source in sources {
        push_source(alloc, board, counts, *source, &mut text)?;
    }
    Ok(text)
}

/// Makes the turns up to the end of the run without writing a trace, and then makes lcov's
/// tracefile of the run (docs/FORMATS.md, Tracefile). It has a section for each source, with how
/// often each line was executed, and how often each conditional branch was taken and not taken. A
/// line counts as a conditional branch if one stands at its address at the end of the run.
///
/// # Errors
///
/// Only if memory runs out. The run is still made to its end.
pub fn write_tracefile(
    alloc: Global,
    board: &mut Board,
    limit: u32,
    counts: &mut PlaceCounts,
    sources: &[Source<'_>],
) -> Result<(String, End), AllocError>
    requires stood { StandsForSome (boxed shown) board.old }
    requires from { turns_of board.old ≤ limit }
    requires few { limit ≤ 1000000000 }
    requires new { IsNewlyCounted counts.old }

    ensures text { (x : Scenario) (s : State) → Stands (boxed shown) x board.old s →
        IfOk result (λ r. string_bytes r.0 ≡ run_tracefile (run All x (limit - s.turn) s)
        (map section_of sources.now)) }
    ensures end { (x : Scenario) (s : State) → Stands (boxed shown) x board.old s →
        IfOk result (λ r. r.1 ≡ (run All x (limit - s.turn) s).end) }
    ensures last { (x : Scenario) (s : State) → Stands (boxed shown) x board.old s →
        Stands (boxed shown) x board.new (run All x (limit - s.turn) s).last }
    ensures within { turns_of board.new ≤ limit }
{
    let end = count_run(board, limit, counts);
    let text = tracefile_text(alloc, board, counts, sources)?;
    Ok((text, end))
}

//! Pushes the regions of code, line by line.
ghost use Rattle.std.specs.Prelude.{◌≡◌, ◌≤◌, ◌<◌, ◌+◌, ◌*◌, ◌-◌, ◌^◌, ◌++◌, codes, IfSome};
ghost use Rattle.outside_io.specs.Outside.{Pushes, HasCause};
ghost use Rattle.thumb_asm.specs.Listed.{label_of, labels_in};
ghost use Rattle.task_table.specs.model.State.{State};
ghost use Rattle.board_model.specs.Script.{Scenario};
ghost use Rattle.board_core.specs.Stands.{Stands};
ghost use Rattle.board_core.specs.Data.{boxed};
ghost use Rattle.run_cover.specs.Counted.{count_of};
ghost use Rattle.run_cover.specs.Covered.{covered};
ghost use Rattle.run_cover.specs.Text.{all_totals, base_of, base_text, base_totals, bases_text, begins_rest, code_at, code_line, insn_line, is_code_at, is_taken_up, known_text, label_at, label_line, labels_text, listing_text, place_count, place_text, region_text, region_totals, rest_len, rest_line, rows_text, totals_text};
ghost use Rattle.run_cover.specs.Pushed.{PushesFor};
ghost use Rattle.run_cover.specs.Totals.{AreAtMost};

use crate::covering::Cover;
use crate::line::{Line, code_line, insn_line, label_front, push_totals, rest_line};
use crate::totals::{Totals, totals_in};
use crate::ways::{half_at, is_wide};
use board_core::Board;
use board_run::{RegionTest, first_region};
use mem_banks::{FLASH, RAM};
use outside_io::{Failed, Sink};
use region_check::Region;
use thumb_asm::Label;

/// A test of regions: whether it has code and begins at an address.
#[derive(Drop)]
struct CodeAt {
    base: u32,
}

impl RegionTest for CodeAt {
    ghost holds = { λ t r. is_code_at t.base r };

    fn passes(&self, region: &Region) -> bool {
        region.base == self.base && region.rights.execute
    }
}

// The region of code that begins at an address, of any task.
#[tactic(auto, unfolding(crate::specs::Text::code_at))]
fn code_at(board: &Board, base: u32) -> Option<Region>
    ensures base { IfSome result (λ r. r.base ≡ base) }
    ensures found { (x : Scenario) (s : State) → Stands (boxed shown) x board.now s →
        result ≡ code_at x.setup base }
{
    first_region(board, &CodeAt { base })
}

// Whether the halfword at an address belongs to a known instruction.
fn is_taken_up(board: &Board, cover: &Cover, addr: u32) -> bool
    requires above { 2 ≤ addr }
    requires inside { addr + 3 < 2 ^ 32 }
    ensures { (x : Scenario) (s : State) → Stands (boxed shown) x board.now s →
        result ≡ is_taken_up (covered s.memory cover.now) addr }
{
    cover.marks.has(addr) || (cover.marks.has(addr - 2) && is_wide(half_at(board, addr - 2)))
}

// How many halfwords in a row, from an address on and at most `most`, belong to no known
// instruction.
fn rest_len(board: &Board, cover: &Cover, addr: u32, most: u32) -> u32
    requires above { 2 ≤ addr }
    requires inside { addr + 2 * most + 3 < 2 ^ 32 }
    ensures len { (x : Scenario) (s : State) → Stands (boxed shown) x board.now s →
        result ≡ rest_len (covered s.memory cover.now) addr most }
    ensures few { result ≤ most }
{
    for i in 0..most {
        if is_taken_up(board, cover, addr + 2 * i) {
            return i;
        }
    }
    most
}

// Whether such a row begins at an address. The address is that of the j-th place of a region.
fn begins_rest(board: &Board, cover: &Cover, addr: u32, j: u32) -> bool
    requires above { 4 ≤ addr }
    requires inside { addr + 3 < 2 ^ 32 }
    ensures { (x : Scenario) (s : State) → Stands (boxed shown) x board.now s →
        result ≡ begins_rest (covered s.memory cover.now) addr j }
{
    !is_taken_up(board, cover, addr) && (j == 0 || is_taken_up(board, cover, addr - 2))
}

fn push_insn<S: Sink>(board: &Board, cover: &Cover, addr: u32, out: &mut S) -> Result<(), Failed>
    requires inside { addr + 3 < 2 ^ 32 }
    ensures bytes { PushesFor (boxed shown) board.now
        (λ x s. insn_line s.memory (count_of cover.now.counts addr) addr) (S.seen out.old)
        (S.seen out.new) result }
    ensures cause { HasCause (S.seen out.old).faults (S.seen out.new).faults result }
{
    let mut line = Line::new();
    insn_line(board, cover.counts.at(addr), addr, &mut line);
    out.push(line.as_str().as_bytes())
}

fn push_rest<S: Sink>(addr: u32, bytes: u32, out: &mut S) -> Result<(), Failed>
    ensures bytes { Pushes (S.seen out.old).written (S.seen out.new).written (rest_line addr bytes)
        result }
    ensures cause { HasCause (S.seen out.old).faults (S.seen out.new).faults result }
{
    let mut line = Line::new();
    rest_line(addr, bytes, &mut line);
    out.push(line.as_str().as_bytes())
}

fn push_label_line<S: Sink>(label: &Label, out: &mut S) -> Result<(), Failed>
    ensures bytes { Pushes (S.seen out.old).written (S.seen out.new).written
        (label_line (label_of label.now)) result }
    ensures cause { HasCause (S.seen out.old).faults (S.seen out.new).faults result }
{
    let mut front = Line::new();
    label_front(label.at, &mut front);
    out.push(front.as_str().as_bytes())?;
    out.push(label.name.as_bytes())?;
    out.push(b"\n")
}

// Pushes the line of a label, if the label is at the address.
fn push_label<S: Sink>(label: &Label, addr: u32, out: &mut S) -> Result<(), Failed>
    ensures bytes { Pushes (S.seen out.old).written (S.seen out.new).written
        (label_at addr (label_of label.now)) result }
    ensures cause { HasCause (S.seen out.old).faults (S.seen out.new).faults result }
{
    if label.at == addr {
        return push_label_line(label, out);
    }
    Ok(())
}

// Pushes the lines of the labels at an address.
fn push_labels<S: Sink>(labels: &[Label], addr: u32, out: &mut S) -> Result<(), Failed>
    ensures bytes { Pushes (S.seen out.old).written (S.seen out.new).written
        (labels_text (labels_in labels.now) addr) result }
    ensures cause { HasCause (S.seen out.old).faults (S.seen out.new).faults result }
{
    for label in labels {
        push_label(label, addr, out)?;
    }
    Ok(())
}

// Pushes the labels at the address of a known instruction, and then its line.
fn push_known<S: Sink>(
    board: &Board,
    cover: &Cover,
    labels: &[Label],
    addr: u32,
    out: &mut S,
) -> Result<(), Failed>
    requires inside { addr + 3 < 2 ^ 32 }
    ensures bytes { PushesFor (boxed shown) board.now
        (λ x s. known_text (covered s.memory cover.now) (labels_in labels.now) addr)
        (S.seen out.old) (S.seen out.new) result }
    ensures cause { HasCause (S.seen out.old).faults (S.seen out.new).faults result }
{
    push_labels(labels, addr, out)?;
    push_insn(board, cover, addr, out)
}

// Pushes the lines of the j-th place, if it has any.
fn push_place<S: Sink>(
    board: &Board,
    cover: &Cover,
    labels: &[Label],
    count: u32,
    j: u32,
    addr: u32,
    out: &mut S,
) -> Result<(), Failed>
    requires one { j < count }
    requires above { 4 ≤ addr }
    requires inside { addr + 2 * (count - j) + 3 < 2 ^ 32 }
    ensures bytes { PushesFor (boxed shown) board.now
        (λ x s. place_text (covered s.memory cover.now) (labels_in labels.now) count j addr)
        (S.seen out.old) (S.seen out.new) result }
    ensures cause { HasCause (S.seen out.old).faults (S.seen out.new).faults result }
{
    if cover.marks.has(addr) {
        return push_known(board, cover, labels, addr, out);
    }
    if begins_rest(board, cover, addr, j) {
        return push_rest(addr, 2 * rest_len(board, cover, addr, count - j), out);
    }
    Ok(())
}

// Pushes the lines of the places from a base on.
fn push_rows<S: Sink>(
    board: &Board,
    cover: &Cover,
    labels: &[Label],
    base: u32,
    count: u32,
    out: &mut S,
) -> Result<(), Failed>
    requires above { 4 ≤ base }
    requires inside { base + 2 * count + 3 < 2 ^ 32 }
    ensures bytes { PushesFor (boxed shown) board.now
        (λ x s. rows_text (covered s.memory cover.now) (labels_in labels.now) base count)
        (S.seen out.old) (S.seen out.new) result }
    ensures cause { HasCause (S.seen out.old).faults (S.seen out.new).faults result }
{
    for j in 0..count {
        push_place(board, cover, labels, count, j, base + 2 * j, out)?;
    }
    Ok(())
}

fn push_code_line<S: Sink>(region: &Region, out: &mut S) -> Result<(), Failed>
    ensures bytes { Pushes (S.seen out.old).written (S.seen out.new).written (code_line region.now)
        result }
    ensures cause { HasCause (S.seen out.old).faults (S.seen out.new).faults result }
{
    let mut line = Line::new();
    code_line(region, &mut line);
    out.push(line.as_str().as_bytes())
}

fn push_covered<S: Sink>(totals: Totals, out: &mut S) -> Result<(), Failed>
    ensures bytes { Pushes (S.seen out.old).written (S.seen out.new).written
        (codes "covered " ++ totals_text totals) result }
    ensures cause { HasCause (S.seen out.old).faults (S.seen out.new).faults result }
{
    let mut line = Line::new();
    line.push_str("covered ");
    push_totals(totals, &mut line);
    out.push(line.as_str().as_bytes())
}

fn push_in_all<S: Sink>(totals: Totals, out: &mut S) -> Result<(), Failed>
    ensures bytes { Pushes (S.seen out.old).written (S.seen out.new).written
        (codes "in all " ++ totals_text totals) result }
    ensures cause { HasCause (S.seen out.old).faults (S.seen out.new).faults result }
{
    let mut line = Line::new();
    line.push_str("in all ");
    push_totals(totals, &mut line);
    out.push(line.as_str().as_bytes())
}

// How many places a region has.
fn place_count(region: &Region) -> u32
    ensures count { result ≡ place_count region.now }
    ensures few { result ≤ 524288 }
{
    region.size.min(1_048_576) / 2
}

fn region_totals(board: &Board, cover: &Cover, region: &Region) -> Totals
    requires below { region.now.base < 2 ^ 31 }
    ensures is { (x : Scenario) (s : State) → Stands (boxed shown) x board.now s →
        result ≡ region_totals (covered s.memory cover.now) region.now }
    ensures few { AreAtMost 1048576 result }
{
    totals_in(board, cover, region.base, place_count(region))
}

// Pushes the lines of a region.
fn push_region<S: Sink>(
    board: &Board,
    cover: &Cover,
    labels: &[Label],
    region: &Region,
    out: &mut S,
) -> Result<(), Failed>
    requires above { 4 ≤ region.now.base }
    requires below { region.now.base < 2 ^ 31 }
    ensures bytes { PushesFor (boxed shown) board.now
        (λ x s. region_text (covered s.memory cover.now) (labels_in labels.now) region.now)
        (S.seen out.old) (S.seen out.new) result }
    ensures cause { HasCause (S.seen out.old).faults (S.seen out.new).faults result }
{
    push_code_line(region, out)?;
    push_rows(board, cover, labels, region.base, place_count(region), out)?;
    push_covered(region_totals(board, cover, region), out)
}

/// The number of multiples of 256 bytes in the flash.
const FLASH_BASES: u32 = 4096;

/// The number of multiples of 256 bytes in the flash and the RAM.
const BASES: u32 = 5120;

// The i-th address where a region may begin.
#[tactic(auto, unfolding(crate::specs::Text::base_of))]
fn base_of(i: u32) -> u32
    requires { i < 5120 }
    ensures is { result ≡ base_of i }
    ensures above { 4 ≤ result }
    ensures below { result < 2 ^ 31 }
{
    if i < FLASH_BASES {
        FLASH + 256 * i
    } else {
        RAM + 256 * (i - FLASH_BASES)
    }
}

// Pushes the lines of the region that begins at the i-th address, if one does.
fn push_base<S: Sink>(
    board: &Board,
    cover: &Cover,
    labels: &[Label],
    i: u32,
    out: &mut S,
) -> Result<(), Failed>
    requires inside { i < 5120 }
    ensures bytes { PushesFor (boxed shown) board.now
        (λ x s. base_text x.setup (covered s.memory cover.now) (labels_in labels.now) i)
        (S.seen out.old) (S.seen out.new) result }
    ensures cause { HasCause (S.seen out.old).faults (S.seen out.new).faults result }
{
    match code_at(board, base_of(i)) {
        None => Ok(()),
        Some(region) => push_region(board, cover, labels, &region, out),
    }
}

// The totals of the region that begins at the i-th address; none if no region begins there.
fn base_totals(board: &Board, cover: &Cover, i: u32) -> Totals
    requires inside { i < 5120 }
    ensures is { (x : Scenario) (s : State) → Stands (boxed shown) x board.now s →
        result ≡ base_totals x.setup (covered s.memory cover.now) i }
    ensures few { AreAtMost 1048576 result }
{
    match code_at(board, base_of(i)) {
        None => Totals::none(),
        Some(region) => region_totals(board, cover, &region),
    }
}

fn push_bases<S: Sink>(
    board: &Board,
    cover: &Cover,
    labels: &[Label],
    out: &mut S,
) -> Result<(), Failed>
    ensures bytes { PushesFor (boxed shown) board.now
        (λ x s. bases_text x.setup (covered s.memory cover.now) (labels_in labels.now) 5120)
        (S.seen out.old) (S.seen out.new) result }
    ensures cause { HasCause (S.seen out.old).faults (S.seen out.new).faults result }
{
    for i in 0..BASES {
        push_base(board, cover, labels, i, out)?;
    }
    Ok(())
}

#[tactic(auto, unfolding(crate::specs::Text::all_totals))]
fn all_totals(board: &Board, cover: &Cover) -> Totals
    ensures { (x : Scenario) (s : State) → Stands (boxed shown) x board.now s →
        result ≡ all_totals x.setup (covered s.memory cover.now) 5120 }
{
    let mut totals = Totals::none();
    for i in 0..BASES {
        totals = totals.added(base_totals(board, cover, i));
    }
    totals
}

/// Pushes each different region of code by ascending base (docs/FORMATS.md, Cover). A region has a
/// line `code <base> <size>`; a line for each known instruction, after a line for each label at its
/// address; a line for each row of bytes that belong to no known instruction; and a line with its
/// totals. At the end comes a line with the totals of all regions. A line is one push, that of a
/// label three. After a failing push nothing more is pushed.
///
/// # Errors
///
/// Only if a push fails.
pub fn push_listing<S: Sink>(
    board: &Board,
    cover: &Cover,
    labels: &[Label],
    out: &mut S,
) -> Result<(), Failed>
    ensures bytes { PushesFor (boxed shown) board.now
        (λ x s. listing_text x.setup (covered s.memory cover.now) (labels_in labels.now))
        (S.seen out.old) (S.seen out.new) result }
    ensures cause { HasCause (S.seen out.old).faults (S.seen out.new).faults result }
{
    push_bases(board, cover, labels, out)?;
    push_in_all(all_totals(board, cover), out)
}

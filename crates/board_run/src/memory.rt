//! The memory of a board, line by line.
ghost use Rattle.std.specs.Prelude.{◌≡◌, ◌+◌, ◌*◌, ◌++◌, ◌<◌, ◌≤◌, ◌^◌, [], IfSome};
ghost use Rattle.arrayvec.specs.ArrayString.{array_string_len};
ghost use Rattle.outside_io.specs.Outside.{Pushes, HasCause};
ghost use Rattle.task_table.specs.model.State.{State};
ghost use Rattle.board_model.specs.Script.{Scenario};
ghost use Rattle.board_core.specs.Stands.{Stands};
ghost use Rattle.board_core.specs.Data.{boxed};
ghost use Rattle.board_run.specs.MemoryText.{are_zeros, begins_at, byte_of, bytes_hex, memory_text, place_text, region_at, region_line, region_text, row_count, row_line, row_text, rows_text};

use crate::line::{Line, push_byte, region_line as put_region_line};
use crate::regions::{RegionTest, first_region};
use board_core::Board;
use mem_banks::RAM;
use outside_io::{Failed, Sink};
use region_check::Region;
use trace_text::push_hex;

/// The regions that begin at an address.
#[derive(Drop)]
struct BeginsAt {
    base: u32,
}

impl RegionTest for BeginsAt {
    ghost holds = { λ t r. begins_at t.base r };

    fn passes(&self, region: &Region) -> bool {
        region.base == self.base
    }
}

/// The region that begins at an address, whichever task has it.
#[tactic(auto, unfolding(crate::specs::MemoryText::region_at))]
fn region_at(board: &Board, base: u32) -> Option<Region>
    ensures base { IfSome result (λ r. r.base ≡ base) }
    ensures found { (x : Scenario) (s : State) → Stands (boxed shown) x board.now s →
        result ≡ region_at x.setup base }
{
    first_region(board, &BeginsAt { base })
}

/// The byte at an address; 0 if there is none.
pub fn byte_at(board: &Board, addr: u32) -> u8
    ensures { (x : Scenario) (s : State) → Stands (boxed shown) x board.now s →
        result ≡ byte_of s.memory addr }
{
    board.byte(addr).unwrap_or(0)
}

fn are_zeros(board: &Board, addr: u32) -> bool
    requires { addr + 16 ≤ 2 ^ 32 }
    ensures { (x : Scenario) (s : State) → Stands (boxed shown) x board.now s →
        result ≡ are_zeros s.memory addr 16 }
{
    for k in 0..16 {
        if byte_at(board, addr + k) != 0 {
            return false;
        }
    }
    true
}

/// Sixteen bytes, in hexadecimal digits.
fn push_bytes(board: &Board, addr: u32, line: &mut Line)
    requires inside { addr + 16 ≤ 2 ^ 32 }
    requires room { array_string_len line.old + 32 ≤ 160 }
    ensures bytes { (x : Scenario) (s : State) → Stands (boxed shown) x board.now s →
        line.new.bytes ≡ line.old.bytes ++ bytes_hex s.memory addr 16 }
    ensures len { array_string_len line.new ≡ array_string_len line.old + 32 }
{
    for k in 0..16 {
        push_byte(line, byte_at(board, addr + k));
    }
}

#[tactic(auto, unfolding(crate::specs::MemoryText::row_line))]
fn row_line(board: &Board, addr: u32, line: &mut Line)
    requires inside { addr + 16 ≤ 2 ^ 32 }
    requires empty { line.old.bytes ≡ [] }
    ensures { (x : Scenario) (s : State) → Stands (boxed shown) x board.now s →
        line.new.bytes ≡ row_line s.memory addr }
{
    push_hex(line, addr);
    line.push_str(" ");
    push_bytes(board, addr, line);
    line.push_str("\n");
}

/// Pushes the line of sixteen bytes, if one of them is not zero.
fn push_row<S: Sink>(board: &Board, addr: u32, out: &mut S) -> Result<(), Failed>
    requires inside { addr + 16 ≤ 2 ^ 32 }
    ensures bytes { (x : Scenario) (s : State) → Stands (boxed shown) x board.now s →
        Pushes (S.seen out.old).written (S.seen out.new).written (row_text s.memory addr) result }
    ensures cause { HasCause (S.seen out.old).faults (S.seen out.new).faults result }
{
    if are_zeros(board, addr) {
        return Ok(());
    }
    let mut line = Line::new();
    row_line(board, addr, &mut line);
    out.push(line.as_str().as_bytes())
}

fn push_rows<S: Sink>(board: &Board, base: u32, count: u32, out: &mut S) -> Result<(), Failed>
    requires inside { base + 16 * count ≤ 2 ^ 32 }
    ensures bytes { (x : Scenario) (s : State) → Stands (boxed shown) x board.now s →
        Pushes (S.seen out.old).written (S.seen out.new).written (rows_text s.memory base count)
        result }
    ensures cause { HasCause (S.seen out.old).faults (S.seen out.new).faults result }
{
    for k in 0..count {
        push_row(board, base + 16 * k, out)?;
    }
    Ok(())
}

fn push_region_line<S: Sink>(region: &Region, out: &mut S) -> Result<(), Failed>
    ensures bytes { Pushes (S.seen out.old).written (S.seen out.new).written
        (region_line region.now) result }
    ensures cause { HasCause (S.seen out.old).faults (S.seen out.new).faults result }
{
    let mut line = Line::new();
    put_region_line(region, &mut line);
    out.push(line.as_str().as_bytes())
}

fn row_count(region: &Region) -> u32
    ensures count { result ≡ row_count region.now }
    ensures few { result ≤ 16384 }
{
    region.size.min(262_144) / 16
}

/// Pushes the lines of a region.
fn push_region<S: Sink>(board: &Board, region: &Region, out: &mut S) -> Result<(), Failed>
    requires inside { region.now.base + 262144 ≤ 2 ^ 32 }
    ensures bytes { (x : Scenario) (s : State) → Stands (boxed shown) x board.now s →
        Pushes (S.seen out.old).written (S.seen out.new).written (region_text s.memory region.now)
        result }
    ensures cause { HasCause (S.seen out.old).faults (S.seen out.new).faults result }
{
    push_region_line(region, out)?;
    push_rows(board, region.base, row_count(region), out)
}

/// Pushes the lines of the region that begins at the k-th place of RAM, if there is one.
fn push_place<S: Sink>(board: &Board, k: u32, out: &mut S) -> Result<(), Failed>
    requires inside { k < 1024 }
    ensures bytes { (x : Scenario) (s : State) → Stands (boxed shown) x board.now s →
        Pushes (S.seen out.old).written (S.seen out.new).written (place_text x.setup s.memory k)
        result }
    ensures cause { HasCause (S.seen out.old).faults (S.seen out.new).faults result }
{
    match region_at(board, RAM + 256 * k) {
        None => Ok(()),
        Some(region) => push_region(board, &region, out),
    }
}

/// Pushes the memory of every task as the board has it: each different region of RAM by ascending
/// base, with a line `mem <base> <size>` and then a line for each 16 bytes that are not all zero
/// (docs/FORMATS.md, Memories), one push each. After a failing push nothing more is pushed.
///
/// # Errors
///
/// Only if a push failed.
pub fn write_memory<S: Sink>(board: &Board, out: &mut S) -> Result<(), Failed>
    ensures text { (x : Scenario) (s : State) → Stands (boxed shown) x board.now s →
        Pushes (S.seen out.old).written (S.seen out.new).written (memory_text x.setup s) result }
    ensures cause { HasCause (S.seen out.old).faults (S.seen out.new).faults result }
{
    for k in 0..1024 {
        push_place(board, k, out)?;
    }
    Ok(())
}

//! Writes the state of a board as bytes.
ghost use Rattle.std.specs.Prelude.{◌≡◌, ◌≤◌, ◌<◌, ◌+◌, ◌*◌, ◌++◌, length, take, IfOk};
ghost use Rattle.std.specs.List.{flat_map};
ghost use Rattle.kernel_abi.specs.Devices.{device_at};
ghost use Rattle.task_table.specs.model.State.{State};
ghost use Rattle.board_model.specs.Alike.{reduced};
ghost use Rattle.board_model.specs.Script.{Scenario};
ghost use Rattle.board_core.specs.Data.{boxed};
ghost use Rattle.board_core.specs.Stands.{Stands, StandsForSome, count_of};
ghost use Rattle.snapshot.specs.Records.{task_bytes, device_bytes};
ghost use Rattle.snapshot.specs.Saved.{SpellsState, device_told, parts_of, record_of, spelling};

use crate::records::Header;
use crate::shown::{device_record_of, line_number, record_of};
use crate::writing::{put_device, put_header, put_lines, put_task};
use board_core::Board;
use std::alloc::{AllocError, Global};

/// The length in bytes of the saved state of a board (docs/FORMATS.md, Saved state).
pub fn saved_len(board: &Board) -> usize
    ensures { (x : Scenario) (s : State) → Stands (boxed shown) x board.now s →
        result ≡ length (spelling (reduced s)) }
{
    // No board that stands has more than eight devices.
    100 + 132 * board.task_count() + 72 * board.device_count().min(8) + board.ram_len()
}

fn header_of(board: &Board) -> Header
    requires { StandsForSome (boxed shown) board.now }
    ensures { (x : Scenario) (s : State) → Stands (boxed shown) x board.now s →
        result ≡ (parts_of (reduced s)).header }
{
    Header {
        turn: board.turns(),
        tasks: board.task_count() as u32,
        ram: board.ram_len() as u32,
        clock: board.now(),
        current: board.current() as u32,
        next_call: board.next_call(),
        devices: board.device_count() as u32,
    }
}

fn lines_of(board: &Board) -> [u8; 64]
    ensures { (x : Scenario) (s : State) → Stands (boxed shown) x board.now s →
        result ≡ (parts_of (reduced s)).lines }
{
    let mut lines = [0; 64];
    for k in 0..64 {
        lines[k] = line_number(board.irq_line(k));
    }
    lines
}

/// Writes the record of task i.
fn save_task(board: &Board, i: usize, out: &mut [u8], at: usize) -> usize
    requires there { i < count_of board.now }
    requires room { at + 132 ≤ length out.old }
    ensures front { (x : Scenario) (s : State) → Stands (boxed shown) x board.now s →
        take result out.new ≡ take at out.old ++ task_bytes (record_of (reduced s) i) }
    ensures after { result ≡ at + 132 }
    ensures len { length out.new ≡ length out.old }
{
    match board.task(i) {
        Some(view) => put_task(out, at, &record_of(&view)),
        None => unreachable!(),
    }
}

/// Writes the records of all tasks.
fn save_tasks(board: &Board, out: &mut [u8], at: usize) -> usize
    requires room { (x : Scenario) × (s : State) × Stands (boxed shown) x board.now s
        × (at + 132 * length s.tasks ≤ length out.old) }
    ensures front { (x : Scenario) (s : State) → Stands (boxed shown) x board.now s →
        take result out.new ≡ take at out.old ++ flat_map task_bytes (parts_of (reduced s)).tasks }
    ensures after { (x : Scenario) (s : State) → Stands (boxed shown) x board.now s →
        result ≡ at + 132 * length s.tasks }
    ensures len { length out.new ≡ length out.old }
{
    let mut end = at;
    for i in 0..board.task_count() {
        end = save_task(board, i, out, end);
    }
    end
}

/// Writes the record of device k.
fn save_device(board: &Board, k: usize, out: &mut [u8], at: usize) -> usize
    requires there { (x : Scenario) × (s : State) × Stands (boxed shown) x board.now s
        × (k < length s.devices) }
    requires room { at + 72 ≤ length out.old }
    ensures front { (x : Scenario) (s : State) → Stands (boxed shown) x board.now s →
        take result out.new ≡ take at out.old
        ++ device_bytes (device_told (device_at s.devices k)) }
    ensures after { result ≡ at + 72 }
    ensures len { length out.new ≡ length out.old }
{
    match board.device(k) {
        Some(view) => put_device(out, at, &device_record_of(&view)),
        None => unreachable!(),
    }
}

/// Writes the records of all devices.
fn save_devices(board: &Board, out: &mut [u8], at: usize) -> usize
    requires room { (x : Scenario) × (s : State) × Stands (boxed shown) x board.now s
        × (at + 72 * length s.devices ≤ length out.old) }
    ensures front { (x : Scenario) (s : State) → Stands (boxed shown) x board.now s →
        take result out.new ≡ take at out.old
        ++ flat_map device_bytes (parts_of (reduced s)).devices }
    ensures after { (x : Scenario) (s : State) → Stands (boxed shown) x board.now s →
        result ≡ at + 72 * length s.devices }
    ensures len { length out.new ≡ length out.old }
{
    let mut end = at;
    for k in 0..board.device_count() {
        end = save_device(board, k, out, end);
    }
    end
}

/// Writes the bytes of the RAM, which fill the rest of `out`.
fn save_ram(board: &Board, out: &mut [u8], at: usize)
    requires room { (x : Scenario) × (s : State) × Stands (boxed shown) x board.now s
        × (at + length s.memory.ram ≡ length out.old) }
    ensures { (x : Scenario) (s : State) → Stands (boxed shown) x board.now s →
        out.new ≡ take at out.old ++ s.memory.ram }
{
    board.read_ram(&mut out[at..]);
}

/// Writes the spelling of a board's state over `out` (docs/FORMATS.md, Saved state). Each birth is
/// saved as its generation. It takes no memory.
pub fn save_into(board: &Board, out: &mut [u8])
    requires room { (x : Scenario) × (s : State) × Stands (boxed shown) x board.now s
        × (length out.old ≡ length (spelling (reduced s))) }
    ensures { (x : Scenario) (s : State) → Stands (boxed shown) x board.now s →
        SpellsState x.setup (reduced s) out.new }
{
    let at = put_header(out, 0, &header_of(board));
    let at = put_lines(out, at, &lines_of(board));
    let at = save_tasks(board, out, at);
    let at = save_devices(board, out, at);
    save_ram(board, out, at);
}

/// Writes the same over the bytes of a vector.
pub fn save_over(board: &Board, saved: &mut Vec<u8>)
    requires { (x : Scenario) × (s : State) × Stands (boxed shown) x board.now s
        × (length saved.old.items ≡ length (spelling (reduced s))) }
    ensures spelled { (x : Scenario) (s : State) → Stands (boxed shown) x board.now s →
        SpellsState x.setup (reduced s) saved.new.items }
    ensures long { length saved.new.items ≡ length saved.old.items }
{
    save_into(board, saved.as_mut_slice());
}

/// The same bytes in a new vector.
///
/// # Errors
///
/// Only if memory runs out.
pub fn save(alloc: Global, board: &Board) -> Result<Vec<u8>, AllocError>
    requires stood { StandsForSome (boxed shown) board.now }
    ensures { (x : Scenario) (s : State) → Stands (boxed shown) x board.now s →
        IfOk result (λ v. SpellsState x.setup (reduced s) v.items) }
{
    let mut bytes = vec![in alloc; 0; saved_len(board)]?;
    save_into(board, &mut bytes);
    Ok(bytes)
}

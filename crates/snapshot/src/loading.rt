//! Sets a board to the state that bytes spell, so that its run goes on from there.
ghost use Rattle.std.specs.Prelude.{◌≡◌, ◌<◌, ◌≤◌, ◌+◌, ◌*◌, ℕ, None, length, map, drop, vec_items, IfOk, IfErr};
ghost use Rattle.kernel_abi.specs.Devices.{AreFresh, device_at, with_device};
ghost use Rattle.image_format.specs.Images.{image_data};
ghost use Rattle.run_script.specs.Events.{script_data};
ghost use Rattle.task_table.specs.model.State.{State};
ghost use Rattle.task_table.specs.model.Sane.{Sane, IsCounted};
ghost use Rattle.board_model.specs.Script.{Scenario, start_of};
ghost use Rattle.board_core.specs.Data.{boxed};
ghost use Rattle.board_core.specs.Opened.{setup_of_image, scenario_of};
ghost use Rattle.board_core.specs.Stands.{Holds, Stands, count_of, turns_of};
ghost use Rattle.snapshot.specs.Records.{header_at, task_in, device_in};
ghost use Rattle.snapshot.specs.Waits.{state_fault};
ghost use Rattle.snapshot.specs.Accepted.{IsGoodRecord, IsGoodDevice};
ghost use Rattle.snapshot.specs.Saved.{SpellsState, expected_of};
ghost use Rattle.snapshot.specs.Restored.{state_in, device_from};
ghost use Rattle.snapshot.specs.Loaded.{sites, IsStateFault, with_numbers, with_lines, with_tasks, with_devices, loaded};

use crate::checks::check;
use crate::reading::{device_record, header, task_record};
use crate::records::{DeviceRecord, Header};
use crate::views::view_of;
use board_core::Board;
use devices::Device;
use image_format::Image;
use kernel_abi::Kind;
use region_check::Region;
use run_script::Script;
use std::alloc::{AllocError, Global};
use thiserror::Error;

/// Why no board was made from bytes: the bytes are refused, or memory ran out.
#[derive(Debug, Drop, Error)]
pub enum StateFault {
    /// The first cause of docs/FORMATS.md, Saved state, and the place of a byte.
    #[error("refused with cause {cause} at byte {place}")]
    Refused { cause: u8, place: u32 },
    #[error("out of memory")]
    Memory,
}

/// Sets the turn, the time, the task that ran last and the number of the next call.
fn set_numbers(board: &mut Board, h: &Header)
    requires { h.now.current < count_of board.old }
    ensures holds { (x : Scenario) (s : State) → Holds (boxed shown) x board.old s →
        Holds (boxed shown) x board.new (with_numbers h.now s) }
    ensures count { count_of board.new ≡ count_of board.old }
{
    board.set_turns(h.turn);
    board.set_now(h.clock);
    board.set_current(h.current as usize);
    board.set_next_call(h.next_call);
}

/// Sets each interrupt line from its byte.
fn set_lines(board: &mut Board, bytes: &[u8])
    requires { 100 ≤ length bytes.now }
    ensures holds { (x : Scenario) (s : State) → Holds (boxed shown) x board.old s →
        Holds (boxed shown) x board.new (record s { lines = with_lines bytes.now 64 s.lines }) }
    ensures count { count_of board.new ≡ count_of board.old }
{
    for k in 0..64 {
        let byte = bytes[36 + k];
        board.set_irq_line(k, byte == 1, byte == 2);
    }
}

/// Sets each task from its record.
fn set_tasks(board: &mut Board, tasks: usize, bytes: &[u8])
    requires few { tasks ≤ 1024 }
    requires count { tasks ≤ count_of board.old }
    requires long { 100 + 132 * tasks ≤ length bytes.now }
    requires good { (i : ℕ) → i < tasks →
        IsGoodRecord (header_at bytes.now).clock (task_in bytes.now i) }
    ensures holds { (x : Scenario) (s : State) → Holds (boxed shown) x board.old s →
        Holds (boxed shown) x board.new (with_tasks bytes.now tasks s) }
    ensures count { count_of board.new ≡ count_of board.old }
{
    for i in 0..tasks {
        board.set_task(i, &view_of(&task_record(bytes, i), i));
    }
}

fn set_device(board: &mut Board, k: usize, d: &DeviceRecord)
    requires { (x : Scenario) × (s : State) × Holds (boxed shown) x board.old s
        × (k < length s.devices) × IsGoodDevice (device_at s.devices k).kind d.now }
    ensures holds { (x : Scenario) (s : State) → Holds (boxed shown) x board.old s →
        Holds (boxed shown) x board.new
        (record s {
          devices = with_device s.devices k (device_from (device_at s.devices k) d.now);
        }) }
    ensures count { count_of board.new ≡ count_of board.old }
{
    board.set_device(k, d.count, &d.queue[..d.queued as usize]);
}

/// Sets each device from its record. The records of devices stand after those of `tasks` tasks.
fn set_devices(board: &mut Board, tasks: usize, devices: usize, bytes: &[u8])
    requires long { 100 + 132 * tasks + 72 * devices ≤ length bytes.now }
    requires fit { (x : Scenario) × (s : State) × Holds (boxed shown) x board.old s
        × (devices ≤ length s.devices) ×
        ((k : ℕ) → k < devices → IsGoodDevice (device_at s.devices k).kind
        (device_in bytes.now tasks k)) }
    ensures holds { (x : Scenario) (s : State) → Holds (boxed shown) x board.old s →
        Holds (boxed shown) x board.new
        (record s { devices = with_devices bytes.now tasks devices s.devices }) }
    ensures count { count_of board.new ≡ count_of board.old }
{
    for k in 0..devices {
        set_device(board, k, &device_record(bytes, tasks, k));
    }
}

/// The bytes from `at` on.
fn rest(bytes: &[u8], at: usize) -> &[u8]
    requires { at ≤ length bytes.now }
    ensures { result.now ≡ drop at bytes.now }
{
    &bytes[at..]
}

/// Sets all parts of the board. The bytes have the parts of a saved state that fits the board.
fn set_parts(board: &mut Board, tasks: usize, devices: usize, bytes: &[u8])
    requires { (x : Scenario) × (u : State) × Stands (boxed shown) x board.old u
        × (tasks ≡ length u.tasks) × (devices ≡ length u.devices)
        × (state_fault (expected_of x.setup u.devices) bytes.now ≡ None) }
    ensures { (x : Scenario) (u : State) → tasks ≡ length u.tasks → devices ≡ length u.devices →
        Holds (boxed shown) x board.old u → Holds (boxed shown) x board.new (loaded bytes.now u) }
{
    set_numbers(board, &header(bytes));
    set_lines(board, bytes);
    set_tasks(board, tasks, bytes);
    board.set_ram(rest(bytes, 100 + 132 * tasks + 72 * devices));
    set_devices(board, tasks, devices, bytes);
}

/// Sets the board to the state that the bytes spell. It keeps its image, its script, and the kinds
/// and bases of its devices. It takes no memory.
pub fn load_into(board: &mut Board, bytes: &[u8])
    requires { (x : Scenario) × (u : State) × Stands (boxed shown) x board.old u
        × (state_fault (expected_of x.setup u.devices) bytes.now ≡ None) }
    ensures stands { (x : Scenario) (u : State) → Stands (boxed shown) x board.old u →
        Stands (boxed shown) x board.new (state_in x.setup u.devices bytes.now) }
    ensures each { (x : Scenario) (u s : State) → Stands (boxed shown) x board.old u →
        SpellsState x.setup s bytes.now
        → Sane x.setup s → IsCounted s → sites s.devices ≡ sites u.devices →
        Stands (boxed shown) x board.new s }
{
    let tasks = board.task_count();
    let devices = board.device_count();
    set_parts(board, tasks, devices, bytes);
}

/// The regions of each task.
fn regions(alloc: Global, image: &Image) -> Result<Vec<Vec<Region>>, AllocError>
    ensures { IfOk result (λ v. map vec_items v.items ≡ map (λ t. t.regions)
        (image_data image.now).tasks) }
{
    let mut regions = Vec::new(alloc);
    for i in 0..image.task_count() {
        regions.push(image.regions(alloc, i)?)?;
    }
    Ok(regions)
}

/// The interrupt lines that have an owner.
fn owned(alloc: Global, image: &Image) -> Result<Vec<u8>, AllocError>
    ensures { IfOk result (λ v. v.items ≡ map (λ l. l.line) (image_data image.now).lines) }
{
    let mut lines = Vec::new(alloc);
    for k in 0..image.line_count() {
        lines.push(image.line(k))?;
    }
    Ok(lines)
}

fn kind_of(device: &Box<dyn Device>) -> Kind
    ensures { result ≡ (shown device.now).kind }
{
    device.kind()
}

/// The kinds of devices, in order.
fn kinds(alloc: Global, devices: &Vec<Box<dyn Device>>) -> Result<Vec<Kind>, AllocError>
    requires { length devices.now.items ≤ 8 }
    ensures { IfOk result (λ v. v.items ≡ map (λ d. d.kind) (map shown devices.now.items)) }
{
    let mut kinds = Vec::new(alloc);
    for k in 0..devices.len() {
        kinds.push(kind_of(&devices[k]))?;
    }
    Ok(kinds)
}

/// The first cause for which the bytes are refused with this image and these devices, if any.
fn refusal(
    alloc: Global,
    image: &Image,
    devices: &Vec<Box<dyn Device>>,
    bytes: &[u8],
) -> Result<Option<(u8, u32)>, AllocError>
    requires { length devices.now.items ≤ 8 }
    ensures { IfOk result (λ found. found ≡ state_fault
        (expected_of (setup_of_image (image_data image.now)) (map shown devices.now.items))
        bytes.now) }
{
    image.facts();
    let regions = regions(alloc, image)?;
    let owned = owned(alloc, image)?;
    let kinds = kinds(alloc, devices)?;
    Ok(check(&regions, image.ram(), &owned, &kinds, bytes))
}

/// A board of an image with a script and with the devices that are handed in, set to the state that
/// the bytes spell. Its run starts sane. If no board is made, the devices are dropped.
///
/// # Errors
///
/// `Refused` with the first cause for which the bytes are refused, or `Memory` if memory runs out.
pub fn load(
    alloc: Global,
    image: &Image,
    script: &Script,
    bytes: &[u8],
    devices: Vec<Box<dyn Device>>,
) -> Result<Board, StateFault>
    requires fresh { AreFresh (map shown devices.items) }
    ensures accepted { let x = scenario_of (image_data image.now) (script_data script.now)
        (map shown devices.items) in IfOk result
        (λ b. state_fault (expected_of x.setup x.devices) bytes.now ≡ None) }
    ensures start { let x = scenario_of (image_data image.now) (script_data script.now)
        (map shown devices.items) in IfOk result (λ b. Sane x.setup (start_of x)) }
    ensures stands { let x = scenario_of (image_data image.now) (script_data script.now)
        (map shown devices.items) in IfOk result
        (λ b. Stands shown x b (state_in x.setup x.devices bytes.now)) }
    ensures each { let x = scenario_of (image_data image.now) (script_data script.now)
        (map shown devices.items) in
        IfOk result (λ b. (s : State) → SpellsState x.setup s bytes.now → Sane x.setup s →
        IsCounted s → sites s.devices ≡ sites x.devices → Stands shown x b s) }
    ensures turns { IfOk result (λ b. turns_of b ≡ (header_at bytes.now).turn) }
    ensures refused { let x = scenario_of (image_data image.now) (script_data script.now)
        (map shown devices.items) in IfErr result
        (IsStateFault (state_fault (expected_of x.setup x.devices) bytes.now)) }
{
    let found = match refusal(alloc, image, &devices, bytes) {
        Ok(found) => found,
        Err(_) => return Err(StateFault::Memory),
    };
    match found {
        Some((cause, place)) => return Err(StateFault::Refused { cause, place }),
        None => {}
    }
    let mut board = match Board::open(alloc, image, script, devices) {
        Ok(board) => board,
        Err(_) => return Err(StateFault::Memory),
    };
    load_into(&mut board, bytes);
    Ok(board)
}

ghost use Rattle.std.specs.Prelude.{◌≡◌, ◌≤◌, ◌<◌, true, length, IfOk};
ghost use Rattle.mem_banks.specs.Memory.{is_held};
ghost use Rattle.task_table.specs.model.State.{State};
ghost use Rattle.board_model.specs.Script.{Scenario};
ghost use Rattle.board_core.specs.Data.{boxed};
ghost use Rattle.board_core.specs.Stands.{Holds, StandsForSome, turns_of};

use board_core::{Board, End, Level};
use image_format::Image;
use kernel_abi::Note;
use run_script::Script;
use std::alloc::{AllocError, Global};
use std::process::Abort;
use std::test::Fail;

/// The front of an image of one task with 256 bytes of flash. The bytes of the flash follow it.
const HEAD: [u8; 44] = [
    0x48, 0x42, 0x49, 0x31, 1, 0, 1, 0, 0, 1, 0, 0, 0, 0, 0, 0, 1, 0, 0, 0, 0, 1, 1, 0, 1, 0, 0, 8,
    0, 0, 0, 0x20, 0, 0, 0, 8, 0, 1, 0, 0, 5, 0, 0, 0,
];

// A board of the image whose flash begins with `movs r0, #1` and this halfword, with a script.
fn with_script(
    rt: &impl Abort,
    alloc: Global,
    second: u16,
    script: &[u8],
) -> Result<Board, AllocError>
    requires small { length script.now < 1000 }
    ensures stood { IfOk result (λ b. StandsForSome (boxed shown) b) }
    ensures turns { IfOk result (λ b. turns_of b ≡ 0) }
    ensures first { IfOk result (λ b. (x : Scenario) × (s : State) × Holds (boxed shown) x b s
        × (is_held s.memory 0x08000000 ≡ true)) }
{
    let mut bytes = [0; 300];
    bytes[..44].copy_from_slice(&HEAD);
    bytes[44] = 0x01;
    bytes[45] = 0x20;
    bytes[46] = (second % 256) as u8;
    bytes[47] = (second / 256) as u8;
    let image = Image::read(alloc, &bytes).expect(rt, "the image is sound");
    image.facts();
    let script = Script::read(alloc, script).expect(rt, "the script is taken");
    Board::open(alloc, &image, &script, Vec::new(alloc))
}

/// The turns, the time, whether the first note is that of the first tick, the number of notes, and
/// why the run ended, if it did.
type Shown = (u32, u64, bool, usize, Option<End>);

fn shown(board: &Board) -> Shown
    requires { StandsForSome (boxed shown) board.now }
{
    let notes = board.notes();
    let has_ticked = notes.get(0).copied() == Some(Note::Tick { now: 1 });
    (
        board.turns(),
        board.now(),
        has_ticked,
        notes.len(),
        board.ended(),
    )
}

// Makes turns one after another.
fn advance(board: &mut Board, level: Level, limit: u32)
    requires left { turns_of board.old < limit }
    requires few { limit < 1000 }
    requires stood { StandsForSome (boxed shown) board.old }
    ensures stood { StandsForSome (boxed shown) board.new }
    ensures turns { turns_of board.new ≤ limit }
{
    board.advance(level, limit);
}

/// What a new board shows after one call of `advance` with limit 100, and the task's r0 and PC
/// then.
fn after_turns(
    rt: &impl Abort,
    alloc: Global,
    second: u16,
    script: &[u8],
    level: Level,
) -> Result<(Shown, u32, u32), AllocError>
    requires small { length script.now < 1000 }
{
    let mut board = with_script(rt, alloc, second, script)?;
    advance(&mut board, level, 100);
    let task = board.task(0).expect(rt, "there is a task");
    Ok((shown(&board), task.regs[0], task.regs[15]))
}

#[test]
fn a_board_opens(rt: HostRuntime) -> Result<(), Fail> {
    let board = with_script(&rt, rt.alloc(), 0xe7fe, b"")?;
    let counts = (board.task_count(), board.next_call());
    let bytes = [board.byte(0x0800_0001), board.byte(0x0800_0100)];
    let lines = [board.irq_line(63), board.irq_line(64)];
    let is_there = [
        board.region(0, 0).is_some(),
        board.region(0, 1).is_some(),
        board.task(1).is_some(),
    ];
    assert!(rt; (shown(&board), counts) == ((0, 0, false, 0, None), (1, 1)));
    assert!(rt; (bytes, lines) == ([Some(0x20), None], [Some((false, false)), None]));
    assert!(rt; is_there == [true, false, false]);
    Ok(())
}

// Sets the first byte of the flash. The byte after it stays.
#[test]
fn a_byte_is_set(rt: HostRuntime) -> Result<(), Fail> {
    let mut board = with_script(&rt, rt.alloc(), 0xe7fe, b"")?;
    let before = [board.byte(0x0800_0000), board.byte(0x0800_0001)];
    board.set_byte(0x0800_0000, 7);
    let after = [board.byte(0x0800_0000), board.byte(0x0800_0001)];
    assert!(rt; before == [Some(1), Some(0x20)]);
    assert!(rt; after == [Some(7), Some(0x20)]);
    Ok(())
}

#[test]
fn next_turns(rt: HostRuntime) -> Result<(), Fail> {
    let board = with_script(&rt, rt.alloc(), 0xe7fe, b"at 7 tick\n")?;
    let next = [board.next(0), board.next(7), board.next(8)];
    assert!(rt; next == [Some(7), Some(7), None]);
    Ok(())
}

// Turns without notes are made in one go, up to the limit, an event or a note. With level `All` one
// call makes one turn.
#[test]
fn turns_on_end(rt: HostRuntime) -> Result<(), Fail> {
    let alloc = rt.alloc();
    let (limit, r0, pc) = after_turns(&rt, alloc, 0xe7fe, b"", Level::Calls)?;
    let (event, ..) = after_turns(&rt, alloc, 0xe7fe, b"at 7 tick\n", Level::Calls)?;
    let (note, ..) = after_turns(&rt, alloc, 0xde00, b"", Level::Calls)?;
    let (all, ..) = after_turns(&rt, alloc, 0xe7fe, b"", Level::All)?;
    assert!(rt; (limit, r0, pc) == ((100, 0, false, 0, None), 1, 0x0800_0002));
    assert!(rt; event == (8, 1, true, 1, None));
    assert!(rt; note == (2, 0, false, 1, Some(End::Supervisor)));
    assert!(rt; all == (1, 0, false, 3, None));
    Ok(())
}

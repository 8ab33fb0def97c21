//! Tests the loop of docs/GUIDE.md, From a crate of one's own. It makes whole turns of a board with
//! a console, up to the end of the run.
ghost use Rattle.board_core.specs.Data.{boxed};
ghost use Rattle.board_core.specs.Stands.{StandsForSome};

use board_core::{Board, End, Turned};
use devices::{Console, Device};
use image_format::Image;
use kernel_abi::Note;
use run_script::Script;
use std::alloc::{AllocError, Global};
use std::process::Abort;
use std::test::Fail;

// The front of an image of one task with 256 bytes of flash and a console. The bytes of the flash
// follow it.
const HEAD: [u8; 56] = [
    0x48, 0x42, 0x49, 0x31, 1, 0, 2, 0, 0, 1, 0, 0, 0, 0, 0, 0, 1, 0, 0, 0, 0, 1, 2, 0, 1, 0, 0, 8,
    0, 0, 0, 0, 0, 0, 0, 8, 0, 1, 0, 0, 5, 0, 0, 0, 0, 0, 0, 0x40, 0, 1, 0, 0, 11, 0, 0, 0,
];

// `movs r1, #1`, `lsls r1, r1, #30`, then twice `movs r0`, `strb r0, [r1]` for the two letters,
// `movs r2, #0` up to turn 10, and `udf #0`.
const CODE: [u8; 24] = [
    0x01, 0x21, 0x89, 0x07, 0x48, 0x20, 0x08, 0x70, 0x69, 0x20, 0x08, 0x70, 0x00, 0x22, 0x00, 0x22,
    0x00, 0x22, 0x00, 0x22, 0x00, 0x22, 0x00, 0xde,
];

fn image(rt: &impl Abort, alloc: Global) -> Image {
    let mut bytes = [0; 312];
    bytes[..56].copy_from_slice(&HEAD);
    bytes[56..80].copy_from_slice(&CODE);
    Image::read(alloc, &bytes).expect(rt, "the image is sound")
}

/// Appends what a turn gives out, and a dot for a tick.
fn print(notes: &[Note], text: &mut Vec<u8>) -> Result<(), AllocError> {
    for note in notes {
        match note {
            Note::Out { byte, .. } => text.push(*byte)?,
            Note::Tick { .. } => text.push(b'.')?,
            _ => {}
        }
    }
    Ok(())
}

/// The PC of the task that ran in each turn, and what the run gives out.
fn play(alloc: Global, board: &mut Board) -> Result<(Vec<u32>, Vec<u8>), AllocError>
    requires { StandsForSome (boxed shown) board.old }
    ensures { StandsForSome (boxed shown) board.new }
{
    let mut ran = Vec::new(alloc);
    let mut text = Vec::new(alloc);
    'turns: while board.ended().is_none() && board.turns() < 1000 {
        let turned = board.turn();
        if let Turned::Ran { at, .. } = turned {
            ran.push(at)?;
        }
        print(board.notes(), &mut text)?;
    }
    Ok((ran, text))
}

#[test]
fn whole_turns_up_to_the_end(rt: HostRuntime) -> Result<(), Fail> {
    let alloc = rt.alloc();
    let image = image(&rt, alloc);
    let script = Script::read(alloc, b"every 10 tick\n").expect(&rt, "the script is taken");
    let mut devices: Vec<Box<dyn Device>> = Vec::new(alloc);
    devices.push(Box::new(alloc, Console::new(0x4000_0000))?)?;
    let mut board = Board::open(alloc, &image, &script, devices)?;
    let (ran, text) = play(alloc, &mut board)?;
    assert!(rt;
        ran.as_slice()
            == [
                0x0800_0000,
                0x0800_0002,
                0x0800_0004,
                0x0800_0006,
                0x0800_0008,
                0x0800_000a,
                0x0800_000c,
                0x0800_000e,
                0x0800_0010,
                0x0800_0012,
                0x0800_0014,
                0x0800_0016,
            ]
            .as_slice()
    );
    assert!(rt; text.as_slice() == b"Hi.".as_slice());
    assert!(rt; (board.ended(), board.turns()) == (Some(End::Supervisor), 12));
    Ok(())
}

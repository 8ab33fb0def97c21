//! Tests a board with eight devices, four consoles and four ports in turn: what each device gives
//! out, and its state after stores, bytes from outside and loads.
ghost use Rattle.std.specs.Prelude.{◌+◌, ◌≤◌};
ghost use Rattle.board_core.specs.Data.{boxed};
ghost use Rattle.board_core.specs.Stands.{StandsForSome, turns_of};

use board_core::{Board, End, Level};
use devices::{Console, Device, Port};
use image_format::Image;
use kernel_abi::Note;
use run_script::Script;
use std::alloc::{AllocError, Global};
use std::process::Abort;
use std::test::Fail;

// An image of one task, which has the region of all eight devices: 0x40000000 to 0x400007ff.
const HEAD: [u8; 56] = [
    0x48, 0x42, 0x49, 0x31, 1, 0, 2, 0, 0, 1, 0, 0, 0, 0, 0, 0, 1, 0, 0, 0, 0, 1, 2, 0, 1, 0, 0, 8,
    0, 0, 0, 0, 0, 0, 0, 8, 0, 1, 0, 0, 5, 0, 0, 0, 0, 0, 0, 0x40, 0, 8, 0, 0, 11, 0, 0, 0,
];

// The program stores 65 to the first console, and to each later console the byte that it loaded
// from the port before it. After each console it loads a byte from the next port and stores it to
// the same console. At the end it stores past the last device, which faults.
const CODE: [u8; 24] = [
    0x01, 0x21, 0x89, 0x07, 0x01, 0x22, 0x52, 0x02, 0x01, 0x23, 0x1b, 0x02, 0x41, 0x20, 0x08, 0x70,
    0xc8, 0x5c, 0x08, 0x70, 0x89, 0x18, 0xfa, 0xe7,
];

fn image(rt: &impl Abort, alloc: Global) -> Image {
    let mut bytes = [0; 312];
    bytes[..56].copy_from_slice(&HEAD);
    bytes[56..80].copy_from_slice(&CODE);
    Image::read(alloc, &bytes).expect(rt, "the image is sound")
}

/// Makes this many whole turns, and returns what is given out in them: which device, and which
/// byte.
fn given_out(alloc: Global, board: &mut Board, turns: u32) -> Result<Vec<(usize, u8)>, AllocError>
    requires stood { StandsForSome (boxed shown) board.old }
    requires few { turns_of board.old + turns ≤ 1000 }
    ensures stood { StandsForSome (boxed shown) board.new }
{
    let mut out = Vec::new(alloc);
    for _ in 0..turns {
        board.turn_at(Level::Calls);
        if let Some(Note::Out { device, byte }) = board.notes().last() {
            out.push((*device, *byte))?;
        }
    }
    Ok(out)
}

/// The base of a device, how many bytes were stored to it, how many wait in it, and the first of
/// these, if any.
type Told = (u32, u32, usize, Option<u8>);

fn told(rt: &impl Abort, board: &Board, k: usize) -> Told {
    let view = board.device(k).expect(rt, "there is a device");
    let queue = view.queue.as_slice();
    (view.base, view.count, queue.len(), queue.first().copied())
}

#[test]
fn eight_devices_are_handed_in(rt: HostRuntime) -> Result<(), Fail> {
    let alloc = rt.alloc();
    let mut devices: Vec<Box<dyn Device>> = Vec::new(alloc);
    devices.push(Box::new(alloc, Console::new(0x4000_0000))?)?;
    devices.push(Box::new(alloc, Port::new(0x4000_0100))?)?;
    devices.push(Box::new(alloc, Console::new(0x4000_0200))?)?;
    devices.push(Box::new(alloc, Port::new(0x4000_0300))?)?;
    devices.push(Box::new(alloc, Console::new(0x4000_0400))?)?;
    devices.push(Box::new(alloc, Port::new(0x4000_0500))?)?;
    devices.push(Box::new(alloc, Console::new(0x4000_0600))?)?;
    devices.push(Box::new(alloc, Port::new(0x4000_0700))?)?;
    let image = image(&rt, alloc);
    let script = Script::read(
        alloc,
        b"at 0 in 0 5\nat 0 in 1 7\nat 0 in 3 8\nat 0 in 3 9\nat 0 in 7 11\nat 0 in 7 12\nat 1 in 7 13\nat 26 in 5 10\n",
    )
    .expect(&rt, "the script is taken");
    let mut board = Board::open(alloc, &image, &script, devices)?;
    let out = given_out(alloc, &mut board, 28)?;
    let consoles = [
        told(&rt, &board, 0),
        told(&rt, &board, 2),
        told(&rt, &board, 4),
        told(&rt, &board, 6),
    ];
    let ports = [
        told(&rt, &board, 1),
        told(&rt, &board, 3),
        told(&rt, &board, 5),
        told(&rt, &board, 7),
    ];
    assert!(rt;
        out.as_slice()
            == [
                (0, 65),
                (0, 7),
                (2, 7),
                (2, 8),
                (4, 8),
                (4, 0),
                (6, 0),
                (6, 11)
            ]
            .as_slice()
    );
    assert!(rt;
        consoles
            == [
                (0x4000_0000, 2, 0, None),
                (0x4000_0200, 2, 0, None),
                (0x4000_0400, 2, 0, None),
                (0x4000_0600, 2, 0, None),
            ]
    );
    assert!(rt;
        ports
            == [
                (0x4000_0100, 0, 0, None),
                (0x4000_0300, 0, 1, Some(9)),
                (0x4000_0500, 0, 1, Some(10)),
                (0x4000_0700, 0, 2, Some(12)),
            ]
    );
    assert!(rt; (board.ended(), board.turns()) == (Some(End::Supervisor), 28));
    Ok(())
}

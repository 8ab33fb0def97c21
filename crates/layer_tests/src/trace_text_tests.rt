//! Tests a line of each kind of note, and that the longest line of each kind fits.
use arrayvec::ArrayString;
use kernel_abi::{Borrow, Ending, Fault, Fed, FromIndex, Handled, Note};
use trace_text::TurnLines;

/// A turn, a note of it, and the line of the note.
struct Row {
    turn: u32,
    note: Note,
    text: &'static str,
}

const NOTES: [Row; 41] = [
    Row {
        turn: 0,
        note: Note::Tick { now: 1 },
        text: "0 tick 1\n",
    },
    Row {
        turn: 3,
        note: Note::Irq {
            line: 0,
            handled: Handled::Posted,
        },
        text: "3 irq 0 post\n",
    },
    Row {
        turn: 4,
        note: Note::Irq {
            line: 31,
            handled: Handled::Held,
        },
        text: "4 irq 31 held\n",
    },
    Row {
        turn: 5,
        note: Note::Irq {
            line: 255,
            handled: Handled::Unowned,
        },
        text: "5 irq 255 none\n",
    },
    Row {
        turn: 6,
        note: Note::Post {
            task: 2,
            bits: 1,
            posted: 0x8000_0001,
        },
        text: "6 post 2 00000001 80000001\n",
    },
    Row {
        turn: 7,
        note: Note::Idle,
        text: "7 idle\n",
    },
    Row {
        turn: 2,
        note: Note::Syscall {
            task: 1,
            number: 8,
            arguments: [1, 2, 3, 4, 5, 6, 0xabcd_ef07],
        },
        text: "2 call 1 8 00000001 00000002 00000003 00000004 00000005 00000006 abcdef07\n",
    },
    Row {
        turn: 13,
        note: Note::Ret {
            task: 0,
            results: [0, 1, 2, 3, 4, 0xffff_ffff],
        },
        text: "13 ret 0 00000000 00000001 00000002 00000003 00000004 ffffffff\n",
    },
    Row {
        turn: 2,
        note: Note::Fault {
            task: 1,
            fault: Fault {
                number: 8,
                x: 16,
                y: 32,
            },
        },
        text: "2 fault 1 8 00000010 00000020\n",
    },
    Row {
        turn: 3,
        note: Note::Listen {
            task: 0,
            from: FromIndex::Any,
            mask: 1,
        },
        text: "3 listen 0 any 00000001\n",
    },
    Row {
        turn: 12,
        note: Note::Listen {
            task: 0,
            from: FromIndex::Kernel,
            mask: 0,
        },
        text: "12 listen 0 kernel 00000000\n",
    },
    Row {
        turn: 5,
        note: Note::Listen {
            task: 2,
            from: FromIndex::One(1),
            mask: 0xffff,
        },
        text: "5 listen 2 1 0000ffff\n",
    },
    Row {
        turn: 5,
        note: Note::Offer {
            call: 7,
            client: 2,
            server: 1,
        },
        text: "5 offer 7 2 1\n",
    },
    Row {
        turn: 14,
        note: Note::Take { call: 1, copied: 4 },
        text: "14 take 1 4\n",
    },
    Row {
        turn: 8,
        note: Note::Borrow {
            call: 7,
            borrow: Borrow::Read,
            lease: 1,
            offset: 20,
            moved: 300,
        },
        text: "8 borrow 7 read 1 20 300\n",
    },
    Row {
        turn: 8,
        note: Note::Borrow {
            call: 7,
            borrow: Borrow::Write,
            lease: 1,
            offset: 20,
            moved: 300,
        },
        text: "8 borrow 7 write 1 20 300\n",
    },
    Row {
        turn: 8,
        note: Note::Borrow {
            call: 7,
            borrow: Borrow::Info,
            lease: 1,
            offset: 20,
            moved: 300,
        },
        text: "8 borrow 7 info 1 20 300\n",
    },
    Row {
        turn: 0,
        note: Note::Borrow {
            call: 0,
            borrow: Borrow::Read,
            lease: 0,
            offset: 9,
            moved: 10,
        },
        text: "0 borrow 0 read 0 9 10\n",
    },
    Row {
        turn: 0,
        note: Note::Borrow {
            call: 0,
            borrow: Borrow::Read,
            lease: 11,
            offset: 90,
            moved: 99,
        },
        text: "0 borrow 0 read 11 90 99\n",
    },
    Row {
        turn: 0,
        note: Note::Borrow {
            call: 0,
            borrow: Borrow::Read,
            lease: 100,
            offset: 1000,
            moved: 4_294_967_295,
        },
        text: "0 borrow 0 read 100 1000 4294967295\n",
    },
    Row {
        turn: 9,
        note: Note::Close {
            call: 3,
            ending: Ending::Reply,
        },
        text: "9 close 3 reply\n",
    },
    Row {
        turn: 9,
        note: Note::Close {
            call: 3,
            ending: Ending::ReplyFault,
        },
        text: "9 close 3 replyfault\n",
    },
    Row {
        turn: 9,
        note: Note::Close {
            call: 3,
            ending: Ending::Client,
        },
        text: "9 close 3 client\n",
    },
    Row {
        turn: 9,
        note: Note::Close {
            call: 3,
            ending: Ending::Restart,
        },
        text: "9 close 3 restart\n",
    },
    Row {
        turn: 6,
        note: Note::Restart {
            task: 3,
            generation: 63,
        },
        text: "6 restart 3 63\n",
    },
    Row {
        turn: 0,
        note: Note::In {
            device: 1,
            byte: 7,
            fed: Some(Fed::Queued),
        },
        text: "0 in 1 07 queued\n",
    },
    Row {
        turn: 1,
        note: Note::In {
            device: 1,
            byte: 255,
            fed: Some(Fed::Full),
        },
        text: "1 in 1 ff full\n",
    },
    Row {
        turn: 2,
        note: Note::In {
            device: 0,
            byte: 0xa9,
            fed: Some(Fed::NotPort),
        },
        text: "2 in 0 a9 none\n",
    },
    Row {
        turn: 3,
        note: Note::In {
            device: 7,
            byte: 0,
            fed: None,
        },
        text: "3 in 7 00 none\n",
    },
    Row {
        turn: 2,
        note: Note::Out {
            device: 0,
            byte: 0x41,
        },
        text: "2 out 0 41\n",
    },
    Row {
        turn: 4,
        note: Note::Out {
            device: 7,
            byte: 0x0f,
        },
        text: "4 out 7 0f\n",
    },
    Row {
        turn: 8,
        note: Note::IrqStatus {
            task: 0,
            bits: 2,
            status: 4,
        },
        text: "8 irqstat 0 00000002 4\n",
    },
    Row {
        turn: 9,
        note: Note::Find { index: 1, found: 2 },
        text: "9 find 1 2\n",
    },
    Row {
        turn: 0,
        note: Note::Insn {
            task: 0,
            at: 0x0800_0000,
            code: 0x2001,
        },
        text: "0 insn 0 08000000 2001 movs r0, #1\n",
    },
    Row {
        turn: 1,
        note: Note::Insn {
            task: 0,
            at: 0x0800_0002,
            code: 0xe7fe,
        },
        text: "1 insn 0 08000002 e7fe b 0x08000002\n",
    },
    Row {
        turn: 0,
        note: Note::Insn {
            task: 0,
            at: 0x0800_0000,
            code: 0xf000_f87e,
        },
        text: "0 insn 0 08000000 f000f87e bl 0x08000100\n",
    },
    Row {
        turn: 7,
        note: Note::Insn {
            task: 0,
            at: 0x0800_0010,
            code: 0,
        },
        text: "7 insn 0 08000010 0000 movs r0, r0\n",
    },
    Row {
        turn: 8,
        note: Note::Insn {
            task: 0,
            at: 0x0800_0012,
            code: 0xde00,
        },
        text: "8 insn 0 08000012 de00 \n",
    },
    Row {
        turn: 9,
        note: Note::Insn {
            task: 0,
            at: 0x0800_0014,
            code: 0xf000_0000,
        },
        text: "9 insn 0 08000014 f0000000 \n",
    },
    Row {
        turn: 3,
        note: Note::Low {
            registers: [0, 1, 2, 3, 4, 5, 6, 7],
        },
        text: "3 low 00000000 00000001 00000002 00000003 00000004 00000005 00000006 00000007\n",
    },
    Row {
        turn: 3,
        note: Note::High {
            registers: [8, 9, 10, 11, 12, 0x2000_0100, 0xffff_ffff, 0x0800_0002],
            n: true,
            z: false,
            c: true,
            v: false,
        },
        text: "3 high 00000008 00000009 0000000a 0000000b 0000000c 20000100 ffffffff 08000002 1010\n",
    },
];

const MOST: u32 = u32::MAX;

/// A note with the longest line of each kind, and the length of that line.
const LONGEST: [(Note, usize); 20] = [
    (Note::Tick { now: u64::MAX }, 37),
    (
        Note::Irq {
            line: 255,
            handled: Handled::Posted,
        },
        24,
    ),
    (
        Note::Post {
            task: 65535,
            bits: MOST,
            posted: MOST,
        },
        40,
    ),
    (
        Note::Syscall {
            task: 65535,
            number: MOST,
            arguments: [MOST; 7],
        },
        96,
    ),
    (
        Note::Ret {
            task: 65535,
            results: [MOST; 6],
        },
        75,
    ),
    (
        Note::Close {
            call: MOST,
            ending: Ending::ReplyFault,
        },
        39,
    ),
    (
        Note::Fault {
            task: 65535,
            fault: Fault {
                number: 255,
                x: MOST,
                y: MOST,
            },
        },
        45,
    ),
    (
        Note::Listen {
            task: 65535,
            from: FromIndex::One(65535),
            mask: MOST,
        },
        39,
    ),
    (
        Note::Take {
            call: MOST,
            copied: MOST,
        },
        38,
    ),
    (
        Note::Offer {
            call: MOST,
            client: 65535,
            server: 65535,
        },
        40,
    ),
    (
        Note::Borrow {
            call: MOST,
            borrow: Borrow::Write,
            lease: MOST,
            offset: MOST,
            moved: MOST,
        },
        68,
    ),
    (
        Note::Restart {
            task: 65535,
            generation: 255,
        },
        29,
    ),
    (
        Note::In {
            device: 255,
            byte: 255,
            fed: Some(Fed::Queued),
        },
        28,
    ),
    (
        Note::Out {
            device: usize::MAX,
            byte: 255,
        },
        39,
    ),
    (
        Note::IrqStatus {
            task: 65535,
            bits: MOST,
            status: MOST,
        },
        45,
    ),
    (
        Note::Find {
            index: 65535,
            found: 65535,
        },
        28,
    ),
    (
        Note::Insn {
            task: 65535,
            at: MOST,
            code: 0xb5ff,
        },
        78,
    ),
    (Note::Idle, 16),
    (
        Note::Low {
            registers: [MOST; 8],
        },
        87,
    ),
    (
        Note::High {
            registers: [MOST; 8],
            n: true,
            z: true,
            c: true,
            v: true,
        },
        93,
    ),
];

fn text(turn: u32, note: Note) -> ArrayString<160> {
    let mut lines = TurnLines::new(turn);
    let mut out = ArrayString::new();
    lines.write(&note);
    out.push_str(lines.text());
    out
}

#[test]
fn notes_have_their_lines(rt: HostRuntime) {
    for row in &NOTES {
        let found = text(row.turn, row.note);
        assert!(rt; found.as_str() == row.text, "{}", row.text);
    }
}

#[test]
fn a_line_stands_in_the_place_of_the_line_before(rt: HostRuntime) {
    let mut lines = TurnLines::new(1234567890);
    let first = Note::Tick { now: 9876543210987 };
    for (note, want) in [
        (first, "1234567890 tick 9876543210987\n"),
        (Note::Idle, "1234567890 idle\n"),
        (Note::Tick { now: 7 }, "1234567890 tick 7\n"),
    ] {
        lines.write(&note);
        assert!(rt; lines.text() == want);
    }
}

#[test]
fn lines_go_on_to_another_turn(rt: HostRuntime) {
    let mut lines = TurnLines::new(98);
    for (turn, want) in [
        (99, "99 idle\n"),
        (100, "100 idle\n"),
        (107, "107 idle\n"),
        (199, "199 idle\n"),
        (200, "200 idle\n"),
        (4294967200, "4294967200 idle\n"),
        (MOST, "4294967295 idle\n"),
        (7, "7 idle\n"),
    ] {
        lines.go_to(turn);
        lines.write(&Note::Idle);
        assert!(rt; lines.text() == want);
    }
}

#[test]
fn the_longest_lines_fit(rt: HostRuntime) {
    for (note, length) in &LONGEST {
        assert!(rt; text(MOST, *note).len() == *length);
    }
}

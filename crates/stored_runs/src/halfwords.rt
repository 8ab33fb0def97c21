//! Runs each of the 65,536 halfwords as the first instruction of an image, for one turn and with
//! `--all`. Counts how the runs end and which instructions the traces have. The expected numbers
//! come from a second, slow emulator in Python, written from its own reading of the rules.
use crate::images;
use outside_io::MemSink;
use std::alloc::{AllocError, Global};
use std::io;

/// An image of one task (docs/FORMATS.md, Image) with one region, 256 bytes of flash that it may
/// read and execute: the halfword, then zeros.
fn image(halfword: u16) -> [u8; 300] {
    let head: [u8; 44] = [
        0x48, 0x42, 0x49, 0x31, 1, 0, 1, 0, 0, 1, 0, 0, 0, 0, 0, 0, 1, 0, 0, 0, 0, 1, 1, 0, 1, 0,
        0, 8, 0, 0, 0, 0x20, 0, 0, 0, 8, 0, 1, 0, 0, 5, 0, 0, 0,
    ];
    let mut bytes = [0u8; 300];
    bytes[..44].copy_from_slice(&head);
    bytes[44] = (halfword % 256) as u8;
    bytes[45] = (halfword / 256) as u8;
    bytes
}

/// How the runs so far ended, and their lines of instructions: how many there are, how many bytes
/// they have, and a checksum of all of them in order.
#[derive(Clone, Copy)]
struct Counts {
    bound: u64,
    supervisor: u64,
    lines: u64,
    bytes: u64,
    sum: u64,
}

impl Counts {
    /// Adds the ending that the status and the line together mean, and returns whether they mean
    /// one.
    fn add_ending(&mut self, status: u8, line: &str) -> bool {
        match (status, line) {
            (0, "end bound 1 0") => self.bound = self.bound.saturating_add(1),
            (6, "end supervisor 1 0") => self.supervisor = self.supervisor.saturating_add(1),
            _ => return false,
        }
        true
    }

    /// Adds a line of an instruction.
    fn add_line(&mut self, line: &str) {
        self.lines = self.lines.saturating_add(1);
        self.bytes = self.bytes.saturating_add(line.len() as u64);
        for byte in line.as_bytes() {
            self.sum = self.sum.wrapping_mul(31).wrapping_add(u64::from(*byte));
        }
    }

    /// Adds the text of a run: the instruction of turn 0, and the ending, which is the first line
    /// after the notes of that turn. Returns whether the ending is one that is counted.
    fn add_run(&mut self, status: u8, text: &str) -> bool {
        for line in text.lines() {
            if line.starts_with("0 insn ") {
                self.add_line(line);
            } else if !line.starts_with("0 ") {
                return self.add_ending(status, line);
            }
        }
        false
    }
}

/// Adds the run of the halfword's image, and returns whether its ending is one that is counted.
fn run(alloc: Global, halfword: u16, counts: &mut Counts) -> Result<bool, AllocError> {
    let line = "run a.img e.txt --steps 1 --all";
    let mut out = MemSink::open(alloc, 1000, &[])?;
    let status = images::run(alloc, &image(halfword), line, &mut out)?;
    Ok(counts.add_run(status, str::from_utf8(out.text()).unwrap_or("")))
}

/// Runs each halfword, and writes the counts.
pub(crate) fn run_all(rt: &HostRuntime) -> io::Result<()> {
    let mut counts = Counts {
        bound: 0,
        supervisor: 0,
        lines: 0,
        bytes: 0,
        sum: 0,
    };
    for halfword in 0..=u16::MAX {
        if !run(rt.alloc(), halfword, &mut counts)? {
            println!(rt; "neither: {halfword:04x}")?;
        }
    }
    println!(rt;
        "bound {}\nsupervisor {}\ntold {}, bytes {}, sum {:016x}",
        counts.bound, counts.supervisor, counts.lines, counts.bytes, counts.sum
    )
}

//! Runs of two images with the empty script. gcc compiled them from C (data/crc32.c,
//! data/bytecode.c). Each run has a number of turns after which another emulator of the processor
//! had the same registers and the same memory.
use crate::{hold, push_line};
use outside_io::{MemFiles, MemSink};
use std::alloc::{AllocError, Global};
use std::io::Write;
use std::{fs, io};
use trace_cli::hubris_main;

const RUNS: [(&str, &str); 2] = [
    ("crc32.img", "run a.img e.txt --steps 171158 --mem"),
    ("bytecode.img", "run a.img e.txt --steps 463331 --mem"),
];

/// The status of a run of an image with the empty script. The line calls the image `a.img` and the
/// script `e.txt`.
pub(crate) fn run(
    alloc: Global,
    image: &[u8],
    line: &str,
    out: &mut MemSink,
) -> Result<u8, AllocError> {
    let mut words = Vec::new(alloc);
    push_line(&mut words, line)?;
    let mut files = MemFiles::open(alloc, &[])?;
    hold(&mut files, "a.img", image, image.len())?;
    hold(&mut files, "e.txt", &[], 0)?;
    Ok(hubris_main(alloc, &words, &mut files, out))
}

/// Runs the image of a file, and writes what the program writes, and its status if it does not end
/// well.
fn run_file(rt: &HostRuntime, name: &str, line: &str) -> io::Result<()> {
    let image = fs::read(rt, name)?;
    let mut out = MemSink::open(rt.alloc(), 1_000_000, &[])?;
    let status = run(rt.alloc(), &image, line, &mut out)?;
    io::writer(rt).write_all(out.text())?;
    if status != 0 {
        println!(rt; "{name}: status {status}")?;
    }
    Ok(())
}

/// Runs both.
pub(crate) fn run_both(rt: &HostRuntime) -> io::Result<()> {
    for (name, line) in RUNS {
        run_file(rt, name, line)?;
    }
    Ok(())
}

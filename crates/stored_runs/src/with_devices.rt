//! The program with devices.
use devices::{Console, Device, Port};
use outside_io::{MemFiles, MemSink};
use std::alloc::{AllocError, Global};
use trace_cli::hubris_main_with;

/// Runs the program with a console and a port, as `main` does.
pub fn with_two(
    alloc: Global,
    words: &[String],
    files: &mut MemFiles,
    out: &mut MemSink,
) -> Result<u8, AllocError> {
    let mut devices: Vec<Box<dyn Device>> = Vec::new(alloc);
    devices.push(Box::new(alloc, Console::new(0x4000_0000))?)?;
    devices.push(Box::new(alloc, Port::new(0x4000_1000))?)?;
    Ok(hubris_main_with(alloc, words, files, out, devices))
}

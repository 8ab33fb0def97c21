//! Plays a file of single instructions that were recorded elsewhere, and counts those that have the
//! same result here.
#![tactic(auto)]

mod case;
mod memory;
mod play;

use std::alloc::{AllocError, Global};
use std::{env, fs, io};

/// Whether a line is not a case: it is blank or begins with `#`.
fn is_remark(line: &str) -> bool {
    line.is_empty() || line.starts_with('#')
}

/// Whether a line is a case that passes.
fn line_passes(alloc: Global, line: &str) -> Result<bool, AllocError> {
    match case::read(alloc, line)? {
        Some(case) => play::passes(alloc, &case),
        None => Ok(false),
    }
}

/// Counts the cases that pass and those that fail, and prints the ones that fail.
fn count(rt: &HostRuntime, text: &str) -> io::Result<(u64, u64)> {
    let (mut passed, mut failed) = (0_u64, 0_u64);
    for line in text.lines() {
        if is_remark(line) {
            continue;
        }
        if line_passes(rt.alloc(), line)? {
            passed = passed.saturating_add(1);
        } else {
            failed = failed.saturating_add(1);
            println!(rt; "failed: {line}")?;
        }
    }
    Ok((passed, failed))
}

fn play_file(rt: &HostRuntime, path: &str) -> io::Result<()> {
    let text = fs::read_to_string(rt, path)?;
    match count(rt, text.as_str())? {
        (passed, 0) => println!(rt; "{passed} passed"),
        (passed, failed) => println!(rt; "{passed} passed, {failed} failed"),
    }
}

fn main(rt: HostRuntime) -> io::Result<()> {
    for path in env::args(&rt)?.skip(1) {
        play_file(&rt, path.as_str())?;
    }
    Ok(())
}

//! A task that shares nothing, in surroundings drawn at random: other tasks, priorities and
//! scripts. After the same number of own turns it has the same health, registers, flags and bytes
//! in each.
//!
//! A case is one of `main`'s. Its part `turns` has a line for each run: the number of the task's
//! own turns, and the number of all turns.

use crate::{Part, contents, files_of, first_line, parts_of, push_line, push_word};
use outside_io::MemSink;
use std::alloc::{AllocError, Global};
use std::{fs, io, str};
use trace_cli::hubris_main;

/// What comes before the first `end`, or the whole text.
fn before<'a>(text: &'a str, end: &str) -> &'a str {
    text.split_once(end).unwrap_or((text, "")).0
}

/// What comes after the first `front`, or nothing.
fn behind<'a>(text: &'a str, front: &str) -> &'a str {
    text.split_once(front).unwrap_or(("", "")).1
}

/// What the last lines of a run say of task 1 and of nothing else: its health, its registers and
/// flags, and its RAM.
fn own_of(alloc: Global, text: &str) -> Result<String, AllocError> {
    let task = before(before(behind(text, "\ntask 1 "), "\ntask "), "\nmem ");
    let (line, registers) = first_line(task);
    let health = line.split_whitespace().nth(1).unwrap_or("");
    let mut own = String::from_str(alloc, health)?;
    own.push_str(registers)?;
    own.push_str(before(behind(text, "\nmem 20000100 "), "\nmem "))?;
    Ok(own)
}

/// What task 1 has after this many turns, or nothing if they were not run.
fn played(alloc: Global, parts: &[Part<'_>], turns: &str) -> Result<String, AllocError> {
    let mut words = Vec::new(alloc);
    push_line(&mut words, "go app.toml script.txt --mem --steps")?;
    push_word(&mut words, turns)?;
    let mut files = files_of(alloc, parts)?;
    let mut out = MemSink::open(alloc, 1_000_000, &[])?;
    hubris_main(alloc, &words, &mut files, &mut out);
    own_of(alloc, str::from_utf8(out.text()).unwrap_or(""))
}

/// How many runs of a case leave task 1 with what the runs of the first case left it. That is kept
/// in `first`.
fn count_alike(alloc: Global, case: &str, first: &mut Vec<String>) -> Result<u64, AllocError> {
    let parts = parts_of(alloc, behind(case, "\n+ "))?;
    let mut alike = 0_u64;
    for (k, run) in contents(&parts, "turns")
        .unwrap_or("")
        .split('\n')
        .enumerate()
    {
        let own = played(alloc, &parts, behind(run, " "))?;
        if first.len() == k {
            first.push(own)?;
        } else if first.get(k) == Some(&own) && !own.is_empty() {
            alike = alike.saturating_add(1);
        }
    }
    Ok(alike)
}

/// Counts the runs after which the task has what it had in the first surrounding.
pub fn compare_all(rt: &HostRuntime) -> io::Result<()> {
    let text = fs::read_to_string(rt, "loners.txt")?;
    let mut first = Vec::new(rt.alloc());
    let mut alike = 0_u64;
    for case in behind(text.trim_end(), "\n= ").split("\n= ") {
        alike = alike.saturating_add(count_alike(rt.alloc(), case, &mut first)?);
    }
    println!(rt; "loners.txt: {alike} alike")
}

//! Stored runs in two parts. Each run is cut at five of its turns, and its state is saved there.
//! What the run writes that goes on from that state is compared with what the whole run writes from
//! that turn on.

use crate::with_devices::with_two;
use crate::{Part, contents, files_of, first_line, hold, parts_of, push_line, push_word};
use outside_io::{MemFiles, MemSink, read_all};
use std::alloc::{AllocError, Global};
use std::{fs, io, str};
use trace_cli::hubris_main;

/// The files of stored cases whose runs are cut.
const CUT: [&str; 6] = [
    "runs.txt",
    "messages.txt",
    "leases.txt",
    "supervisors.txt",
    "lease-entries.txt",
    "device-rows.txt",
];

/// Room for an image, and for a state.
const ROOM: usize = 1_000_000;

/// A stored run: its files, among them its image, its script, and what its words say after these
/// two.
#[derive(Clone, Copy)]
struct Stored<'a> {
    parts: &'a [Part<'a>],
    image: &'a str,
    script: &'a str,
    rest: &'a str,
    steps: u64,
}

/// What the program writes for a line of words.
fn text_of(
    alloc: Global,
    parts: &[Part<'_>],
    line: &[&str],
    files: &mut MemFiles,
) -> Result<String, AllocError> {
    let mut words = Vec::new(alloc);
    push_line(&mut words, "")?;
    for part in line {
        for word in part.split_whitespace() {
            push_word(&mut words, word)?;
        }
    }
    let mut out = MemSink::open(alloc, 4_000_000, &[])?;
    match contents(parts, "devices") {
        Some(_) => with_two(alloc, &words, files, &mut out)?,
        None => hubris_main(alloc, &words, files, &mut out),
    };
    String::from_str(alloc, str::from_utf8(out.text()).unwrap_or(""))
}

/// Whether a line is of a turn before this one.
fn is_before(line: &str, turn: u64) -> bool {
    match first_word(line).parse::<u64>() {
        Ok(number) => number < turn,
        Err(_) => false,
    }
}

fn first_word(line: &str) -> &str {
    line.split_once(' ').unwrap_or((line, "")).0
}

/// Whether the rest is the whole text without the lines of turns before this one.
fn is_rest(whole: &str, turn: u64, rest: &str) -> bool {
    let mut left = rest.split('\n');
    for line in whole.split('\n') {
        if !is_before(line, turn) && left.next() != Some(line) {
            return false;
        }
    }
    left.next().is_none()
}

/// The turn of the state in the file `cut.state`.
fn turn_of(alloc: Global, files: &mut MemFiles) -> u64 {
    match read_all(alloc, files, "cut.state", ROOM) {
        Ok(bytes) => number_at(&bytes, 4),
        Err(_) => u64::MAX,
    }
}

/// The number that four bytes from a place on spell, lowest byte first.
fn number_at(bytes: &[u8], at: usize) -> u64 {
    let mut number = 0_u64;
    for byte in bytes.iter().skip(at).take(4).rev() {
        number = number.wrapping_mul(256).wrapping_add(u64::from(*byte));
    }
    number
}

/// Whether the run, cut after this many turns, goes on as the whole run does.
fn goes_on(
    alloc: Global,
    stored: &Stored<'_>,
    whole: &str,
    turns: u64,
    files: &mut MemFiles,
) -> Result<bool, AllocError> {
    let after = format!(in alloc; "--steps {turns}")?;
    let saved = [
        "save",
        stored.image,
        stored.script,
        "cut.state",
        after.as_str(),
    ];
    text_of(alloc, stored.parts, &saved, files)?;
    let turn = turn_of(alloc, files);
    let resumed = [
        "resume",
        stored.image,
        stored.script,
        "cut.state",
        stored.rest,
    ];
    let rest = text_of(alloc, stored.parts, &resumed, files)?;
    Ok(is_rest(whole, turn, rest.as_str()))
}

/// How many of five cuts of a run go on as the whole run does.
fn count_cuts(alloc: Global, stored: &Stored<'_>, files: &mut MemFiles) -> Result<u64, AllocError> {
    let run = ["run", stored.image, stored.script, stored.rest];
    let whole = text_of(alloc, stored.parts, &run, files)?;
    let mut agreed = 0_u64;
    for k in 1..6_u64 {
        let turns = (stored.steps / 6).saturating_mul(k);
        if goes_on(alloc, stored, whole.as_str(), turns, files)? {
            agreed = agreed.saturating_add(1);
        }
    }
    Ok(agreed)
}

/// The number after `--steps`.
fn steps_in(rest: &str) -> u64 {
    let (_, behind) = rest.split_once("--steps ").unwrap_or(("", ""));
    first_word(behind).parse::<u64>().unwrap_or(0)
}

/// The words of a run of an image or of an application, with a script, and what follows them.
fn run_in(line: &str) -> Option<(&str, &str, &str, &str)> {
    let (command, line) = line.split_once(' ')?;
    let (subject, line) = line.split_once(' ')?;
    let (script, rest) = line.split_once(' ')?;
    if steps_in(rest) < 6 {
        return None;
    }
    Some((command, subject, script, rest))
}

/// How many of five cuts of a case go on as the whole run does, if the case has a run.
fn count_case(alloc: Global, case: &str) -> Result<u64, AllocError> {
    let parts = parts_of(alloc, case.split_once("\n+ ").unwrap_or(("", "")).1)?;
    let Some((command, subject, script, rest)) = run_in(contents(&parts, "words").unwrap_or(""))
    else {
        return Ok(0);
    };
    let mut files = files_of(alloc, &parts)?;
    hold(&mut files, "cut.image", &[], ROOM)?;
    hold(&mut files, "cut.state", &[], ROOM)?;
    let image = match command {
        "go" => "cut.image",
        "run" => subject,
        _ => return Ok(0),
    };
    if command == "go" {
        text_of(alloc, &parts, &["build", subject, image], &mut files)?;
    }
    let stored = Stored {
        parts: &parts,
        image,
        script,
        rest,
        steps: steps_in(rest),
    };
    count_cuts(alloc, &stored, &mut files)
}

/// How many cuts of the cases of a file go on as the whole runs do.
fn compare_file(rt: &HostRuntime, path: &str) -> io::Result<()> {
    let text = fs::read_to_string(rt, path)?;
    let (_, cases) = text.trim_end().split_once("\n= ").unwrap_or(("", ""));
    let mut agreed = 0_u64;
    for case in cases.split("\n= ") {
        if first_line(case).0.starts_with("0") || first_line(case).0.starts_with("6") {
            agreed = agreed.saturating_add(count_case(rt.alloc(), case)?);
        }
    }
    println!(rt; "{path}: {agreed} cuts go on")
}

/// Cuts the runs of the stored cases, and counts the cuts that go on as the whole runs do.
pub fn compare_all(rt: &HostRuntime) -> io::Result<()> {
    for path in CUT {
        compare_file(rt, path)?;
    }
    Ok(())
}

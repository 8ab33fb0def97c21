//! Hands the program stored files, among them malformed and hostile ones. Counts the cases in which
//! it answers what a second reading of the rules answers, which is written in another language.
//! Then it runs a task that shares nothing beside others, cuts runs in two, and runs two images
//! compiled by gcc and each halfword.
//!
//! A case begins with a line `= STATUS NAME`. Each of its parts begins with a line `+ KEY`. The
//! keys are:
//!
//! - `words`: the command line after the program's name; `each word`: the same with one word a
//!   line; `name and words`: the same with the program's name before them. Without any of these,
//!   not even the program's name is handed over.
//! - `failing calls` and `failing pushes`: the numbers of the reads and puts, and of the pushes,
//!   that fail.
//! - `hex NAME`: a file as bytes, where `00*9` is nine of one.
//! - `room NAME`: a file with room for this many bytes, and the bytes that it holds.
//! - `player NAME` and `server NAME`: the source of a task that makes the calls of a table, and the
//!   table.
//! - `repeated NAME`: a file in which the lines between a line `< N` and a line `>` are there N
//!   times; `@` is the number of the time.
//! - `devices`: which devices are handed in.
//! - `left NAME`: the bytes of that file at the end; `left text NAME`: the same as lines; `left sum
//!   NAME`: their checksum.
//! - any other key: the name of a file with these contents.
//!
//! Last comes `text`, the lines that are wanted, or `sum`, the checksum of the text.
#![tactic(auto)]

mod cuts;
mod halfwords;
mod images;
mod loners;
mod players;
mod repeated;
mod with_devices;

use outside_io::{MemFiles, MemSink, read_all};
use players::{END, FRONT, PLAYER, SERVER};
use repeated::push_repeated;
use std::alloc::{AllocError, Global};
use std::{env, fs, io};
use trace_cli::hubris_main;
use with_devices::with_two;

/// The checksum of a text: FNV-1a of 64 bits.
fn sum(text: &[u8]) -> u64 {
    let mut sum = 0xcbf2_9ce4_8422_2325_u64;
    for byte in text {
        sum = (sum ^ u64::from(*byte)).wrapping_mul(0x0000_0100_0000_01b3);
    }
    sum
}

/// A text's first line, and what follows.
fn first_line(text: &str) -> (&str, &str) {
    text.split_once('\n').unwrap_or((text, ""))
}

/// A part of a case: its key and its contents.
type Part<'a> = (&'a str, &'a str);

fn parts_of(alloc: Global, text: &str) -> Result<Vec<Part<'_>>, AllocError> {
    let mut parts = Vec::new(alloc);
    for part in text.split("\n+ ") {
        parts.push(first_line(part))?;
    }
    Ok(parts)
}

/// The contents of the part with the key.
fn contents<'a>(parts: &[Part<'a>], key: &str) -> Option<&'a str> {
    for part in parts {
        if part.0 == key {
            return Some(part.1);
        }
    }
    None
}

/// Whether the text is what the case wants.
fn is_wanted(parts: &[Part<'_>], text: &[u8]) -> bool {
    match (contents(parts, "text"), contents(parts, "sum")) {
        (Some(""), _) => text.is_empty(),
        // the end of the last line belongs to what separates the cases
        (Some(lines), _) => text.split_last() == Some((&b'\n', lines.as_bytes())),
        (None, Some(digits)) => u64::from_str_radix(digits.trim_end(), 16) == Ok(sum(text)),
        (None, None) => false,
    }
}

fn push_word(words: &mut Vec<String>, word: &str) -> Result<(), AllocError> {
    let word = String::from_str(*words.allocator(), word)?;
    words.push(word)?;
    Ok(())
}

/// Appends the program's name and the words of a line.
fn push_line(words: &mut Vec<String>, line: &str) -> Result<(), AllocError> {
    push_word(words, "hubris")?;
    for word in line.split_whitespace() {
        push_word(words, word)?;
    }
    Ok(())
}

/// Appends a word for each line.
fn push_each(words: &mut Vec<String>, lines: &str) -> Result<(), AllocError> {
    for word in lines.split('\n') {
        push_word(words, word)?;
    }
    Ok(())
}

/// The program's name and the words of the command line.
fn words_of(alloc: Global, parts: &[Part<'_>]) -> Result<Vec<String>, AllocError> {
    let mut words = Vec::new(alloc);
    if let Some(line) = contents(parts, "words") {
        push_line(&mut words, line)?;
    } else if let Some(lines) = contents(parts, "each word") {
        push_word(&mut words, "hubris")?;
        push_each(&mut words, lines)?;
    } else if let Some(lines) = contents(parts, "name and words") {
        push_each(&mut words, lines)?;
    }
    Ok(words)
}

/// The numbers that a part lists.
fn numbers(alloc: Global, part: Option<&str>) -> Result<Vec<u64>, AllocError> {
    let mut numbers = Vec::new(alloc);
    for word in part.unwrap_or("").split_whitespace() {
        if let Ok(number) = word.parse::<u64>() {
            numbers.push(number)?;
        }
    }
    Ok(numbers)
}

/// Appends one byte, or nine of it for `00*9`.
fn push_run(bytes: &mut Vec<u8>, word: &str) -> Result<(), AllocError> {
    let (digits, count) = word.split_once('*').unwrap_or((word, "1"));
    let count = count.parse::<usize>().unwrap_or(0);
    match u8::from_str_radix(digits, 16) {
        Ok(byte) => bytes.resize(bytes.len().saturating_add(count), byte),
        Err(_) => Ok(()),
    }
}

fn push_runs(bytes: &mut Vec<u8>, digits: &str) -> Result<(), AllocError> {
    for word in digits.split_whitespace() {
        push_run(bytes, word)?;
    }
    Ok(())
}

/// In which form a part has the contents of a file.
#[derive(Clone, Copy)]
enum Form {
    AsItIs,
    Hex,
    Room,
    /// lines, some of them repeated
    Repeated,
    /// the source of a task whose calls are a table: how it makes them
    Calls(&'static str),
}

/// The keys of parts that are no files, apart from those of what is left.
const NO_FILES: [&str; 9] = [
    "words",
    "each word",
    "name and words",
    "failing calls",
    "failing pushes",
    "turns",
    "devices",
    "text",
    "sum",
];

/// The form that the word before a file's name means.
fn form_of(word: &str) -> Form {
    match word {
        "hex" => Form::Hex,
        "room" => Form::Room,
        "repeated" => Form::Repeated,
        "player" => Form::Calls(PLAYER),
        "server" => Form::Calls(SERVER),
        _ => Form::AsItIs,
    }
}

/// The form and the name of the file in the part with this key, if the part is a file.
fn file_of(key: &str) -> Option<(Form, &str)> {
    if NO_FILES.contains(&key) || key.starts_with("left ") {
        return None;
    }
    let (word, name) = key.split_once(' ').unwrap_or(("", key));
    match form_of(word) {
        Form::AsItIs => Some((Form::AsItIs, key)),
        form => Some((form, name)),
    }
}

fn push_text(bytes: &mut Vec<u8>, text: &str) -> Result<(), AllocError> {
    bytes.extend_from_slice(text.as_bytes())
}

fn push_contents(bytes: &mut Vec<u8>, form: Form, contents: &str) -> Result<(), AllocError> {
    match form {
        Form::AsItIs => push_text(bytes, contents),
        Form::Hex => push_runs(bytes, contents),
        Form::Room => push_runs(bytes, first_line(contents).1),
        Form::Repeated => push_repeated(bytes, contents),
        Form::Calls(call) => {
            push_text(bytes, FRONT)?;
            push_text(bytes, call)?;
            push_text(bytes, END)?;
            push_text(bytes, contents)
        }
    }
}

/// Stores a file under a name that has none yet.
fn hold(files: &mut MemFiles, name: &str, bytes: &[u8], room: usize) -> Result<(), AllocError> {
    if !files.is_held(name) && bytes.len() <= room {
        files.hold(name, bytes, room)?;
    }
    Ok(())
}

/// Stores the file of a part, if the part is one.
fn hold_part(alloc: Global, files: &mut MemFiles, part: Part<'_>) -> Result<(), AllocError> {
    let (key, contents) = part;
    let Some((form, name)) = file_of(key) else {
        return Ok(());
    };
    let mut bytes = Vec::new(alloc);
    push_contents(&mut bytes, form, contents)?;
    let room = match form {
        Form::Room => first_line(contents).0.parse::<usize>().unwrap_or(0),
        _ => bytes.len(),
    };
    hold(files, name, &bytes, room)
}

fn files_of(alloc: Global, parts: &[Part<'_>]) -> Result<MemFiles, AllocError> {
    let failing = numbers(alloc, contents(parts, "failing calls"))?;
    let mut files = MemFiles::open(alloc, &failing)?;
    for part in parts {
        hold_part(alloc, &mut files, *part)?;
    }
    Ok(files)
}

fn sink_of(alloc: Global, parts: &[Part<'_>]) -> Result<MemSink, AllocError> {
    let failing = numbers(alloc, contents(parts, "failing pushes"))?;
    MemSink::open(alloc, 1_000_000, &failing)
}

/// Whether bytes are the wanted ones. The word before the name says how these are given: by their
/// checksum, as lines, or as digits.
fn is_as_wanted(alloc: Global, word: &str, wanted: &str, found: &[u8]) -> Result<bool, AllocError> {
    match word {
        "sum" => Ok(u64::from_str_radix(wanted.trim_end(), 16) == Ok(sum(found))),
        "text" => Ok(found.split_last() == Some((&b'\n', wanted.as_bytes()))),
        _ => {
            let mut bytes = Vec::new(alloc);
            push_runs(&mut bytes, wanted)?;
            Ok(found == bytes.as_slice())
        }
    }
}

/// Whether the file of this name has exactly what is wanted.
fn is_left(
    alloc: Global,
    files: &mut MemFiles,
    key: &str,
    wanted: &str,
) -> Result<bool, AllocError> {
    let (word, name) = key.split_once(' ').unwrap_or(("", key));
    match read_all(alloc, files, name, 2_097_152) {
        Ok(found) => is_as_wanted(alloc, word, wanted, &found),
        Err(_) => Ok(false),
    }
}

/// Whether each file that the case names is at the end as the case wants it.
fn are_left(alloc: Global, files: &mut MemFiles, parts: &[Part<'_>]) -> Result<bool, AllocError> {
    for part in parts {
        if let Some(key) = part.0.strip_prefix("left ") {
            if !is_left(alloc, files, key, part.1)? {
                return Ok(false);
            }
        }
    }
    Ok(true)
}

/// Whether the program, handed the files and the output, answers with the status at the head of the
/// case and as its parts want.
fn answers(
    alloc: Global,
    head: &str,
    parts: &[Part<'_>],
    files: &mut MemFiles,
    out: &mut MemSink,
) -> Result<bool, AllocError> {
    let words = words_of(alloc, parts)?;
    let status = match contents(parts, "devices") {
        Some("two") => with_two(alloc, &words, files, out)?,
        _ => hubris_main(alloc, &words, files, out),
    };
    let (wanted, _) = head.split_once(' ').unwrap_or((head, ""));
    Ok(
        wanted.parse::<u8>() == Ok(status)
            && is_wanted(parts, out.text())
            && are_left(alloc, files, parts)?,
    )
}

fn passes(alloc: Global, case: &str) -> Result<bool, AllocError> {
    let Some((head, parts)) = case.split_once("\n+ ") else {
        return Ok(false);
    };
    let parts = parts_of(alloc, parts)?;
    let mut files = files_of(alloc, &parts)?;
    let mut out = sink_of(alloc, &parts)?;
    answers(alloc, head, &parts, &mut files, &mut out)
}

/// Counts the cases that pass, and names the others.
fn count_passing(rt: &HostRuntime, text: &str) -> io::Result<u64> {
    let Some((_, cases)) = text.trim_end().split_once("\n= ") else {
        return Ok(0);
    };
    let mut agreed = 0_u64;
    for case in cases.split("\n= ") {
        if passes(rt.alloc(), case)? {
            agreed = agreed.saturating_add(1);
        } else {
            println!(rt; "differs: {}", first_line(case).0)?;
        }
    }
    Ok(agreed)
}

fn play_file(rt: &HostRuntime, path: &str) -> io::Result<()> {
    let text = fs::read_to_string(rt, path)?;
    let agreed = count_passing(rt, text.as_str())?;
    println!(rt; "{path}: {agreed} agree")
}

fn main(rt: HostRuntime) -> io::Result<()> {
    for path in env::args(&rt)?.skip(1) {
        play_file(&rt, path.as_str())?;
    }
    loners::compare_all(&rt)?;
    cuts::compare_all(&rt)?;
    images::run_both(&rt)?;
    halfwords::run_all(&rt)
}

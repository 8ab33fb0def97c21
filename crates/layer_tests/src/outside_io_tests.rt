//! Tests files and sinks: each constructor and each call once with enough memory, and each way in
//! which a call can fail.
ghost use Rattle.std.specs.Prelude.{◌≤◌, length};

use outside_io::{Failed, Files, HostFiles, HostSink, MemFiles, MemSink, ReadAll, Sink, read_all};
use std::alloc::{AllocError, Global};
use std::fs;
use std::io::{BufWriter, Cursor, Write};
use std::test::Fail;

fn one_file(
    alloc: Global,
    fails: &[u64],
    name: &str,
    bytes: &[u8],
    room: usize,
) -> Result<MemFiles, AllocError>
    requires { length bytes.now ≤ room }
{
    let mut files = MemFiles::open(alloc, fails)?;
    if !files.is_held(name) {
        files.hold(name, bytes, room)?;
    }
    Ok(files)
}

// "a.img" with the bytes `abcde` and room for eight.
fn letters(alloc: Global, fails: &[u64]) -> Result<MemFiles, AllocError> {
    one_file(alloc, fails, "a.img", b"abcde", 8)
}

// Whether the file with this name has exactly these bytes. There are at most 9,000 of them.
fn has<F: Files>(alloc: Global, files: &mut F, name: &str, bytes: &[u8]) -> bool {
    match read_all(alloc, files, name, bytes.len().min(9000)) {
        Ok(all) => all.as_slice() == bytes,
        Err(_) => false,
    }
}

/// What a read from `at` on returns, and what the buffer holds afterwards.
fn read(files: &mut MemFiles, name: &str, at: u64) -> (Result<usize, Failed>, [u8; 3]) {
    let mut buf = *b"___";
    (files.read(name, at, &mut buf), buf)
}

fn reads_up_to_the_end(files: &mut MemFiles) -> bool {
    let found = [
        read(files, "a.img", 0),
        read(files, "a.img", 2),
        read(files, "a.img", 4),
        read(files, "a.img", 5),
        read(files, "a.img", 6),
        read(files, "a.img", u64::MAX),
        read(files, "b.img", 0),
    ];
    let wanted = [
        (Ok(3), *b"abc"),
        (Ok(3), *b"cde"),
        (Ok(1), *b"e__"),
        (Ok(0), *b"___"),
        (Ok(0), *b"___"),
        (Ok(0), *b"___"),
        (Err(Failed), *b"___"),
    ];
    found == wanted
}

/// Whether the put succeeds, and whether "a.img" holds the wanted bytes afterwards.
fn put(
    alloc: Global,
    files: &mut MemFiles,
    name: &str,
    bytes: &[u8],
    held: &[u8],
) -> (Result<(), Failed>, bool) {
    (files.put(name, bytes), has(alloc, files, "a.img", held))
}

fn puts_within_the_room(alloc: Global, files: &mut MemFiles) -> bool {
    let found = [
        put(alloc, files, "a.img", b"12345678", b"12345678"),
        put(alloc, files, "a.img", b"123456789", b"12345678"),
        put(alloc, files, "a.img", b"xy", b"xy"),
        put(alloc, files, "b.img", b"z", b"xy"),
        put(alloc, files, "a.img", b"", b""),
    ];
    let wanted = [
        (Ok(()), true),
        (Err(Failed), true),
        (Ok(()), true),
        (Err(Failed), true),
        (Ok(()), true),
    ];
    found == wanted
}

#[test]
fn holds_and_reads_and_puts(rt: HostRuntime) -> Result<(), Fail> {
    let mut files = letters(rt.alloc(), &[])?;
    let found = [
        files.is_held("a.img"),
        files.is_held("a"),
        reads_up_to_the_end(&mut files),
        puts_within_the_room(rt.alloc(), &mut files),
    ];
    assert!(rt; found == [true, false, true, true]);
    Ok(())
}

#[test]
fn holds_nothing_at_first(rt: HostRuntime) -> Result<(), Fail> {
    let is_held = MemFiles::open(rt.alloc(), &[])?.is_held("a.img");
    assert!(rt; !is_held);
    Ok(())
}

/// Which of four calls succeed: a read, a put, a read and a put.
fn four_calls(files: &mut MemFiles) -> [bool; 4] {
    let mut buf = [0u8; 8];
    [
        files.read("a.img", 0, &mut buf).is_ok(),
        files.put("a.img", b"one").is_ok(),
        files.read("a.img", 0, &mut buf).is_ok(),
        files.put("a.img", b"two").is_ok(),
    ]
}

#[test]
fn fails_at_the_listed_calls(rt: HostRuntime) -> Result<(), Fail> {
    for (fails, wanted) in [
        ([9, 9], [true, true, true, true]),
        ([1, 9], [false, true, true, true]),
        ([2, 9], [true, false, true, true]),
        ([3, 9], [true, true, false, true]),
        ([4, 9], [true, true, true, false]),
        ([4, 1], [false, true, true, false]),
    ] {
        let found = four_calls(&mut letters(rt.alloc(), &fails)?);
        assert!(rt; found == wanted);
    }
    Ok(())
}

/// Reads with calls 1 to 4, of which the last one, at the end of the file, fails; then with calls 5
/// to 7; then with call 8, which fails; then a file that does not exist.
fn failures(alloc: Global, files: &mut MemFiles) -> [Option<ReadAll>; 4] {
    [
        read_all(alloc, files, "long", 9000).err(),
        read_all(alloc, files, "long", 8999).err(),
        read_all(alloc, files, "long", 9000).err(),
        read_all(alloc, files, "short", 9000).err(),
    ]
}

#[test]
fn reads_all_within_the_limit(rt: HostRuntime) -> Result<(), Fail> {
    // Longer than two of the pieces in which `read_all` reads.
    let long = [7u8; 9000];
    let mut files = one_file(rt.alloc(), &[4, 8], "long", &long, 9000)?;
    let failed = failures(rt.alloc(), &mut files);
    let has_all = has(rt.alloc(), &mut files, "long", &long);
    let wanted = [
        Some(ReadAll::Failed),
        Some(ReadAll::TooLong),
        Some(ReadAll::Failed),
        Some(ReadAll::Failed),
    ];
    assert!(rt; (failed, has_all) == (wanted, true));
    Ok(())
}

/// What the push returns, and whether the sink has the wanted text afterwards.
fn push(sink: &mut MemSink, piece: &[u8], text: &[u8]) -> (Result<(), Failed>, bool) {
    (sink.push(piece), sink.text() == text)
}

fn pushes(sink: &mut MemSink) -> [(Result<(), Failed>, bool); 6] {
    [
        push(sink, b"abc", b"abc"),
        push(sink, b"d", b"abc"),
        push(sink, b"defg", b"abc"),
        push(sink, b"def", b"abcdef"),
        push(sink, b"", b"abcdef"),
        push(sink, b"g", b"abcdef"),
    ]
}

#[test]
fn pushes_within_the_room(rt: HostRuntime) -> Result<(), Fail> {
    let mut sink = MemSink::open(rt.alloc(), 6, &[2])?;
    let is_empty = sink.text().is_empty();
    let pushed = pushes(&mut sink);
    let wanted = [
        (Ok(()), true),
        (Err(Failed), true),
        (Err(Failed), true),
        (Ok(()), true),
        (Ok(()), true),
        (Err(Failed), true),
    ];
    assert!(rt; (is_empty, pushed) == (true, wanted));
    Ok(())
}

#[test]
fn writes_to_an_output_until_it_takes_nothing(rt: HostRuntime) {
    let mut taken = *b"_____";
    let mut sink = HostSink::new(Cursor::new(taken.as_mut_slice()));
    let pushed = [
        sink.push(b"abc"),
        sink.push(b"def"),
        sink.push(b"g"),
        sink.push(b""),
    ];
    let wanted = [Ok(()), Err(Failed), Err(Failed), Ok(())];
    assert!(rt; (pushed, taken) == (wanted, *b"abcde"));
}

fn push_and_flush_twice<W: Write>(sink: &mut HostSink<W>) -> [Result<(), Failed>; 4] {
    [
        sink.push(b"abc"),
        sink.flush(),
        sink.push(b"def"),
        sink.flush(),
    ]
}

#[test]
fn a_flush_passes_on_what_is_held_back(rt: HostRuntime) {
    let mut taken = *b"_____";
    let output = Cursor::new(taken.as_mut_slice());
    let held = BufWriter::with_capacity(rt.alloc(), 16, output).expect(&rt, "there is memory");
    let mut sink = HostSink::new(held);
    let done = push_and_flush_twice(&mut sink);
    drop(sink);
    let wanted = [Ok(()), Ok(()), Ok(()), Err(Failed)];
    assert!(rt; (done, taken) == (wanted, *b"abcde"));
}

fn puts_and_reads<F: Files>(alloc: Global, files: &mut F, name: &str) -> [bool; 4] {
    [
        files.put(name, b"longer").is_ok(),
        has(alloc, files, name, b"longer"),
        files.put(name, b"abcde").is_ok(),
        has(alloc, files, name, b"abcde"),
    ]
}

// Reads the file that holds `abcde`: forwards, back, and beyond its end.
fn reads_anywhere<F: Files>(files: &mut F, name: &str) -> ([Result<usize, Failed>; 5], [u8; 3]) {
    let mut buf = *b"___";
    let counts = [
        files.read(name, 9, &mut buf),
        files.read(name, 3, &mut buf),
        files.read(name, 5, &mut buf),
        files.read(name, 0, &mut buf),
        files.read(name, 1, &mut buf),
    ];
    (counts, buf)
}

fn reads_or_puts<F: Files>(files: &mut F, name: &str) -> [bool; 2] {
    [
        files.read(name, 0, &mut [0u8; 3]).is_ok(),
        files.put("no such folder/put.tmp", b"abcde").is_ok(),
    ]
}

#[test]
fn puts_and_reads_a_real_file(rt: HostRuntime) {
    let name = "outside_io_put_and_read.tmp";
    let mut files = HostFiles::new(&rt);
    let there = puts_and_reads(rt.alloc(), &mut files, name);
    let read = reads_anywhere(&mut files, name);
    let is_removed = fs::remove_file(&rt, name).is_ok();
    let gone = reads_or_puts(&mut HostFiles::new(&rt), name);
    let counts = [Ok(0), Ok(2), Ok(0), Ok(3), Ok(3)];
    assert!(rt; (there, is_removed, gone) == ([true, true, true, true], true, [false, false]));
    assert!(rt; read == (counts, *b"bcd"));
}

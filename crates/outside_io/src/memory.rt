//! Files and a sink in memory, which fail at the calls of a list.
ghost use Rattle.std.specs.Prelude.{◌≡◌, ◌≢◌, ◌≤◌, ◌<◌, ◌+◌, ◌-◌, ◌++◌, ◌||◌, ℕ, [], List, length, take, min, true, false, vec_len, vec_capacity, Some, None, IfOk, OnOk, OnErr, IsOk, is_some, is_ok, is_err, if◌then◌else◌};
ghost use Rattle.std.specs.Option.{option_map};
ghost use Rattle.outside_io.specs.Outside.{raised, short_name, Gives, HasCause, Puts, Pushes, Reads, WhereSeen};

use crate::held::Held;
use crate::{Failed, Files, Sink};
use std::alloc::{AllocError, Global};
use std::collections::BTreeMap;

// A name's length and its first 255 bytes.
#[derive(Clone, Copy)]
struct ShortName {
    len: usize,
    shown: usize,
    front: [u8; 255],
}

fn short_name(name: &str) -> ShortName
    ensures len { result.len ≡ length name.now }
    ensures front { take result.shown result.front ≡ take 255 name.now }
{
    let bytes = name.as_bytes();
    let mut front = [0u8; 255];
    let shown = bytes.len().min(255);
    front[..shown].copy_from_slice(&bytes[..shown]);
    ShortName {
        len: bytes.len(),
        shown,
        front,
    }
}

ghost use Rattle.outside_io.specs.Held.{contents_under, room_under, has_room};

// Replaces the bytes that are held under a name by these, for which the name has room.
fn replace(held: &mut BTreeMap<String, Held>, name: &str, bytes: &[u8])
    requires { has_room held.old name.now (length bytes.now) ≡ true }
    ensures put { contents_under held.new name.now ≡ Some bytes.now }
    ensures others { (other : List ℕ) → other ≢ name.now →
        contents_under held.new other ≡ contents_under held.old other }
    ensures rooms { (other : List ℕ) → room_under held.new other ≡ room_under held.old other }
{
    let Some(file) = held.get_mut(name) else {
        unreachable!()
    };
    file.bytes.clear();
    match file.bytes.extend_from_slice(bytes) {
        Ok(()) => {}
        Err(_) => unreachable!(),
    }
}

// Whether a file is held under the name and has room for this many bytes.
fn is_roomy(held: &BTreeMap<String, Held>, name: &str, len: usize) -> bool
    ensures { result ≡ has_room held.now name.now len }
{
    match held.get(name) {
        Some(file) => len <= file.room,
        None => false,
    }
}

ghost use Rattle.outside_io.specs.Calls.{is_next_listed, IsWholePart};
ghost use Rattle.outside_io.specs.Outside.{IsPart};

// Copies the bytes from a position on to the front of the buffer, as many as there are and as the
// buffer has room for.
fn copy_part(all: &[u8], at: u64, buf: &mut [u8]) -> usize
    ensures whole { IsWholePart all.now at result buf.old buf.new }
    ensures bound { result ≤ length buf.new }
    ensures part { IsPart all.now at result buf.new }
{
    let len = all.len() as u64;
    if at >= len {
        return 0;
    }
    let rest = &all[at as usize..];
    let count = rest.len().min(buf.len());
    buf[..count].copy_from_slice(&rest[..count]);
    count
}

// Counts a call, and says whether it has to fail.
fn count_call(fails: &[u64], calls: &mut u64) -> bool
    ensures listed { result ≡ is_next_listed fails.now calls.old }
    ensures counted { calls.new ≡ raised calls.old 1 }
{
    *calls = calls.saturating_add(1);
    fails.contains(calls)
}

/// Files in memory, each with a limit of bytes, its room. Reads and puts are numbered together,
/// from 1 up to 2^64 - 1. A call fails exactly if its number is listed, if nothing is held under
/// its name, or if it puts more bytes than there is room for. A failure is counted and changes no
/// contents.
#[derive(Drop)]
pub struct MemFiles {
    alloc: Global,
    held: BTreeMap<String, Held>,
    fails: Vec<u64>,
    calls: u64,
    read_faults: u64,
    put_faults: u64,
    given: u64,
    last: Option<ShortName>,
}

impl MemFiles {
    ghost use Rattle.outside_io.specs.Memory.{contents_by, rooms_of, tally_of, fresh_tally};

    /// No files, and the numbers of the calls that are to fail, from 1.
    pub fn open(alloc: Global, fails: &[u64]) -> Result<MemFiles, AllocError>
        ensures nothing { IfOk result (λ m. (name : List ℕ) → contents_by m name ≡ None) }
        ensures fresh { IfOk result (λ m. tally_of m ≡ fresh_tally fails.now) }
    {
        Ok(MemFiles {
            alloc,
            held: BTreeMap::new(alloc),
            fails: fails.to_vec(alloc)?,
            calls: 0,
            read_faults: 0,
            put_faults: 0,
            given: 0,
            last: None,
        })
    }

    /// Whether a file is held under the name.
    pub fn is_held(&self, name: &str) -> bool
        ensures { result ≡ is_some (contents_by self.now name.now) }
    {
        self.held.contains_key(name)
    }

    /// Holds a file under a new name, with room for contents of `room` bytes. This call has no
    /// number. If memory runs out, nothing changes.
    pub fn hold(&mut self, name: &str, bytes: &[u8], room: usize) -> Result<(), AllocError>
        requires new { contents_by self.old name.now ≡ None }
        requires fits { length bytes.now ≤ room }
        ensures held { OnOk result (contents_by self.new name.now ≡ Some bytes.now) }
        ensures room { OnOk result (rooms_of self.new name.now ≡ Some room) }
        ensures others { (other : List ℕ) → other ≢ name.now →
            contents_by self.new other ≡ contents_by self.old other }
        ensures other_rooms { (other : List ℕ) → other ≢ name.now →
            rooms_of self.new other ≡ rooms_of self.old other }
        ensures err { OnErr result ((other : List ℕ) →
            contents_by self.new other ≡ contents_by self.old other) }
        ensures err_rooms { OnErr result
            ((other : List ℕ) → rooms_of self.new other ≡ rooms_of self.old other) }
        ensures tally { tally_of self.new ≡ tally_of self.old }
    {
        let mut contents = Vec::with_capacity(self.alloc, room)?;
        contents.extend_from_slice(bytes)?;
        let key = String::from_str(self.alloc, name)?;
        let file = Held {
            bytes: contents,
            room,
        };
        self.held.insert(key, file)?;
        Ok(())
    }
}

impl Files for MemFiles {
    ghost use Rattle.outside_io.specs.Memory.{contents_by, rooms_of, tally_of, tally_after_read, tally_after_put, fails_read, fails_put};

    ghost seen = { λ m. record {
      contents = contents_under m.held;
      read_faults = m.read_faults;
      put_faults = m.put_faults;
      given = m.given;
      last_failing = option_map
          (λ n. (n.len, take n.shown n.front)) m.last;
    } };

    /// Gives all bytes from the position on that the buffer has room for.
    fn read(&mut self, name: &str, at: u64, buf: &mut [u8]) -> Result<usize, Failed>
        ensures bytes { Reads (contents_by self.old name.now) at buf.new result }
        ensures count { Gives (tally_of self.old).given (tally_of self.new).given result }
        ensures grown { (tally_of self.old).given ≤ (tally_of self.new).given }
        ensures cause { HasCause (tally_of self.old).read_faults (tally_of self.new).read_faults
            result }
        ensures named { OnErr result (WhereSeen (tally_of self.new).last_failing
            (λ n. n ≡ short_name name.now)) }
        ensures contents { contents_by self.new ≡ contents_by self.old }
        ensures puts { (tally_of self.new).put_faults ≡ (tally_of self.old).put_faults }

        ensures fails { is_err result ≡ fails_read self.old name.now }
        ensures whole { IfOk result (λ n. WhereSeen (contents_by self.old name.now)
            (λ all. IsWholePart all at n buf.old buf.new)) }
        ensures nothing { OnErr result (buf.new ≡ buf.old) }
        ensures rooms { rooms_of self.new ≡ rooms_of self.old }
        ensures tally { tally_of self.new ≡ tally_after_read (tally_of self.old) name.now result }
    {
        if !count_call(&self.fails, &mut self.calls) {
            if let Some(held) = self.held.get(name) {
                let count = copy_part(held.bytes.as_slice(), at, buf);
                self.given = self.given.saturating_add(count as u64);
                return Ok(count);
            }
        }
        self.read_faults = self.read_faults.saturating_add(1);
        self.last = Some(short_name(name));
        Err(Failed)
    }

    /// Replaces the whole contents by these bytes; the room stays.
    fn put(&mut self, name: &str, bytes: &[u8]) -> Result<(), Failed>
        ensures bytes { Puts (contents_by self.old name.now) (contents_by self.new name.now)
            bytes.now result }
        ensures others { (other : List ℕ) → other ≢ name.now →
            contents_by self.new other ≡ contents_by self.old other }
        ensures cause { HasCause (tally_of self.old).put_faults (tally_of self.new).put_faults
            result }
        ensures named { OnErr result (WhereSeen (tally_of self.new).last_failing
            (λ n. n ≡ short_name name.now)) }
        ensures count { (tally_of self.new).given ≡ (tally_of self.old).given }
        ensures reads { (tally_of self.new).read_faults ≡ (tally_of self.old).read_faults }

        ensures fails { is_err result ≡ fails_put self.old name.now (length bytes.now) }
        ensures whole { OnOk result (contents_by self.new name.now ≡ Some bytes.now) }
        ensures nothing { OnErr result (contents_by self.new ≡ contents_by self.old) }
        ensures rooms { (other : List ℕ) → rooms_of self.new other ≡ rooms_of self.old other }
        ensures tally { tally_of self.new ≡ tally_after_put (tally_of self.old) name.now result }
    {
        if !count_call(&self.fails, &mut self.calls) && is_roomy(&self.held, name, bytes.len()) {
            replace(&mut self.held, name, bytes);
            return Ok(());
        }
        self.put_faults = self.put_faults.saturating_add(1);
        self.last = Some(short_name(name));
        Err(Failed)
    }
}

/// Text in memory, with a limit of bytes, its room. Pushes are numbered from 1 up to 2^64 - 1. A
/// push fails exactly if its number is listed, or if the text would be longer than the room. A
/// failure is counted and appends nothing.
#[derive(Drop)]
pub struct MemSink {
    bytes: Vec<u8>,
    room: usize,
    fails: Vec<u64>,
    calls: u64,
    faults: u64,
    ghost room_held: { room ≤ vec_capacity bytes },
    ghost within: { vec_len bytes ≤ room },
}

impl MemSink {
    ghost use Rattle.outside_io.specs.Memory.{text_of, ledger_of};

    /// No text yet, room for so many bytes, and the numbers of the pushes that are to fail, from 1.
    pub fn open(alloc: Global, room: usize, fails: &[u64]) -> Result<MemSink, AllocError>
        ensures empty { IfOk result (λ s. text_of s ≡ []) }
        ensures fresh { IfOk result (λ s. ledger_of s ≡ record
            { room = room; fails = fails.now; calls = 0; faults = 0 }) }
    {
        Ok(MemSink {
            bytes: Vec::with_capacity(alloc, room)?,
            room,
            fails: fails.to_vec(alloc)?,
            calls: 0,
            faults: 0,
        })
    }

    /// What was pushed.
    pub fn text(&self) -> &[u8]
        ensures { result.now ≡ text_of self.now }
    {
        &self.bytes
    }
}

impl Sink for MemSink {
    ghost use Rattle.outside_io.specs.Memory.{text_of, ledger_of, ledger_after, fails_push};

    ghost seen = { λ s. record { written = Some s.bytes.items; faults = s.faults } };

    /// Appends the whole piece, or nothing.
    fn push(&mut self, piece: &[u8]) -> Result<(), Failed>
        ensures bytes { Pushes (Some (text_of self.old)) (Some (text_of self.new)) piece.now
            result }
        ensures cause { HasCause (ledger_of self.old).faults (ledger_of self.new).faults result }

        ensures fails { is_err result ≡ fails_push self.old (length piece.now) }
        ensures text { text_of self.new ≡
            (if is_ok result then text_of self.old ++ piece.now else text_of self.old) }
        ensures ledger { ledger_of self.new ≡ ledger_after (ledger_of self.old) result }
    {
        let is_listed = count_call(&self.fails, &mut self.calls);
        if is_listed || piece.len() > self.room - self.bytes.len() {
            self.faults = self.faults.saturating_add(1);
            return Err(Failed);
        }
        match self.bytes.extend_from_slice(piece) {
            Ok(()) => Ok(()),
            Err(_) => unreachable!(),
        }
    }

    /// Does nothing: no bytes are buffered.
    fn flush(&mut self) -> Result<(), Failed>
        ensures done { IsOk result }
        ensures same { self.new ≡ self.old }
    {
        Ok(())
    }
}

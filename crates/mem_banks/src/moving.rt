//! Writes bytes into banks, and copies them from bank to bank.

ghost use Rattle.std.specs.Prelude.{◌≡◌, slice_index_or, ◌+◌, ◌<◌, ◌≤◌, length, vec_len};
ghost use Rattle.mem_banks.specs.Memory.{pasted, bytes_at, IsWithin};
ghost use Rattle.mem_banks.specs.Banks.{IsMoved, IsPut};
ghost use Rattle.mem_banks.specs.Kept.{AreKept, IsDone, seen};

use crate::bank::{Bank, Place, find, page};

/// Writes bytes over those from a place on.
#[inline(always)]
fn put(bytes: &mut Vec<u8>, at: usize, new: &[u8])
    requires { at + length new.now ≤ vec_len bytes.old }
    ensures { bytes.new.items ≡ pasted bytes.old.items at new.now }
{
    let part = &mut bytes[at..at + new.len()];
    part.copy_from_slice(new);
}

/// Writes bytes over those of a bank from a place on.
#[inline(always)]
fn put_in(banks: &mut [Bank], k: usize, at: usize, new: &[u8])
    requires there { k < length banks.old }
    requires fits { (d : Bank) → at + length new.now ≤ length
        (slice_index_or banks.old k d).bytes.items }
    ensures { IsPut banks.old k at new.now banks.new }
{
    let bank = &mut banks[k];
    put(&mut bank.bytes, at, new);
}

/// Writes bytes over those from an address on. One test finds the bank if it is the one that the
/// table names.
#[inline(always)]
pub fn store_at(banks: &mut [Bank], table: &[u16], addr: u32, bytes: &[u8])
    requires kept { AreKept table.now banks.old }
    requires within { IsWithin (seen banks.old) addr (length bytes.now) }
    ensures { IsDone table.now banks.old banks.new addr bytes.now }
{
    let k = table[page(addr)] as usize;
    let bank = &banks[k];
    let at = addr.wrapping_sub(bank.base) as usize;
    if at + bytes.len() <= bank.bytes.len() {
        put_in(banks, k, at, bytes);
    } else {
        store_pieces(banks, table, addr, bytes);
    }
}

/// Writes bytes over those from an address on, a piece for each bank.
#[cold]
#[inline(never)]
fn store_pieces(banks: &mut [Bank], table: &[u16], addr: u32, bytes: &[u8])
    requires kept { AreKept table.now banks.old }
    requires within { IsWithin (seen banks.old) addr (length bytes.now) }
    ensures { IsDone table.now banks.old banks.new addr bytes.now }
{
    let mut done = 0;
    while done < bytes.len() {
        let Some(place) = find(banks, table, addr + done as u32) else {
            return;
        };
        let room = banks[place.bank].bytes.len() - place.at;
        let count = (bytes.len() - done).min(room);
        put_in(banks, place.bank, place.at, &bytes[done..done + count]);
        done += count;
    }
}

/// Copies bytes from a place of one bank to a place of another bank, or of the same one. It borrows
/// two banks at once, one to read and one to write.
fn move_piece(banks: &mut [Bank], source: Place, target: Place, count: usize)
    requires source { source.bank < length banks.old }
    requires target { target.bank < length banks.old }
    requires fits_source { (d : Bank) →
        source.at + count ≤ length (slice_index_or banks.old source.bank d).bytes.items }
    requires fits_target { (d : Bank) →
        target.at + count ≤ length (slice_index_or banks.old target.bank d).bytes.items }
    ensures { IsMoved banks.old source.bank source.at target.bank target.at count banks.new }
{
    let from = source.at;
    if source.bank == target.bank {
        let bank = &mut banks[target.bank];
        bank.bytes.copy_within(from..from + count, target.at);
    } else if source.bank < target.bank {
        let (front, back) = banks.split_at_mut(target.bank);
        put(
            &mut back[0].bytes,
            target.at,
            &front[source.bank].bytes[from..from + count],
        );
    } else {
        let (front, back) = banks.split_at_mut(source.bank);
        put(
            &mut front[target.bank].bytes,
            target.at,
            &back[0].bytes[from..from + count],
        );
    }
}

/// Copies this many bytes, a piece at a time, from the first piece to the last.
#[inline(never)]
pub fn copy_from_start(banks: &mut [Bank], table: &[u16], from: u32, to: u32, count: u32)
    requires kept { AreKept table.now banks.old }
    requires source { IsWithin (seen banks.old) from count }
    requires target { IsWithin (seen banks.old) to count }
    requires order { to ≤ from }
    ensures { IsDone table.now banks.old banks.new to (bytes_at (seen banks.old) from count) }
{
    let mut done = 0;
    while done < count {
        let Some(source) = find(banks, table, from + done) else {
            return;
        };
        let Some(target) = find(banks, table, to + done) else {
            return;
        };
        let here = banks[source.bank].bytes.len() - source.at;
        let there = banks[target.bank].bytes.len() - target.at;
        let n = here.min(there).min((count - done) as usize);
        move_piece(banks, source, target, n);
        done += n as u32;
    }
}

/// Copies this many bytes, a piece at a time, from the last piece to the first.
#[inline(never)]
pub fn copy_from_end(banks: &mut [Bank], table: &[u16], from: u32, to: u32, count: u32)
    requires kept { AreKept table.now banks.old }
    requires source { IsWithin (seen banks.old) from count }
    requires target { IsWithin (seen banks.old) to count }
    requires order { from ≤ to }
    ensures { IsDone table.now banks.old banks.new to (bytes_at (seen banks.old) from count) }
{
    let mut left = count;
    while left > 0 {
        let Some(source) = find(banks, table, from + (left - 1)) else {
            return;
        };
        let Some(target) = find(banks, table, to + (left - 1)) else {
            return;
        };
        let n = (source.at + 1).min(target.at + 1).min(left as usize);
        let first = Place {
            bank: source.bank,
            at: source.at + 1 - n,
        };
        let onto = Place {
            bank: target.bank,
            at: target.at + 1 - n,
        };
        move_piece(banks, first, onto, n);
        left -= n as u32;
    }
}

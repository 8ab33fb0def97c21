//! Reads bytes from banks, a piece for each bank.

ghost use Rattle.std.specs.Prelude.{◌≡◌, ◌≤◌, ◌+◌, ◌++◌, length, take};
ghost use Rattle.mem_banks.specs.Memory.{bytes_at, IsWithin};
ghost use Rattle.mem_banks.specs.Kept.{AreKept, seen};

use crate::bank::{Bank, find};

/// Writes bytes from a place on.
fn put(out: &mut [u8], at: usize, piece: &[u8])
    requires { at + length piece.now ≤ length out.old }
    ensures front { take (at + length piece.now) out.new ≡ take at out.old ++ piece.now }
    ensures len { length out.new ≡ length out.old }
{
    out[at..at + piece.len()].copy_from_slice(piece);
}

/// Reads the bytes from an address on, as many as the buffer has room for.
pub fn read_pieces(banks: &[Bank], table: &[u16], addr: u32, out: &mut [u8])
    requires kept { AreKept table.now banks.now }
    requires within { IsWithin (seen banks.now) addr (length out.old) }
    ensures { out.new ≡ bytes_at (seen banks.now) addr (length out.old) }
{
    let mut done = 0;
    while done < out.len() {
        let Some(place) = find(banks, table, addr + done as u32) else {
            return;
        };
        let bank = &banks[place.bank];
        let count = (out.len() - done).min(bank.bytes.len() - place.at);
        put(out, done, &bank.bytes[place.at..place.at + count]);
        done += count;
    }
}

//! The bytes that a word of values says.

ghost use Rattle.std.specs.Prelude.{◌≡◌, ◌<◌, ◌≤◌, ◌+◌, ◌-◌, ◌∷◌, ◌++◌, [], ℕ, true, false, length, nat_lt, slice_index, IfNone, IfOk, IfSome, OnOk, None, Some};
ghost use Rattle.std.specs.List.{list_all, range_with_len};
ghost use Rattle.run_script.specs.Statements.{byte_in};
ghost use Rattle.run_question.specs.Values.{ends_of, pieces, range_of, values_in, with_range, with_ranges};

use crate::property::byte_in;
use std::alloc::{AllocError, Global};

/// Where the first mark stands, or the length.
fn mark_in(mark: u8, text: &[u8]) -> usize
    ensures within { result ≤ length text.now }
    ensures before { (k : ℕ) → k < result → slice_index text.now k ≡ mark → ⊥ }
    ensures found { result < length text.now → slice_index text.now result ≡ mark }
{
    for (i, c) in text.iter().enumerate() {
        if *c == mark {
            return i;
        }
    }
    text.len()
}

/// The first piece, and what stands behind the mark that ends it, if one does.
fn first_piece(mark: u8, text: &[u8]) -> (&[u8], Option<&[u8]>)
    ensures more { IfSome result.1 (λ rest. pieces mark text.now ≡ result.0.now ∷ pieces mark
        rest.now) }
    ensures shorter { IfSome result.1 (λ rest. length rest.now < length text.now) }
    ensures last { IfNone result.1 (pieces mark text.now ≡ result.0.now ∷ []) }
{
    let end = mark_in(mark, text);
    if end < text.len() {
        (&text[..end], Some(&text[end + 1..]))
    } else {
        (text, None)
    }
}

fn ends_of(first: Option<u8>, last: Option<u8>) -> Option<(u8, u8)>
    ensures value { result ≡ ends_of first last }
    ensures ordered { IfSome result (λ r. r.0 ≤ r.1) }
{
    match (first, last) {
        (Some(first), Some(last)) if first <= last => Some((first, last)),
        _ => None,
    }
}

/// A number, or two with a dash between.
fn range_in(piece: &[u8]) -> Option<(u8, u8)>
    ensures value { result ≡ range_of (pieces 45 piece.now) }
    ensures ordered { IfSome result (λ r. r.0 ≤ r.1) }
{
    let (first, behind) = first_piece(b'-', piece);
    match behind {
        None => ends_of(byte_in(first), byte_in(first)),
        Some(behind) => {
            let (last, more) = first_piece(b'-', behind);
            match more {
                None => ends_of(byte_in(first), byte_in(last)),
                Some(_) => None,
            }
        }
    }
}

/// Appends the bytes of a range.
fn push_range(bytes: &mut Vec<u8>, first: u8, last: u8) -> Result<(), AllocError>
    requires { first ≤ last }
    ensures { OnOk result (bytes.new.items ≡ bytes.old.items ++ range_with_len first
        (last + 1 - first)) }
{
    let below = u16::from(last) + 1;
    for value in u16::from(first)..below {
        bytes.push(value as u8)?;
    }
    Ok(())
}

fn are_below(bytes: &[u8], first: u8) -> bool
    ensures { result ≡ list_all (λ v. nat_lt v first) bytes.now }
{
    bytes.iter().all(|value| *value < first)
}

/// Appends the bytes of a range that is above all before; `false` where it is none.
fn push_piece(bytes: &mut Vec<u8>, piece: &[u8]) -> Result<bool, AllocError>
    ensures some { IfOk result (λ pushed. pushed ≡ true → with_range bytes.old.items
        (range_of (pieces 45 piece.now)) ≡ Some bytes.new.items) }
    ensures none { IfOk result (λ pushed. pushed ≡ false → with_range bytes.old.items
        (range_of (pieces 45 piece.now)) ≡ None) }
{
    match range_in(piece) {
        None => Ok(false),
        Some((first, last)) => {
            if are_below(bytes, first) {
                push_range(bytes, first, last)?;
                Ok(true)
            } else {
                Ok(false)
            }
        }
    }
}

/// The bytes that a word says, in ascending order and none twice; `None` where it is no such word.
pub(crate) fn values_in(alloc: Global, word: &[u8]) -> Result<Option<Vec<u8>>, AllocError>
    ensures some { IfOk result (λ r. IfSome r (λ v. values_in word.now ≡ Some v.items)) }
    ensures none { IfOk result (λ r. IfNone r (values_in word.now ≡ None)) }
{
    let mut bytes = Vec::new(alloc);
    let mut text = word;
    'pieces: loop {
        let (piece, behind) = first_piece(b',', text);
        if !push_piece(&mut bytes, piece)? {
            return Ok(None);
        }
        match behind {
            None => return Ok(Some(bytes)),
            Some(rest) => text = rest,
        }
    }
}

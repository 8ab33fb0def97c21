//! Lists of registers, read from their text.

ghost use Rattle.std.specs.Prelude.{◌≡◌, ◌∷◌, ◌<◌, ◌+◌, ◌&&◌, ◌||◌, ◌≤◌, if◌then◌else◌, is_some, IfSome, MatchOption, Some, None, []};
ghost use Rattle.std.specs.List.{list_any};
ghost use Rattle.thumb_asm.specs.Cuts.{left_length};
ghost use Rattle.thumb_asm.specs.Operands.{ends, ranges, stripped_by, register_list};
ghost use Rattle.thumb_asm.specs.Views.{ranges_text};
ghost use Rattle.thumb_asm.specs.Kinds.{ranges_left, ranges_in};
ghost use Rattle.thumb_asm.specs.Sizes.{is_in, is_listed, is_double, is_named, any_below, mask_below, mask_of, is_stray, has_stray, falls, is_empty, is_no_list, is_raised_wrong};

use super::operand::split_by;
use super::words::{is_nil, register, strip};

/// An iterator over the ranges of a list: the text that is left.
#[derive(Clone, Copy)]
pub(crate) struct Ranges<'a> {
    rest: Option<&'a [u8]>,
}

impl<'a> Ranges<'a> {
    #[tactic(auto, unfolding(crate::specs::Kinds::ranges_in, crate::specs::Kinds::good_ranges))]
    fn of(text: &'a [u8]) -> Ranges<'a>
        ensures { ranges_left (ranges_text result) ≡ ranges_in text.now }
    {
        if is_nil(strip(text)) {
            Ranges { rest: None }
        } else {
            Ranges { rest: Some(text) }
        }
    }

    /// The next range, as its two ends.
    #[tactic(auto, unfolding(crate::specs::Kinds::good_ranges))]
    fn next(&mut self) -> Option<(u8, u8)>
        ensures range { MatchOption result (ranges_left (ranges_text self.old) ≡ [])
            (λ r. ranges_left (ranges_text self.old) ≡ r ∷ ranges_left (ranges_text self.new)) }
        ensures bounds { IfSome result (λ r. (r.0 < 16) × (r.1 < 16)) }
        ensures shorter { IfSome result
            (λ r. left_length (ranges_text self.new) < left_length (ranges_text self.old)) }
    {
        match self.rest {
            None => None,
            Some(text) => {
                let (piece, rest) = split_by(b',', text);
                match ends(piece) {
                    None => None,
                    Some(range) => {
                        self.rest = rest;
                        Some(range)
                    }
                }
            }
        }
    }
}

/// The ends of a range; for a single register, that register twice.
fn ends(piece: &[u8]) -> Option<(u8, u8)>
    ensures value { result ≡ ends (stripped_by 45 piece.now) }
    ensures bounds { IfSome result (λ r. (r.0 < 16) × (r.1 < 16)) }
{
    let (low, rest) = split_by(b'-', piece);
    match rest {
        None => match register(low) {
            None => None,
            Some(r) => Some((r.number, r.number)),
        },
        Some(rest) => {
            let (top, more) = split_by(b'-', rest);
            match more {
                None => range(low, top),
                Some(_) => None,
            }
        }
    }
}

/// The ends of a range, from their names.
fn range(low: &[u8], top: &[u8]) -> Option<(u8, u8)>
    ensures value { result ≡ ends (low.now ∷ top.now ∷ []) }
    ensures bounds { IfSome result (λ r. (r.0 < 16) × (r.1 < 16)) }
{
    match register(low) {
        None => None,
        Some(first) => match register(top) {
            None => None,
            Some(last) => Some((first.number, last.number)),
        },
    }
}

/// Whether each piece between commas is a register or a range.
pub(crate) fn is_list(text: &[u8]) -> bool
    ensures { result ≡ is_some (register_list text.now) }
{
    if is_nil(strip(text)) {
        return true;
    }
    are_ranges(text)
}

fn are_ranges(text: &[u8]) -> bool
    ensures { result ≡ is_some (ranges (stripped_by 44 text.now)) }
{
    let mut left = Some(text);
    'pieces: while let Some(text) = left {
        let (piece, rest) = split_by(b',', text);
        match ends(piece) {
            None => return false,
            Some(_) => left = rest,
        }
    }
    true
}

fn is_in(range: (u8, u8), r: u8) -> bool
    ensures { result ≡ is_in range r }
{
    range.0 <= r && r <= range.1
}

pub(crate) fn is_listed(text: &[u8], r: u8) -> bool
    ensures { result ≡ is_listed (ranges_in text.now) r }
{
    let mut ranges = Ranges::of(text);
    'each: while let Some(range) = ranges.next() {
        if is_in(range, r) {
            return true;
        }
    }
    false
}

fn is_double(text: &[u8], r: u8) -> bool
    ensures { result ≡ is_double (ranges_in text.now) r }
{
    let mut count = 0u32;
    let mut ranges = Ranges::of(text);
    'each: while let Some(range) = ranges.next() {
        if is_in(range, r) {
            if count == 1 {
                return true;
            }
            count = 1;
        }
    }
    false
}

fn is_named(text: &[u8], r: u8) -> bool
    ensures { result ≡ is_named (ranges_in text.now) r }
{
    let mut ranges = Ranges::of(text);
    'each: while let Some(range) = ranges.next() {
        if is_in(range, r) || r == range.0 || r == range.1 {
            return true;
        }
    }
    false
}

fn has_falling(text: &[u8]) -> bool
    ensures { result ≡ list_any falls (ranges_in text.now) }
{
    let mut ranges = Ranges::of(text);
    'each: while let Some(range) = ranges.next() {
        if range.1 < range.0 {
            return true;
        }
    }
    false
}

fn is_empty(text: &[u8]) -> bool
    ensures { result ≡ is_empty (ranges_in text.now) }
{
    let mut ranges = Ranges::of(text);
    match ranges.next() {
        None => true,
        Some(_) => false,
    }
}

fn has_double(text: &[u8]) -> bool
    ensures { result ≡ any_below (is_double (ranges_in text.now)) 16 }
{
    for r in 0..16u8 {
        if is_double(text, r) {
            return true;
        }
    }
    false
}

/// Whether a register below this one is in the list.
fn has_lower(text: &[u8], n: u8) -> bool
    ensures { result ≡ any_below (is_listed (ranges_in text.now)) n }
{
    for r in 0..n {
        if is_listed(text, r) {
            return true;
        }
    }
    false
}

fn is_stray(text: &[u8], extra: u8, r: u8) -> bool
    ensures { result ≡ is_stray (ranges_in text.now) extra r }
{
    r >= 8 && r != extra && is_named(text, r)
}

/// Whether the list has a high register other than this one.
pub(crate) fn has_stray(extra: u8, text: &[u8]) -> bool
    ensures { result ≡ has_stray extra (ranges_in text.now) }
{
    for r in 0..16u8 {
        if is_stray(text, extra, r) {
            return true;
        }
    }
    false
}

/// Whether the list is empty, has a falling range, or has a register twice.
pub(crate) fn is_no_list(text: &[u8]) -> bool
    ensures { result ≡ is_no_list (ranges_in text.now) }
{
    is_empty(text) || has_falling(text) || has_double(text)
}

/// Whether the `!` of a base is missing or wrong.
pub(crate) fn is_raised_wrong(n: u8, raised: bool, loads: bool, text: &[u8]) -> bool
    ensures { result ≡ is_raised_wrong n raised loads (ranges_in text.now) }
{
    if loads {
        if raised {
            is_listed(text, n)
        } else {
            !is_listed(text, n)
        }
    } else {
        !raised || (is_listed(text, n) && has_lower(text, n))
    }
}

/// The low registers of a list as a mask.
#[tactic(auto, unfolding(crate::specs::Sizes::mask_below))]
pub(crate) fn mask(text: &[u8]) -> u8
    ensures { result ≡ mask_of (ranges_in text.now) }
{
    bit(text, 0, 1)
        + bit(text, 1, 2)
        + bit(text, 2, 4)
        + bit(text, 3, 8)
        + bit(text, 4, 16)
        + bit(text, 5, 32)
        + bit(text, 6, 64)
        + bit(text, 7, 128)
}

/// The bit of a register, if it is in the list; else 0.
fn bit(text: &[u8], r: u8, value: u8) -> u8
    ensures value { result ≡ (if is_listed (ranges_in text.now) r then value else 0) }
    ensures bound { result ≤ value }
{
    if is_listed(text, r) { value } else { 0 }
}

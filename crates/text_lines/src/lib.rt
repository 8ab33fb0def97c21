//! Cuts a text into lines, and reads numbers and names from pieces of text (docs/FORMATS.md,
//! Assembler, Script and Application).
#![tactic(auto)]

mod names;

ghost use Rattle.std.specs.Prelude.{◌≡◌, ℕ, ◌-◌, ◌<◌, ◌≤◌, ◌+◌, ◌*◌, length, true, IfSome, IfNone, ◌∷◌, [], slice_index, nat_le, if◌then◌else◌};
ghost use Rattle.text_lines.specs.Text.{lines_of, is_digit, is_hex, digit, number_of, hex_number_of, without_cr, FirstLineEnds, LastLineEnds, NothingHasNoLine};

pub use names::is_name;

/// The lines of a text that have not been given yet.
#[derive(Clone, Copy, Debug)]
pub struct Lines<'a> {
    /// The text from the next line on.
    pub rest: &'a [u8],
}

impl<'a> Lines<'a> {
    /// All lines of a text, from the first on.
    pub fn of(text: &'a [u8]) -> Lines<'a>
        ensures { result.rest.now ≡ text.now }
    {
        Lines { rest: text }
    }

    /// The next line, without the LF that ends it and without a CR right before that LF. The last
    /// line may lack its LF. `None` past the last line.
    pub fn next(&mut self) -> Option<&'a [u8]>
        ensures line { IfSome result (λ line. lines_of self.old.rest.now ≡ line.now ∷ lines_of
            self.new.rest.now) }
        ensures shorter { IfSome result
            (λ line. length self.new.rest.now < length self.old.rest.now) }

        ensures end { IfNone result (lines_of self.old.rest.now ≡ []) }
        ensures unchanged { IfNone result (self.new.rest.now ≡ self.old.rest.now) }
    {
        if self.rest.is_empty() {
            return None;
        }
        let (line, rest) = cut(self.rest);
        self.rest = rest;
        Some(line)
    }
}

/// Each LF ends a line of a text. The bytes after the last LF, if there are any, are the last line.
pub fn lines_end_at_line_feeds()
    ensures first { FirstLineEnds }
    ensures last { LastLineEnds }
    ensures none { NothingHasNoLine }
{}

/// The value of a piece of text that consists of one or more decimal digits, if the value is at
/// most `max`; otherwise `None`.
pub fn number(piece: &[u8], max: u64) -> Option<u64>
    ensures { result ≡ number_of piece.now max }
{
    if piece.is_empty() {
        return None;
    }
    let mut value = 0u64;
    for c in piece {
        if !is_digit(*c) {
            return None;
        }
        match grown(value, 10, digit(*c), max) {
            None => return None,
            Some(more) => value = more,
        }
    }
    Some(value)
}

/// The value of a piece of text that consists of one or more hexadecimal digits of either case,
/// without `0x`, if the value is below 2^32; otherwise `None`.
pub fn hex_number(digits: &[u8]) -> Option<u32>
    ensures { result ≡ hex_number_of digits.now }
{
    if digits.is_empty() {
        return None;
    }
    let mut value = 0u64;
    for c in digits {
        if !is_hex(*c) {
            return None;
        }
        match grown(value, 16, digit(*c), 0xFFFF_FFFF) {
            None => return None,
            Some(more) => value = more,
        }
    }
    Some(value as u32)
}

/// The first line of a text that is not empty, and what follows it.
fn cut(text: &[u8]) -> (&[u8], &[u8])
    requires { 0 < length text.now }
    ensures line { lines_of text.now ≡ result.0.now ∷ lines_of result.1.now }
    ensures shorter { length result.1.now < length text.now }
{
    let end = line_end(text);
    if end < text.len() {
        (without_cr(&text[..end]), &text[end + 1..])
    } else {
        (text, &text[end..])
    }
}

/// The index of the first LF, or the length if there is none.
fn line_end(text: &[u8]) -> usize
    ensures within { result ≤ length text.now }
    ensures before { (k : ℕ) → k < result → slice_index text.now k ≡ 10 → ⊥ }
    ensures found { result < length text.now → slice_index text.now result ≡ 10 }
{
    for (i, c) in text.iter().enumerate() {
        if *c == b'\n' {
            return i;
        }
    }
    text.len()
}

fn without_cr(piece: &[u8]) -> &[u8]
    ensures { result.now ≡ without_cr piece.now }
{
    let n = piece.len();
    if n > 0 && piece[n - 1] == b'\r' {
        &piece[..n - 1]
    } else {
        piece
    }
}

fn is_digit(c: u8) -> bool
    ensures { result ≡ is_digit c }
{
    b'0' <= c && c <= b'9'
}

fn is_hex(c: u8) -> bool
    ensures { result ≡ is_hex c }
{
    is_digit(c) || (b'a' <= c && c <= b'f') || (b'A' <= c && c <= b'F')
}

fn digit(c: u8) -> u64
    requires { is_hex c ≡ true }
    ensures value { result ≡ digit c }
    ensures bound { result < 16 }
{
    if c <= b'9' {
        u64::from(c - b'0')
    } else if c <= b'F' {
        u64::from(c - b'A') + 10
    } else {
        u64::from(c - b'a') + 10
    }
}

/// The number with one more digit at its end, if that is at most `max`; otherwise `None`.
fn grown(value: u64, base: u64, digit: u64, max: u64) -> Option<u64>
    ensures { result ≡ (if nat_le (value * base + digit) max then Some (value * base + digit) else
        None) }
{
    let more = value.checked_mul(base)?.checked_add(digit)?;
    if more <= max { Some(more) } else { None }
}

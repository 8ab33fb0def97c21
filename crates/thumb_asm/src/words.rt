//! Characters, blanks, names and registers.

ghost use Rattle.std.specs.Prelude.{◌≡◌, ◌<◌, IfSome, option_map, map, bytes_eq, nat_eq};
ghost use Rattle.std.specs.List.{list_all};
ghost use Rattle.text_lines.specs.Text.{is_between};
ghost use Rattle.thumb_asm.specs.Chars.{starts_by, is_nil, is_blank, is_letter, is_word, is_allowed, lower, strip_front, strip_end, strip, is_name, entry_at, register};

use thumb_insn::Reg;

fn is_between(low: u8, top: u8, c: u8) -> bool
    ensures { result ≡ is_between low top c }
{
    low <= c && c <= top
}

pub(crate) fn is_blank(c: u8) -> bool
    ensures { result ≡ is_blank c }
{
    c == b' ' || c == b'\t'
}

fn is_letter(c: u8) -> bool
    ensures { result ≡ is_letter c }
{
    is_between(b'a', b'z', c) || is_between(b'A', b'Z', c) || c == b'_'
}

pub(crate) fn is_word(c: u8) -> bool
    ensures { result ≡ is_word c }
{
    is_letter(c) || is_between(b'0', b'9', c)
}

fn is_allowed(c: u8) -> bool
    ensures { result ≡ is_allowed c }
{
    c == b'\t' || is_between(b' ', b'~', c)
}

fn lower(c: u8) -> u8
    ensures { result ≡ lower c }
{
    if is_between(b'A', b'Z', c) { c + 32 } else { c }
}

#[tactic(auto, using(crate::proofs::Strips::is_nil_length))]
pub(crate) fn is_nil(text: &[u8]) -> bool
    ensures { result ≡ is_nil text.now }
{
    text.len() == 0
}

/// The text without the blanks at its front.
pub(crate) fn strip_front(text: &[u8]) -> &[u8]
    ensures { result.now ≡ strip_front text.now }
{
    for (i, c) in text.iter().enumerate() {
        if !is_blank(*c) {
            return &text[i..];
        }
    }
    &text[text.len()..]
}

/// The text without the blanks at its end.
fn strip_end(text: &[u8]) -> &[u8]
    ensures { result.now ≡ strip_end text.now }
{
    let mut end = text.len();
    while end > 0 && is_blank(text[end - 1]) {
        end -= 1;
    }
    &text[..end]
}

#[tactic(auto, unfolding(crate::specs::Chars::strip))]
pub(crate) fn strip(text: &[u8]) -> &[u8]
    ensures { result.now ≡ strip text.now }
{
    strip_end(strip_front(text))
}

fn starts_by_letter(word: &[u8]) -> bool
    ensures { result ≡ starts_by is_letter word.now }
{
    match word {
        [] => false,
        [first, ..] => is_letter(*first),
    }
}

fn has_words(word: &[u8]) -> bool
    ensures { result ≡ list_all is_word word.now }
{
    word.iter().all(|c| is_word(*c))
}

/// Whether a word is a name: a letter or `_`, then letters, digits and `_`, at most 64 bytes.
pub(crate) fn is_name(word: &[u8]) -> bool
    ensures { result ≡ is_name word.now }
{
    starts_by_letter(word) && has_words(word) && word.len() <= 64
}

pub(crate) fn are_allowed(line: &[u8]) -> bool
    ensures { result ≡ list_all is_allowed line.now }
{
    line.iter().all(|c| is_allowed(*c))
}

fn same_letter(c: u8, d: u8) -> bool
    ensures { result ≡ nat_eq (lower c) d }
{
    lower(c) == d
}

/// Whether a word is this name, in upper or lower case. The name is in lower case.
pub(crate) fn is_any_case(word: &[u8], name: &[u8]) -> bool
    ensures { result ≡ bytes_eq (map lower word.now) name.now }
{
    if word.len() != name.len() {
        return false;
    }
    for i in 0..word.len() {
        if !same_letter(word[i], name[i]) {
            return false;
        }
    }
    true
}

/// The entry of a table for a word, in upper or lower case.
#[tactic(auto, unfolding(crate::specs::Chars::entry_at))]
pub(crate) fn lookup<T: Copy>(mut table: &[(&[u8], T)], word: &[u8]) -> Option<T>
    ensures { result ≡ entry_at (map (λ e. (e.0.now, e.1)) table.entry.now) (map lower word.now) }
{
    while let [entry, rest @ ..] = table {
        if is_any_case(word, entry.0) {
            return Some(entry.1);
        }
        table = rest;
    }
    None
}

/// The registers by their names, in lower case.
const REGISTERS: &[(&[u8], u8)] = &[
    (b"r0", 0),
    (b"r1", 1),
    (b"r2", 2),
    (b"r3", 3),
    (b"r4", 4),
    (b"r5", 5),
    (b"r6", 6),
    (b"r7", 7),
    (b"r8", 8),
    (b"r9", 9),
    (b"r10", 10),
    (b"r11", 11),
    (b"r12", 12),
    (b"r13", 13),
    (b"r14", 14),
    (b"r15", 15),
    (b"sp", 13),
    (b"lr", 14),
    (b"pc", 15),
];

/// The register with this name, in upper or lower case.
pub(crate) fn register(word: &[u8]) -> Option<Reg>
    ensures value { option_map (λ r. r.number) result ≡ register word.now }
    ensures bound { IfSome result (λ r. r.number < 16) }
{
    let number = lookup(REGISTERS, word)?;
    Some(Reg { number })
}

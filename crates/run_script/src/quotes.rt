//! Texts in a line: from a quote that begins a word to the end of the line.

ghost use Rattle.std.specs.Prelude.{◌≡◌, ◌<◌, ◌≤◌, ◌==◌, ◌&&◌, false, true, length, take, drop, [], option_map, IfOk, IfNone, IfSome, Some, None, if◌then◌else◌};
ghost use Rattle.run_script.specs.Drafts.{closes};
ghost use Rattle.std.specs.List.{list_all};
ghost use Rattle.run_script.specs.Quotes.{before_text, bytes_of, bytes_to_quote, text_from, unescaped, with_byte};
ghost use Rattle.run_script.specs.Words.{is_blank};

use crate::words::is_blank;
use std::alloc::{AllocError, Global};

fn begins_text(begins: bool, c: u8) -> bool
    ensures { result ≡ (begins && (c == 34)) }
{
    begins && c == b'"'
}

/// The index of the first word that begins with a quote, or the length if there is none.
pub(crate) fn text_start(line: &[u8]) -> usize
    ensures within { result ≤ length line.now }
    ensures before { before_text true line.now ≡ take result line.now }
    ensures text { text_from true line.now ≡ drop result line.now }
{
    let mut begins = true;
    for (i, c) in line.iter().enumerate() {
        if begins_text(begins, *c) {
            return i;
        }
        begins = is_blank(*c);
    }
    line.len()
}

fn unescaped(c: u8) -> Option<u8>
    ensures { result ≡ unescaped c }
{
    match c {
        b'"' => Some(b'"'),
        b'\\' => Some(b'\\'),
        b'n' => Some(b'\n'),
        b'r' => Some(b'\r'),
        b't' => Some(b'\t'),
        b'0' => Some(0),
        _ => None,
    }
}

/// The byte that is spelled after a `\`, and the bytes that follow.
fn escaped_byte(text: &[u8]) -> Option<(u8, &[u8])>
    ensures byte { IfSome result (λ r. bytes_to_quote true text.now ≡ with_byte (Some r.0)
        (bytes_to_quote false r.1.now)) }
    ensures shorter { IfSome result (λ r. length r.1.now < length text.now) }
    ensures none { IfNone result (bytes_to_quote true text.now ≡ None) }
{
    if text.is_empty() {
        return None;
    }
    match unescaped(text[0]) {
        None => None,
        Some(byte) => Some((byte, &text[1..])),
    }
}

/// The first byte of the text before its closing quote, and what follows; `None` if there is none.
fn next_byte(text: &[u8]) -> Option<(u8, &[u8])>
    ensures byte { IfSome result (λ r. bytes_to_quote false text.now ≡ with_byte (Some r.0)
        (bytes_to_quote false r.1.now)) }
    ensures shorter { IfSome result (λ r. length r.1.now < length text.now) }
    ensures none { IfNone result (bytes_to_quote false text.now ≡
        (if closes text.now then Some [] else None)) }
{
    if text.is_empty() {
        return None;
    }
    if text[0] == b'"' {
        None
    } else if text[0] == b'\\' {
        escaped_byte(&text[1..])
    } else {
        Some((text[0], &text[1..]))
    }
}

fn are_blank(text: &[u8]) -> bool
    ensures { result ≡ list_all is_blank text.now }
{
    text.iter().all(|c| is_blank(*c))
}

/// Whether a text ends here: a quote and then only blanks.
fn closes(text: &[u8]) -> bool
    ensures { result ≡ closes text.now }
{
    !text.is_empty() && text[0] == b'"' && are_blank(&text[1..])
}

/// The bytes that a text in quotes spells; `None` if it is no such text.
pub(crate) fn bytes_of(alloc: Global, text: &[u8]) -> Result<Option<Vec<u8>>, AllocError>
    requires { 0 < length text.now }
    ensures value { IfOk result (λ o. option_map (λ bytes. bytes.items) o ≡ bytes_of text.now) }
    ensures some { IfOk result (λ o. IfSome o (λ bytes. 0 < length bytes.items)) }
{
    let mut bytes = Vec::new(alloc);
    let mut rest = &text[1..];
    'bytes: while let Some((byte, behind)) = next_byte(rest) {
        bytes.push(byte)?;
        rest = behind;
    }
    if bytes.is_empty() {
        return Ok(None);
    }
    Ok(if closes(rest) { Some(bytes) } else { None })
}

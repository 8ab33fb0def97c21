//! The words of a line.

ghost use Rattle.std.specs.Prelude.{◌≡◌, ◌<◌, ◌≤◌, ℕ, false, true, length, slice_index, bytes_eq, []};
ghost use Rattle.std.specs.List.{list_all};
ghost use Rattle.run_script.specs.Words.{BlanksAreSkipped, NothingHasNoWord, WordsEndAtBlanks, is_allowed, is_blank, word_then, words};

/// The words of a line are its pieces between spaces and tabs.
pub fn words_end_at_blanks()
    ensures skipped { BlanksAreSkipped }
    ensures word { WordsEndAtBlanks }
    ensures none { NothingHasNoWord }
{}

pub(crate) fn is_blank(c: u8) -> bool
    ensures { result ≡ is_blank c }
{
    c == b' ' || c == b'\t'
}

fn is_allowed(c: u8) -> bool
    ensures { result ≡ is_allowed c }
{
    c == b'\t' || (b' ' <= c && c <= b'~')
}

/// Whether each byte of a line is allowed: a tab, or 32 to 126.
pub fn are_allowed(line: &[u8]) -> bool
    ensures { result ≡ list_all is_allowed line.now }
{
    line.iter().all(|c| is_allowed(*c))
}

pub(crate) fn is_word(word: &[u8], name: &[u8]) -> bool
    ensures { result ≡ bytes_eq word.now name.now }
{
    word == name
}

/// The text without the blanks at its front.
fn without_blanks(text: &[u8]) -> &[u8]
    ensures same { words result.now ≡ words text.now }
    ensures start { 0 < length result.now → is_blank (slice_index result.now 0) ≡ false }
{
    for (i, c) in text.iter().enumerate() {
        if !is_blank(*c) {
            return &text[i..];
        }
    }
    &text[text.len()..]
}

/// The index of the first blank, or the length if there is none.
fn word_end(text: &[u8]) -> usize
    ensures within { result ≤ length text.now }
    ensures before { (k : ℕ) → k < result → is_blank (slice_index text.now k) ≡ false }
    ensures found { result < length text.now → is_blank (slice_index text.now result) ≡ true }
{
    for (i, c) in text.iter().enumerate() {
        if is_blank(*c) {
            return i;
        }
    }
    text.len()
}

/// The first word of a text, and the bytes after it. The word is empty if there is none.
pub fn first_word(text: &[u8]) -> (&[u8], &[u8])
    ensures word { words text.now ≡ word_then result.0.now (words result.1.now) }
    ensures none { result.0.now ≡ [] → words result.1.now ≡ [] }
{
    let start = without_blanks(text);
    start.split_at(word_end(start))
}

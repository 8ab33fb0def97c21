//! Reads a line as a command.

ghost use Rattle.std.specs.Prelude.{◌≡◌, ◌∷◌, []};
ghost use Rattle.run_script.specs.Words.{words};
ghost use Rattle.debug_core.specs.Lines.{address_in, alone, device_in, form_said, is_search, kind_said, length_in, line_in, mem_said, moved, named, number_in, numbered_said, said, search_of_kind, search_of_number, search_said, shown, task_in, turns_in, two_said, words_said};

use crate::command::{Command, Sought};
use run_script::{are_allowed, first_word, number_within, starts_by_hash};
use text_lines::hex_number;
use trace_text::{NoteKind, kind_in};

/// Eight hexadecimal digits.
fn address_in(word: &[u8]) -> Option<u32>
    ensures { result ≡ address_in word.now }
{
    if word.len() == 8 {
        hex_number(word)
    } else {
        None
    }
}

fn turns_in(word: &[u8]) -> Option<u32>
    ensures { result ≡ turns_in word.now }
{
    number_within(word, 0, 1_000_000_000)
}

fn task_in(word: &[u8]) -> Option<u16>
    ensures { result ≡ task_in word.now }
{
    match number_within(word, 0, 511) {
        None => None,
        Some(task) => Some(task as u16),
    }
}

fn line_in(word: &[u8]) -> Option<u8>
    ensures { result ≡ line_in word.now }
{
    match number_within(word, 0, 63) {
        None => None,
        Some(line) => Some(line as u8),
    }
}

fn device_in(word: &[u8]) -> Option<u8>
    ensures { result ≡ device_in word.now }
{
    match number_within(word, 0, 7) {
        None => None,
        Some(device) => Some(device as u8),
    }
}

fn number_in(word: &[u8]) -> Option<u32>
    ensures { result ≡ number_in word.now }
{
    number_within(word, 0, u32::MAX)
}

fn length_in(word: &[u8]) -> Option<u8>
    ensures { result ≡ length_in word.now }
{
    match number_within(word, 1, 64) {
        None => None,
        Some(len) => Some(len as u8),
    }
}

/// `mem` with the two words after it.
fn mem_said(at: &[u8], len: &[u8]) -> Result<Option<Command>, u8>
    ensures { result ≡ mem_said (address_in at.now) (length_in len.now) }
{
    let at = address_in(at).ok_or(3)?;
    let len = length_in(len).ok_or(3)?;
    Ok(Some(Command::Mem { at, len }))
}

/// A command that shows a part of the state.
fn shown(name: &[u8], word: &[u8]) -> Result<Option<Command>, u8>
    ensures { result ≡ shown name.now word.now }
{
    if name == b"regs".as_slice() {
        let task = task_in(word).ok_or(3)?;
        Ok(Some(Command::Regs { task }))
    } else if name == b"task".as_slice() {
        let task = task_in(word).ok_or(3)?;
        Ok(Some(Command::Task { task }))
    } else if name == b"line".as_slice() {
        let line = line_in(word).ok_or(3)?;
        Ok(Some(Command::Irq { line }))
    } else if name == b"device".as_slice() {
        let device = device_in(word).ok_or(3)?;
        Ok(Some(Command::Device { device }))
    } else {
        Err(2)
    }
}

/// A command that moves the cursor, or else one that shows.
fn moved(name: &[u8], word: &[u8]) -> Result<Option<Command>, u8>
    ensures { result ≡ moved name.now word.now }
{
    if name == b"step".as_slice() {
        let turns = turns_in(word).ok_or(3)?;
        Ok(Some(Command::Step { turns }))
    } else if name == b"back".as_slice() {
        let turns = turns_in(word).ok_or(3)?;
        Ok(Some(Command::Back { turns }))
    } else if name == b"go".as_slice() {
        let turns = turns_in(word).ok_or(3)?;
        Ok(Some(Command::Go { turns }))
    } else if name == b"at".as_slice() {
        let turn = turns_in(word).ok_or(3)?;
        Ok(Some(Command::At { turn }))
    } else {
        shown(name, word)
    }
}

/// A command by its name and the one word after it.
fn named(name: &[u8], word: &[u8]) -> Result<Option<Command>, u8>
    ensures { result ≡ named name.now word.now }
{
    if name == b"break".as_slice() {
        let at = address_in(word).ok_or(3)?;
        Ok(Some(Command::Break { at }))
    } else if name == b"clear".as_slice() {
        let at = address_in(word).ok_or(3)?;
        Ok(Some(Command::Clear { at }))
    } else {
        moved(name, word)
    }
}

fn is_search(name: &[u8]) -> bool
    ensures { result ≡ is_search name.now }
{
    name == b"go".as_slice() || name == b"back".as_slice()
}

/// A search by its name: `go`, or otherwise `back`.
fn search_said(
    name: &[u8],
    turns: Option<u32>,
    sought: Option<Sought>,
) -> Result<Option<Command>, u8>
    ensures { result ≡ search_said name.now turns sought }
{
    let turns = turns.ok_or(3)?;
    let sought = sought.ok_or(3)?;
    if name == b"go".as_slice() {
        Ok(Some(Command::GoFor { turns, sought }))
    } else {
        Ok(Some(Command::BackFor { turns, sought }))
    }
}

/// A search for any note of a kind.
fn kind_said(name: &[u8], turns: Option<u32>, kind: Option<NoteKind>) -> Result<Option<Command>, u8>
    ensures { result ≡ kind_said name.now turns kind }
{
    let kind = kind.ok_or(2)?;
    let sought = Sought::Note { kind, number: None };
    search_said(name, turns, Some(sought))
}

/// A search for a note of a kind with a number.
fn numbered_said(
    name: &[u8],
    turns: Option<u32>,
    kind: Option<NoteKind>,
    number: Option<u32>,
) -> Result<Option<Command>, u8>
    ensures { result ≡ numbered_said name.now turns kind number }
{
    let kind = kind.ok_or(2)?;
    let sought = number.map(|n| Sought::Note {
        kind,
        number: Some(n),
    });
    search_said(name, turns, sought)
}

/// A name followed by two words: turns and a kind.
fn search_of_kind(name: &[u8], turns: &[u8], kind: &[u8]) -> Result<Option<Command>, u8>
    ensures { result ≡ search_of_kind name.now turns.now kind.now }
{
    if is_search(name) {
        kind_said(name, turns_in(turns), kind_in(kind))
    } else {
        Err(2)
    }
}

/// A name followed by three words: turns, a kind or `change`, and a number or an address.
fn search_of_number(
    name: &[u8],
    turns: &[u8],
    kind: &[u8],
    number: &[u8],
) -> Result<Option<Command>, u8>
    ensures { result ≡ search_of_number name.now turns.now kind.now number.now }
{
    if !is_search(name) {
        Err(2)
    } else if kind == b"change".as_slice() {
        let sought = address_in(number).map(|at| Sought::Change { at });
        search_said(name, turns_in(turns), sought)
    } else {
        numbered_said(name, turns_in(turns), kind_in(kind), number_in(number))
    }
}

fn two_said(name: &[u8], one: &[u8], two: &[u8]) -> Result<Option<Command>, u8>
    ensures { result ≡ two_said name.now one.now two.now }
{
    if name == b"mem".as_slice() {
        mem_said(one, two)
    } else {
        search_of_kind(name, one, two)
    }
}

/// A name without a word after it.
fn alone(name: &[u8]) -> Result<Option<Command>, u8>
    ensures { result ≡ alone name.now }
{
    if name == b"notes".as_slice() {
        Ok(Some(Command::Notes))
    } else if name == b"help".as_slice() {
        Ok(Some(Command::Help))
    } else if name == b"quit".as_slice() {
        Ok(Some(Command::Quit))
    } else {
        Err(2)
    }
}

/// A name followed by two words or more.
fn two_or_more(name: &[u8], one: &[u8], two: &[u8], text: &[u8]) -> Result<Option<Command>, u8>
    ensures { result ≡ form_said name.now (one.now ∷ two.now ∷ words text.now) }
{
    let (three, behind) = first_word(text);
    let (four, _behind) = first_word(behind);
    if three.is_empty() {
        two_said(name, one, two)
    } else if four.is_empty() {
        search_of_number(name, one, two, three)
    } else {
        Err(2)
    }
}

/// A name and the words after it: `notes`, `help` and `quit` have none, `mem` two, a search two or
/// three, every other command one.
fn form_said(name: &[u8], text: &[u8]) -> Result<Option<Command>, u8>
    ensures { result ≡ form_said name.now (words text.now) }
{
    let (one, behind) = first_word(text);
    let (two, behind) = first_word(behind);
    if one.is_empty() {
        alone(name)
    } else if two.is_empty() {
        named(name, one)
    } else {
        two_or_more(name, one, two, behind)
    }
}

fn words_said(line: &[u8]) -> Result<Option<Command>, u8>
    ensures { result ≡ words_said (words line.now) }
{
    let (name, behind) = first_word(line);
    if name.is_empty() {
        Ok(None)
    } else if starts_by_hash(name) {
        Ok(None)
    } else {
        form_said(name, behind)
    }
}

/// What a line says: a command, no command, or the first of the causes 1 to 3.
#[tactic(auto, unfolding(crate::specs::Lines::said))]
pub(crate) fn said(line: &[u8]) -> Result<Option<Command>, u8>
    ensures { result ≡ said line.now }
{
    if are_allowed(line) {
        words_said(line)
    } else {
        Err(1)
    }
}

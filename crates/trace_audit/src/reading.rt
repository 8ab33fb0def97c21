//! What a line says.
ghost use Rattle.std.specs.Prelude.{◌≡◌, option_map, unwrap_or, ◌∷◌, []};
ghost use Rattle.trace_audit.specs.Fields.{turn_forms, last_forms, end_form};
ghost use Rattle.trace_audit.specs.Views.{words_left, form_in, forms_in};
ghost use Rattle.trace_audit.specs.Meaning.{word_at, number_at, is_answer, saying_of, moves_nothing, is_right, fits, form_of, told, turn_line, wait_by, wait_of, shown_by, row_of, last_line, end_line, read};

use crate::fields::{is_any_of, is_same, number, number_behind};
use crate::forms::{
    END_FORMS, LAST_FORMS, LineForm, LineKind, ROW_FIELDS, TURN_FORMS, are_of, form_named,
};
use crate::pieces::Words;

/// What a line of a turn says about calls. Calls are numbered from 1 on, and clients are indices of
/// tasks.
#[derive(Clone, Copy)]
pub enum Saying {
    /// A call, by its number, is offered by a client.
    Offers(u64, u64),
    /// A call is taken.
    Takes(u64),
    /// A call is closed, by an answer of its server (true) or otherwise.
    Closes(u64, bool),
    /// A lease of a call is used.
    Borrows(u64),
    /// It says nothing about calls.
    Nothing,
}

/// What a task waits for at the end of the turns.
#[derive(Clone, Copy)]
pub enum FinalWait {
    /// That its call, by number, is taken.
    Offered(u64),
    /// The answer to its call, by number, which is taken.
    Taken(u64),
    /// No call of its own.
    Other,
}

/// What a line says (docs/FORMATS.md, Trace).
#[derive(Clone, Copy)]
pub enum TraceLine {
    /// A line of a turn: the number of the turn, and what the line says about calls.
    Tells(u64, Saying),
    /// The end of the turns.
    Ends,
    /// A task after the end of the turns: its index, and what it waits for.
    Waits(u64, FinalWait),
    /// Registers or memory, after the end of the turns.
    Shows,
    /// The line has no form of a trace.
    Strange,
}

/// The i-th word.
fn word_at<'a>(words: Words<'a>, i: usize) -> &'a [u8]
    ensures { result.now ≡ word_at (words_left words.entry) i }
{
    let mut words = words;
    for k in 0..i {
        words.next();
    }
    words.next().unwrap_or(b"")
}

/// The i-th word as a number; 0 if it is not one.
fn number_at(words: Words<'_>, i: usize) -> u64
    ensures { result ≡ number_at (words_left words.entry) i }
{
    number(word_at(words, i), 0xFFFF_FFFF).unwrap_or(0)
}

/// Whether a call was closed by an answer of its server.
fn is_answer(word: &[u8]) -> bool
    ensures { result ≡ is_answer word.now }
{
    is_any_of(&[b"reply", b"replyfault"], word)
}

/// What the words after the name of a line say about calls.
fn saying_of(kind: LineKind, words: Words<'_>) -> Saying
    ensures { result ≡ saying_of kind (words_left words.entry) }
{
    match kind {
        LineKind::Offer => Saying::Offers(number_at(words, 0), number_at(words, 1)),
        LineKind::Take => Saying::Takes(number_at(words, 0)),
        LineKind::Close => Saying::Closes(number_at(words, 0), is_answer(word_at(words, 1))),
        LineKind::Borrow => Saying::Borrows(number_at(words, 0)),
        LineKind::Plain | LineKind::Insn | LineKind::Task => Saying::Nothing,
    }
}

/// Whether the offset and the number of moved bytes of a borrow are 0.
fn moves_nothing(words: Words<'_>) -> bool
    ensures { result ≡ moves_nothing (words_left words.entry) }
{
    number_at(words, 3) == 0 && number_at(words, 4) == 0
}

/// Whether a line says what its kind may: a borrow for information moves nothing.
fn is_right(kind: LineKind, words: Words<'_>) -> bool
    ensures { result ≡ is_right kind (words_left words.entry) }
{
    match kind {
        LineKind::Borrow => !is_same(word_at(words, 1), b"info") || moves_nothing(words),
        LineKind::Plain
        | LineKind::Insn
        | LineKind::Offer
        | LineKind::Take
        | LineKind::Close
        | LineKind::Task => true,
    }
}

/// Whether the words after the name are right for the form.
fn fits(form: &LineForm, words: Words<'_>) -> bool
    ensures { result ≡ fits (form_in form.now) (words_left words.entry) }
{
    are_of(form.fields, form.kind.ends_with_text(), words) && is_right(form.kind, words)
}

/// The form with this name, if the words after it fit.
fn form_of(forms: &[LineForm], name: &[u8], words: Words<'_>) -> Option<LineForm>
    ensures { option_map form_in result ≡ form_of (forms_in forms.now) name.now
        (words_left words.entry) }
{
    match form_named(forms, name) {
        None => None,
        Some(form) => { if fits(&form, words) { Some(form) } else { None } }
    }
}

fn turn_form(name: &[u8], words: Words<'_>) -> Option<LineForm>
    ensures { option_map form_in result ≡ form_of turn_forms name.now (words_left words.entry) }
{
    form_of(TURN_FORMS, name, words)
}

fn told(turn: Option<u64>, form: Option<LineForm>, words: Words<'_>) -> Option<TraceLine>
    ensures { result ≡ told turn (words_left words.entry) (option_map form_in form) }
{
    match (turn, form) {
        (Some(turn), Some(form)) => Some(TraceLine::Tells(turn, saying_of(form.kind, words))),
        (Some(_), None) => None,
        (None, _) => None,
    }
}

/// A line of a turn.
#[tactic(auto, unfolding(crate::specs::Meaning::turn_line))]
fn turn_line(words: Words<'_>) -> Option<TraceLine>
    ensures { result ≡ turn_line (words_left words.entry) }
{
    let mut words = words;
    match words.next() {
        None => None,
        Some(turn) => {
            match words.next() {
                None => None,
                Some(name) => told(number(turn, 0xFFFF_FFFF), turn_form(name, words), words),
            }
        }
    }
}

fn wait_by(offered: Option<u64>, taken: Option<u64>) -> FinalWait
    ensures { result ≡ wait_by offered taken }
{
    match offered {
        Some(call) => FinalWait::Offered(call),
        None => {
            match taken {
                Some(call) => FinalWait::Taken(call),
                None => FinalWait::Other,
            }
        }
    }
}

#[tactic(auto, unfolding(crate::specs::Meaning::wait_of))]
fn wait_of(word: &[u8]) -> FinalWait
    ensures { result ≡ wait_of word.now }
{
    wait_by(
        number_behind(word, b"offered:"),
        number_behind(word, b"taken:"),
    )
}

fn shown_by(kind: LineKind, words: Words<'_>) -> TraceLine
    ensures { result ≡ shown_by kind (words_left words.entry) }
{
    match kind {
        LineKind::Task => TraceLine::Waits(number_at(words, 0), wait_of(word_at(words, 3))),
        LineKind::Plain
        | LineKind::Insn
        | LineKind::Offer
        | LineKind::Take
        | LineKind::Close
        | LineKind::Borrow => { TraceLine::Shows }
    }
}

fn last_form(name: &[u8], words: Words<'_>) -> Option<LineForm>
    ensures { option_map form_in result ≡ form_of last_forms name.now (words_left words.entry) }
{
    form_of(LAST_FORMS, name, words)
}

fn row_of(words: Words<'_>) -> Option<TraceLine>
    ensures { result ≡ row_of (words_left words.entry) }
{
    if are_of(ROW_FIELDS, false, words) {
        Some(TraceLine::Shows)
    } else {
        None
    }
}

/// A line after the end of the turns: a line with a name, or the bytes at an address.
#[tactic(auto, unfolding(crate::specs::Meaning::last_line))]
fn last_line(words: Words<'_>) -> Option<TraceLine>
    ensures { result ≡ last_line (words_left words.entry) }
{
    let mut behind = words;
    match behind.next() {
        None => None,
        Some(name) => {
            match last_form(name, behind) {
                Some(form) => Some(shown_by(form.kind, behind)),
                None => row_of(words),
            }
        }
    }
}

fn end_form(name: &[u8], words: Words<'_>) -> Option<LineForm>
    ensures { option_map form_in result ≡ form_of (end_form ∷ []) name.now
        (words_left words.entry) }
{
    form_of(END_FORMS, name, words)
}

/// The end of the turns.
#[tactic(auto, unfolding(crate::specs::Meaning::end_line))]
fn end_line(words: Words<'_>) -> Option<TraceLine>
    ensures { result ≡ end_line (words_left words.entry) }
{
    let mut words = words;
    match words.next() {
        None => None,
        Some(name) => {
            match end_form(name, words) {
                Some(_) => Some(TraceLine::Ends),
                None => None,
            }
        }
    }
}

/// What a line says.
#[tactic(auto, unfolding(crate::specs::Meaning::read))]
pub(crate) fn read(line: &[u8]) -> TraceLine
    ensures { result ≡ read line.now }
{
    let words = Words::of(line);
    match end_line(words) {
        Some(line) => line,
        None => {
            match turn_line(words) {
                Some(line) => line,
                None => {
                    match last_line(words) {
                        Some(line) => line,
                        None => TraceLine::Strange,
                    }
                }
            }
        }
    }
}

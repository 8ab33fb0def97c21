//! The check of names.

ghost use Rattle.std.specs.Prelude.{◌≡◌, ◌≤◌, ◌<◌, ◌+◌, ◌-◌, ◌^◌, [], length, None};
ghost use Rattle.std.specs.List.{list_any};
ghost use Rattle.image_format.specs.Names.{after_name, after_names, first_name, is_spelled, left_fault, name_fault, names_fault, names_from, names_of, same_name, task_names_fault};
ghost use Rattle.image_format.specs.Steps.{field_fault, tasks_fault};

use crate::places::names_place;
use crate::records::{Header, ImageForm, TaskRecord};
use text_lines::is_name;

/// The first name of some bytes, and the bytes after it. If the bytes end within the name, the name
/// is cut there.
pub(crate) fn split_name(bytes: &[u8]) -> (&[u8], &[u8])
    ensures name { result.0.now ≡ first_name bytes.now }
    ensures rest { result.1.now ≡ after_name bytes.now }
{
    if bytes.is_empty() {
        return (bytes, bytes);
    }
    let rest = &bytes[1..];
    let n = usize::from(bytes[0]);
    if n <= rest.len() {
        rest.split_at(n)
    } else {
        rest.split_at(rest.len())
    }
}

/// Whether the bytes begin with a length byte and that many further bytes, and these are a name.
fn is_spelled(bytes: &[u8]) -> bool
    ensures { result ≡ is_spelled bytes.now }
{
    if bytes.is_empty() {
        return false;
    }
    let rest = &bytes[1..];
    let n = usize::from(bytes[0]);
    n <= rest.len() && is_name(&rest[..n])
}

/// Whether one of the first n names of some bytes is this one.
fn is_among(bytes: &[u8], n: usize, name: &[u8]) -> bool
    ensures { result ≡ list_any (λ other. same_name other name.now) (names_of n bytes.now) }
{
    let mut rest = bytes;
    for k in 0..n {
        let (other, more) = split_name(rest);
        if other == name {
            return true;
        }
        rest = more;
    }
    false
}

/// The refusal of the name with which some bytes begin, at `place`. It follows the first n names of
/// its task.
fn check_name(own: &[u8], n: usize, bytes: &[u8], place: u32) -> Option<(u8, u32)>
    ensures { result ≡ name_fault (names_of n own.now) bytes.now place }
{
    if !is_spelled(bytes) {
        return Some((16, place));
    }
    let (name, _more) = split_name(bytes);
    if is_among(own, n, name) {
        return Some((17, place));
    }
    None
}

/// The first refusal of the n names of a task with which some bytes begin, at the place.
fn check_task_names(n: usize, bytes: &[u8], place: u32) -> Option<(u8, u32)>
    requires few { n < 256 }
    requires room { place + length bytes.now + 256 < 2 ^ 32 }
    ensures { result ≡ task_names_fault n [] bytes.now place }
{
    let mut rest = bytes;
    let mut at = place;
    for k in 0..n {
        let found = check_name(bytes, k, rest, at);
        if found.is_some() {
            return found;
        }
        let (name, more) = split_name(rest);
        at += 1 + name.len() as u32;
        rest = more;
    }
    None
}

/// The bytes after n names.
pub(crate) fn skip_names(n: usize, bytes: &[u8]) -> &[u8]
    ensures { result.now ≡ after_names n bytes.now }
{
    let mut rest = bytes;
    for k in 0..n {
        let (_name, more) = split_name(rest);
        rest = more;
    }
    rest
}

/// Refuses bytes after the names.
fn check_left(bytes: &[u8]) -> Option<(u8, u32)>
    ensures { result ≡ left_fault bytes.now }
{
    if bytes.is_empty() {
        None
    } else {
        Some((3, 24))
    }
}

/// The first refusal of the names of all tasks, which have to end at `end`, and of bytes after
/// them.
fn check_all_names(end: u32, tasks: &[TaskRecord], names: &[u8]) -> Option<(u8, u32)>
    requires within { length names.now ≤ end }
    requires room { end + 256 < 2 ^ 32 }
    ensures { result ≡ names_from end tasks.now names.now }
{
    let mut rest = names;
    for i in 0..tasks.len() {
        let n = usize::from(tasks[i].names);
        let found = check_task_names(n, rest, end - rest.len() as u32);
        if found.is_some() {
            return found;
        }
        rest = skip_names(n, rest);
    }
    check_left(rest)
}

/// The first refusal of the names in order, and of bytes after them, as a cause and the place of a
/// byte, or None if there is none. docs/FORMATS.md, Image.
#[tactic(auto, using(crate::proofs::Limits::few_names, crate::proofs::Limits::early_names))]
pub fn check_names(h: &Header, tasks: &[TaskRecord], names: &[u8]) -> Option<(u8, u32)>
    requires fields { field_fault h.now ≡ None }
    requires tasks { length tasks.now ≡ h.now.tasks }
    requires names { length names.now ≡ h.now.names }
    requires each { tasks_fault h.now tasks.now ≡ None }
    ensures { result ≡ names_fault h.now tasks.now names.now }
{
    match h.form {
        ImageForm::First => check_left(names),
        ImageForm::Second => check_all_names(names_place(h) + names.len() as u32, tasks, names),
    }
}

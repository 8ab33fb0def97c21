//! Places in a description, and their texts.

ghost use Rattle.std.specs.Prelude.{◌≡◌, ◌++◌, IfOk, IfSome, option_map, string_bytes};
ghost use Rattle.std.specs.Result.{OnOk};
ghost use Rattle.app_toml.specs.Held.{stated};
ghost use Rattle.app_toml.specs.Places.{at_entry, at_key, head_site, index_site, index_text, key_text, or_else, refusal_text, refuse, refuse_if, site_text};
ghost use Rattle.app_toml.specs.Sites.{refusal_of, site_of};

use crate::parts::AppFault;
use itoa::Buffer;
use std::alloc::{AllocError, Global};

/// A table, its index in its list, a key, and an entry of the key's list.
#[derive(Clone, Copy)]
pub(crate) struct Location<'a> {
    pub(crate) head: &'a str,
    pub(crate) index: Option<usize>,
    pub(crate) key: Option<&'a str>,
    pub(crate) nth: Option<usize>,
}

/// A cause, and the place whose text is made only when it is stated.
#[derive(Clone, Copy)]
pub(crate) struct PlacedCause<'a> {
    pub(crate) cause: u8,
    pub(crate) place: Location<'a>,
}

pub(crate) fn head_place<'a>(head: &'a str) -> Location<'a>
    ensures { site_of result ≡ head_site head.entry.now }
{
    Location {
        head,
        index: None,
        key: None,
        nth: None,
    }
}

/// The place of a table in its list.
pub(crate) fn index_place<'a>(head: &'a str, k: usize) -> Location<'a>
    ensures { site_of result ≡ index_site head.entry.now k }
{
    Location {
        head,
        index: Some(k),
        key: None,
        nth: None,
    }
}

pub(crate) fn key_place<'a>(place: Location<'a>, key: &'a str) -> Location<'a>
    ensures { site_of result ≡ at_key key.entry.now (site_of place.entry) }
{
    Location {
        head: place.head,
        index: place.index,
        key: Some(key),
        nth: None,
    }
}

pub(crate) fn entry_place<'a>(place: Location<'a>, k: usize) -> Location<'a>
    ensures { site_of result ≡ at_entry k (site_of place.entry) }
{
    Location {
        head: place.head,
        index: place.index,
        key: place.key,
        nth: Some(k),
    }
}

pub(crate) fn fault_at<'a>(cause: u8, place: Location<'a>) -> Option<PlacedCause<'a>>
    ensures { option_map refusal_of result ≡ refuse cause (site_of place.entry) }
{
    Some(PlacedCause { cause, place })
}

pub(crate) fn fault_if<'a>(refused: bool, cause: u8, place: Location<'a>) -> Option<PlacedCause<'a>>
    ensures { option_map refusal_of result ≡ refuse_if refused cause (site_of place.entry) }
{
    if refused {
        fault_at(cause, place)
    } else {
        None
    }
}

/// The first fault; the next one if there is none.
pub(crate) fn first_of<'a>(
    first: Option<PlacedCause<'a>>,
    next: Option<PlacedCause<'a>>,
) -> Option<PlacedCause<'a>>
    ensures { option_map refusal_of result ≡ or_else (option_map refusal_of first.entry)
        (option_map refusal_of next.entry) }
{
    first.or(next)
}

fn push_index(out: &mut String, index: Option<usize>) -> Result<(), AllocError>
    ensures { OnOk result (string_bytes out.new ≡ string_bytes out.old ++ index_text index) }
{
    match index {
        Some(index) => {
            let mut digits = Buffer::new();
            out.push_str("[")?;
            out.push_str(digits.format(index))?;
            out.push_str("]")
        }
        None => Ok(()),
    }
}

fn push_key(out: &mut String, key: Option<&str>) -> Result<(), AllocError>
    ensures { OnOk result (string_bytes out.new ≡ string_bytes out.old
        ++ key_text (option_map (λ s. s.now) key.entry)) }
{
    match key {
        Some(key) => {
            out.push_str(".")?;
            out.push_str(key)
        }
        None => Ok(()),
    }
}

fn place_text(alloc: Global, place: Location<'_>) -> Result<String, AllocError>
    ensures { IfOk result (λ s. string_bytes s ≡ site_text (site_of place.entry)) }
{
    let mut out = String::from_str(alloc, place.head)?;
    push_index(&mut out, place.index)?;
    push_key(&mut out, place.key)?;
    push_index(&mut out, place.nth)?;
    Ok(out)
}

/// The cause with the text of its place.
pub(crate) fn stated(alloc: Global, fault: PlacedCause<'_>) -> AppFault
    ensures { IfSome (stated result) (λ t. t ≡ refusal_text (refusal_of fault.entry)) }
{
    match place_text(alloc, fault.place) {
        Ok(place) => AppFault::Refused {
            cause: fault.cause,
            place,
        },
        Err(_) => AppFault::Memory,
    }
}

//! The keys of tables.

ghost use Rattle.std.specs.Prelude.{◌≡◌, option_map};
ghost use Rattle.toml.specs.Data.{get_member};
ghost use Rattle.toml.specs.View.{table_view, view};
ghost use Rattle.app_toml.specs.Keys.{is_known, key_fault, keys_fault, table_fault, unknown_fault};
ghost use Rattle.app_toml.specs.Sites.{key_of, keys_of, refusal_of, site_of};

use crate::forms::{ValueForm, value_fault};
use crate::places::{Location, PlacedCause, fault_at, fault_if, key_place};
use toml::{Table, Value};

/// A key of a table, whether it is needed, and the form of its value.
#[derive(Clone, Copy)]
pub(crate) struct Key {
    pub(crate) name: &'static str,
    pub(crate) is_needed: bool,
    pub(crate) form: ValueForm,
}

/// The value at a key.
pub(crate) fn member<'a>(table: &'a Table, name: &str) -> Option<&'a Value>
    ensures { option_map (λ v. view v.now) result ≡ get_member name.now (table_view table.now) }
{
    table.get(name)
}

/// The fault of one key of a table: it is missing, or its value has a fault.
fn key_fault<'a>(key: Key, place: Location<'a>, table: &Table) -> Option<PlacedCause<'a>>
    ensures { option_map refusal_of result
        ≡ key_fault (key_of key) (site_of place.entry) (table_view table.now) }
{
    let here = key_place(place, key.name);
    match member(table, key.name) {
        Some(value) => value_fault(key.form, here, value),
        None => fault_if(key.is_needed, 3, here),
    }
}

/// The first fault of the keys of a table, one by one.
fn keys_fault<'a>(keys: &[Key], place: Location<'a>, table: &Table) -> Option<PlacedCause<'a>>
    ensures { option_map refusal_of result
        ≡ keys_fault (keys_of keys.now) (site_of place.entry) (table_view table.now) }
{
    for key in keys {
        let found = key_fault(*key, place, table);
        if found.is_some() {
            return found;
        }
    }
    None
}

fn is_known(name: &str, keys: &[Key]) -> bool
    ensures { result ≡ is_known name.now (keys_of keys.now) }
{
    for key in keys {
        if key.name == name {
            return true;
        }
    }
    false
}

/// The first key in byte order that is none of the table's.
fn unknown_fault<'a>(keys: &[Key], place: Location<'a>, table: &'a Table) -> Option<PlacedCause<'a>>
    ensures { option_map refusal_of result
        ≡ unknown_fault (keys_of keys.now) (site_of place.entry) (table_view table.now) }
{
    for (name, _value) in table.iter() {
        if !is_known(name.as_str(), keys) {
            return fault_at(2, key_place(place, name.as_str()));
        }
    }
    None
}

/// The first fault of one table: of its unknown keys, then of its keys one by one.
pub(crate) fn table_fault<'a>(
    keys: &[Key],
    place: Location<'a>,
    value: &'a Value,
) -> Option<PlacedCause<'a>>
    ensures { option_map refusal_of result
        ≡ table_fault (keys_of keys.now) (site_of place.entry) (view value.now) }
{
    match value.as_table() {
        None => fault_at(4, place),
        Some(table) => {
            let found = unknown_fault(keys, place, table);
            if found.is_some() {
                return found;
            }
            keys_fault(keys, place, table)
        }
    }
}

//! The tables of a document, in the order in which they are read.

ghost use Rattle.std.specs.Prelude.{◌≡◌, option_map};
ghost use Rattle.toml.specs.View.{items_view, table_view};
ghost use Rattle.app_toml.specs.Document.{form_fault, is_top, listed_fault, lists_fault, single_fault, tables_fault, top_fault};
ghost use Rattle.app_toml.specs.Sites.{keys_of, refusal_of};

use crate::keys::{Key, member, table_fault};
use crate::places::{PlacedCause, fault_at, fault_if, first_of, head_place, index_place};
use crate::tables::{
    BOARD_KEYS, DEVICE_KEYS, INTERRUPT_KEYS, REGION_KEYS, SUPERVISOR_KEYS, TASK_KEYS,
};
use toml::{Table, Value};

fn is_top(name: &str) -> bool
    ensures { result ≡ is_top name.now }
{
    matches!(
        name,
        "board" | "supervisor" | "task" | "region" | "device" | "interrupt"
    )
}

/// The first unknown key at the top level, in byte order.
fn top_fault<'a>(document: &'a Table) -> Option<PlacedCause<'a>>
    ensures { option_map refusal_of result ≡ top_fault (table_view document.now) }
{
    for (name, _value) in document.iter() {
        if !is_top(name.as_str()) {
            return fault_at(2, head_place(name.as_str()));
        }
    }
    None
}

/// A table that has to be there.
fn single_fault<'a>(
    name: &'static str,
    keys: &[Key],
    document: &'a Table,
) -> Option<PlacedCause<'a>>
    ensures { option_map refusal_of result
        ≡ single_fault name.now (keys_of keys.now) (table_view document.now) }
{
    match member(document, name) {
        Some(value) => table_fault(keys, head_place(name), value),
        None => fault_at(3, head_place(name)),
    }
}

/// The first fault of the tables of a list, in order.
fn tables_fault<'a>(
    name: &'static str,
    keys: &[Key],
    values: &'a [Value],
) -> Option<PlacedCause<'a>>
    ensures { option_map refusal_of result
        ≡ tables_fault name.now (keys_of keys.now) 0 (items_view values.now) }
{
    for i in 0..values.len() {
        let found = table_fault(keys, index_place(name, i), &values[i]);
        if found.is_some() {
            return found;
        }
    }
    None
}

/// A list of tables, which may have to be there.
fn listed_fault<'a>(
    name: &'static str,
    is_needed: bool,
    keys: &[Key],
    document: &'a Table,
) -> Option<PlacedCause<'a>>
    ensures { option_map refusal_of result
        ≡ listed_fault name.now is_needed (keys_of keys.now) (table_view document.now) }
{
    match member(document, name) {
        Some(value) => match value.as_array() {
            Some(values) => tables_fault(name, keys, values.as_slice()),
            None => fault_at(4, head_place(name)),
        },
        None => fault_if(is_needed, 3, head_place(name)),
    }
}

fn lists_fault<'a>(document: &'a Table) -> Option<PlacedCause<'a>>
    ensures { option_map refusal_of result ≡ lists_fault (table_view document.now) }
{
    let tasks = listed_fault("task", true, &TASK_KEYS, document);
    let regions = listed_fault("region", false, &REGION_KEYS, document);
    let devices = listed_fault("device", false, &DEVICE_KEYS, document);
    let interrupts = listed_fault("interrupt", false, &INTERRUPT_KEYS, document);
    first_of(tasks, first_of(regions, first_of(devices, interrupts)))
}

/// The first fault of causes 2 to 6.
pub(crate) fn form_fault<'a>(document: &'a Table) -> Option<PlacedCause<'a>>
    ensures { option_map refusal_of result ≡ form_fault (table_view document.now) }
{
    let top = top_fault(document);
    let board = single_fault("board", &BOARD_KEYS, document);
    let supervisor = single_fault("supervisor", &SUPERVISOR_KEYS, document);
    let lists = lists_fault(document);
    first_of(top, first_of(board, first_of(supervisor, lists)))
}

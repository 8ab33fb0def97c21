//! The forms of values.

ghost use Rattle.std.specs.Prelude.{◌≡◌, option_map};
ghost use Rattle.toml.specs.View.{items_view, view};
ghost use Rattle.app_toml.specs.Forms.{filled_fault, flag_fault, name_fault, names_fault, number_fault, value_fault};
ghost use Rattle.app_toml.specs.Sites.{refusal_of, site_of};

use crate::places::{Location, PlacedCause, entry_place, fault_at};
use text_lines::is_name;
use toml::Value;

/// What the value of a key has to be: a number within limits, a name, a text that is not empty,
/// a truth value, or a list of names.
#[derive(Clone, Copy)]
pub(crate) enum ValueForm {
    Number(i64, i64),
    Name,
    Filled,
    Flag,
    Names,
}

fn name_fault<'a>(place: Location<'a>, value: &Value) -> Option<PlacedCause<'a>>
    ensures { option_map refusal_of result ≡ name_fault (site_of place.entry) (view value.now) }
{
    match value.as_str() {
        None => fault_at(4, place),
        Some(text) => {
            if is_name(text.as_bytes()) {
                None
            } else {
                fault_at(6, place)
            }
        }
    }
}

/// The first fault of the names of a list, in order.
fn names_fault<'a>(place: Location<'a>, values: &[Value]) -> Option<PlacedCause<'a>>
    ensures { option_map refusal_of result
        ≡ names_fault (site_of place.entry) 0 (items_view values.now) }
{
    for i in 0..values.len() {
        let found = name_fault(entry_place(place, i), &values[i]);
        if found.is_some() {
            return found;
        }
    }
    None
}

fn filled_fault<'a>(place: Location<'a>, value: &Value) -> Option<PlacedCause<'a>>
    ensures { option_map refusal_of result ≡ filled_fault (site_of place.entry) (view value.now) }
{
    match value.as_str() {
        None => fault_at(4, place),
        Some(text) => {
            if text.is_empty() {
                fault_at(6, place)
            } else {
                None
            }
        }
    }
}

fn flag_fault<'a>(place: Location<'a>, value: &Value) -> Option<PlacedCause<'a>>
    ensures { option_map refusal_of result ≡ flag_fault (site_of place.entry) (view value.now) }
{
    match value.as_bool() {
        None => fault_at(4, place),
        Some(_) => None,
    }
}

fn number_fault<'a>(
    low: i64,
    high: i64,
    place: Location<'a>,
    value: &Value,
) -> Option<PlacedCause<'a>>
    ensures { option_map refusal_of result
        ≡ number_fault low high (site_of place.entry) (view value.now) }
{
    match value.as_integer() {
        None => fault_at(4, place),
        Some(number) => {
            if low <= number && number <= high {
                None
            } else {
                fault_at(5, place)
            }
        }
    }
}

/// The first fault of a value: of its type, then of its range or its form.
pub(crate) fn value_fault<'a>(
    form: ValueForm,
    place: Location<'a>,
    value: &Value,
) -> Option<PlacedCause<'a>>
    ensures { option_map refusal_of result
        ≡ value_fault form (site_of place.entry) (view value.now) }
{
    match form {
        ValueForm::Number(low, high) => number_fault(low, high, place, value),
        ValueForm::Name => name_fault(place, value),
        ValueForm::Filled => filled_fault(place, value),
        ValueForm::Flag => flag_fault(place, value),
        ValueForm::Names => match value.as_array() {
            None => fault_at(4, place),
            Some(values) => names_fault(place, values.as_slice()),
        },
    }
}

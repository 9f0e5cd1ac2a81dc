//! What a catalog row has in its columns.

ghost use Rattle.std.specs.Prelude.{◌≡◌, ◌↔◌, pos, IsTrue};
ghost use Rattle.std.proofs.Common.{get_or};
ghost use Rattle.mg_value.specs.declared.value.Value.TheVariants.{Null as NoValue, Int as AnyInt, Text as AnyText};
ghost use Rattle.mg_model.specs.Catalog.{natural_of, said_name};
ghost use Rattle.mg_catalog.specs.RowRules.{HasNatural, IsSpelled};

use mg_value::{Row, Value};

/// A value as a number, 0 where it is none.
fn natural(value: &Value) -> u64
    ensures { result ≡ natural_of value.now }
{
    match value {
        Value::Int(number) => { if *number < 0 { 0 } else { *number as u64 } }
        Value::Null => 0,
        Value::Text(_) => 0,
    }
}

/// The number that a row has at a place, 0 where it has none.
pub(crate) fn number_at(row: &Row, at: usize) -> u64
    ensures { result ≡ natural_of (get_or row.now at NoValue) }
{
    match row.as_slice().get(at) {
        Some(value) => natural(value),
        None => 0,
    }
}

/// The text that a row has in its second column, empty where it has none.
pub(crate) fn name_of(row: &Row) -> &[u8]
    ensures { result.now ≡ said_name row.now }
{
    match row.as_slice().get(1) {
        Some(Value::Text(text)) => text.as_slice(),
        Some(Value::Null) => &[],
        Some(Value::Int(_)) => &[],
        None => &[],
    }
}

/// Whether a value is a number that is not negative.
fn is_natural(value: &Value) -> bool
    ensures { IsTrue result ↔ (value.now ≡ AnyInt (pos (natural_of value.now))) }
{
    match value {
        Value::Int(number) => *number >= 0,
        Value::Null => false,
        Value::Text(_) => false,
    }
}

/// Whether a row has a number that is not negative at a place.
fn has_natural(row: &Row, at: usize) -> bool
    ensures { IsTrue result ↔ HasNatural row.now at }
{
    match row.as_slice().get(at) {
        Some(value) => is_natural(value),
        None => false,
    }
}

/// Whether a row has six values, of which the last four are numbers that are not negative.
pub(crate) fn is_spelled(row: &Row) -> bool
    ensures { IsTrue result ↔ IsSpelled row.now }
{
    if row.as_slice().len() != 6 || !has_natural(row, 2) {
        return false;
    }
    if !has_natural(row, 3) || !has_natural(row, 4) {
        return false;
    }
    has_natural(row, 5)
}

/// Whether a row has NULL in its second column, or no second column.
pub(crate) fn is_unnamed(row: &Row) -> bool
    ensures { IsTrue result ↔ (get_or row.now 1 NoValue ≡ NoValue) }
{
    match row.as_slice().get(1) {
        Some(value) => value.is_null(),
        None => true,
    }
}

/// Whether a row has a text in its second column.
pub(crate) fn has_text(row: &Row) -> bool
    ensures { IsTrue result ↔ (get_or row.now 1 NoValue ≡ AnyText (said_name row.now)) }
{
    match row.as_slice().get(1) {
        Some(Value::Text(_)) => true,
        Some(Value::Null) => false,
        Some(Value::Int(_)) => false,
        None => false,
    }
}

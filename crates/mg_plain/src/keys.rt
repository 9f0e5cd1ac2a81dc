//! The keys of the rows of the catalog.

ghost use Rattle.std.specs.Prelude.{◌≡◌, ◌<◌, ◌≤◌, IfOk, IfSome, length, slice_index_or};
ghost use Rattle.mg_model.specs.Catalog.{table_key as table_key_of, column_key as column_key_of, count_said as count_said_of, says_key as says_key_test, natural_of, said_name, kind_said, column_said};

use mg_base::Memory;
use mg_value::{Column, Kind, Name, Row, Txt, Value, ValueFault};
use std::alloc::Global;

/// The text of these bytes as a value.
fn text(alloc: Global, bytes: &[u8]) -> Result<Value, Memory>
    requires { length bytes.now ≤ 65535 }
    ensures { IfOk result (λ value. value ≡ Value.Text bytes.now) }
{
    match Txt::new(alloc, bytes, u16::MAX) {
        Ok(text) => Ok(Value::Text(text)),
        Err(ValueFault::Memory) => Err(Memory),
        Err(ValueFault::TextTooLong { .. }) => unreachable!(),
    }
}

/// The key of a table's row.
pub fn table_key(alloc: Global, name: &[u8]) -> Result<Value, Memory>
    requires { length name.now ≤ 31 }
    ensures { IfOk result (λ key. key ≡ table_key_of name.now) }
{
    let mut bytes = Vec::new(alloc);
    bytes.extend_from_slice(b"T")?;
    bytes.extend_from_slice(name)?;
    text(alloc, &bytes)
}

/// The key of the row of a table's column.
pub fn column_key(alloc: Global, table: &[u8], place: u8) -> Result<Value, Memory>
    requires name { length table.now ≤ 31 }
    requires place { place < 64 }
    ensures { IfOk result (λ key. key ≡ column_key_of table.now place) }
{
    let digits = [48 + place / 10, 48 + place % 10];
    let mut bytes = Vec::new(alloc);
    bytes.extend_from_slice(b"C")?;
    bytes.extend_from_slice(table)?;
    bytes.extend_from_slice(b".")?;
    bytes.extend_from_slice(&digits)?;
    text(alloc, &bytes)
}

/// A value of a row as a number, 0 where it is none.
fn number_at(row: &Row, place: usize) -> u64
    ensures { result ≡ natural_of (slice_index_or row.now place Value.Null) }
{
    match row.as_slice().get(place) {
        Some(Value::Int(number)) => { if *number < 0 { 0 } else { *number as u64 } }
        Some(Value::Null) => 0,
        Some(Value::Text(_)) => 0,
        None => 0,
    }
}

/// How many columns a table's row says, at most 64.
pub fn count_said(row: &Row) -> u8
    ensures count { result ≡ count_said_of row.now }
    ensures most { result ≤ 64 }
{
    number_at(row, 3).min(64) as u8
}

/// Tells whether a column's row says the primary key's column.
pub fn says_key(row: &Row) -> bool
    ensures { result ≡ says_key_test row.now }
{
    number_at(row, 3) >= 2
}

/// The bytes of the name that a row says, empty where it says none.
fn name_at(row: &Row) -> &[u8]
    ensures { result.now ≡ said_name row.now }
{
    match row.as_slice().get(1) {
        Some(Value::Text(text)) => text.as_slice(),
        Some(Value::Null) => &[],
        Some(Value::Int(_)) => &[],
        None => &[],
    }
}

/// The kind that a column's row says: BIGINT, or a text of so many bytes.
fn kind_in(most: u16) -> Kind
    ensures { result ≡ kind_said most }
{
    if most == 0 {
        Kind::Int
    } else {
        Kind::Text(most)
    }
}

/// The column that a row says, if its name is one and its numbers are of two bytes.
pub fn column_in_row(row: &Row) -> Option<Column>
    ensures { IfSome result (λ column. column ≡ column_said row.now) }
{
    let Some(name) = Name::new(name_at(row)) else {
        return None;
    };
    let most = number_at(row, 2);
    let since = number_at(row, 4);
    if most > 65_535 || since > 65_535 {
        return None;
    }
    Some(Column {
        name,
        kind: kind_in(most as u16),
        not_null: number_at(row, 3) > 0,
        since: since as u16,
    })
}

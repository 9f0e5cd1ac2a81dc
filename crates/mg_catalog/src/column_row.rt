//! Whether the row of a column is lawful, and what the columns of one table must not have in common.

ghost use Rattle.std.specs.Prelude.{◌≡◌, ◌↔◌, ℕ, IsTrue, MatchOption};
ghost use Rattle.mg_model.specs.Catalog.{column_key};
ghost use Rattle.mg_model.specs.Changes.{Cells};
ghost use Rattle.mg_model.specs.CatalogRules.{IsColumnRow};
ghost use Rattle.mg_catalog.specs.ByKey.{by_key, row_key};
ghost use Rattle.mg_catalog.specs.RowRules.{ColumnAllows, ColumnSpelled, EachAllows, HasColumnNumbers, RowAllows};

use crate::find::{find_column, has_place};
use crate::keys::row_column;
use crate::spelling::{has_text, is_spelled, name_of, number_at};
use mg_value::{Name, Row};

/// Whether a column's flags, length and format are lawful.
fn has_lawful_numbers(row: &Row) -> bool
    ensures { IsTrue result ↔ HasColumnNumbers row.now }
{
    let flags = number_at(row, 3);
    let since = number_at(row, 4);
    number_at(row, 2) <= 1000
        && (flags == 0 || flags == 1 || flags == 3)
        && 1 <= since
        && since < 65_536
        && (since == 1 || flags == 0)
}

/// Whether the row of a column at a place is lawful by itself.
fn is_column_spelled(row: &Row, place: u64) -> bool
    ensures { IsTrue result ↔ ColumnSpelled place row.now }
{
    if !is_spelled(row) || !has_text(row) || number_at(row, 5) != place {
        return false;
    }
    Name::new(name_of(row)).is_some() && has_lawful_numbers(row)
}

/// The place of a table's column by the key of a row, with the first row of that key.
pub(crate) fn column_in<'a>(rows: &'a [Row], table: &[u8], row: &Row) -> Option<(u64, &'a Row)>
    ensures { MatchOption result
        ((place : ℕ) (column : Cells) → row_key row.now ≡ column_key table.now place
        → by_key rows.now (column_key table.now place) ≡ Some column → ⊥)
        (λ found. (row_key row.now ≡ column_key table.now found.0)
        × (by_key rows.now (column_key table.now found.0) ≡ Some found.1.now)) }
{
    let Some((of_table, place)) = row_column(row) else {
        return None;
    };
    if of_table != table {
        return None;
    }
    match find_column(rows, table, place) {
        Some(column) => Some((place, column)),
        None => None,
    }
}

/// Whether a column may stand at another place of the table of a column.
fn column_allows(place: u64, row: &Row, at: u64, column: &Row) -> bool
    ensures { IsTrue result ↔ ColumnAllows place row.now at column.now }
{
    if at != place && name_of(column) == name_of(row) {
        return false;
    }
    at > place || number_at(column, 4) <= number_at(row, 4)
}

/// Whether a row allows a column of a table at a place.
fn row_allows(rows: &[Row], table: &[u8], place: u64, row: &Row, other: &Row) -> bool
    ensures { IsTrue result
        ↔ RowAllows (ColumnAllows place row.now) (by_key rows.now) table.now other.now }
{
    match column_in(rows, table, other) {
        Some((at, column)) => column_allows(place, row, at, column),
        None => true,
    }
}

/// Whether each row allows a column of a table at a place.
fn rows_allow(rows: &[Row], table: &[u8], place: u64, row: &Row) -> bool
    ensures { IsTrue result
        ↔ EachAllows (ColumnAllows place row.now) (by_key rows.now) table.now rows.now }
{
    let mut rest = rows;
    while let Some((other, later)) = rest.split_first() {
        if !row_allows(rows, table, place, row, other) {
            return false;
        }
        rest = later;
    }
    true
}

/// Whether the row of a table's column at a place is lawful.
pub(crate) fn is_column_row(rows: &[Row], table: &[u8], place: u64, row: &Row) -> bool
    requires { row_key row.now ≡ column_key table.now place }
    ensures { IsTrue result ↔ IsColumnRow (by_key rows.now) table.now place row.now }
{
    if !is_column_spelled(row, place) || !has_place(rows, table, place) {
        return false;
    }
    rows_allow(rows, table, place, row)
}

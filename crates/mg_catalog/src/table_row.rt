//! Whether the row of a table is lawful.

ghost use Rattle.std.specs.Prelude.{◌≡◌, ◌↔◌, ◌<◌, ℕ, IsTrue, MatchOption};
ghost use Rattle.mg_model.specs.Catalog.{table_key};
ghost use Rattle.mg_model.specs.CatalogRules.{IsKeyColumn, IsTableRow};
ghost use Rattle.mg_catalog.specs.ByKey.{by_key, row_key};
ghost use Rattle.mg_catalog.specs.Names.{all_indexes};
ghost use Rattle.mg_catalog.specs.RowRules.{EachAllows, HasColumns, HasOneKey, HasTableNumbers, IsKeyAt, RowAllows, TableSpelled};

use crate::column_row::column_in;
use crate::find::find_column;
use crate::indexes::count_indexes;
use crate::spelling::{is_spelled, is_unnamed, number_at};
use mg_base::Bytes;
use mg_model::CATALOG;
use mg_value::{MOST_COLUMNS, Name, Row};

/// Whether the numbers of a table's row are lawful by themselves.
fn has_lawful_numbers(row: &Row) -> bool
    ensures { IsTrue result ↔ HasTableNumbers row.now }
{
    let columns = number_at(row, 3);
    1 <= columns
        && columns <= MOST_COLUMNS as u64
        && number_at(row, 2) < 4_294_967_296
        && number_at(row, 4) < 4_294_967_296
}

/// Whether the row of a table is lawful by itself.
fn is_table_spelled(row: &Row, name: &[u8]) -> bool
    ensures { IsTrue result ↔ TableSpelled name.now row.now }
{
    if !is_spelled(row) || !is_unnamed(row) {
        return false;
    }
    if Name::new(name).is_none() || name == CATALOG {
        return false;
    }
    has_lawful_numbers(row)
}

/// Whether a table has a column at each place below a count.
fn has_columns(rows: &[Row], name: &[u8], count: u64) -> bool
    ensures { IsTrue result ↔ HasColumns (by_key rows.now) name.now count }
{
    for place in 0..count {
        let Some(_) = find_column(rows, name, place) else {
            return false;
        };
    }
    true
}

/// Whether the column at a place of a table is its primary key's.
fn is_key_column(rows: &[Row], name: &[u8], place: u64) -> bool
    ensures { IsTrue result ↔ IsKeyColumn (by_key rows.now) name.now place }
{
    match find_column(rows, name, place) {
        Some(column) => number_at(column, 3) == 3,
        None => false,
    }
}

/// The first place below a count whose column is the primary key's.
fn key_place(rows: &[Row], name: &[u8], count: u64) -> Option<u64>
    ensures { MatchOption result
        ((place : ℕ) → place < count → IsKeyColumn (by_key rows.now) name.now place → ⊥)
        (λ place. (place < count) × IsKeyColumn (by_key rows.now) name.now place) }
{
    for place in 0..count {
        if is_key_column(rows, name, place) {
            return Some(place);
        }
    }
    None
}

/// Whether a column at a place is the primary key's only where the place is this one.
fn keeps_key(place: u64, at: u64, column: &Row) -> bool
    ensures { IsTrue result ↔ IsKeyAt place at column.now }
{
    if at == place {
        return true;
    }
    number_at(column, 3) != 3
}

/// Whether a row is of no key's column of a table but of that at a place.
fn row_allows_key(rows: &[Row], name: &[u8], place: u64, other: &Row) -> bool
    ensures { IsTrue result
        ↔ RowAllows (IsKeyAt place) (by_key rows.now) name.now other.now }
{
    match column_in(rows, name, other) {
        Some((at, column)) => keeps_key(place, at, column),
        None => true,
    }
}

/// Whether no column of a table but that at a place is the primary key's.
fn is_only_key(rows: &[Row], name: &[u8], place: u64) -> bool
    ensures { IsTrue result
        ↔ EachAllows (IsKeyAt place) (by_key rows.now) name.now rows.now }
{
    let mut rest = rows;
    while let Some((other, later)) = rest.split_first() {
        if !row_allows_key(rows, name, place, other) {
            return false;
        }
        rest = later;
    }
    true
}

/// Whether exactly one column of a table is the primary key's, at a place below a count.
fn has_one_key(rows: &[Row], name: &[u8], count: u64) -> bool
    ensures { IsTrue result ↔ HasOneKey (by_key rows.now) name.now count }
{
    match key_place(rows, name, count) {
        Some(place) => is_only_key(rows, name, place),
        None => false,
    }
}

/// Whether the row of a table is lawful. It is lent the names of all indexes.
pub(crate) fn is_table_row(rows: &[Row], indexes: &[Bytes], name: &[u8], row: &Row) -> bool
    requires key { row_key row.now ≡ table_key name.now }
    requires indexes { indexes.now ≡ all_indexes rows.now }
    ensures { IsTrue result ↔ IsTableRow (by_key rows.now) name.now row.now }
{
    let count = number_at(row, 3);
    if !is_table_spelled(row, name) || !has_columns(rows, name, count) {
        return false;
    }
    if !has_one_key(rows, name, count) {
        return false;
    }
    count_indexes(rows, indexes, name) == number_at(row, 5)
}

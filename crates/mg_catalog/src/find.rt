//! The first row of a key.

ghost use Rattle.std.specs.Prelude.{◌≡◌, ◌↔◌, ◌∷◌, IsTrue, MatchOption};
ghost use Rattle.mg_value.specs.declared.value.Value.TheVariants.{Text as AnyText};
ghost use Rattle.mg_model.specs.Catalog.{column_key};
ghost use Rattle.mg_model.specs.Changes.{same_key};
ghost use Rattle.mg_catalog.specs.ByKey.{by_key, row_key};
ghost use Rattle.mg_catalog.specs.RowRules.{HasPlace};

use crate::keys::{row_column, row_name};
use crate::spelling::number_at;
use mg_value::Row;

/// Whether the key of a row is a letter with a name.
fn is_named(row: &Row, letter: u8, name: &[u8]) -> bool
    ensures { result ≡ same_key (row_key row.now) (AnyText (letter ∷ name.now)) }
{
    match row_name(row, letter) {
        Some(found) => found == name,
        None => false,
    }
}

/// Whether the key of a row is that of a table's column.
fn is_column(row: &Row, table: &[u8], place: u64) -> bool
    ensures { result ≡ same_key (row_key row.now) (column_key table.now place) }
{
    match row_column(row) {
        Some((found, at)) => found == table && at == place,
        None => false,
    }
}

/// The first row with a letter and a name as its key.
pub(crate) fn find_named<'a>(rows: &'a [Row], letter: u8, name: &[u8]) -> Option<&'a Row>
    ensures { MatchOption result
        (by_key rows.now (AnyText (letter ∷ name.now)) ≡ None)
        (λ row. by_key rows.now (AnyText (letter ∷ name.now)) ≡ Some row.now) }
{
    let mut rest = rows;
    while let Some((row, later)) = rest.split_first() {
        if is_named(row, letter, name) {
            return Some(row);
        }
        rest = later;
    }
    None
}

/// The first row with the key of a table's column.
pub(crate) fn find_column<'a>(rows: &'a [Row], table: &[u8], place: u64) -> Option<&'a Row>
    ensures { MatchOption result
        (by_key rows.now (column_key table.now place) ≡ None)
        (λ row. by_key rows.now (column_key table.now place) ≡ Some row.now) }
{
    let mut rest = rows;
    while let Some((row, later)) = rest.split_first() {
        if is_column(row, table, place) {
            return Some(row);
        }
        rest = later;
    }
    None
}

/// Whether there is a row of this table, which says that it has a column at this place.
pub(crate) fn has_place(rows: &[Row], table: &[u8], place: u64) -> bool
    ensures { IsTrue result ↔ HasPlace (by_key rows.now) table.now place }
{
    match find_named(rows, b'T', table) {
        Some(row) => place < number_at(row, 3),
        None => false,
    }
}

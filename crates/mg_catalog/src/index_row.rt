//! Whether the row of an index is lawful.

ghost use Rattle.std.specs.Prelude.{◌≡◌, ◌↔◌, IsTrue};
ghost use Rattle.mg_model.specs.Catalog.{index_key};
ghost use Rattle.mg_model.specs.CatalogRules.{IsIndexRow};
ghost use Rattle.mg_catalog.specs.ByKey.{by_key, row_key};
ghost use Rattle.mg_catalog.specs.RowRules.{HasIndexNumbers, IndexSpelled};

use crate::find::has_place;
use crate::spelling::{has_text, is_spelled, name_of, number_at};
use mg_value::{Name, Row};

/// Whether the numbers of an index's row are lawful. Page 0 is the header, and no root.
fn has_lawful_numbers(row: &Row) -> bool
    ensures { IsTrue result ↔ HasIndexNumbers row.now }
{
    let root = number_at(row, 2);
    1 <= root && root < 4_294_967_296 && number_at(row, 4) == 0 && number_at(row, 5) == 0
}

/// Whether the row of an index is lawful by itself.
fn is_index_spelled(row: &Row, name: &[u8]) -> bool
    ensures { IsTrue result ↔ IndexSpelled name.now row.now }
{
    if !is_spelled(row) || !has_text(row) || Name::new(name).is_none() {
        return false;
    }
    has_lawful_numbers(row)
}

/// Whether the row of an index is lawful.
pub(crate) fn is_index_row(rows: &[Row], name: &[u8], row: &Row) -> bool
    requires { row_key row.now ≡ index_key name.now }
    ensures { IsTrue result ↔ IsIndexRow (by_key rows.now) name.now row.now }
{
    if !is_index_spelled(row, name) {
        return false;
    }
    has_place(rows, name_of(row), number_at(row, 3))
}

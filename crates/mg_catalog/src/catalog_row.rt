//! Whether the rows of a catalog are lawful.

ghost use Rattle.std.specs.Prelude.{◌≡◌, ◌↔◌, IsTrue, IfErr, OnOk};
ghost use Rattle.mg_model.specs.CatalogRules.{IsCatalog, IsCatalogRow};
ghost use Rattle.mg_catalog.specs.ByKey.{by_key, row_key};
ghost use Rattle.mg_catalog.specs.FirstBad.{IsFirstBad};
ghost use Rattle.mg_catalog.specs.Names.{all_indexes};

use crate::column_row::is_column_row;
use crate::fault::CatFault;
use crate::index_row::is_index_row;
use crate::keys::{row_column, row_name};
use crate::table_row::is_table_row;
use mg_base::Bytes;
use mg_value::Row;

/// Whether a row is lawful among these rows. It is lent the names of all indexes.
fn is_catalog_row(rows: &[Row], indexes: &[Bytes], row: &Row) -> bool
    requires { indexes.now ≡ all_indexes rows.now }
    ensures { IsTrue result ↔ IsCatalogRow (by_key rows.now) (row_key row.now) row.now }
{
    if let Some(name) = row_name(row, b'T') {
        return is_table_row(rows, indexes, name, row);
    }
    if let Some(name) = row_name(row, b'I') {
        return is_index_row(rows, name, row);
    }
    match row_column(row) {
        Some((table, place)) => is_column_row(rows, table, place, row),
        None => false,
    }
}

/// Tests that each row is lawful.
///
/// # Errors
///
/// `BadTable` with the place of the first row that is not.
pub(crate) fn check_rows(rows: &[Row], indexes: &[Bytes]) -> Result<(), CatFault>
    requires indexes { indexes.now ≡ all_indexes rows.now }
    ensures lawful { OnOk result (IsCatalog (by_key rows.now)) }
    ensures bad { IfErr result (λ fault. IsFirstBad rows.now fault) }
{
    for at in 0..rows.len() {
        if !is_catalog_row(rows, indexes, &rows[at]) {
            return Err(CatFault::BadTable { at });
        }
    }
    Ok(())
}

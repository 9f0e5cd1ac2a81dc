//! The tables that the rows of a catalog name.

ghost use Rattle.std.specs.Prelude.{◌≡◌, ◌≢◌, ◌≤◌, ◌++◌, IfErr, IfOk, OnOk};
ghost use Rattle.mg_model.specs.Catalog.{columns_said, key_said, table_key};
ghost use Rattle.mg_model.specs.CatalogRules.{AreTables, IsCatalog, IsTable, primary_index};
ghost use Rattle.mg_catalog.specs.ByKey.{by_key};
ghost use Rattle.mg_catalog.specs.FirstBad.{IsFirstBad};
ghost use Rattle.mg_catalog.specs.Names.{all_indexes};

use crate::catalog_row::check_rows;
use crate::columns::{columns_of, key_of};
use crate::fault::CatFault;
use crate::find::find_named;
use crate::indexes::add_indexes;
use crate::names::names_of;
use crate::spelling::number_at;
use mg_base::{Bytes, Memory, PageNo};
use mg_model::{Index, Indexes, Table};
use mg_value::{Columns, Name, Row, Shape};
use std::alloc::Global;

/// The shape of a table of so many columns.
fn shape_of(alloc: Global, rows: &[Row], name: &[u8], count: u64) -> Result<Shape, Memory>
    requires catalog { IsCatalog (by_key rows.now) }
    requires most { count ≤ 64 }
    ensures { IfOk result (λ shape. shape ≡ record {
      columns = columns_said (by_key rows.now) name.now 0 count;
      key = key_said (by_key rows.now) name.now 0 count;
    }) }
{
    Ok(Shape {
        columns: Columns::new(columns_of(alloc, rows, name, count)?),
        key: key_of(rows, name, count) as u16,
    })
}

/// Adds the primary index of a table, if it has one: its root is 0 where it has none.
fn add_primary(indexes: &mut Vec<Index>, name: Name, key: u16, root: u32) -> Result<(), Memory>
    ensures { OnOk result
        (indexes.new.items ≡ indexes.old.items ++ primary_index name key root) }
{
    if root == 0 {
        return Ok(());
    }
    indexes.push(Index {
        name,
        column: key,
        root: PageNo(root),
    })?;
    Ok(())
}

/// The table of a row. It is lent the names of all indexes.
fn table_said(
    alloc: Global,
    rows: &[Row],
    indexes: &[Bytes],
    name: Name,
    row: &Row,
) -> Result<Table, Memory>
    requires catalog { IsCatalog (by_key rows.now) }
    requires indexes { indexes.now ≡ all_indexes rows.now }
    requires there { by_key rows.now (table_key name) ≡ Some row.now }
    ensures table { IfOk result (λ table. IsTable (by_key rows.now) table) }
    ensures named { IfOk result (λ table. table.name ≡ name) }
{
    let shape = shape_of(alloc, rows, name.as_slice(), number_at(row, 3))?;
    let mut all = Vec::new(alloc);
    add_primary(&mut all, name, shape.key, number_at(row, 4) as u32)?;
    add_indexes(&mut all, rows, indexes, name.as_slice())?;
    Ok(Table {
        name,
        shape,
        pointer: PageNo(number_at(row, 2) as u32),
        indexes: Indexes::new(all),
    })
}

/// The table of a name. It is lent the names of all indexes.
fn table_of(alloc: Global, rows: &[Row], indexes: &[Bytes], name: &[u8]) -> Result<Table, Memory>
    requires catalog { IsCatalog (by_key rows.now) }
    requires indexes { indexes.now ≡ all_indexes rows.now }
    requires there { by_key rows.now (table_key name.now) ≢ None }
    ensures table { IfOk result (λ table. IsTable (by_key rows.now) table) }
    ensures named { IfOk result (λ table. table.name ≡ name.now) }
{
    let row = find_named(rows, b'T', name).unwrap();
    table_said(alloc, rows, indexes, Name::new(name).unwrap(), row)
}

/// The tables that the rows of a catalog name, in the order of their names.
///
/// A key means its first row in the list. No two rows of a catalog have one key.
///
/// # Errors
///
/// `BadTable` with the place of the first row that is not lawful; `Memory`.
pub fn tables_of(alloc: Global, rows: &[Row]) -> Result<Vec<Table>, CatFault>
    ensures tables { IfOk result (λ tables. AreTables (by_key rows.now) tables.items) }
    ensures bad { IfErr result (λ fault. IsFirstBad rows.now fault) }
{
    let indexes = names_of(alloc, rows, b'I')?;
    check_rows(rows, &indexes)?;
    let names = names_of(alloc, rows, b'T')?;
    let mut tables = Vec::new(alloc);
    for name in &names {
        tables.push(table_of(alloc, rows, &indexes, name.as_slice())?)?;
    }
    Ok(tables)
}

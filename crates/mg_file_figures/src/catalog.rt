//! The table of the catalog.

ghost use Rattle.std.specs.Prelude.{◌≡◌, IfOk};
ghost use Rattle.mg_image.specs.Catalog.{catalog_table as catalog_from};
ghost use Rattle.mg_model.specs.Catalog.{catalog_column, catalog_shape};
ghost use Rattle.mg_value.specs.Names.{IsName};

use mg_base::{Memory, PageNo};
use mg_model::{CATALOG, Indexes, Table};
use mg_value::{Column, Columns, Kind, Name, Shape};
use std::alloc::Global;

/// The table of the catalog, which begins at a pointer page.
///
/// # Errors
///
/// `Memory` only.
pub(crate) fn catalog_table(alloc: Global, pointer: u32) -> Result<Table, Memory>
    ensures { IfOk result (λ table. table ≡ catalog_from pointer) }
{
    Ok(Table {
        name: Name::new(CATALOG).unwrap(),
        shape: Shape {
            columns: columns(alloc)?,
            key: 0,
        },
        pointer: PageNo(pointer),
        indexes: Indexes::new(Vec::new(alloc)),
    })
}

/// The columns of the catalog.
fn columns(alloc: Global) -> Result<Columns, Memory>
    ensures { IfOk result (λ columns. columns ≡ catalog_shape.columns) }
{
    let mut columns = Vec::new(alloc);
    columns.push(column(b"K", Kind::Text(40), true))?;
    columns.push(column(b"NAME", Kind::Text(31), false))?;
    columns.push(column(b"A", Kind::Int, false))?;
    columns.push(column(b"B", Kind::Int, false))?;
    columns.push(column(b"C", Kind::Int, false))?;
    columns.push(column(b"D", Kind::Int, false))?;
    Ok(Columns::new(columns))
}

/// A column of the catalog.
fn column(bytes: &[u8], kind: Kind, not_null: bool) -> Column
    requires { IsName bytes.now }
    ensures { result ≡ catalog_column bytes.now kind not_null }
{
    Column {
        name: Name::new(bytes).unwrap(),
        kind,
        not_null,
        since: 1,
    }
}

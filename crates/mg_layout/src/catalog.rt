//! The catalog as a table, and the tables that its rows name.

ghost use Rattle.std.specs.Prelude.{◌≡◌, IfErr, IfOk};
ghost use Rattle.mg_value.specs.Names.{IsName};
ghost use Rattle.mg_model.specs.Catalog.{catalog_column, catalog_shape};
ghost use Rattle.mg_reading.specs.ImageView.{pages_in};
ghost use Rattle.mg_reading.specs.Readable.{Refutes};
ghost use Rattle.mg_image.specs.Catalog.{catalog_table as catalog_from};
ghost use Rattle.mg_image.specs.Inventory.{header_of};
ghost use Rattle.mg_layout.specs.HasPages.{IsStand, NamesTables};
ghost use Rattle.mg_layout.specs.Refusals.{NamesSome};
ghost use Rattle.mg_layout.specs.Standing.{stand_in};

use crate::choices::{check_choices, limbo_writers, tables_with};
use crate::standing::TableStand;
use mg_base::{Memory, PageNo, get_u32};
use mg_header::CATALOG_AT;
use mg_image::one_reading;
use mg_model::{CATALOG, Indexes, Table};
use mg_reading::{Image, ReadFault, RowCoding, table_records};
use mg_value::{Column, Columns, Kind, Name, Shape};
use std::alloc::Global;

/// A column of the catalog.
fn column(bytes: &[u8], kind: Kind, not_null: bool) -> Column
    requires { IsName bytes.now }
    ensures { result ≡ catalog_column bytes.now kind not_null }
{
    Column {
        name: Name::new(bytes).unwrap(),
        kind,
        not_null,
        since: 1,
    }
}

/// The columns of the catalog.
fn columns(alloc: Global) -> Result<Columns, Memory>
    ensures { IfOk result (λ columns. columns ≡ catalog_shape.columns) }
{
    let mut columns = Vec::new(alloc);
    columns.push(column(b"K", Kind::Text(40), true))?;
    columns.push(column(b"NAME", Kind::Text(31), false))?;
    columns.push(column(b"A", Kind::Int, false))?;
    columns.push(column(b"B", Kind::Int, false))?;
    columns.push(column(b"C", Kind::Int, false))?;
    columns.push(column(b"D", Kind::Int, false))?;
    Ok(Columns::new(columns))
}

/// The catalog as a table, from its first pointer page on.
///
/// # Errors
///
/// `Memory` only.
pub fn catalog_table(alloc: Global, pointer: u32) -> Result<Table, Memory>
    ensures { IfOk result (λ table. table ≡ catalog_from pointer) }
{
    Ok(Table {
        name: Name::new(CATALOG).unwrap(),
        shape: Shape {
            columns: columns(alloc)?,
            key: 0,
        },
        pointer: PageNo(pointer),
        indexes: Indexes::new(Vec::new(alloc)),
    })
}

/// The first pointer page of the catalog.
pub(crate) fn catalog_at(image: &Image) -> u32
    ensures { result ≡ (header_of (pages_in image.now)).catalog.0 }
{
    get_u32(image.page(0), CATALOG_AT)
}

/// The tables that the rows of the catalog name once all limbo transactions are committed.
///
/// Its rows are tested under each two choices, one within the other, of the limbo transactions that
/// wrote a newest version of a record of the catalog: the time is three times as long with each of
/// them.
///
/// # Errors
///
/// `Broken` only where the catalog's records are not lawful, or its rows are not under some choice;
/// `Memory`.
pub(crate) fn named_tables(
    alloc: Global,
    image: &Image,
    coding: RowCoding,
    catalog: &TableStand,
) -> Result<Vec<Table>, ReadFault>
    requires shape { catalog.now.table.shape ≡ catalog_shape }
    requires stand { IsStand image.now (stand_in catalog.now) }
    ensures names { IfOk result (λ tables.
        NamesTables coding image.now (stand_in catalog.now) tables.items) }
    ensures broken { IfErr result (Refutes (NamesSome coding image.now (stand_in catalog.now))) }
{
    one_reading();
    let data_pages = &catalog.pages.data_pages;
    let found = table_records(alloc, image, &catalog.table, coding, data_pages)?;
    let writers = limbo_writers(alloc, image, &found)?;
    check_choices(alloc, image, &found, &[], &[], &writers)?;
    tables_with(alloc, image, &found, &writers)
}

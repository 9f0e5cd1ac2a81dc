//! The catalog, and the table that is made.

ghost use Rattle.std.specs.Prelude.{◌≡◌, ◌≤◌, IfOk, length};

use mg_base::{Memory, PageNo};
use mg_model::{CATALOG, Indexes, Table};
use mg_value::{Column, Columns, Kind, Name, Shape};
use std::alloc::Global;

// A column of a table.
fn column(name: &[u8], kind: Kind, not_null: bool) -> Result<Column, Memory> {
    match Name::new(name) {
        Some(name) => Ok(Column {
            name,
            kind,
            not_null,
            since: 1,
        }),
        None => Err(Memory),
    }
}

/// A column of the catalog: its name, its kind, and whether it is never NULL.
type Told = (&'static [u8], Kind, bool);

const CATALOG_COLUMNS: &[Told] = &[
    (b"K", Kind::Text(40), true),
    (b"NAME", Kind::Text(31), false),
    (b"A", Kind::Int, false),
    (b"B", Kind::Int, false),
    (b"C", Kind::Int, false),
    (b"D", Kind::Int, false),
];

// The columns that are told.
fn columns_of(alloc: Global, told: &[Told]) -> Result<Vec<Column>, Memory> {
    let mut columns = Vec::new(alloc);
    for (name, kind, not_null) in told {
        columns.push(column(name, *kind, *not_null)?)?;
    }
    Ok(columns)
}

/// The table of the catalog, which begins on page 3.
///
/// # Errors
///
/// `Memory` only.
pub fn catalog(alloc: Global) -> Result<Table, Memory>
    ensures pointer { IfOk result (λ table. table.pointer.0 ≡ 3) }
{
    let columns = columns_of(alloc, CATALOG_COLUMNS)?;
    table_of(alloc, columns)
}

// A table of these columns, which begins on page 3, and whose key is the first.
fn table_of(alloc: Global, columns: Vec<Column>) -> Result<Table, Memory>
    ensures pointer { IfOk result (λ table. table.pointer.0 ≡ 3) }
{
    match Name::new(CATALOG) {
        Some(name) => Ok(Table {
            name,
            shape: Shape {
                columns: Columns::new(columns),
                key: 0,
            },
            pointer: PageNo(3),
            indexes: Indexes::new(Vec::new(alloc)),
        }),
        None => Err(Memory),
    }
}

/// The shape of a table with one column, its key.
///
/// # Errors
///
/// `Memory` only.
pub fn one_column(alloc: Global) -> Result<Shape, Memory>
    ensures columns { IfOk result (λ shape. length shape.columns ≤ 64) }
{
    let mut columns = Vec::new(alloc);
    columns.push(column(b"K", Kind::Int, true)?)?;
    Ok(Shape {
        columns: Columns::new(columns),
        key: 0,
    })
}

//! The tables of a new database.

ghost use Rattle.std.specs.Prelude.{◌≡◌, ◌≤◌, IfOk, length};

use mg_base::{Memory, PageNo};
use mg_model::{CATALOG, Indexes, Table};
use mg_value::{Column, Columns, Kind, Name, Shape};
use std::alloc::Global;

/// A column of a table.
fn column(name: &[u8], kind: Kind, not_null: bool) -> Result<Column, Memory> {
    match Name::new(name) {
        Some(name) => Ok(Column {
            name,
            kind,
            not_null,
            since: 1,
        }),
        None => Err(Memory),
    }
}

/// A column as the tests write it: its name, its kind, and whether it is NOT NULL.
type Said = (&'static [u8], Kind, bool);

/// The columns that are said.
fn columns_of(alloc: Global, said: &[Said]) -> Result<Vec<Column>, Memory> {
    let mut columns = Vec::new(alloc);
    for (name, kind, not_null) in said {
        columns.push(column(name, *kind, *not_null)?)?;
    }
    Ok(columns)
}

/// A table of these columns without indexes, whose key is the first.
fn table_with(
    alloc: Global,
    name: &[u8],
    pointer: u32,
    columns: Vec<Column>,
) -> Result<Table, Memory>
    ensures columns { IfOk result (λ table. table.shape.columns ≡ columns.items) }
    ensures pointer { IfOk result (λ table. table.pointer.0 ≡ pointer) }
{
    match Name::new(name) {
        Some(name) => Ok(Table {
            name,
            shape: Shape {
                columns: Columns::new(columns),
                key: 0,
            },
            pointer: PageNo(pointer),
            indexes: Indexes::new(Vec::new(alloc)),
        }),
        None => Err(Memory),
    }
}

/// A table of the columns that are said, of which there are at most 64.
fn table_of(alloc: Global, name: &[u8], pointer: u32, said: &[Said]) -> Result<Table, Memory>
    ensures columns { IfOk result (λ table. length table.shape.columns ≤ 64) }
    ensures pointer { IfOk result (λ table. table.pointer.0 ≡ pointer) }
{
    let columns = columns_of(alloc, said)?;
    if columns.len() > 64 {
        return Err(Memory);
    }
    table_with(alloc, name, pointer, columns)
}

/// The columns of the table KV (K BIGINT PRIMARY KEY, V BIGINT).
const KV: &[Said] = &[(b"K", Kind::Int, true), (b"V", Kind::Int, false)];

/// The table KV.
pub fn kv(alloc: Global) -> Result<Table, Memory>
    ensures columns { IfOk result (λ table. length table.shape.columns ≤ 64) }
    ensures pointer { IfOk result (λ table. table.pointer.0 ≡ 5) }
{
    table_of(alloc, b"KV", 5, KV)
}

/// The columns of the catalog.
const OF_CATALOG: &[Said] = &[
    (b"K", Kind::Text(40), true),
    (b"NAME", Kind::Text(31), false),
    (b"A", Kind::Int, false),
    (b"B", Kind::Int, false),
    (b"C", Kind::Int, false),
    (b"D", Kind::Int, false),
];

/// The catalog.
pub fn catalog(alloc: Global) -> Result<Table, Memory>
    ensures columns { IfOk result (λ table. length table.shape.columns ≤ 64) }
    ensures pointer { IfOk result (λ table. table.pointer.0 ≡ 3) }
{
    table_of(alloc, CATALOG, 3, OF_CATALOG)
}

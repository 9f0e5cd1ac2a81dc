//! Columns and tables as the tests give them.

use mg_base::PageNo;
use mg_model::{Indexes, Table};
use mg_value::{Column, Columns, Kind, Name, Shape};
use std::alloc::Global;
use std::test::Fail;

/// A column as the tests write it: its name, its kind, and whether it is never NULL.
pub type Told = (&'static [u8], Kind, bool);

/// The name of these bytes.
fn name(bytes: &[u8]) -> Result<Name, Fail> {
    Ok(Name::new(bytes).ok_or("no name")?)
}

/// The column that is told.
fn column(told: &Told) -> Result<Column, Fail> {
    let (bytes, kind, not_null) = told;
    Ok(Column {
        name: name(bytes)?,
        kind: *kind,
        not_null: *not_null,
        since: 1,
    })
}

/// The columns that are told.
fn columns(alloc: Global, told: &[Told]) -> Result<Columns, Fail> {
    let mut columns = Vec::new(alloc);
    for one in told {
        columns.push(column(one)?)?;
    }
    Ok(Columns::new(columns))
}

/// A table of these columns without indexes, whose key is the first.
pub fn table_of(alloc: Global, bytes: &[u8], told: &[Told]) -> Result<Table, Fail> {
    let name = name(bytes)?;
    let columns = columns(alloc, told)?;
    Ok(Table {
        name,
        shape: Shape { columns, key: 0 },
        pointer: PageNo(5),
        indexes: Indexes::new(Vec::new(alloc)),
    })
}

//! The columns of a table.

ghost use Rattle.std.specs.Prelude.{◌≡◌, ◌<◌, ◌≤◌, ◌^◌, [], ◌++◌, IfOk, OnOk};
ghost use Rattle.mg_value.specs.Names.{IsName};
ghost use Rattle.mg_model.specs.Catalog.{column_key, column_said, columns_said, is_key_row, key_said, kind_said, said_a, said_c, said_name, with_column};
ghost use Rattle.mg_model.specs.CatalogRules.{IsCatalog};
ghost use Rattle.mg_catalog.specs.ByKey.{by_key};

use crate::find::find_column;
use crate::spelling::{name_of, number_at};
use mg_base::Memory;
use mg_value::{Column, Kind, Name, Row};
use std::alloc::Global;

/// The kind of a column: 0 for BIGINT, else the length of a VARCHAR.
fn kind_of(most: u16) -> Kind
    ensures { result ≡ kind_said most }
{
    if most == 0 {
        Kind::Int
    } else {
        Kind::Text(most)
    }
}

/// The column that a row says.
fn column_of(row: &Row) -> Column
    requires named { IsName (said_name row.now) }
    requires kind { said_a row.now < 2 ^ 16 }
    requires since { said_c row.now < 2 ^ 16 }
    ensures { result ≡ column_said row.now }
{
    Column {
        name: Name::new(name_of(row)).unwrap(),
        kind: kind_of(number_at(row, 2) as u16),
        not_null: 0 < number_at(row, 3),
        since: number_at(row, 4) as u16,
    }
}

/// Adds the column of a table at a place, if it has one there.
fn add_column(
    columns: &mut Vec<Column>,
    rows: &[Row],
    table: &[u8],
    place: u64,
) -> Result<(), Memory>
    requires { IsCatalog (by_key rows.now) }
    ensures { OnOk result (columns.new.items ≡ columns.old.items
        ++ with_column (by_key rows.now (column_key table.now place)) []) }
{
    let Some(row) = find_column(rows, table, place) else {
        return Ok(());
    };
    columns.push(column_of(row))?;
    Ok(())
}

/// The columns of a table at the places below a count.
pub(crate) fn columns_of(
    alloc: Global,
    rows: &[Row],
    table: &[u8],
    count: u64,
) -> Result<Vec<Column>, Memory>
    requires { IsCatalog (by_key rows.now) }
    ensures { IfOk result (λ columns.
        columns.items ≡ columns_said (by_key rows.now) table.now 0 count) }
{
    let mut columns = Vec::new(alloc);
    for place in 0..count {
        add_column(&mut columns, rows, table, place)?;
    }
    Ok(columns)
}

/// Whether a table has a column at a place, which is the primary key's.
fn says_key(rows: &[Row], table: &[u8], place: u64) -> bool
    ensures { result ≡ is_key_row (by_key rows.now (column_key table.now place)) }
{
    match find_column(rows, table, place) {
        Some(row) => 2 <= number_at(row, 3),
        None => false,
    }
}

/// The place of the primary key's column below a count, 0 where there is none.
pub(crate) fn key_of(rows: &[Row], table: &[u8], count: u64) -> u64
    ensures key { result ≡ key_said (by_key rows.now) table.now 0 count }
    ensures most { result ≤ count }
{
    for place in 0..count {
        if says_key(rows, table, place) {
            return place;
        }
    }
    0
}

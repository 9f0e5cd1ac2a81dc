//! Whether the tables that the catalog names fit their pages, and whether they are others' too.

ghost use Rattle.std.specs.Prelude.{◌≡◌, ◌↔◌, ◌≤◌, ◌/◌, IsTrue, length};
ghost use Rattle.mg_value.specs.declared.shape.TheConstants.{MOST_COLUMNS};
ghost use Rattle.mg_model.specs.CatalogRules.{EachIndex, EachTable};
ghost use Rattle.mg_image.specs.Catalog.{FitsPages, IsSameTable, StaysAmong, longest_key as longest_key_of};
ghost use Rattle.mg_layout.specs.Choices.{HasFewColumns};

use mg_model::{Index, Table};
use mg_sortkey::key_most;
use mg_value::{Column, Kind, row_len};

/// How many bytes the longest key of the column at a place has, 0 where there is none.
fn longest_key(columns: &[Column], place: u16) -> u32
    ensures { result ≡ longest_key_of columns.now place }
{
    match columns.get(usize::from(place)) {
        Some(column) => key_most(column.kind),
        None => 0,
    }
}

/// Whether the keys of these indexes take at most an eighth of a page of this size.
fn do_indexes_fit(size: u32, columns: &[Column], indexes: &[Index]) -> bool
    ensures { IsTrue result
        ↔ EachIndex (λ index. longest_key_of columns.now index.column ≤ size / 8) indexes.now }
{
    let mut rest = indexes;
    while let Some((index, later)) = rest.split_first() {
        if longest_key(columns, index.column) > size / 8 {
            return false;
        }
        rest = later;
    }
    true
}

/// Whether a row of a table takes at most half a page of this size, and a key at most an eighth.
fn fits_pages(size: u32, table: &Table) -> bool
    requires { length table.now.shape.columns ≤ MOST_COLUMNS }
    ensures { IsTrue result ↔ FitsPages size table.now }
{
    let columns = table.shape.columns.as_slice();
    row_len(&table.shape) <= size / 2
        && longest_key(columns, table.shape.key) <= size / 8
        && do_indexes_fit(size, columns, table.indexes.as_slice())
}

/// Whether each of these tables fits pages of this size.
pub(crate) fn do_tables_fit(size: u32, tables: &[Table]) -> bool
    requires { EachTable HasFewColumns tables.now }
    ensures { IsTrue result ↔ EachTable (FitsPages size) tables.now }
{
    let mut rest = tables;
    while let Some((table, later)) = rest.split_first() {
        if !fits_pages(size, table) {
            return false;
        }
        rest = later;
    }
    true
}

/// Whether two kinds are one.
fn is_same_kind(a: Kind, b: Kind) -> bool
    ensures { IsTrue result ↔ (a ≡ b) }
{
    match a {
        Kind::Int => match b {
            Kind::Int => true,
            Kind::Text(_) => false,
        },
        Kind::Text(most) => match b {
            Kind::Int => false,
            Kind::Text(other) => most == other,
        },
    }
}

/// Whether two columns are one.
fn is_same_column(a: &Column, b: &Column) -> bool
    ensures { IsTrue result ↔ (a.now ≡ b.now) }
{
    a.name.as_slice() == b.name.as_slice()
        && is_same_kind(a.kind, b.kind)
        && a.not_null == b.not_null
        && a.since == b.since
}

/// Whether two lists of columns are one.
fn are_same_columns(a: &[Column], b: &[Column]) -> bool
    ensures { IsTrue result ↔ (a.now ≡ b.now) }
{
    let mut rest = a;
    let mut others = b;
    while let Some((column, later)) = rest.split_first() {
        let Some((other, more)) = others.split_first() else {
            return false;
        };
        if !is_same_column(column, other) {
            return false;
        }
        rest = later;
        others = more;
    }
    others.is_empty()
}

/// Whether two tables have one name, one shape and one first page.
fn is_same_table(a: &Table, b: &Table) -> bool
    ensures { IsTrue result ↔ IsSameTable a.now b.now }
{
    a.name.as_slice() == b.name.as_slice()
        && are_same_columns(a.shape.columns.as_slice(), b.shape.columns.as_slice())
        && a.shape.key == b.shape.key
        && a.pointer.0 == b.pointer.0
}

/// Whether a table is one of these, but for its indexes.
fn stays_among(tables: &[Table], table: &Table) -> bool
    ensures { IsTrue result ↔ StaysAmong tables.now table.now }
{
    let mut rest = tables;
    while let Some((other, later)) = rest.split_first() {
        if is_same_table(other, table) {
            return true;
        }
        rest = later;
    }
    false
}

/// Whether each of these tables is one of others, but for its indexes.
pub(crate) fn do_tables_stay(tables: &[Table], others: &[Table]) -> bool
    ensures { IsTrue result ↔ EachTable (StaysAmong others.now) tables.now }
{
    let mut rest = tables;
    while let Some((table, later)) = rest.split_first() {
        if !stays_among(others, table) {
            return false;
        }
        rest = later;
    }
    true
}

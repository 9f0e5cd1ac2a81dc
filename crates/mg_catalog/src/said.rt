//! The rows of the catalog that say a table.

ghost use Rattle.std.specs.Prelude.{◌≡◌, ◌<◌, ◌≤◌, ◌^◌, ◌∷◌, ◌++◌, IfOk, OnOk, length};
ghost use Rattle.mg_value.specs.declared.shape.TheConstants.{MOST_COLUMNS as MOST};
ghost use Rattle.mg_value.specs.declared.value.Value.TheVariants.{Null as NoValue, Text as AnyText};
ghost use Rattle.mg_model.specs.Catalog.{column_key as key_of_column};
ghost use Rattle.mg_model.specs.CatalogRules.{catalog_row};
ghost use Rattle.mg_catalog.specs.RowsSaid.{column_row, column_rows, flags_of, index_row, index_rows, length_of, other_indexes, primary_root, rows_said, table_row};

use mg_base::Memory;
use mg_model::{Index, Table};
use mg_value::{Column, Kind, Name, Row, Txt, Value, ValueFault};
use std::alloc::Global;

/// A text of the catalog has at most this many bytes: a key with a letter, a name and 3 bytes more.
const MOST_TEXT: u16 = 40;

/// The numbers of a catalog row.
#[derive(Clone, Copy)]
struct Numbers {
    a: u32,
    b: u32,
    c: u32,
    d: u32,
}

/// A text.
fn text_of(alloc: Global, bytes: &[u8]) -> Result<Value, Memory>
    requires { length bytes.now ≤ MOST_TEXT }
    ensures { IfOk result (λ value. value ≡ AnyText bytes.now) }
{
    match Txt::new(alloc, bytes, MOST_TEXT) {
        Ok(text) => Ok(Value::Text(text)),
        Err(ValueFault::Memory) => Err(Memory),
        Err(ValueFault::TextTooLong { .. }) => unreachable!(),
    }
}

/// A key of a letter and a name.
fn named_key(alloc: Global, letter: u8, name: &Name) -> Result<Value, Memory>
    ensures { IfOk result (λ key. key ≡ AnyText (letter ∷ name.now)) }
{
    let mut text = Vec::new(alloc);
    text.push(letter)?;
    text.extend_from_slice(name.as_slice())?;
    text_of(alloc, &text)
}

/// The key of a table's column at a place.
fn column_key(alloc: Global, table: &Name, place: u32) -> Result<Value, Memory>
    requires { place < 100 }
    ensures { IfOk result (λ key. key ≡ key_of_column table.now place) }
{
    let mut text = Vec::new(alloc);
    text.push(b'C')?;
    text.extend_from_slice(table.as_slice())?;
    text.push(b'.')?;
    text.push(b'0' + (place / 10) as u8)?;
    text.push(b'0' + (place % 10) as u8)?;
    text_of(alloc, &text)
}

/// The row of a key, a second value and four numbers.
fn row_of(alloc: Global, key: Value, said: Value, numbers: Numbers) -> Result<Row, Memory>
    ensures { IfOk result (λ row.
        row ≡ catalog_row key said numbers.a numbers.b numbers.c numbers.d) }
{
    let values = vec![in alloc;
        key,
        said,
        Value::Int(i64::from(numbers.a)),
        Value::Int(i64::from(numbers.b)),
        Value::Int(i64::from(numbers.c)),
        Value::Int(i64::from(numbers.d)),
    ]?;
    Ok(Row::new(values))
}

/// How many bytes a VARCHAR has at most, 0 for BIGINT.
fn most_of(kind: Kind) -> u32
    ensures { result ≡ length_of kind }
{
    match kind {
        Kind::Int => 0,
        Kind::Text(most) => u32::from(most),
    }
}

/// The flags of a column.
fn flags(is_key: bool, not_null: bool) -> u32
    ensures { result ≡ flags_of is_key not_null }
{
    if is_key {
        3
    } else if not_null {
        1
    } else {
        0
    }
}

/// The row of a column at a place.
fn said_column(
    alloc: Global,
    table: &Name,
    key: u16,
    place: u32,
    column: &Column,
) -> Result<Row, Memory>
    requires { place < 100 }
    ensures { IfOk result (λ row. row ≡ column_row table.now key place column.now) }
{
    let key_of_row = column_key(alloc, table, place)?;
    let name = text_of(alloc, column.name.as_slice())?;
    let numbers = Numbers {
        a: most_of(column.kind),
        b: flags(place == u32::from(key), column.not_null),
        c: u32::from(column.since),
        d: place,
    };
    row_of(alloc, key_of_row, name, numbers)
}

/// The row of an index of a table.
fn said_index(alloc: Global, table: &Name, index: &Index) -> Result<Row, Memory>
    ensures { IfOk result (λ row. row ≡ index_row table.now index.now) }
{
    let key = named_key(alloc, b'I', &index.name)?;
    let name = text_of(alloc, table.as_slice())?;
    let numbers = Numbers {
        a: index.root.0,
        b: u32::from(index.column),
        c: 0,
        d: 0,
    };
    row_of(alloc, key, name, numbers)
}

/// Adds the rows of columns.
fn add_columns(
    alloc: Global,
    rows: &mut Vec<Row>,
    table: &Name,
    key: u16,
    columns: &[Column],
) -> Result<(), Memory>
    requires { length columns.now ≤ MOST }
    ensures { OnOk result
        (rows.new.items ≡ rows.old.items ++ column_rows table.now key 0 columns.now) }
{
    let mut rest = columns;
    let mut place = 0;
    while let Some((column, later)) = rest.split_first() {
        rows.push(said_column(alloc, table, key, place, column)?)?;
        place += 1;
        rest = later;
    }
    Ok(())
}

/// Adds the rows of indexes.
fn add_indexes(
    alloc: Global,
    rows: &mut Vec<Row>,
    table: &Name,
    indexes: &[Index],
) -> Result<(), Memory>
    ensures { OnOk result (rows.new.items ≡ rows.old.items ++ index_rows table.now indexes.now) }
{
    let mut rest = indexes;
    while let Some((index, later)) = rest.split_first() {
        rows.push(said_index(alloc, table, index)?)?;
        rest = later;
    }
    Ok(())
}

/// The root of the primary index, 0 where there is none.
fn root_of(table: &Name, indexes: &[Index]) -> u32
    ensures { result ≡ primary_root table.now indexes.now }
{
    let Some((first, _)) = indexes.split_first() else {
        return 0;
    };
    if first.name.as_slice() == table.as_slice() {
        first.root.0
    } else {
        0
    }
}

/// The indexes without the primary one.
fn others_of<'a>(table: &Name, indexes: &'a [Index]) -> &'a [Index]
    ensures { result.now ≡ other_indexes table.now indexes.now }
{
    let Some((first, others)) = indexes.split_first() else {
        return indexes;
    };
    if first.name.as_slice() == table.as_slice() {
        others
    } else {
        indexes
    }
}

/// The row of a table, which is lent its indexes without the primary one.
fn said_table(alloc: Global, t: &Table, others: &[Index]) -> Result<Row, Memory>
    requires few { length t.now.shape.columns ≤ MOST }
    requires others { others.now ≡ other_indexes t.now.name t.now.indexes }
    requires most { length others.now < 2 ^ 32 }
    ensures { IfOk result (λ row. row ≡ table_row t.now) }
{
    let key = named_key(alloc, b'T', &t.name)?;
    let numbers = Numbers {
        a: t.pointer.0,
        b: t.shape.columns.as_slice().len() as u32,
        c: root_of(&t.name, t.indexes.as_slice()),
        d: others.len() as u32,
    };
    row_of(alloc, key, Value::Null, numbers)
}

/// The rows of the catalog that say a table: those of its columns, of its indexes beside the
/// primary one, and its own. An index that stands first and has the table's name is the primary one.
///
/// # Errors
///
/// `Memory` only.
pub fn rows_of(alloc: Global, t: &Table) -> Result<Vec<Row>, Memory>
    requires columns { length t.now.shape.columns ≤ MOST }
    requires indexes { length t.now.indexes < 2 ^ 32 }
    ensures { IfOk result (λ rows. rows.items ≡ rows_said t.now) }
{
    let others = others_of(&t.name, t.indexes.as_slice());
    let mut rows = Vec::new(alloc);
    add_columns(
        alloc,
        &mut rows,
        &t.name,
        t.shape.key,
        t.shape.columns.as_slice(),
    )?;
    add_indexes(alloc, &mut rows, &t.name, others)?;
    rows.push(said_table(alloc, t, others)?)?;
    Ok(rows)
}

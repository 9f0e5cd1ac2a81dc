//! What a write stores.

ghost use Rattle.std.specs.Prelude.{◌≡◌, ◌≢◌, ◌≤◌, ◌<◌, ◌↔◌, [], false, IfOk, IsTrue, MatchOption, MatchResult, length};
ghost use Rattle.mg_image.specs.RecordRules.{erased_from};
ghost use Rattle.mg_model.specs.Catalog.{key_of, table_key as table_key_of};
ghost use Rattle.mg_records.specs.Writing.{FitsShape};
ghost use Rattle.mg_value.specs.Rows.{RowFits};
ghost use Rattle.mg_row_writes.specs.Storing.{IsStored, MayBeStored as may_be_stored_by, StoresRow, alone_at, written_at};

use mg_base::{Bytes, Memory, PageNo, TxNo};
use mg_model::Table;
use mg_records::Write;
use mg_rowcode::encode_row;
use mg_value::{Column, Columns, Key, Name, Row, Shape, Txt, Value, ValueFault};
use mg_version::Version;
use std::alloc::Global;

/// The key under which a write puts a row, or deletes one. None exactly where it is NULL.
///
/// # Errors
///
/// `Memory` only.
pub fn written_key(alloc: Global, table: &Table, write: &Write) -> Result<Option<Key>, Memory>
    ensures { IfOk result (λ key. MatchOption key (written_at table.now write.now ≡ Value.Null)
        (λ its. its ≡ written_at table.now write.now)) }
{
    match write {
        Write::Insert(row) => Ok(Key::new(key_in(alloc, &table.shape, row)?)),
        Write::Change(key, _) => Ok(Some(key.copy(alloc)?)),
        Write::Erase(key) => Ok(Some(key.copy(alloc)?)),
    }
}

/// The value of a row at the place of the key, NULL where it has none there.
fn key_in(alloc: Global, shape: &Shape, row: &Row) -> Result<Value, Memory>
    ensures { IfOk result (λ key. key ≡ key_of shape.now row.now) }
{
    match row.as_slice().get(usize::from(shape.key)) {
        None => Ok(Value::Null),
        Some(value) => value.copy(alloc),
    }
}

/// The version that a transaction's write stores.
///
/// # Errors
///
/// `Memory` only.
pub fn stored_version(
    alloc: Global,
    table: &Table,
    t: TxNo,
    write: &Write,
) -> Result<Version, Memory>
    requires fits { FitsShape table.now.shape write.now }
    ensures { IfOk result (IsStored table.now t.0 write.now) }
{
    match write {
        Write::Insert(row) => version_of(alloc, &table.shape, row, t, false),
        Write::Change(_, row) => version_of(alloc, &table.shape, row, t, false),
        Write::Erase(key) => {
            let shape = erased_shape(alloc, &table.shape)?;
            let row = key_alone(alloc, &table.shape, key.value())?;
            version_of(alloc, &shape, &row, t, true)
        }
    }
}

/// A version that stores a row under a shape.
fn version_of(
    alloc: Global,
    shape: &Shape,
    row: &Row,
    t: TxNo,
    deleted: bool,
) -> Result<Version, Memory>
    requires { RowFits shape.now.columns row.now }
    ensures apart { IfOk result (λ v. v.primary ≡ false) }
    ensures its { IfOk result (λ v. v.tx.0 ≡ t.0) }
    ensures format { IfOk result (λ v. v.format ≡ 1) }
    ensures deleted { IfOk result (λ v. v.deleted ≡ deleted) }
    ensures stores { IfOk result (StoresRow shape.now.columns row.now) }
{
    let mut body = Vec::new(alloc);
    encode_row(shape, row, &mut body)?;
    Ok(Version {
        primary: false,
        deleted,
        format: 1,
        tx: t,
        back: None,
        body: Bytes::new(body),
    })
}

/// The shape under which the row of a deletion stands: each column but the key may be NULL.
fn erased_shape(alloc: Global, shape: &Shape) -> Result<Shape, Memory>
    ensures { IfOk result (λ erased. erased.columns ≡ erased_from shape.now.key 0 shape.now.columns) }
{
    let columns = erased_columns(alloc, shape.columns.as_slice(), usize::from(shape.key))?;
    Ok(Shape {
        columns: Columns::new(columns),
        key: shape.key,
    })
}

/// The columns, each as one that allows NULL but for that at the key's place.
fn erased_columns(alloc: Global, columns: &[Column], key: usize) -> Result<Vec<Column>, Memory>
    ensures { IfOk result (λ erased. erased.items ≡ erased_from key 0 columns.now) }
{
    let mut erased = Vec::new(alloc);
    for (at, column) in columns.iter().enumerate() {
        erased.push(Column {
            name: column.name,
            kind: column.kind,
            not_null: column.not_null && at == key,
            since: column.since,
        })?;
    }
    Ok(erased)
}

/// The row that has a key alone, and NULL elsewhere.
fn key_alone(alloc: Global, shape: &Shape, key: &Value) -> Result<Row, Memory>
    ensures { IfOk result (λ row. row ≡ alone_at shape.now.key 0 key.now shape.now.columns) }
{
    let values = values_alone(alloc, shape.columns.as_slice(), usize::from(shape.key), key)?;
    Ok(Row::new(values))
}

/// A value for each column: the key at its place, and NULL elsewhere.
fn values_alone(
    alloc: Global,
    columns: &[Column],
    place: usize,
    key: &Value,
) -> Result<Vec<Value>, Memory>
    ensures { IfOk result (λ values. values.items ≡ alone_at place 0 key.now columns.now) }
{
    let mut values = Vec::new(alloc);
    for (at, _) in columns.iter().enumerate() {
        if at == place {
            values.push(key.copy(alloc)?)?;
        } else {
            values.push(Value::Null)?;
        }
    }
    Ok(values)
}

/// Tells whether a version may be stored in a table that begins at this page: a page has room for it. A lawful
/// row of a lawful table takes at most half a page.
pub fn may_be_stored(size: u32, owner: PageNo, v: &Version) -> bool
    ensures { IsTrue result ↔ may_be_stored_by size owner.0 v.now }
{
    owner.0 != 0 && size >= 42 && v.body.len() <= size as usize - 42
}

/// The key of a table's row of the catalog.
///
/// # Errors
///
/// `Memory` only.
pub fn table_key(alloc: Global, name: &Name) -> Result<Value, Memory>
    ensures { IfOk result (λ key. key ≡ table_key_of name.now) }
{
    let mut bytes = Vec::new(alloc);
    bytes.extend_from_slice(b"T")?;
    bytes.extend_from_slice(name.as_slice())?;
    match Txt::new(alloc, &bytes, u16::MAX) {
        Ok(text) => Ok(Value::Text(text)),
        Err(ValueFault::Memory) => Err(Memory),
        Err(ValueFault::TextTooLong { .. }) => unreachable!(),
    }
}

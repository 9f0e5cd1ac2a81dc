//! The row of a version, and its key.

ghost use Rattle.std.specs.Prelude.{◌≡◌, ◌≤◌, ◌↔◌, IfErr, IfOk, IsTrue, MatchResult, length};
ghost use Rattle.mg_chain.specs.Refusals.{damage, length_wanted as length_wanted_of};
ghost use Rattle.mg_image.specs.Records.{key_of};
ghost use Rattle.mg_image.specs.RecordRules.{columns_for};
ghost use Rattle.mg_rowcode.specs.Faults.{DecodesTo};
ghost use Rattle.mg_rowcode.specs.Storable.{AreStorable};
ghost use Rattle.mg_slots.specs.declared.page.TheConstants.{GREATEST_SIZE};
ghost use Rattle.mg_value.specs.Rows.{columns_of, row_len_of};
ghost use Rattle.mg_seek.specs.Rows.{GivesRow, IsBodyDamage, RefusesBody, RefusesRowOf};

use crate::erased::erased_shape;
use crate::walk::Placed;
use mg_base::{Damaged, Field, Memory};
use mg_chain::length_wanted;
use mg_model::Table;
use mg_pool::PoolFault;
use mg_rowcode::{RowFault, decode_row};
use mg_space::SpaceFault;
use mg_value::{Column, MOST_COLUMNS, Row, Shape, Value, columns_len, order, values_are_ordered};
use std::alloc::Global;
use std::cmp::Ordering;

/// The row of a version of a table.
///
/// # Errors
///
/// `Damaged` at the page where the version stands: at `Run` where its body is no packed text, with the
/// place of the first bad run and the length of the body; at `Row` where unpacked it is no row, with
/// the length of its longest front with which one begins, and the length of a row. `Pool` with
/// `Memory`.
pub fn row_of(alloc: Global, table: &Table, placed: &Placed) -> Result<Row, SpaceFault>
    requires columns { length table.now.shape.columns ≤ MOST_COLUMNS }
    requires short { length placed.now.version.body ≤ GREATEST_SIZE }
    ensures { MatchResult result (GivesRow table.now placed.now.version)
        (RefusesRowOf table.now placed.now) }
{
    if placed.version.deleted {
        let shape = erased_shape(alloc, &table.shape)?;
        return coded_row(alloc, &shape, placed);
    }
    coded_row(alloc, &table.shape, placed)
}

/// The row that the body of a version codes, of a shape.
fn coded_row(alloc: Global, shape: &Shape, placed: &Placed) -> Result<Row, SpaceFault>
    requires columns { length shape.now.columns ≤ MOST_COLUMNS }
    requires short { length placed.now.version.body ≤ GREATEST_SIZE }
    ensures coded { IfOk result (λ row. DecodesTo shape.now.columns placed.now.version.format
        placed.now.version.body row) }
    ensures storable { IfOk result AreStorable }
    ensures refused { IfErr result (RefusesBody shape.now.columns placed.now) }
{
    let version = &placed.version;
    match decode_row(alloc, shape, version.format, version.body.as_slice()) {
        Ok(row) => Ok(row),
        Err(RowFault::Memory) => Err(SpaceFault::Pool(PoolFault::Memory)),
        Err(RowFault::BadRun { at }) => {
            let len = version.body.len();
            Err(SpaceFault::Damaged(body_damage(placed, Field::Run, at, len)))
        }
        Err(RowFault::BadRow { at }) => {
            let len = stored_len(shape.columns.as_slice(), version.format);
            Err(SpaceFault::Damaged(body_damage(placed, Field::Row, at, len)))
        }
    }
}

/// The damage of a body at the page where its version stands.
fn body_damage(placed: &Placed, field: Field, at: u32, len: usize) -> Damaged
    ensures { result ≡ damage placed.now.at.page.0 field at (length_wanted_of at len) }
{
    Damaged {
        page: placed.at.page,
        field,
        found: u64::from(at),
        wanted: length_wanted(at, len),
    }
}

/// How many bytes a row of a format has.
fn stored_len(columns: &[Column], format: u16) -> usize
    requires { length columns.now ≤ MOST_COLUMNS }
    ensures { result ≡ row_len_of (columns_of columns.now format) }
{
    columns_len(columns_in(columns, format))
}

/// The columns that rows of a format have.
fn columns_in(columns: &[Column], format: u16) -> &[Column]
    ensures is { result.now ≡ columns_of columns.now format }
    ensures len { length result.now ≤ length columns.now }
{
    let mut count = 0;
    while count < columns.len() && columns[count].since <= format {
        count += 1;
    }
    &columns[..count]
}

/// Tells whether a row of a table has a key.
pub(crate) fn has_key(table: &Table, row: &Row, key: &Value) -> bool
    ensures { IsTrue result ↔ (key_of table.now row.now ≡ key.now) }
{
    values_are_ordered();
    match row.as_slice().get(usize::from(table.shape.key)) {
        None => key.is_null(),
        Some(value) => is_same(value, key),
    }
}

/// Tells whether two values are equal.
fn is_same(a: &Value, b: &Value) -> bool
    ensures { IsTrue result ↔ (a.now ≡ b.now) }
{
    values_are_ordered();
    matches!(order(a, b), Ordering::Equal)
}

/// A copy of the key of a row.
pub(crate) fn key_copy(alloc: Global, table: &Table, row: &Row) -> Result<Value, Memory>
    ensures { IfOk result (λ key. key ≡ key_of table.now row.now) }
{
    match row.as_slice().get(usize::from(table.shape.key)) {
        None => Ok(Value::Null),
        Some(value) => value.copy(alloc),
    }
}

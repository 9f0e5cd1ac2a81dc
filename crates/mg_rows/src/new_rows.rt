//! The rows that an INSERT and an UPDATE make.

ghost use Rattle.std.specs.Prelude.{◌≡◌, map, length, slice_set, IfOk};
ghost use Rattle.mg_expr.specs.Trees.{tree_of};
ghost use Rattle.mg_expr.specs.Outcomes.{Answers};
ghost use Rattle.mg_rows.specs.Selecting.{each_value as each_value_of};
ghost use Rattle.mg_rows.specs.NewRows.{null_row as null_row_of, put_all as put_all_in, has_null as has_null_in, too_long as too_long_in, first_too_long as first_too_long_in, row_fault as row_fault_of, row_with, new_row, inserted, updated, Makes};

use crate::NewRowFault;
use crate::filling::push;
use crate::selecting::each_value;
use mg_base::Memory;
use mg_expr::{EvalFault, Expr, evaluate};
use mg_statements::Assign;
use mg_value::{Column, Kind, Row, Value};
use std::alloc::Global;

/// A row with NULL in each column.
fn null_row(alloc: Global, columns: &[Column]) -> Result<Row, Memory>
    ensures { IfOk result (λ row. row ≡ null_row_of columns.now) }
{
    let mut values = Vec::new(alloc);
    for _ in columns {
        values.push(Value::Null)?;
    }
    Ok(Row::new(values))
}

/// Sets the value in a column; a place past the end has none.
fn set(row: &mut Vec<Value>, place: u16, value: Value)
    ensures { row.new.items ≡ slice_set row.old.items place value }
{
    if let Some(slot) = row.get_mut(place as usize) {
        *slot = value;
    }
}

/// Sets the values in the columns at these places.
fn put_all(row: &mut Vec<Value>, places: &[u16], values: Vec<Value>)
    requires { length places.now ≡ length values.items }
    ensures { row.new.items ≡ put_all_in places.now values.items row.old.items }
{
    let mut places = places;
    let mut values = values;
    while let Some(value) = values.pop() {
        let Some((place, earlier)) = places.split_last() else {
            return;
        };
        set(row, *place, value);
        places = earlier;
    }
}

/// Tells whether a NOT NULL column has NULL.
fn has_null(columns: &[Column], row: &[Value]) -> bool
    ensures { result ≡ has_null_in columns.now row.now }
{
    let mut rest = row;
    for column in columns {
        let Some((value, later)) = rest.split_first() else {
            return false;
        };
        if column.not_null && value.is_null() {
            return true;
        }
        rest = later;
    }
    false
}

/// The fault of a text that is longer than its column.
fn too_long(kind: Kind, value: &Value) -> Option<NewRowFault>
    ensures { result ≡ too_long_in kind value.now }
{
    let Kind::Text(most) = kind else {
        return None;
    };
    let Value::Text(text) = value else {
        return None;
    };
    let len = text.as_slice().len();
    if len <= most as usize {
        return None;
    }
    Some(NewRowFault::TextTooLong {
        len: len.min(u32::MAX as usize) as u32,
        most: u32::from(most),
    })
}

/// The first column whose text is too long.
fn first_too_long(columns: &[Column], row: &[Value]) -> Option<NewRowFault>
    ensures { result ≡ first_too_long_in columns.now row.now }
{
    let mut rest = row;
    for column in columns {
        let (value, later) = rest.split_first()?;
        let fault = too_long(column.kind, value);
        if fault.is_some() {
            return fault;
        }
        rest = later;
    }
    None
}

/// Why a row may not stand in a table.
fn row_fault(columns: &[Column], row: &[Value]) -> Option<NewRowFault>
    ensures { result ≡ row_fault_of columns.now row.now }
{
    if has_null(columns, row) {
        return Some(NewRowFault::NullNotAllowed);
    }
    first_too_long(columns, row)
}

/// The row that values make of an older one.
fn make_row(columns: &[Column], places: &[u16], values: Row, row: Row) -> Result<Row, NewRowFault>
    requires { length places.now ≡ length values }
    ensures { Makes (λ row. row) (row_with columns.now places.now (Some values) row) result }
{
    let mut made = row.into_vec();
    put_all(&mut made, places, values.into_vec());
    match row_fault(columns, &made) {
        Some(fault) => Err(fault),
        None => Ok(Row::new(made)),
    }
}

/// The row that an INSERT makes, of a table with these columns: the values of the expressions in the
/// columns at their places, and NULL in the others. The expressions name no column.
///
/// # Errors
///
/// `Arithmetic` exactly where an expression faults; else `NullNotAllowed` exactly where a NOT NULL
/// column would be NULL; else `TextTooLong` exactly where a text is longer than its column, the first
/// such column in the order of places; or `Memory`.
pub fn insert_row(
    alloc: Global,
    columns: &[Column],
    places: &[u16],
    values: &[Expr],
) -> Result<Row, NewRowFault>
    requires { length places.now ≡ length values.now }
    ensures { Makes (λ row. row) (inserted columns.now places.now (map tree_of values.now)) result }
{
    let values = each_value(alloc, values, &Row::new(Vec::new(alloc)))?;
    make_row(columns, places, values, null_row(alloc, columns)?)
}

/// The values that an UPDATE sets, at a row.
fn each_set(alloc: Global, sets: &[Assign], row: &Row) -> Result<Row, EvalFault>
    ensures { Answers (each_value_of (map (λ set. tree_of set.value) sets.now) row.now) result }
{
    let mut out = Vec::new(alloc);
    for set in sets {
        push(&mut out, evaluate(alloc, &set.value, row)?)?;
    }
    Ok(Row::new(out))
}

/// The row that an UPDATE makes of an older one.
fn update_row(
    alloc: Global,
    columns: &[Column],
    places: &[u16],
    sets: &[Assign],
    row: &Row,
) -> Result<Row, NewRowFault>
    requires { length places.now ≡ length sets.now }
    ensures { Makes (λ row. row)
        (new_row columns.now places.now (map (λ set. tree_of set.value) sets.now) row.now) result }
{
    let values = each_set(alloc, sets, row)?;
    make_row(columns, places, values, row.copy(alloc)?)
}

/// The rows that an UPDATE makes of those found, in their order: the values of its expressions in the
/// columns at their places, all evaluated at the old row, and the old values in the others.
///
/// # Errors
///
/// The fault of the first row that has one, which is told as `insert_row` tells it; or `Memory`.
pub fn update_rows(
    alloc: Global,
    columns: &[Column],
    places: &[u16],
    sets: &[Assign],
    found: &[Row],
) -> Result<Vec<Row>, NewRowFault>
    requires { length places.now ≡ length sets.now }
    ensures { Makes (λ rows. rows.items)
        (updated columns.now places.now (map (λ set. tree_of set.value) sets.now) found.now) result }
{
    let mut made = Vec::new(alloc);
    for row in found {
        push(&mut made, update_row(alloc, columns, places, sets, row)?)?;
    }
    Ok(made)
}

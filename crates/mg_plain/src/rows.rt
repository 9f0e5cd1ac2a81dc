//! The rows of a table in key order, made from changes.

ghost use Rattle.std.specs.Prelude.{◌≡◌, ◌<◌, ◌≤◌, OnOk, length, true, [], ◌∷◌};
ghost use Rattle.std.specs.Option.{option_copied};
ghost use Rattle.mg_model.specs.Changes.{put_row as put_row_of, rows_over};
ghost use Rattle.mg_model.specs.Machine.{changes_by};
ghost use Rattle.mg_plain.specs.Places.{IsPlace, without_row, with_row_at};

use crate::lookup::{change_of, same_name};
use mg_base::Memory;
use mg_model::{Change, Step};
use mg_value::{Row, Value, order};
use std::alloc::Global;
use std::cmp::Ordering;

/// The place of a key among rows in key order, and whether the row there has the key.
fn place_of(rows: &[(Value, Row)], key: &Value) -> (usize, bool)
    ensures { IsPlace rows.now key.now result.0 result.1 }
{
    for (place, row) in rows.iter().enumerate() {
        match order(key, &row.0) {
            Ordering::Less => return (place, false),
            Ordering::Equal => return (place, true),
            Ordering::Greater => {}
        }
    }
    (rows.len(), false)
}

/// Takes out the row at a place, if it was found there.
fn take_out(rows: &mut Vec<(Value, Row)>, place: usize, found: bool)
    requires { found ≡ true → place < length rows.old.items }
    ensures { rows.new.items ≡ without_row place found rows.old.items }
{
    if found {
        rows.remove(place);
    }
}

/// Puts in a row at a place, if there is one.
fn put_in(
    alloc: Global,
    rows: &mut Vec<(Value, Row)>,
    place: usize,
    key: &Value,
    row: Option<&Row>,
) -> Result<(), Memory>
    requires { place ≤ length rows.old.items }
    ensures { OnOk result
        (rows.new.items ≡ with_row_at place key.now (option_copied row.entry) rows.old.items) }
{
    let Some(row) = row else {
        return Ok(());
    };
    rows.insert(place, (key.copy(alloc)?, row.copy(alloc)?))?;
    Ok(())
}

/// The key has this row now, or none.
fn put_row(
    alloc: Global,
    rows: &mut Vec<(Value, Row)>,
    key: &Value,
    row: Option<&Row>,
) -> Result<(), Memory>
    ensures { OnOk result
        (rows.new.items ≡ put_row_of key.now (option_copied row.entry) rows.old.items) }
{
    let (place, found) = place_of(rows, key);
    take_out(rows, place, found);
    put_in(alloc, rows, place, key, row)
}

/// Puts a change into the rows of a table, if it is one of the table's.
fn put_change(
    alloc: Global,
    rows: &mut Vec<(Value, Row)>,
    change: &Change,
    table: &[u8],
) -> Result<(), Memory>
    ensures { OnOk result (rows.new.items ≡ rows_over (change.now ∷ []) table.now rows.old.items) }
{
    if same_name(change.table.as_slice(), table) {
        put_row(alloc, rows, &change.key, change.row.as_ref())?;
    }
    Ok(())
}

/// Puts changes into the rows of a table, from the oldest to the newest.
pub fn put_changes(
    alloc: Global,
    rows: &mut Vec<(Value, Row)>,
    changes: &[Change],
    table: &[u8],
) -> Result<(), Memory>
    ensures { OnOk result (rows.new.items ≡ rows_over changes.now table.now rows.old.items) }
{
    let mut rest = changes;
    while let Some((last, before)) = rest.split_last() {
        put_change(alloc, rows, last, table)?;
        rest = before;
    }
    Ok(())
}

/// Puts the changes that a transaction made into the rows of a table.
pub fn put_steps(
    alloc: Global,
    rows: &mut Vec<(Value, Row)>,
    steps: &[Step],
    by: u32,
    table: &[u8],
) -> Result<(), Memory>
    ensures { OnOk result (rows.new.items ≡ rows_over (changes_by by steps.now) table.now rows.old.items) }
{
    let mut rest = steps;
    while let Some((last, before)) = rest.split_last() {
        put_step(alloc, rows, last, by, table)?;
        rest = before;
    }
    Ok(())
}

/// Puts the change of a step into the rows of a table, if the transaction made one.
fn put_step(
    alloc: Global,
    rows: &mut Vec<(Value, Row)>,
    step: &Step,
    by: u32,
    table: &[u8],
) -> Result<(), Memory>
    ensures { OnOk result (rows.new.items ≡ rows_over (changes_by by (step.now ∷ [])) table.now rows.old.items) }
{
    if step.by.0 == by
        && let Some(change) = change_of(&step.deed)
    {
        put_change(alloc, rows, change, table)?;
    }
    Ok(())
}

//! The writes that a statement makes of the rows that it found.

ghost use Rattle.std.specs.Prelude.{◌≡◌, ◌≢◌, ◌==◌, ◌++◌, ◌∷◌, [], All, IfOk, MatchResult, OnOk, map, Ok, false, true};
ghost use Rattle.std.specs.List.{list_any};
ghost use Rattle.mg_expr.specs.Trees.{tree_of};
ghost use Rattle.mg_expr.specs.Typing.{sort_of};
ghost use Rattle.mg_plan.specs.Types.{fit_places};
ghost use Rattle.mg_model.specs.Catalog.{key_of as key_of_row};
ghost use Rattle.mg_records.specs.declared.write.Write.TheVariants as writes;
ghost use Rattle.mg_records.specs.Reading.{MayStand};
ghost use Rattle.mg_records.specs.Writing.{FitsShape};
ghost use Rattle.mg_value.specs.declared.value.Value.TheVariants.{Null};
ghost use Rattle.mg_exec.specs.Phases.{AllMayStand, IsBoundTo};
ghost use Rattle.mg_exec.specs.Making.{AreMade, MakesNone, insertion_of, changes_of, erasures_of, writes_made};
ghost use Rattle.mg_rows.specs.NewRows.{inserted, updated};

use mg_base::Memory;
use mg_expr::Expr;
use mg_model::Table;
use mg_plan::Bound;
use mg_records::Write;
use mg_rows::{NewRowFault, insert_row, new_rows_fit, update_rows};
use mg_statements::{Assign, Statement};
use mg_value::{Key, Row, Shape};
use std::alloc::Global;
use std::collections::VecDeque;

/// The key of a row.
///
/// # Errors
///
/// `Memory` only.
fn key_of(alloc: Global, shape: &Shape, row: &Row) -> Result<Key, Memory>
    requires { key_of_row shape.now row.now ≢ Null }
    ensures { IfOk result (λ key. key ≡ key_of_row shape.now row.now) }
{
    let Some(value) = row.as_slice().get(shape.key as usize) else {
        unreachable!();
    };
    match Key::new(value.copy(alloc)?) {
        Some(key) => Ok(key),
        None => unreachable!(),
    }
}

/// The write by which the row with this row's key becomes this one.
///
/// # Errors
///
/// `Memory` only.
fn change(alloc: Global, shape: &Shape, row: Row) -> Result<Write, Memory>
    requires { MayStand shape.now row }
    ensures is { IfOk result (λ write. write ≡ writes.Change (key_of_row shape.now row) row) }
    ensures fits { IfOk result (FitsShape shape.now) }
{
    let key = key_of(alloc, shape, &row)?;
    Ok(Write::Change(key, row))
}

/// The write that deletes a row.
///
/// # Errors
///
/// `Memory` only.
#[tactic(auto, using(crate::proofs::MakingLemmas::key_fits))]
fn erasure(alloc: Global, shape: &Shape, row: &Row) -> Result<Write, Memory>
    requires { MayStand shape.now row.now }
    ensures is { IfOk result (λ write. write ≡ writes.Erase (key_of_row shape.now row.now)) }
    ensures fits { IfOk result (FitsShape shape.now) }
{
    Ok(Write::Erase(key_of(alloc, shape, row)?))
}

/// One write behind others.
fn push(list: &mut VecDeque<Write>, write: Write) -> Result<(), Memory>
    ensures { OnOk result (list.new.items ≡ list.old.items ++ write ∷ []) }
{
    match list.push_back(write) {
        Ok(()) => Ok(()),
        Err(_) => Err(Memory),
    }
}

/// The writes of an INSERT: its row is inserted.
fn insertions(alloc: Global, row: Row) -> Result<VecDeque<Write>, Memory>
    ensures { IfOk result (λ made. made.items ≡ writes.Insert row ∷ []) }
{
    let mut made = VecDeque::new(alloc);
    push(&mut made, Write::Insert(row))?;
    Ok(made)
}

/// The writes of an UPDATE: each of these rows stands in place of the one with its key.
fn changes(alloc: Global, shape: &Shape, rows: Vec<Row>) -> Result<VecDeque<Write>, Memory>
    requires { AllMayStand shape.now rows.items }
    ensures is { IfOk result (λ made. Ok made.items ≡ changes_of shape.now (Ok rows.items)) }
    ensures fits { IfOk result (λ made. All (FitsShape shape.now) made.items) }
{
    let mut made = VecDeque::new(alloc);
    for row in rows {
        push(&mut made, change(alloc, shape, row)?)?;
    }
    Ok(made)
}

/// The writes of a DELETE: each of these rows goes.
fn erasures(alloc: Global, shape: &Shape, rows: &[Row]) -> Result<VecDeque<Write>, Memory>
    requires { AllMayStand shape.now rows.now }
    ensures is { IfOk result (λ made. made.items ≡ erasures_of shape.now rows.now) }
    ensures fits { IfOk result (λ made. All (FitsShape shape.now) made.items) }
{
    let mut made = VecDeque::new(alloc);
    for row in rows {
        push(&mut made, erasure(alloc, shape, row)?)?;
    }
    Ok(made)
}

/// The writes that an INSERT makes of its values.
#[tactic(auto, using(crate::proofs::MakingLemmas::values_lengths, crate::proofs::MakingLemmas::fits_alone))]
fn insert_values(
    alloc: Global,
    shape: &Shape,
    places: &[u16],
    values: &[Expr],
) -> Result<VecDeque<Write>, NewRowFault>
    requires { fit_places shape.now.columns places.now
        (map (λ t. sort_of t []) (map tree_of values.now)) ≡ true }
    ensures { MatchResult result
        (λ made. AreMade (insertion_of (inserted shape.now.columns places.now (map tree_of values.now)))
        (FitsShape shape.now) made.items)
        (MakesNone (insertion_of (inserted shape.now.columns places.now (map tree_of values.now)))) }
{
    new_rows_fit();
    let row = insert_row(alloc, shape.columns.as_slice(), places, values)?;
    Ok(insertions(alloc, row)?)
}

/// The writes that an UPDATE makes of the rows that it found. All new rows are computed before the
/// first of them is written.
fn update_found(
    alloc: Global,
    shape: &Shape,
    places: &[u16],
    sets: &[Assign],
    found: &[Row],
) -> Result<VecDeque<Write>, NewRowFault>
    requires typed { fit_places shape.now.columns places.now
        (map (λ t. sort_of t shape.now.columns) (map (λ set. tree_of set.value) sets.now)) ≡ true }
    requires keys { list_any (λ place. place == shape.now.key) places.now ≡ false }
    requires rows { AllMayStand shape.now found.now }
    ensures { MatchResult result
        (λ made. AreMade (changes_of shape.now
        (updated shape.now.columns places.now (map (λ set. tree_of set.value) sets.now) found.now))
        (FitsShape shape.now) made.items)
        (MakesNone (changes_of shape.now
        (updated shape.now.columns places.now (map (λ set. tree_of set.value) sets.now) found.now))) }
{
    let rows = update_rows(alloc, shape.columns.as_slice(), places, sets, found)?;
    Ok(changes(alloc, shape, rows)?)
}

/// The writes that a statement makes of the rows that it found; an INSERT finds none.
///
/// # Errors
///
/// The fault of the first row that can't be made; or `Memory`.
pub fn make_writes(
    alloc: Global,
    table: &Table,
    bound: &Bound,
    found: &[Row],
) -> Result<VecDeque<Write>, NewRowFault>
    requires binds { IsBoundTo table.now bound.now }
    requires rows { AllMayStand table.now.shape found.now }
    ensures { MatchResult result
        (λ made. AreMade (writes_made table.now bound.now found.now) (FitsShape table.now.shape) made.items)
        (MakesNone (writes_made table.now bound.now found.now)) }
{
    let shape = &table.shape;
    match &bound.statement {
        Statement::Insert { values, .. } => insert_values(alloc, shape, &bound.places, values),
        Statement::Update { sets, .. } => update_found(alloc, shape, &bound.places, sets, found),
        Statement::Delete { .. } => Ok(erasures(alloc, shape, found)?),
        _ => Ok(VecDeque::new(alloc)),
    }
}

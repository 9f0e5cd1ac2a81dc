//! The rows that a SELECT of expressions answers.

ghost use Rattle.std.specs.Prelude.{◌≡◌, map, IfOk};
ghost use Rattle.mg_expr.specs.Trees.{tree_of};
ghost use Rattle.mg_expr.specs.Outcomes.{Answers};
ghost use Rattle.mg_statements.specs.Plain.{trees_in};
ghost use Rattle.mg_rows.specs.Selecting.{each_value as each_value_of, selected as selected_of, each_selected, Selects};

use crate::filling::push;
use crate::ordering::{OrderBy, sort_by_column};
use mg_base::Memory;
use mg_expr::{EvalFault, Expr, evaluate};
use mg_model::Rows;
use mg_value::Row;
use std::alloc::Global;

/// The values of expressions at a row.
pub(crate) fn each_value(alloc: Global, values: &[Expr], row: &Row) -> Result<Row, EvalFault>
    ensures { Answers (each_value_of (map tree_of values.now) row.now) result }
{
    let mut out = Vec::new(alloc);
    for e in values {
        push(&mut out, evaluate(alloc, e, row)?)?;
    }
    Ok(Row::new(out))
}

/// What a SELECT gives of a row: the values of its expressions, or the whole row.
fn select_one(alloc: Global, values: &Option<Vec<Expr>>, row: &Row) -> Result<Row, EvalFault>
    ensures { Answers (selected_of (trees_in values.now) row.now) result }
{
    match values {
        Some(values) => each_value(alloc, values, row),
        None => Ok(row.copy(alloc)?),
    }
}

/// What a SELECT gives of each of these rows.
fn select_each(alloc: Global, values: &Option<Vec<Expr>>, rows: &[Row]) -> Result<Rows, EvalFault>
    ensures { Answers (each_selected (trees_in values.now) rows.now) result }
{
    let mut out = Vec::new(alloc);
    for row in rows {
        push(&mut out, select_one(alloc, values, row)?)?;
    }
    Ok(Rows::new(out))
}

/// Equal rows.
fn copy_rows(alloc: Global, rows: &[Row]) -> Result<Vec<Row>, Memory>
    ensures { IfOk result (λ copied. copied.items ≡ rows.now) }
{
    let mut copied = Vec::new(alloc);
    for row in rows {
        copied.push(row.copy(alloc)?)?;
    }
    Ok(copied)
}

/// The rows that a SELECT answers: of the rows found, in its order, the values of its expressions;
/// the whole rows where `values` is None, for `*`. Without ORDER BY the rows keep their order. The
/// primary key's column is at the place `key`.
///
/// # Errors
///
/// `Arithmetic` exactly where an expression faults at one of the rows; or `Memory`.
pub fn select(
    alloc: Global,
    values: &Option<Vec<Expr>>,
    by: Option<OrderBy>,
    key: u16,
    found: &[Row],
) -> Result<Rows, EvalFault>
    ensures { Selects (trees_in values.now) by key found.now result }
{
    let Some(by) = by else {
        return select_each(alloc, values, found);
    };
    let mut sorted = copy_rows(alloc, found)?;
    sort_by_column(&mut sorted, by, key);
    select_each(alloc, values, &sorted)
}

//! What a SELECT answers.

ghost use Rattle.std.specs.Prelude.{◌≡◌, true, map};
ghost use Rattle.mg_statements.specs.Plain.{plain_of, total_of};
ghost use Rattle.mg_exec.specs.Phases.{is_select};
ghost use Rattle.mg_rows.specs.Answering.{order_of as order_by_of, Answers, TotalsAnswer};
ghost use Rattle.mg_exec.specs.Selecting.{answer_told};

use crate::phase::Step;
use mg_expr::EvalFault;
use mg_model::{Rows, Table};
use mg_plan::Bound;
use mg_rows::{OrderBy, Outcome, StatementFault, select, total_row};
use mg_statements::{Agg, Sorted, Statement};
use mg_value::Row;
use std::alloc::Global;

/// The order of a SELECT, whose column is at the first of the places of its bound statement.
fn order_of(sorted: &Option<Sorted>, places: &[u16]) -> Option<OrderBy>
    ensures { result ≡ order_by_of sorted.now places.now }
{
    match sorted {
        Some(sorted) => Some(OrderBy {
            place: places.first().copied().unwrap_or(0),
            descending: sorted.descending,
        }),
        None => None,
    }
}

/// The one row of a SELECT of totals.
fn totals(alloc: Global, aggs: &[Agg], found: &[Row]) -> Result<Rows, EvalFault>
    ensures { TotalsAnswer (map total_of aggs.now) found.now result }
{
    let row = total_row(alloc, aggs, found)?;
    let mut rows = Vec::new(alloc);
    if rows.push(row).is_err() {
        return Err(EvalFault::Memory);
    }
    Ok(Rows::new(rows))
}

/// The rows that a SELECT answers, of those that it found.
pub fn answer(alloc: Global, table: &Table, bound: &Bound, found: &[Row]) -> Result<Rows, EvalFault>
    requires { is_select (plain_of bound.now.statement) ≡ true }
    ensures { Answers (plain_of bound.now.statement) bound.now.places.items table.now.shape.key found.now result }
{
    match &bound.statement {
        Statement::Totals { aggs, .. } => totals(alloc, aggs, found),
        Statement::Select { values, sorted, .. } => select(
            alloc,
            values,
            order_of(sorted, &bound.places),
            table.shape.key,
            found,
        ),
        _ => unreachable!(),
    }
}

/// The rows as the answer of a statement.
pub fn as_answer(given: Result<Rows, EvalFault>) -> Result<Step, StatementFault>
    ensures { result ≡ answer_told given }
{
    match given {
        Ok(rows) => Ok(Step::Done(Outcome::Rows(rows))),
        Err(fault) => Err(StatementFault::from(fault)),
    }
}

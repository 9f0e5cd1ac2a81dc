//! Totals over the rows that a SELECT finds.

ghost use Rattle.std.specs.Prelude.{◌≡◌, ◌≤◌, ◌<◌, ◌+◌, ◌*◌, ◌^◌, map, length, Some};
ghost use Rattle.mg_expr.specs.Trees.{tree_of};
ghost use Rattle.mg_expr.specs.Meaning.{within as within_64};
ghost use Rattle.mg_expr.specs.Outcomes.{Answers};
ghost use Rattle.mg_statements.specs.Plain.{total_of};
ghost use Rattle.mg_rows.specs.Selecting.{each_of, tree_value};
ghost use Rattle.mg_rows.specs.Totals.{sum_if, total_over, totals_over};
ghost use Rattle.mg_rows.specs.Running.{Holds, added_up};

use crate::filling::push;
use mg_expr::{EvalFault, Expr, evaluate};
use mg_statements::Agg;
use mg_value::{Row, Value};
use std::alloc::Global;

/// The sum so far with one more value: a number is added, and NULL is skipped. It is None as long as
/// there was no number.
fn add(sum: Option<i128>, value: &Value, count: usize) -> Option<i128>
    requires { Holds count sum }
    ensures sum { result ≡ added_up sum value.now }
    ensures holds { Holds (count + 1) result }
{
    match value {
        Value::Null => sum,
        Value::Text(_) => sum,
        Value::Int(number) => match sum {
            None => Some(i128::from(*number)),
            Some(sum) => Some(sum + i128::from(*number)),
        },
    }
}

/// A number as a value.
fn within(sum: i128) -> Result<Value, EvalFault>
    ensures { Answers (within_64 sum) result }
{
    match i64::try_from(sum) {
        Ok(number) => Ok(Value::Int(number)),
        Err(_) => Err(EvalFault::Arithmetic),
    }
}

/// The sum of an expression over rows.
fn sum_over(alloc: Global, e: &Expr, rows: &[Row]) -> Result<Value, EvalFault>
    ensures { Answers (sum_if (each_of (tree_value (tree_of e.now)) rows.now)) result }
{
    let mut sum = None;
    for (count, row) in rows.iter().enumerate() {
        sum = add(sum, &evaluate(alloc, e, row)?, count);
    }
    match sum {
        Some(sum) => within(sum),
        None => Ok(Value::Null),
    }
}

/// A total over rows.
fn total(alloc: Global, agg: &Agg, rows: &[Row]) -> Result<Value, EvalFault>
    ensures { Answers (total_over rows.now (total_of agg.now)) result }
{
    match agg {
        Agg::Count => Ok(Value::Int(rows.len() as i64)),
        Agg::Sum(e) => sum_over(alloc, e, rows),
    }
}

/// The one row that a SELECT of totals answers: how many rows there are, and sums, which skip NULL and
/// are NULL where there is no number.
///
/// # Errors
///
/// `Arithmetic` exactly where an expression faults at one of the rows, or a sum as a whole leaves 64
/// bits; or `Memory`.
pub fn total_row(alloc: Global, aggs: &[Agg], rows: &[Row]) -> Result<Row, EvalFault>
    ensures { Answers (totals_over (map total_of aggs.now) rows.now) result }
{
    let mut out = Vec::new(alloc);
    for agg in aggs {
        push(&mut out, total(alloc, agg, rows)?)?;
    }
    Ok(Row::new(out))
}

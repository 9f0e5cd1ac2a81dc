//! Evaluating: the value or the truth that an expression has at a row.

ghost use Rattle.std.specs.Prelude.{◌≡◌, List, map, get_or, Some, IfOk};
ghost use Rattle.mg_value.specs.declared.value.Value.TheVariants.{Null};
ghost use Rattle.mg_expr.specs.Meaning.{says_of, part_says, value_of, truth_of, value_in, all_of, any_of, total, added as added_to, multiplied as multiplied_by};
ghost use Rattle.mg_expr.specs.Outcomes.{Tells, Answers};

use crate::arithmetic::{negative, plus, times};
use crate::logic::{both, compared, either, negated, not_null_test, null_test};
use crate::outcome::Outcome;
use crate::{EvalFault, Expr, Part};
use mg_base::Memory;
use mg_value::{Row, Truth, Value};
use std::alloc::Global;

/// A copy of the value in a column, NULL past the last one.
fn column(alloc: Global, row: &[Value], place: u16) -> Result<Value, Memory>
    ensures { IfOk result (λ value. value ≡ get_or row.now place Null) }
{
    match row.get(place as usize) {
        Some(value) => value.copy(alloc),
        None => Ok(Value::Null),
    }
}

/// AND of what the parts say, from the left: a part behind one that is FALSE is not evaluated.
#[cycle(saying)]
fn all(alloc: Global, parts: &[Expr], row: &[Value]) -> Result<Truth, EvalFault>
    ensures { Answers (all_of (map (λ e. says_of e row.now) parts.now)) result }
{
    let mut all = Truth::True;
    for part in parts {
        all = both(all, says(alloc, part, row)?.into_truth());
        if all == Truth::False {
            return Ok(Truth::False);
        }
    }
    Ok(all)
}

/// OR of what the parts say, from the left: a part behind one that is TRUE is not evaluated.
#[cycle(saying)]
fn any(alloc: Global, parts: &[Expr], row: &[Value]) -> Result<Truth, EvalFault>
    ensures { Answers (any_of (map (λ e. says_of e row.now) parts.now)) result }
{
    let mut any = Truth::False;
    for part in parts {
        any = either(any, says(alloc, part, row)?.into_truth());
        if any == Truth::True {
            return Ok(Truth::True);
        }
    }
    Ok(any)
}

/// A sum: the first value, and the parts taken in from the left.
#[cycle(saying)]
fn sum(alloc: Global, first: Value, parts: &[Part], row: &[Value]) -> Result<Value, EvalFault>
    ensures { Answers
        (total added_to (Some first) (map (λ p. part_says p row.now) parts.now)) result }
{
    let mut sum = first;
    for part in parts {
        let value = says(alloc, &part.value, row)?.into_value();
        sum = plus(part.inverse, sum, value)?;
    }
    Ok(sum)
}

/// A product: the first value, and the parts taken in from the left.
#[cycle(saying)]
fn product(alloc: Global, first: Value, parts: &[Part], row: &[Value]) -> Result<Value, EvalFault>
    ensures { Answers
        (total multiplied_by (Some first) (map (λ p. part_says p row.now) parts.now)) result }
{
    let mut product = first;
    for part in parts {
        let value = says(alloc, &part.value, row)?.into_value();
        product = times(part.inverse, product, value)?;
    }
    Ok(product)
}

/// What an expression says of a row.
#[cycle(saying)]
fn says(alloc: Global, e: &Expr, row: &[Value]) -> Result<Outcome, EvalFault>
    ensures { Tells (says_of e.now row.now) result }
{
    match e {
        Expr::Or(parts) => Ok(Outcome::Truth(any(alloc, parts, row)?)),
        Expr::And(parts) => Ok(Outcome::Truth(all(alloc, parts, row)?)),
        Expr::Not(part) => {
            let truth = says(alloc, part, row)?.into_truth();
            Ok(Outcome::Truth(negated(truth)))
        }
        Expr::Compare(a, sign, b) => {
            let a = says(alloc, a, row)?.into_value();
            let b = says(alloc, b, row)?.into_value();
            Ok(Outcome::Truth(compared(*sign, a, b)))
        }
        Expr::IsNull(part) => {
            let value = says(alloc, part, row)?.into_value();
            Ok(Outcome::Truth(null_test(value)))
        }
        Expr::IsNotNull(part) => {
            let value = says(alloc, part, row)?.into_value();
            Ok(Outcome::Truth(not_null_test(value)))
        }
        Expr::Sum(first, parts) => {
            let first = says(alloc, first, row)?.into_value();
            Ok(Outcome::Value(sum(alloc, first, parts, row)?))
        }
        Expr::Product(first, parts) => {
            let first = says(alloc, first, row)?.into_value();
            Ok(Outcome::Value(product(alloc, first, parts, row)?))
        }
        Expr::Minus(part) => {
            let value = says(alloc, part, row)?.into_value();
            Ok(Outcome::Value(negative(value)?))
        }
        Expr::Integer(number) => Ok(Outcome::Value(Value::Int(*number))),
        Expr::Text(text) => Ok(Outcome::Value(Value::Text(text.copy(alloc)?))),
        Expr::Null => Ok(Outcome::Value(Value::Null)),
        Expr::Name(_) => Ok(Outcome::Value(Value::Null)),
        Expr::Column(place) => Ok(Outcome::Value(column(alloc, row, *place)?)),
    }
}

/// The value that an expression has at a row.
///
/// An expression that names columns is bound first: a name, and a column past the row's end, are
/// NULL here, and so is the value of a condition.
///
/// # Errors
///
/// `Arithmetic` exactly where a result that is evaluated leaves 64 bits or a divisor is 0; or
/// `Memory`.
pub fn evaluate(alloc: Global, e: &Expr, row: &Row) -> Result<Value, EvalFault>
    ensures { Answers (value_of e.now row.now) result }
{
    Ok(says(alloc, e, row.as_slice())?.into_value())
}

/// The truth that an expression has at a row.
///
/// An expression that names columns is bound first: a name, and a column past the row's end, are
/// NULL here, and the truth of a number, a text or NULL is unknown.
///
/// # Errors
///
/// `Arithmetic` exactly where a result that is evaluated leaves 64 bits or a divisor is 0; or
/// `Memory`.
pub fn test(alloc: Global, e: &Expr, row: &Row) -> Result<Truth, EvalFault>
    ensures { Answers (truth_of e.now row.now) result }
{
    Ok(says(alloc, e, row.as_slice())?.into_truth())
}

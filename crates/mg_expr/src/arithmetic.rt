//! Arithmetic on 64 bits, and with NULL.

ghost use Rattle.std.specs.Prelude.{◌≡◌, ℤ, Option, Some};
ghost use Rattle.mg_expr.specs.Meaning.{number as number_in, within, added as added_to, multiplied as multiplied_by, arithmetic, minus as minus_of, negative as negative_of};
ghost use Rattle.mg_expr.specs.Outcomes.{Answers};

use crate::EvalFault;
use mg_value::Value;

/// The number that a value is, None of NULL and of a text.
fn number(value: &Value) -> Option<i64>
    ensures { result ≡ number_in value.now }
{
    match value {
        Value::Null => None,
        Value::Int(number) => Some(*number),
        Value::Text(_) => None,
    }
}

/// The sum, or the difference where the second number is subtracted.
fn added(inverse: bool, x: i64, y: i64) -> Result<Value, EvalFault>
    ensures { Answers (added_to inverse x y) result }
{
    let sum = if inverse {
        x.checked_sub(y)
    } else {
        x.checked_add(y)
    };
    match sum {
        Some(sum) => Ok(Value::Int(sum)),
        None => Err(EvalFault::Arithmetic),
    }
}

/// The product, or the quotient toward zero where the second number divides.
fn multiplied(inverse: bool, x: i64, y: i64) -> Result<Value, EvalFault>
    ensures { Answers (multiplied_by inverse x y) result }
{
    let product = if inverse {
        x.checked_div(y)
    } else {
        x.checked_mul(y)
    };
    match product {
        Some(product) => Ok(Value::Int(product)),
        None => Err(EvalFault::Arithmetic),
    }
}

/// A sum or a difference of two values.
pub fn plus(inverse: bool, a: Value, b: Value) -> Result<Value, EvalFault>
    ensures { Answers (arithmetic (added_to inverse) (Some a) (Some b)) result }
{
    let Some(x) = number(&a) else {
        return Ok(Value::Null);
    };
    let Some(y) = number(&b) else {
        return Ok(Value::Null);
    };
    added(inverse, x, y)
}

/// A product or a quotient of two values.
pub fn times(inverse: bool, a: Value, b: Value) -> Result<Value, EvalFault>
    ensures { Answers (arithmetic (multiplied_by inverse) (Some a) (Some b)) result }
{
    let Some(x) = number(&a) else {
        return Ok(Value::Null);
    };
    let Some(y) = number(&b) else {
        return Ok(Value::Null);
    };
    multiplied(inverse, x, y)
}

/// The negative of a value.
pub fn negative(a: Value) -> Result<Value, EvalFault>
    ensures { Answers (negative_of (Some a)) result }
{
    let Some(x) = number(&a) else {
        return Ok(Value::Null);
    };
    match x.checked_neg() {
        Some(negative) => Ok(Value::Int(negative)),
        None => Err(EvalFault::Arithmetic),
    }
}

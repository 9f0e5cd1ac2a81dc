//! The order of values: NULL least, numbers as numbers, texts by their bytes.

ghost use Rattle.std.specs.Prelude.{◌≡◌};
ghost use Rattle.std.specs.Cmp.{IsTotalOrder};
ghost use Rattle.std.specs.declared.cmp.Ordering.TheVariants.{Equal};
ghost use Rattle.mg_value.specs.declared.value.Value.{Value as AnyValue};
ghost use Rattle.mg_value.specs.Values.{value_cmp, comparison};

use crate::Value;
use std::cmp::Ordering;

/// The order of all values, in which NULL is least, and a number less than a text.
pub fn order(a: &Value, b: &Value) -> Ordering
    ensures { result ≡ value_cmp a.now b.now }
{
    match a {
        Value::Null => match b {
            Value::Null => Ordering::Equal,
            Value::Int(_) => Ordering::Less,
            Value::Text(_) => Ordering::Less,
        },
        Value::Int(x) => match b {
            Value::Null => Ordering::Greater,
            Value::Int(y) => x.cmp(y),
            Value::Text(_) => Ordering::Less,
        },
        Value::Text(x) => match b {
            Value::Null => Ordering::Greater,
            Value::Int(_) => Ordering::Greater,
            Value::Text(y) => x.as_slice().cmp(y.as_slice()),
        },
    }
}

/// Compares two values as an expression does: None, for unknown, exactly where one is NULL.
pub fn compare(a: &Value, b: &Value) -> Option<Ordering>
    ensures { result ≡ comparison a.now b.now }
{
    if a.is_null() || b.is_null() {
        None
    } else {
        Some(order(a, b))
    }
}

/// The order of values is total, and equal values alone stand at one place in it.
pub fn values_are_ordered()
    ensures total { IsTotalOrder value_cmp }
    ensures same { (a b : AnyValue) → value_cmp a b ≡ Equal → a ≡ b }
{}

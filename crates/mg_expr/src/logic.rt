//! Truths: NOT, AND, OR and comparisons.

ghost use Rattle.std.specs.Prelude.{◌≡◌, Bool, Some};
ghost use Rattle.mg_value.specs.Values.{comparison};
ghost use Rattle.mg_expr.specs.Meaning.{truth_from as truth_of_test, negated as negated_of, both as both_of, either as either_of, meets as meets_sign, compared as compared_by, null_test as null_test_of, not_null_test as not_null_test_of};

use crate::Sign;
use mg_value::{Truth, Value, compare};
use std::cmp::Ordering;

/// TRUE or FALSE, as the test was answered.
fn truth_from(test: bool) -> Truth
    ensures { result ≡ truth_of_test test }
{
    if test { Truth::True } else { Truth::False }
}

/// IS NULL.
pub fn null_test(value: Value) -> Truth
    ensures { null_test_of (Some value) ≡ Some result }
{
    truth_from(value.is_null())
}

/// IS NOT NULL.
pub fn not_null_test(value: Value) -> Truth
    ensures { not_null_test_of (Some value) ≡ Some result }
{
    truth_from(!value.is_null())
}

/// NOT.
pub fn negated(a: Truth) -> Truth
    ensures { result ≡ negated_of a }
{
    match a {
        Truth::False => Truth::True,
        Truth::Unknown => Truth::Unknown,
        Truth::True => Truth::False,
    }
}

/// AND: FALSE where one is, TRUE where both are.
pub fn both(a: Truth, b: Truth) -> Truth
    ensures { result ≡ both_of a b }
{
    match a {
        Truth::False => Truth::False,
        Truth::Unknown => match b {
            Truth::False => Truth::False,
            Truth::Unknown => Truth::Unknown,
            Truth::True => Truth::Unknown,
        },
        Truth::True => b,
    }
}

/// OR: TRUE where one is, FALSE where both are.
pub fn either(a: Truth, b: Truth) -> Truth
    ensures { result ≡ either_of a b }
{
    match a {
        Truth::True => Truth::True,
        Truth::Unknown => match b {
            Truth::True => Truth::True,
            Truth::Unknown => Truth::Unknown,
            Truth::False => Truth::Unknown,
        },
        Truth::False => b,
    }
}

fn meets(sign: Sign, order: Ordering) -> bool
    ensures { result ≡ meets_sign sign order }
{
    match sign {
        Sign::Equal => order.is_eq(),
        Sign::Unequal => order.is_ne(),
        Sign::Less => order.is_lt(),
        Sign::AtMost => order.is_le(),
        Sign::Greater => order.is_gt(),
        Sign::AtLeast => order.is_ge(),
    }
}

/// The truth of a comparison: unknown where one of the values is NULL.
pub fn compared(sign: Sign, a: Value, b: Value) -> Truth
    ensures { result ≡ compared_by sign (comparison a b) }
{
    match compare(&a, &b) {
        None => Truth::Unknown,
        Some(order) => truth_from(meets(sign, order)),
    }
}

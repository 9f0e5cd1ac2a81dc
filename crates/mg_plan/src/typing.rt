//! The types of bound expressions.

ghost use Rattle.std.specs.Prelude.{◌≡◌, ◌&&◌, slice_get};
ghost use Rattle.std.specs.List.{list_all};
ghost use Rattle.mg_expr.specs.Typing.{fits_integer as fits_integer_test, fits_text as fits_text_test, fits_truth as fits_truth_test, fits_value as fits_value_test, are_comparable as are_comparable_test, provided as provided_sort, column_sort, sort_of_kind, sort_of_expr};
ghost use Rattle.mg_plan.specs.Types.{sort_in, sort_if, sort_if_there, fits_kind as fits_kind_test};

use mg_expr::{Expr, Part};
use mg_value::{Column, Kind};

/// The type of an expression. That of NULL fits where an integer or a text is wanted.
#[derive(Clone, Copy, Debug, PartialEq, Eq)]
pub(crate) enum ValueType {
    Integers,
    Texts,
    Null,
    Truths,
}

/// Tells whether it fits where an integer is wanted.
pub(crate) fn fits_integer(of: Option<ValueType>) -> bool
    ensures { result ≡ fits_integer_test (sort_if of) }
{
    match of {
        Some(ValueType::Integers) => true,
        Some(ValueType::Null) => true,
        Some(ValueType::Texts) => false,
        Some(ValueType::Truths) => false,
        None => false,
    }
}

/// Tells whether it fits where a text is wanted.
pub(crate) fn fits_text(of: Option<ValueType>) -> bool
    ensures { result ≡ fits_text_test (sort_if of) }
{
    match of {
        Some(ValueType::Texts) => true,
        Some(ValueType::Null) => true,
        Some(ValueType::Integers) => false,
        Some(ValueType::Truths) => false,
        None => false,
    }
}

/// Tells whether it fits where a truth is wanted.
pub(crate) fn fits_truth(of: Option<ValueType>) -> bool
    ensures { result ≡ fits_truth_test (sort_if of) }
{
    match of {
        Some(ValueType::Truths) => true,
        Some(ValueType::Integers) => false,
        Some(ValueType::Texts) => false,
        Some(ValueType::Null) => false,
        None => false,
    }
}

/// Tells whether it is an integer, a text or NULL.
pub(crate) fn fits_value(of: Option<ValueType>) -> bool
    ensures { result ≡ fits_value_test (sort_if of) }
{
    match of {
        Some(ValueType::Integers) => true,
        Some(ValueType::Texts) => true,
        Some(ValueType::Null) => true,
        Some(ValueType::Truths) => false,
        None => false,
    }
}

/// Tells whether it may be put into a column of a kind.
pub(crate) fn fits_kind(kind: Kind, of: Option<ValueType>) -> bool
    ensures { result ≡ fits_kind_test kind (sort_if of) }
{
    match kind {
        Kind::Int => fits_integer(of),
        Kind::Text(_) => fits_text(of),
    }
}

/// Tells whether two may be compared.
fn are_comparable(a: Option<ValueType>, b: Option<ValueType>) -> bool
    ensures { result ≡ are_comparable_test (sort_if a) (sort_if b) }
{
    if fits_integer(a) && fits_integer(b) {
        return true;
    }
    fits_text(a) && fits_text(b)
}

/// The type where the test is passed.
fn provided(test: bool, of: ValueType) -> Option<ValueType>
    ensures { sort_if result ≡ provided_sort test (sort_in of) }
{
    if test { Some(of) } else { None }
}

/// The type of a column's kind.
fn type_of_kind(kind: Kind) -> ValueType
    ensures { sort_in result ≡ sort_of_kind kind }
{
    match kind {
        Kind::Int => ValueType::Integers,
        Kind::Text(_) => ValueType::Texts,
    }
}

/// The type of a column, found by its place.
fn type_found(columns: &[Column], place: usize) -> Option<ValueType>
    ensures { sort_if result ≡ sort_if_there (slice_get columns.now place) }
{
    match columns.get(place) {
        Some(column) => Some(type_of_kind(column.kind)),
        None => None,
    }
}

/// The type of the column at a place.
fn type_at(columns: &[Column], place: usize) -> Option<ValueType>
    ensures { sort_if result ≡ column_sort columns.now place }
{
    type_found(columns, place)
}

/// Tells whether both tests are passed.
fn both(a: bool, b: bool) -> bool
    ensures { result ≡ (a && b) }
{
    a && b
}

/// Tells whether each of these expressions is a truth.
#[cycle(typing)]
fn are_truths(columns: &[Column], parts: &[Expr]) -> bool
    ensures { result ≡ list_all (λ e. fits_truth_test (sort_of_expr e columns.now)) parts.now }
{
    for part in parts {
        if !fits_truth(type_of(columns, part)) {
            return false;
        }
    }
    true
}

/// Tells whether each of these further parts is an integer.
#[cycle(typing)]
fn are_integers(columns: &[Column], parts: &[Part]) -> bool
    ensures { result ≡ list_all (λ p. fits_integer_test (sort_of_expr p.value columns.now)) parts.now }
{
    for part in parts {
        if !fits_integer(type_of(columns, &part.value)) {
            return false;
        }
    }
    true
}

/// The type of a bound expression, None where it isn't well typed.
#[cycle(typing)]
pub(crate) fn type_of(columns: &[Column], e: &Expr) -> Option<ValueType>
    ensures { sort_if result ≡ sort_of_expr e.now columns.now }
{
    match e {
        Expr::Or(parts) => provided(are_truths(columns, parts), ValueType::Truths),
        Expr::And(parts) => provided(are_truths(columns, parts), ValueType::Truths),
        Expr::Not(part) => provided(fits_truth(type_of(columns, part)), ValueType::Truths),
        Expr::Compare(a, _, b) => {
            let comparable = are_comparable(type_of(columns, a), type_of(columns, b));
            provided(comparable, ValueType::Truths)
        }
        Expr::IsNull(part) => provided(fits_value(type_of(columns, part)), ValueType::Truths),
        Expr::IsNotNull(part) => provided(fits_value(type_of(columns, part)), ValueType::Truths),
        Expr::Sum(first, parts) => {
            let is_first = fits_integer(type_of(columns, first));
            let are_others = are_integers(columns, parts);
            provided(both(is_first, are_others), ValueType::Integers)
        }
        Expr::Product(first, parts) => {
            let is_first = fits_integer(type_of(columns, first));
            let are_others = are_integers(columns, parts);
            provided(both(is_first, are_others), ValueType::Integers)
        }
        Expr::Minus(part) => provided(fits_integer(type_of(columns, part)), ValueType::Integers),
        Expr::Integer(_) => Some(ValueType::Integers),
        Expr::Text(_) => Some(ValueType::Texts),
        Expr::Null => Some(ValueType::Null),
        Expr::Name(_) => None,
        Expr::Column(place) => type_at(columns, *place as usize),
    }
}

//! The parts of a filter that an index can serve.

ghost use Rattle.std.specs.Prelude.{◌≡◌, Some, IfOk};
ghost use Rattle.mg_value.specs.declared.value.Value.TheVariants.{Int, Text};
ghost use Rattle.mg_expr.specs.Trees.{tree_of};
ghost use Rattle.mg_paths.specs.Plans.{constant_in, minus_in, serving_in, serving_of, serves_by};

use mg_base::Memory;
use mg_expr::{Expr, Sign};
use mg_value::{Key, Txt, Value};
use std::alloc::Global;

/// A part of a filter that an index can serve: it compares a column, on its left, with a constant.
#[derive(Debug, Drop)]
pub(crate) struct Serving {
    /// The place of the column.
    pub(crate) column: u16,
    pub(crate) sign: Sign,
    pub(crate) constant: Key,
}

/// The key that a number is.
fn number_key(number: i64) -> Option<Key>
    ensures { result ≡ Some (Int number) }
{
    Key::new(Value::Int(number))
}

/// The key that a text is.
fn text_key(text: Txt) -> Option<Key>
    ensures { result ≡ Some (Text text) }
{
    Key::new(Value::Text(text))
}

/// The constant that a minus before an expression makes: the negative of an integer that has one in 64 bits.
fn minus_constant(part: &Expr) -> Option<Key>
    ensures { result ≡ minus_in (tree_of part.now) }
{
    match part {
        Expr::Integer(number) => match number.checked_neg() {
            Some(negative) => number_key(negative),
            None => None,
        },
        _ => None,
    }
}

/// The constant that an expression is: an integer, one minus before an integer, or a text.
fn constant(alloc: Global, e: &Expr) -> Result<Option<Key>, Memory>
    ensures { IfOk result (λ constant. constant ≡ constant_in (tree_of e.now)) }
{
    match e {
        Expr::Integer(number) => Ok(number_key(*number)),
        Expr::Minus(part) => Ok(minus_constant(part)),
        Expr::Text(text) => Ok(text_key(text.copy(alloc)?)),
        _ => Ok(None),
    }
}

/// Tells whether an index can serve a comparison by this sign.
fn can_serve(sign: Sign) -> bool
    ensures { result ≡ serves_by sign }
{
    match sign {
        Sign::Equal => true,
        Sign::Unequal => false,
        Sign::Less => true,
        Sign::AtMost => true,
        Sign::Greater => true,
        Sign::AtLeast => true,
    }
}

/// The serving part that a comparison of these two is.
fn comparison(
    alloc: Global,
    left: &Expr,
    sign: Sign,
    right: &Expr,
) -> Result<Option<Serving>, Memory>
    ensures { IfOk result (λ serving. serving ≡ serving_of (tree_of left.now) sign (tree_of right.now)) }
{
    let Expr::Column(column) = left else {
        return Ok(None);
    };
    if !can_serve(sign) {
        return Ok(None);
    }
    let Some(constant) = constant(alloc, right)? else {
        return Ok(None);
    };
    Ok(Some(Serving {
        column: *column,
        sign,
        constant,
    }))
}

/// The serving part that a part of a filter is, if it is one.
///
/// # Errors
///
/// `Memory` only.
pub(crate) fn serving_part(alloc: Global, part: &Expr) -> Result<Option<Serving>, Memory>
    ensures { IfOk result (λ serving. serving ≡ serving_in (tree_of part.now)) }
{
    match part {
        Expr::Compare(left, sign, right) => comparison(alloc, left, *sign, right),
        _ => Ok(None),
    }
}

//! Whether the names in an expression are those of columns.

ghost use Rattle.std.specs.Prelude.{◌≡◌};
ghost use Rattle.std.specs.List.{list_all};
ghost use Rattle.mg_plan.specs.Binding.{knows as knows_test, knows_part};

use crate::names::is_column;
use mg_expr::{Expr, Part};
use mg_value::Column;

/// Tells whether these expressions name columns alone.
#[cycle(knowing)]
fn knows_each(columns: &[Column], parts: &[Expr]) -> bool
    ensures { result ≡ list_all (knows_test columns.now) parts.now }
{
    for part in parts {
        if !knows(columns, part) {
            return false;
        }
    }
    true
}

/// Tells whether these further parts name columns alone.
#[cycle(knowing)]
fn knows_parts(columns: &[Column], parts: &[Part]) -> bool
    ensures { result ≡ list_all (knows_part columns.now) parts.now }
{
    for part in parts {
        if !knows(columns, &part.value) {
            return false;
        }
    }
    true
}

/// Tells whether an expression names columns alone.
#[cycle(knowing)]
#[tactic(auto, using(crate::specs::BindingLaws::knows_or, crate::specs::BindingLaws::knows_and, crate::specs::BindingLaws::knows_sum, crate::specs::BindingLaws::knows_product))]
pub(crate) fn knows(columns: &[Column], e: &Expr) -> bool
    ensures { result ≡ knows_test columns.now e.now }
{
    match e {
        Expr::Or(parts) => knows_each(columns, parts),
        Expr::And(parts) => knows_each(columns, parts),
        Expr::Not(part) => knows(columns, part),
        Expr::Compare(a, _, b) => knows(columns, a) && knows(columns, b),
        Expr::IsNull(part) => knows(columns, part),
        Expr::IsNotNull(part) => knows(columns, part),
        Expr::Sum(first, parts) => knows(columns, first) && knows_parts(columns, parts),
        Expr::Product(first, parts) => knows(columns, first) && knows_parts(columns, parts),
        Expr::Minus(part) => knows(columns, part),
        Expr::Integer(_) => true,
        Expr::Text(_) => true,
        Expr::Null => true,
        Expr::Name(name) => is_column(columns, name),
        Expr::Column(_) => true,
    }
}

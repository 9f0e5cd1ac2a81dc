//! Expressions with columns in place of names.

ghost use Rattle.std.specs.Prelude.{◌≡◌, ◌≤◌, map, IfOk, length};
ghost use Rattle.mg_value.specs.declared.shape.TheConstants.{MOST_COLUMNS};
ghost use Rattle.mg_expr.specs.Trees.{tree_of, part_tree};
ghost use Rattle.mg_statements.specs.Plain.{tree_in};
ghost use Rattle.mg_plan.specs.Binding.{column_or_name, bound as bound_tree, bound_expr, bound_part, bound_filter};
ghost use Rattle.mg_plan.specs.Names.{place_of as place_of_name};

use crate::names::place_of;
use mg_base::Memory;
use mg_expr::{Expr, Part};
use mg_value::{Column, Name};
use std::alloc::Global;

/// A column for a name; a name that is none of a column's stays.
fn bind_name(columns: &[Column], name: &Name) -> Expr
    requires { length columns.now ≤ MOST_COLUMNS }
    ensures { tree_of result ≡ column_or_name (place_of_name columns.now name.now) name.now }
{
    match place_of(columns, name) {
        Some(place) => Expr::Column(place as u16),
        None => Expr::Name(*name),
    }
}

/// The expressions bound.
#[cycle(binding)]
pub(crate) fn bind_each(
    alloc: Global,
    columns: &[Column],
    parts: &[Expr],
) -> Result<Vec<Expr>, Memory>
    requires { length columns.now ≤ MOST_COLUMNS }
    ensures { IfOk result (λ bound. map tree_of bound.items ≡ map (λ t. bound_tree t columns.now) (map tree_of parts.now)) }
{
    let mut bound = Vec::new(alloc);
    for part in parts {
        bound.push(bind_expr(alloc, columns, part)?)?;
    }
    Ok(bound)
}

/// The further parts bound.
#[cycle(binding)]
fn bind_parts(alloc: Global, columns: &[Column], parts: &[Part]) -> Result<Vec<Part>, Memory>
    requires { length columns.now ≤ MOST_COLUMNS }
    ensures { IfOk result (λ bound. map part_tree bound.items ≡ map (bound_part columns.now) parts.now) }
{
    let mut bound = Vec::new(alloc);
    for part in parts {
        bound.push(Part {
            inverse: part.inverse,
            value: bind_expr(alloc, columns, &part.value)?,
        })?;
    }
    Ok(bound)
}

/// The expression bound, in a box of its own.
#[cycle(binding)]
fn bind_boxed(alloc: Global, columns: &[Column], e: &Expr) -> Result<Box<Expr>, Memory>
    requires { length columns.now ≤ MOST_COLUMNS }
    ensures { IfOk result (λ bound. tree_of bound.value ≡ bound_expr columns.now e.now) }
{
    Ok(Box::new(alloc, bind_expr(alloc, columns, e)?)?)
}

/// The expression with columns in place of names.
#[cycle(binding)]
pub(crate) fn bind_expr(alloc: Global, columns: &[Column], e: &Expr) -> Result<Expr, Memory>
    requires { length columns.now ≤ MOST_COLUMNS }
    ensures { IfOk result (λ bound. tree_of bound ≡ bound_expr columns.now e.now) }
{
    match e {
        Expr::Or(parts) => Ok(Expr::Or(bind_each(alloc, columns, parts)?)),
        Expr::And(parts) => Ok(Expr::And(bind_each(alloc, columns, parts)?)),
        Expr::Not(part) => Ok(Expr::Not(bind_boxed(alloc, columns, part)?)),
        Expr::Compare(a, sign, b) => {
            let a = bind_boxed(alloc, columns, a)?;
            let b = bind_boxed(alloc, columns, b)?;
            Ok(Expr::Compare(a, *sign, b))
        }
        Expr::IsNull(part) => Ok(Expr::IsNull(bind_boxed(alloc, columns, part)?)),
        Expr::IsNotNull(part) => Ok(Expr::IsNotNull(bind_boxed(alloc, columns, part)?)),
        Expr::Sum(first, parts) => {
            let first = bind_boxed(alloc, columns, first)?;
            Ok(Expr::Sum(first, bind_parts(alloc, columns, parts)?))
        }
        Expr::Product(first, parts) => {
            let first = bind_boxed(alloc, columns, first)?;
            Ok(Expr::Product(first, bind_parts(alloc, columns, parts)?))
        }
        Expr::Minus(part) => Ok(Expr::Minus(bind_boxed(alloc, columns, part)?)),
        Expr::Integer(number) => Ok(Expr::Integer(*number)),
        Expr::Text(text) => Ok(Expr::Text(text.copy(alloc)?)),
        Expr::Null => Ok(Expr::Null),
        Expr::Name(name) => Ok(bind_name(columns, name)),
        Expr::Column(place) => Ok(Expr::Column(*place)),
    }
}

/// The filter bound.
pub(crate) fn bind_filter(
    alloc: Global,
    columns: &[Column],
    filter: &Option<Expr>,
) -> Result<Option<Expr>, Memory>
    requires { length columns.now ≤ MOST_COLUMNS }
    ensures { IfOk result (λ bound. tree_in bound ≡ bound_filter columns.now (tree_in filter.now)) }
{
    match filter {
        Some(e) => Ok(Some(bind_expr(alloc, columns, e)?)),
        None => Ok(None),
    }
}

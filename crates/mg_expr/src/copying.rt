//! Copies of expressions.

ghost use Rattle.std.specs.Prelude.{◌≡◌, map, IfOk};
ghost use Rattle.mg_expr.specs.Trees.{tree_of, part_tree};

use crate::{Expr, Part};
use mg_base::Memory;
use std::alloc::Global;

/// Copies of the expressions.
#[cycle(copying)]
fn copy_all(alloc: Global, parts: &[Expr]) -> Result<Vec<Expr>, Memory>
    ensures { IfOk result (λ copied. map tree_of copied.items ≡ map tree_of parts.now) }
{
    let mut copied = Vec::new(alloc);
    for part in parts {
        copied.push(copy(alloc, part)?)?;
    }
    Ok(copied)
}

/// Copies of the further parts.
#[cycle(copying)]
fn copy_parts(alloc: Global, parts: &[Part]) -> Result<Vec<Part>, Memory>
    ensures { IfOk result (λ copied. map part_tree copied.items ≡ map part_tree parts.now) }
{
    let mut copied = Vec::new(alloc);
    for part in parts {
        copied.push(Part {
            inverse: part.inverse,
            value: copy(alloc, &part.value)?,
        })?;
    }
    Ok(copied)
}

/// A copy in a box of its own.
#[cycle(copying)]
fn copy_boxed(alloc: Global, e: &Expr) -> Result<Box<Expr>, Memory>
    ensures { IfOk result (λ copied. tree_of copied.value ≡ tree_of e.now) }
{
    Ok(Box::new(alloc, copy(alloc, e)?)?)
}

/// A copy of the expression.
#[cycle(copying)]
fn copy(alloc: Global, e: &Expr) -> Result<Expr, Memory>
    ensures { IfOk result (λ copied. tree_of copied ≡ tree_of e.now) }
{
    match e {
        Expr::Or(parts) => Ok(Expr::Or(copy_all(alloc, parts)?)),
        Expr::And(parts) => Ok(Expr::And(copy_all(alloc, parts)?)),
        Expr::Not(part) => Ok(Expr::Not(copy_boxed(alloc, part)?)),
        Expr::Compare(a, sign, b) => {
            let a = copy_boxed(alloc, a)?;
            let b = copy_boxed(alloc, b)?;
            Ok(Expr::Compare(a, *sign, b))
        }
        Expr::IsNull(part) => Ok(Expr::IsNull(copy_boxed(alloc, part)?)),
        Expr::IsNotNull(part) => Ok(Expr::IsNotNull(copy_boxed(alloc, part)?)),
        Expr::Sum(first, parts) => {
            let first = copy_boxed(alloc, first)?;
            Ok(Expr::Sum(first, copy_parts(alloc, parts)?))
        }
        Expr::Product(first, parts) => {
            let first = copy_boxed(alloc, first)?;
            Ok(Expr::Product(first, copy_parts(alloc, parts)?))
        }
        Expr::Minus(part) => Ok(Expr::Minus(copy_boxed(alloc, part)?)),
        Expr::Integer(number) => Ok(Expr::Integer(*number)),
        Expr::Text(text) => Ok(Expr::Text(text.copy(alloc)?)),
        Expr::Null => Ok(Expr::Null),
        Expr::Name(name) => Ok(Expr::Name(*name)),
        Expr::Column(place) => Ok(Expr::Column(*place)),
    }
}

impl Expr {
    /// An equal expression: it has the same tree, at addresses of its own.
    ///
    /// # Errors
    ///
    /// `Memory` only.
    pub fn copy(&self, alloc: Global) -> Result<Expr, Memory>
        ensures { IfOk result (λ copied. tree_of copied ≡ tree_of self.now) }
    {
        copy(alloc, self)
    }
}

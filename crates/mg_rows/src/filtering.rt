//! Which rows pass a filter.

ghost use Rattle.std.specs.Prelude.{◌≡◌, ◌∷◌, [], map};
ghost use Rattle.mg_expr.specs.Meaning.{says_of};
ghost use Rattle.mg_expr.specs.Filters.{passes_all, passes_of};
ghost use Rattle.mg_expr.specs.Outcomes.{Answers};
ghost use Rattle.mg_statements.specs.Plain.{tree_in};
ghost use Rattle.mg_rows.specs.Found.{passes_filter, Keeps};

use crate::filling::push;
use mg_expr::{EvalFault, Expr, test};
use mg_value::{Key, Row, Truth};
use std::alloc::Global;

/// Tells whether a condition is TRUE at a row.
fn holds(alloc: Global, e: &Expr, row: &Row) -> Result<bool, EvalFault>
    ensures { Answers (passes_all (says_of e.now row.now ∷ [])) result }
{
    Ok(test(alloc, e, row)? == Truth::True)
}

/// Tells whether the conditions are TRUE at a row, from the left: those behind one that is not are
/// not evaluated.
fn all_hold(alloc: Global, parts: &[Expr], row: &Row) -> Result<bool, EvalFault>
    ensures { Answers (passes_all (map (λ e. says_of e row.now) parts.now)) result }
{
    for part in parts {
        if !holds(alloc, part, row)? {
            return Ok(false);
        }
    }
    Ok(true)
}

/// Tells whether a row passes a filter. The parts of an AND at the top are tested one by one.
fn passes_one(alloc: Global, e: &Expr, row: &Row) -> Result<bool, EvalFault>
    ensures { Answers (passes_of e.now row.now) result }
{
    match e {
        Expr::And(parts) => all_hold(alloc, parts, row),
        _ => holds(alloc, e, row),
    }
}

/// Tells whether a row passes a filter: each row does where there is none. The parts of an AND at
/// the top are tested from the left, and those behind one that is not TRUE are not evaluated.
///
/// # Errors
///
/// `Arithmetic` exactly where a part that is evaluated faults; or `Memory`.
fn passes(alloc: Global, filter: &Option<Expr>, row: &Row) -> Result<bool, EvalFault>
    ensures { Answers (passes_filter (tree_in filter.now) row.now) result }
{
    match filter {
        Some(e) => passes_one(alloc, e, row),
        None => Ok(true),
    }
}

/// Keeps a row, with its key, behind those that were kept, where it passes a filter.
///
/// # Errors
///
/// `Arithmetic` exactly where the filter faults; or `Memory`. Then `kept` is as before.
pub fn keep(
    alloc: Global,
    filter: &Option<Expr>,
    key: Key,
    row: Row,
    kept: &mut Vec<(Key, Row)>,
) -> Result<(), EvalFault>
    ensures { Keeps (passes_filter (tree_in filter.now) row) (key, row) kept.old.items kept.new.items result }
{
    if passes(alloc, filter, &row)? {
        push(kept, (key, row))?;
    }
    Ok(())
}

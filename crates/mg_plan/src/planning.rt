//! How a bound statement finds its rows.

ghost use Rattle.std.specs.Prelude.{◌≡◌, IfOk};
ghost use Rattle.mg_paths.specs.Within.{HasIndexOf};
ghost use Rattle.mg_plan.specs.Plans.{path_of};

use crate::Bound;
use crate::filters::filter_of;
use mg_base::Memory;
use mg_model::Table;
use mg_paths::{Path, planned_indexes_are_there};
use std::alloc::Global;

/// How a bound statement finds the rows of the table with which it was bound: by the plan of its filter. The first of the
/// filter's AND parts has to compare a column that has an index with a constant; then it is the first index on that column,
/// in the range of the longest leading run of such parts on the column. In every other case all records are visited.
///
/// # Errors
///
/// `Memory` only.
pub fn path(alloc: Global, b: &Bound, t: &Table) -> Result<Path, Memory>
    ensures plan { IfOk result (λ path. path ≡ path_of t.now b.now) }
    ensures index { IfOk result (HasIndexOf t.now) }
{
    planned_indexes_are_there();
    let none = None;
    match mg_paths::path(alloc, filter_of(&b.statement, &none), t.indexes.as_slice()) {
        Ok(path) => Ok(path),
        Err(memory) => Err(memory),
    }
}

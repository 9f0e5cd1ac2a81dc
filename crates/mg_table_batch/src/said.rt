//! The rows of the catalog that say a new table.

ghost use Rattle.std.specs.Prelude.{◌≡◌, ◌≤◌, IfOk, length};
ghost use Rattle.mg_table_batch.specs.Filling.{rows_at};

use mg_base::{Memory, PageNo};
use mg_catalog::rows_of;
use mg_model::{Indexes, Table};
use mg_value::{MOST_COLUMNS, Name, Row, Shape};
use std::alloc::Global;

/// The rows of the catalog that say a new table of a name and a shape, which begins at a page: its own, and then those
/// of its columns, in their order.
///
/// # Errors
///
/// `Memory` only.
pub fn new_rows(alloc: Global, name: &Name, shape: &Shape, page: PageNo) -> Result<Vec<Row>, Memory>
    requires { length shape.now.columns ≤ MOST_COLUMNS }
    ensures { IfOk result (λ rows. rows.items ≡ rows_at name.now shape.now page.0) }
{
    let table = Table {
        name: *name,
        shape: shape.copy(alloc)?,
        pointer: page,
        indexes: Indexes::new(Vec::new(alloc)),
    };
    let mut rows = rows_of(alloc, &table)?;
    // The table's own row is the last one.
    if let Some(own) = rows.pop() {
        rows.insert(0, own)?;
    }
    Ok(rows)
}

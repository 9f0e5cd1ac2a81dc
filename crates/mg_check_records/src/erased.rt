//! The columns under which the row of a deletion stands.

ghost use Rattle.std.specs.Prelude.{◌≡◌, IfOk, length};
ghost use Rattle.mg_image.specs.RecordRules.{erased_from};

use mg_base::Memory;
use mg_value::{Column, Columns, Shape};
use std::alloc::Global;

/// The shape under which the row of a deletion stands: each column but the key may be NULL.
pub(crate) fn erased_shape(alloc: Global, shape: &Shape) -> Result<Shape, Memory>
    ensures columns { IfOk result (λ erased.
        erased.columns ≡ erased_from shape.now.key 0 shape.now.columns) }
    ensures len { IfOk result (λ erased. length erased.columns ≡ length shape.now.columns) }
{
    let columns = erased_columns(alloc, shape.columns.as_slice(), usize::from(shape.key))?;
    Ok(Shape {
        columns: Columns::new(columns),
        key: shape.key,
    })
}

/// The columns, each as one that allows NULL but for that at the key's place.
fn erased_columns(alloc: Global, columns: &[Column], key: usize) -> Result<Vec<Column>, Memory>
    ensures columns { IfOk result (λ erased. erased.items ≡ erased_from key 0 columns.now) }
    ensures len { IfOk result (λ erased. length erased.items ≡ length columns.now) }
{
    let mut erased = Vec::new(alloc);
    for (at, column) in columns.iter().enumerate() {
        erased.push(Column {
            name: column.name,
            kind: column.kind,
            not_null: column.not_null && at == key,
            since: column.since,
        })?;
    }
    Ok(erased)
}

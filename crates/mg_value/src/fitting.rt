//! Whether a row fits the shape of a table.

ghost use Rattle.std.specs.Prelude.{◌↔◌, IsTrue};
ghost use Rattle.mg_value.specs.Rows.{FitsColumn, FitsKind, RowFits};

use crate::{Column, Kind, Row, Shape, Value};

fn kind_takes(kind: Kind, value: &Value) -> bool
    ensures { IsTrue result ↔ FitsKind kind value.now }
{
    match value {
        Value::Null => true,
        Value::Int(_) => match kind {
            Kind::Int => true,
            Kind::Text(_) => false,
        },
        Value::Text(text) => match kind {
            Kind::Int => false,
            Kind::Text(most) => text.as_slice().len() <= most as usize,
        },
    }
}

fn column_takes(column: &Column, value: &Value) -> bool
    ensures { IsTrue result ↔ FitsColumn column.now value.now }
{
    if column.not_null && value.is_null() {
        return false;
    }
    kind_takes(column.kind, value)
}

/// Tells whether the row has a value for each column of the shape that may stand in the column.
pub fn row_fits(s: &Shape, r: &Row) -> bool
    ensures { IsTrue result ↔ RowFits s.now.columns r.now }
{
    let mut rest = r.as_slice();
    for column in s.columns.as_slice() {
        let Some((value, later)) = rest.split_first() else {
            return false;
        };
        if !column_takes(column, value) {
            return false;
        }
        rest = later;
    }
    rest.is_empty()
}

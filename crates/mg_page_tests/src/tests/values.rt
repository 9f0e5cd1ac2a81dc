//! Values, rows and shapes as the tests write them, and what they stand for.

use mg_value::{Column, Columns, Kind, Name, Row, Shape, Txt, Value};
use std::alloc::Global;
use std::test::Fail;

/// A value as the tests write it.
#[derive(Clone, Copy)]
pub enum Said {
    Null,
    Int(i64),
    Text(&'static [u8]),
}

/// A column as the tests write it: its name, its kind, whether it is never NULL, and the first
/// format that has it.
pub type Told = (&'static [u8], Kind, bool, u16);

/// A text of less than a thousand bytes.
fn text(alloc: Global, bytes: &[u8]) -> Result<Value, Fail> {
    if bytes.len() >= 1000 {
        return Err("a long text")?;
    }
    Ok(Value::Text(Txt::new(alloc, bytes, 1000)?))
}

/// The value that is said.
pub fn value_of(alloc: Global, said: Said) -> Result<Value, Fail> {
    match said {
        Said::Null => Ok(Value::Null),
        Said::Int(number) => Ok(Value::Int(number)),
        Said::Text(bytes) => text(alloc, bytes),
    }
}

/// The values that are said.
pub fn values_of(alloc: Global, said: &[Said]) -> Result<Vec<Value>, Fail> {
    let mut values = Vec::new(alloc);
    for one in said {
        values.push(value_of(alloc, *one)?)?;
    }
    Ok(values)
}

/// The row of the values that are said.
pub fn row_of(alloc: Global, said: &[Said]) -> Result<Row, Fail> {
    Ok(Row::new(values_of(alloc, said)?))
}

/// The column that is told.
fn column_of(told: &Told) -> Result<Column, Fail> {
    let (name, kind, not_null, since) = told;
    Ok(Column {
        name: Name::new(name).ok_or("no name")?,
        kind: *kind,
        not_null: *not_null,
        since: *since,
    })
}

/// The shape of the columns that are told, whose key is the first.
pub fn shape_of(alloc: Global, told: &[Told]) -> Result<Shape, Fail> {
    let mut columns = Vec::new(alloc);
    for one in told {
        columns.push(column_of(one)?)?;
    }
    Ok(Shape {
        columns: Columns::new(columns),
        key: 0,
    })
}

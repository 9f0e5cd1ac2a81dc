//! The rows of versions: how they are coded, and under which columns.

ghost use Rattle.std.specs.Prelude.{◌≡◌, ◌<◌, ◌≤◌, ◌^◌, false, IfErr, IfOk, IsTrue, length};
ghost use Rattle.mg_rowcode.specs.Faults.{DecodesTo};
ghost use Rattle.mg_rowcode.specs.Storable.{AreStorable, IsStorable};
ghost use Rattle.mg_image.specs.Form.{IsPlainRow};
ghost use Rattle.mg_reading.specs.Codings.{RowSpelled};
ghost use Rattle.mg_reading.specs.LongTexts.{HasLongText, IsLongText};
ghost use Rattle.mg_reading.specs.Readable.{CodesRow, Refutes};

use crate::point::{ReadFault, Rule};
use mg_rle::{one_plain_text, one_verdict, pack};
use mg_rowcode::{RowFault, decode_row};
use mg_value::{MOST_COLUMNS, Row, Shape, Value, columns_len};
use std::alloc::Global;

/// How rows stand in versions.
#[derive(Clone, Copy, Debug, PartialEq, Eq)]
pub enum RowCoding {
    /// As their bytes are.
    Plain,
    /// Packed.
    Packed,
}

/// The row that a packed text is.
fn packed_row(alloc: Global, shape: &Shape, format: u16, body: &[u8]) -> Result<Row, ReadFault>
    requires columns { length shape.now.columns ≤ MOST_COLUMNS }
    requires len { length body.now < 2 ^ 31 }
    ensures row { IfOk result (λ row. DecodesTo shape.now.columns format body.now row) }
    ensures broken { IfErr result (Refutes
        (CodesRow (RowCoding.Packed) shape.now.columns format body.now)) }
{
    one_plain_text();
    one_verdict();
    match decode_row(alloc, shape, format, body) {
        Ok(row) => Ok(row),
        Err(RowFault::Memory) => Err(ReadFault::Memory),
        Err(RowFault::BadRun { .. }) => Err(ReadFault::Broken(Rule::Links)),
        Err(RowFault::BadRow { .. }) => Err(ReadFault::Broken(Rule::Links)),
    }
}

/// The row that plain bytes are: they are packed, and that is decoded.
fn plain_row(alloc: Global, shape: &Shape, format: u16, body: &[u8]) -> Result<Row, ReadFault>
    requires columns { length shape.now.columns ≤ MOST_COLUMNS }
    requires len { length body.now < 2 ^ 30 }
    ensures row { IfOk result (λ row. IsPlainRow shape.now.columns format body.now row) }
    ensures broken { IfErr result (Refutes
        (CodesRow (RowCoding.Plain) shape.now.columns format body.now)) }
{
    let mut packed = Vec::new(alloc);
    pack(body, &mut packed)?;
    one_plain_text();
    packed_row(alloc, shape, format, &packed)
}

/// The row that a body is in a coding.
fn spelled_row(
    alloc: Global,
    coding: RowCoding,
    shape: &Shape,
    format: u16,
    body: &[u8],
) -> Result<Row, ReadFault>
    requires columns { length shape.now.columns ≤ MOST_COLUMNS }
    requires len { length body.now < 2 ^ 30 }
    ensures row { IfOk result (λ row. RowSpelled coding shape.now.columns format body.now row) }
    ensures broken { IfErr result (Refutes
        (CodesRow coding shape.now.columns format body.now)) }
{
    match coding {
        RowCoding::Plain => plain_row(alloc, shape, format, body),
        RowCoding::Packed => packed_row(alloc, shape, format, body),
    }
}

/// Whether the program has such a value: it has every number of 64 bits, and no longer text than a
/// column may allow.
fn is_storable(value: &Value) -> bool
    ensures storable { IsTrue result → IsStorable value.now }
    ensures long { result ≡ false → IsLongText value.now }
{
    match value {
        Value::Null => true,
        Value::Int(number) => {
            let _number = *number;
            true
        }
        Value::Text(text) => text.as_slice().len() < 65_536,
    }
}

/// Whether the program has such values.
fn are_storable(values: &[Value]) -> bool
    ensures storable { IsTrue result → AreStorable values.now }
    ensures long { result ≡ false → HasLongText values.now }
{
    for value in values {
        if !is_storable(value) {
            return false;
        }
    }
    true
}

/// The row that the body of a version codes.
///
/// # Errors
///
/// `Broken` only where it codes none; `Memory`.
pub fn row_of(
    alloc: Global,
    coding: RowCoding,
    shape: &Shape,
    format: u16,
    body: &[u8],
) -> Result<Row, ReadFault>
    requires columns { length shape.now.columns ≤ MOST_COLUMNS }
    requires len { length body.now < 2 ^ 30 }
    ensures spelled { IfOk result (λ row. RowSpelled coding shape.now.columns format body.now row) }
    ensures storable { IfOk result AreStorable }
    ensures broken { IfErr result (Refutes
        (CodesRow coding shape.now.columns format body.now)) }
{
    columns_len(shape.columns.as_slice());
    let row = spelled_row(alloc, coding, shape, format, body)?;
    if !are_storable(row.as_slice()) {
        return Err(ReadFault::Broken(Rule::Links));
    }
    Ok(row)
}

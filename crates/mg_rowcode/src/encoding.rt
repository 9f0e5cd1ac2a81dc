//! Encoding: the bytes of a row, and then their packed text.

ghost use Rattle.std.specs.Prelude.{◌≡◌, ◌≤◌, ◌++◌, length, map, replicate, OnOk, OnErr, IfOk};
ghost use Rattle.mg_value.specs.Rows.{number_of_bits, bytes_of_bits, is_null, value_bytes, values_bytes, row_bytes, width_of, RowFits, FitsKind};
ghost use Rattle.mg_rle.specs.Writing.{AppendsPacked};
ghost use Rattle.mg_rowcode.specs.Storable.{AreStorable, IsStorable};

use mg_base::Memory;
use mg_rle::pack;
use mg_value::{Column, Kind, Row, Shape, Value};
use std::alloc::Global;

/// The byte whose bits tell, the lowest first, which of up to eight values are NULL.
#[tactic(auto, using(crate::proofs::BitLemmas::rest_below))]
fn null_byte(values: &[Value]) -> u8
    requires { length values.now ≤ 8 }
    ensures { result ≡ number_of_bits (map is_null values.now) }
{
    match values.split_first() {
        None => 0,
        Some((first, rest)) => {
            let later = null_byte(rest);
            if first.is_null() {
                1 + 2 * later
            } else {
                2 * later
            }
        }
    }
}

/// Appends a bit for each value.
fn put_nulls(values: &[Value], out: &mut Vec<u8>) -> Result<(), Memory>
    ensures { OnOk result
        (out.new.items ≡ out.old.items ++ bytes_of_bits (map is_null values.now)) }
{
    let mut rest = values;
    while !rest.is_empty() {
        let (eight, later) = rest.split_at(8usize.min(rest.len()));
        out.push(null_byte(eight))?;
        rest = later;
    }
    Ok(())
}

/// Appends so many zeros.
pub(crate) fn put_zeros(count: usize, out: &mut Vec<u8>) -> Result<(), Memory>
    ensures { OnOk result (out.new.items ≡ out.old.items ++ replicate count 0) }
{
    for _ in 0..count {
        out.push(0)?;
    }
    Ok(())
}

/// Appends the bytes of a value.
fn put_value(kind: Kind, value: &Value, out: &mut Vec<u8>) -> Result<(), Memory>
    requires { FitsKind kind value.now }
    ensures bytes { OnOk result (out.new.items ≡ out.old.items ++ value_bytes kind value.now) }
    ensures storable { OnOk result (IsStorable value.now) }
{
    let width = kind.width();
    match value {
        Value::Null => put_zeros(width, out)?,
        Value::Int(number) => out.extend_from_slice(&number.to_le_bytes())?,
        Value::Text(text) => {
            let bytes = text.as_slice();
            out.extend_from_slice(&(bytes.len() as u16).to_le_bytes())?;
            out.extend_from_slice(bytes)?;
            put_zeros(width - 2 - bytes.len(), out)?;
        }
    }
    Ok(())
}

/// Appends the bytes of the values.
fn put_values(columns: &[Column], values: &[Value], out: &mut Vec<u8>) -> Result<(), Memory>
    requires { RowFits columns.now values.now }
    ensures bytes { OnOk result (out.new.items ≡ out.old.items ++ values_bytes columns.now values.now) }
    ensures storable { OnOk result (AreStorable values.now) }
{
    let mut rest = values;
    for column in columns {
        let Some((value, later)) = rest.split_first() else {
            return Ok(());
        };
        put_value(column.kind, value, out)?;
        rest = later;
    }
    Ok(())
}

/// The bytes of a row.
pub(crate) fn plain_row(
    alloc: Global,
    columns: &[Column],
    values: &[Value],
) -> Result<Vec<u8>, Memory>
    requires { RowFits columns.now values.now }
    ensures bytes { IfOk result (λ plain. plain.items ≡ row_bytes columns.now values.now) }
    ensures storable { IfOk result (λ plain. AreStorable values.now) }
{
    let mut plain = Vec::new(alloc);
    put_nulls(values, &mut plain)?;
    put_values(columns, values, &mut plain)?;
    Ok(plain)
}

/// Appends the packed bytes of a row. Its values are of the types that the program has.
///
/// # Errors
///
/// `Memory` only. Then `out` is as before.
pub fn encode_row(s: &Shape, r: &Row, out: &mut Vec<u8>) -> Result<(), Memory>
    requires { RowFits s.now.columns r.now }
    ensures ok { OnOk result
        (AppendsPacked out.old.items out.new.items (row_bytes s.now.columns r.now)) }
    ensures storable { OnOk result (AreStorable r.now) }
    ensures err { OnErr result (out.new.items ≡ out.old.items) }
{
    let plain = plain_row(*out.allocator(), s.columns.as_slice(), r.as_slice())?;
    pack(&plain, out)
}

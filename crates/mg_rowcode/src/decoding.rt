//! Decoding: the row nearest to the unpacked bytes is read, and its bytes are compared with them. So
//! the first byte that differs is the place where no row goes on as the bytes do.

ghost use Rattle.std.specs.Prelude.{◌≡◌, ◌^◌, ◌<◌, ◌≤◌, ◌++◌, ◌+◌, ◌-◌, ◌/◌, length, replicate, drop, take, IfOk, IfErr, OnOk};
ghost use Rattle.std.specs.List.{sum_by};
ghost use Rattle.mg_value.specs.declared.value.Value.TheVariants.{Null};
ghost use Rattle.mg_value.specs.Rows.{columns_of, width_of, row_len_of, RowFits};
ghost use Rattle.mg_rowcode.specs.Faults.{IsRowOf, RefusesBytes};
ghost use Rattle.mg_rowcode.specs.Storable.{AreStorable, IsStorable};
ghost use Rattle.mg_rowcode.specs.Reading.{at_length, flags_of_byte, flags_of, text_len, value_in, values_in, nearest_row, near_to, IsCommonFront};

use crate::encoding::{plain_row, put_zeros};
use crate::fault::RowFault;
use mg_base::Memory;
use mg_value::{Column, Kind, MOST_COLUMNS, Txt, Value, ValueFault, columns_len};
use std::alloc::Global;

/// Appends, for up to eight columns, whether a byte says that they are NULL, where they may be.
fn put_flags_of_byte(columns: &[Column], byte: u8, flags: &mut Vec<bool>) -> Result<(), Memory>
    ensures { OnOk result (flags.new.items ≡ flags.old.items ++ flags_of_byte columns.now byte) }
{
    let mut bits = byte;
    for column in columns {
        flags.push(!column.not_null && bits % 2 == 1)?;
        bits /= 2;
    }
    Ok(())
}

/// Appends, for each column, whether the bytes say that it is NULL, where it may be.
fn put_flags(columns: &[Column], bytes: &[u8], flags: &mut Vec<bool>) -> Result<(), Memory>
    requires { (length columns.now + 7) / 8 ≤ length bytes.now }
    ensures { OnOk result (flags.new.items ≡ flags.old.items ++ flags_of columns.now bytes.now) }
{
    let mut rest = columns;
    for byte in bytes {
        let (eight, later) = rest.split_at(8usize.min(rest.len()));
        put_flags_of_byte(eight, *byte, flags)?;
        rest = later;
    }
    Ok(())
}

/// The length of a text that the front of its bytes names, or a lawful one that begins alike.
fn text_len_of(most: u16, bytes: &[u8]) -> usize
    requires { 2 ≤ length bytes.now }
    ensures len { result ≡ text_len most bytes.now }
    ensures fits { result ≤ most }
    ensures short { result < 2 ^ 16 }
{
    let len = u16::from_le_bytes([bytes[0], bytes[1]]);
    let low = u16::from(bytes[0]);
    if len <= most {
        len as usize
    } else if low <= most {
        low as usize
    } else {
        0
    }
}

/// The value of a kind that stands in these bytes.
fn read_value(alloc: Global, kind: Kind, is_null: bool, bytes: &[u8]) -> Result<Value, RowFault>
    requires { length bytes.now ≡ width_of kind }
    ensures ok { IfOk result (λ value. value ≡ value_in kind is_null bytes.now) }
    ensures storable { IfOk result IsStorable }
    ensures err { IfErr result (λ fault. fault ≡ RowFault.Memory) }
{
    if is_null {
        return Ok(Value::Null);
    }
    match kind {
        Kind::Int => Ok(Value::Int(i64::from_le_bytes([
            bytes[0], bytes[1], bytes[2], bytes[3], bytes[4], bytes[5], bytes[6], bytes[7],
        ]))),
        Kind::Text(most) => {
            let len = text_len_of(most, bytes);
            match Txt::new(alloc, &bytes[2..2 + len], most) {
                Ok(text) => Ok(Value::Text(text)),
                Err(ValueFault::Memory) => Err(RowFault::Memory),
                Err(ValueFault::TextTooLong { .. }) => unreachable!(),
            }
        }
    }
}

/// The values of these columns that stand one after the other.
fn read_values(
    alloc: Global,
    columns: &[Column],
    flags: &[bool],
    bytes: &[u8],
) -> Result<Vec<Value>, RowFault>
    requires flags { length flags.now ≡ length columns.now }
    requires room { sum_by (λ column. width_of column.kind) columns.now ≤ length bytes.now }
    ensures ok { IfOk result (λ values. values.items ≡ values_in columns.now flags.now bytes.now) }
    ensures storable { IfOk result (λ values. AreStorable values.items) }
    ensures err { IfErr result (λ fault. fault ≡ RowFault.Memory) }
{
    let mut values = Vec::with_capacity(alloc, columns.len())?;
    let mut rest = bytes;
    for (i, column) in columns.iter().enumerate() {
        let (front, later) = rest.split_at(column.kind.width());
        values.push(read_value(alloc, column.kind, flags[i], front)?)?;
        rest = later;
    }
    Ok(values)
}

/// How many bytes at the front are equal.
fn common_len(a: &[u8], b: &[u8]) -> usize
    ensures { IsCommonFront a.now b.now result }
{
    let mut count = 0;
    while count < a.len() && count < b.len() && a[count] == b[count] {
        count += 1;
    }
    count
}

/// The values of the row nearest to the bytes: the one that has all that the bytes have of any row.
fn nearest(alloc: Global, columns: &[Column], bytes: &[u8]) -> Result<Vec<Value>, RowFault>
    requires { length bytes.now ≡ row_len_of columns.now }
    ensures ok { IfOk result (λ values. values.items ≡ nearest_row columns.now bytes.now) }
    ensures storable { IfOk result (λ values. AreStorable values.items) }
    ensures err { IfErr result (λ fault. fault ≡ RowFault.Memory) }
{
    let (bits, rest) = bytes.split_at(columns.len().div_ceil(8));
    let mut flags = Vec::with_capacity(alloc, columns.len())?;
    put_flags(columns, bits, &mut flags)?;
    read_values(alloc, columns, &flags, rest)
}

/// The bytes at a length: cut, or with zeros behind them.
fn copy_at_length(alloc: Global, bytes: &[u8], len: usize) -> Result<Vec<u8>, RowFault>
    ensures ok { IfOk result (λ copy. copy.items ≡ at_length len bytes.now) }
    ensures err { IfErr result (λ fault. fault ≡ RowFault.Memory) }
{
    let (front, _) = bytes.split_at(len.min(bytes.len()));
    let mut copy = front.to_vec(alloc)?;
    put_zeros(len - front.len(), &mut copy)?;
    Ok(copy)
}

/// The values of the row nearest to the bytes, where a row of these columns has `len` bytes.
fn nearest_to(
    alloc: Global,
    columns: &[Column],
    plain: &[u8],
    len: usize,
) -> Result<Vec<Value>, RowFault>
    requires { len ≡ row_len_of columns.now }
    ensures ok { IfOk result (λ values. values.items ≡ near_to columns.now plain.now) }
    ensures fits { IfOk result (λ values. RowFits columns.now values.items) }
    ensures storable { IfOk result (λ values. AreStorable values.items) }
    ensures err { IfErr result (λ fault. fault ≡ RowFault.Memory) }
{
    let whole = copy_at_length(alloc, plain, len)?;
    let values = nearest(alloc, columns, &whole)?;
    Ok(values)
}

/// The values of the row that the bytes are.
pub(crate) fn decode_plain(
    alloc: Global,
    columns: &[Column],
    plain: &[u8],
) -> Result<Vec<Value>, RowFault>
    requires { length columns.now ≤ MOST_COLUMNS }
    ensures ok { IfOk result (λ values. IsRowOf columns.now plain.now values.items) }
    ensures storable { IfOk result (λ values. AreStorable values.items) }
    ensures err { IfErr result (RefusesBytes columns.now plain.now) }
{
    let len = columns_len(columns);
    let values = nearest_to(alloc, columns, plain, len)?;
    let again = plain_row(alloc, columns, &values)?;
    let same = common_len(plain, &again);
    if same < plain.len() {
        return Err(RowFault::BadRow { at: same as u32 });
    }
    if same < again.len() {
        return Err(RowFault::BadRow { at: same as u32 });
    }
    Ok(values)
}

//! Decoding a stored row: what it unpacks to, the columns of its format, and the later columns.

ghost use Rattle.std.specs.Prelude.{◌≡◌, ◌^◌, ◌<◌, ◌≤◌, ◌++◌, length, replicate, IfOk, IfErr, OnOk};
ghost use Rattle.mg_rle.specs.Runs.{StandsFor};
ghost use Rattle.mg_value.specs.declared.value.Value.TheVariants.{Null};
ghost use Rattle.mg_value.specs.Rows.{columns_of};
ghost use Rattle.mg_rowcode.specs.Faults.{DecodesTo, Refuses, RefusesRun};
ghost use Rattle.mg_rowcode.specs.Storable.{AreStorable};

use crate::decoding::decode_plain;
use crate::fault::RowFault;
use mg_base::Memory;
use mg_rle::{RunFault, unpack};
use mg_value::{Column, MOST_COLUMNS, Row, Shape, Value};
use std::alloc::Global;

/// The plain text of a packed text.
fn unpacked(alloc: Global, packed: &[u8]) -> Result<Vec<u8>, RowFault>
    requires { length packed.now < 2 ^ 31 }
    ensures ok { IfOk result (λ plain. StandsFor packed.now plain.items) }
    ensures err { IfErr result (RefusesRun packed.now) }
{
    let mut plain = Vec::new(alloc);
    match unpack(packed, &mut plain) {
        Ok(()) => Ok(plain),
        Err(RunFault::BadRun { at }) => Err(RowFault::BadRun { at }),
        Err(RunFault::Memory) => Err(RowFault::Memory),
    }
}

/// The columns that rows of a format have.
fn columns_in(columns: &[Column], format: u16) -> &[Column]
    ensures { result.now ≡ columns_of columns.now format }
{
    let mut count = 0;
    while count < columns.len() && columns[count].since <= format {
        count += 1;
    }
    &columns[..count]
}

/// Appends NULL so many times.
fn push_nulls(values: &mut Vec<Value>, count: usize) -> Result<(), Memory>
    ensures { OnOk result (values.new.items ≡ values.old.items ++ replicate count Null) }
{
    for _ in 0..count {
        values.push(Value::Null)?;
    }
    Ok(())
}

/// The row that a packed text is, for a record of this format. Columns that came later are NULL.
///
/// # Errors
///
/// `BadRun` exactly where the text is no packed text, with the place of the first run that breaks
/// the rule; else `BadRow` exactly where no row of the shape and the format has the unpacked bytes,
/// with the length of their longest front with which some such row begins; or `Memory`.
pub fn decode_row(alloc: Global, s: &Shape, format: u16, packed: &[u8]) -> Result<Row, RowFault>
    requires columns { length s.now.columns ≤ MOST_COLUMNS }
    requires len { length packed.now < 2 ^ 31 }
    ensures ok { IfOk result (DecodesTo s.now.columns format packed.now) }
    ensures storable { IfOk result AreStorable }
    ensures err { IfErr result (Refuses (columns_of s.now.columns format) packed.now) }
{
    let plain = unpacked(alloc, packed)?;
    let columns = s.columns.as_slice();
    let stored = columns_in(columns, format);
    let mut values = decode_plain(alloc, stored, &plain)?;
    push_nulls(&mut values, columns.len() - stored.len())?;
    Ok(Row::new(values))
}

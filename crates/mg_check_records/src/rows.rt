//! The rows of versions.

ghost use Rattle.std.specs.Prelude.{◌≡◌, ◌≤◌, ◌<◌, ◌^◌, IfOk, MatchOption, length, true};
ghost use Rattle.mg_check_data.specs.DataRung.{wanted_of as wanted_for};
ghost use Rattle.mg_check_records.specs.Walks.{IsFirstKept, at_cell as finding_at};
ghost use Rattle.mg_check_records.specs.Reads.{IsCoded, IsRead};
ghost use Rattle.mg_image.specs.RecordRules.{IsKeyAlone};
ghost use Rattle.mg_slots.specs.declared.page.TheConstants.{GREATEST_SIZE};
ghost use Rattle.mg_value.specs.Rows.{columns_of, row_len_of};

use crate::erased::erased_shape;
use mg_base::{Field, Memory, RecId};
use mg_findings::{Finding, Rule};
use mg_model::Table;
use mg_rowcode::{RowFault, decode_row};
use mg_value::{Column, MOST_COLUMNS, Row, Shape, Value, columns_len};
use mg_version::Version;
use std::alloc::Global;

/// The row of a version, or what is found of it.
#[derive(Drop)]
pub(crate) enum Read {
    Row(Row),
    Stopped(Finding),
}

/// A damage at a cell.
pub(crate) fn at_cell(x: RecId, field: Field, found: u64, wanted: u64) -> Finding
    ensures { result ≡ finding_at x field found wanted }
{
    Finding {
        page: x.page,
        slot: x.slot,
        what: Rule::Damage(field),
        found,
        wanted,
    }
}

/// The length that is wanted of bytes of which so many are well formed.
fn wanted_of(at: u32, len: usize) -> u64
    requires { len < 2 ^ 32 }
    ensures { result ≡ wanted_for at len }
{
    if at as usize == len {
        len as u64 + 1
    } else {
        len as u64
    }
}

/// How many bytes a row of a format has.
fn stored_len(columns: &[Column], format: u16) -> usize
    requires { length columns.now ≤ MOST_COLUMNS }
    ensures len { result ≡ row_len_of (columns_of columns.now format) }
    ensures short { result < 2 ^ 32 }
{
    columns_len(columns_in(columns, format))
}

/// The columns that rows of a format have.
fn columns_in(columns: &[Column], format: u16) -> &[Column]
    ensures is { result.now ≡ columns_of columns.now format }
    ensures len { length result.now ≤ length columns.now }
{
    let mut count = 0;
    while count < columns.len() && columns[count].since <= format {
        count += 1;
    }
    &columns[..count]
}

/// The first place of a row but the key's that has a value.
fn first_kept(table: &Table, row: &[Value]) -> Option<usize>
    ensures { MatchOption result (IsKeyAlone table.now row.now) (IsFirstKept table.now row.now) }
{
    let key = usize::from(table.shape.key);
    for (at, value) in row.iter().enumerate() {
        if at != key && !value.is_null() {
            return Some(at);
        }
    }
    None
}

/// The row that the body of a version of the first format codes, of a shape, or what is found of it.
///
/// # Errors
///
/// `Memory` only.
fn coded_row(alloc: Global, shape: &Shape, x: RecId, version: &Version) -> Result<Read, Memory>
    requires columns { length shape.now.columns ≤ MOST_COLUMNS }
    requires short { length version.now.body ≤ GREATEST_SIZE }
    ensures { IfOk result (IsCoded shape.now.columns x version.now) }
{
    match decode_row(alloc, shape, version.format, version.body.as_slice()) {
        Ok(row) => Ok(Read::Row(row)),
        Err(RowFault::Memory) => Err(Memory),
        Err(RowFault::BadRun { at }) => {
            let wanted = wanted_of(at, version.body.len());
            Ok(Read::Stopped(at_cell(x, Field::Run, u64::from(at), wanted)))
        }
        Err(RowFault::BadRow { at }) => {
            let wanted = wanted_of(at, stored_len(shape.columns.as_slice(), version.format));
            Ok(Read::Stopped(at_cell(x, Field::Row, u64::from(at), wanted)))
        }
    }
}

/// The row of a deletion of the first format, or what is found of it.
fn erased_row(alloc: Global, table: &Table, x: RecId, version: &Version) -> Result<Read, Memory>
    requires columns { length table.now.shape.columns ≤ MOST_COLUMNS }
    requires short { length version.now.body ≤ GREATEST_SIZE }
    requires deleted { version.now.deleted ≡ true }
    requires format { version.now.format ≡ 1 }
    ensures { IfOk result (IsRead table.now x version.now) }
{
    let shape = erased_shape(alloc, &table.shape)?;
    let row = match coded_row(alloc, &shape, x, version)? {
        Read::Row(row) => row,
        Read::Stopped(finding) => return Ok(Read::Stopped(finding)),
    };
    match first_kept(table, row.as_slice()) {
        None => Ok(Read::Row(row)),
        Some(i) => {
            let len = stored_len(shape.columns.as_slice(), version.format);
            Ok(Read::Stopped(at_cell(x, Field::Row, (i / 8) as u64, len as u64)))
        }
    }
}

/// The row of a version of a table, which stands at this place, or what is found of it.
///
/// # Errors
///
/// `Memory` only.
pub(crate) fn read_row(
    alloc: Global,
    table: &Table,
    x: RecId,
    version: &Version,
) -> Result<Read, Memory>
    requires columns { length table.now.shape.columns ≤ MOST_COLUMNS }
    requires short { length version.now.body ≤ GREATEST_SIZE }
    ensures { IfOk result (IsRead table.now x version.now) }
{
    if version.format != 1 {
        let format = u64::from(version.format);
        return Ok(Read::Stopped(at_cell(x, Field::Format, format, 1)));
    }
    if version.deleted {
        return erased_row(alloc, table, x, version);
    }
    coded_row(alloc, &table.shape, x, version)
}

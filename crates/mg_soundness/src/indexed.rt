//! Whether the rows of records are found in the indexes of their tables.

ghost use Rattle.std.specs.Prelude.{◌↔◌, IfOk, IsTrue};
ghost use Rattle.mg_image.specs.Indexes.{AreTrees, IsFoundIn};
ghost use Rattle.mg_image.specs.Tables.{EachStand, stands_of};
ghost use Rattle.mg_layout.specs.Standing.{layout_in, stand_in, stands_in};
ghost use Rattle.mg_reading.specs.ImageView.{pages_in};
ghost use Rattle.mg_soundness.specs.IndexRule.{EachAt, IsLimboFound, IsRecordIndexed, IsShownFound, IsTableIndexed};
ghost use Rattle.mg_soundness.specs.Joined.{AreSettled, EachRead, EachTable, IsTested, founds_in};

use crate::records::TableRecords;
use mg_base::{Memory, RecId, TxState};
use mg_layout::{Standing, TableStand};
use mg_reading::{Found, Image, shown};
use mg_trees::is_found_in;
use mg_value::Value;
use std::alloc::Global;

/// Whether a row of a record is found in the indexes of its table.
fn is_row_found(
    alloc: Global,
    image: &Image,
    stand: &TableStand,
    p: RecId,
    row: &[Value],
) -> Result<bool, Memory>
    requires trees { IsTested image.now (stand_in stand.now) }
    ensures { IfOk result (λ found.
        IsTrue found ↔ IsFoundIn (pages_in image.now) stand.now.table.indexes p row.now) }
{
    let indexes = stand.table.indexes.as_slice();
    is_found_in(alloc, image, indexes, &stand.trees, p, row)
}

/// Whether the row that a record shows is found in the indexes of its table.
fn is_shown_found(
    alloc: Global,
    image: &Image,
    stand: &TableStand,
    record: &Found,
) -> Result<bool, Memory>
    requires trees { IsTested image.now (stand_in stand.now) }
    ensures { IfOk result (λ found. IsTrue found
        ↔ IsShownFound image.now stand.now.table record.now.at record.now.entries.items) }
{
    match shown(image, &record.entries) {
        None => Ok(true),
        Some(row) => is_row_found(alloc, image, stand, record.at, row.as_slice()),
    }
}

/// Whether the row of a record's limbo version, where it is no deletion, is found in the indexes of
/// its table.
fn is_limbo_found(
    alloc: Global,
    image: &Image,
    stand: &TableStand,
    record: &Found,
) -> Result<bool, Memory>
    requires trees { IsTested image.now (stand_in stand.now) }
    ensures { IfOk result (λ found. IsTrue found
        ↔ IsLimboFound image.now stand.now.table record.now.at record.now.entries.items) }
{
    let Some((newest, _)) = record.entries.split_first() else {
        return Ok(true);
    };
    if image.state(newest.version.tx.0) != TxState::Limbo {
        return Ok(true);
    }
    if newest.version.deleted {
        return Ok(true);
    }
    is_row_found(alloc, image, stand, record.at, newest.row.as_slice())
}

/// Whether the rows of a record are found in the indexes of its table.
fn is_record_indexed(
    alloc: Global,
    image: &Image,
    stand: &TableStand,
    record: &Found,
) -> Result<bool, Memory>
    requires trees { IsTested image.now (stand_in stand.now) }
    ensures { IfOk result (λ found. IsTrue found
        ↔ IsRecordIndexed image.now stand.now.table record.now.at record.now.entries.items) }
{
    if !is_shown_found(alloc, image, stand, record)? {
        return Ok(false);
    }
    is_limbo_found(alloc, image, stand, record)
}

/// Whether the rows of each of these records of a table are found in its indexes.
fn are_records_indexed(
    alloc: Global,
    image: &Image,
    stand: &TableStand,
    found: &[Found],
) -> Result<bool, Memory>
    requires trees { IsTested image.now (stand_in stand.now) }
    ensures { IfOk result (λ all. IsTrue all
        ↔ EachAt (IsRecordIndexed image.now stand.now.table) found.now) }
{
    let mut rest = found;
    while let Some((record, later)) = rest.split_first() {
        if !is_record_indexed(alloc, image, stand, record)? {
            return Ok(false);
        }
        rest = later;
    }
    Ok(true)
}

/// Whether the rows of a table are found in its indexes.
fn is_table_indexed(
    alloc: Global,
    image: &Image,
    stand: &TableStand,
    found: &[Found],
) -> Result<bool, Memory>
    requires trees { IsTested image.now (stand_in stand.now) }
    requires settled { AreSettled found.now }
    ensures { IfOk result (λ all.
        IsTrue all ↔ IsTableIndexed image.now (stand_in stand.now) found.now) }
{
    are_records_indexed(alloc, image, stand, found)
}

/// Whether the rows of each of these tables are found in its indexes. It is false where there is not
/// one list for each table.
fn are_tables_indexed(
    alloc: Global,
    image: &Image,
    stands: &[TableStand],
    records: &[TableRecords],
) -> Result<bool, Memory>
    requires trees { EachStand (IsTested image.now) (stands_in stands.now) }
    requires settled { EachRead AreSettled (founds_in records.now) }
    ensures { IfOk result (λ all. IsTrue all
        ↔ EachTable (IsTableIndexed image.now) (stands_in stands.now) (founds_in records.now)) }
{
    let mut rest = stands;
    let mut left = records;
    while let Some((stand, later)) = rest.split_first() {
        let Some((table, others)) = left.split_first() else {
            return Ok(false);
        };
        if !is_table_indexed(alloc, image, stand, &table.found)? {
            return Ok(false);
        }
        rest = later;
        left = others;
    }
    Ok(left.is_empty())
}

/// Whether the rows of the catalog and of each table are found in its indexes. It is false where
/// there is not one list for each table.
///
/// # Errors
///
/// `Memory` only.
pub fn are_all_indexed(
    alloc: Global,
    image: &Image,
    standing: &Standing,
    records: &[TableRecords],
) -> Result<bool, Memory>
    requires trees { EachStand (IsTested image.now) (stands_of (layout_in standing.now)) }
    requires settled { EachRead AreSettled (founds_in records.now) }
    ensures { IfOk result (λ all. IsTrue all ↔ EachTable (IsTableIndexed image.now)
        (stands_of (layout_in standing.now)) (founds_in records.now)) }
{
    let Some((catalog, tables)) = records.split_first() else {
        return Ok(false);
    };
    if !is_table_indexed(alloc, image, &standing.catalog, &catalog.found)? {
        return Ok(false);
    }
    are_tables_indexed(alloc, image, &standing.tables, tables)
}

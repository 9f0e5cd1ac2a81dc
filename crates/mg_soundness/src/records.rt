//! The records of all tables of an image, and the tests of them.

ghost use Rattle.std.specs.Prelude.{◌↔◌, IfErr, IfOk, IsTrue};
ghost use Rattle.mg_image.specs.Tables.{stands_of};
ghost use Rattle.mg_layout.specs.Standing.{layout_in, stand_in, stands_in};
ghost use Rattle.mg_reading.specs.Found.{image_facts, reading_of};
ghost use Rattle.mg_reading.specs.Readable.{HasVersionReading};
ghost use Rattle.mg_reading.specs.RecordParts.{AreBacks, AreDrawn};
ghost use Rattle.mg_reading.specs.declared.point.Rule.TheVariants.{Links};
ghost use Rattle.mg_soundness.specs.Joined.{AreSettled, AreTested, EachRead, EachTable, IsKeyed, IsTableRead, IsTested, RefutesBy, founds_in};
ghost use Rattle.mg_soundness.specs.Rungs.{HasReadingOf, MeetsLinks};

use mg_layout::{Standing, TableStand};
use mg_reading::{
    Found, Image, ReadFault, RowCoding, Rule, are_backs_committed, are_drawn, have_own_keys,
    read_versions,
};
use std::alloc::Global;

/// The records of a table: of each slot of its data pages what was read.
#[derive(Drop)]
pub struct TableRecords {
    pub found: Vec<Found>,
}

/// Reads the versions of the records of a table.
///
/// # Errors
///
/// `Links` only where no reading gives each record its versions; `Memory`.
fn read_stand(
    alloc: Global,
    image: &Image,
    coding: RowCoding,
    stand: &TableStand,
) -> Result<TableRecords, ReadFault>
    requires { IsTested image.now (stand_in stand.now) }
    ensures read { IfOk result (λ read.
        IsTableRead coding image.now (stand_in stand.now) read.found.items) }
    ensures broken { IfErr result (RefutesBy Links (HasVersionReading coding image.now
        stand.now.table stand.now.pages.data_pages.items)) }
{
    match read_versions(alloc, image, &stand.table, coding, &stand.pages.data_pages) {
        Ok(found) => Ok(TableRecords { found }),
        Err(ReadFault::Broken(_)) => Err(ReadFault::Broken(Rule::Links)),
        Err(ReadFault::Memory) => Err(ReadFault::Memory),
    }
}

/// Reads the versions of the records of the catalog and then of each table.
///
/// # Errors
///
/// `Links` only where no reading gives each record its versions; `Memory`.
pub fn read_tables(
    alloc: Global,
    image: &Image,
    coding: RowCoding,
    standing: &Standing,
) -> Result<Vec<TableRecords>, ReadFault>
    requires { AreTested image.now (stands_of (layout_in standing.now)) }
    ensures read { IfOk result (λ records. EachTable (IsTableRead coding image.now)
        (stands_of (layout_in standing.now)) (founds_in records.items)) }
    ensures broken { IfErr result (RefutesBy Links
        (HasReadingOf MeetsLinks coding image.now (layout_in standing.now))) }
{
    let mut records = Vec::new(alloc);
    records.push(read_stand(alloc, image, coding, &standing.catalog)?)?;
    let mut rest = standing.tables.as_slice();
    while let Some((stand, later)) = rest.split_first() {
        records.push(read_stand(alloc, image, coding, stand)?)?;
        rest = later;
    }
    Ok(records)
}

/// Whether the transactions of all versions are drawn, and interesting still where they are dead.
pub fn are_all_drawn(image: &Image, records: &[TableRecords]) -> bool
    requires { EachRead AreSettled (founds_in records.now) }
    ensures { IsTrue result ↔ EachRead (λ found. AreDrawn (image_facts image.now)
        (reading_of found)) (founds_in records.now) }
{
    let mut rest = records;
    while let Some((table, later)) = rest.split_first() {
        if !are_drawn(image, &table.found) {
            return false;
        }
        rest = later;
    }
    true
}

/// Whether all back versions are committed.
pub fn are_all_backs_committed(image: &Image, records: &[TableRecords]) -> bool
    requires { EachRead AreSettled (founds_in records.now) }
    ensures { IsTrue result ↔ EachRead (λ found. AreBacks (image_facts image.now)
        (reading_of found)) (founds_in records.now) }
{
    let mut rest = records;
    while let Some((table, later)) = rest.split_first() {
        if !are_backs_committed(image, &table.found) {
            return false;
        }
        rest = later;
    }
    true
}

/// Whether of each of these tables each record has one key, and no two take one. It is false where
/// there is not one list for each table.
fn have_tables_own_keys(image: &Image, stands: &[TableStand], records: &[TableRecords]) -> bool
    requires { EachRead AreSettled (founds_in records.now) }
    ensures { IsTrue result ↔ EachTable (IsKeyed image.now) (stands_in stands.now)
        (founds_in records.now) }
{
    let mut rest = stands;
    let mut left = records;
    while let Some((stand, later)) = rest.split_first() {
        let Some((table, others)) = left.split_first() else {
            return false;
        };
        if !have_own_keys(image, &stand.table, &table.found) {
            return false;
        }
        rest = later;
        left = others;
    }
    left.is_empty()
}

/// Whether each record of the catalog and of each table has one key, and no two of a table take
/// one. It is false where there is not one list for each table.
pub fn have_all_own_keys(image: &Image, standing: &Standing, records: &[TableRecords]) -> bool
    requires { EachRead AreSettled (founds_in records.now) }
    ensures { IsTrue result ↔ EachTable (IsKeyed image.now) (stands_of (layout_in standing.now))
        (founds_in records.now) }
{
    let Some((catalog, tables)) = records.split_first() else {
        return false;
    };
    if !have_own_keys(image, &standing.catalog.table, &catalog.found) {
        return false;
    }
    have_tables_own_keys(image, &standing.tables, tables)
}

//! The rules of records one by one: which versions the records of a table have, and the tests of
//! their transactions, of back versions and of keys.

ghost use Rattle.std.specs.Prelude.{◌≤◌, ◌↔◌, false, IfErr, IfOk, IsTrue, length};
ghost use Rattle.mg_reading.specs.Found.{AreFound, AreOf, EachFound, image_facts, reading_of};
ghost use Rattle.mg_reading.specs.ImageView.{pages_in};
ghost use Rattle.mg_reading.specs.Readable.{HasTableVersions, HasVersionReading, IsOnlyReading, Refutes};
ghost use Rattle.mg_reading.specs.RecordParts.{AreBacks, AreBacksCommitted, AreDrawn, AreKeyed, HaveOneKey, IsDrawn};
ghost use Rattle.mg_image.specs.RecordRules.{Each};
ghost use Rattle.mg_image.specs.Sound.{IsTableData};
ghost use Rattle.mg_image.specs.Tables.{EachFrom};

use crate::found::Found;
use crate::image::Image;
use crate::pairs::{are_apart, have_keys};
use crate::point::{ReadFault, Rule};
use crate::reading::read_slots;
use crate::record::{are_back_versions_committed, are_versions_drawn, have_one_key};
use crate::rows::RowCoding;
use mg_model::Table;
use mg_value::MOST_COLUMNS;
use std::alloc::Global;

/// The records of a table with their versions, by its tested data pages: what was read of each of
/// their slots. Who wrote a version, and which keys the records have, is not tested.
///
/// # Errors
///
/// `Broken` only where no reading gives each record its versions: a link meets no version of the
/// transaction that it names, a cell is met twice, one lies outside the table's data pages, or a
/// body codes no row of the table; `Memory`.
pub fn read_versions(
    alloc: Global,
    image: &Image,
    table: &Table,
    coding: RowCoding,
    data_pages: &[u32],
) -> Result<Vec<Found>, ReadFault>
    requires columns { length table.now.shape.columns ≤ MOST_COLUMNS }
    requires tested { EachFrom (IsTableData false image.now.size (pages_in image.now)
        table.now.pointer.0) 0 data_pages.now }
    ensures versions { IfOk result (λ found. HasTableVersions coding image.now table.now
        data_pages.now (reading_of found.items)) }
    ensures found { IfOk result (λ found. AreOf (reading_of found.items) found.items) }
    ensures slots { IfOk result (λ found.
        AreFound coding image.now table.now data_pages.now found.items) }
    ensures only { IfOk result (λ found. IsOnlyReading coding image.now table.now
        data_pages.now (reading_of found.items)) }
    ensures broken { IfErr result (Refutes
        (HasVersionReading coding image.now table.now data_pages.now)) }
{
    let found = read_slots(alloc, image, table, coding, data_pages)?;
    if !are_apart(&found) {
        return Err(ReadFault::Broken(Rule::Links));
    }
    Ok(found)
}

/// Whether the transaction of each version of these records was drawn, and is interesting still
/// where it is dead.
pub fn are_drawn(image: &Image, found: &[Found]) -> bool
    requires { AreOf (reading_of found.now) found.now }
    ensures { IsTrue result ↔ AreDrawn (image_facts image.now) (reading_of found.now) }
{
    let mut rest = found;
    while let Some((first, later)) = rest.split_first() {
        if !are_versions_drawn(image, &first.entries) {
            return false;
        }
        rest = later;
    }
    true
}

/// Whether each back version of these records is committed.
pub fn are_backs_committed(image: &Image, found: &[Found]) -> bool
    requires { AreOf (reading_of found.now) found.now }
    ensures { IsTrue result ↔ AreBacks (image_facts image.now) (reading_of found.now) }
{
    let mut rest = found;
    while let Some((first, later)) = rest.split_first() {
        if !are_back_versions_committed(image, &first.entries) {
            return false;
        }
        rest = later;
    }
    true
}

/// Whether each of these records of a table has one key.
fn has_each_one_key(table: &Table, found: &[Found]) -> bool
    ensures { IsTrue result ↔ EachFound (HaveOneKey table.now) found.now }
{
    let mut rest = found;
    while let Some((first, later)) = rest.split_first() {
        if !have_one_key(table, &first.entries) {
            return false;
        }
        rest = later;
    }
    true
}

/// Whether each of these records of a table has one key, and no two take one.
pub fn have_own_keys(image: &Image, table: &Table, found: &[Found]) -> bool
    requires { AreOf (reading_of found.now) found.now }
    ensures { IsTrue result
        ↔ AreKeyed (image_facts image.now) table.now (reading_of found.now) }
{
    has_each_one_key(table, found) && have_keys(image, table, found)
}

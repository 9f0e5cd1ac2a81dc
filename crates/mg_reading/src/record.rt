//! A record of a table: its versions, the newest first, and the tests of them.

ghost use Rattle.std.specs.Prelude.{◌≡◌, ◌≤◌, ◌↔◌, false, IfErr, IfOk, IsTrue, length};
ghost use Rattle.mg_base.specs.declared.transaction.TxState.TheVariants.{Committed};
ghost use Rattle.std.proofs.Common.{get_or};
ghost use Rattle.mg_value.specs.declared.value.Value.TheVariants.{Null as NoValue};
ghost use Rattle.mg_reading.specs.ImageView.{pages_in};
ghost use Rattle.mg_image.specs.Inventory.{state_at};
ghost use Rattle.mg_reading.specs.Found.{image_facts};
ghost use Rattle.mg_reading.specs.OneTable.{IsLinked, IsPlaced, IsStoredIn};
ghost use Rattle.mg_reading.specs.Readable.{HasEntry, HasRecord, IsOnlyRecord, IsRecordFrom, Refutes};
ghost use Rattle.mg_reading.specs.RecordParts.{AreBacksCommitted, HaveOneKey, IsDrawn};
ghost use Rattle.mg_image.specs.RecordRules.{Each};
ghost use Rattle.mg_image.specs.Records.{Stands, key_of, writer};
ghost use Rattle.mg_image.specs.Sound.{IsTableData};
ghost use Rattle.mg_image.specs.Tables.{EachFrom};

use crate::image::Image;
use crate::point::{ReadFault, Rule};
use crate::rows::RowCoding;
use crate::versions::{is_drawn, version_at, version_row};
use mg_base::{RecId, TxState};
use mg_image::{Entry, one_reading};
use mg_model::Table;
use mg_value::{MOST_COLUMNS, Value, order, values_are_ordered};
use mg_version::Link;
use std::alloc::Global;
use std::cmp::Ordering;

/// The version that a link leads to, with its row.
///
/// # Errors
///
/// `Broken` only where there is none whose body codes a row of the table; `Memory`.
fn read_entry(
    alloc: Global,
    image: &Image,
    table: &Table,
    coding: RowCoding,
    data_pages: &[u32],
    link: Link,
) -> Result<Entry, ReadFault>
    requires columns { length table.now.shape.columns ≤ MOST_COLUMNS }
    requires tested { EachFrom (IsTableData false image.now.size (pages_in image.now)
        table.now.pointer.0) 0 data_pages.now }
    ensures linked { IfOk result (IsLinked image.now link) }
    ensures stored { IfOk result (IsStoredIn coding image.now table.now data_pages.now) }
    ensures placed { IfOk result IsPlaced }
    ensures broken { IfErr result (Refutes
        (HasEntry coding image.now table.now data_pages.now link)) }
{
    let version = version_at(alloc, image, table.pointer.0, data_pages, link)?;
    if version.format != 1 {
        return Err(ReadFault::Broken(Rule::Links));
    }
    let row = version_row(alloc, table, coding, &version)?;
    Ok(Entry {
        at: link.rec,
        version,
        row,
    })
}

/// The versions of a record, from the link that its primary slot has on.
///
/// # Errors
///
/// `Broken` only where the link begins no record of the table; `Memory`.
pub(crate) fn read_record(
    alloc: Global,
    image: &Image,
    table: &Table,
    coding: RowCoding,
    data_pages: &[u32],
    newest: Option<Link>,
) -> Result<Vec<Entry>, ReadFault>
    requires columns { length table.now.shape.columns ≤ MOST_COLUMNS }
    requires tested { EachFrom (IsTableData false image.now.size (pages_in image.now)
        table.now.pointer.0) 0 data_pages.now }
    ensures record { IfOk result (λ es.
        IsRecordFrom coding image.now table.now data_pages.now newest es.items) }
    ensures only { IfOk result (λ es.
        IsOnlyRecord coding image.now table.now data_pages.now newest es.items) }
    ensures broken { IfErr result (Refutes
        (HasRecord coding image.now table.now data_pages.now newest)) }
{
    one_reading();
    let mut entries = Vec::new(alloc);
    let mut next = newest;
    while let Some(link) = next {
        if stands(&entries, link.rec) {
            return Err(ReadFault::Broken(Rule::Links));
        }
        let entry = read_entry(alloc, image, table, coding, data_pages, link)?;
        next = entry.version.back;
        entries.push(entry)?;
    }
    Ok(entries)
}

/// Whether a cell is one of those of these versions.
pub(crate) fn stands(entries: &[Entry], x: RecId) -> bool
    ensures { IsTrue result ↔ Stands entries.now x }
{
    let mut rest = entries;
    while let Some((entry, older)) = rest.split_first() {
        if entry.at == x {
            return true;
        }
        rest = older;
    }
    false
}

/// Whether a row has this value at a place, NULL past its end.
fn has_value(values: &[Value], at: usize, key: &Value) -> bool
    ensures { IsTrue result ↔ (get_or values.now at NoValue ≡ key.now) }
{
    values_are_ordered();
    match values.get(at) {
        Some(value) => order(value, key) == Ordering::Equal,
        None => key.is_null(),
    }
}

/// Whether two rows have the same value at a place, NULL past their ends.
pub(crate) fn have_same_value(a: &[Value], b: &[Value], at: usize) -> bool
    ensures { IsTrue result ↔ (get_or a.now at NoValue ≡ get_or b.now at NoValue) }
{
    match b.get(at) {
        Some(value) => has_value(a, at, value),
        None => has_value(a, at, &Value::Null),
    }
}

/// Whether the rows of these versions have the key that a row has.
fn have_key(table: &Table, entries: &[Entry], row: &[Value]) -> bool
    ensures { IsTrue result ↔ Each (λ e. key_of table.now e.row ≡ key_of table.now row.now)
        entries.now }
{
    let mut rest = entries;
    while let Some((entry, older)) = rest.split_first() {
        if !have_same_value(entry.row.as_slice(), row, usize::from(table.shape.key)) {
            return false;
        }
        rest = older;
    }
    true
}

/// Whether each of these versions is of a committed transaction.
fn are_committed(image: &Image, entries: &[Entry]) -> bool
    ensures { IsTrue result ↔ Each (λ e.
        state_at image.now.size (pages_in image.now) (writer e) ≡ Committed) entries.now }
{
    let mut rest = entries;
    while let Some((entry, older)) = rest.split_first() {
        if image.state(entry.version.tx.0) != TxState::Committed {
            return false;
        }
        rest = older;
    }
    true
}

/// Whether each of these versions is of a drawn transaction, and of an interesting one where it is
/// dead.
pub(crate) fn are_versions_drawn(image: &Image, entries: &[Entry]) -> bool
    ensures { IsTrue result ↔ Each (IsDrawn (image_facts image.now)) entries.now }
{
    let mut rest = entries;
    while let Some((entry, older)) = rest.split_first() {
        if !is_drawn(image, entry.version.tx.0) {
            return false;
        }
        rest = older;
    }
    true
}

/// Whether each back version of a record is committed.
pub(crate) fn are_back_versions_committed(image: &Image, entries: &[Entry]) -> bool
    ensures { IsTrue result ↔ AreBacksCommitted (image_facts image.now) entries.now }
{
    let Some((_, older)) = entries.split_first() else {
        return true;
    };
    are_committed(image, older)
}

/// Whether all versions of a record have the key of the newest.
pub(crate) fn have_one_key(table: &Table, entries: &[Entry]) -> bool
    ensures { IsTrue result ↔ HaveOneKey table.now entries.now }
{
    let Some((newest, _)) = entries.split_first() else {
        return true;
    };
    have_key(table, entries, newest.row.as_slice())
}

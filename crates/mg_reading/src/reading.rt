//! The slots of a table: what is read of each, and the rows that are shown.

ghost use Rattle.std.specs.Prelude.{◌≡◌, ◌≤◌, false, IfErr, IfOk, MatchOption, None, OnOk, Some, length};
ghost use Rattle.mg_slots.specs.DataPage.{slot_count};
ghost use Rattle.mg_reading.specs.Found.{AreFound, IsFound, KeepsRead, PagesRead, SlotsRead, committed_of};
ghost use Rattle.mg_reading.specs.ImageView.{pages_in};
ghost use Rattle.mg_image.specs.Records.{cells_of, newest_of, shown as shown_by};
ghost use Rattle.mg_reading.specs.Readable.{HasRecord, HasVersionReading, Refutes};
ghost use Rattle.mg_image.specs.Sound.{IsTableData};
ghost use Rattle.mg_image.specs.Tables.{EachFrom, Has};

use crate::found::Found;
use crate::image::Image;
use crate::point::ReadFault;
use crate::record::read_record;
use crate::rows::RowCoding;
use crate::versions::cell_at;
use mg_base::{PageNo, RecId, TxState, get_u16};
use mg_image::Entry;
use mg_model::Table;
use mg_slots::COUNT_AT;
use mg_value::{MOST_COLUMNS, Row};
use mg_version::{Cell, Link};
use std::alloc::Global;

/// Where the newest version of a record is, by the cell of its primary slot.
fn newest(p: RecId, cell: &Option<Cell>) -> Option<Link>
    ensures { result ≡ newest_of p cell.now }
{
    match cell {
        None => None,
        Some(Cell::Anchor(link)) => Some(*link),
        Some(Cell::Version(version)) => {
            if version.primary {
                Some(Link {
                    rec: p,
                    tx: version.tx,
                })
            } else {
                None
            }
        }
    }
}

/// The row that these versions show.
pub fn shown<'a>(image: &Image, entries: &'a [Entry]) -> Option<&'a Row>
    ensures { MatchOption result
        (shown_by (committed_of image.now) entries.now ≡ None)
        (λ row. shown_by (committed_of image.now) entries.now ≡ Some row.now) }
{
    let mut rest = entries;
    while let Some((entry, older)) = rest.split_first() {
        if image.state(entry.version.tx.0) == TxState::Committed {
            return if entry.version.deleted {
                None
            } else {
                Some(&entry.row)
            };
        }
        rest = older;
    }
    None
}

/// What is read of a slot of a table's data page.
fn read_slot(
    alloc: Global,
    image: &Image,
    table: &Table,
    coding: RowCoding,
    data_pages: &[u32],
    p: RecId,
) -> Result<Found, ReadFault>
    requires columns { length table.now.shape.columns ≤ MOST_COLUMNS }
    requires tested { EachFrom (IsTableData false image.now.size (pages_in image.now)
        table.now.pointer.0) 0 data_pages.now }
    requires placed { Has data_pages.now p.page.0 }
    ensures found { IfOk result (IsFound coding image.now table.now data_pages.now) }
    ensures at { IfOk result (λ found. found.at ≡ p) }
    ensures broken { IfErr result (Refutes
        (HasRecord coding image.now table.now data_pages.now
        (newest_of p (cells_of (pages_in image.now) p)))) }
{
    let cell = cell_at(alloc, image, table.pointer.0, data_pages, p)?;
    let entries = read_record(alloc, image, table, coding, data_pages, newest(p, &cell))?;
    Ok(Found { at: p, entries })
}

/// What is read of the slots of a table's data page.
fn read_page(
    alloc: Global,
    image: &Image,
    table: &Table,
    coding: RowCoding,
    data_pages: &[u32],
    n: u32,
    found: &mut Vec<Found>,
) -> Result<(), ReadFault>
    requires columns { length table.now.shape.columns ≤ MOST_COLUMNS }
    requires tested { EachFrom (IsTableData false image.now.size (pages_in image.now)
        table.now.pointer.0) 0 data_pages.now }
    requires placed { Has data_pages.now n }
    ensures found { OnOk result (AreFound coding image.now table.now data_pages.now found.old.items
        → AreFound coding image.now table.now data_pages.now found.new.items) }
    ensures slots { OnOk result
        (SlotsRead found.new.items n (slot_count (pages_in image.now n))) }
    ensures before { OnOk result (KeepsRead found.old.items found.new.items) }
    ensures broken { IfErr result (Refutes
        (HasVersionReading coding image.now table.now data_pages.now)) }
{
    for slot in 0..get_u16(image.page(n), COUNT_AT) {
        let p = RecId {
            page: PageNo(n),
            slot,
        };
        found.push(read_slot(alloc, image, table, coding, data_pages, p)?)?;
    }
    Ok(())
}

/// What is read of the slots of a table's data pages, in their order.
///
/// # Errors
///
/// `Broken` only where the records do not have their versions; `Memory`.
pub(crate) fn read_slots(
    alloc: Global,
    image: &Image,
    table: &Table,
    coding: RowCoding,
    data_pages: &[u32],
) -> Result<Vec<Found>, ReadFault>
    requires columns { length table.now.shape.columns ≤ MOST_COLUMNS }
    requires tested { EachFrom (IsTableData false image.now.size (pages_in image.now)
        table.now.pointer.0) 0 data_pages.now }
    ensures found { IfOk result (λ found.
        AreFound coding image.now table.now data_pages.now found.items) }
    ensures all { IfOk result (λ found. PagesRead image.now found.items data_pages.now) }
    ensures broken { IfErr result (Refutes
        (HasVersionReading coding image.now table.now data_pages.now)) }
{
    let mut found = Vec::new(alloc);
    for n in data_pages {
        read_page(alloc, image, table, coding, data_pages, *n, &mut found)?;
    }
    Ok(found)
}

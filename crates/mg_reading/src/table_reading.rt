//! One table of an image, whole.

ghost use Rattle.std.specs.Prelude.{◌≡◌, ◌≤◌, false, IfErr, IfOk, length};
ghost use Rattle.mg_reading.specs.Codings.{coding_of};
ghost use Rattle.mg_reading.specs.Found.{AreFound, reading_of};
ghost use Rattle.mg_reading.specs.ImageView.{pages_in};
ghost use Rattle.mg_reading.specs.OneTable.{table_facts};
ghost use Rattle.mg_reading.specs.Readable.{HasReading, IsReadable, Refutes};
ghost use Rattle.mg_image.specs.RecordRules.{AreRecords};
ghost use Rattle.mg_image.specs.Records.{cells_of};
ghost use Rattle.mg_image.specs.Sound.{IsTableData, IsTablePointer};
ghost use Rattle.mg_image.specs.Tables.{EachFrom, PointerChain, entries_in};

use crate::chain::{TablePages, table_pages};
use crate::data::check_data_pages;
use crate::found::Found;
use crate::image::Image;
use crate::parts::{are_backs_committed, are_drawn, have_own_keys, read_versions};
use crate::point::{ReadFault, Rule};
use crate::rows::RowCoding;
use mg_model::Table;
use mg_value::MOST_COLUMNS;
use std::alloc::Global;

/// A table as it was read: its pages, and what was read of each slot of its data pages.
#[derive(Drop)]
pub struct TableReading {
    pub pages: TablePages,
    pub found: Vec<Found>,
}

/// The records of a table, by its tested data pages: what was read of each of their slots.
///
/// # Errors
///
/// `Broken` only where the records are not lawful; `Memory`.
pub fn table_records(
    alloc: Global,
    image: &Image,
    table: &Table,
    coding: RowCoding,
    data_pages: &[u32],
) -> Result<Vec<Found>, ReadFault>
    requires columns { length table.now.shape.columns ≤ MOST_COLUMNS }
    requires tested { EachFrom (IsTableData false image.now.size (pages_in image.now)
        table.now.pointer.0) 0 data_pages.now }
    ensures found { IfOk result (λ found.
        AreFound coding image.now table.now data_pages.now found.items) }
    ensures records { IfOk result (λ found. AreRecords (coding_of coding)
        (table_facts image.now table.now data_pages.now) (cells_of (pages_in image.now))
        (reading_of found.items)) }
    ensures broken { IfErr result (Refutes
        (HasReading coding image.now table.now data_pages.now)) }
{
    let found = read_versions(alloc, image, table, coding, data_pages)?;
    if !are_drawn(image, &found) {
        return Err(ReadFault::Broken(Rule::Drawn));
    }
    if !are_backs_committed(image, &found) {
        return Err(ReadFault::Broken(Rule::Backs));
    }
    if !have_own_keys(image, table, &found) {
        return Err(ReadFault::Broken(Rule::Keys));
    }
    Ok(found)
}

/// Reads a table of an image, and tests each rule of a sound image that speaks of its pointer
/// pages, its data pages and its records. Its indexes are not read.
///
/// # Errors
///
/// `Broken` only where a rule is broken, with the first one found so; `Memory`.
pub fn read_table(
    alloc: Global,
    image: &Image,
    table: &Table,
    coding: RowCoding,
) -> Result<TableReading, ReadFault>
    requires { length table.now.shape.columns ≤ MOST_COLUMNS }
    ensures chain { IfOk result (λ read.
        PointerChain (pages_in image.now) table.now.pointer.0 read.pages.pointers.items) }
    ensures pointers { IfOk result (λ read. EachFrom (IsTablePointer image.now.size
        (pages_in image.now) table.now.pointer.0) 0 read.pages.pointers.items) }
    ensures entries { IfOk result (λ read. read.pages.data_pages.items
        ≡ entries_in (pages_in image.now) read.pages.pointers.items) }
    ensures data_pages { IfOk result (λ read. EachFrom (IsTableData false image.now.size
        (pages_in image.now) table.now.pointer.0) 0 read.pages.data_pages.items) }
    ensures records { IfOk result (λ read. AreRecords (coding_of coding)
        (table_facts image.now table.now read.pages.data_pages.items)
        (cells_of (pages_in image.now)) (reading_of read.found.items)) }
    ensures broken { IfErr result (Refutes (IsReadable coding image.now table.now)) }
{
    let pages = table_pages(alloc, image, table.pointer.0)?;
    check_data_pages(alloc, image, table.pointer.0, &pages.data_pages)?;
    let found = table_records(alloc, image, table, coding, &pages.data_pages)?;
    Ok(TableReading { pages, found })
}

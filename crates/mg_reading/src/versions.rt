//! The versions of a record, as back pointers lead to them.

ghost use Rattle.std.specs.Prelude.{◌≡◌, ◌↔◌, ◌≤◌, ◌<◌, ◌^◌, false, IfErr, IfOk, IsTrue, length};
ghost use Rattle.mg_base.specs.declared.transaction.TxState.TheVariants.{Dead};
ghost use Rattle.mg_slots.specs.DataPage.{IsDataPage, cell_of};
ghost use Rattle.mg_reading.specs.ImageView.{pages_in};
ghost use Rattle.mg_image.specs.Inventory.{next_of, oldest_of, state_at};
ghost use Rattle.mg_reading.specs.Readable.{HasCells, HasVersion, HasVersionRow, IsVersionAt, IsVersionRow, Refutes};
ghost use Rattle.mg_image.specs.Records.{cell_spelled, cells_of, slot_cell as slot_cell_of};
ghost use Rattle.mg_image.specs.Sound.{IsCellOf, IsTableData};
ghost use Rattle.mg_image.specs.Tables.{EachFrom, Has};

use crate::erased::{erased_shape, is_key_alone};
use crate::image::Image;
use crate::point::{ReadFault, Rule};
use crate::rows::{RowCoding, row_of};
use mg_base::{RecId, TxState};
use mg_image::one_reading;
use mg_model::Table;
use mg_value::{MOST_COLUMNS, Row};
use mg_version::{Cell, CellFault, Link, Version, read_cell};
use std::alloc::Global;

/// Whether a page is one of these.
fn has_page(pages: &[u32], n: u32) -> bool
    ensures { IsTrue result ↔ Has pages.now n }
{
    for page in pages {
        if *page == n {
            return true;
        }
    }
    false
}

/// The cell that bytes spell.
fn spelled_cell(alloc: Global, bytes: &[u8]) -> Result<Cell, ReadFault>
    requires { length bytes.now < 2 ^ 31 }
    ensures cell { IfOk result (λ cell. cell ≡ cell_spelled bytes.now) }
    ensures broken { IfErr result (Refutes (IsCellOf false bytes.now)) }
{
    match read_cell(alloc, bytes) {
        Ok(cell) => Ok(cell),
        Err(CellFault::BadCell { .. }) => Err(ReadFault::Broken(Rule::Pages)),
        Err(CellFault::Memory) => Err(ReadFault::Memory),
    }
}

/// The cell of a slot of a data page.
fn slot_cell(alloc: Global, page: &[u8], slot: u16) -> Result<Option<Cell>, ReadFault>
    requires lawful { IsDataPage page.now }
    requires cells { HasCells page.now }
    ensures cell { IfOk result (λ cell. cell ≡ slot_cell_of (cell_of page.now slot)) }
    ensures memory { IfErr result (λ fault. fault ≡ ReadFault.Memory) }
{
    match mg_slots::cell(page, slot) {
        None => Ok(None),
        Some(bytes) => Ok(Some(spelled_cell(alloc, bytes)?)),
    }
}

/// The cell at a place of one of these data pages of an owner.
///
/// # Errors
///
/// `Broken` only where the place is on none of them; `Memory`.
pub(crate) fn cell_at(
    alloc: Global,
    image: &Image,
    owner: u32,
    data_pages: &[u32],
    x: RecId,
) -> Result<Option<Cell>, ReadFault>
    requires { EachFrom (IsTableData false image.now.size (pages_in image.now) owner) 0
        data_pages.now }
    ensures cell { IfOk result (λ cell. cell ≡ cells_of (pages_in image.now) x) }
    ensures placed { IfOk result (λ cell. Has data_pages.now x.page.0) }
    ensures broken { IfErr result (Refutes (Has data_pages.now x.page.0)) }
{
    if !has_page(data_pages, x.page.0) {
        return Err(ReadFault::Broken(Rule::Links));
    }
    slot_cell(alloc, image.page(x.page.0), x.slot)
}

/// The version that a link leads to.
///
/// # Errors
///
/// `Broken` only where the link meets no version of the transaction that it names; `Memory`.
pub(crate) fn version_at(
    alloc: Global,
    image: &Image,
    owner: u32,
    data_pages: &[u32],
    link: Link,
) -> Result<Version, ReadFault>
    requires { EachFrom (IsTableData false image.now.size (pages_in image.now) owner) 0
        data_pages.now }
    ensures version { IfOk result (IsVersionAt image.now data_pages.now link) }
    ensures short { IfOk result (λ v. length v.body < 2 ^ 30) }
    ensures broken { IfErr result (Refutes (HasVersion image.now data_pages.now link)) }
{
    let Some(cell) = cell_at(alloc, image, owner, data_pages, link.rec)? else {
        return Err(ReadFault::Broken(Rule::Links));
    };
    match cell {
        Cell::Version(version) => {
            if version.tx.0 == link.tx.0 {
                Ok(version)
            } else {
                Err(ReadFault::Broken(Rule::Links))
            }
        }
        Cell::Anchor(_) => Err(ReadFault::Broken(Rule::Links)),
    }
}

/// Whether a transaction is drawn, and interesting where it is dead.
pub(crate) fn is_drawn(image: &Image, t: u32) -> bool
    ensures { IsTrue result ↔ ((t < next_of (pages_in image.now))
        × (state_at image.now.size (pages_in image.now) t ≡ Dead
        → oldest_of (pages_in image.now) ≤ t)) }
{
    t < image.next() && (t >= image.oldest() || image.state(t) != TxState::Dead)
}

/// The row of a version of a table.
///
/// # Errors
///
/// `Broken` only where its body codes no row of the table, or it is a deletion with more than its
/// key; `Memory`.
pub(crate) fn version_row(
    alloc: Global,
    table: &Table,
    coding: RowCoding,
    version: &Version,
) -> Result<Row, ReadFault>
    requires columns { length table.now.shape.columns ≤ MOST_COLUMNS }
    requires len { length version.now.body < 2 ^ 30 }
    ensures row { IfOk result (IsVersionRow coding table.now version.now) }
    ensures broken { IfErr result (Refutes (HasVersionRow coding table.now version.now)) }
{
    one_reading();
    let body = version.body.as_slice();
    if !version.deleted {
        return row_of(alloc, coding, &table.shape, version.format, body);
    }
    let shape = erased_shape(alloc, &table.shape)?;
    let row = row_of(alloc, coding, &shape, version.format, body)?;
    if !is_key_alone(row.as_slice(), usize::from(table.shape.key)) {
        return Err(ReadFault::Broken(Rule::Links));
    }
    Ok(row)
}

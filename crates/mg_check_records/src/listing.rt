//! The records of a table as a list.

ghost use Rattle.std.specs.Prelude.{◌≡◌, ◌++◌, IfOk, OnOk, false};
ghost use Rattle.mg_base.specs.Image.{page_at};
ghost use Rattle.mg_check_inventory.specs.ImagePages.{IsWholeImage};
ghost use Rattle.mg_check_records.specs.Listing.{ArePlaced, records_of as records_in, records_on, with_record};
ghost use Rattle.mg_image.specs.Records.{cells_of, newest_of as newest_in};
ghost use Rattle.mg_image.specs.Sound.{IsTableData};
ghost use Rattle.mg_image.specs.Tables.{EachFrom, Has};
ghost use Rattle.mg_slots.specs.DataPage.{slot_count};

use crate::records::newest_of;
use mg_base::{Bytes, Memory, PageNo, RecId};
use mg_check_data::page_there;
use mg_slots::slots;
use mg_version::Link;
use std::alloc::Global;

/// Where the newest version of the record is whose primary slot this is, if the slot is one's. It is a slot of a data page
/// of a table of an image, of which these are the pages.
///
/// `size` is the page size in bytes, `owner` the table's first pointer page, `data_pages` are its data pages, whose cells
/// were tested.
///
/// # Errors
///
/// `Memory` only.
pub fn newest_at(
    alloc: Global,
    size: u32,
    pages: &[Bytes],
    owner: u32,
    data_pages: &[u32],
    p: RecId,
) -> Result<Option<Link>, Memory>
    requires image { IsWholeImage size pages.now }
    requires tested { EachFrom (IsTableData false size (page_at size pages.now) owner) 0
        data_pages.now }
    requires placed { Has data_pages.now p.page.0 }
    ensures { IfOk result (λ newest. newest
        ≡ newest_in p (cells_of (page_at size pages.now) p)) }
{
    newest_of(alloc, page_there(pages, p.page.0), p)
}

/// Adds a slot, where it holds a link to a newest version.
///
/// # Errors
///
/// `Memory` only.
fn add_record(records: &mut Vec<RecId>, p: RecId, newest: Option<Link>) -> Result<(), Memory>
    ensures { OnOk result (records.new.items ≡ records.old.items ++ with_record p newest) }
{
    match newest {
        None => Ok(()),
        Some(_) => Ok(records.push(p)?),
    }
}

/// Adds the records of a data page.
///
/// # Errors
///
/// `Memory` only.
fn add_records(
    alloc: Global,
    records: &mut Vec<RecId>,
    size: u32,
    pages: &[Bytes],
    owner: u32,
    data_pages: &[u32],
    n: u32,
) -> Result<(), Memory>
    requires image { IsWholeImage size pages.now }
    requires tested { EachFrom (IsTableData false size (page_at size pages.now) owner) 0
        data_pages.now }
    requires placed { Has data_pages.now n }
    ensures { OnOk result (records.new.items ≡ records.old.items
        ++ records_on (cells_of (page_at size pages.now)) n (slot_count (page_at size pages.now n))) }
{
    for slot in 0..slots(page_there(pages, n)) {
        let p = RecId {
            page: PageNo(n),
            slot,
        };
        let newest = newest_at(alloc, size, pages, owner, data_pages, p)?;
        add_record(records, p, newest)?;
    }
    Ok(())
}

/// The primary slots of the records of a table of an image, of which these are the pages, in the order of its data pages
/// and of their slots.
///
/// `size` is the page size in bytes, `owner` the table's first pointer page, `data_pages` are its data pages, whose cells
/// were tested.
///
/// # Errors
///
/// `Memory` only.
pub fn records_of(
    alloc: Global,
    size: u32,
    pages: &[Bytes],
    owner: u32,
    data_pages: &[u32],
) -> Result<Vec<RecId>, Memory>
    requires image { IsWholeImage size pages.now }
    requires tested { EachFrom (IsTableData false size (page_at size pages.now) owner) 0
        data_pages.now }
    ensures records { IfOk result (λ records.
        records.items ≡ records_in (page_at size pages.now) data_pages.now) }
    ensures placed { IfOk result (λ records. ArePlaced data_pages.now records.items) }
{
    let mut records = Vec::new(alloc);
    let mut rest = data_pages;
    while let Some((n, later)) = rest.split_first() {
        add_records(alloc, &mut records, size, pages, owner, data_pages, *n)?;
        rest = later;
    }
    Ok(records)
}

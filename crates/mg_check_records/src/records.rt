//! The records of a table, one after another.

ghost use Rattle.std.specs.Prelude.{◌≡◌, ◌≤◌, ◌*◌, ◌++◌, IfOk, List, OnOk, [], ◌∷◌, false, length, replicate};
ghost use Rattle.mg_base.specs.declared.numbers.RecId.{RecId as AnyPlace};
ghost use Rattle.mg_base.specs.Image.{page_at};
ghost use Rattle.mg_check_data.specs.DataRung.{HasCells};
ghost use Rattle.mg_check_inventory.specs.ImagePages.{IsWholeImage};
ghost use Rattle.mg_check_records.specs.Marks.{met_in, most_slots as most_slots_of};
ghost use Rattle.mg_check_records.specs.Records.{IsWalkedOver, end_list, none_met, places_of, slots_below};
ghost use Rattle.mg_image.specs.Records.{cells_of, newest_of as newest_in, slot_cell as slot_cell_of};
ghost use Rattle.mg_image.specs.Sound.{IsTableData};
ghost use Rattle.mg_image.specs.Tables.{EachFrom, Has};
ghost use Rattle.mg_slots.specs.DataPage.{IsDataPage, cell_of, slot_count};

use crate::cells::slot_cell;
use crate::marks::Marks;
use crate::step::most_slots;
use crate::walk::walk_record;
use mg_base::{Bytes, Memory, PageNo, RecId};
use mg_check_data::page_there;
use mg_findings::Finding;
use mg_model::Table;
use mg_slots::slots;
use mg_value::MOST_COLUMNS;
use mg_version::{Cell, Link};
use std::alloc::Global;

/// What the walks over the records of a table have come to.
#[derive(Drop)]
pub struct TableWalk {
    /// What was found, in the order of the records.
    pub found: Vec<Finding>,
    /// Which cells were met.
    pub marks: Marks,
}

/// Where the newest version of the record with a primary slot is, if the slot is one's.
///
/// # Errors
///
/// `Memory` only.
pub(crate) fn newest_of(alloc: Global, page: &[u8], p: RecId) -> Result<Option<Link>, Memory>
    requires lawful { IsDataPage page.now }
    requires cells { HasCells page.now }
    ensures { IfOk result (λ newest. newest
        ≡ newest_in p (slot_cell_of (cell_of page.now p.slot))) }
{
    match slot_cell(alloc, page, p.slot)? {
        None => Ok(None),
        Some(Cell::Anchor(link)) => Ok(Some(link)),
        Some(Cell::Version(version)) => {
            if version.primary {
                Ok(Some(Link {
                    rec: p,
                    tx: version.tx,
                }))
            } else {
                Ok(None)
            }
        }
    }
}

/// Adds what is found at the end of a walk.
fn add_end(found: &mut Vec<Finding>, stopped: Option<Finding>) -> Result<(), Memory>
    ensures { OnOk result (found.new.items ≡ found.old.items ++ end_list stopped) }
{
    match stopped {
        None => Ok(()),
        Some(finding) => Ok(found.push(finding)?),
    }
}

/// Walks over the record with a primary slot, if the slot is one's.
///
/// # Errors
///
/// `Memory` only.
fn walk_slot(
    alloc: Global,
    size: u32,
    pages: &[Bytes],
    table: &Table,
    data_pages: &[u32],
    at: &mut TableWalk,
    p: RecId,
) -> Result<(), Memory>
    requires image { IsWholeImage size pages.now }
    requires columns { length table.now.shape.columns ≤ MOST_COLUMNS }
    requires tested { EachFrom (IsTableData false size (page_at size pages.now)
        table.now.pointer.0) 0 data_pages.now }
    requires placed { Has data_pages.now p.page.0 }
    requires marks { length at.old.marks ≡ length data_pages.now * most_slots_of size }
    ensures walked { OnOk result ((ps : List AnyPlace)
        → IsWalkedOver (cells_of (page_at size pages.now)) table.now data_pages.now size ps
        at.old.marks at.old.found.items
        → IsWalkedOver (cells_of (page_at size pages.now)) table.now data_pages.now size
        (ps ++ p ∷ []) at.new.marks at.new.found.items) }
    ensures marks { OnOk result (length at.new.marks ≡ length at.old.marks) }
{
    let newest = newest_of(alloc, page_there(pages, p.page.0), p)?;
    let walked = walk_record(
        alloc,
        size,
        pages,
        table,
        data_pages,
        &mut at.marks,
        p,
        newest,
    )?;
    add_end(&mut at.found, walked.stopped)
}

/// The same for each slot of a data page.
///
/// # Errors
///
/// `Memory` only.
fn walk_page(
    alloc: Global,
    size: u32,
    pages: &[Bytes],
    table: &Table,
    data_pages: &[u32],
    at: &mut TableWalk,
    n: u32,
) -> Result<(), Memory>
    requires image { IsWholeImage size pages.now }
    requires columns { length table.now.shape.columns ≤ MOST_COLUMNS }
    requires tested { EachFrom (IsTableData false size (page_at size pages.now)
        table.now.pointer.0) 0 data_pages.now }
    requires placed { Has data_pages.now n }
    requires marks { length at.old.marks ≡ length data_pages.now * most_slots_of size }
    ensures walked { OnOk result ((ps : List AnyPlace)
        → IsWalkedOver (cells_of (page_at size pages.now)) table.now data_pages.now size ps
        at.old.marks at.old.found.items
        → IsWalkedOver (cells_of (page_at size pages.now)) table.now data_pages.now size
        (ps ++ slots_below n (slot_count (page_at size pages.now n))) at.new.marks
        at.new.found.items) }
    ensures marks { OnOk result (length at.new.marks ≡ length at.old.marks) }
{
    for slot in 0..slots(page_there(pages, n)) {
        let p = RecId {
            page: PageNo(n),
            slot,
        };
        walk_slot(alloc, size, pages, table, data_pages, at, p)?;
    }
    Ok(())
}

/// A mark for each slot that the data pages of a table of an image can have, of which these are the pages. None is set.
///
/// `size` is the page size in bytes, `owner` the table's first pointer page, `data_pages` are its data pages.
///
/// # Errors
///
/// `Memory` only.
pub fn no_marks(
    alloc: Global,
    size: u32,
    pages: &[Bytes],
    owner: u32,
    data_pages: &[u32],
) -> Result<Marks, Memory>
    requires image { IsWholeImage size pages.now }
    requires tested { EachFrom (IsTableData false size (page_at size pages.now) owner) 0
        data_pages.now }
    ensures clear { IfOk result (λ marks.
        marks ≡ replicate (length data_pages.now * most_slots_of size) false) }
    ensures len { IfOk result (λ marks. length marks ≡ length data_pages.now * most_slots_of size) }
    ensures met { IfOk result (λ marks. met_in data_pages.now (most_slots_of size) marks ≡ none_met) }
{
    let count = data_pages.len() * most_slots(size) as usize;
    Marks::new(alloc, count)
}

/// Walks over the records of a table of an image, of which these are the pages, in the order of their
/// primary slots: what is found of their links and versions, and which cells were met. A cell that a
/// second link leads to is told at the cell that holds that link.
///
/// `size` is the page size in bytes, `data_pages` are the table's data pages, whose cells were
/// tested.
///
/// # Errors
///
/// `Memory` only.
pub fn walk_table(
    alloc: Global,
    size: u32,
    pages: &[Bytes],
    table: &Table,
    data_pages: &[u32],
) -> Result<TableWalk, Memory>
    requires image { IsWholeImage size pages.now }
    requires columns { length table.now.shape.columns ≤ MOST_COLUMNS }
    requires tested { EachFrom (IsTableData false size (page_at size pages.now)
        table.now.pointer.0) 0 data_pages.now }
    ensures walked { IfOk result (λ it. IsWalkedOver (cells_of (page_at size pages.now)) table.now
        data_pages.now size (places_of (page_at size pages.now) data_pages.now) it.marks
        it.found.items) }
    ensures marks { IfOk result (λ it. length it.marks ≡ length data_pages.now * most_slots_of size) }
{
    let marks = no_marks(alloc, size, pages, table.pointer.0, data_pages)?;
    let found = Vec::new(alloc);
    let mut at = TableWalk { found, marks };
    let mut rest = data_pages;
    while let Some((n, later)) = rest.split_first() {
        walk_page(alloc, size, pages, table, data_pages, &mut at, *n)?;
        rest = later;
    }
    Ok(at)
}

//! The rows that the catalog shows.

ghost use Rattle.std.specs.Prelude.{◌≡◌, ◌≤◌, ◌*◌, ◌++◌, IfOk, OnOk, false, length};
ghost use Rattle.mg_base.specs.Image.{page_at};
ghost use Rattle.mg_check_inventory.specs.ImagePages.{IsWholeImage};
ghost use Rattle.mg_check_records.specs.Marks.{most_slots};
ghost use Rattle.mg_file_figures.specs.CatalogRows.{AreRowsOf, SaysRecord, committed_at, row_list};
ghost use Rattle.mg_image.specs.Sound.{IsTableData};
ghost use Rattle.mg_image.specs.Tables.{EachFrom, Has};
ghost use Rattle.mg_limbo_list.specs.Limbo.{IsTips};

use crate::shown::shown_row;
use mg_base::{Bytes, Memory, RecId};
use mg_check_records::{Marks, newest_at, no_marks, records_of, walk_record};
use mg_findings::Finding;
use mg_limbo_list::Tips;
use mg_model::Table;
use mg_value::{MOST_COLUMNS, Row};
use std::alloc::Global;

/// What the records of the catalog say.
#[derive(Drop)]
pub(crate) enum CatalogRows {
    /// What is found of them first.
    Found(Finding),
    /// The rows that they show, in the order of the records.
    Shown(Vec<Row>),
}

/// Adds a row, if there is one.
fn add_row(rows: &mut Vec<Row>, row: Option<Row>) -> Result<(), Memory>
    ensures { OnOk result (rows.new.items ≡ rows.old.items ++ row_list row) }
{
    match row {
        None => Ok(()),
        Some(row) => Ok(rows.push(row)?),
    }
}

/// What a record says.
#[derive(Drop)]
pub(crate) enum OneRecord {
    /// What is found where the walk over its versions comes to no end.
    Stopped(Finding),
    /// The row that it shows, if it shows one.
    Shown(Option<Row>),
}

/// What the record with a primary slot says. The cells that the walk over it comes to are marked.
///
/// # Errors
///
/// `Memory` only.
fn record_row(
    alloc: Global,
    size: u32,
    pages: &[Bytes],
    tips: &Tips,
    table: &Table,
    data_pages: &[u32],
    marks: &mut Marks,
    p: RecId,
) -> Result<OneRecord, Memory>
    requires image { IsWholeImage size pages.now }
    requires tips { IsTips size pages.now tips.now }
    requires columns { length table.now.shape.columns ≤ MOST_COLUMNS }
    requires tested { EachFrom (IsTableData false size (page_at size pages.now)
        table.now.pointer.0) 0 data_pages.now }
    requires placed { Has data_pages.now p.page.0 }
    requires marks { length marks.old ≡ length data_pages.now * most_slots size }
    ensures { IfOk result (SaysRecord (page_at size pages.now) table.now data_pages.now size
        (committed_at size (page_at size pages.now)) marks.old marks.new p) }
{
    let newest = newest_at(alloc, size, pages, table.pointer.0, data_pages, p)?;
    let walked = walk_record(alloc, size, pages, table, data_pages, marks, p, newest)?;
    if let Some(finding) = walked.stopped {
        return Ok(OneRecord::Stopped(finding));
    }
    let row = shown_row(alloc, size, pages, tips, walked.entries.as_slice())?;
    Ok(OneRecord::Shown(row))
}

/// What the records of the catalog of an image say, of which these are the pages.
///
/// `size` is the page size in bytes, `data_pages` are the catalog's data pages, whose cells were tested.
///
/// # Errors
///
/// `Memory` only.
pub(crate) fn catalog_rows(
    alloc: Global,
    size: u32,
    pages: &[Bytes],
    tips: &Tips,
    table: &Table,
    data_pages: &[u32],
) -> Result<CatalogRows, Memory>
    requires image { IsWholeImage size pages.now }
    requires tips { IsTips size pages.now tips.now }
    requires columns { length table.now.shape.columns ≤ MOST_COLUMNS }
    requires tested { EachFrom (IsTableData false size (page_at size pages.now)
        table.now.pointer.0) 0 data_pages.now }
    ensures { IfOk result (AreRowsOf (page_at size pages.now) table.now data_pages.now
        (committed_at size (page_at size pages.now))) }
{
    let records = records_of(alloc, size, pages, table.pointer.0, data_pages)?;
    let mut marks = no_marks(alloc, size, pages, table.pointer.0, data_pages)?;
    let mut rows = Vec::new(alloc);
    let mut rest = records.as_slice();
    while let Some((p, later)) = rest.split_first() {
        let row = match record_row(alloc, size, pages, tips, table, data_pages, &mut marks, *p)? {
            OneRecord::Shown(row) => row,
            OneRecord::Stopped(finding) => return Ok(CatalogRows::Found(finding)),
        };
        add_row(&mut rows, row)?;
        rest = later;
    }
    Ok(CatalogRows::Shown(rows))
}

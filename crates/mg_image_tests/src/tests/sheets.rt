//! Images of a small database made by hand: what stands on each of their pages.
//!
//! A case tells only the pages that differ from those of the database that it begins with. So all
//! images are made by one function, and each rule is broken by the one page that breaks it.

use super::cells::{Laid, Said};
use super::nodes::leaf;
use super::pages::{SIZE, data, header, inventory, pointers, put_cells, put_rows, transactions};
use mg_base::{Bytes, TxState};
use mg_reading::Image;
use std::alloc::Global;
use std::test::Fail;

/// What stands on a page.
#[derive(Clone, Copy)]
pub enum Sheet {
    Zero,
    /// The header: the next transaction, the oldest interesting one, the oldest active one, and the
    /// page on which the catalog begins.
    Header(u32, u32, u32, u32),
    /// The page inventory: so many pages are used.
    Inventory(u32),
    /// What became of transactions 1 to 3.
    Transactions([TxState; 3]),
    /// The data pages of the table that begins here.
    Pointers(&'static [u32]),
    /// The rows of the catalog, on its one data page.
    Catalog(&'static [Said]),
    /// The first data page of KV, which is page 6: its cells in the order of their slots.
    Cells(&'static [Laid]),
    /// Any data page: the first page of its table, its place among the data pages, the page on which
    /// the versions stand to which its cells lead, and the cells in the order of their slots.
    Data(u32, u32, u8, &'static [Laid]),
    /// A leaf of an index of KV: its keys, each with the slot of its record.
    Leaf(&'static [(u8, u8)]),
}

/// A page by its number, and what stands on it.
pub type Change = (u32, Sheet);

// Makes the data page of a table at a place among its pages, with these cells.
fn put_data(
    alloc: Global,
    b: &mut [u8; SIZE],
    n: u32,
    owner: u32,
    place: u32,
    laid: (u8, &[Laid]),
) -> Result<(), Fail> {
    data(b, n, owner, place);
    put_cells(alloc, b, laid.0, laid.1)
}

// Makes the data page of the catalog with these rows.
fn put_catalog(alloc: Global, b: &mut [u8; SIZE], n: u32, rows: &[Said]) -> Result<(), Fail> {
    data(b, n, 3, 0);
    put_rows(alloc, b, rows)
}

// A page of this number but for those of an index.
fn page_of(alloc: Global, n: u32, sheet: Sheet) -> Result<[u8; SIZE], Fail> {
    let mut page = [0u8; SIZE];
    match sheet {
        Sheet::Header(next, oit, oat, first) => header(&mut page, next, oit, oat, first),
        Sheet::Inventory(used) => inventory(&mut page, used),
        Sheet::Transactions(states) => transactions(&mut page, &states),
        Sheet::Pointers(data_pages) => pointers(&mut page, n, data_pages),
        Sheet::Catalog(rows) => put_catalog(alloc, &mut page, n, rows)?,
        Sheet::Cells(cells) => put_data(alloc, &mut page, n, 5, 0, (6, cells))?,
        Sheet::Data(owner, place, behind, cells) => {
            put_data(alloc, &mut page, n, owner, place, (behind, cells))?
        }
        Sheet::Zero | Sheet::Leaf(_) => {}
    }
    Ok(page)
}

// The bytes of a page of this number.
fn bytes_of(alloc: Global, n: u32, sheet: Sheet) -> Result<Vec<u8>, Fail> {
    match sheet {
        Sheet::Leaf(keys) => leaf(alloc, (n % 256) as u8, keys),
        _ => Ok(page_of(alloc, n, sheet)?.to_vec(alloc)?),
    }
}

// What stands on a page after changes.
fn sheet_after(n: u32, before: Sheet, changes: &[Change]) -> Sheet {
    for (page, sheet) in changes {
        if *page == n {
            return *sheet;
        }
    }
    before
}

/// The pages of a database with these changes.
pub fn pages_of(alloc: Global, sheets: &[Sheet], changes: &[Change]) -> Result<Vec<Bytes>, Fail> {
    let mut pages = Vec::new(alloc);
    let mut n = 0u32;
    for sheet in sheets {
        let bytes = bytes_of(alloc, n, sheet_after(n, *sheet, changes))?;
        pages.push(Bytes::new(bytes))?;
        n = n.wrapping_add(1);
    }
    Ok(pages)
}

/// The image of these pages.
pub fn image_with(alloc: Global, pages: Vec<Bytes>) -> Result<Image, Fail> {
    match Image::new(alloc, 1024, pages) {
        Ok(Some(image)) => Ok(image),
        _ => Err("no image")?,
    }
}

/// The image of a database with these changes.
pub fn image_of(alloc: Global, sheets: &[Sheet], changes: &[Change]) -> Result<Image, Fail> {
    image_with(alloc, pages_of(alloc, sheets, changes)?)
}

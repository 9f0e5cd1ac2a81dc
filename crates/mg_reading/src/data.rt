//! The data pages of a table, and their cells.

ghost use Rattle.std.specs.Prelude.{false, ◌<◌, ◌^◌, IfErr, OnOk, length};
ghost use Rattle.mg_slots.specs.DataPage.{IsDataPage};
ghost use Rattle.mg_reading.specs.Readable.{HasCells, Refutes};
ghost use Rattle.mg_reading.specs.ImageView.{pages_in};
ghost use Rattle.mg_image.specs.Sound.{IsCellOf, IsTableData};
ghost use Rattle.mg_image.specs.Tables.{EachFrom};

use crate::image::Image;
use crate::point::{ReadFault, Rule};
use mg_slots::{cell, slots};
use mg_version::{CellFault, read_cell};
use std::alloc::Global;

/// Tests that bytes spell a cell.
///
/// # Errors
///
/// `Broken` only where they spell none; `Memory`.
fn check_cell(alloc: Global, bytes: &[u8]) -> Result<(), ReadFault>
    requires { length bytes.now < 2 ^ 31 }
    ensures cell { OnOk result (IsCellOf false bytes.now) }
    ensures broken { IfErr result (Refutes (IsCellOf false bytes.now)) }
{
    match read_cell(alloc, bytes) {
        Ok(_) => Ok(()),
        Err(CellFault::BadCell { .. }) => Err(ReadFault::Broken(Rule::Pages)),
        Err(CellFault::Memory) => Err(ReadFault::Memory),
    }
}

/// Tests the cells of a data page.
///
/// # Errors
///
/// `Broken` only where some bytes spell no cell; `Memory`.
fn check_cells(alloc: Global, page: &[u8]) -> Result<(), ReadFault>
    requires { IsDataPage page.now }
    ensures cells { OnOk result (HasCells page.now) }
    ensures broken { IfErr result (Refutes (HasCells page.now)) }
{
    for slot in 0..slots(page) {
        if let Some(bytes) = cell(page, slot) {
            check_cell(alloc, bytes)?;
        }
    }
    Ok(())
}

/// Tests a data page of an owner at a place of the entries.
///
/// # Errors
///
/// `Broken` only where the page or a cell of it is not as wanted; `Memory`.
fn check_page(alloc: Global, image: &Image, owner: u32, at: usize, n: u32) -> Result<(), ReadFault>
    ensures data { OnOk result (IsTableData false image.now.size (pages_in image.now) owner at n) }
    ensures broken { IfErr result (Refutes
        (IsTableData false image.now.size (pages_in image.now) owner at n)) }
{
    if !image.is_data(n, owner, at) {
        return Err(ReadFault::Broken(Rule::Pages));
    }
    check_cells(alloc, image.page(n))
}

/// Tests the data pages of an owner, in the order of their places.
///
/// # Errors
///
/// `Broken` only where one is not as wanted; `Memory`.
pub fn check_data_pages(
    alloc: Global,
    image: &Image,
    owner: u32,
    data_pages: &[u32],
) -> Result<(), ReadFault>
    ensures data { OnOk result
        (EachFrom (IsTableData false image.now.size (pages_in image.now) owner) 0 data_pages.now) }
    ensures broken { IfErr result (Refutes
        (EachFrom (IsTableData false image.now.size (pages_in image.now) owner) 0 data_pages.now)) }
{
    for (at, n) in data_pages.iter().enumerate() {
        check_page(alloc, image, owner, at, *n)?;
    }
    Ok(())
}

//! A data page that a table names.

ghost use Rattle.std.specs.Prelude.{◌≡◌, ◌⊎◌, ◌↔◌, ◌<◌, ℕ, IsErr, OnOk, false, length};
ghost use Rattle.mg_base.specs.Image.{page_at};
ghost use Rattle.mg_base.specs.declared.geometry.TheConstants.{GREATEST_LIMIT};
ghost use Rattle.mg_check_data.specs.DataRung.{HasOne, IsDataFinding, IsPageFinding, IsThereFinding, IsWantedData, IsWholeFinding};
ghost use Rattle.mg_check_inventory.specs.ImagePages.{IsWholeImage};
ghost use Rattle.mg_findings.specs.Findings.{Adds, Tells};
ghost use Rattle.mg_findings.specs.declared.finding.Finding.{Finding as AFinding};
ghost use Rattle.mg_image.specs.Sound.{IsTableData};

use crate::cells::note_cells;
use mg_base::{Bytes, Damaged, Memory, PageNo};
use mg_check_inventory::{check_bit, check_link, check_presence, page_of};
use mg_findings::{Finding, note};
use mg_slots::check_data;
use std::alloc::Global;

/// A data page as a table names it.
#[derive(Clone, Copy)]
pub struct DataSeat {
    /// The pointer page that names it.
    pub holder: u32,
    /// The page's own number.
    pub page: u32,
    /// The table's first pointer page.
    pub owner: u32,
    /// The page's place among the data pages of the table, counted from 0.
    pub place: u32,
}

/// A page by its number, which is below the number of pages.
pub fn page_there(pages: &[Bytes], n: u32) -> &[u8]
    requires { n < length pages.now }
    ensures { (size : ℕ) → result.now ≡ page_at size pages.now n }
{
    pages[n as usize].as_slice()
}

/// Tests a data page as a whole: its fields, then its bit.
fn check_page(size: u32, pages: &[Bytes], page: &[u8], seat: DataSeat) -> Result<(), Damaged>
    requires image { IsWholeImage size pages.now }
    requires below { seat.page < GREATEST_LIMIT }
    requires page { page.now ≡ page_at size pages.now seat.page }
    ensures found { (f : AFinding) → Tells result f
        ↔ IsPageFinding size (page_at size pages.now) seat f }
    ensures wanted { OnOk result
        (IsWantedData size (page_at size pages.now) seat.owner seat.place seat.page) }
{
    check_data(page, PageNo(seat.page), seat.owner, seat.place)?;
    check_bit(size, pages, seat.page)
}

/// The same, where it is to be seen whether the page is there.
fn check_there(size: u32, pages: &[Bytes], seat: DataSeat) -> Result<(), Damaged>
    requires image { IsWholeImage size pages.now }
    requires below { seat.page < GREATEST_LIMIT }
    ensures found { (f : AFinding) → Tells result f
        ↔ IsThereFinding size (page_at size pages.now) (length pages.now) seat f }
    ensures there { OnOk result (seat.page < length pages.now) }
    ensures wanted { OnOk result
        (IsWantedData size (page_at size pages.now) seat.owner seat.place seat.page) }
{
    match page_of(pages, seat.page) {
        None => check_presence(pages.len(), seat.page),
        Some(page) => check_page(size, pages, page, seat),
    }
}

/// The same, where a pointer page holds a link to it.
fn check_whole(size: u32, pages: &[Bytes], seat: DataSeat) -> Result<(), Damaged>
    requires image { IsWholeImage size pages.now }
    ensures found { (f : AFinding) → Tells result f
        ↔ IsWholeFinding size (page_at size pages.now) (length pages.now) seat f }
    ensures there { OnOk result (seat.page < length pages.now) }
    ensures wanted { OnOk result
        (IsWantedData size (page_at size pages.now) seat.owner seat.place seat.page) }
{
    check_link(seat.holder, seat.page)?;
    check_there(size, pages, seat)
}

/// Adds what is found of a data page of an image, of which these are the pages: one thing at most of
/// the page as a whole, or else each of its cells that is none.
///
/// `size` is the page size in bytes. In the order of the tests: of the link to the page, at its
/// holder, `Field::Link` where it leads to the header page or past the greatest limit; of the page
/// `Field::Presence`, the fields of its common part, `Field::Count`, `Field::Offset`, `Field::Bit`;
/// of a cell `Field::Cell` at its slot.
///
/// # Errors
///
/// `Memory` only, and only where something is found.
pub fn note_data(
    alloc: Global,
    findings: &mut Vec<Finding>,
    size: u32,
    pages: &[Bytes],
    seat: DataSeat,
) -> Result<(), Memory>
    requires { IsWholeImage size pages.now }
    ensures adds { OnOk result (Adds findings.old.items findings.new.items
        (IsDataFinding size (page_at size pages.now) (length pages.now) seat)) }
    ensures cause { IsErr result → HasOne
        (IsDataFinding size (page_at size pages.now) (length pages.now) seat) }
    ensures decided { HasOne (IsDataFinding size (page_at size pages.now) (length pages.now) seat)
        ⊎ IsTableData false size (page_at size pages.now) seat.owner seat.place seat.page }
{
    match check_whole(size, pages, seat) {
        Err(damage) => note(findings, Err(damage)),
        Ok(()) => note_cells(alloc, findings, page_there(pages, seat.page), seat.page),
    }
}

//! One step of a walk over the versions of a record: a link, and the version that it meets.

ghost use Rattle.std.specs.Prelude.{◌≡◌, ◌≤◌, ◌<◌, ◌+◌, ◌*◌, IfOk, Option, false, length, true};
ghost use Rattle.mg_base.specs.Geometry.{is_page_size};
ghost use Rattle.mg_base.specs.Image.{page_at};
ghost use Rattle.mg_check_inventory.specs.ImagePages.{IsWholeImage};
ghost use Rattle.mg_check_records.specs.Marks.{most_slots as most_slots_of};
ghost use Rattle.mg_check_records.specs.Reads.{IsMatched, StepsTo, Takes};
ghost use Rattle.mg_check_records.specs.Walks.{target_finding as finding_of, writer_found};
ghost use Rattle.mg_version.specs.declared.cell.Cell.{Cell as AnyCell};
ghost use Rattle.mg_image.specs.Records.{cells_of};
ghost use Rattle.mg_image.specs.Sound.{IsTableData};
ghost use Rattle.mg_image.specs.Tables.{EachFrom, Has};
ghost use Rattle.mg_slots.specs.declared.page.TheConstants.{GREATEST_SIZE};

use crate::cells::slot_cell;
use crate::marks::Marks;
use crate::places::place_of;
use crate::rows::{Read, at_cell, read_row};
use mg_base::{Bytes, Field, Memory, RecId};
use mg_check_data::page_there;
use mg_findings::Finding;
use mg_image::Entry;
use mg_model::Table;
use mg_value::MOST_COLUMNS;
use mg_version::{Cell, Link, Version};
use std::alloc::Global;

/// What is told as the transaction of a cell that is no version.
const NO_WRITER: u64 = 4_294_967_295;

/// The version that a link meets, or what is found of it.
#[derive(Drop)]
pub(crate) enum Meeting {
    Version(Version),
    Stopped(Finding),
}

/// A version with its row, or what is found.
#[derive(Drop)]
pub(crate) enum Step {
    Entry(Entry),
    Stopped(Finding),
}

/// What is found of a link that leads to a version of this transaction, which is another one's.
fn missed(link: Link, writer: u64) -> Meeting
    ensures { (cell : Option AnyCell) → writer_found cell ≡ writer
        → result ≡ Meeting.Stopped (finding_of cell link) }
{
    Meeting::Stopped(at_cell(link.rec, Field::Target, writer, u64::from(link.tx.0)))
}

/// The version of a link's transaction that a cell is, or what is found of it.
fn matched(link: Link, cell: Option<Cell>) -> Meeting
    ensures { IsMatched link cell result }
{
    match cell {
        None => missed(link, NO_WRITER),
        Some(Cell::Anchor(_)) => missed(link, NO_WRITER),
        Some(Cell::Version(version)) => {
            if version.tx.0 == link.tx.0 {
                Meeting::Version(version)
            } else {
                missed(link, u64::from(version.tx.0))
            }
        }
    }
}

/// The version that a link to a data page meets, or what is found of it.
///
/// # Errors
///
/// `Memory` only.
fn meet(
    alloc: Global,
    size: u32,
    pages: &[Bytes],
    owner: u32,
    data_pages: &[u32],
    link: Link,
) -> Result<Meeting, Memory>
    requires image { IsWholeImage size pages.now }
    requires tested { EachFrom (IsTableData false size (page_at size pages.now) owner) 0
        data_pages.now }
    requires placed { Has data_pages.now link.rec.page.0 }
    ensures { IfOk result (IsMatched link (cells_of (page_at size pages.now) link.rec)) }
{
    let cell = slot_cell(alloc, page_there(pages, link.rec.page.0), link.rec.slot)?;
    Ok(matched(link, cell))
}

/// Takes the version that a link has met, if its mark is not set, with its row; or tells what is
/// found.
///
/// # Errors
///
/// `Memory` only.
fn take_version(
    alloc: Global,
    table: &Table,
    marks: &mut Marks,
    at: usize,
    holder: RecId,
    link: Link,
    version: Version,
) -> Result<Step, Memory>
    requires columns { length table.now.shape.columns ≤ MOST_COLUMNS }
    requires short { length version.body ≤ GREATEST_SIZE }
    requires inside { at < length marks.old }
    ensures { IfOk result (Takes table.now marks.old marks.new at holder link version) }
{
    if marks.has(at) {
        let page = u64::from(link.rec.page.0);
        return Ok(Step::Stopped(at_cell(holder, Field::Link, page, 0)));
    }
    match read_row(alloc, table, link.rec, &version)? {
        Read::Stopped(finding) => Ok(Step::Stopped(finding)),
        Read::Row(row) => {
            marks.put(at);
            Ok(Step::Entry(Entry {
                at: link.rec,
                version,
                row,
            }))
        }
    }
}

/// The most slots that a data page of a size can have, in bytes.
pub(crate) fn most_slots(size: u32) -> u32
    requires { is_page_size size ≡ true }
    ensures { result ≡ most_slots_of size }
{
    (size - 20) / 4
}

/// Where the mark of a slot of a data page stands.
fn mark_of(size: u32, place: u32, slot: u16) -> usize
    requires { is_page_size size ≡ true }
    ensures { result ≡ place * most_slots_of size + slot }
{
    place as usize * most_slots(size) as usize + slot as usize
}

/// One step of a walk, by a link that a cell holds.
///
/// # Errors
///
/// `Memory` only.
pub(crate) fn go_on(
    alloc: Global,
    size: u32,
    pages: &[Bytes],
    table: &Table,
    data_pages: &[u32],
    marks: &mut Marks,
    holder: RecId,
    link: Link,
) -> Result<Step, Memory>
    requires image { IsWholeImage size pages.now }
    requires columns { length table.now.shape.columns ≤ MOST_COLUMNS }
    requires tested { EachFrom (IsTableData false size (page_at size pages.now)
        table.now.pointer.0) 0 data_pages.now }
    requires marks { length marks.old ≡ length data_pages.now * most_slots_of size }
    ensures { IfOk result (StepsTo (cells_of (page_at size pages.now)) table.now data_pages.now size
        marks.old marks.new holder link) }
{
    let Some(place) = place_of(size, pages, table.pointer.0, data_pages, link.rec.page.0) else {
        let page = u64::from(link.rec.page.0);
        return Ok(Step::Stopped(at_cell(holder, Field::Link, page, 0)));
    };
    let version = match meet(alloc, size, pages, table.pointer.0, data_pages, link)? {
        Meeting::Version(version) => version,
        Meeting::Stopped(finding) => return Ok(Step::Stopped(finding)),
    };
    let at = mark_of(size, place, link.rec.slot);
    take_version(alloc, table, marks, at, holder, link, version)
}

//! Data pages: cells that come, change and go.

ghost use Rattle.std.specs.Prelude.{◌<◌, ◌^◌, length};
ghost use Rattle.mg_slots.specs.DataPage.{IsDataPage};

use super::super::bytes::has_bytes;
use super::deeds::{Deed, does_each};
use mg_base::PageNo;
use mg_slots::{new_data, put_cell, room, slots};
use std::alloc::Global;
use std::process::Abort;
use std::test::Fail;

/// An anchor to page 6, slot 1, transaction 1.
const ANCHOR: [u8; 11] = [1, 6, 0, 0, 0, 1, 0, 1, 0, 0, 0];

/// An empty page of 1024 bytes that had other bytes.
fn new_page() -> [u8; 1024]
    ensures { IsDataPage result }
{
    let mut page = [9u8; 1024];
    new_data(&mut page, PageNo(4), 3, 0);
    page
}

/// Wants an empty page of 1024 bytes to do what each deed says.
fn new_one_does(rt: &impl Abort, alloc: Global, deeds: &[Deed]) -> Result<(), Fail> {
    does_each(rt, alloc, &mut new_page(), deeds)
}

/// Wants an empty page to have room for all but its fields and one slot.
fn has_room(rt: &impl Abort, alloc: Global, size: u16) -> Result<(), Fail> {
    assert!(rt; size >= 1024 && size <= 16384);
    let mut page = vec![in alloc; 0u8; size as usize]?;
    new_data(&mut page, PageNo(4), 3, 0);
    let most = size - 24;
    let deeds = [
        Deed::Slots(0),
        Deed::Room(u32::from(most)),
        Deed::Refused(most + 1, u32::from(most) + 1, u32::from(most)),
        Deed::Put(most, 7, 0),
        Deed::Cell(0, most, 7),
        Deed::Refused(0, 11, 0),
    ];
    does_each(rt, alloc, &mut page, &deeds)
}

/// Puts records of an anchor and a version into a page until one has no room, and answers how many
/// went in whole.
fn put_records(b: &mut [u8], version: &[u8]) -> u32
    requires lawful { IsDataPage b.old }
    requires length { length version.now < 2 ^ 31 }
    ensures { IsDataPage b.new }
{
    for records in 0..2000 {
        if put_cell(b, &ANCHOR).is_err() || put_cell(b, version).is_err() {
            return records;
        }
    }
    2000
}

/// Tells whether a page of 4096 holds 92 records of an anchor and a version of 25 bytes.
fn holds_92() -> bool {
    let mut page = [0u8; 4096];
    new_data(&mut page, PageNo(4), 3, 0);
    // 4076 - 92 * 44 = 28 bytes are left: an anchor with its slot, and 13 bytes.
    put_records(&mut page, &[2; 25]) == 92 && slots(&page) == 185 && room(&page) == 9
}

#[test]
fn an_empty_page_has_room_for_all_but_its_fields_and_one_slot(rt: HostRuntime) -> Result<(), Fail> {
    for size in [1024, 2048, 4096, 8192, 16384] {
        has_room(&rt, rt.alloc(), size)?;
    }
    assert!(rt; holds_92());
    Ok(())
}

/// Tells whether an empty page has its common part, no slots, and its end as the lowest cell.
fn is_empty(page: &[u8; 1024]) -> bool {
    let front = [5u8, 0, 0, 0, 4, 0, 0, 0, 3, 0, 0, 0, 0, 0, 0, 0, 0, 0, 0, 4];
    has_bytes(page, 0, &front)
}

/// A page with twelve bytes 8 and the anchor.
fn page_of_two() -> [u8; 1024] {
    let mut page = new_page();
    let _ = put_cell(&mut page, &[8; 12]);
    let _ = put_cell(&mut page, &ANCHOR);
    page
}

/// Tells whether two cells lie from the end downward in the order of their slots.
fn are_downward(page: &[u8; 1024]) -> bool {
    // Offsets 1012 and 1001.
    has_bytes(page, 16, &[2, 0, 0xe9, 3, 0xf4, 3, 12, 0, 0xe9, 3, 11, 0])
        && has_bytes(page, 1001, &ANCHOR)
        && has_bytes(page, 1012, &[8; 12])
}

/// Slot numbers survive a change of other slots.
const THREE_CELLS: &[Deed] = &[
    Deed::Put(300, 1, 0),
    Deed::Put(300, 2, 1),
    Deed::Put(300, 3, 2),
    Deed::Room(1004 - 3 * 304 - 4),
    Deed::Free(1),
    Deed::Slots(3),
    Deed::NoCell(1),
    Deed::Room(1004 - 3 * 304 + 300),
    Deed::Replace(2, 310, 4),
    Deed::Put(20, 5, 1),
    Deed::Cell(0, 300, 1),
    Deed::Cell(1, 20, 5),
    Deed::Cell(2, 310, 4),
];

/// Free slots at the end are dropped.
const FOUR_CELLS: &[Deed] = &[
    Deed::Put(11, 1, 0),
    Deed::Put(11, 1, 1),
    Deed::Put(11, 1, 2),
    Deed::Put(11, 1, 3),
    Deed::Free(1),
    Deed::Free(2),
    Deed::Slots(4),
    Deed::Free(3),
    Deed::Slots(1),
    Deed::Free(3),
    Deed::Slots(1),
];

/// A cell without bytes takes eleven.
const NO_BYTES: &[Deed] = &[
    Deed::Put(0, 0, 0),
    Deed::Cell(0, 0, 0),
    Deed::Room(1004 - 15 - 4),
    Deed::Replace(0, 11, 1),
    Deed::Cell(0, 11, 1),
];

#[test]
fn cells_lie_from_the_end_downward_and_keep_their_slots(rt: HostRuntime) -> Result<(), Fail> {
    assert!(rt; is_empty(&new_page()));
    assert!(rt; are_downward(&page_of_two()));
    new_one_does(&rt, rt.alloc(), THREE_CELLS)?;
    new_one_does(&rt, rt.alloc(), FOUR_CELLS)?;
    new_one_does(&rt, rt.alloc(), NO_BYTES)
}

//! Data pages: the first field that differs.

use super::super::steps::{Step, go_each};
use super::deeds::{Deed, does_each};
use mg_base::{Damaged, Field, PageNo, put_u16};
use mg_slots::{LOW_AT, check_data, new_data};
use std::alloc::Global;
use std::process::Abort;
use std::test::Fail;

/// Four slots: 12 bytes at 1012, a free one, 20 bytes at 992 and 30 bytes at 962.
const FOUR_SLOTS: &[Deed] = &[
    Deed::Put(12, 7, 0),
    Deed::Put(11, 7, 1),
    Deed::Put(20, 7, 2),
    Deed::Put(30, 7, 3),
    Deed::Free(1),
];

/// Page 4 of table 3 with these slots.
fn new_page(rt: &impl Abort, alloc: Global) -> Result<[u8; 1024], Fail> {
    let mut page = [0u8; 1024];
    new_data(&mut page, PageNo(4), 3, 0);
    does_each(rt, alloc, &mut page, FOUR_SLOTS)?;
    Ok(page)
}

/// A number, an owner and a place among the owner's pages, and whether the page is lawful there.
struct Placed(u32, u32, u32, bool);

impl Step<[u8; 1024]> for Placed {
    fn goes(&self, on: &mut [u8; 1024]) -> bool {
        check_data(on, PageNo(self.0), self.1, self.2).is_ok() == self.3
    }
}

/// A page is lawful under its own number, owner and sequence.
const PLACES: &[Placed] = &[
    Placed(4, 3, 0, true),
    Placed(5, 3, 0, false),
    Placed(4, 2, 0, false),
    Placed(4, 3, 1, false),
];

/// The page with the bytes of a row in it.
fn broken_page(page: &[u8; 1024], at: usize, value: u16, low: u16) -> [u8; 1024] {
    let mut broken = *page;
    put_u16(&mut broken, LOW_AT, low);
    if at <= 1022 {
        put_u16(&mut broken, at, value);
    }
    broken
}

/// Tells whether a page is damaged at a field.
fn is_damaged(page: &[u8; 1024], field: Field, found: u64, wanted: u64) -> bool {
    let damage = Damaged {
        page: PageNo(4),
        field,
        found,
        wanted,
    };
    check_data(page, PageNo(4), 3, 0) == Err(damage)
}

/// Two bytes that are put at a place, after the lowest byte that a cell uses; then the field that
/// is told, and the numbers found and wanted.
struct Broken(usize, u16, u16, Field, u64, u64);

impl Step<[u8; 1024]> for Broken {
    fn goes(&self, on: &mut [u8; 1024]) -> bool {
        let broken = broken_page(on, self.0, self.1, self.2);
        is_damaged(&broken, self.3, self.4, self.5)
    }
}

/// The first field that differs is named.
const BROKEN: &[Broken] = &[
    Broken(0, 4, 962, Field::Kind, 4, 5),
    Broken(0, 256 + 5, 962, Field::Flags, 1, 0),
    Broken(2, 7, 962, Field::Zero, 7, 0),
    Broken(4, 9, 962, Field::Own, 9, 4),
    Broken(8, 1, 962, Field::Owner, 1, 3),
    Broken(12, 2, 962, Field::Sequence, 2, 0),
    // 251 slots fit; the fifth slot is free, and so is the second.
    Broken(16, 252, 962, Field::Count, 252, 251),
    Broken(16, 5, 962, Field::Count, 5, 4),
    Broken(16, 2, 962, Field::Count, 2, 1),
    Broken(18, 961, 962, Field::Offset, 961, 962),
    Broken(28, 30, 962, Field::Offset, 962, 30),
    // The first slot: 1013 + 11 and 1012 + 12 end at 1024.
    Broken(20, 1014, 962, Field::Offset, 1014, 1013),
    Broken(22, 13, 962, Field::Offset, 13, 12),
    // The second is free, so its length is 0.
    Broken(26, 5, 962, Field::Offset, 5, 0),
    // The third ends where the first begins: 1001 + 11 and 992 + 20 are 1012.
    Broken(28, 1005, 962, Field::Offset, 1005, 1001),
    Broken(30, 21, 962, Field::Offset, 21, 20),
    // The slots end at 36: 18 is as far from there as from 0.
    Broken(32, 18, 18, Field::Offset, 18, 0),
    Broken(32, 19, 19, Field::Offset, 19, 36),
];

#[test]
fn a_page_is_lawful_under_its_own_number_and_else_the_first_field_that_differs_is_named(
    rt: HostRuntime,
) -> Result<(), Fail> {
    let mut page = new_page(&rt, rt.alloc())?;
    go_each(&rt, &mut page, PLACES);
    go_each(&rt, &mut page, BROKEN);
    Ok(())
}

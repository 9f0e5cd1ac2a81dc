//! Records of one page, with their versions as bytes of the file format, are collected.

ghost use Rattle.std.specs.Prelude.{◌≡◌, ◌<◌, ◌^◌, ◌-◌, IfOk, length, if◌then◌else◌, ◌==◌};
ghost use Rattle.mg_base.specs.MemDisk.{mem_meaning};
ghost use Rattle.mg_base.specs.declared.transaction.TxState.TheVariants.{Active, Committed, Dead};
ghost use Rattle.mg_pool.specs.Pool.{IsPool};
ghost use Rattle.mg_slots.specs.DataPage.{IsDataPage};
ghost use Rattle.mg_space.specs.Taking.{IsGeometry};

use mg_base::{Disk, Geometry, MemDisk, Memory, PageNo, RecId, TxNo, TxState};
use mg_chain::{States, newest_link, version_at};
use mg_collecting::collect_record;
use mg_pointer::{add_entry, new_pointer};
use mg_pool::{Batch, Pool};
use mg_slots::{new_data, put_cell};
use mg_snap::Live;
use mg_space::{SpaceFault, Store};
use std::alloc::Global;
use std::test::Fail;

/// The table's only pointer page, its only data page, and the record of that page's first slot.
const OWNER: PageNo = PageNo(5);

const PAGE: PageNo = PageNo(6);

const REC: RecId = RecId {
    page: PageNo(6),
    slot: 0,
};

/// Transaction 8 is active, 9 is dead, and all others are committed.
struct EightAndNine;

impl States for EightAndNine {
    ghost state_of = { λ s t. if t == 8 then Active else (if t == 9 then Dead else Committed) };

    fn state(&self, t: TxNo) -> TxState {
        if t.0 == 8 {
            return TxState::Active;
        }
        if t.0 == 9 {
            return TxState::Dead;
        }
        TxState::Committed
    }
}

/// Puts these cells into the next slots of a data page.
fn put_each(page: &mut [u8], cells: &[&'static [u8]])
    requires { IsDataPage page.old }
    ensures { length page.new ≡ length page.old }
{
    for cell in cells {
        if cell.len() < 100 {
            let _ = put_cell(page, cell);
        }
    }
}

/// The data page of a record.
fn page_of(cells: &[&'static [u8]]) -> [u8; 1024] {
    let mut page = [0u8; 1024];
    new_data(&mut page, PAGE, OWNER.0, 0);
    put_each(&mut page, cells);
    page
}

/// The pointer page, which lists the data page.
fn pointer_page() -> [u8; 1024] {
    let mut page = [0u8; 1024];
    new_pointer(&mut page, OWNER, OWNER.0, 0);
    let _ = add_entry(&mut page, PAGE);
    page
}

/// A store without pages.
fn empty_store(alloc: Global) -> Result<Store<MemDisk>, Memory>
    ensures pool { IfOk result (λ store. IsPool mem_meaning store) }
    ensures geometry { IfOk result (λ store. IsGeometry store.geometry) }
    ensures size { IfOk result (λ store. store.geometry.size ≡ 1024) }
    ensures limit { IfOk result (λ store. store.geometry.limit ≡ 16) }
{
    let mut disk = MemDisk::new(alloc, 1024, 16, 16)?;
    let Ok(0) = disk.pages() else {
        return Err(Memory);
    };
    let geometry = Geometry {
        size: 1024,
        limit: 16,
    };
    match Pool::new(alloc, disk, geometry) {
        Ok(store) => Ok(store),
        Err(_) => Err(Memory),
    }
}

/// Has a store change one page.
fn put_page(store: &mut Store<MemDisk>, page: PageNo, bytes: &[u8; 1024]) -> Result<(), Memory>
    requires pool { IsPool mem_meaning store.old }
    requires geometry { IsGeometry store.old.geometry }
    requires size { store.old.geometry.size ≡ 1024 }
    requires limit { store.old.geometry.limit ≡ 16 }
    requires below { page.0 < 16 }
    ensures pool { IsPool mem_meaning store.new }
    ensures geometry { IsGeometry store.new.geometry }
    ensures size { store.new.geometry.size ≡ 1024 }
    ensures limit { store.new.geometry.limit ≡ 16 }
{
    match store.change_one(page, bytes, None) {
        Ok(()) => Ok(()),
        Err(_) => Err(Memory),
    }
}

/// A store with a record.
fn store_with(alloc: Global, cells: &[&'static [u8]]) -> Result<Store<MemDisk>, Memory>
    ensures pool { IfOk result (λ store. IsPool mem_meaning store) }
    ensures geometry { IfOk result (λ store. IsGeometry store.geometry) }
{
    let mut store = empty_store(alloc)?;
    put_page(&mut store, OWNER, &pointer_page())?;
    put_page(&mut store, PAGE, &page_of(cells))?;
    Ok(store)
}

/// The transactions below this one have ended, and it works; none works where there is none.
fn bases(alloc: Global, held: Option<u32>) -> Result<Live, Memory> {
    let Some(t) = held else {
        return Ok(Live::new(alloc, TxNo(10)));
    };
    let number = TxNo(t.min(9));
    let mut live = Live::new(alloc, number);
    live.enter(number)?;
    Ok(live)
}

/// Whose versions a record has, from the newest on, up to six.
fn writers(alloc: Global, store: &mut Store<MemDisk>) -> Result<Vec<u32>, SpaceFault>
    requires pool { IsPool mem_meaning store.old }
    requires geometry { IsGeometry store.old.geometry }
{
    let batch = Batch::new(alloc);
    let mut found = Vec::new(alloc);
    let mut next = newest_link(store, &batch, REC)?;
    for step in 0..6 {
        let Some(link) = next else {
            return Ok(found);
        };
        found.push(link.tx.0)?;
        next = version_at(store, &batch, PAGE, link)?.back;
    }
    Ok(found)
}

/// The cells of a page: an anchor in slot 0, and versions in slots 1 and on; the transaction that has a base, which sees
/// those of lower numbers; whether something goes; and whose versions remain.
struct Row(&'static [&'static [u8]], Option<u32>, bool, &'static [u32]);

/// Tells whether a record comes to what its row says.
fn is_so(alloc: Global, row: &Row) -> Result<bool, SpaceFault> {
    let mut store = store_with(alloc, row.0)?;
    let live = bases(alloc, row.1)?;
    let gone = collect_record(&mut store, REC, &EightAndNine, &live)?;
    let left = writers(alloc, &mut store)?;
    Ok(gone == row.2 && left.as_slice() == row.3)
}

/// Versions of 6, 5, 3, 2 and 1, each leading to the next.
const FIVE: &[&[u8]] = &[
    &[1, 6, 0, 0, 0, 1, 0, 6, 0, 0, 0],
    &[2, 2, 1, 0, 6, 0, 0, 0, 6, 0, 0, 0, 2, 0, 5, 0, 0, 0],
    &[2, 2, 1, 0, 5, 0, 0, 0, 6, 0, 0, 0, 3, 0, 3, 0, 0, 0],
    &[2, 2, 1, 0, 3, 0, 0, 0, 6, 0, 0, 0, 4, 0, 2, 0, 0, 0],
    &[2, 2, 1, 0, 2, 0, 0, 0, 6, 0, 0, 0, 5, 0, 1, 0, 0, 0],
    &[2, 0, 1, 0, 1, 0, 0, 0],
];

/// A version of 8, which is active, over versions of 2 and 1.
const OPEN: &[&[u8]] = &[
    &[1, 6, 0, 0, 0, 1, 0, 8, 0, 0, 0],
    &[2, 2, 1, 0, 8, 0, 0, 0, 6, 0, 0, 0, 2, 0, 2, 0, 0, 0],
    &[2, 2, 1, 0, 2, 0, 0, 0, 6, 0, 0, 0, 3, 0, 1, 0, 0, 0],
    &[2, 0, 1, 0, 1, 0, 0, 0],
];

/// A version of 9, which is dead, over versions of 2 and 1.
const ROLLED_BACK: &[&[u8]] = &[
    &[1, 6, 0, 0, 0, 1, 0, 9, 0, 0, 0],
    &[2, 2, 1, 0, 9, 0, 0, 0, 6, 0, 0, 0, 2, 0, 2, 0, 0, 0],
    &[2, 2, 1, 0, 2, 0, 0, 0, 6, 0, 0, 0, 3, 0, 1, 0, 0, 0],
    &[2, 0, 1, 0, 1, 0, 0, 0],
];

/// A version of 9, which is dead, alone.
const NOTHING_ELSE: &[&[u8]] = &[
    &[1, 6, 0, 0, 0, 1, 0, 9, 0, 0, 0],
    &[2, 0, 1, 0, 9, 0, 0, 0],
];

/// A deletion by 3 over versions of 2 and 1.
const ERASED: &[&[u8]] = &[
    &[1, 6, 0, 0, 0, 1, 0, 3, 0, 0, 0],
    &[2, 3, 1, 0, 3, 0, 0, 0, 6, 0, 0, 0, 2, 0, 2, 0, 0, 0],
    &[2, 2, 1, 0, 2, 0, 0, 0, 6, 0, 0, 0, 3, 0, 1, 0, 0, 0],
    &[2, 0, 1, 0, 1, 0, 0, 0],
];

const ROWS: &[Row] = &[
    // 4 sees 3 and neither 5 nor 6
    Row(FIVE, Some(4), true, &[6, 3]),
    // 2 sees 1 alone
    Row(FIVE, Some(2), true, &[6, 1]),
    // 7 sees all, and 1 none
    Row(FIVE, Some(7), true, &[6]),
    Row(FIVE, Some(1), true, &[6]),
    Row(FIVE, None, true, &[6]),
    Row(OPEN, None, true, &[8, 2]),
    // 2 sees 1
    Row(OPEN, Some(2), false, &[8, 2, 1]),
    Row(ROLLED_BACK, None, true, &[2]),
    Row(ROLLED_BACK, Some(2), true, &[2, 1]),
    Row(NOTHING_ELSE, None, true, &[]),
    Row(ERASED, None, true, &[]),
    // 3 has not ended for the base of 3, which sees 2: its deletion stays, and what is behind it
    Row(ERASED, Some(3), true, &[3, 2]),
    // 1 sees nothing: the deletion stays alone
    Row(ERASED, Some(1), true, &[3]),
    Row(&[], None, false, &[]),
];

#[test]
fn what_nobody_needs_goes_and_the_rest_stays(rt: HostRuntime) -> Result<(), Fail> {
    for place in 0..ROWS.len() {
        assert!(rt; is_so(rt.alloc(), &ROWS[place]) == Ok(true), "row {place}");
    }
    Ok(())
}

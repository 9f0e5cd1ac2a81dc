//! What no clause says: that calls succeed with ample memory, and worked rows of a small table.

ghost use Rattle.std.specs.Bool.{OnTrue};
ghost use Rattle.std.specs.Prelude.{◌≡◌, ◌≤◌, length};
ghost use Rattle.mg_base.specs.MemDisk.{mem_meaning};
ghost use Rattle.mg_pool.specs.Pool.{IsPool};
ghost use Rattle.mg_space.specs.Taking.{IsGeometry};
ghost use Rattle.mg_space.specs.View.{AreWhole};

use super::calls::{Begins, Bench, run_each};
use super::stores::{OWNER, Table, has_bytes, new_table};
use mg_base::{MemDisk, Memory, PageNo, RecId};
use mg_heap::{add, free, next};
use mg_image::PRIMARY_VERSION;
use mg_pool::{Batch, PoolFault};
use mg_space::{SpaceFault, Store};
use mg_version::{ANCHOR, VERSION};
use std::alloc::Global;
use std::test::Fail;

/// A call on a table in a batch, and what it answers.
#[derive(Clone, Copy)]
pub enum Call {
    /// A cell of 1000 bytes goes into the first slot of this page.
    Large(u32),
    /// Such a cell goes into the first slot of each page from one to the one before another.
    Fill(u32, u32),
    /// A cell of 100 bytes of this value goes into a slot of this page.
    Small(u8, u32, u16),
    /// A slot is freed.
    Free(u32, u16),
    /// A page of the batch is changed in the cache.
    Change(u32),
    /// A page of the batch has these bytes from a place on.
    Has(u32, usize, &'static [u8]),
    /// The walk over what is in the cache gives these slots, and no more.
    Walks(&'static [(u32, u16)]),
}

/// The name of a slot.
fn slot_of(page: u32, slot: u16) -> RecId {
    RecId {
        page: PageNo(page),
        slot,
    }
}

/// Adds a cell, and keeps what the next call needs.
fn put(store: &mut Store<MemDisk>, batch: &mut Batch, cell: &[u8]) -> Result<RecId, SpaceFault>
    requires pool { IsPool mem_meaning store.old }
    requires geometry { IsGeometry store.old.geometry }
    requires size { store.old.geometry.size ≡ 1024 }
    requires whole { AreWhole store.old.geometry batch.old.pages }
    requires length { length cell.now ≤ 1000 }
    ensures pool { IsPool mem_meaning store.new }
    ensures geometry { store.new.geometry ≡ store.old.geometry }
    ensures whole { AreWhole store.new.geometry batch.new.pages }
{
    add(store, batch, OWNER, cell)
}

/// Adds a large cell for each page from one to the one before another, and tells whether each went
/// into the first slot of its page.
fn fill(store: &mut Store<MemDisk>, batch: &mut Batch, from: u32, end: u32) -> bool
    requires pool { IsPool mem_meaning store.old }
    requires geometry { IsGeometry store.old.geometry }
    requires size { store.old.geometry.size ≡ 1024 }
    requires whole { AreWhole store.old.geometry batch.old.pages }
    ensures pool { IsPool mem_meaning store.new }
    ensures geometry { store.new.geometry ≡ store.old.geometry }
    ensures whole { AreWhole store.new.geometry batch.new.pages }
{
    for page in from..end {
        if put(store, batch, &[1; 1000]) != Ok(slot_of(page, 0)) {
            return false;
        }
    }
    true
}

/// Frees a slot, and keeps what the next call needs.
fn drop_slot(store: &mut Store<MemDisk>, batch: &mut Batch, at: RecId) -> bool
    requires pool { IsPool mem_meaning store.old }
    requires geometry { IsGeometry store.old.geometry }
    requires size { store.old.geometry.size ≡ 1024 }
    requires whole { AreWhole store.old.geometry batch.old.pages }
    ensures pool { IsPool mem_meaning store.new }
    ensures geometry { store.new.geometry ≡ store.old.geometry }
    ensures whole { OnTrue result (AreWhole store.new.geometry batch.new.pages) }
{
    match free(store, batch, at) {
        Ok(()) => true,
        Err(_) => false,
    }
}

/// Changes a page of a batch in the cache.
fn change_page(store: &mut Store<MemDisk>, batch: &Batch, page: u32) -> Result<(), PoolFault>
    requires pool { IsPool mem_meaning store.old }
    requires size { store.old.geometry.size ≡ 1024 }
    requires whole { AreWhole store.old.geometry batch.now.pages }
    ensures pool { IsPool mem_meaning store.new }
    ensures geometry { store.new.geometry ≡ store.old.geometry }
{
    if page >= store.geometry().limit {
        return Err(PoolFault::Memory);
    }
    let Some(bytes) = batch.bytes(PageNo(page)) else {
        return Ok(());
    };
    store.change_one(PageNo(page), bytes, None)
}

/// The record of a table behind another one.
fn next_of(store: &mut Store<MemDisk>, after: Option<RecId>) -> Result<Option<RecId>, SpaceFault>
    requires pool { IsPool mem_meaning store.old }
    requires geometry { IsGeometry store.old.geometry }
    ensures pool { IsPool mem_meaning store.new }
    ensures geometry { store.new.geometry ≡ store.old.geometry }
{
    next(store, OWNER, after)
}

/// Tells whether the walk gives these slots, one after another, and no more.
fn walks(store: &mut Store<MemDisk>, slots: &[(u32, u16)]) -> Result<bool, SpaceFault>
    requires pool { IsPool mem_meaning store.old }
    requires geometry { IsGeometry store.old.geometry }
    ensures pool { IsPool mem_meaning store.new }
    ensures geometry { store.new.geometry ≡ store.old.geometry }
{
    let mut after = None;
    for (page, slot) in slots {
        let wanted = Some(slot_of(*page, *slot));
        if next_of(store, after)? != wanted {
            return Ok(false);
        }
        after = wanted;
    }
    Ok(next_of(store, after)?.is_none())
}

impl Bench for Table {
    type Call = Call;

    ghost ready = { λ it. IsPool mem_meaning it.store × IsGeometry it.store.geometry
        × (it.store.geometry.size ≡ 1024) × AreWhole it.store.geometry it.batch.pages };

    fn does(&mut self, _alloc: Global, call: &Call) -> bool {
        let store = &mut self.store;
        let batch = &mut self.batch;
        match *call {
            Call::Large(page) => put(store, batch, &[1; 1000]) == Ok(slot_of(page, 0)),
            Call::Fill(from, end) => fill(store, batch, from, end),
            Call::Small(byte, page, slot) => {
                put(store, batch, &[byte; 100]) == Ok(slot_of(page, slot))
            }
            Call::Free(page, slot) => drop_slot(store, batch, slot_of(page, slot)),
            Call::Change(page) => change_page(store, batch, page) == Ok(()),
            Call::Has(page, at, bytes) => has_bytes(batch, PageNo(page), at, bytes),
            Call::Walks(slots) => walks(store, slots) == Ok(true),
        }
    }
}

impl Begins for Table {
    type From = ();

    fn begin(alloc: Global, _from: ()) -> Result<Table, Memory> {
        new_table(alloc, 1000)
    }
}

/// Page 257 is the new pointer page.
const SECOND_POINTERS: &[Call] = &[
    Call::Fill(7, 257),
    Call::Large(258),
    Call::Has(5, 16, &[1, 1, 0, 0, 250, 0]),
    Call::Has(
        257,
        8,
        &[5, 0, 0, 0, 1, 0, 0, 0, 0, 0, 0, 0, 1, 0, 0, 0, 2, 1, 0, 0],
    ),
];

/// Nine cells of 100 bytes fill page 7; the others stand on page 8.
const TWO_PAGES: &[Call] = &[
    Call::Small(ANCHOR, 7, 0),
    Call::Small(VERSION, 7, 1),
    Call::Small(ANCHOR, 7, 2),
    Call::Small(PRIMARY_VERSION, 7, 3),
    Call::Small(VERSION, 7, 4),
    Call::Small(ANCHOR, 7, 5),
    Call::Small(ANCHOR, 7, 6),
    Call::Small(VERSION, 7, 7),
    Call::Small(VERSION, 7, 8),
    Call::Small(VERSION, 8, 0),
    Call::Small(ANCHOR, 8, 1),
    Call::Small(PRIMARY_VERSION, 8, 2),
    Call::Small(VERSION, 8, 3),
    Call::Small(ANCHOR, 8, 4),
    Call::Free(7, 0),
    Call::Free(7, 5),
    Call::Free(8, 2),
    Call::Change(5),
    Call::Change(7),
    Call::Change(8),
    Call::Walks(&[(7, 2), (7, 3), (7, 6), (8, 1), (8, 4)]),
];

const RUNS: &[(&str, (), &[Call])] = &[
    (
        "the 251st data page is listed by a second pointer page",
        (),
        SECOND_POINTERS,
    ),
    (
        "the walk gives each primary slot once in the order of pages and slots",
        (),
        TWO_PAGES,
    ),
];

#[test]
fn where_cells_of_a_table_stand(rt: HostRuntime) -> Result<(), Fail> {
    run_each::<Table>(&rt, rt.alloc(), RUNS)
}

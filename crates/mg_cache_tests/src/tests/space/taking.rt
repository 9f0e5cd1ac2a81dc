//! What no clause says: that calls succeed with ample memory, and worked rows of the page
//! inventory.

ghost use Rattle.std.specs.Prelude.{◌≡◌, ◌<◌, ◌≤◌, IfOk};
ghost use Rattle.mg_base.specs.MemDisk.{mem_meaning};
ghost use Rattle.mg_pool.specs.Pool.{IsPool};
ghost use Rattle.mg_space.specs.Taking.{IsGeometry};
ghost use Rattle.mg_space.specs.View.{AreWhole};

use crate::tests::calls::{Begins, Bench, run_each};
use crate::tests::stores::{batch_with, empty_store, has_bytes};
use mg_base::{MemDisk, Memory, PageNo};
use mg_pool::Batch;
use mg_space::{SpaceFault, Store, take_page};
use std::alloc::Global;
use std::test::Fail;

/// Takes a page, and keeps what the next call needs.
fn take(store: &mut Store<MemDisk>, batch: &mut Batch) -> Result<PageNo, SpaceFault>
    requires pool { IsPool mem_meaning store.old }
    requires geometry { IsGeometry store.old.geometry }
    requires size { store.old.geometry.size ≡ 1024 }
    requires whole { AreWhole store.old.geometry batch.old.pages }
    ensures pool { IsPool mem_meaning store.new }
    ensures geometry { store.new.geometry ≡ store.old.geometry }
    ensures whole { AreWhole store.new.geometry batch.new.pages }
{
    take_page(store, batch)
}

/// A call on the inventory in a batch, and what it answers.
#[derive(Clone, Copy)]
pub enum Call {
    /// This page is taken.
    Take(u32),
    /// The file is full, with this limit.
    Full(u32),
    /// A page of the batch has these bytes from a place on.
    Has(u32, usize, &'static [u8]),
}

/// A store, and a batch in which its pages are taken.
#[derive(Drop)]
pub struct Inventory {
    store: Store<MemDisk>,
    batch: Batch,
}

impl Bench for Inventory {
    type Call = Call;

    ghost ready = { λ it. IsPool mem_meaning it.store × IsGeometry it.store.geometry
        × (it.store.geometry.size ≡ 1024) × AreWhole it.store.geometry it.batch.pages };

    fn does(&mut self, _alloc: Global, call: &Call) -> bool {
        match *call {
            Call::Take(page) => take(&mut self.store, &mut self.batch) == Ok(PageNo(page)),
            Call::Full(limit) => {
                take(&mut self.store, &mut self.batch) == Err(SpaceFault::Full { limit })
            }
            Call::Has(page, at, bytes) => has_bytes(&self.batch, PageNo(page), at, bytes),
        }
    }
}

/// A store below a limit, and a batch in which so many of the first pages are used.
fn new_inventory(alloc: Global, limit: u32, used: u32) -> Result<Inventory, Memory>
    requires limit { 1 < limit }
    requires used { used ≤ 8064 }
    ensures pool { IfOk result (λ it. IsPool mem_meaning it.store) }
    ensures geometry { IfOk result (λ it. IsGeometry it.store.geometry) }
    ensures size { IfOk result (λ it. it.store.geometry.size ≡ 1024) }
    ensures whole { IfOk result (λ it. AreWhole it.store.geometry it.batch.pages) }
{
    let batch = batch_with(alloc, used)?;
    let store = empty_store(alloc, limit)?;
    Ok(Inventory { store, batch })
}

impl Begins for Inventory {
    /// The limit of the file, and how many of the first pages are used.
    type From = (u32, u32);

    fn begin(alloc: Global, from: (u32, u32)) -> Result<Inventory, Memory> {
        let (limit, used) = from;
        if limit < 2 {
            return Err(Memory);
        }
        new_inventory(alloc, limit, used.min(8064))
    }
}

const FROM_7_ON: &[Call] = &[
    Call::Take(7),
    Call::Take(8),
    Call::Take(9),
    Call::Take(10),
    Call::Take(11),
    Call::Take(12),
    Call::Take(13),
    Call::Take(14),
    Call::Take(15),
    Call::Full(16),
    Call::Has(1, 16, &[0xff, 0xff, 0]),
];

const SECOND_REGION: &[Call] = &[
    Call::Take(8064),
    Call::Take(8066),
    Call::Full(8067),
    Call::Has(
        8065,
        0,
        &[
            2, 0, 0, 0, 0x81, 0x1f, 0, 0, 0, 0, 0, 0, 1, 0, 0, 0, 7, 0, 0, 0,
        ],
    ),
];

const RUNS: &[(&str, (u32, u32), &[Call])] = &[
    (
        "a new database gives its pages from 7 on",
        (16, 7),
        FROM_7_ON,
    ),
    (
        "the second region gets its inventory page",
        (8067, 8064),
        SECOND_REGION,
    ),
    (
        "a page whose inventory page lies past the limit is not free",
        (8065, 8064),
        &[Call::Full(8065)],
    ),
];

#[test]
fn which_pages_are_taken(rt: HostRuntime) -> Result<(), Fail> {
    run_each::<Inventory>(&rt, rt.alloc(), RUNS)
}

//! The stores and batches that the tests begin with: pages have 1024 bytes.

ghost use Rattle.std.specs.Prelude.{◌≡◌, ◌≤◌, ◌<◌, ℕ, Some, IfOk};
ghost use Rattle.mg_base.specs.MemDisk.{mem_meaning};
ghost use Rattle.mg_base.specs.declared.geometry.Geometry.{Geometry};
ghost use Rattle.mg_pool.specs.Pool.{HasAtMost, IsPool};
ghost use Rattle.mg_space.specs.Taking.{IsGeometry};
ghost use Rattle.mg_space.specs.View.{AreWhole};

use mg_base::{Disk, Geometry, MemDisk, Memory, PageNo};
use mg_pip::{new_pip, set_used};
use mg_pointer::new_pointer;
use mg_pool::{Batch, Pool};
use mg_space::Store;
use std::alloc::Global;

/// The first pointer page of the empty table.
pub const OWNER: PageNo = PageNo(5);

/// A store over a disk, below this limit.
pub fn store_over<D: Disk + Drop>(alloc: Global, disk: D, limit: u32) -> Result<Store<D>, Memory>
    requires size { D.meaning.size disk ≡ Some 1024 }
    requires within { HasAtMost D.meaning disk limit }
    ensures pool { IfOk result (λ store. IsPool D.meaning store) }
    ensures geometry { IfOk result (λ store. IsGeometry store.geometry) }
    ensures size { IfOk result (λ store. store.geometry.size ≡ 1024) }
    ensures limit { IfOk result (λ store. store.geometry.limit ≡ limit) }
{
    let geometry = Geometry { size: 1024, limit };
    match Pool::new(alloc, disk, geometry) {
        Ok(store) => Ok(store),
        Err(_) => Err(Memory),
    }
}

/// A disk without pages, with room for so many.
pub fn new_disk(alloc: Global, room: u32) -> Result<MemDisk, Memory>
    ensures size { IfOk result (λ disk. mem_meaning.size disk ≡ Some 1024) }
    ensures count { IfOk result (λ disk. mem_meaning.count disk ≡ Some 0) }
{
    let mut disk = MemDisk::new(alloc, 1024, room, 16)?;
    let Ok(0) = disk.pages() else {
        return Err(Memory);
    };
    Ok(disk)
}

/// A store over a disk without pages, below this limit.
pub fn empty_store(alloc: Global, limit: u32) -> Result<Store<MemDisk>, Memory>
    ensures pool { IfOk result (λ store. IsPool mem_meaning store) }
    ensures geometry { IfOk result (λ store. IsGeometry store.geometry) }
    ensures size { IfOk result (λ store. store.geometry.size ≡ 1024) }
    ensures limit { IfOk result (λ store. store.geometry.limit ≡ limit) }
{
    store_over(alloc, new_disk(alloc, 16)?, limit)
}

/// Tells whether a page of a batch has these bytes from a place on.
pub fn has_bytes(batch: &Batch, page: PageNo, at: usize, wanted: &[u8]) -> bool {
    match batch.bytes(page) {
        Some(bytes) => bytes.len() >= at && bytes[at..].starts_with(wanted),
        None => false,
    }
}

/// The first inventory page, on which the first so many pages are used.
pub fn inventory_page(used: u32) -> [u8; 1024]
    requires { used ≤ 8064 }
{
    let mut page = [0; 1024];
    new_pip(&mut page, PageNo(1), 0);
    for bit in 0..used {
        set_used(&mut page, bit, true);
    }
    page
}

/// A batch with the first inventory page, on which the first pages are used.
pub fn batch_with(alloc: Global, used: u32) -> Result<Batch, Memory>
    requires { used ≤ 8064 }
    ensures whole { IfOk result (λ batch. (g : Geometry) → g.size ≡ 1024 → 1 < g.limit → AreWhole g batch.pages) }
{
    let mut batch = Batch::new(alloc);
    batch.put(PageNo(1), &inventory_page(used))?;
    Ok(batch)
}

/// The first pointer page of the empty table.
fn pointer_page() -> [u8; 1024] {
    let mut first = [0; 1024];
    new_pointer(&mut first, OWNER, OWNER.0, 0);
    first
}

/// A batch with the first inventory page, on which pages 0 to 6 are used, and an empty table.
pub fn empty_table(alloc: Global) -> Result<Batch, Memory>
    ensures whole { IfOk result (λ batch. (g : Geometry) → g.size ≡ 1024 → 5 < g.limit → AreWhole g batch.pages) }
{
    let mut batch = batch_with(alloc, 7)?;
    batch.put(OWNER, &pointer_page())?;
    Ok(batch)
}

/// An empty table in a batch, over a store.
#[derive(Drop)]
pub struct Table {
    pub store: Store<MemDisk>,
    pub batch: Batch,
}

/// An empty table, over a store below this limit.
pub fn new_table(alloc: Global, limit: u32) -> Result<Table, Memory>
    requires limit { 5 < limit }
    ensures pool { IfOk result (λ it. IsPool mem_meaning it.store) }
    ensures geometry { IfOk result (λ it. IsGeometry it.store.geometry) }
    ensures size { IfOk result (λ it. it.store.geometry.size ≡ 1024) }
    ensures whole { IfOk result (λ it. AreWhole it.store.geometry it.batch.pages) }
{
    let batch = empty_table(alloc)?;
    let store = empty_store(alloc, limit)?;
    Ok(Table { store, batch })
}

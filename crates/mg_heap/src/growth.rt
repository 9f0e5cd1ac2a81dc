//! A table gets a data page.

ghost use Rattle.std.specs.Prelude.{◌≡◌, ◌≤◌, ◌<◌, ◌^◌, ◌↔◌, ℕ, true, IfOk, IsTrue, MatchResult, OnErr, OnOk, length};
ghost use Rattle.mg_base.specs.Geometry.{is_page_size};
ghost use Rattle.mg_base.specs.Image.{Image, blank};
ghost use Rattle.mg_pointer.specs.PointerPage.{AddsEntry, IsPointerPage, new_pointer_page};
ghost use Rattle.mg_pool.specs.Fault.{TellsFault};
ghost use Rattle.mg_pool.specs.Pool.{IsPool};
ghost use Rattle.mg_space.specs.Taking.{IsGeometry, RefusesTake};
ghost use Rattle.mg_space.specs.View.{AreWhole, KeepsStore, ReadsAlone, Tells, pool_answer, viewed};
ghost use Rattle.mg_heap.specs.Growth.{AddsOrders, GrowsTable, HasEntryRoom, ListsInLast, ListsInNew, MakesData, MakesPointer, RefusesGrowth, RefusesTwo, TakesTwo, orders_to};

use crate::table::pointer_page;
use mg_base::{Disk, Memory, PageNo, get_u16};
use mg_careful::Order;
use mg_pointer::{COUNT_AT, ENTRIES_AT, ENTRY_LEN, add_entry, new_pointer, set_next};
use mg_pool::Batch;
use mg_slots::new_data;
use mg_space::{SpaceFault, Store, inventory_page_of, take_page};

/// A data page with its content.
#[derive(Drop)]
pub(crate) struct DataPage {
    pub(crate) page: PageNo,
    pub(crate) bytes: Vec<u8>,
}

/// Gives a table a data page more, which is empty: its last pointer page `q` lists it, or a new one
/// behind `q` exactly where `q` is full.
///
/// `at` has the number of the table's data pages, and the place of `q` in the chain.
///
/// # Errors
///
/// `Damaged` where `q` is missing or not as wanted at its place; else as `take_page`. The batch may
/// then have a part of the growth; its contents are one page long.
pub(crate) fn grow<D: Disk>(
    store: &mut Store<D>,
    batch: &mut Batch,
    owner: PageNo,
    at: Places,
    q: PageNo,
) -> Result<DataPage, SpaceFault>
    requires pool { IsPool D.meaning store.old }
    requires geometry { IsGeometry store.old.geometry }
    requires whole { AreWhole store.old.geometry batch.old.pages }
    requires few { at.pointer < 2 ^ 31 }

    ensures keeps { KeepsStore D.meaning store.old store.new }
    ensures fault { TellsFault D.meaning store.old store.new (pool_answer result) }
    ensures own { ReadsAlone result }
    ensures whole { AreWhole store.old.geometry batch.new.pages }
    ensures grows { (image : Image) → Tells D.meaning store.old.disk image → MatchResult result
        (λ it. GrowsTable store.old.geometry store.old image batch.old batch.new owner.0 at.data
        at.pointer q.0 (viewed store.old image batch.old q.0) it.page.0 it.bytes.items)
        (RefusesGrowth D.meaning store.old store.new image batch.old owner.0 at.pointer q) }
{
    let mut pointer = pointer_page(store, batch, owner, q, at.pointer)?.into_vec();
    if has_entry_room(&pointer) {
        list_in_last(store, batch, owner, at.data, q, &mut pointer)
    } else {
        let behind = Places {
            data: at.data,
            pointer: at.pointer + 1,
        };
        list_in_new(store, batch, owner, behind, q, &mut pointer)
    }
}

/// Tells whether a pointer page has room for an entry.
fn has_entry_room(b: &[u8]) -> bool
    requires { IsPointerPage b.now }
    ensures { IsTrue result ↔ HasEntryRoom b.now }
{
    (get_u16(b, COUNT_AT) as usize) < (b.len() - ENTRIES_AT) / ENTRY_LEN
}

/// Takes a page, makes it an empty data page of an owner at a place, and lists it in a pointer page
/// that has room.
///
/// Orders of page writes: the inventory page with the page's bit, and the page itself, reach the
/// disk before the pointer page.
///
/// # Errors
///
/// As `take_page`. The batch may then have a part of this; its contents are one page long.
fn list_in_last<D: Disk>(
    store: &mut Store<D>,
    batch: &mut Batch,
    owner: PageNo,
    place: u32,
    q: PageNo,
    pointer: &mut [u8],
) -> Result<DataPage, SpaceFault>
    requires pool { IsPool D.meaning store.old }
    requires geometry { IsGeometry store.old.geometry }
    requires whole { AreWhole store.old.geometry batch.old.pages }
    requires below { q.0 < store.old.geometry.limit }
    requires lawful { IsPointerPage pointer.old }
    requires len { length pointer.old ≡ store.old.geometry.size }
    requires room { HasEntryRoom pointer.old }

    ensures keeps { KeepsStore D.meaning store.old store.new }
    ensures fault { TellsFault D.meaning store.old store.new (pool_answer result) }
    ensures own { ReadsAlone result }
    ensures whole { AreWhole store.old.geometry batch.new.pages }
    ensures lists { (image : Image) → Tells D.meaning store.old.disk image → MatchResult result
        (λ it. ListsInLast store.old.geometry store.old image batch.old batch.new owner.0 place q.0
        it.page.0 pointer.old it.bytes.items)
        (RefusesTake store.old.geometry (viewed store.old image batch.old)) }
{
    let n = take_page(store, batch)?;
    let bytes = make_data(store, batch, n, owner, place)?;
    add_entry(pointer, n);
    batch.put(q, pointer)?;
    order_to(batch, store.geometry().size, n, q)?;
    Ok(DataPage { page: n, bytes })
}

/// Takes two pages, makes one an empty data page of an owner at a place, and the other the pointer
/// page of the owner at a place of its chain, which lists it. Then the last pointer page is linked
/// to the new one.
///
/// Orders of page writes: for each of the two pages the inventory page with its bit, and the page
/// itself, reach the disk before the page that points to it.
///
/// # Errors
///
/// As `take_page`. The batch may then have a part of this; its contents are one page long.
fn list_in_new<D: Disk>(
    store: &mut Store<D>,
    batch: &mut Batch,
    owner: PageNo,
    at: Places,
    q: PageNo,
    pointer: &mut [u8],
) -> Result<DataPage, SpaceFault>
    requires pool { IsPool D.meaning store.old }
    requires geometry { IsGeometry store.old.geometry }
    requires whole { AreWhole store.old.geometry batch.old.pages }
    requires below { q.0 < store.old.geometry.limit }
    requires lawful { IsPointerPage pointer.old }
    requires len { length pointer.old ≡ store.old.geometry.size }

    ensures keeps { KeepsStore D.meaning store.old store.new }
    ensures fault { TellsFault D.meaning store.old store.new (pool_answer result) }
    ensures own { ReadsAlone result }
    ensures whole { AreWhole store.old.geometry batch.new.pages }
    ensures lists { (image : Image) → Tells D.meaning store.old.disk image → MatchResult result
        (λ it. (p : ℕ) × ListsInNew store.old.geometry store.old image batch.old batch.new owner.0
        at.data at.pointer q.0 p it.page.0 pointer.old it.bytes.items)
        (RefusesTwo store.old.geometry store.old image batch.old) }
{
    let taken = take_two(store, batch)?;
    let bytes = make_data(store, batch, taken.second, owner, at.data)?;
    make_pointer(store, batch, taken.first, owner, at.pointer, taken.second)?;
    set_next(pointer, taken.first);
    batch.put(q, pointer)?;
    order_to(batch, store.geometry().size, taken.second, taken.first)?;
    order_to(batch, store.geometry().size, taken.first, q)?;
    Ok(DataPage {
        page: taken.second,
        bytes,
    })
}

/// The places of a new data page among those of its table, and of a new pointer page in the chain.
#[derive(Clone, Copy)]
pub(crate) struct Places {
    pub(crate) data: u32,
    pub(crate) pointer: u32,
}

/// Two pages that were taken.
#[derive(Clone, Copy)]
struct TwoPages {
    first: PageNo,
    second: PageNo,
}

/// Takes two pages.
fn take_two<D: Disk>(store: &mut Store<D>, batch: &mut Batch) -> Result<TwoPages, SpaceFault>
    requires pool { IsPool D.meaning store.old }
    requires geometry { IsGeometry store.old.geometry }
    requires whole { AreWhole store.old.geometry batch.old.pages }

    ensures keeps { KeepsStore D.meaning store.old store.new }
    ensures fault { TellsFault D.meaning store.old store.new (pool_answer result) }
    ensures own { ReadsAlone result }
    ensures whole { AreWhole store.old.geometry batch.new.pages }
    ensures small { IfOk result (λ two. (two.first.0 < 2 ^ 31) × (two.second.0 < 2 ^ 31)) }
    ensures below { IfOk result (λ two. (two.first.0 < store.old.geometry.limit)
        × (two.second.0 < store.old.geometry.limit)) }
    ensures takes { (image : Image) → Tells D.meaning store.old.disk image → MatchResult result
        (λ two. TakesTwo store.old.geometry store.old image batch.old batch.new two.first.0
        two.second.0)
        (RefusesTwo store.old.geometry store.old image batch.old) }
{
    let first = take_page(store, batch)?;
    let second = take_page(store, batch)?;
    Ok(TwoPages { first, second })
}

/// Makes a page the pointer page of an owner at a place of its chain, with one entry.
fn make_pointer<D: Disk>(
    store: &Store<D>,
    batch: &mut Batch,
    p: PageNo,
    owner: PageNo,
    at: u32,
    n: PageNo,
) -> Result<(), Memory>
    requires { IsGeometry store.now.geometry }
    ensures made { OnOk result (MakesPointer store.now.geometry.size batch.old batch.new
        owner.0 at p.0 n.0) }
    ensures same { OnErr result (batch.new ≡ batch.old) }
{
    let mut page = blank_page(store)?;
    start_pointer(&mut page, p, owner, at, n);
    batch.put(p, &page)?;
    Ok(())
}

/// Makes a pointer page with one entry.
fn start_pointer(b: &mut [u8], p: PageNo, owner: PageNo, at: u32, n: PageNo)
    requires least { 1024 ≤ length b.old }
    requires most { length b.old ≤ 16384 }
    ensures { AddsEntry (new_pointer_page (length b.old) p.0 owner.0 at) b.new n.0 }
{
    new_pointer(b, p, owner.0, at);
    add_entry(b, n);
}

/// Makes a page an empty data page of an owner at a place.
fn make_data<D: Disk>(
    store: &Store<D>,
    batch: &mut Batch,
    n: PageNo,
    owner: PageNo,
    place: u32,
) -> Result<Vec<u8>, Memory>
    requires { IsGeometry store.now.geometry }
    ensures made { IfOk result (λ page. MakesData store.now.geometry.size batch.old batch.new
        owner.0 place n.0 page.items) }
    ensures same { OnErr result (batch.new ≡ batch.old) }
{
    let mut page = blank_page(store)?;
    new_data(&mut page, n, owner.0, place);
    batch.put(n, &page)?;
    Ok(page)
}

/// A page of zeros.
fn blank_page<D: Disk>(store: &Store<D>) -> Result<Vec<u8>, Memory>
    ensures { IfOk result (λ page. page.items ≡ blank store.now.geometry.size) }
{
    let size = store.geometry().size as usize;
    Ok(vec![in store.alloc(); 0u8; size]?)
}

/// Orders a page that was taken, and the inventory page with its bit, before a page that points to
/// it.
fn order_to(batch: &mut Batch, size: u32, n: PageNo, later: PageNo) -> Result<(), Memory>
    requires size { is_page_size size ≡ true }
    requires page { n.0 < 2 ^ 31 }
    ensures adds { OnOk result (AddsOrders batch.old batch.new (orders_to size n.0 later.0)) }
    ensures pages { batch.new.pages ≡ batch.old.pages }
{
    let bit = inventory_page_of(size, n);
    // A crash may not leave an entry of a page that is not marked as used, or not made yet.
    batch.order(Order {
        first: bit.0,
        later: later.0,
    })?;
    batch.order(Order {
        first: n.0,
        later: later.0,
    })?;
    Ok(())
}

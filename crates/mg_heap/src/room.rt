//! A data page with room for a cell: one that the table has, or a new one.

ghost use Rattle.std.specs.Bool.{OnTrue};
ghost use Rattle.std.specs.Prelude.{◌≡◌, ◌≢◌, ◌≤◌, ◌<◌, ◌^◌, IfOk, IfSome, MatchResult, None, length, slice_index};
ghost use Rattle.mg_base.specs.Image.{Image};
ghost use Rattle.mg_pool.specs.Fault.{TellsFault};
ghost use Rattle.mg_pool.specs.Pool.{IsPool};
ghost use Rattle.mg_slots.specs.Room.{room_of};
ghost use Rattle.mg_space.specs.Taking.{IsGeometry};
ghost use Rattle.mg_space.specs.View.{AreWhole, KeepsStore, ReadsAlone, Tells, pool_answer, viewed};
ghost use Rattle.mg_heap.specs.Reading.{ReadsData};
ghost use Rattle.mg_heap.specs.LastRoom.{FindsLast, GivesLast, IsPlaced, RefusesLast};
ghost use Rattle.mg_heap.specs.Room.{FindsRoom, GivesIn, GivesRoom, HoldsRoom, LooksAt, RefusesRoom, RefusesRoomIn, looked_at as place_after};
ghost use Rattle.mg_heap.specs.Table.{RefusesTable};
ghost use Rattle.mg_heap.specs.Walk.{RefusesWalkOf};

use crate::growth::{Places, grow};
use crate::lookup::{data_page_at, data_page_count};
use crate::table::{TablePages, table_pages};
use crate::walk::hold_table_data;
use mg_base::{Disk, GREATEST_LIMIT, PageNo};
use mg_pool::Batch;
use mg_slots::room;
use mg_space::{SpaceFault, Store, known_room, lent, note_room};

/// A data page of the table with room for so many bytes: the last one if it has room, else the first
/// one that has; where none has, the table gets a new one, which is empty.
///
/// `owner` is the table's first pointer page. A new data page is listed by the table's last pointer
/// page, or by a new one behind it exactly where that is full. In the batch are then the inventory
/// pages with the bits of the pages that were taken, these pages, and the pointer page that was the
/// last one. The orders of page writes that are added: for each page that was taken, the inventory
/// page with its bit, and the page itself, before the pointer page that points to it.
///
/// Where the last page has room, the table's pointer pages and that page are read, and no other one.
/// Else the other data pages are looked at, but for those of which the cache has noted since their last
/// change that they have too little room.
///
/// # Errors
///
/// `Damaged` at the first pointer page that is not as wanted, or at the first data page that is
/// looked at and is not the owner's at its place, or as `take_page`; `Full` as `take_page`; `Pool`
/// with `DiskRead`, `Offline` or `Memory`. The batch may then have a part of the growth, and its
/// contents are one page long: the caller drops it.
pub fn page_with_room<D: Disk>(
    store: &mut Store<D>,
    batch: &mut Batch,
    owner: PageNo,
    need: u32,
) -> Result<PageNo, SpaceFault>
    requires pool { IsPool D.meaning store.old }
    requires geometry { IsGeometry store.old.geometry }
    requires whole { AreWhole store.old.geometry batch.old.pages }
    requires owner { owner.0 < GREATEST_LIMIT }
    requires some { owner.0 ≢ 0 }

    ensures keeps { KeepsStore D.meaning store.old store.new }
    ensures fault { TellsFault D.meaning store.old store.new (pool_answer result) }
    ensures own { ReadsAlone result }
    ensures whole { AreWhole store.old.geometry batch.new.pages }
    ensures gives { (image : Image) → Tells D.meaning store.old.disk image → MatchResult result
        (GivesRoom store.old image batch.old batch.new owner.0 need)
        (RefusesRoom D.meaning store.old store.new image batch.old owner.0) }
{
    let last = last_with_room(store, batch, owner, need)?;
    if let Some(found) = last {
        return Ok(found);
    }
    listed_with_room(store, batch, owner, need)
}

/// As `page_with_room`: all data pages of the table are listed for it.
fn listed_with_room<D: Disk>(
    store: &mut Store<D>,
    batch: &mut Batch,
    owner: PageNo,
    need: u32,
) -> Result<PageNo, SpaceFault>
    requires pool { IsPool D.meaning store.old }
    requires geometry { IsGeometry store.old.geometry }
    requires whole { AreWhole store.old.geometry batch.old.pages }
    requires owner { owner.0 < GREATEST_LIMIT }
    requires some { owner.0 ≢ 0 }

    ensures keeps { KeepsStore D.meaning store.old store.new }
    ensures fault { TellsFault D.meaning store.old store.new (pool_answer result) }
    ensures own { ReadsAlone result }
    ensures whole { AreWhole store.old.geometry batch.new.pages }
    ensures gives { (image : Image) → Tells D.meaning store.old.disk image → MatchResult result
        (GivesRoom store.old image batch.old batch.new owner.0 need)
        (RefusesRoom D.meaning store.old store.new image batch.old owner.0) }
{
    let table = table_pages(store, batch, owner)?;
    room_in(store, batch, owner, &table, need)
}

/// The last data page of a table, if it has room for so many bytes. The data pages are counted for it
/// and not listed.
///
/// # Errors
///
/// `Damaged` at the first pointer page that is not as wanted, or where the last data page is not the
/// owner's at its place. `Pool` with `DiskRead`, `Offline` or `Memory`.
fn last_with_room<D: Disk>(
    store: &mut Store<D>,
    batch: &Batch,
    owner: PageNo,
    need: u32,
) -> Result<Option<PageNo>, SpaceFault>
    requires pool { IsPool D.meaning store.old }
    requires geometry { IsGeometry store.old.geometry }
    requires whole { AreWhole store.old.geometry batch.now.pages }
    requires owner { owner.0 < GREATEST_LIMIT }

    ensures keeps { KeepsStore D.meaning store.old store.new }
    ensures fault { TellsFault D.meaning store.old store.new (pool_answer result) }
    ensures own { ReadsData result }
    ensures gives { (image : Image) → Tells D.meaning store.old.disk image → MatchResult result
        (GivesLast (viewed store.old image batch.now) owner.0 need)
        (RefusesLast D.meaning store.new batch.now.pages (viewed store.old image batch.now)
        owner.0) }
{
    let found = last_place(store, batch, owner)?;
    let Some(last) = found else {
        return Ok(None);
    };
    hold_table_data(store, batch, owner, last.page, last.at)?;
    let page = lent(store, batch, last.page);
    if room(page) < need {
        return Ok(None);
    }
    Ok(Some(last.page))
}

/// A data page of a table, and the place of it.
#[derive(Debug, Drop)]
pub(crate) struct LastPlace {
    pub(crate) page: PageNo,
    pub(crate) at: u32,
}

/// The last data page of a table, none where it has none.
///
/// # Errors
///
/// `Damaged` at the first pointer page that is not as wanted. `Pool` with `DiskRead`, `Offline` or
/// `Memory`.
fn last_place<D: Disk>(
    store: &mut Store<D>,
    batch: &Batch,
    owner: PageNo,
) -> Result<Option<LastPlace>, SpaceFault>
    requires pool { IsPool D.meaning store.old }
    requires geometry { IsGeometry store.old.geometry }
    requires whole { AreWhole store.old.geometry batch.now.pages }
    requires owner { owner.0 < GREATEST_LIMIT }

    ensures keeps { KeepsStore D.meaning store.old store.new }
    ensures fault { TellsFault D.meaning store.old store.new (pool_answer result) }
    ensures own { ReadsData result }
    ensures finds { (image : Image) → Tells D.meaning store.old.disk image → MatchResult result
        (FindsLast (viewed store.old image batch.now) owner.0)
        (RefusesTable D.meaning store.new batch.now.pages (viewed store.old image batch.now)
        owner.0) }
{
    let count = data_page_count(store, batch, owner)?;
    if count == 0 {
        return Ok(None);
    }
    let at = count - 1;
    let found = data_page_at(store, batch, owner, at)?;
    Ok(placed(found, at))
}

/// A page with its place, if there is one.
fn placed(found: Option<PageNo>, at: u32) -> Option<LastPlace>
    ensures { IsPlaced found at result }
{
    match found {
        Some(page) => Some(LastPlace { page, at }),
        None => None,
    }
}

/// A data page of a table with room for so many bytes, found or made.
fn room_in<D: Disk>(
    store: &mut Store<D>,
    batch: &mut Batch,
    owner: PageNo,
    table: &TablePages,
    need: u32,
) -> Result<PageNo, SpaceFault>
    requires pool { IsPool D.meaning store.old }
    requires geometry { IsGeometry store.old.geometry }
    requires whole { AreWhole store.old.geometry batch.old.pages }
    requires online { store.old.offline ≡ None }
    requires few { length table.now.data_pages.items < 2 ^ 32 }
    requires some { 0 < length table.now.pointers.items }
    requires short { length table.now.pointers.items < 2 ^ 31 }

    ensures keeps { KeepsStore D.meaning store.old store.new }
    ensures fault { TellsFault D.meaning store.old store.new (pool_answer result) }
    ensures own { ReadsAlone result }
    ensures whole { AreWhole store.old.geometry batch.new.pages }
    ensures gives { (image : Image) → Tells D.meaning store.old.disk image → MatchResult result
        (GivesIn store.old image batch.old batch.new owner.0 table.now.pointers.items
        table.now.data_pages.items need)
        (RefusesRoomIn D.meaning store.old store.new image batch.old owner.0
        table.now.pointers.items table.now.data_pages.items) }
{
    if let Some(found) = page_with(store, batch, owner, &table.data_pages, need)? {
        return Ok(found);
    }
    let last = table.pointers.len() - 1;
    let at = Places {
        data: table.data_pages.len() as u32,
        pointer: last as u32,
    };
    let made = grow(store, batch, owner, at, PageNo(table.pointers[last]))?;
    Ok(made.page)
}

/// The first of the listed data pages with room for so many bytes: the last one is looked at first,
/// then the others in their order.
fn page_with<D: Disk>(
    store: &mut Store<D>,
    batch: &Batch,
    owner: PageNo,
    data_pages: &[u32],
    need: u32,
) -> Result<Option<PageNo>, SpaceFault>
    requires pool { IsPool D.meaning store.old }
    requires geometry { IsGeometry store.old.geometry }
    requires whole { AreWhole store.old.geometry batch.now.pages }
    requires online { store.old.offline ≡ None }
    requires few { length data_pages.now < 2 ^ 32 }

    ensures keeps { KeepsStore D.meaning store.old store.new }
    ensures fault { TellsFault D.meaning store.old store.new (pool_answer result) }
    ensures own { ReadsData result }
    ensures room { IfOk result (λ found. IfSome found (HoldsRoom store.new batch.now.pages need)) }
    ensures finds { (image : Image) → Tells D.meaning store.old.disk image → MatchResult result
        (FindsRoom (viewed store.old image batch.now) data_pages.now need)
        (RefusesWalkOf D.meaning store.new batch.now.pages (viewed store.old image batch.now) owner.0
        data_pages.now) }
{
    for k in 0..data_pages.len() {
        let place = looked_at(k, data_pages.len());
        if let Some(found) = page_at(store, batch, owner, data_pages, place, need)? {
            return Ok(Some(found));
        }
    }
    Ok(None)
}

/// The place that is looked at after `k` others, of `len` places.
fn looked_at(k: usize, len: usize) -> usize
    requires { k < len }
    ensures is { result ≡ place_after k len }
    ensures inside { result < len }
{
    if k == 0 { len - 1 } else { k - 1 }
}

/// The data page at a place of a table's list, if it has room for so many bytes.
fn page_at<D: Disk>(
    store: &mut Store<D>,
    batch: &Batch,
    owner: PageNo,
    data_pages: &[u32],
    place: usize,
    need: u32,
) -> Result<Option<PageNo>, SpaceFault>
    requires pool { IsPool D.meaning store.old }
    requires geometry { IsGeometry store.old.geometry }
    requires whole { AreWhole store.old.geometry batch.now.pages }
    requires online { store.old.offline ≡ None }
    requires inside { place < length data_pages.now }
    requires few { length data_pages.now < 2 ^ 32 }

    ensures keeps { KeepsStore D.meaning store.old store.new }
    ensures fault { TellsFault D.meaning store.old store.new (pool_answer result) }
    ensures own { ReadsData result }
    ensures room { IfOk result (λ found. IfSome found (HoldsRoom store.new batch.now.pages need)) }
    ensures looks { (image : Image) → Tells D.meaning store.old.disk image → MatchResult result
        (LooksAt (viewed store.old image batch.now) (slice_index data_pages.now place) need)
        (RefusesWalkOf D.meaning store.new batch.now.pages (viewed store.old image batch.now) owner.0
        data_pages.now) }
{
    let n = PageNo(data_pages[place]);
    if is_known_full(store, batch, n, need) {
        return Ok(None);
    }
    hold_table_data(store, batch, owner, n, place as u32)?;
    let page = lent(store, batch, n);
    if room(page) < need {
        // It is not looked at again until it has changed.
        note_room(store, n);
        return Ok(None);
    }
    Ok(Some(n))
}

/// Tells that a page has no room for so many bytes, where the cache has noted its room. It may be so
/// where the answer is no.
fn is_known_full<D: Disk>(store: &Store<D>, batch: &Batch, page: PageNo, need: u32) -> bool
    requires { IsPool D.meaning store.now }
    ensures { (image : Image) → Tells D.meaning store.now.disk image → OnTrue result
        (room_of (viewed store.now image batch.now page.0) < need) }
{
    match known_room(store, batch, page) {
        Some(room) => room < need,
        None => false,
    }
}

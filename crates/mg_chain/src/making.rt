//! A record is made: a place for it is found, and it gets its first version.

ghost use Rattle.std.specs.Prelude.{◌≡◌, ◌≢◌, ◌≤◌, ◌<◌, ◌+◌, ◌⊎◌, false, length, MatchResult, OnErr, OnOk, Some, None};
ghost use Rattle.mg_base.specs.Image.{Image};
ghost use Rattle.mg_heap.specs.Apart.{AddsApart};
ghost use Rattle.mg_heap.specs.Reach.{IsReached, MayOwn, RefusesReach};
ghost use Rattle.mg_heap.specs.Reading.{ReadsData};
ghost use Rattle.mg_pool.specs.Fault.{TellsFault};
ghost use Rattle.mg_pool.specs.Pool.{IsPool};
ghost use Rattle.mg_space.specs.Taking.{IsGeometry};
ghost use Rattle.mg_space.specs.View.{AreWhole, KeepsStore, ReadsAlone, Tells, pool_answer, viewed};
ghost use Rattle.mg_chain.specs.Writing.{GivesSpot, MakesCell, MakesRecord};
ghost use Rattle.mg_chain.specs.WritingRefusals.{RefusesFirst, RefusesFirstCell, RefusesPutFirst, RefusesSpot};

use crate::ordering::order_first;
use crate::spelling::version_bytes;
use crate::turning::turn;
use mg_base::{Disk, GREATEST_LIMIT, PageNo, RecId, TxNo};
use mg_heap::{add_apart, least_slot, page_with_room, pointers_to};
use mg_pool::Batch;
use mg_space::{SpaceFault, Store};
use mg_version::{ANCHOR_LEN, Link, Version};

/// A place for a record: the least free slot of a data page of the table with room for an anchor there.
/// Where no page of the table has that room, the table gets a data page more, which is empty.
///
/// `owner` is the table's first pointer page. A table that grows is a batch of its own: its orders put
/// the new page before the pointer page that lists it, and those of a first version on that page ask
/// for the contrary.
///
/// # Errors
///
/// As `page_with_room` and `least_slot` of mg_heap. The batch may then have a part of the growth, and
/// its contents are one page long: the caller drops it.
pub fn spot<D: Disk>(
    store: &mut Store<D>,
    batch: &mut Batch,
    owner: PageNo,
) -> Result<RecId, SpaceFault>
    requires pool { IsPool D.meaning store.old }
    requires geometry { IsGeometry store.old.geometry }
    requires whole { AreWhole store.old.geometry batch.old.pages }
    requires owner { owner.0 < GREATEST_LIMIT }
    requires some { owner.0 ≢ 0 }

    ensures keeps { KeepsStore D.meaning store.old store.new }
    ensures fault { TellsFault D.meaning store.old store.new (pool_answer result) }
    ensures own { ReadsAlone result }
    ensures whole { AreWhole store.old.geometry batch.new.pages }
    ensures gives { (image : Image) → Tells D.meaning store.old.disk image → MatchResult result
        (GivesSpot store.old image batch.old batch.new owner.0)
        (RefusesSpot D.meaning store.old store.new image batch.old owner.0) }
{
    let page = page_with_room(store, batch, owner, ANCHOR_LEN as u32)?;
    let slot = least_slot(store, batch, page)?;
    Ok(RecId { page, slot })
}

/// Makes a record at a place that `spot` gave: the version's cell is added to the table, apart from
/// the place, and then the slot leads to it. The record has this version alone; what `v` names as the
/// version before it is not looked at.
///
/// `owner` is the table's first pointer page.
///
/// Orders of page writes: the header before the version's page; the header, the version's page, and
/// the pointer pages by which that and the slot's page are reached, before the slot's page.
///
/// # Errors
///
/// As `add` and `pointers_to` of mg_heap; `Damaged` at `Count` where no anchor may stand at the place.
/// The batch may then have a part of the change, and its contents are one page long: the caller drops
/// it.
pub fn first<D: Disk>(
    store: &mut Store<D>,
    batch: &mut Batch,
    owner: PageNo,
    at: RecId,
    v: &Version,
) -> Result<(), SpaceFault>
    requires pool { IsPool D.meaning store.old }
    requires geometry { IsGeometry store.old.geometry }
    requires whole { AreWhole store.old.geometry batch.old.pages }
    requires owner { owner.0 < GREATEST_LIMIT }
    requires some { owner.0 ≢ 0 }
    requires apart { v.now.primary ≡ false }
    requires stored { 1 ≤ v.now.format }
    requires length { length v.now.body + 42 ≤ store.old.geometry.size }

    ensures keeps { KeepsStore D.meaning store.old store.new }
    ensures fault { TellsFault D.meaning store.old store.new (pool_answer result) }
    ensures own { ReadsAlone result }
    ensures whole { AreWhole store.old.geometry batch.new.pages }
    ensures makes { (image : Image) → Tells D.meaning store.old.disk image → MatchResult result
        (λ _. MakesRecord store.old image batch.old batch.new owner.0 at v.now)
        (RefusesFirst D.meaning store.old store.new image batch.old owner.0 at v.now) }
{
    store.online()?;
    let cell = version_bytes(store.alloc(), v, None)?;
    first_cell(store, batch, owner, at, v.tx, &cell)
}

/// Puts the cell of a first version, and turns the slot to it, with the orders of that.
fn first_cell<D: Disk>(
    store: &mut Store<D>,
    batch: &mut Batch,
    owner: PageNo,
    rec: RecId,
    tx: TxNo,
    cell: &[u8],
) -> Result<(), SpaceFault>
    requires pool { IsPool D.meaning store.old }
    requires geometry { IsGeometry store.old.geometry }
    requires whole { AreWhole store.old.geometry batch.old.pages }
    requires owner { MayOwn owner.0 }
    requires length { length cell.now + 24 ≤ store.old.geometry.size }

    ensures keeps { KeepsStore D.meaning store.old store.new }
    ensures fault { TellsFault D.meaning store.old store.new (pool_answer result) }
    ensures own { ReadsAlone result }
    ensures whole { AreWhole store.old.geometry batch.new.pages }
    ensures makes { (image : Image) → Tells D.meaning store.old.disk image → MatchResult result
        (λ _. MakesCell store.old image batch.old batch.new owner.0 rec cell.now tx)
        (RefusesFirstCell D.meaning store.old store.new image batch.old owner.0 rec cell.now) }
{
    let put = put_first(store, batch, owner, rec, cell)?;
    turn(store, batch, rec, Link { rec: put.at, tx })?;
    order_first(
        batch,
        put.at.page,
        rec.page,
        &put.pointers,
        &put.slot_pointers,
    )?;
    Ok(())
}

/// Where a first version was put, and the pointer pages by which its page and the slot's are reached.
#[derive(Drop)]
struct PutFirst {
    at: RecId,
    pointers: Vec<u32>,
    slot_pointers: Vec<u32>,
}

/// Adds the cell of a first version, and finds the pointer pages that matter.
fn put_first<D: Disk>(
    store: &mut Store<D>,
    batch: &mut Batch,
    owner: PageNo,
    rec: RecId,
    cell: &[u8],
) -> Result<PutFirst, SpaceFault>
    requires pool { IsPool D.meaning store.old }
    requires geometry { IsGeometry store.old.geometry }
    requires whole { AreWhole store.old.geometry batch.old.pages }
    requires owner { MayOwn owner.0 }
    requires length { length cell.now + 24 ≤ store.old.geometry.size }

    ensures keeps { KeepsStore D.meaning store.old store.new }
    ensures fault { TellsFault D.meaning store.old store.new (pool_answer result) }
    ensures own { ReadsAlone result }
    ensures whole { AreWhole store.old.geometry batch.new.pages }
    ensures puts { (image : Image) → Tells D.meaning store.old.disk image → MatchResult result
        (λ put. AddsApart store.old image batch.old batch.new owner.0 rec cell.now put.at
        × IsReached (viewed store.old image batch.new) owner.0 put.at.page.0 put.pointers.items
        × IsReached (viewed store.old image batch.new) owner.0 rec.page.0 put.slot_pointers.items)
        (RefusesPutFirst D.meaning store.old store.new image batch.old owner.0 rec cell.now) }
{
    let at = add_apart(store, batch, owner, rec, cell)?;
    let both = both_pointers(store, batch, owner, at.page, rec.page)?;
    Ok(PutFirst {
        at,
        pointers: both.pointers,
        slot_pointers: both.slot_pointers,
    })
}

/// The pointer pages by which two pages are reached.
#[derive(Drop)]
struct BothPointers {
    pointers: Vec<u32>,
    slot_pointers: Vec<u32>,
}

/// The pointer pages by which a version's page and a slot's page are reached.
fn both_pointers<D: Disk>(
    store: &mut Store<D>,
    batch: &Batch,
    owner: PageNo,
    page: PageNo,
    slot_page: PageNo,
) -> Result<BothPointers, SpaceFault>
    requires pool { IsPool D.meaning store.old }
    requires geometry { IsGeometry store.old.geometry }
    requires whole { AreWhole store.old.geometry batch.now.pages }
    requires owner { MayOwn owner.0 }

    ensures keeps { KeepsStore D.meaning store.old store.new }
    ensures fault { TellsFault D.meaning store.old store.new (pool_answer result) }
    ensures own { ReadsData result }
    ensures finds { (image : Image) → Tells D.meaning store.old.disk image → MatchResult result
        (λ both. IsReached (viewed store.old image batch.now) owner.0 page.0 both.pointers.items
        × IsReached (viewed store.old image batch.now) owner.0 slot_page.0 both.slot_pointers.items)
        (λ fault. RefusesReach D.meaning store.new batch.now.pages (viewed store.old image batch.now)
        owner.0 page fault
        ⊎ RefusesReach D.meaning store.new batch.now.pages (viewed store.old image batch.now) owner.0
        slot_page fault) }
{
    let pointers = pointers_to(store, batch, owner, page)?;
    let slot_pointers = pointers_to(store, batch, owner, slot_page)?;
    Ok(BothPointers {
        pointers,
        slot_pointers,
    })
}

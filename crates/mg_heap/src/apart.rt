//! A cell is added to a table apart from a place that is to be filled after it.

ghost use Rattle.std.specs.Prelude.{◌≡◌, ◌≢◌, ◌≤◌, ◌<◌, ◌+◌, ◌^◌, ◌↔◌, IfErr, IfOk, IsTrue, MatchResult, OnErr, OnOk, Some, length};
ghost use Rattle.mg_base.specs.Image.{Image};
ghost use Rattle.mg_pool.specs.Fault.{TellsFault};
ghost use Rattle.mg_pool.specs.Pool.{IsPool};
ghost use Rattle.mg_slots.specs.DataPage.{IsDataPage};
ghost use Rattle.mg_slots.specs.Room.{least_free as least_in, need_of, room_for};
ghost use Rattle.mg_space.specs.Taking.{IsGeometry};
ghost use Rattle.mg_space.specs.View.{AreWhole, KeepsStore, ReadsAlone, Tells, pool_answer, viewed};
ghost use Rattle.mg_heap.specs.Apart.{AddsApart, HasNoRoomBeside, HoldsSlot, IsRoomDamage, PutsApart, PutsBeside, RefusesAddApart, RefusesPutApart, kept_on as kept_slot, need_with_anchor};
ghost use Rattle.mg_heap.specs.Changing.{ChangesOne};
ghost use Rattle.mg_heap.specs.Reading.{ReadsData};
ghost use Rattle.mg_heap.specs.Room.{lack_of};

use crate::adding::no_room;
use crate::changing::least_free;
use crate::reading::data_page;
use crate::room::page_with_room;
use mg_base::{Damaged, Disk, GREATEST_LIMIT, PageNo, RecId};
use mg_pool::Batch;
use mg_slots::{LEAST_TAKEN, NoRoom, free, put_cell, replace};
use mg_space::{SpaceFault, Store};

/// How many bytes an anchor takes with a slot of its own.
const ANCHOR_ROOM: u32 = 15;

/// Adds a cell to a table, as `add`, apart from a place that is to be filled after it: where both come
/// to stand on one page, the place stays free, and keeps room for an anchor.
///
/// So the page that is taken has room for the cell, an anchor and its slot.
///
/// # Errors
///
/// As `add`.
pub fn add_apart<D: Disk>(
    store: &mut Store<D>,
    batch: &mut Batch,
    owner: PageNo,
    place: RecId,
    cell: &[u8],
) -> Result<RecId, SpaceFault>
    requires pool { IsPool D.meaning store.old }
    requires geometry { IsGeometry store.old.geometry }
    requires whole { AreWhole store.old.geometry batch.old.pages }
    requires owner { owner.0 < GREATEST_LIMIT }
    requires some { owner.0 ≢ 0 }
    requires length { length cell.now + 24 ≤ store.old.geometry.size }

    ensures keeps { KeepsStore D.meaning store.old store.new }
    ensures fault { TellsFault D.meaning store.old store.new (pool_answer result) }
    ensures own { ReadsAlone result }
    ensures whole { AreWhole store.old.geometry batch.new.pages }
    ensures adds { (image : Image) → Tells D.meaning store.old.disk image → MatchResult result
        (AddsApart store.old image batch.old batch.new owner.0 place cell.now)
        (RefusesAddApart D.meaning store.old store.new image batch.old owner.0 place cell.now) }
{
    let page = page_with_room(store, batch, owner, needed(cell))?;
    put_apart(store, batch, page, place, cell)
}

/// How many bytes a cell needs, with an anchor and its slot.
fn needed(cell: &[u8]) -> u32
    requires { length cell.now < 2 ^ 31 }
    ensures { result ≡ need_with_anchor cell.now }
{
    cell.len().max(LEAST_TAKEN) as u32 + ANCHOR_ROOM
}

/// Puts a cell into a free slot of a page, apart from a place.
///
/// # Errors
///
/// As `cell`; `Damaged` at `Count` where the cell has no room, or an anchor none at the place, with what is
/// needed as found and what may be taken as wanted.
fn put_apart<D: Disk>(
    store: &mut Store<D>,
    batch: &mut Batch,
    page: PageNo,
    place: RecId,
    cell: &[u8],
) -> Result<RecId, SpaceFault>
    requires pool { IsPool D.meaning store.old }
    requires geometry { IsGeometry store.old.geometry }
    requires whole { AreWhole store.old.geometry batch.old.pages }
    requires length { length cell.now < 2 ^ 31 }

    ensures keeps { KeepsStore D.meaning store.old store.new }
    ensures fault { TellsFault D.meaning store.old store.new (pool_answer result) }
    ensures own { ReadsData result }
    ensures whole { AreWhole store.old.geometry batch.new.pages }
    ensures page { IfOk result (λ at. at.page ≡ page) }
    ensures changes { IfOk result
        (λ at. ChangesOne store.old.geometry.size batch.old batch.new at.page.0) }
    ensures puts { (image : Image) → Tells D.meaning store.old.disk image → MatchResult result
        (λ at. PutsApart (viewed store.old image batch.old) (viewed store.old image batch.new) place at
        cell.now)
        (RefusesPutApart D.meaning store.new batch.old (viewed store.old image batch.old page.0) page
        place cell.now) }
{
    let mut bytes = data_page(store, batch, page)?.into_vec();
    let slot = put_beside(&mut bytes, page, kept_on(page, place), cell)?;
    batch.put(page, &bytes)?;
    Ok(RecId { page, slot })
}

/// The slot that is kept free on a page: that of the place, where it is on the page.
fn kept_on(page: PageNo, place: RecId) -> Option<u16>
    ensures { result ≡ kept_slot page place }
{
    if page.0 == place.page.0 {
        Some(place.slot)
    } else {
        None
    }
}

/// Puts a cell into a free slot of a page, another one than `kept`, and tells which.
fn put_beside(b: &mut [u8], page: PageNo, kept: Option<u16>, cell: &[u8]) -> Result<u16, Damaged>
    requires lawful { IsDataPage b.old }
    requires length { length cell.now < 2 ^ 31 }
    ensures put { IfOk result (PutsBeside b.old b.new kept cell.now) }
    ensures no_room { IfErr result (IsRoomDamage page b.old kept cell.now) }
    ensures len { length b.new ≡ length b.old }
{
    match put_kept(b, kept, cell) {
        Ok(slot) => Ok(slot),
        Err(lack) => Err(no_room(page, lack)),
    }
}

/// The same. Where it is the least free slot that is kept, bytes as long as an anchor hold it while the
/// cell is put.
fn put_kept(b: &mut [u8], kept: Option<u16>, cell: &[u8]) -> Result<u16, NoRoom>
    requires lawful { IsDataPage b.old }
    requires length { length cell.now < 2 ^ 31 }
    ensures put { IfOk result (PutsBeside b.old b.new kept cell.now) }
    ensures no_room { IfErr result (HasNoRoomBeside b.old kept cell.now) }
    ensures len { length b.new ≡ length b.old }
{
    let least = least_free(b);
    if !is_kept(kept, least) {
        return put_cell(b, cell);
    }
    hold(b, least)?;
    let slot = put_cell(b, cell)?;
    free(b, least);
    Ok(slot)
}

/// Puts bytes as long as an anchor into the least free slot of a page.
fn hold(b: &mut [u8], least: u16) -> Result<(), NoRoom>
    requires lawful { IsDataPage b.old }
    requires least { least ≡ least_in b.old }
    ensures held { OnOk result (HoldsSlot b.old b.new least) }
    ensures no_room { OnErr result (room_for b.old least < LEAST_TAKEN) }
    ensures lack { IfErr result (λ it. it ≡ lack_of LEAST_TAKEN (room_for b.old least)) }
    ensures lawful { IsDataPage b.new }
    ensures len { length b.new ≡ length b.old }
{
    match replace(b, least, &[0; LEAST_TAKEN]) {
        Ok(()) => Ok(()),
        Err(fault) => Err(fault),
    }
}

/// Tells whether a slot is the one that is kept.
fn is_kept(kept: Option<u16>, slot: u16) -> bool
    ensures { IsTrue result ↔ (kept ≡ Some slot) }
{
    match kept {
        None => false,
        Some(k) => k == slot,
    }
}

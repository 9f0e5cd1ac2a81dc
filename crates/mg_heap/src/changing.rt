//! A cell is put into a slot of a data page, or a slot is freed.

ghost use Rattle.std.specs.Prelude.{◌≡◌, ◌≢◌, ◌≤◌, ◌<◌, ◌^◌, ◌⊎◌, ◌↔◌, ℕ, None, IfOk, IsSome, IsTrue, MatchResult, OnErr, OnOk, is_some, length};
ghost use Rattle.std.specs.Bool.{OnFalse, OnTrue};
ghost use Rattle.mg_base.specs.Image.{Image};
ghost use Rattle.mg_pool.specs.Fault.{TellsFault};
ghost use Rattle.mg_pool.specs.Pool.{IsPool};
ghost use Rattle.mg_slots.specs.Changes.{FreesCell, PutsCell};
ghost use Rattle.mg_slots.specs.DataPage.{IsDataPage, cell_of};
ghost use Rattle.mg_slots.specs.Room.{least_free as least_free_of};
ghost use Rattle.mg_space.specs.Taking.{IsGeometry};
ghost use Rattle.mg_space.specs.View.{AreWhole, KeepsStore, Tells, pool_answer, viewed};
ghost use Rattle.mg_heap.specs.Changing.{ChangesAtMost, ChangesWhere, FreesCellAt, IsLeastSlot, MayHave, PlacesCell};
ghost use Rattle.mg_heap.specs.Reading.{ReadsData, RefusesData};

use crate::reading::{data_page, hold_data};
use mg_base::{Disk, PageNo, RecId};
use mg_pool::Batch;
use mg_slots::{replace, slots};
use mg_space::{SpaceFault, Store, lent};

/// Puts a cell into a slot that is in use or is the least free one of its page: `false` exactly
/// where the slot is neither, or the cell does not fit. Then the batch is as before.
///
/// The batch gets the data page alone, and no order.
///
/// # Errors
///
/// As `cell`. The batch is then as before.
pub fn place<D: Disk>(
    store: &mut Store<D>,
    batch: &mut Batch,
    at: RecId,
    cell: &[u8],
) -> Result<bool, SpaceFault>
    requires pool { IsPool D.meaning store.old }
    requires geometry { IsGeometry store.old.geometry }
    requires whole { AreWhole store.old.geometry batch.old.pages }
    requires length { length cell.now < 2 ^ 31 }

    ensures keeps { KeepsStore D.meaning store.old store.new }
    ensures fault { TellsFault D.meaning store.old store.new (pool_answer result) }
    ensures own { ReadsData result }
    ensures changes { IfOk result
        (ChangesWhere store.old.geometry.size batch.old batch.new at.page.0) }
    ensures below { OnOk result (at.page.0 < store.old.geometry.limit) }
    ensures same { OnErr result (batch.new ≡ batch.old) }
    ensures places { (image : Image) → Tells D.meaning store.old.disk image → MatchResult result
        (PlacesCell (viewed store.old image batch.old) (viewed store.old image batch.new) at
        cell.now)
        (RefusesData D.meaning store.new batch.old.pages at.page
        (viewed store.old image batch.old at.page.0)) }
{
    let mut page = data_page(store, batch, at.page)?.into_vec();
    if !replaced(&mut page, at.slot, cell) {
        return Ok(false);
    }
    batch.put(at.page, &page)?;
    Ok(true)
}

/// Frees a slot. Where it is free already, or past the last one, nothing changes.
///
/// The batch gets the data page alone, and no order.
///
/// # Errors
///
/// As `cell`. The batch is then as before.
pub fn free<D: Disk>(store: &mut Store<D>, batch: &mut Batch, at: RecId) -> Result<(), SpaceFault>
    requires pool { IsPool D.meaning store.old }
    requires geometry { IsGeometry store.old.geometry }
    requires whole { AreWhole store.old.geometry batch.old.pages }

    ensures keeps { KeepsStore D.meaning store.old store.new }
    ensures fault { TellsFault D.meaning store.old store.new (pool_answer result) }
    ensures own { ReadsData result }
    ensures changes { OnOk result
        (ChangesAtMost store.old.geometry.size batch.old batch.new at.page.0) }
    ensures below { OnOk result (at.page.0 < store.old.geometry.limit) }
    ensures same { OnErr result (batch.new ≡ batch.old) }
    ensures frees { (image : Image) → Tells D.meaning store.old.disk image → MatchResult result
        (λ _. FreesCellAt (viewed store.old image batch.old) (viewed store.old image batch.new) at)
        (RefusesData D.meaning store.new batch.old.pages at.page
        (viewed store.old image batch.old at.page.0)) }
{
    let mut page = data_page(store, batch, at.page)?.into_vec();
    if !freed(&mut page, at.slot) {
        return Ok(());
    }
    batch.put(at.page, &page)?;
    Ok(())
}

/// The least free slot of a data page: the one past the last where there is no other.
///
/// # Errors
///
/// As `cell`.
pub fn least_slot<D: Disk>(
    store: &mut Store<D>,
    batch: &Batch,
    page: PageNo,
) -> Result<u16, SpaceFault>
    requires pool { IsPool D.meaning store.old }
    requires geometry { IsGeometry store.old.geometry }
    requires whole { AreWhole store.old.geometry batch.now.pages }

    ensures keeps { KeepsStore D.meaning store.old store.new }
    ensures fault { TellsFault D.meaning store.old store.new (pool_answer result) }
    ensures own { ReadsData result }
    ensures gives { (image : Image) → Tells D.meaning store.old.disk image → MatchResult result
        (IsLeastSlot page.0 (viewed store.old image batch.now page.0))
        (RefusesData D.meaning store.new batch.now.pages page
        (viewed store.old image batch.now page.0)) }
{
    hold_data(store, batch, page)?;
    Ok(least_free(lent(store, batch, page)))
}

/// The least free slot: the one past the last where there is no other.
pub(crate) fn least_free(b: &[u8]) -> u16
    requires { IsDataPage b.now }
    ensures { result ≡ least_free_of b.now }
{
    for slot in 0..slots(b) {
        if !is_used(b, slot) {
            return slot;
        }
    }
    slots(b)
}

/// Tells whether a slot has a cell.
fn is_used(b: &[u8], slot: u16) -> bool
    requires { IsDataPage b.now }
    ensures { result ≡ is_some (cell_of b.now slot) }
{
    mg_slots::cell(b, slot).is_some()
}

/// Puts a cell into a slot where it may stand there, and tells whether it may.
fn replaced(b: &mut [u8], slot: u16, cell: &[u8]) -> bool
    requires lawful { IsDataPage b.old }
    requires length { length cell.now < 2 ^ 31 }
    ensures when { IsTrue result ↔ MayHave b.old slot cell.now }
    ensures put { OnTrue result (PutsCell b.old b.new slot cell.now) }
    ensures unchanged { OnFalse result (b.new ≡ b.old) }
    ensures len { length b.new ≡ length b.old }
{
    if !is_used(b, slot) && least_free(b) != slot {
        return false;
    }
    replace(b, slot, cell).is_ok()
}

/// Frees a slot, and tells whether it had a cell.
fn freed(b: &mut [u8], slot: u16) -> bool
    requires { IsDataPage b.old }
    ensures when { result ≡ is_some (cell_of b.old slot) }
    ensures used { OnTrue result (FreesCell b.old b.new slot) }
    ensures unused { OnFalse result (b.new ≡ b.old) }
    ensures len { length b.new ≡ length b.old }
{
    let had = is_used(b, slot);
    mg_slots::free(b, slot);
    had
}

//! The primary slot of a record is turned: it comes to lead to another version, or is freed.

ghost use Rattle.std.specs.Prelude.{◌≡◌, ◌+◌, MatchResult, OnErr, OnOk, Some, None};
ghost use Rattle.mg_base.specs.Image.{Image};
ghost use Rattle.mg_heap.specs.Reach.{MayOwn, RefusesReach};
ghost use Rattle.mg_heap.specs.Reading.{ReadsData};
ghost use Rattle.mg_pool.specs.Fault.{TellsFault};
ghost use Rattle.mg_pool.specs.Pool.{IsPool};
ghost use Rattle.mg_space.specs.Taking.{IsGeometry};
ghost use Rattle.mg_space.specs.View.{AreWhole, KeepsStore, Tells, pool_answer, viewed};
ghost use Rattle.mg_chain.specs.Refusals.{damage};
ghost use Rattle.mg_chain.specs.Writing.{SlotIsReached, Swings, TurnsBack, TurnsTo};
ghost use Rattle.mg_chain.specs.WritingRefusals.{RefusesSwing, RefusesTurn};

use crate::spelling::anchor_bytes;
use mg_base::{Damaged, Disk, Field, PageNo, RecId};
use mg_heap::{free, place, pointers_to};
use mg_pool::Batch;
use mg_space::{SpaceFault, Store};
use mg_version::Link;

/// Puts an anchor into a record's primary slot, which has one or is the least free slot of its page.
///
/// # Errors
///
/// As `place` of mg_heap; `Damaged` at `Count` where no anchor may stand in the slot. The batch is then
/// as before.
pub(crate) fn turn<D: Disk>(
    store: &mut Store<D>,
    batch: &mut Batch,
    rec: RecId,
    link: Link,
) -> Result<(), SpaceFault>
    requires pool { IsPool D.meaning store.old }
    requires geometry { IsGeometry store.old.geometry }
    requires whole { AreWhole store.old.geometry batch.old.pages }

    ensures keeps { KeepsStore D.meaning store.old store.new }
    ensures fault { TellsFault D.meaning store.old store.new (pool_answer result) }
    ensures own { ReadsData result }
    ensures whole { AreWhole store.old.geometry batch.new.pages }
    ensures gives { (image : Image) → Tells D.meaning store.old.disk image → MatchResult result
        (λ _. TurnsTo store.old image batch.old batch.new rec link)
        (RefusesTurn D.meaning store.new batch.old.pages (viewed store.old image batch.old) rec) }
{
    store.online()?;
    let bytes = anchor_bytes(store.alloc(), link)?;
    let placed = place(store, batch, rec, &bytes)?;
    if !placed {
        return Err(SpaceFault::Damaged(no_place(rec)));
    }
    Ok(())
}

/// Names a slot where a cell may not stand: its page is one slot too short for it.
pub(crate) fn no_place(rec: RecId) -> Damaged
    ensures { result ≡ damage rec.page.0 Field.Count rec.slot (rec.slot + 1) }
{
    Damaged {
        page: rec.page,
        field: Field::Count,
        found: u64::from(rec.slot),
        wanted: u64::from(rec.slot) + 1,
    }
}

/// Turns a record's primary slot to a version, or frees it where there is none.
///
/// # Errors
///
/// As `turn`.
fn turn_back<D: Disk>(
    store: &mut Store<D>,
    batch: &mut Batch,
    rec: RecId,
    to: Option<Link>,
) -> Result<(), SpaceFault>
    requires pool { IsPool D.meaning store.old }
    requires geometry { IsGeometry store.old.geometry }
    requires whole { AreWhole store.old.geometry batch.old.pages }

    ensures keeps { KeepsStore D.meaning store.old store.new }
    ensures fault { TellsFault D.meaning store.old store.new (pool_answer result) }
    ensures own { ReadsData result }
    ensures whole { AreWhole store.old.geometry batch.new.pages }
    ensures gives { (image : Image) → Tells D.meaning store.old.disk image → MatchResult result
        (λ _. TurnsBack store.old image batch.old batch.new rec to)
        (RefusesTurn D.meaning store.new batch.old.pages (viewed store.old image batch.old) rec) }
{
    match to {
        Some(link) => turn(store, batch, rec, link),
        None => free(store, batch, rec),
    }
}

/// Turns a record's primary slot, and then frees the cell to which it led.
///
/// # Errors
///
/// As `turn`, and as `free` of mg_heap. The batch may then have the turned slot.
pub(crate) fn swing<D: Disk>(
    store: &mut Store<D>,
    batch: &mut Batch,
    rec: RecId,
    left: RecId,
    to: Option<Link>,
) -> Result<(), SpaceFault>
    requires pool { IsPool D.meaning store.old }
    requires geometry { IsGeometry store.old.geometry }
    requires whole { AreWhole store.old.geometry batch.old.pages }

    ensures keeps { KeepsStore D.meaning store.old store.new }
    ensures fault { TellsFault D.meaning store.old store.new (pool_answer result) }
    ensures own { ReadsData result }
    ensures whole { AreWhole store.old.geometry batch.new.pages }
    ensures gives { (image : Image) → Tells D.meaning store.old.disk image → MatchResult result
        (λ _. Swings store.old image batch.old batch.new rec left to)
        (RefusesSwing D.meaning store.old store.new image batch.old rec left to) }
{
    turn_back(store, batch, rec, to)?;
    free(store, batch, left)
}

/// The pointer pages by which a slot's page is reached, where no version is behind the record's newest
/// one; else none.
///
/// # Errors
///
/// As `pointers_to` of mg_heap.
pub(crate) fn slot_pointers<D: Disk>(
    store: &mut Store<D>,
    batch: &Batch,
    owner: PageNo,
    page: PageNo,
    back: Option<Link>,
) -> Result<Vec<u32>, SpaceFault>
    requires pool { IsPool D.meaning store.old }
    requires geometry { IsGeometry store.old.geometry }
    requires whole { AreWhole store.old.geometry batch.now.pages }
    requires owner { MayOwn owner.0 }

    ensures keeps { KeepsStore D.meaning store.old store.new }
    ensures fault { TellsFault D.meaning store.old store.new (pool_answer result) }
    ensures own { ReadsData result }
    ensures gives { (image : Image) → Tells D.meaning store.old.disk image → MatchResult result
        (λ pointers. SlotIsReached (viewed store.old image batch.now) owner.0 page.0 back
        pointers.items)
        (RefusesReach D.meaning store.new batch.now.pages (viewed store.old image batch.now) owner.0
        page) }
{
    let Some(_) = back else {
        return pointers_to(store, batch, owner, page);
    };
    store.online()?;
    Ok(Vec::new(store.alloc()))
}

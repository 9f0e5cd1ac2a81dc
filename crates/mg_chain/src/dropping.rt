//! The version right behind another one is dropped.

ghost use Rattle.std.specs.Prelude.{◌≡◌, ◌≤◌, ◌<◌, ◌^◌, ◌+◌, false, length, IfOk, MatchResult, OnErr, OnOk, Some, None};
ghost use Rattle.mg_base.specs.Image.{Image};
ghost use Rattle.mg_heap.specs.Reading.{ReadsData};
ghost use Rattle.mg_pool.specs.Fault.{TellsFault};
ghost use Rattle.mg_pool.specs.Pool.{IsPool};
ghost use Rattle.mg_slots.specs.declared.page.TheConstants.{GREATEST_SIZE};
ghost use Rattle.mg_space.specs.Taking.{IsGeometry};
ghost use Rattle.mg_space.specs.View.{AreWhole, KeepsStore, Tells, pool_answer, viewed};
ghost use Rattle.mg_chain.specs.Dropping.{DropsIfBehind, LeadsPast, PutsOver, RefusesDrop, RefusesLeadPast, RefusesPutOver};

use crate::cells::version_at;
use crate::ordering::order_before;
use crate::spelling::version_bytes;
use crate::turning::no_place;
use mg_base::{Disk, PageNo, RecId};
use mg_heap::{free, place};
use mg_pool::Batch;
use mg_space::{SpaceFault, Store};
use mg_version::{Link, Version};

/// Drops the version right behind another one of its record: the newer one comes to lead on as the dropped one did, in
/// its cell, and then the cell of the dropped one is freed. The answer is the link by which the newer one led to it,
/// none where it led nowhere: then nothing changes. Who may see the dropped one is the caller's matter.
///
/// `holder` is the page where the link to the newer version stands.
///
/// Orders of page writes: the newer version's page before that of the freed cell, where they are two.
///
/// # Errors
///
/// As `version_at` of each of the two; `Damaged` at `Count` where the newer one, led on, may not stand in its cell; as
/// `free` of mg_heap; `Pool` with `DiskRead`, `Offline` or `Memory`. The batch may then have a part of the change, and
/// its contents are one page long: the caller drops it.
pub fn drop_behind<D: Disk>(
    store: &mut Store<D>,
    batch: &mut Batch,
    holder: PageNo,
    newer: Link,
) -> Result<Option<Link>, SpaceFault>
    requires pool { IsPool D.meaning store.old }
    requires geometry { IsGeometry store.old.geometry }
    requires whole { AreWhole store.old.geometry batch.old.pages }

    ensures keeps { KeepsStore D.meaning store.old store.new }
    ensures fault { TellsFault D.meaning store.old store.new (pool_answer result) }
    ensures own { ReadsData result }
    ensures whole { AreWhole store.old.geometry batch.new.pages }
    ensures drops { (image : Image) → Tells D.meaning store.old.disk image → MatchResult result
        (DropsIfBehind store.old image batch.old batch.new newer)
        (RefusesDrop D.meaning store.old store.new image batch.old holder.0 newer) }
{
    let version = version_at(store, batch, holder, newer)?;
    let Some(gone) = version.back else {
        return Ok(None);
    };
    let older = version_at(store, batch, newer.rec.page, gone)?;
    lead_past(store, batch, newer.rec, gone.rec, &version, older.back)?;
    Ok(Some(gone))
}

/// Puts a version over its cell that leads on by this link, and frees the cell that it led to, with the order of that.
///
/// # Errors
///
/// As `put_over`, and as `free` of mg_heap.
fn lead_past<D: Disk>(
    store: &mut Store<D>,
    batch: &mut Batch,
    at: RecId,
    gone: RecId,
    version: &Version,
    back: Option<Link>,
) -> Result<(), SpaceFault>
    requires pool { IsPool D.meaning store.old }
    requires geometry { IsGeometry store.old.geometry }
    requires whole { AreWhole store.old.geometry batch.old.pages }
    requires apart { version.now.primary ≡ false }
    requires stored { 1 ≤ version.now.format }
    requires short { length version.now.body ≤ GREATEST_SIZE }

    ensures keeps { KeepsStore D.meaning store.old store.new }
    ensures fault { TellsFault D.meaning store.old store.new (pool_answer result) }
    ensures own { ReadsData result }
    ensures whole { AreWhole store.old.geometry batch.new.pages }
    ensures leads { (image : Image) → Tells D.meaning store.old.disk image → MatchResult result
        (λ _. LeadsPast store.old image batch.old batch.new at gone version.now back)
        (RefusesLeadPast D.meaning store.old store.new image batch.old at gone version.now back) }
{
    put_over(store, batch, at, version, back)?;
    free(store, batch, gone)?;
    // A crash may not leave a version that leads to a cell which is gone.
    order_before(batch, &[at.page.0], gone.page)?;
    Ok(())
}

/// Puts a version that leads on by this link over a cell.
///
/// # Errors
///
/// As `place` of mg_heap; `Damaged` at `Count` where it may not stand there; `Memory`. The batch is then as before.
fn put_over<D: Disk>(
    store: &mut Store<D>,
    batch: &mut Batch,
    at: RecId,
    version: &Version,
    back: Option<Link>,
) -> Result<(), SpaceFault>
    requires pool { IsPool D.meaning store.old }
    requires geometry { IsGeometry store.old.geometry }
    requires whole { AreWhole store.old.geometry batch.old.pages }
    requires apart { version.now.primary ≡ false }
    requires stored { 1 ≤ version.now.format }
    requires short { length version.now.body ≤ GREATEST_SIZE }

    ensures keeps { KeepsStore D.meaning store.old store.new }
    ensures fault { TellsFault D.meaning store.old store.new (pool_answer result) }
    ensures own { ReadsData result }
    ensures whole { AreWhole store.old.geometry batch.new.pages }
    ensures puts { (image : Image) → Tells D.meaning store.old.disk image → MatchResult result
        (λ _. PutsOver store.old image batch.old batch.new at version.now back)
        (RefusesPutOver D.meaning store.new batch.old.pages (viewed store.old image batch.old) at
        version.now back) }
{
    store.online()?;
    let bytes = version_bytes(store.alloc(), version, back)?;
    let placed = place(store, batch, at, &bytes)?;
    if !placed {
        return Err(SpaceFault::Damaged(no_place(at)));
    }
    Ok(())
}

//! A version is pushed over the newest one of a record.

ghost use Rattle.std.specs.Prelude.{◌≡◌, ◌≢◌, ◌≤◌, ◌<◌, ◌+◌, false, length, MatchResult, OnErr, OnOk, Some, None};
ghost use Rattle.mg_base.specs.Image.{Image};
ghost use Rattle.mg_heap.specs.Reach.{MayOwn};
ghost use Rattle.mg_pool.specs.Fault.{TellsFault};
ghost use Rattle.mg_pool.specs.Pool.{IsPool};
ghost use Rattle.mg_space.specs.Taking.{IsGeometry};
ghost use Rattle.mg_space.specs.View.{AreWhole, KeepsStore, ReadsAlone, Tells, pool_answer, viewed};
ghost use Rattle.mg_chain.specs.Writing.{Pushes, PushesCell, PutsVersion};
ghost use Rattle.mg_chain.specs.WritingRefusals.{RefusesPush, RefusesPushCell, RefusesPutVersion};

use crate::heads::{Head, head_of};
use crate::ordering::order_push;
use crate::spelling::version_bytes;
use crate::turning::turn;
use mg_base::{Disk, PageNo, RecId, TxNo};
use mg_heap::{add, pointers_to};
use mg_pool::Batch;
use mg_space::{SpaceFault, Store};
use mg_version::{Link, Version};

/// Pushes a version over the newest one of a record: its cell is added to the table, with the newest
/// one before it, and then the primary slot leads to it. What `v` names as the version before it is
/// not looked at.
///
/// Orders of page writes: the header before the version's page, and the page of the version behind
/// before it, unless the batch changes that; the header, the version's page, and the pointer pages by
/// which that is reached, before the slot's page.
///
/// # Errors
///
/// `Damaged`: as `newest` of the primary slot, at `Target` where that has no anchor, at `Owner` where
/// its page names no table; as `add` and `pointers_to` of mg_heap. `Full` as `add`. `Pool` with
/// `DiskRead`, `Offline` or `Memory`. The batch may then have a part of the push, and its contents are
/// one page long: the caller drops it.
pub fn push<D: Disk>(
    store: &mut Store<D>,
    batch: &mut Batch,
    rec: RecId,
    v: &Version,
) -> Result<(), SpaceFault>
    requires pool { IsPool D.meaning store.old }
    requires geometry { IsGeometry store.old.geometry }
    requires whole { AreWhole store.old.geometry batch.old.pages }
    requires apart { v.now.primary ≡ false }
    requires stored { 1 ≤ v.now.format }
    requires length { length v.now.body + 42 ≤ store.old.geometry.size }

    ensures keeps { KeepsStore D.meaning store.old store.new }
    ensures fault { TellsFault D.meaning store.old store.new (pool_answer result) }
    ensures own { ReadsAlone result }
    ensures whole { AreWhole store.old.geometry batch.new.pages }
    ensures pushes { (image : Image) → Tells D.meaning store.old.disk image → MatchResult result
        (λ _. Pushes store.old image batch.old batch.new rec v.now)
        (RefusesPush D.meaning store.old store.new image batch.old rec v.now) }
{
    let head = head_of(store, batch, rec)?;
    let cell = version_bytes(store.alloc(), v, Some(head.newest))?;
    push_cell(store, batch, rec, head, v.tx, &cell)
}

/// Puts a version's cell, and turns the slot to it, with the orders of a push.
fn push_cell<D: Disk>(
    store: &mut Store<D>,
    batch: &mut Batch,
    rec: RecId,
    head: Head,
    tx: TxNo,
    cell: &[u8],
) -> Result<(), SpaceFault>
    requires pool { IsPool D.meaning store.old }
    requires geometry { IsGeometry store.old.geometry }
    requires whole { AreWhole store.old.geometry batch.old.pages }
    requires owner { MayOwn head.owner.0 }
    requires length { length cell.now + 24 ≤ store.old.geometry.size }

    ensures keeps { KeepsStore D.meaning store.old store.new }
    ensures fault { TellsFault D.meaning store.old store.new (pool_answer result) }
    ensures own { ReadsAlone result }
    ensures whole { AreWhole store.old.geometry batch.new.pages }
    ensures pushes { (image : Image) → Tells D.meaning store.old.disk image → MatchResult result
        (λ _. PushesCell store.old image batch.old batch.new rec head.newest head.owner.0 cell.now tx)
        (RefusesPushCell D.meaning store.old store.new image batch.old rec head.owner.0 cell.now) }
{
    let put = put_version(store, batch, head.owner, cell)?;
    turn(store, batch, rec, Link { rec: put.at, tx })?;
    order_push(
        batch,
        put.at.page,
        rec.page,
        Some(head.newest),
        &put.pointers,
    )?;
    Ok(())
}

/// Where a version was put, and the pointer pages by which its page is reached.
#[derive(Drop)]
pub(crate) struct PutVersion {
    pub(crate) at: RecId,
    pub(crate) pointers: Vec<u32>,
}

/// Adds a version's cell to a table, and finds the pointer pages by which its page is reached.
pub(crate) fn put_version<D: Disk>(
    store: &mut Store<D>,
    batch: &mut Batch,
    owner: PageNo,
    cell: &[u8],
) -> Result<PutVersion, SpaceFault>
    requires pool { IsPool D.meaning store.old }
    requires geometry { IsGeometry store.old.geometry }
    requires whole { AreWhole store.old.geometry batch.old.pages }
    requires owner { MayOwn owner.0 }
    requires length { length cell.now + 24 ≤ store.old.geometry.size }

    ensures keeps { KeepsStore D.meaning store.old store.new }
    ensures fault { TellsFault D.meaning store.old store.new (pool_answer result) }
    ensures own { ReadsAlone result }
    ensures whole { AreWhole store.old.geometry batch.new.pages }
    ensures puts { (image : Image) → Tells D.meaning store.old.disk image → MatchResult result
        (λ put. PutsVersion store.old image batch.old batch.new owner.0 cell.now put.at
        put.pointers.items)
        (RefusesPutVersion D.meaning store.old store.new image batch.old owner.0 cell.now) }
{
    let at = add(store, batch, owner, cell)?;
    let pointers = pointers_to(store, batch, owner, at.page)?;
    Ok(PutVersion { at, pointers })
}

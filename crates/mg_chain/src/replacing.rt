//! A transaction's own newest version is replaced.

ghost use Rattle.std.specs.Prelude.{◌≡◌, ◌≤◌, ◌+◌, ◌↔◌, false, IsTrue, length, MatchResult, OnErr, OnOk, Some, None};
ghost use Rattle.mg_base.specs.Image.{Image};
ghost use Rattle.mg_heap.specs.Reach.{MayOwn};
ghost use Rattle.mg_pool.specs.Fault.{TellsFault};
ghost use Rattle.mg_pool.specs.Pool.{IsPool};
ghost use Rattle.mg_space.specs.Taking.{IsGeometry};
ghost use Rattle.mg_space.specs.View.{AreWhole, KeepsStore, ReadsAlone, Tells, pool_answer, viewed};
ghost use Rattle.mg_chain.specs.Refusals.{damage};
ghost use Rattle.mg_chain.specs.Writing.{Moves, OverwritesOrMoves, PutsVersion, Replaces, SlotIsReached};
ghost use Rattle.mg_chain.specs.WritingRefusals.{RefusesMove, RefusesOverwrite, RefusesPutMoved, RefusesReplace};

use crate::heads::{Head, newest_of};
use crate::ordering::order_move;
use crate::pushing::{PutVersion, put_version};
use crate::spelling::version_bytes;
use crate::turning::{slot_pointers, swing};
use mg_base::{Damaged, Disk, Field, PageNo, RecId, TxNo};
use mg_heap::place;
use mg_pool::Batch;
use mg_space::{SpaceFault, Store};
use mg_version::{Link, Version};

/// Replaces the newest version of a record by another one of its transaction, which leads on as it did:
/// in its cell exactly where the new one fits there, else in another cell of the table, to which the
/// primary slot is turned, and the old cell is freed. What `v` names as the version before it is not
/// looked at.
///
/// Orders of page writes: none where the cell is written over. Else the header before the new cell's
/// page, and the page of the version behind before it, unless the batch changes that; the header, the
/// new cell's page, and the pointer pages by which that is reached, before the slot's page; where no
/// version is behind, the pointer pages of the slot's page before it; and the slot's page before that
/// of the freed cell.
///
/// # Errors
///
/// As `push`, and as `newest` of the version; `Damaged` at `Target` where the newest version is another
/// transaction's. The batch may then have a part of the change, and its contents are one page long: the
/// caller drops it.
pub fn replace_own<D: Disk>(
    store: &mut Store<D>,
    batch: &mut Batch,
    rec: RecId,
    v: &Version,
) -> Result<(), SpaceFault>
    requires pool { IsPool D.meaning store.old }
    requires geometry { IsGeometry store.old.geometry }
    requires whole { AreWhole store.old.geometry batch.old.pages }
    requires apart { v.now.primary ≡ false }
    requires stored { 1 ≤ v.now.format }
    requires length { length v.now.body + 42 ≤ store.old.geometry.size }

    ensures keeps { KeepsStore D.meaning store.old store.new }
    ensures fault { TellsFault D.meaning store.old store.new (pool_answer result) }
    ensures own { ReadsAlone result }
    ensures whole { AreWhole store.old.geometry batch.new.pages }
    ensures replaces { (image : Image) → Tells D.meaning store.old.disk image → MatchResult result
        (λ _. Replaces store.old image batch.old batch.new rec v.now)
        (RefusesReplace D.meaning store.old store.new image batch.old rec v.now) }
{
    let top = newest_of(store, batch, rec)?;
    if !is_by(&top.version, v.tx) {
        return Err(SpaceFault::Damaged(other_writer(top.head.newest, top.version.tx, v.tx)));
    }
    let back = top.version.back;
    let cell = version_bytes(store.alloc(), v, back)?;
    overwrite_or_move(store, batch, rec, top.head, v.tx, back, &cell)
}

/// Tells whether a version is a transaction's.
fn is_by(version: &Version, tx: TxNo) -> bool
    ensures { IsTrue result ↔ (version.now.tx ≡ tx) }
{
    version.tx.0 == tx.0
}

/// Names a version that is another transaction's.
fn other_writer(newest: Link, found: TxNo, wanted: TxNo) -> Damaged
    ensures { result ≡ damage newest.rec.page.0 Field.Target found.0 wanted.0 }
{
    Damaged {
        page: newest.rec.page,
        field: Field::Target,
        found: u64::from(found.0),
        wanted: u64::from(wanted.0),
    }
}

/// Writes a cell over where it fits, else moves it.
fn overwrite_or_move<D: Disk>(
    store: &mut Store<D>,
    batch: &mut Batch,
    rec: RecId,
    head: Head,
    tx: TxNo,
    back: Option<Link>,
    cell: &[u8],
) -> Result<(), SpaceFault>
    requires pool { IsPool D.meaning store.old }
    requires geometry { IsGeometry store.old.geometry }
    requires whole { AreWhole store.old.geometry batch.old.pages }
    requires owner { MayOwn head.owner.0 }
    requires length { length cell.now + 24 ≤ store.old.geometry.size }

    ensures keeps { KeepsStore D.meaning store.old store.new }
    ensures fault { TellsFault D.meaning store.old store.new (pool_answer result) }
    ensures own { ReadsAlone result }
    ensures whole { AreWhole store.old.geometry batch.new.pages }
    ensures writes { (image : Image) → Tells D.meaning store.old.disk image → MatchResult result
        (λ _. OverwritesOrMoves store.old image batch.old batch.new rec head.newest head.owner.0
        cell.now tx back)
        (RefusesOverwrite D.meaning store.old store.new image batch.old rec head.newest head.owner.0
        cell.now tx) }
{
    let placed = place(store, batch, head.newest.rec, cell)?;
    if placed {
        return Ok(());
    }
    move_cell(store, batch, rec, head, tx, back, cell)
}

/// Moves a version to another cell, with the orders of that.
fn move_cell<D: Disk>(
    store: &mut Store<D>,
    batch: &mut Batch,
    rec: RecId,
    head: Head,
    tx: TxNo,
    back: Option<Link>,
    cell: &[u8],
) -> Result<(), SpaceFault>
    requires pool { IsPool D.meaning store.old }
    requires geometry { IsGeometry store.old.geometry }
    requires whole { AreWhole store.old.geometry batch.old.pages }
    requires owner { MayOwn head.owner.0 }
    requires length { length cell.now + 24 ≤ store.old.geometry.size }

    ensures keeps { KeepsStore D.meaning store.old store.new }
    ensures fault { TellsFault D.meaning store.old store.new (pool_answer result) }
    ensures own { ReadsAlone result }
    ensures whole { AreWhole store.old.geometry batch.new.pages }
    ensures moves { (image : Image) → Tells D.meaning store.old.disk image → MatchResult result
        (λ _. Moves store.old image batch.old batch.new rec head.newest head.owner.0 cell.now tx back)
        (RefusesMove D.meaning store.old store.new image batch.old rec head.newest head.owner.0
        cell.now tx) }
{
    let moved = put_moved(store, batch, rec, head.owner, back, cell)?;
    let at = moved.put.at;
    swing(
        store,
        batch,
        rec,
        head.newest.rec,
        Some(Link { rec: at, tx }),
    )?;
    order_move(
        batch,
        at.page,
        rec.page,
        back,
        &moved.put.pointers,
        &moved.slot_pointers,
        head.newest.rec.page,
    )?;
    Ok(())
}

/// Where a version was put, and the pointer pages of the record's slot where nothing is behind.
#[derive(Drop)]
struct MovedVersion {
    put: PutVersion,
    slot_pointers: Vec<u32>,
}

/// Puts a version that is moved, and finds the pointer pages that matter.
fn put_moved<D: Disk>(
    store: &mut Store<D>,
    batch: &mut Batch,
    rec: RecId,
    owner: PageNo,
    back: Option<Link>,
    cell: &[u8],
) -> Result<MovedVersion, SpaceFault>
    requires pool { IsPool D.meaning store.old }
    requires geometry { IsGeometry store.old.geometry }
    requires whole { AreWhole store.old.geometry batch.old.pages }
    requires owner { MayOwn owner.0 }
    requires length { length cell.now + 24 ≤ store.old.geometry.size }

    ensures keeps { KeepsStore D.meaning store.old store.new }
    ensures fault { TellsFault D.meaning store.old store.new (pool_answer result) }
    ensures own { ReadsAlone result }
    ensures whole { AreWhole store.old.geometry batch.new.pages }
    ensures puts { (image : Image) → Tells D.meaning store.old.disk image → MatchResult result
        (λ moved. PutsVersion store.old image batch.old batch.new owner.0 cell.now moved.put.at
        moved.put.pointers.items
        × SlotIsReached (viewed store.old image batch.new) owner.0 rec.page.0 back
        moved.slot_pointers.items)
        (RefusesPutMoved D.meaning store.old store.new image batch.old rec owner.0 cell.now) }
{
    let put = put_version(store, batch, owner, cell)?;
    let slot_pointers = slot_pointers(store, batch, owner, rec.page, back)?;
    Ok(MovedVersion { put, slot_pointers })
}

//! The newest version of a record is taken out.

ghost use Rattle.std.specs.Prelude.{◌≡◌, MatchResult, OnErr, OnOk, Some, None};
ghost use Rattle.mg_base.specs.Image.{Image};
ghost use Rattle.mg_heap.specs.Reach.{MayOwn};
ghost use Rattle.mg_heap.specs.Reading.{ReadsData};
ghost use Rattle.mg_pool.specs.Fault.{TellsFault};
ghost use Rattle.mg_pool.specs.Pool.{IsPool};
ghost use Rattle.mg_space.specs.Taking.{IsGeometry};
ghost use Rattle.mg_space.specs.View.{AreWhole, KeepsStore, Tells, pool_answer, viewed};
ghost use Rattle.mg_chain.specs.Writing.{TakesCellOut, TakesOut};
ghost use Rattle.mg_chain.specs.WritingRefusals.{RefusesBackOut, RefusesTakeCellOut};

use crate::heads::{Head, newest_of};
use crate::ordering::order_out;
use crate::turning::{slot_pointers, swing};
use mg_base::{Disk, RecId};
use mg_pool::Batch;
use mg_space::{SpaceFault, Store};
use mg_version::Link;

/// Takes the newest version out of a record: the primary slot leads to the version behind it, or is
/// freed where there is none, and then its cell is freed.
///
/// Orders of page writes: the page that the slot leads to then, unless the batch changes it, before the
/// slot's page; where no version is behind, the pointer pages by which the slot's page is reached,
/// before it; and the slot's page before that of the freed cell.
///
/// # Errors
///
/// As `push` but for what it says of `add`, and as `newest` of the version. The batch may then have a
/// part of the change, and its contents are one page long: the caller drops it.
pub fn back_out<D: Disk>(
    store: &mut Store<D>,
    batch: &mut Batch,
    rec: RecId,
) -> Result<(), SpaceFault>
    requires pool { IsPool D.meaning store.old }
    requires geometry { IsGeometry store.old.geometry }
    requires whole { AreWhole store.old.geometry batch.old.pages }

    ensures keeps { KeepsStore D.meaning store.old store.new }
    ensures fault { TellsFault D.meaning store.old store.new (pool_answer result) }
    ensures own { ReadsData result }
    ensures whole { AreWhole store.old.geometry batch.new.pages }
    ensures takes { (image : Image) → Tells D.meaning store.old.disk image → MatchResult result
        (λ _. TakesOut store.old image batch.old batch.new rec)
        (RefusesBackOut D.meaning store.old store.new image batch.old rec) }
{
    let top = newest_of(store, batch, rec)?;
    take_cell_out(store, batch, rec, top.head, top.version.back)
}

/// Turns the slot past a version, and frees its cell, with the orders of that.
fn take_cell_out<D: Disk>(
    store: &mut Store<D>,
    batch: &mut Batch,
    rec: RecId,
    head: Head,
    back: Option<Link>,
) -> Result<(), SpaceFault>
    requires pool { IsPool D.meaning store.old }
    requires geometry { IsGeometry store.old.geometry }
    requires whole { AreWhole store.old.geometry batch.old.pages }
    requires owner { MayOwn head.owner.0 }

    ensures keeps { KeepsStore D.meaning store.old store.new }
    ensures fault { TellsFault D.meaning store.old store.new (pool_answer result) }
    ensures own { ReadsData result }
    ensures whole { AreWhole store.old.geometry batch.new.pages }
    ensures takes { (image : Image) → Tells D.meaning store.old.disk image → MatchResult result
        (λ _. TakesCellOut store.old image batch.old batch.new rec head.newest head.owner.0 back)
        (RefusesTakeCellOut D.meaning store.old store.new image batch.old rec head.newest head.owner.0
        back) }
{
    let pointers = slot_pointers(store, batch, head.owner, rec.page, back)?;
    swing(store, batch, rec, head.newest.rec, back)?;
    order_out(batch, rec.page, back, &pointers, head.newest.rec.page)?;
    Ok(())
}

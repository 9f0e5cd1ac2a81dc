//! The head of a record: its anchor, and the table that it is of; and its newest version.

ghost use Rattle.std.specs.Prelude.{◌≡◌, ◌<◌, IfOk, MatchResult};
ghost use Rattle.mg_base.specs.Image.{Image};
ghost use Rattle.mg_heap.specs.Reach.{MayOwn};
ghost use Rattle.mg_heap.specs.Reading.{ReadsData};
ghost use Rattle.mg_image.specs.Records.{cells_of};
ghost use Rattle.mg_pool.specs.Fault.{TellsFault};
ghost use Rattle.mg_pool.specs.Pool.{IsPool};
ghost use Rattle.mg_space.specs.Taking.{IsGeometry};
ghost use Rattle.mg_space.specs.View.{AreWhole, KeepsStore, Tells, pool_answer, viewed};
ghost use Rattle.mg_version.specs.declared.cell.Cell.TheVariants as cells;
ghost use Rattle.mg_chain.specs.Refusals.{damage, writer_in as writer_of};
ghost use Rattle.mg_chain.specs.Writing.{HasHead, HasNewest};
ghost use Rattle.mg_chain.specs.WritingRefusals.{IsNoAnchor, RefusesHead, RefusesNewest};

use crate::cells::{cell_at, version_at};
use mg_base::{Damaged, Disk, Field, PageNo, RecId};
use mg_heap::owner_of;
use mg_pool::Batch;
use mg_space::{SpaceFault, Store};
use mg_version::{Cell, Link, Version};

/// Where the newest version of a record is, and the first pointer page of its table.
#[derive(Clone, Copy)]
pub(crate) struct Head {
    pub(crate) newest: Link,
    pub(crate) owner: PageNo,
}

/// A record's head and its newest version.
#[derive(Drop)]
pub(crate) struct Newest {
    pub(crate) head: Head,
    pub(crate) version: Version,
}

/// The head of a record.
///
/// # Errors
///
/// As `newest` of the primary slot; `Damaged` at `Target`, with 0 wanted, where that has no anchor, and
/// at `Owner` where its page names no table.
pub(crate) fn head_of<D: Disk>(
    store: &mut Store<D>,
    batch: &Batch,
    rec: RecId,
) -> Result<Head, SpaceFault>
    requires pool { IsPool D.meaning store.old }
    requires geometry { IsGeometry store.old.geometry }
    requires whole { AreWhole store.old.geometry batch.now.pages }

    ensures keeps { KeepsStore D.meaning store.old store.new }
    ensures fault { TellsFault D.meaning store.old store.new (pool_answer result) }
    ensures own { ReadsData result }
    ensures lawful { IfOk result (λ head. MayOwn head.owner.0) }
    ensures gives { (image : Image) → Tells D.meaning store.old.disk image → MatchResult result
        (λ head. HasHead (viewed store.old image batch.now) rec head.newest head.owner.0)
        (RefusesHead D.meaning store.new batch.now.pages (viewed store.old image batch.now) rec) }
{
    let newest = anchor_of(rec, &cell_at(store, batch, rec)?)?;
    let owner = owner_of(store, batch, rec.page)?;
    Ok(Head { newest, owner })
}

/// The link of an anchor, if a cell is one.
fn anchor_of(rec: RecId, cell: &Option<Cell>) -> Result<Link, Damaged>
    ensures { MatchResult result (λ link. cell.now ≡ Some (cells.Anchor link))
        (IsNoAnchor rec cell.now) }
{
    match cell {
        Some(Cell::Anchor(link)) => Ok(*link),
        Some(Cell::Version(version)) => Err(no_record(rec, version.tx.0)),
        None => Err(no_record(rec, u32::MAX)),
    }
}

/// Names a slot that has no anchor.
fn no_record(rec: RecId, found: u32) -> Damaged
    ensures { result ≡ damage rec.page.0 Field.Target found 0 }
{
    Damaged {
        page: rec.page,
        field: Field::Target,
        found: u64::from(found),
        wanted: 0,
    }
}

/// The newest version of a record, with its head.
///
/// # Errors
///
/// As `head`, and as `newest` of the version.
pub(crate) fn newest_of<D: Disk>(
    store: &mut Store<D>,
    batch: &Batch,
    rec: RecId,
) -> Result<Newest, SpaceFault>
    requires pool { IsPool D.meaning store.old }
    requires geometry { IsGeometry store.old.geometry }
    requires whole { AreWhole store.old.geometry batch.now.pages }

    ensures keeps { KeepsStore D.meaning store.old store.new }
    ensures fault { TellsFault D.meaning store.old store.new (pool_answer result) }
    ensures own { ReadsData result }
    ensures lawful { IfOk result (λ it. MayOwn it.head.owner.0) }
    ensures gives { (image : Image) → Tells D.meaning store.old.disk image → MatchResult result
        (λ it. HasNewest (viewed store.old image batch.now) rec it.head.newest it.head.owner.0
        it.version)
        (RefusesNewest D.meaning store.new batch.now.pages (viewed store.old image batch.now) rec) }
{
    let head = head_of(store, batch, rec)?;
    let version = version_at(store, batch, rec.page, head.newest)?;
    Ok(Newest { head, version })
}

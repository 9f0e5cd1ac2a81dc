//! Cells by their places, and versions by their links.

ghost use Rattle.std.specs.Prelude.{◌≡◌, ◌≤◌, ◌<◌, Some, IfErr, IfOk, IfSome, MatchResult, length};
ghost use Rattle.mg_base.specs.Image.{Image};
ghost use Rattle.mg_base.specs.declared.damage.Field.TheVariants.{Target};
ghost use Rattle.mg_heap.specs.Reading.{ReadsData};
ghost use Rattle.mg_image.specs.Records.{cells_of, cell_spelled, newest_of};
ghost use Rattle.mg_pool.specs.Fault.{TellsFault};
ghost use Rattle.mg_pool.specs.Pool.{IsPool};
ghost use Rattle.mg_slots.specs.declared.page.TheConstants.{GREATEST_SIZE};
ghost use Rattle.mg_space.specs.Taking.{IsGeometry};
ghost use Rattle.mg_space.specs.View.{AreWhole, KeepsStore, Tells, pool_answer, viewed};
ghost use Rattle.mg_version.specs.Cells.{IsCell, IsVersion};
ghost use Rattle.mg_chain.specs.Chains.{Meets, newest_link as link_of};
ghost use Rattle.mg_chain.specs.Refusals.{HasShortBody, IsOfOther, RefusesBytes, RefusesCellAt, RefusesVersion, damage, writer_in as writer_of};

use crate::damage::{cell_damage, link_damage, target_damage};
use mg_base::{Damaged, Disk, GREATEST_LIMIT, PageNo, RecId};
use mg_heap::hold_data;
use mg_pool::{Batch, PoolFault};
use mg_space::{SpaceFault, Store, lent};
use mg_version::{Cell, CellFault, Link, Version, read_cell};
use std::alloc::Global;

/// The cell that bytes of a page spell.
fn cell_of_bytes(alloc: Global, page: PageNo, bytes: &[u8]) -> Result<Cell, SpaceFault>
    requires { length bytes.now ≤ GREATEST_SIZE }
    ensures spelled { IfOk result (λ cell. cell ≡ cell_spelled bytes.now) }
    ensures short { IfOk result HasShortBody }
    ensures lawful { IfOk result IsCell }
    ensures refusal { IfErr result (RefusesBytes page.0 bytes.now) }
{
    match read_cell(alloc, bytes) {
        Ok(cell) => Ok(cell),
        Err(CellFault::BadCell { at }) => {
            Err(SpaceFault::Damaged(cell_damage(page, at, bytes.len())))
        }
        Err(CellFault::Memory) => Err(SpaceFault::Pool(PoolFault::Memory)),
    }
}

/// The cell of a place, as one sees it who fills a batch.
pub(crate) fn cell_at<D: Disk>(
    store: &mut Store<D>,
    batch: &Batch,
    at: RecId,
) -> Result<Option<Cell>, SpaceFault>
    requires pool { IsPool D.meaning store.old }
    requires geometry { IsGeometry store.old.geometry }
    requires whole { AreWhole store.old.geometry batch.now.pages }

    ensures keeps { KeepsStore D.meaning store.old store.new }
    ensures fault { TellsFault D.meaning store.old store.new (pool_answer result) }
    ensures own { ReadsData result }
    ensures short { IfOk result (λ found. IfSome found HasShortBody) }
    ensures lawful { IfOk result (λ found. IfSome found IsCell) }
    ensures gives { (image : Image) → Tells D.meaning store.old.disk image → MatchResult result
        (λ found. found ≡ cells_of (viewed store.old image batch.now) at)
        (RefusesCellAt D.meaning store.new batch.now.pages (viewed store.old image batch.now) at) }
{
    hold_data(store, batch, at.page)?;
    let Some(bytes) = mg_slots::cell(lent(store, batch, at.page), at.slot) else {
        return Ok(None);
    };
    Ok(Some(cell_of_bytes(store.alloc(), at.page, bytes)?))
}

/// Where the newest version of a record is.
pub fn newest_link<D: Disk>(
    store: &mut Store<D>,
    batch: &Batch,
    rec: RecId,
) -> Result<Option<Link>, SpaceFault>
    requires pool { IsPool D.meaning store.old }
    requires geometry { IsGeometry store.old.geometry }
    requires whole { AreWhole store.old.geometry batch.now.pages }

    ensures keeps { KeepsStore D.meaning store.old store.new }
    ensures fault { TellsFault D.meaning store.old store.new (pool_answer result) }
    ensures own { ReadsData result }
    ensures gives { (image : Image) → Tells D.meaning store.old.disk image → MatchResult result
        (λ found. found ≡ link_of (viewed store.old image batch.now) rec)
        (RefusesCellAt D.meaning store.new batch.now.pages (viewed store.old image batch.now) rec) }
{
    Ok(link_from(rec, &cell_at(store, batch, rec)?))
}

/// Where the newest version of a record is, by the cell of its primary slot.
fn link_from(rec: RecId, cell: &Option<Cell>) -> Option<Link>
    ensures { result ≡ newest_of rec cell.now }
{
    match cell {
        None => None,
        Some(Cell::Anchor(link)) => Some(*link),
        Some(Cell::Version(version)) => {
            if version.primary {
                Some(Link {
                    rec,
                    tx: version.tx,
                })
            } else {
                None
            }
        }
    }
}

/// The version that a link meets. `holder` is the page where the link stands.
pub fn version_at<D: Disk>(
    store: &mut Store<D>,
    batch: &Batch,
    holder: PageNo,
    link: Link,
) -> Result<Version, SpaceFault>
    requires pool { IsPool D.meaning store.old }
    requires geometry { IsGeometry store.old.geometry }
    requires whole { AreWhole store.old.geometry batch.now.pages }

    ensures keeps { KeepsStore D.meaning store.old store.new }
    ensures fault { TellsFault D.meaning store.old store.new (pool_answer result) }
    ensures own { ReadsData result }
    ensures below { IfOk result (λ version. link.rec.page.0 < GREATEST_LIMIT) }
    ensures short { IfOk result (λ version. length version.body ≤ GREATEST_SIZE) }
    ensures lawful { IfOk result IsVersion }
    ensures gives { (image : Image) → Tells D.meaning store.old.disk image → MatchResult result
        (Meets (cells_of (viewed store.old image batch.now)) link)
        (RefusesVersion D.meaning store.new batch.now.pages (viewed store.old image batch.now) holder.0
        link) }
{
    store.online()?;
    if link.rec.page.0 >= GREATEST_LIMIT {
        return Err(SpaceFault::Damaged(link_damage(holder, link)));
    }
    Ok(version_of(link, cell_at(store, batch, link.rec)?)?)
}

/// The version that a cell is, if it is one of the transaction that a link names.
fn version_of(link: Link, cell: Option<Cell>) -> Result<Version, Damaged>
    ensures ok { IfOk result (λ version. (cell ≡ Some (Cell.Version version))
        × (version.tx ≡ link.tx)) }
    ensures damaged { IfErr result (λ it. IsOfOther link.tx.0 cell
        × (it ≡ damage link.rec.page.0 Target (writer_of cell) link.tx.0)) }
{
    match cell {
        None => Err(target_damage(link, u32::MAX)),
        Some(Cell::Anchor(_)) => Err(target_damage(link, u32::MAX)),
        Some(Cell::Version(version)) => {
            let by = version.tx.0;
            if by == link.tx.0 {
                Ok(version)
            } else {
                Err(target_damage(link, by))
            }
        }
    }
}

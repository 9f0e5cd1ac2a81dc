//! The versions of a record are followed from the newest one on, up to the first that is wanted.

ghost use Rattle.std.specs.Prelude.{◌≡◌, ◌≤◌, ◌⊎◌, ◌↔◌, Some, IfOk, IfSome, IsTrue, MatchResult, length};
ghost use Rattle.mg_base.specs.Image.{Image};
ghost use Rattle.mg_chain.specs.Refusals.{RefusesChain, damage};
ghost use Rattle.mg_heap.specs.Reading.{ReadsData};
ghost use Rattle.mg_pool.specs.Fault.{TellsFault};
ghost use Rattle.mg_pool.specs.Pool.{IsPool};
ghost use Rattle.mg_slots.specs.declared.page.TheConstants.{GREATEST_SIZE};
ghost use Rattle.mg_space.specs.Taking.{IsGeometry};
ghost use Rattle.mg_space.specs.View.{AreWhole, KeepsStore, Tells, pool_answer, viewed};
ghost use Rattle.mg_seek.specs.Versions.{IsFirst, wants as wanted_of};

use crate::whose::{Wanted, wants};
use mg_base::{Damaged, Disk, Field, PageNo, RecId};
use mg_chain::{States, newest_link, version_at};
use mg_pool::Batch;
use mg_snap::Live;
use mg_space::{SpaceFault, Store};
use mg_version::{Link, Version};

/// A version of a record where it stands.
#[derive(Debug, Drop)]
pub struct Placed {
    /// The place of its cell.
    pub at: RecId,
    pub version: Version,
}

/// The first version of a record that is wanted, from the newest on. None where there is none.
///
/// # Errors
///
/// `Damaged`: where the primary slot's page, or that of a version on the way, is missing or no data
/// page; at `Cell` where bytes spell no cell; at `Link` where a page that no database has is
/// named, or, with 0 wanted, where the links come back to a place where they were; at `Target` where
/// a link meets no version of the transaction that it names. `Pool` with `DiskRead`, `Offline` or
/// `Memory`.
pub fn first_version<D: Disk, S: States>(
    store: &mut Store<D>,
    batch: &Batch,
    rec: RecId,
    states: &S,
    live: &Live,
    wanted: Wanted,
) -> Result<Option<Placed>, SpaceFault>
    requires pool { IsPool D.meaning store.old }
    requires geometry { IsGeometry store.old.geometry }
    requires whole { AreWhole store.old.geometry batch.now.pages }

    ensures keeps { KeepsStore D.meaning store.old store.new }
    ensures fault { TellsFault D.meaning store.old store.new (pool_answer result) }
    ensures own { ReadsData result }
    ensures short { IfOk result (λ found. IfSome found (λ p.
        length p.version.body ≤ GREATEST_SIZE)) }
    ensures gives { (image : Image) → Tells D.meaning store.old.disk image → MatchResult result
        (IsFirst (viewed store.old image batch.now)
        (wanted_of (S.state_of states.now) live.now wanted) rec)
        (RefusesChain D.meaning store.new batch.now.pages
        (viewed store.old image batch.now) rec) }
{
    let Some(first) = newest_link(store, batch, rec)? else {
        return Ok(None);
    };
    let mut link = first;
    let mut holder = rec.page;
    let mut mark = None;
    for step in 0..u32::MAX {
        if is_marked(&mark, link.rec) {
            return Err(SpaceFault::Damaged(back_damage(holder, link)));
        }
        let version = version_at(store, batch, holder, link)?;
        if wants(states, live, wanted, version.tx) {
            return Ok(Some(Placed {
                at: link.rec,
                version,
            }));
        }
        mark = marked(step, mark, link.rec);
        let Some(back) = version.back else {
            return Ok(None);
        };
        holder = link.rec.page;
        link = back;
    }
    Err(SpaceFault::Damaged(back_damage(holder, link)))
}

/// The damage of a link by which a chain comes back.
fn back_damage(holder: PageNo, link: Link) -> Damaged
    ensures { result ≡ damage holder.0 Field.Link link.rec.page.0 0 }
{
    Damaged {
        page: holder,
        field: Field::Link,
        found: u64::from(link.rec.page.0),
        wanted: 0,
    }
}

/// Tells whether this is the place that was marked.
fn is_marked(mark: &Option<RecId>, at: RecId) -> bool
    ensures { IsTrue result ↔ (mark.now ≡ Some at) }
{
    match mark {
        None => false,
        Some(marked) => marked.page.0 == at.page.0 && marked.slot == at.slot,
    }
}

/// Marks a place at each step that is a power of two, so that links which come back meet the mark.
fn marked(step: u32, mark: Option<RecId>, at: RecId) -> Option<RecId>
    ensures { (result ≡ mark) ⊎ (result ≡ Some at) }
{
    if step.is_power_of_two() {
        Some(at)
    } else {
        mark
    }
}

//! A record's links are followed to their end.

ghost use Rattle.std.specs.Prelude.{◌≡◌, ◌⊎◌, ◌↔◌, [], Some, IsTrue, MatchResult};
ghost use Rattle.mg_base.specs.Image.{Image};
ghost use Rattle.mg_chain.specs.Refusals.{RefusesChain, damage};
ghost use Rattle.mg_heap.specs.Reading.{ReadsData};
ghost use Rattle.mg_image.specs.Records.{cells_of};
ghost use Rattle.mg_pool.specs.Fault.{TellsFault};
ghost use Rattle.mg_pool.specs.Pool.{IsPool, shown};
ghost use Rattle.mg_space.specs.Taking.{IsGeometry};
ghost use Rattle.mg_space.specs.View.{KeepsStore, Tells, pool_answer};
ghost use Rattle.mg_collecting.specs.Collecting.{HasCount};

use crate::reading::{newest, version};
use mg_base::{Damaged, Disk, Field, PageNo, RecId};
use mg_space::{SpaceFault, Store};
use mg_version::Link;

/// How many versions a record has.
///
/// # Errors
///
/// As `first_version` of mg_seek, where no version is wanted.
pub(crate) fn count_versions<D: Disk>(store: &mut Store<D>, rec: RecId) -> Result<u32, SpaceFault>
    requires pool { IsPool D.meaning store.old }
    requires geometry { IsGeometry store.old.geometry }

    ensures keeps { KeepsStore D.meaning store.old store.new }
    ensures fault { TellsFault D.meaning store.old store.new (pool_answer result) }
    ensures own { ReadsData result }
    ensures gives { (image : Image) → Tells D.meaning store.old.disk image → MatchResult result
        (HasCount (cells_of (shown store.old.dirty image)) rec)
        (RefusesChain D.meaning store.new [] (shown store.old.dirty image) rec) }
{
    let Some(first) = newest(store, rec)? else {
        return Ok(0);
    };
    let mut link = first;
    let mut holder = rec.page;
    let mut mark = None;
    for step in 0..u32::MAX {
        if is_marked(&mark, link.rec) {
            return Err(SpaceFault::Damaged(back_damage(holder, link)));
        }
        let met = version(store, holder, link)?;
        let Some(back) = met.back else {
            return Ok(step + 1);
        };
        mark = marked(step, mark, link.rec);
        holder = link.rec.page;
        link = back;
    }
    Err(SpaceFault::Damaged(back_damage(holder, link)))
}

/// The damage of a link by which a chain comes back.
fn back_damage(holder: PageNo, link: Link) -> Damaged
    ensures { result ≡ damage holder.0 Field.Link link.rec.page.0 0 }
{
    Damaged {
        page: holder,
        field: Field::Link,
        found: u64::from(link.rec.page.0),
        wanted: 0,
    }
}

/// Tells whether this is the place that was marked.
fn is_marked(mark: &Option<RecId>, at: RecId) -> bool
    ensures { IsTrue result ↔ (mark.now ≡ Some at) }
{
    match mark {
        None => false,
        Some(marked) => marked.page.0 == at.page.0 && marked.slot == at.slot,
    }
}

/// Marks a place at each step that is a power of two, so that links which come back meet the mark.
fn marked(step: u32, mark: Option<RecId>, at: RecId) -> Option<RecId>
    ensures { (result ≡ mark) ⊎ (result ≡ Some at) }
{
    if step.is_power_of_two() {
        Some(at)
    } else {
        mark
    }
}

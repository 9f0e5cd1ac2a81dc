//! Whether a record has something settled, and its collection where it has.

ghost use Rattle.std.specs.Prelude.{◌≡◌, ◌||◌, ◌<◌, [], MatchResult, is_some};
ghost use Rattle.mg_base.specs.Image.{Image};
ghost use Rattle.mg_chain.specs.Chains.{Meets, newest_link as link_of};
ghost use Rattle.mg_chain.specs.Refusals.{RefusesCellAt, RefusesVersion};
ghost use Rattle.mg_heap.specs.Reading.{ReadsData};
ghost use Rattle.mg_image.specs.Records.{cells_of};
ghost use Rattle.mg_model.specs.Answers.{is_committed as is_committed_state};
ghost use Rattle.mg_pool.specs.Fault.{TellsFault};
ghost use Rattle.mg_pool.specs.Pool.{IsPool, shown};
ghost use Rattle.mg_space.specs.Taking.{IsGeometry};
ghost use Rattle.mg_space.specs.View.{KeepsStore, Tells, pool_answer};
ghost use Rattle.mg_core_collecting.specs.Places.{CollectsSettled, FailsSettled, RefusesLook, TellsSettled};

use mg_base::{Disk, GREATEST_LIMIT, PageNo, RecId, TxNo, TxState};
use mg_chain::{States, newest_link, version_at};
use mg_collecting::collect_record;
use mg_heap::is_record_of;
use mg_model::Table;
use mg_pool::Batch;
use mg_snap::Live;
use mg_space::{SpaceFault, Store};
use mg_version::{Link, Version};

/// Where the newest version of a record is.
fn newest<D: Disk>(store: &mut Store<D>, rec: RecId) -> Result<Option<Link>, SpaceFault>
    requires pool { IsPool D.meaning store.old }
    requires geometry { IsGeometry store.old.geometry }

    ensures keeps { KeepsStore D.meaning store.old store.new }
    ensures fault { TellsFault D.meaning store.old store.new (pool_answer result) }
    ensures own { ReadsData result }
    ensures gives { (image : Image) → Tells D.meaning store.old.disk image → MatchResult result
        (λ found. found ≡ link_of (shown store.old.dirty image) rec)
        (RefusesCellAt D.meaning store.new [] (shown store.old.dirty image) rec) }
{
    let batch = Batch::new(store.alloc());
    newest_link(store, &batch, rec)
}

/// The version that a link meets. `holder` is the page where the link stands.
fn version<D: Disk>(store: &mut Store<D>, holder: PageNo, link: Link) -> Result<Version, SpaceFault>
    requires pool { IsPool D.meaning store.old }
    requires geometry { IsGeometry store.old.geometry }

    ensures keeps { KeepsStore D.meaning store.old store.new }
    ensures fault { TellsFault D.meaning store.old store.new (pool_answer result) }
    ensures own { ReadsData result }
    ensures gives { (image : Image) → Tells D.meaning store.old.disk image → MatchResult result
        (Meets (cells_of (shown store.old.dirty image)) link)
        (RefusesVersion D.meaning store.new [] (shown store.old.dirty image) holder.0 link) }
{
    let batch = Batch::new(store.alloc());
    version_at(store, &batch, holder, link)
}

/// Tells whether a transaction is committed.
fn is_committed<S: States>(states: &S, t: TxNo) -> bool
    ensures { result ≡ is_committed_state (S.state_of states.now t.0) }
{
    matches!(states.state(t), TxState::Committed)
}

/// Tells whether a transaction is committed, or another version stands behind its own.
fn has_settled<S: States>(states: &S, link: Link, version: &Version) -> bool
    ensures { result ≡ (is_committed_state (S.state_of states.now link.tx.0) || is_some version.now.back) }
{
    is_committed(states, link.tx) || version.back.is_some()
}

/// Tells whether a record has something settled: its newest version is of a committed transaction, or another one stands
/// behind it.
///
/// # Errors
///
/// As `newest_link` and `version_at` of mg_chain.
pub(crate) fn is_settled<D: Disk, S: States>(
    store: &mut Store<D>,
    rec: RecId,
    states: &S,
) -> Result<bool, SpaceFault>
    requires pool { IsPool D.meaning store.old }
    requires geometry { IsGeometry store.old.geometry }

    ensures keeps { KeepsStore D.meaning store.old store.new }
    ensures fault { TellsFault D.meaning store.old store.new (pool_answer result) }
    ensures own { ReadsData result }
    ensures tells { (image : Image) → Tells D.meaning store.old.disk image → MatchResult result
        (TellsSettled (shown store.old.dirty image) (S.state_of states.now) rec)
        (RefusesLook D.meaning store.new (shown store.old.dirty image) rec) }
{
    let Some(link) = newest(store, rec)? else {
        return Ok(false);
    };
    let met = version(store, rec.page, link)?;
    Ok(has_settled(states, link, &met))
}

/// Collects a record of a table that has something settled. Any other slot is left as it is.
///
/// # Errors
///
/// As `is_record_of` of mg_heap, `is_settled`, and `collect_record` of mg_collecting.
pub(crate) fn collect_settled<D: Disk, S: States>(
    store: &mut Store<D>,
    table: &Table,
    rec: RecId,
    states: &S,
    live: &Live,
) -> Result<bool, SpaceFault>
    requires pool { IsPool D.meaning store.old }
    requires geometry { IsGeometry store.old.geometry }
    requires pointer { table.now.pointer.0 < GREATEST_LIMIT }

    ensures pool { IsPool D.meaning store.new }
    ensures geometry { store.new.geometry ≡ store.old.geometry }
    ensures collects { MatchResult result
        (CollectsSettled D.meaning store.old store.new (S.state_of states.now) live.now table.now rec)
        (FailsSettled D.meaning store.old store.new (S.state_of states.now) live.now table.now rec) }
{
    let batch = Batch::new(store.alloc());
    let its = is_record_of(store, &batch, table.pointer, rec)?;
    if !its {
        return Ok(false);
    }
    let settled = is_settled(store, rec, states)?;
    if !settled {
        return Ok(false);
    }
    collect_record(store, rec, states, live)
}

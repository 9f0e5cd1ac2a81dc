//! The versions of a record are passed, and those go that no base needs.

ghost use Rattle.std.specs.Prelude.{◌≡◌, ◌||◌, [], MatchResult, Some, None};
ghost use Rattle.mg_base.specs.Image.{Image};
ghost use Rattle.mg_chain.specs.Refusals.{RefusesChain};
ghost use Rattle.mg_heap.specs.Reading.{ReadsData};
ghost use Rattle.mg_image.specs.Records.{cells_of};
ghost use Rattle.mg_image.specs.declared.entry.Entry.{Entry as ImageEntry};
ghost use Rattle.mg_pool.specs.Fault.{TellsFault};
ghost use Rattle.mg_pool.specs.Pool.{IsPool, shown};
ghost use Rattle.mg_space.specs.Taking.{IsGeometry};
ghost use Rattle.mg_space.specs.View.{KeepsStore, Tells, pool_answer};
ghost use Rattle.std.specs.Prelude.{List};
ghost use Rattle.mg_collecting.specs.Collecting.{HasAtMost};
ghost use Rattle.mg_collecting.specs.Leaving.{HasInOrder};
ghost use Rattle.mg_collecting.specs.Passing.{DropsOwn, FailsDrop, FailsPass, Passes, StartsAt};
ghost use Rattle.mg_collecting.specs.Remaining.{without_unneeded};
ghost use Rattle.mg_collecting.specs.Steps.{DoesPart, FailsPart};

use crate::reading::{is_committed, newest, version};
use mg_base::{Disk, PageNo, RecId, TxNo};
use mg_batches::change_batch;
use mg_chain::{States, cells_are_changed, drop_behind};
use mg_pool::Batch;
use mg_snap::Live;
use mg_space::{SpaceFault, Store};
use mg_version::Link;

/// Where a pass along a record's versions stands.
#[derive(Clone, Copy)]
pub(crate) struct Stand {
    /// The page where the link to the version stands that was kept last.
    pub holder: PageNo,
    /// That link.
    pub kept: Link,
    /// Who wrote the version that was passed last, which may be gone.
    pub newer: TxNo,
    /// Where the kept one leads.
    pub next: Option<Link>,
}

/// Where a pass stands, one version on.
#[derive(Clone, Copy)]
pub(crate) struct Passed {
    pub stand: Stand,
    /// Whether that version is gone.
    pub gone: bool,
}

/// Drops the version right behind another one, in a batch of its own; and tells whether one was there.
///
/// `holder` is the page where the link to the newer one stands.
///
/// # Errors
///
/// As `drop_behind` of mg_chain, and as the change of a batch.
fn drop_own<D: Disk>(store: &mut Store<D>, holder: PageNo, newer: Link) -> Result<bool, SpaceFault>
    requires pool { IsPool D.meaning store.old }
    requires geometry { IsGeometry store.old.geometry }

    ensures pool { IsPool D.meaning store.new }
    ensures geometry { store.new.geometry ≡ store.old.geometry }
    ensures drops { MatchResult result (DropsOwn D.meaning store.old store.new newer)
        (FailsDrop D.meaning store.old store.new holder newer) }
{
    let mut batch = Batch::new(store.alloc());
    let Some(_) = drop_behind(store, &mut batch, holder, newer)? else {
        return Ok(false);
    };
    change_batch(store, batch)?;
    Ok(true)
}

/// Passes the version behind the one that was kept last: it is kept where some base sees it and not the version passed
/// before it, and dropped where none does.
///
/// # Errors
///
/// As `version_at` of mg_chain, and as `drop_own`.
fn pass_one<D: Disk>(
    store: &mut Store<D>,
    live: &Live,
    at: Stand,
    older: Link,
) -> Result<Passed, SpaceFault>
    requires pool { IsPool D.meaning store.old }
    requires geometry { IsGeometry store.old.geometry }

    ensures pool { IsPool D.meaning store.new }
    ensures geometry { store.new.geometry ≡ store.old.geometry }
    ensures passes { MatchResult result (Passes D.meaning store.old store.new live.now at older)
        (FailsPass D.meaning store.old store.new at older) }
{
    let met = version(store, at.kept.rec.page, older)?;
    if live.needed(at.newer, older.tx) {
        return Ok(Passed {
            stand: Stand {
                holder: at.kept.rec.page,
                kept: older,
                newer: older.tx,
                next: met.back,
            },
            gone: false,
        });
    }
    let gone = drop_own(store, at.holder, at.kept)?;
    Ok(Passed {
        stand: Stand {
            holder: at.holder,
            kept: at.kept,
            newer: older.tx,
            next: met.back,
        },
        gone,
    })
}

/// Where the versions of a record are passed first: at the newest one if it is committed, or else at the second if that is.
/// None where neither is.
///
/// # Errors
///
/// As `newest_link` and `version_at` of mg_chain, of these two.
fn first_stand<D: Disk, S: States>(
    store: &mut Store<D>,
    rec: RecId,
    states: &S,
    live: &Live,
) -> Result<Option<Stand>, SpaceFault>
    requires pool { IsPool D.meaning store.old }
    requires geometry { IsGeometry store.old.geometry }

    ensures keeps { KeepsStore D.meaning store.old store.new }
    ensures fault { TellsFault D.meaning store.old store.new (pool_answer result) }
    ensures own { ReadsData result }
    ensures gives { (image : Image) → Tells D.meaning store.old.disk image → MatchResult result
        (λ at. (es : List ImageEntry) → HasInOrder (cells_of (shown store.old.dirty image)) rec es
        → StartsAt (S.state_of states.now) live.now rec es at)
        (RefusesChain D.meaning store.new [] (shown store.old.dirty image) rec) }
{
    let Some(first) = newest(store, rec)? else {
        return Ok(None);
    };
    let met = version(store, rec.page, first)?;
    if is_committed(states, first.tx) {
        return Ok(Some(Stand {
            holder: rec.page,
            kept: first,
            newer: first.tx,
            next: met.back,
        }));
    }
    let Some(second) = met.back else {
        return Ok(None);
    };
    if !is_committed(states, second.tx) {
        return Ok(None);
    }
    let behind = version(store, first.rec.page, second)?;
    Ok(Some(Stand {
        holder: first.rec.page,
        kept: second,
        newer: second.tx,
        next: behind.back,
    }))
}

/// Drops the versions of a record that no base needs, each in a batch of its own, from the newest to the oldest; and tells
/// whether any was.
///
/// The record has no more than `count` versions.
///
/// # Errors
///
/// As `first_stand`, and as `pass_one` of each version behind. Those that were dropped by then stay dropped.
pub(crate) fn drop_unneeded<D: Disk, S: States>(
    store: &mut Store<D>,
    rec: RecId,
    states: &S,
    live: &Live,
    count: u32,
) -> Result<bool, SpaceFault>
    requires pool { IsPool D.meaning store.old }
    requires geometry { IsGeometry store.old.geometry }
    requires counted { (image : Image) → Tells D.meaning store.old.disk image
        → HasAtMost (cells_of (shown store.old.dirty image)) rec count }

    ensures pool { IsPool D.meaning store.new }
    ensures geometry { store.new.geometry ≡ store.old.geometry }
    ensures drops { MatchResult result
        (DoesPart D.meaning store.old store.new (S.state_of states.now) live.now rec
        (without_unneeded (S.state_of states.now) live.now))
        (FailsPart D.meaning store.old store.new (S.state_of states.now) live.now rec
        (without_unneeded (S.state_of states.now) live.now)) }
{
    cells_are_changed();
    let Some(first) = first_stand(store, rec, states, live)? else {
        return Ok(false);
    };
    let mut at = first;
    let mut gone = false;
    for step in 0..count {
        let Some(older) = at.next else {
            return Ok(gone);
        };
        if !is_committed(states, older.tx) {
            return Ok(gone);
        }
        let passed = pass_one(store, live, at, older)?;
        at = passed.stand;
        gone = either(gone, passed.gone);
    }
    Ok(gone)
}

/// Tells whether one of two is so.
pub(crate) fn either(one: bool, other: bool) -> bool
    ensures { result ≡ (one || other) }
{
    one || other
}

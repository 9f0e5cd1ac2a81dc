//! A record is collected.

ghost use Rattle.std.specs.Prelude.{◌≡◌, ◌<◌, MatchResult};
ghost use Rattle.mg_pool.specs.Pool.{IsPool};
ghost use Rattle.mg_space.specs.Taking.{IsGeometry};
ghost use Rattle.mg_collecting.specs.Collecting.{Collects, CollectsOf, FailsCollecting, FailsCollectingOf};

use crate::counting::count_versions;
use crate::ends::{take_dead, take_erased};
use crate::passing::{drop_unneeded, either};
use mg_base::{Disk, GREATEST_LIMIT, RecId};
use mg_chain::States;
use mg_heap::is_record_of;
use mg_model::Table;
use mg_pool::Batch;
use mg_snap::Live;
use mg_space::{SpaceFault, Store};

/// Collects a record: what nobody needs of its versions goes, step by step, each in a batch of its own. True exactly where
/// something went. A slot without versions is one of no record, and nothing goes.
///
/// First its links are followed to their end, so a record that is damaged is left as it was.
///
/// # Errors
///
/// As `count_versions`; then as a version is not dropped, or not taken out. What has gone by then stays gone, and the
/// record is one of which a part was collected.
pub fn collect_record<D: Disk, S: States>(
    store: &mut Store<D>,
    rec: RecId,
    states: &S,
    live: &Live,
) -> Result<bool, SpaceFault>
    requires pool { IsPool D.meaning store.old }
    requires geometry { IsGeometry store.old.geometry }

    ensures pool { IsPool D.meaning store.new }
    ensures geometry { store.new.geometry ≡ store.old.geometry }
    ensures collects { MatchResult result
        (Collects D.meaning store.old store.new (S.state_of states.now) live.now rec)
        (FailsCollecting D.meaning store.old store.new (S.state_of states.now) live.now rec) }
{
    let count = count_versions(store, rec)?;
    let dead = take_dead(store, rec, states, live)?;
    let dropped = drop_unneeded(store, rec, states, live, count)?;
    let erased = take_erased(store, rec, states, live)?;
    Ok(either(either(dead, dropped), erased))
}

/// Collects a record of a table, as `collect_record` does. A slot that is no record of the table is left as it is.
///
/// # Errors
///
/// As `is_record_of` of mg_heap, and as `collect_record`.
pub fn collect<D: Disk, S: States>(
    store: &mut Store<D>,
    table: &Table,
    rec: RecId,
    states: &S,
    live: &Live,
) -> Result<bool, SpaceFault>
    requires pool { IsPool D.meaning store.old }
    requires geometry { IsGeometry store.old.geometry }
    requires pointer { table.now.pointer.0 < GREATEST_LIMIT }

    ensures pool { IsPool D.meaning store.new }
    ensures geometry { store.new.geometry ≡ store.old.geometry }
    ensures collects { MatchResult result
        (CollectsOf D.meaning store.old store.new (S.state_of states.now) live.now table.now rec)
        (FailsCollectingOf D.meaning store.old store.new (S.state_of states.now) live.now table.now rec) }
{
    let batch = Batch::new(store.alloc());
    let its = is_record_of(store, &batch, table.pointer, rec)?;
    if !its {
        return Ok(false);
    }
    collect_record(store, rec, states, live)
}

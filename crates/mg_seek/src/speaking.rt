//! The record that speaks for a key.

ghost use Rattle.std.specs.Prelude.{◌≡◌, ◌≤◌, ◌<◌, ◌↔◌, None, IsTrue, MatchResult, length};
ghost use Rattle.mg_base.specs.Image.{Image};
ghost use Rattle.mg_heap.specs.Reading.{ReadsData};
ghost use Rattle.mg_pool.specs.Fault.{TellsFault};
ghost use Rattle.mg_pool.specs.Pool.{IsPool};
ghost use Rattle.mg_space.specs.Taking.{IsGeometry};
ghost use Rattle.mg_space.specs.View.{AreWhole, KeepsStore, Tells, pool_answer, viewed};
ghost use Rattle.mg_seek.specs.Refusals.{RefusesRecord};
ghost use Rattle.mg_seek.specs.Speaking.{IsSpeaker, RefusesRecords, RefusesTableRows, Speaks, SpeaksAmong, is_erased_for_all as is_erased};
ghost use Rattle.mg_seek.specs.Versions.{wants};

use crate::listing::table_records;
use crate::rows::{has_key, row_of};
use crate::walk::first_version;
use crate::whose::Wanted;
use mg_base::{Disk, GREATEST_LIMIT, RecId, TxState};
use mg_chain::States;
use mg_image::one_reading;
use mg_model::Table;
use mg_pool::Batch;
use mg_snap::Live;
use mg_space::{SpaceFault, Store};
use mg_value::{MOST_COLUMNS, Value};
use mg_version::Version;

/// The record of a table that speaks for a key: its newest version that is no dead transaction's has the
/// key, and is no committed deletion that every base sees. None exactly where no record does. Where
/// several do, it is one of them.
///
/// Each record of the table is looked at, up to that one.
///
/// # Errors
///
/// As `table_records`; and as `first_version` and `row_of`, of a record's newest version that is no dead
/// transaction's.
pub fn speaker<D: Disk, S: States>(
    store: &mut Store<D>,
    batch: &Batch,
    table: &Table,
    key: &Value,
    states: &S,
    live: &Live,
) -> Result<Option<RecId>, SpaceFault>
    requires pool { IsPool D.meaning store.old }
    requires geometry { IsGeometry store.old.geometry }
    requires whole { AreWhole store.old.geometry batch.now.pages }
    requires columns { length table.now.shape.columns ≤ MOST_COLUMNS }
    requires pointer { table.now.pointer.0 < GREATEST_LIMIT }

    ensures keeps { KeepsStore D.meaning store.old store.new }
    ensures fault { TellsFault D.meaning store.old store.new (pool_answer result) }
    ensures own { ReadsData result }
    ensures gives { (image : Image) → Tells D.meaning store.old.disk image → MatchResult result
        (IsSpeaker (S.state_of states.now) live.now (viewed store.old image batch.now) table.now
        key.now)
        (RefusesTableRows D.meaning store.new batch.now.pages
        (viewed store.old image batch.now) (wants (S.state_of states.now) live.now Wanted.Living)
        table.now) }
{
    let records = table_records(store, batch, table.pointer)?;
    speaker_among(store, batch, table, key, states, live, &records)
}

/// The first of these records that speaks for a key.
fn speaker_among<D: Disk, S: States>(
    store: &mut Store<D>,
    batch: &Batch,
    table: &Table,
    key: &Value,
    states: &S,
    live: &Live,
    records: &[RecId],
) -> Result<Option<RecId>, SpaceFault>
    requires pool { IsPool D.meaning store.old }
    requires geometry { IsGeometry store.old.geometry }
    requires whole { AreWhole store.old.geometry batch.now.pages }
    requires columns { length table.now.shape.columns ≤ MOST_COLUMNS }
    requires online { store.old.offline ≡ None }

    ensures keeps { KeepsStore D.meaning store.old store.new }
    ensures fault { TellsFault D.meaning store.old store.new (pool_answer result) }
    ensures own { ReadsData result }
    ensures gives { (image : Image) → Tells D.meaning store.old.disk image → MatchResult result
        (SpeaksAmong (S.state_of states.now) live.now (viewed store.old image batch.now) table.now
        key.now records.now)
        (RefusesRecords D.meaning store.new batch.now.pages
        (viewed store.old image batch.now) (wants (S.state_of states.now) live.now Wanted.Living)
        table.now records.now) }
{
    let mut rest = records;
    while let Some((rec, later)) = rest.split_first() {
        let does = speaks(store, batch, table, key, states, live, *rec)?;
        if does {
            return Ok(Some(*rec));
        }
        rest = later;
    }
    Ok(None)
}

/// Tells whether a record speaks for a key.
pub(crate) fn speaks<D: Disk, S: States>(
    store: &mut Store<D>,
    batch: &Batch,
    table: &Table,
    key: &Value,
    states: &S,
    live: &Live,
    rec: RecId,
) -> Result<bool, SpaceFault>
    requires pool { IsPool D.meaning store.old }
    requires geometry { IsGeometry store.old.geometry }
    requires whole { AreWhole store.old.geometry batch.now.pages }
    requires columns { length table.now.shape.columns ≤ MOST_COLUMNS }

    ensures keeps { KeepsStore D.meaning store.old store.new }
    ensures fault { TellsFault D.meaning store.old store.new (pool_answer result) }
    ensures own { ReadsData result }
    ensures gives { (image : Image) → Tells D.meaning store.old.disk image → MatchResult result
        (λ does. IsTrue does ↔ Speaks (S.state_of states.now) live.now
        (viewed store.old image batch.now) table.now key.now rec)
        (RefusesRecord D.meaning store.new batch.now.pages
        (viewed store.old image batch.now) (wants (S.state_of states.now) live.now Wanted.Living)
        table.now rec) }
{
    one_reading();
    let Some(newest) = first_version(store, batch, rec, states, live, Wanted::Living)? else {
        return Ok(false);
    };
    if is_erased_for_all(states, live, &newest.version) {
        return Ok(false);
    }
    let row = row_of(store.alloc(), table, &newest)?;
    Ok(has_key(table, &row, key))
}

/// Tells whether a version is a deletion by a committed transaction that every base sees.
fn is_erased_for_all<S: States>(states: &S, live: &Live, version: &Version) -> bool
    ensures { result ≡ is_erased (S.state_of states.now) live.now version.now }
{
    version.deleted
        && matches!(states.state(version.tx), TxState::Committed)
        && live.all_see(version.tx)
}

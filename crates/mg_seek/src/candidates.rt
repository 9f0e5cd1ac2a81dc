//! The record that speaks for a key, among some candidates.

ghost use Rattle.std.specs.Prelude.{◌≡◌, ◌≤◌, ◌<◌, ◌↔◌, None, IsTrue, MatchResult, length};
ghost use Rattle.mg_base.specs.Image.{Image};
ghost use Rattle.mg_heap.specs.Reading.{ReadsData};
ghost use Rattle.mg_pool.specs.Fault.{TellsFault};
ghost use Rattle.mg_pool.specs.Pool.{IsPool};
ghost use Rattle.mg_space.specs.Taking.{IsGeometry};
ghost use Rattle.mg_space.specs.View.{AreWhole, KeepsStore, Tells, pool_answer, viewed};
ghost use Rattle.mg_seek.specs.Candidates.{FoundAmong, RefusesCandidate, RefusesCandidates, SpeaksOf};
ghost use Rattle.mg_seek.specs.Versions.{wants};

use crate::speaking::speaks;
use crate::whose::Wanted;
use mg_base::{Disk, GREATEST_LIMIT, RecId};
use mg_chain::States;
use mg_heap::is_record_of;
use mg_model::Table;
use mg_pool::Batch;
use mg_snap::Live;
use mg_space::{SpaceFault, Store};
use mg_value::{MOST_COLUMNS, Value};

/// The first candidate that is a record of the table and speaks for a key. None where none is and does.
///
/// What is no record of the table is passed over, whatever its page says. Where each record that speaks
/// is among the candidates, this is who speaks for the key in the table (`AreEnough`).
///
/// # Errors
///
/// As `is_record_of` of mg_heap, of the candidates up to that one; and as `speaker`, of those among them
/// that are records of the table.
pub fn speaker_among_candidates<D: Disk, S: States>(
    store: &mut Store<D>,
    batch: &Batch,
    table: &Table,
    key: &Value,
    states: &S,
    live: &Live,
    candidates: &[RecId],
) -> Result<Option<RecId>, SpaceFault>
    requires pool { IsPool D.meaning store.old }
    requires geometry { IsGeometry store.old.geometry }
    requires whole { AreWhole store.old.geometry batch.now.pages }
    requires columns { length table.now.shape.columns ≤ MOST_COLUMNS }
    requires pointer { table.now.pointer.0 < GREATEST_LIMIT }

    ensures keeps { KeepsStore D.meaning store.old store.new }
    ensures fault { TellsFault D.meaning store.old store.new (pool_answer result) }
    ensures own { ReadsData result }
    ensures gives { (image : Image) → Tells D.meaning store.old.disk image → MatchResult result
        (FoundAmong (S.state_of states.now) live.now (viewed store.old image batch.now) table.now
        key.now candidates.now)
        (RefusesCandidates D.meaning store.new batch.now.pages
        (viewed store.old image batch.now) (wants (S.state_of states.now) live.now Wanted.Living)
        table.now candidates.now) }
{
    store.online()?;
    first_that_speaks(store, batch, table, key, states, live, candidates)
}

/// The first candidate that is a record of the table and speaks for a key.
fn first_that_speaks<D: Disk, S: States>(
    store: &mut Store<D>,
    batch: &Batch,
    table: &Table,
    key: &Value,
    states: &S,
    live: &Live,
    candidates: &[RecId],
) -> Result<Option<RecId>, SpaceFault>
    requires pool { IsPool D.meaning store.old }
    requires geometry { IsGeometry store.old.geometry }
    requires whole { AreWhole store.old.geometry batch.now.pages }
    requires columns { length table.now.shape.columns ≤ MOST_COLUMNS }
    requires pointer { table.now.pointer.0 < GREATEST_LIMIT }
    requires online { store.old.offline ≡ None }

    ensures keeps { KeepsStore D.meaning store.old store.new }
    ensures fault { TellsFault D.meaning store.old store.new (pool_answer result) }
    ensures own { ReadsData result }
    ensures gives { (image : Image) → Tells D.meaning store.old.disk image → MatchResult result
        (FoundAmong (S.state_of states.now) live.now (viewed store.old image batch.now) table.now
        key.now candidates.now)
        (RefusesCandidates D.meaning store.new batch.now.pages
        (viewed store.old image batch.now) (wants (S.state_of states.now) live.now Wanted.Living)
        table.now candidates.now) }
{
    let mut rest = candidates;
    while let Some((rec, later)) = rest.split_first() {
        let does = speaks_of(store, batch, table, key, states, live, *rec)?;
        if does {
            return Ok(Some(*rec));
        }
        rest = later;
    }
    Ok(None)
}

/// Tells whether a candidate is a record of the table and speaks for a key.
fn speaks_of<D: Disk, S: States>(
    store: &mut Store<D>,
    batch: &Batch,
    table: &Table,
    key: &Value,
    states: &S,
    live: &Live,
    rec: RecId,
) -> Result<bool, SpaceFault>
    requires pool { IsPool D.meaning store.old }
    requires geometry { IsGeometry store.old.geometry }
    requires whole { AreWhole store.old.geometry batch.now.pages }
    requires columns { length table.now.shape.columns ≤ MOST_COLUMNS }
    requires pointer { table.now.pointer.0 < GREATEST_LIMIT }

    ensures keeps { KeepsStore D.meaning store.old store.new }
    ensures fault { TellsFault D.meaning store.old store.new (pool_answer result) }
    ensures own { ReadsData result }
    ensures gives { (image : Image) → Tells D.meaning store.old.disk image → MatchResult result
        (λ does. IsTrue does ↔ SpeaksOf (S.state_of states.now) live.now
        (viewed store.old image batch.now) table.now key.now rec)
        (RefusesCandidate D.meaning store.new batch.now.pages
        (viewed store.old image batch.now) (wants (S.state_of states.now) live.now Wanted.Living)
        table.now rec) }
{
    let its = is_record_of(store, batch, table.pointer, rec)?;
    if !its {
        return Ok(false);
    }
    speaks(store, batch, table, key, states, live, rec)
}

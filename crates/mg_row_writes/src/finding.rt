//! What a write finds at its key.

ghost use Rattle.std.specs.Option.{option_copied};
ghost use Rattle.std.specs.Prelude.{◌≡◌, ◌≤◌, ◌<◌, [], None, MatchResult, length};
ghost use Rattle.mg_base.specs.Image.{Image};
ghost use Rattle.mg_heap.specs.Reading.{ReadsData};
ghost use Rattle.mg_pool.specs.Fault.{TellsFault};
ghost use Rattle.mg_pool.specs.Pool.{IsPool, shown};
ghost use Rattle.mg_space.specs.Taking.{IsGeometry};
ghost use Rattle.mg_space.specs.View.{KeepsStore, Tells, pool_answer};
ghost use Rattle.mg_seek.specs.Speaking.{IsSpeaker, RefusesTableRows};
ghost use Rattle.mg_seek.specs.Versions.{wants};
ghost use Rattle.mg_row_writes.specs.Finding.{IsFoundAt, IsInWay, IsRowAt, IsSeenIn, MayTell, RefusesObstacleAt, RefusesRowAt, RefusesSeen, RefusesWay, SpeaksThere};

use mg_base::{Disk, GREATEST_LIMIT, RecId, TxNo};
use mg_chain::States;
use mg_heap::table_pages;
use mg_model::Table;
use mg_pool::Batch;
use mg_seek::{Obstacle, Wanted, obstacle_for, row_in_view, speaker, speaker_among_candidates};
use mg_snap::Live;
use mg_space::{SpaceFault, Store};
use mg_value::{MOST_COLUMNS, Row, Value};

/// The record that speaks for a key, with the row that a transaction sees there.
#[derive(Debug, Drop)]
pub struct RowAt {
    /// None where no record speaks for the key.
    pub rec: Option<RecId>,
    /// None where no row is seen.
    pub row: Option<Row>,
}

/// Who is in the way of a write at a key, with the record that speaks for the key.
#[derive(Debug, Drop)]
pub struct ObstacleAt {
    /// None where no record speaks for the key.
    pub rec: Option<RecId>,
    /// None where nobody is in the way.
    pub obstacle: Option<Obstacle>,
}

/// The record of a table that speaks for a key, as the cache shows the pages: one of the candidates,
/// where there are some that are enough.
fn speaker_at<D: Disk, S: States>(
    store: &mut Store<D>,
    table: &Table,
    key: &Value,
    states: &S,
    live: &Live,
    candidates: Option<&[RecId]>,
) -> Result<Option<RecId>, SpaceFault>
    requires pool { IsPool D.meaning store.old }
    requires geometry { IsGeometry store.old.geometry }
    requires columns { length table.now.shape.columns ≤ MOST_COLUMNS }
    requires pointer { table.now.pointer.0 < GREATEST_LIMIT }

    ensures keeps { KeepsStore D.meaning store.old store.new }
    ensures fault { TellsFault D.meaning store.old store.new (pool_answer result) }
    ensures own { ReadsData result }
    ensures gives { (image : Image) → Tells D.meaning store.old.disk image
        → MayTell (S.state_of states.now) live.now (shown store.old.dirty image) table.now key.now
        (option_copied candidates.entry) → MatchResult result
        (IsSpeaker (S.state_of states.now) live.now (shown store.old.dirty image) table.now key.now)
        (RefusesTableRows D.meaning store.new [] (shown store.old.dirty image)
        (wants (S.state_of states.now) live.now Wanted.Living) table.now) }
{
    let batch = Batch::new(store.alloc());
    match candidates {
        None => speaker(store, &batch, table, key, states, live),
        Some(recs) => speaker_among_candidates(store, &batch, table, key, states, live, recs),
    }
}

/// The obstacle of a record for t. None where there is no record.
///
/// # Errors
///
/// As `obstacle_for` of mg_seek.
pub fn obstacle_of_record<D: Disk, S: States>(
    store: &mut Store<D>,
    rec: Option<RecId>,
    states: &S,
    live: &Live,
    t: TxNo,
) -> Result<Option<Obstacle>, SpaceFault>
    requires pool { IsPool D.meaning store.old }
    requires geometry { IsGeometry store.old.geometry }
    requires online { store.old.offline ≡ None }

    ensures keeps { KeepsStore D.meaning store.old store.new }
    ensures fault { TellsFault D.meaning store.old store.new (pool_answer result) }
    ensures own { ReadsData result }
    ensures gives { (image : Image) → Tells D.meaning store.old.disk image → MatchResult result
        (IsInWay (S.state_of states.now) live.now t.0 (shown store.old.dirty image) rec)
        (RefusesWay D.meaning store.new (shown store.old.dirty image) rec) }
{
    let Some(rec) = rec else {
        return Ok(None);
    };
    let batch = Batch::new(store.alloc());
    obstacle_for(store, &batch, rec, states, live, t)
}

/// The record of a table that speaks for a key, if it is this one. None says nothing.
///
/// It takes a look at this record, and the table's pointer pages are read: so it costs no more than a few records.
///
/// # Errors
///
/// As `table_pages` of mg_heap, and `speaker_among_candidates` of mg_seek.
fn speaker_in_place<D: Disk, S: States>(
    store: &mut Store<D>,
    table: &Table,
    key: &Value,
    states: &S,
    live: &Live,
    place: RecId,
) -> Result<Option<RecId>, SpaceFault>
    requires pool { IsPool D.meaning store.old }
    requires geometry { IsGeometry store.old.geometry }
    requires columns { length table.now.shape.columns ≤ MOST_COLUMNS }
    requires pointer { table.now.pointer.0 < GREATEST_LIMIT }

    ensures keeps { KeepsStore D.meaning store.old store.new }
    ensures fault { TellsFault D.meaning store.old store.new (pool_answer result) }
    ensures own { ReadsData result }
    ensures gives { (image : Image) → Tells D.meaning store.old.disk image → MatchResult result
        (SpeaksThere (S.state_of states.now) live.now (shown store.old.dirty image) table.now key.now)
        (RefusesTableRows D.meaning store.new [] (shown store.old.dirty image)
        (wants (S.state_of states.now) live.now Wanted.Living) table.now) }
{
    let batch = Batch::new(store.alloc());
    let _pages = table_pages(store, &batch, table.pointer)?;
    speaker_among_candidates(store, &batch, table, key, states, live, &[place])
}

/// The record of a table that speaks for a key: this one, or else it is looked for among all of them.
fn speaker_near<D: Disk, S: States>(
    store: &mut Store<D>,
    table: &Table,
    key: &Value,
    states: &S,
    live: &Live,
    place: RecId,
) -> Result<Option<RecId>, SpaceFault>
    requires pool { IsPool D.meaning store.old }
    requires geometry { IsGeometry store.old.geometry }
    requires columns { length table.now.shape.columns ≤ MOST_COLUMNS }
    requires pointer { table.now.pointer.0 < GREATEST_LIMIT }

    ensures keeps { KeepsStore D.meaning store.old store.new }
    ensures fault { TellsFault D.meaning store.old store.new (pool_answer result) }
    ensures own { ReadsData result }
    ensures gives { (image : Image) → Tells D.meaning store.old.disk image → MatchResult result
        (IsSpeaker (S.state_of states.now) live.now (shown store.old.dirty image) table.now key.now)
        (RefusesTableRows D.meaning store.new [] (shown store.old.dirty image)
        (wants (S.state_of states.now) live.now Wanted.Living) table.now) }
{
    let found = speaker_in_place(store, table, key, states, live, place)?;
    match found {
        None => speaker_at(store, table, key, states, live, None),
        Some(rec) => Ok(Some(rec)),
    }
}

/// The same, where there may be a place to look first.
fn speaker_from<D: Disk, S: States>(
    store: &mut Store<D>,
    table: &Table,
    key: &Value,
    states: &S,
    live: &Live,
    place: Option<RecId>,
) -> Result<Option<RecId>, SpaceFault>
    requires pool { IsPool D.meaning store.old }
    requires geometry { IsGeometry store.old.geometry }
    requires columns { length table.now.shape.columns ≤ MOST_COLUMNS }
    requires pointer { table.now.pointer.0 < GREATEST_LIMIT }

    ensures keeps { KeepsStore D.meaning store.old store.new }
    ensures fault { TellsFault D.meaning store.old store.new (pool_answer result) }
    ensures own { ReadsData result }
    ensures gives { (image : Image) → Tells D.meaning store.old.disk image → MatchResult result
        (IsSpeaker (S.state_of states.now) live.now (shown store.old.dirty image) table.now key.now)
        (RefusesTableRows D.meaning store.new [] (shown store.old.dirty image)
        (wants (S.state_of states.now) live.now Wanted.Living) table.now) }
{
    match place {
        None => speaker_at(store, table, key, states, live, None),
        Some(rec) => speaker_near(store, table, key, states, live, rec),
    }
}

/// The obstacle of a key of a table for t: that of the record that speaks for the key. That is looked for
/// at a place first, if there is one, and then among all records of the table.
///
/// # Errors
///
/// As `speaker` or `speaker_among_candidates`, and `obstacle_for` of mg_seek.
pub fn obstacle_at<D: Disk, S: States>(
    store: &mut Store<D>,
    table: &Table,
    key: &Value,
    states: &S,
    live: &Live,
    t: TxNo,
    place: Option<RecId>,
) -> Result<ObstacleAt, SpaceFault>
    requires pool { IsPool D.meaning store.old }
    requires geometry { IsGeometry store.old.geometry }
    requires columns { length table.now.shape.columns ≤ MOST_COLUMNS }
    requires pointer { table.now.pointer.0 < GREATEST_LIMIT }

    ensures keeps { KeepsStore D.meaning store.old store.new }
    ensures fault { TellsFault D.meaning store.old store.new (pool_answer result) }
    ensures own { ReadsData result }
    ensures gives { (image : Image) → Tells D.meaning store.old.disk image → MatchResult result
        (IsFoundAt (S.state_of states.now) live.now t.0 (shown store.old.dirty image) table.now key.now)
        (RefusesObstacleAt D.meaning store.new (shown store.old.dirty image)
        (S.state_of states.now) live.now table.now key.now) }
{
    let rec = speaker_from(store, table, key, states, live, place)?;
    let obstacle = obstacle_of_record(store, rec, states, live, t)?;
    Ok(ObstacleAt { rec, obstacle })
}

/// The row that t sees of a record. None where there is no record.
fn row_seen<D: Disk, S: States>(
    store: &mut Store<D>,
    table: &Table,
    rec: Option<RecId>,
    states: &S,
    live: &Live,
    t: TxNo,
) -> Result<Option<Row>, SpaceFault>
    requires pool { IsPool D.meaning store.old }
    requires geometry { IsGeometry store.old.geometry }
    requires online { store.old.offline ≡ None }
    requires columns { length table.now.shape.columns ≤ MOST_COLUMNS }

    ensures keeps { KeepsStore D.meaning store.old store.new }
    ensures fault { TellsFault D.meaning store.old store.new (pool_answer result) }
    ensures own { ReadsData result }
    ensures gives { (image : Image) → Tells D.meaning store.old.disk image → MatchResult result
        (IsSeenIn (S.state_of states.now) live.now t (shown store.old.dirty image) table.now rec)
        (RefusesSeen D.meaning store.new (shown store.old.dirty image)
        (wants (S.state_of states.now) live.now (Wanted.SeenBy t)) table.now rec) }
{
    let Some(rec) = rec else {
        return Ok(None);
    };
    let batch = Batch::new(store.alloc());
    row_in_view(store, &batch, table, rec, states, live, t)
}

/// The record of a table that speaks for a key, with the row that t sees there. The record is looked for
/// among the candidates, where there are some.
///
/// # Errors
///
/// As `speaker` or `speaker_among_candidates`, and `row_in_view` of mg_seek.
pub fn row_at<D: Disk, S: States>(
    store: &mut Store<D>,
    table: &Table,
    key: &Value,
    states: &S,
    live: &Live,
    t: TxNo,
    candidates: Option<&[RecId]>,
) -> Result<RowAt, SpaceFault>
    requires pool { IsPool D.meaning store.old }
    requires geometry { IsGeometry store.old.geometry }
    requires columns { length table.now.shape.columns ≤ MOST_COLUMNS }
    requires pointer { table.now.pointer.0 < GREATEST_LIMIT }

    ensures keeps { KeepsStore D.meaning store.old store.new }
    ensures fault { TellsFault D.meaning store.old store.new (pool_answer result) }
    ensures own { ReadsData result }
    ensures gives { (image : Image) → Tells D.meaning store.old.disk image
        → MayTell (S.state_of states.now) live.now (shown store.old.dirty image) table.now key.now
        (option_copied candidates.entry) → MatchResult result
        (IsRowAt (S.state_of states.now) live.now t (shown store.old.dirty image) table.now key.now)
        (RefusesRowAt D.meaning store.new (shown store.old.dirty image)
        (S.state_of states.now) live.now t table.now key.now) }
{
    let rec = speaker_at(store, table, key, states, live, candidates)?;
    let row = row_seen(store, table, rec, states, live, t)?;
    Ok(RowAt { rec, row })
}

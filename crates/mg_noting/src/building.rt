//! A directory of keys is made by one pass over the records of a table.

ghost use Rattle.std.specs.Bool.{OnTrue};
ghost use Rattle.std.specs.Prelude.{◌≡◌, ◌≤◌, [], None, MatchResult, length};
ghost use Rattle.mg_base.specs.Image.{Image};
ghost use Rattle.mg_directory.specs.CandidateLaws.{HasAllOf};
ghost use Rattle.mg_directory.specs.Candidates.{IsCandidate, under};
ghost use Rattle.mg_heap.specs.Reading.{ReadsData};
ghost use Rattle.mg_pool.specs.Fault.{TellsFault};
ghost use Rattle.mg_pool.specs.Pool.{IsPool, shown};
ghost use Rattle.mg_sortkey.specs.KeyBytes.{key_bytes as bytes_of_key};
ghost use Rattle.mg_space.specs.Taking.{IsGeometry};
ghost use Rattle.mg_space.specs.View.{KeepsStore, Tells, pool_answer};
ghost use Rattle.mg_seek.specs.Refusals.{RefusesRecord};
ghost use Rattle.mg_seek.specs.Speaking.{RefusesRecords};
ghost use Rattle.mg_seek.specs.Versions.{wants};
ghost use Rattle.mg_noting.specs.Building.{IsBuilt, IsUnderItsKey};

use mg_base::{Disk, RecId};
use mg_chain::States;
use mg_directory::Directory;
use mg_model::Table;
use mg_pool::Batch;
use mg_seek::{Wanted, record_key};
use mg_snap::Live;
use mg_sortkey::key_bytes;
use mg_space::{SpaceFault, Store};
use mg_value::{MOST_COLUMNS, Value};
use std::alloc::Global;

/// Notes each of some records of a table under its key, and tells whether all are noted: they are not
/// for want of memory, or of room in the directory.
///
/// # Errors
///
/// As `record_key` of mg_seek, at one of the records.
pub(crate) fn note_records<D: Disk, S: States>(
    store: &mut Store<D>,
    table: &Table,
    records: &[RecId],
    states: &S,
    live: &Live,
    dir: &mut Directory,
) -> Result<bool, SpaceFault>
    requires pool { IsPool D.meaning store.old }
    requires geometry { IsGeometry store.old.geometry }
    requires online { store.old.offline ≡ None }
    requires columns { length table.now.shape.columns ≤ MOST_COLUMNS }

    ensures keeps { KeepsStore D.meaning store.old store.new }
    ensures fault { TellsFault D.meaning store.old store.new (pool_answer result) }
    ensures own { ReadsData result }
    ensures table { dir.new.first ≡ dir.old.first }
    ensures more { HasAllOf (under dir.old) (under dir.new) }
    ensures notes { (image : Image) → Tells D.meaning store.old.disk image → MatchResult result
        (λ all. OnTrue all (IsBuilt (S.state_of states.now) live.now (shown store.old.dirty image)
        table.now records.now (under dir.new)))
        (RefusesRecords D.meaning store.new [] (shown store.old.dirty image)
        (wants (S.state_of states.now) live.now Wanted.Any) table.now records.now) }
{
    let mut rest = records;
    while let Some((rec, later)) = rest.split_first() {
        let noted = note_record(store, table, *rec, states, live, dir)?;
        if !noted {
            return Ok(false);
        }
        rest = later;
    }
    Ok(true)
}

/// Notes a record of a table under its key, and tells whether it is noted. A slot that is none of a
/// record has no key, and is passed over.
///
/// # Errors
///
/// As `record_key` of mg_seek.
fn note_record<D: Disk, S: States>(
    store: &mut Store<D>,
    table: &Table,
    rec: RecId,
    states: &S,
    live: &Live,
    dir: &mut Directory,
) -> Result<bool, SpaceFault>
    requires pool { IsPool D.meaning store.old }
    requires geometry { IsGeometry store.old.geometry }
    requires columns { length table.now.shape.columns ≤ MOST_COLUMNS }

    ensures keeps { KeepsStore D.meaning store.old store.new }
    ensures fault { TellsFault D.meaning store.old store.new (pool_answer result) }
    ensures own { ReadsData result }
    ensures table { dir.new.first ≡ dir.old.first }
    ensures more { HasAllOf (under dir.old) (under dir.new) }
    ensures notes { (image : Image) → Tells D.meaning store.old.disk image → MatchResult result
        (λ noted. OnTrue noted (IsUnderItsKey (S.state_of states.now) live.now
        (shown store.old.dirty image) table.now (under dir.new) rec))
        (RefusesRecord D.meaning store.new [] (shown store.old.dirty image)
        (wants (S.state_of states.now) live.now Wanted.Any) table.now rec) }
{
    let batch = Batch::new(store.alloc());
    let Some(key) = record_key(store, &batch, table, rec, states, live)? else {
        return Ok(true);
    };
    Ok(note_key(store.alloc(), dir, &key, rec))
}

/// Notes a record under a key, and tells whether it is noted.
fn note_key(alloc: Global, dir: &mut Directory, key: &Value, rec: RecId) -> bool
    ensures table { dir.new.first ≡ dir.old.first }
    ensures more { HasAllOf (under dir.old) (under dir.new) }
    ensures notes { OnTrue result (IsCandidate (under dir.new (bytes_of_key key.now)) rec) }
{
    let mut bytes = Vec::new(alloc);
    match key_bytes(key, &mut bytes) {
        Ok(()) => {}
        Err(_) => return false,
    }
    match dir.note(&bytes, rec) {
        Ok(()) => true,
        Err(_) => false,
    }
}

//! A table's directory is made and kept.

ghost use Rattle.std.specs.Prelude.{◌≡◌, ◌≤◌, ◌<◌, [], Some, None, IfSome, MatchResult, OnErr, length, if◌then◌else◌};
ghost use Rattle.mg_base.specs.Image.{Image};
ghost use Rattle.mg_directory.specs.Candidates.{IsStarted, MarksFor};
ghost use Rattle.mg_heap.specs.Reading.{ReadsData};
ghost use Rattle.mg_pool.specs.Fault.{TellsFault};
ghost use Rattle.mg_pool.specs.Pool.{IsPool, shown};
ghost use Rattle.mg_space.specs.Taking.{IsGeometry};
ghost use Rattle.mg_space.specs.View.{KeepsStore, Tells, pool_answer};
ghost use Rattle.mg_seek.specs.Speaking.{RefusesTableRows};
ghost use Rattle.mg_seek.specs.Versions.{wants};
ghost use Rattle.mg_noting.specs.Making.{Fills, Forgives, KeepsIf, Makes, RefusesMaking};

use crate::building::note_records;
use mg_base::{Disk, GREATEST_LIMIT, PageNo};
use mg_chain::States;
use mg_directory::{Directories, Directory};
use mg_model::Table;
use mg_pool::{Batch, PoolFault};
use mg_seek::{Wanted, table_records};
use mg_snap::Live;
use mg_space::{SpaceFault, Store};
use mg_value::MOST_COLUMNS;
use std::alloc::Global;

/// Makes the directory of a table, if it has none and is not known to have too many records: each of
/// its records is noted under its key. For want of memory it has none afterwards either, and nothing
/// is told of that.
///
/// # Errors
///
/// As `table_records` of mg_seek, and as `record_key`, at one of the records; but not `Memory`. Then no
/// directory has changed.
pub fn make_directory<D: Disk, S: States>(
    store: &mut Store<D>,
    table: &Table,
    states: &S,
    live: &Live,
    directories: &mut Directories,
) -> Result<(), SpaceFault>
    requires pool { IsPool D.meaning store.old }
    requires geometry { IsGeometry store.old.geometry }
    requires online { store.old.offline ≡ None }
    requires columns { length table.now.shape.columns ≤ MOST_COLUMNS }
    requires pointer { table.now.pointer.0 < GREATEST_LIMIT }

    ensures keeps { KeepsStore D.meaning store.old store.new }
    ensures fault { TellsFault D.meaning store.old store.new (pool_answer result) }
    ensures own { ReadsData result }
    ensures same { OnErr result (directories.new ≡ directories.old) }
    ensures makes { (image : Image) → Tells D.meaning store.old.disk image → MatchResult result
        (λ _. Makes (S.state_of states.now) live.now (shown store.old.dirty image) table.now
        directories.old directories.new)
        (RefusesMaking D.meaning store.new (shown store.old.dirty image)
        (wants (S.state_of states.now) live.now Wanted.Any) table.now) }
{
    if !directories.may_start(table.pointer) {
        return Ok(());
    }
    match filled(store, table, states, live, directories) {
        Ok(dir) => {
            keep_made(directories, dir);
            Ok(())
        }
        Err(fault) => forgiven(fault),
    }
}

/// Keeps a directory, if one was made.
fn keep_made(directories: &mut Directories, made: Option<Directory>)
    ensures { KeepsIf directories.old directories.new made }
{
    match made {
        None => {}
        Some(dir) => directories.keep(dir),
    }
}

/// Want of memory is forgiven.
fn forgiven(fault: SpaceFault) -> Result<(), SpaceFault>
    ensures { Forgives fault result }
{
    match fault {
        SpaceFault::Pool(PoolFault::Memory) => Ok(()),
        other => Err(other),
    }
}

/// A directory with each record of a table under its key. None for want of memory, and where the table
/// has too many records.
///
/// # Errors
///
/// As `table_records` of mg_seek, and as `record_key`, at one of the records.
fn filled<D: Disk, S: States>(
    store: &mut Store<D>,
    table: &Table,
    states: &S,
    live: &Live,
    directories: &mut Directories,
) -> Result<Option<Directory>, SpaceFault>
    requires pool { IsPool D.meaning store.old }
    requires geometry { IsGeometry store.old.geometry }
    requires online { store.old.offline ≡ None }
    requires columns { length table.now.shape.columns ≤ MOST_COLUMNS }
    requires pointer { table.now.pointer.0 < GREATEST_LIMIT }

    ensures keeps { KeepsStore D.meaning store.old store.new }
    ensures fault { TellsFault D.meaning store.old store.new (pool_answer result) }
    ensures own { ReadsData result }
    ensures same { OnErr result (directories.new ≡ directories.old) }
    ensures fills { (image : Image) → Tells D.meaning store.old.disk image → MatchResult result
        (Fills (S.state_of states.now) live.now (shown store.old.dirty image) table.now
        directories.old directories.new)
        (RefusesTableRows D.meaning store.new [] (shown store.old.dirty image)
        (wants (S.state_of states.now) live.now Wanted.Any) table.now) }
{
    let batch = Batch::new(store.alloc());
    let records = table_records(store, &batch, table.pointer)?;
    let started = start_for(directories, store.alloc(), table.pointer, records.len());
    let Some(mut dir) = started else {
        return Ok(None);
    };
    let all = note_records(store, table, &records, states, live, &mut dir)?;
    Ok(taken_if(all, dir))
}

/// A directory for a table of so many records, which are not noted yet. None for want of memory, and
/// where they are too many.
fn start_for(
    directories: &mut Directories,
    alloc: Global,
    first: PageNo,
    rows: usize,
) -> Option<Directory>
    ensures dirs { directories.new.dirs ≡ directories.old.dirs }
    ensures marks { MarksFor (directories.old.most < rows) directories.old directories.new first.0 }
    ensures starts { IfSome result (λ dir. IsStarted first.0 rows dir
        × (directories.new ≡ directories.old)) }
{
    match directories.start(alloc, first, rows) {
        Ok(started) => started,
        Err(_) => None,
    }
}

/// A directory, where it has all records.
fn taken_if(all: bool, dir: Directory) -> Option<Directory>
    ensures { result ≡ (if all then Some dir else None) }
{
    if all { Some(dir) } else { None }
}

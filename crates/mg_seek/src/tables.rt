//! The rows that a transaction sees of a table, and the tables that its catalog names.

ghost use Rattle.std.specs.Prelude.{◌≡◌, ◌≤◌, ◌<◌, ◌↔◌, None, IsTrue, MatchResult, length};
ghost use Rattle.mg_base.specs.Image.{Image};
ghost use Rattle.mg_chain.specs.Refusals.{damage};
ghost use Rattle.mg_heap.specs.Reading.{ReadsData};
ghost use Rattle.mg_pool.specs.Fault.{TellsFault};
ghost use Rattle.mg_pool.specs.Pool.{IsPool};
ghost use Rattle.mg_space.specs.Taking.{IsGeometry};
ghost use Rattle.mg_space.specs.View.{AreWhole, KeepsStore, Tells, pool_answer, viewed};
ghost use Rattle.mg_seek.specs.Refusals.{RefusesRecord};
ghost use Rattle.mg_seek.specs.Speaking.{RefusesRecords, RefusesTableRows};
ghost use Rattle.mg_seek.specs.TableRows.{AddsSeen, AreRowsSeen, AreSeen, FindsNamed, IsTableSeen, NamesTable, RefusesTable, RefusesTables};
ghost use Rattle.mg_seek.specs.Versions.{wants};

use crate::listing::table_records;
use crate::views::row_in_view;
use crate::whose::Wanted;
use mg_base::{Damaged, Disk, Field, GREATEST_LIMIT, PageNo, RecId, TxNo};
use mg_catalog::{CatFault, tables_of};
use mg_chain::States;
use mg_model::Table;
use mg_pool::{Batch, PoolFault};
use mg_snap::Live;
use mg_space::{SpaceFault, Store};
use mg_value::{MOST_COLUMNS, Row};
use std::alloc::Global;

/// The rows that t sees of a table, in the order of its records, as they are stored: those of the catalog
/// name pages.
///
/// # Errors
///
/// As `table_records`; and as `row_in_view`, of each record.
pub fn rows_in_view<D: Disk, S: States>(
    store: &mut Store<D>,
    batch: &Batch,
    table: &Table,
    states: &S,
    live: &Live,
    t: TxNo,
) -> Result<Vec<Row>, SpaceFault>
    requires pool { IsPool D.meaning store.old }
    requires geometry { IsGeometry store.old.geometry }
    requires whole { AreWhole store.old.geometry batch.now.pages }
    requires columns { length table.now.shape.columns ≤ MOST_COLUMNS }
    requires pointer { table.now.pointer.0 < GREATEST_LIMIT }

    ensures keeps { KeepsStore D.meaning store.old store.new }
    ensures fault { TellsFault D.meaning store.old store.new (pool_answer result) }
    ensures own { ReadsData result }
    ensures gives { (image : Image) → Tells D.meaning store.old.disk image → MatchResult result
        (λ rows. AreRowsSeen (S.state_of states.now) live.now t (viewed store.old image batch.now)
        table.now rows.items)
        (RefusesTableRows D.meaning store.new batch.now.pages
        (viewed store.old image batch.now) (wants (S.state_of states.now) live.now (Wanted.SeenBy t))
        table.now) }
{
    let records = table_records(store, batch, table.pointer)?;
    rows_among(store, batch, table, states, live, t, &records)
}

/// The rows that t sees of some records of a table.
fn rows_among<D: Disk, S: States>(
    store: &mut Store<D>,
    batch: &Batch,
    table: &Table,
    states: &S,
    live: &Live,
    t: TxNo,
    records: &[RecId],
) -> Result<Vec<Row>, SpaceFault>
    requires pool { IsPool D.meaning store.old }
    requires geometry { IsGeometry store.old.geometry }
    requires whole { AreWhole store.old.geometry batch.now.pages }
    requires columns { length table.now.shape.columns ≤ MOST_COLUMNS }
    requires online { store.old.offline ≡ None }

    ensures keeps { KeepsStore D.meaning store.old store.new }
    ensures fault { TellsFault D.meaning store.old store.new (pool_answer result) }
    ensures own { ReadsData result }
    ensures gives { (image : Image) → Tells D.meaning store.old.disk image → MatchResult result
        (λ rows. AreSeen (S.state_of states.now) live.now t (viewed store.old image batch.now)
        table.now records.now rows.items)
        (RefusesRecords D.meaning store.new batch.now.pages
        (viewed store.old image batch.now) (wants (S.state_of states.now) live.now (Wanted.SeenBy t))
        table.now records.now) }
{
    let mut rows = Vec::new(store.alloc());
    let mut rest = records;
    while let Some((rec, later)) = rest.split_first() {
        add_row(store, batch, table, *rec, states, live, t, &mut rows)?;
        rest = later;
    }
    Ok(rows)
}

/// Appends the row that t sees of a record, if it sees one.
fn add_row<D: Disk, S: States>(
    store: &mut Store<D>,
    batch: &Batch,
    table: &Table,
    rec: RecId,
    states: &S,
    live: &Live,
    t: TxNo,
    rows: &mut Vec<Row>,
) -> Result<(), SpaceFault>
    requires pool { IsPool D.meaning store.old }
    requires geometry { IsGeometry store.old.geometry }
    requires whole { AreWhole store.old.geometry batch.now.pages }
    requires columns { length table.now.shape.columns ≤ MOST_COLUMNS }

    ensures keeps { KeepsStore D.meaning store.old store.new }
    ensures fault { TellsFault D.meaning store.old store.new (pool_answer result) }
    ensures own { ReadsData result }
    ensures gives { (image : Image) → Tells D.meaning store.old.disk image → MatchResult result
        (λ done. AddsSeen (S.state_of states.now) live.now t (viewed store.old image batch.now)
        table.now rec rows.old.items rows.new.items)
        (RefusesRecord D.meaning store.new batch.now.pages
        (viewed store.old image batch.now) (wants (S.state_of states.now) live.now (Wanted.SeenBy t))
        table.now rec) }
{
    let Some(row) = row_in_view(store, batch, table, rec, states, live, t)? else {
        return Ok(());
    };
    rows.push(row)?;
    Ok(())
}

/// The table of a name that t sees, by the rows of the catalog that it sees. None exactly where it sees
/// none.
///
/// # Errors
///
/// As `rows_in_view`, of the catalog. `Damaged` at `Catalog`, under the catalog's first pointer page,
/// where its rows name no tables: found is the number of the first row that is not lawful, in the order
/// of the records, wanted how many rows there are. `Pool` with `Memory`, also where they are 2^31 or more.
pub fn table_named<D: Disk, S: States>(
    store: &mut Store<D>,
    batch: &Batch,
    catalog: &Table,
    name: &[u8],
    states: &S,
    live: &Live,
    t: TxNo,
) -> Result<Option<Table>, SpaceFault>
    requires pool { IsPool D.meaning store.old }
    requires geometry { IsGeometry store.old.geometry }
    requires whole { AreWhole store.old.geometry batch.now.pages }
    requires columns { length catalog.now.shape.columns ≤ MOST_COLUMNS }
    requires pointer { catalog.now.pointer.0 < GREATEST_LIMIT }

    ensures keeps { KeepsStore D.meaning store.old store.new }
    ensures fault { TellsFault D.meaning store.old store.new (pool_answer result) }
    ensures own { ReadsData result }
    ensures gives { (image : Image) → Tells D.meaning store.old.disk image → MatchResult result
        (IsTableSeen (S.state_of states.now) live.now t (viewed store.old image batch.now) catalog.now
        name.now)
        (RefusesTable D.meaning store.new batch.now.pages
        (S.state_of states.now) live.now t (viewed store.old image batch.now) catalog.now) }
{
    let rows = rows_in_view(store, batch, catalog, states, live, t)?;
    Ok(table_in(store.alloc(), catalog.pointer, &rows, name)?)
}

/// The table of a name among those that rows name.
fn table_in(
    alloc: Global,
    page: PageNo,
    rows: &[Row],
    name: &[u8],
) -> Result<Option<Table>, SpaceFault>
    ensures { MatchResult result (NamesTable rows.now name.now) (RefusesTables page.0 rows.now) }
{
    match tables_of(alloc, rows) {
        Ok(tables) => Ok(find_named(tables, name)),
        Err(CatFault::Memory) => Err(SpaceFault::Pool(PoolFault::Memory)),
        Err(CatFault::BadTable { at }) => {
            Err(SpaceFault::Damaged(catalog_damage(page, at, rows.len())))
        }
    }
}

/// The first table of a name.
fn find_named(tables: Vec<Table>, name: &[u8]) -> Option<Table>
    ensures { FindsNamed tables.items name.now result }
{
    for table in tables {
        if has_name(&table, name) {
            return Some(table);
        }
    }
    None
}

/// Tells whether a table has a name.
fn has_name(table: &Table, name: &[u8]) -> bool
    ensures { IsTrue result ↔ (table.now.name ≡ name.now) }
{
    table.name.as_slice() == name
}

/// Rows of a catalog that name no tables.
fn catalog_damage(page: PageNo, at: usize, len: usize) -> Damaged
    ensures { result ≡ damage page.0 Field.Catalog at len }
{
    Damaged {
        page,
        field: Field::Catalog,
        found: at as u64,
        wanted: len as u64,
    }
}

//! The tables that committed rows of the catalog name.

ghost use Rattle.std.specs.Prelude.{◌≡◌, ◌≤◌, ◌<◌, [], None, MatchResult, IfOk, length};
ghost use Rattle.mg_base.specs.Image.{Image};
ghost use Rattle.mg_catalog.specs.ByKey.{by_key};
ghost use Rattle.mg_chain.specs.Refusals.{damage};
ghost use Rattle.mg_heap.specs.Reading.{ReadsData};
ghost use Rattle.mg_model.specs.CatalogRules.{AreTables};
ghost use Rattle.mg_pool.specs.Fault.{TellsFault};
ghost use Rattle.mg_pool.specs.Pool.{IsPool, shown};
ghost use Rattle.mg_seek.specs.Speaking.{RefusesTableRows};
ghost use Rattle.mg_seek.specs.TableRows.{AreRowsSeen, RefusesTables};
ghost use Rattle.mg_seek.specs.Versions.{wants};
ghost use Rattle.mg_seek.specs.declared.whose.Wanted.TheVariants.{SeenBy};
ghost use Rattle.mg_space.specs.Taking.{IsGeometry};
ghost use Rattle.mg_space.specs.View.{KeepsStore, Tells, pool_answer};
ghost use Rattle.mg_core_collecting.specs.Every.{FindsCommitted, UnnamedTables, system_base, the_system};

use mg_base::{Damaged, Disk, Field, GREATEST_LIMIT, Memory, PageNo, TxNo};
use mg_catalog::{CatFault, tables_of};
use mg_chain::States;
use mg_model::Table;
use mg_pool::{Batch, PoolFault};
use mg_seek::rows_in_view;
use mg_snap::Live;
use mg_space::{SpaceFault, Store};
use mg_value::{MOST_COLUMNS, Row};
use std::alloc::Global;

/// What the system's transaction, number 0, sees while nobody else is live: each number below the next one has ended. It is
/// always committed and writes nothing, so by this it sees what is committed.
///
/// # Errors
///
/// `Memory` only.
pub(crate) fn system_live(alloc: Global, next: TxNo) -> Result<Live, Memory>
    ensures { IfOk result (λ live. live ≡ system_base next.0) }
{
    let mut live = Live::new(alloc, next);
    live.enter(TxNo(0))?;
    Ok(live)
}

/// The rows of a catalog that somebody sees.
///
/// # Errors
///
/// As `rows_in_view` of mg_seek.
fn rows_seen<D: Disk, S: States>(
    store: &mut Store<D>,
    catalog: &Table,
    states: &S,
    view: &Live,
) -> Result<Vec<Row>, SpaceFault>
    requires pool { IsPool D.meaning store.old }
    requires geometry { IsGeometry store.old.geometry }
    requires columns { length catalog.now.shape.columns ≤ MOST_COLUMNS }
    requires pointer { catalog.now.pointer.0 < GREATEST_LIMIT }

    ensures keeps { KeepsStore D.meaning store.old store.new }
    ensures fault { TellsFault D.meaning store.old store.new (pool_answer result) }
    ensures own { ReadsData result }
    ensures gives { (image : Image) → Tells D.meaning store.old.disk image → MatchResult result
        (λ rows. AreRowsSeen (S.state_of states.now) view.now the_system (shown store.old.dirty image) catalog.now
        rows.items)
        (RefusesTableRows D.meaning store.new [] (shown store.old.dirty image)
        (wants (S.state_of states.now) view.now (SeenBy the_system)) catalog.now) }
{
    let batch = Batch::new(store.alloc());
    rows_in_view(store, &batch, catalog, states, view, TxNo(0))
}

/// The tables that the rows of a catalog name which somebody sees.
///
/// # Errors
///
/// As `rows_in_view` of mg_seek. `Damaged` at `Catalog`, under the catalog's first pointer page, where its rows name no
/// tables: found is the number of the first row that is not lawful, wanted how many rows there are. `Pool` with `Memory`.
pub(crate) fn tables_seen<D: Disk, S: States>(
    store: &mut Store<D>,
    catalog: &Table,
    states: &S,
    view: &Live,
) -> Result<Vec<Table>, SpaceFault>
    requires pool { IsPool D.meaning store.old }
    requires geometry { IsGeometry store.old.geometry }
    requires columns { length catalog.now.shape.columns ≤ MOST_COLUMNS }
    requires pointer { catalog.now.pointer.0 < GREATEST_LIMIT }

    ensures pool { IsPool D.meaning store.new }
    ensures geometry { store.new.geometry ≡ store.old.geometry }
    ensures finds { MatchResult result
        (λ tables. FindsCommitted D.meaning store.old store.new (S.state_of states.now) view.now catalog.now
        tables.items)
        (UnnamedTables D.meaning store.old store.new (S.state_of states.now) view.now catalog.now) }
{
    let rows = rows_seen(store, catalog, states, view)?;
    tables_among(store.alloc(), catalog.pointer, &rows)
}

/// The tables that rows of a catalog name. `page` is the catalog's first pointer page.
///
/// # Errors
///
/// As `tables_of` of mg_catalog.
fn tables_among(alloc: Global, page: PageNo, rows: &[Row]) -> Result<Vec<Table>, SpaceFault>
    ensures { MatchResult result (λ tables. AreTables (by_key rows.now) tables.items) (RefusesTables page.0 rows.now) }
{
    match tables_of(alloc, rows) {
        Ok(tables) => Ok(tables),
        Err(CatFault::Memory) => Err(SpaceFault::Pool(PoolFault::Memory)),
        Err(CatFault::BadTable { at }) => {
            Err(SpaceFault::Damaged(rows_damage(page, at, rows.len())))
        }
    }
}

/// Rows of a catalog that name no tables.
fn rows_damage(page: PageNo, at: usize, len: usize) -> Damaged
    ensures { result ≡ damage page.0 Field.Catalog at len }
{
    Damaged {
        page,
        field: Field::Catalog,
        found: at as u64,
        wanted: len as u64,
    }
}

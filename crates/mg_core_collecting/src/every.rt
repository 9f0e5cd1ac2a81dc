//! Every record of the committed tables is collected.

ghost use Rattle.std.specs.Prelude.{◌≡◌, ◌≤◌, ◌<◌, None, MatchResult, length};
ghost use Rattle.mg_core.specs.Cores.{IsCore};
ghost use Rattle.mg_pool.specs.Pool.{IsPool};
ghost use Rattle.mg_space.specs.Taking.{IsGeometry};
ghost use Rattle.mg_txlist.specs.TxList.{next_said};
ghost use Rattle.mg_core_collecting.specs.Every.{CollectsCommitted, CollectsEvery, CollectsListed, CollectsTable, FailsCommitted, FailsListed, FailsTable, GoesThrough, IsStray, RefusesAll, StopsAt, CollectsOne, system_base};

use crate::committed::{system_live, tables_seen};
use crate::settled::is_settled;
use mg_base::{Damaged, Disk, Field, GREATEST_LIMIT, PageNo, RecId};
use mg_chain::States;
use mg_collecting::collect_record;
use mg_core::{Core, StatesOf, offline_refusal};
use mg_model::{Refusal, Table};
use mg_pool::Batch;
use mg_seek::table_records;
use mg_snap::Live;
use mg_space::{SpaceFault, Store};
use mg_value::MOST_COLUMNS;

/// Collects each record of each table that a committed row of the catalog names: of one that has something settled, what
/// nobody needs of its versions goes, each in a batch of its own.
///
/// It is no event. No page is taken. Memory is held for the tables, and for the records of one table.
///
/// # Errors
///
/// `Offline` exactly where a page write has failed before; `DiskRead`, `Damaged` and `Memory` as the catalog and the
/// records are read, `Damaged` at `Link`, under the catalog's first pointer page, where a table begins at a page that is no
/// part of a database; `DiskWrite` where a batch has pages written out before it. What has gone by then stays gone.
pub fn collect_every<D: Disk>(core: &mut Core<D>) -> Result<(), Refusal>
    requires core { IsCore D.meaning core.old }
    ensures core { IsCore D.meaning core.new }
    ensures collects { CollectsEvery D.meaning core.old core.new result }
{
    let view = match ready_base(core) {
        Ok(view) => view,
        Err(refusal) => return Err(refusal),
    };
    let states = StatesOf::new(&core.list);
    match collect_committed(&mut core.store, &core.catalog, &states, &core.live, &view) {
        Ok(()) => Ok(()),
        Err(fault) => Err(core.refuse(fault)),
    }
}

/// What the system's transaction sees, where no page write has failed.
///
/// # Errors
///
/// `Offline` exactly where one has; `Memory`.
fn ready_base<D: Disk>(core: &Core<D>) -> Result<Live, Refusal>
    requires { IsCore D.meaning core.now }
    ensures { MatchResult result
        (λ view. (core.now.store.offline ≡ None) × (view ≡ system_base (next_said core.now.list)))
        (RefusesAll core.now) }
{
    match core.store.online() {
        Ok(()) => {}
        Err(fault) => return Err(offline_refusal(fault)),
    }
    match system_live(core.store.alloc(), core.list.next()) {
        Ok(view) => Ok(view),
        Err(_) => Err(Refusal::Memory),
    }
}

/// Collects the tables that the rows of a catalog name which somebody sees.
///
/// # Errors
///
/// As `tables_seen`, and as `collect_table`, of one of them.
fn collect_committed<D: Disk, S: States>(
    store: &mut Store<D>,
    catalog: &Table,
    states: &S,
    live: &Live,
    view: &Live,
) -> Result<(), SpaceFault>
    requires pool { IsPool D.meaning store.old }
    requires geometry { IsGeometry store.old.geometry }
    requires columns { length catalog.now.shape.columns ≤ MOST_COLUMNS }
    requires pointer { catalog.now.pointer.0 < GREATEST_LIMIT }

    ensures pool { IsPool D.meaning store.new }
    ensures geometry { store.new.geometry ≡ store.old.geometry }
    ensures collects { MatchResult result
        (λ done. CollectsCommitted D.meaning store.old store.new (S.state_of states.now) live.now view.now catalog.now)
        (FailsCommitted D.meaning store.old store.new (S.state_of states.now) live.now view.now catalog.now) }
{
    let tables = tables_seen(store, catalog, states, view)?;
    collect_tables(store, catalog.pointer, &tables, states, live)
}

/// Collects some tables, one after another. `catalog` is the catalog's first pointer page.
///
/// # Errors
///
/// As `collect_table`, of the first that is not collected to the end.
fn collect_tables<D: Disk, S: States>(
    store: &mut Store<D>,
    catalog: PageNo,
    tables: &[Table],
    states: &S,
    live: &Live,
) -> Result<(), SpaceFault>
    requires pool { IsPool D.meaning store.old }
    requires geometry { IsGeometry store.old.geometry }

    ensures pool { IsPool D.meaning store.new }
    ensures geometry { store.new.geometry ≡ store.old.geometry }
    ensures collects { MatchResult result
        (λ done. GoesThrough (CollectsTable D.meaning (S.state_of states.now) live.now) store.old tables.now store.new)
        (StopsAt (CollectsTable D.meaning (S.state_of states.now) live.now)
        (FailsTable D.meaning (S.state_of states.now) live.now catalog.0) store.old tables.now store.new) }
{
    let mut rest = tables;
    while let Some((table, later)) = rest.split_first() {
        collect_table(store, catalog, table, states, live)?;
        rest = later;
    }
    Ok(())
}

/// Collects the records of a table. `catalog` is the catalog's first pointer page.
///
/// # Errors
///
/// `Damaged` at `Link`, under the catalog's first pointer page, where the table begins at a page that is no part of a
/// database; as `table_records` of mg_seek; and as `collect_listed`, of the first record that is not collected to the end.
fn collect_table<D: Disk, S: States>(
    store: &mut Store<D>,
    catalog: PageNo,
    table: &Table,
    states: &S,
    live: &Live,
) -> Result<(), SpaceFault>
    requires pool { IsPool D.meaning store.old }
    requires geometry { IsGeometry store.old.geometry }

    ensures pool { IsPool D.meaning store.new }
    ensures geometry { store.new.geometry ≡ store.old.geometry }
    ensures collects { MatchResult result
        (λ done. CollectsTable D.meaning (S.state_of states.now) live.now table.now store.old store.new)
        (FailsTable D.meaning (S.state_of states.now) live.now catalog.0 table.now store.old store.new) }
{
    begins_within(catalog, table.pointer)?;
    let batch = Batch::new(store.alloc());
    let records = table_records(store, &batch, table.pointer)?;
    collect_records(store, &records, states, live)
}

/// Whether a table begins at a page that a database may have.
///
/// # Errors
///
/// `Damaged` at `Link`, under the catalog's first pointer page, exactly where it does not: found is its first page.
fn begins_within(catalog: PageNo, pointer: PageNo) -> Result<(), SpaceFault>
    ensures { MatchResult result (λ done. pointer.0 < GREATEST_LIMIT) (IsStray catalog.0 pointer.0) }
{
    if pointer.0 < GREATEST_LIMIT {
        return Ok(());
    }
    Err(SpaceFault::Damaged(Damaged {
        page: catalog,
        field: Field::Link,
        found: u64::from(pointer.0),
        wanted: u64::from(GREATEST_LIMIT - 1),
    }))
}

/// Collects some records, one after another.
///
/// # Errors
///
/// As `collect_listed`, of the first that is not collected to the end.
fn collect_records<D: Disk, S: States>(
    store: &mut Store<D>,
    records: &[RecId],
    states: &S,
    live: &Live,
) -> Result<(), SpaceFault>
    requires pool { IsPool D.meaning store.old }
    requires geometry { IsGeometry store.old.geometry }

    ensures pool { IsPool D.meaning store.new }
    ensures geometry { store.new.geometry ≡ store.old.geometry }
    ensures collects { MatchResult result
        (λ done. GoesThrough (CollectsOne D.meaning (S.state_of states.now) live.now) store.old records.now store.new)
        (StopsAt (CollectsOne D.meaning (S.state_of states.now) live.now)
        (FailsListed D.meaning (S.state_of states.now) live.now) store.old records.now store.new) }
{
    let mut rest = records;
    while let Some((rec, later)) = rest.split_first() {
        collect_listed(store, *rec, states, live)?;
        rest = later;
    }
    Ok(())
}

/// Collects a record that is listed, where it has something settled; and tells whether something went.
///
/// # Errors
///
/// As `is_settled`, and as `collect_record` of mg_collecting.
fn collect_listed<D: Disk, S: States>(
    store: &mut Store<D>,
    rec: RecId,
    states: &S,
    live: &Live,
) -> Result<bool, SpaceFault>
    requires pool { IsPool D.meaning store.old }
    requires geometry { IsGeometry store.old.geometry }

    ensures pool { IsPool D.meaning store.new }
    ensures geometry { store.new.geometry ≡ store.old.geometry }
    ensures collects { MatchResult result
        (λ gone. CollectsListed D.meaning (S.state_of states.now) live.now rec gone store.old store.new)
        (FailsListed D.meaning (S.state_of states.now) live.now rec store.old store.new) }
{
    let settled = is_settled(store, rec, states)?;
    if !settled {
        return Ok(false);
    }
    collect_record(store, rec, states, live)
}

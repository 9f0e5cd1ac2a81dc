//! Rows of the catalog are put into a batch.

ghost use Rattle.std.specs.Prelude.{◌≡◌, ◌≢◌, ◌<◌, IfOk, MatchResult, None, OnOk};
ghost use Rattle.mg_base.specs.Image.{Image};
ghost use Rattle.mg_pool.specs.Fault.{TellsFault};
ghost use Rattle.mg_pool.specs.Pool.{IsPool};
ghost use Rattle.mg_space.specs.Taking.{IsGeometry};
ghost use Rattle.mg_space.specs.View.{AreWhole, KeepsStore, ReadsAlone, Tells, pool_answer};
ghost use Rattle.mg_row_writes.specs.Storing.{IsStored};
ghost use Rattle.mg_value.specs.Rows.{RowFits};
ghost use Rattle.mg_table_batch.specs.Filling.{PutsRow, PutsRows, StoresRow};
ghost use Rattle.mg_table_batch.specs.Refusals.{RefusesRow, RefusesRows, RefusesStoring};

use mg_base::{Disk, GREATEST_LIMIT, Memory, RecId, TxNo};
use mg_batches::unlawful;
use mg_chain::{first, spot};
use mg_model::Table;
use mg_pool::{Batch, PoolFault};
use mg_records::Write;
use mg_row_writes::{may_be_stored, stored_version};
use mg_space::{SpaceFault, Store};
use mg_value::{Row, row_fits};
use mg_version::Version;
use std::alloc::Global;

/// Puts a row of the catalog, as the first version of a new record, and tells the record.
///
/// # Errors
///
/// As `spot` and `first` of mg_chain; `Memory`; `Damaged` where the row does not fit the catalog, or a page has no room
/// for it, which is so of no row that says a table. The batch may then have a part of the change: the caller drops it.
pub(crate) fn put_row<D: Disk>(
    store: &mut Store<D>,
    batch: &mut Batch,
    catalog: &Table,
    t: TxNo,
    row: &Row,
) -> Result<RecId, SpaceFault>
    requires pool { IsPool D.meaning store.old }
    requires geometry { IsGeometry store.old.geometry }
    requires online { store.old.offline ≡ None }
    requires whole { AreWhole store.old.geometry batch.old.pages }
    requires owner { catalog.now.pointer.0 < GREATEST_LIMIT }
    requires some { catalog.now.pointer.0 ≢ 0 }

    ensures keeps { KeepsStore D.meaning store.old store.new }
    ensures fault { TellsFault D.meaning store.old store.new (pool_answer result) }
    ensures own { ReadsAlone result }
    ensures whole { OnOk result (AreWhole store.old.geometry batch.new.pages) }
    ensures puts { (image : Image) → Tells D.meaning store.old.disk image → MatchResult result
        (PutsRow store.old image catalog.now t.0 batch.old batch.new row.now)
        (RefusesRow D.meaning store.old store.new image catalog.now t.0 batch.old row.now) }
{
    let size = store.geometry().size;
    let version = row_version(store.alloc(), size, catalog, t, row)?;
    let at = spot(store, batch, catalog.pointer)?;
    first(store, batch, catalog.pointer, at, &version)?;
    Ok(at)
}

/// The version that stores a row of the catalog, on pages of `size` bytes.
///
/// # Errors
///
/// `Memory`; `Damaged` where the row does not fit the catalog, or a page has no room for it, which is so of no row that
/// says a table.
fn row_version(
    alloc: Global,
    size: u32,
    catalog: &Table,
    t: TxNo,
    row: &Row,
) -> Result<Version, SpaceFault>
    ensures { MatchResult result (StoresRow size catalog.now t.0 row.now)
        (RefusesStoring size catalog.now t.0 row.now) }
{
    if !row_fits(&catalog.shape, row) {
        return Err(SpaceFault::Damaged(unlawful()));
    }
    match inserted(alloc, catalog, t, row) {
        Ok(version) => lawful(size, catalog, t, row, version),
        Err(_) => Err(SpaceFault::Pool(PoolFault::Memory)),
    }
}

/// A version, if a page has room for it.
fn lawful(
    size: u32,
    catalog: &Table,
    t: TxNo,
    row: &Row,
    version: Version,
) -> Result<Version, SpaceFault>
    requires { IsStored catalog.now t.0 (Write.Insert row.now) version }
    ensures { MatchResult result (StoresRow size catalog.now t.0 row.now)
        (RefusesStoring size catalog.now t.0 row.now) }
{
    if may_be_stored(size, catalog.pointer, &version) {
        return Ok(version);
    }
    Err(SpaceFault::Damaged(unlawful()))
}

/// The version that the insertion of a row stores.
fn inserted(alloc: Global, catalog: &Table, t: TxNo, row: &Row) -> Result<Version, Memory>
    requires { RowFits catalog.now.shape.columns row.now }
    ensures { IfOk result (IsStored catalog.now t.0 (Write.Insert row.now)) }
{
    let write = Write::Insert(row.copy(alloc)?);
    stored_version(alloc, catalog, t, &write)
}

/// Puts rows of the catalog, one after another.
///
/// # Errors
///
/// As `put_row`.
pub(crate) fn put_rows<D: Disk>(
    store: &mut Store<D>,
    batch: &mut Batch,
    catalog: &Table,
    t: TxNo,
    rows: &[Row],
) -> Result<(), SpaceFault>
    requires pool { IsPool D.meaning store.old }
    requires geometry { IsGeometry store.old.geometry }
    requires online { store.old.offline ≡ None }
    requires whole { AreWhole store.old.geometry batch.old.pages }
    requires owner { catalog.now.pointer.0 < GREATEST_LIMIT }
    requires some { catalog.now.pointer.0 ≢ 0 }

    ensures keeps { KeepsStore D.meaning store.old store.new }
    ensures fault { TellsFault D.meaning store.old store.new (pool_answer result) }
    ensures own { ReadsAlone result }
    ensures whole { OnOk result (AreWhole store.old.geometry batch.new.pages) }
    ensures puts { (image : Image) → Tells D.meaning store.old.disk image → MatchResult result
        (λ _. PutsRows store.old image catalog.now t.0 rows.now batch.old batch.new)
        (λ fault. RefusesRows D.meaning store.new image catalog.now t.0 fault rows.now store.old batch.old) }
{
    let mut rest = rows;
    while let Some((row, later)) = rest.split_first() {
        put_row(store, batch, catalog, t, row)?;
        rest = later;
    }
    Ok(())
}

//! A batch is filled with a new table.

ghost use Rattle.std.specs.Prelude.{◌≡◌, ◌≢◌, ◌≤◌, ◌<◌, ◌^◌, MatchResult, None, OnOk, length, true};
ghost use Rattle.mg_base.specs.Geometry.{is_page_size};
ghost use Rattle.mg_base.specs.Image.{Image};
ghost use Rattle.mg_heap.specs.Growth.{AddsOrders, orders_to};
ghost use Rattle.mg_pool.specs.Fault.{TellsFault};
ghost use Rattle.mg_pool.specs.Pool.{IsPool};
ghost use Rattle.mg_space.specs.Taking.{IsGeometry};
ghost use Rattle.mg_space.specs.View.{AreWhole, KeepsStore, ReadsAlone, Tells, pool_answer};
ghost use Rattle.mg_table_batch.specs.Filling.{FillsTable, PutsNaming, PutsTable, page_of_version as version_page};
ghost use Rattle.mg_table_batch.specs.Refusals.{RefusesNaming, RefusesRowsOf, RefusesTable};

use crate::first_page::take_first;
use crate::rows::{put_row, put_rows};
use crate::said::new_rows;
use mg_base::{Disk, GREATEST_LIMIT, Memory, PageNo, RecId, TxNo};
use mg_careful::Order;
use mg_chain::newest_link;
use mg_model::Table;
use mg_pool::Batch;
use mg_space::{SpaceFault, Store, inventory_page_of};
use mg_value::{MOST_COLUMNS, Name, Row, Shape};
use mg_version::Link;

/// Puts a new table into a batch: its first pointer page, its own row of the catalog, and those of its columns.
///
/// # Errors
///
/// As `take_page`, and as `put_row` for each row. The batch may then have a part of the table: the caller drops it.
pub(crate) fn fill<D: Disk>(
    store: &mut Store<D>,
    batch: &mut Batch,
    catalog: &Table,
    t: TxNo,
    name: &Name,
    shape: &Shape,
) -> Result<(), SpaceFault>
    requires pool { IsPool D.meaning store.old }
    requires geometry { IsGeometry store.old.geometry }
    requires whole { AreWhole store.old.geometry batch.old.pages }
    requires owner { catalog.now.pointer.0 < GREATEST_LIMIT }
    requires some { catalog.now.pointer.0 ≢ 0 }
    requires columns { length shape.now.columns ≤ MOST_COLUMNS }

    ensures keeps { KeepsStore D.meaning store.old store.new }
    ensures fault { TellsFault D.meaning store.old store.new (pool_answer result) }
    ensures own { ReadsAlone result }
    ensures whole { OnOk result (AreWhole store.old.geometry batch.new.pages) }
    ensures fills { (image : Image) → Tells D.meaning store.old.disk image → MatchResult result
        (λ _. FillsTable store.old image catalog.now t.0 name.now shape.now batch.old batch.new)
        (RefusesTable D.meaning store.old store.new image catalog.now t.0 name.now shape.now batch.old) }
{
    let page = take_first(store, batch)?;
    let rows = new_rows(store.alloc(), name, shape, page)?;
    put_table(store, batch, catalog, t, &rows, page)
}

/// Puts the rows of a table, the first of which names its first pointer page.
///
/// # Errors
///
/// As `put_naming` and `put_rows`.
fn put_table<D: Disk>(
    store: &mut Store<D>,
    batch: &mut Batch,
    catalog: &Table,
    t: TxNo,
    rows: &[Row],
    page: PageNo,
) -> Result<(), SpaceFault>
    requires pool { IsPool D.meaning store.old }
    requires geometry { IsGeometry store.old.geometry }
    requires online { store.old.offline ≡ None }
    requires whole { AreWhole store.old.geometry batch.old.pages }
    requires owner { catalog.now.pointer.0 < GREATEST_LIMIT }
    requires some { catalog.now.pointer.0 ≢ 0 }
    requires page { page.0 < 2 ^ 31 }

    ensures keeps { KeepsStore D.meaning store.old store.new }
    ensures fault { TellsFault D.meaning store.old store.new (pool_answer result) }
    ensures own { ReadsAlone result }
    ensures whole { OnOk result (AreWhole store.old.geometry batch.new.pages) }
    ensures puts { (image : Image) → Tells D.meaning store.old.disk image → MatchResult result
        (λ _. PutsTable store.old image catalog.now t.0 rows.now page.0 batch.old batch.new)
        (RefusesRowsOf D.meaning store.old store.new image catalog.now t.0 batch.old rows.now) }
{
    let Some((own, columns)) = rows.split_first() else {
        return Ok(());
    };
    put_naming(store, batch, catalog, t, own, page)?;
    put_rows(store, batch, catalog, t, columns)
}

/// Puts a row that names a page, and orders that page before the page that has the row.
///
/// # Errors
///
/// As `put_row`; and as `newest_link` of mg_chain, in the slot where the row was put.
fn put_naming<D: Disk>(
    store: &mut Store<D>,
    batch: &mut Batch,
    catalog: &Table,
    t: TxNo,
    row: &Row,
    page: PageNo,
) -> Result<(), SpaceFault>
    requires pool { IsPool D.meaning store.old }
    requires geometry { IsGeometry store.old.geometry }
    requires online { store.old.offline ≡ None }
    requires whole { AreWhole store.old.geometry batch.old.pages }
    requires owner { catalog.now.pointer.0 < GREATEST_LIMIT }
    requires some { catalog.now.pointer.0 ≢ 0 }
    requires page { page.0 < 2 ^ 31 }

    ensures keeps { KeepsStore D.meaning store.old store.new }
    ensures fault { TellsFault D.meaning store.old store.new (pool_answer result) }
    ensures own { ReadsAlone result }
    ensures whole { OnOk result (AreWhole store.old.geometry batch.new.pages) }
    ensures puts { (image : Image) → Tells D.meaning store.old.disk image → MatchResult result
        (λ _. PutsNaming store.old image catalog.now t.0 batch.old batch.new row.now page.0)
        (RefusesNaming D.meaning store.old store.new image catalog.now t.0 batch.old row.now) }
{
    let at = put_row(store, batch, catalog, t, row)?;
    let link = newest_link(store, batch, at)?;
    order_to(
        batch,
        store.geometry().size,
        page,
        page_of_version(at, link),
    )?;
    Ok(())
}

/// The page on which a record's newest version stands.
fn page_of_version(at: RecId, link: Option<Link>) -> PageNo
    ensures { result.0 ≡ version_page at link }
{
    match link {
        Some(link) => link.rec.page,
        None => at.page,
    }
}

/// Orders a page that was taken, and the inventory page with its bit, before a page that names it.
fn order_to(batch: &mut Batch, size: u32, page: PageNo, later: PageNo) -> Result<(), Memory>
    requires size { is_page_size size ≡ true }
    requires page { page.0 < 2 ^ 31 }
    ensures adds { OnOk result (AddsOrders batch.old batch.new (orders_to size page.0 later.0)) }
    ensures pages { batch.new.pages ≡ batch.old.pages }
{
    let bit = inventory_page_of(size, page);
    // A crash may not leave a row that names a page which is not marked as used, or not made yet.
    batch.order(Order {
        first: bit.0,
        later: later.0,
    })?;
    batch.order(Order {
        first: page.0,
        later: later.0,
    })?;
    Ok(())
}

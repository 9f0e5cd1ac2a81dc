//! The pages of the catalog are read and tested when a database is opened: as pages, and nothing of what stands
//! in them.

ghost use Rattle.std.specs.Prelude.{◌≡◌, ◌<◌, ◌^◌, [], None, IfOk, MatchResult, OnOk, length};
ghost use Rattle.mg_base.specs.Image.{Image};
ghost use Rattle.mg_base.specs.declared.geometry.TheConstants.{GREATEST_LIMIT};
ghost use Rattle.mg_heap.specs.Reading.{ReadsData};
ghost use Rattle.mg_heap.specs.Reads.{ReadsListed};
ghost use Rattle.mg_pool.specs.Fault.{TellsFault};
ghost use Rattle.mg_pool.specs.Pool.{IsPool, shown};
ghost use Rattle.mg_space.specs.Taking.{IsGeometry};
ghost use Rattle.mg_space.specs.View.{AreWhole, KeepsStore, Tells, pool_answer, viewed};
ghost use Rattle.mg_database.specs.Tested.{AreDataPages, IsTested, ReadsTable, RefusesListed, RefusesTested};

use mg_base::{Disk, PageNo};
use mg_heap::{TablePages, table_data_page, table_pages};
use mg_pool::Batch;
use mg_space::{SpaceFault, Store};

/// The pages of a table, which begins with a pointer page: each is read once, and tested at its place. Page 0
/// stands for none.
///
/// # Errors
///
/// `Damaged` at the first pointer page that is missing, or not as wanted at its place in the chain, or that leads
/// where it must not (`Link`); else at the first data page that is missing, or not the owner's at its place.
/// `Pool` with `DiskRead`, `Offline` or `Memory`.
pub(crate) fn check_table<D: Disk>(
    store: &mut Store<D>,
    owner: PageNo,
) -> Result<TablePages, SpaceFault>
    requires pool { IsPool D.meaning store.old }
    requires geometry { IsGeometry store.old.geometry }
    requires owner { owner.0 < GREATEST_LIMIT }

    ensures keeps { KeepsStore D.meaning store.old store.new }
    ensures fault { TellsFault D.meaning store.old store.new (pool_answer result) }
    ensures own { ReadsData result }
    ensures tests { (image : Image) → Tells D.meaning store.old.disk image → MatchResult result
        (λ table. IsTested (shown store.old.dirty image) owner.0 table.pointers.items table.data_pages.items)
        (RefusesTested D.meaning store.new [] (shown store.old.dirty image) owner.0) }
    ensures reads { IfOk result (λ table. ReadsTable D.meaning store.old store.new table.pointers.items
        table.data_pages.items) }
{
    let batch = Batch::new(store.alloc());
    check_pages(store, &batch, owner)
}

/// As `check_table`, as one sees the pages who fills a batch.
fn check_pages<D: Disk>(
    store: &mut Store<D>,
    batch: &Batch,
    owner: PageNo,
) -> Result<TablePages, SpaceFault>
    requires pool { IsPool D.meaning store.old }
    requires geometry { IsGeometry store.old.geometry }
    requires whole { AreWhole store.old.geometry batch.now.pages }
    requires owner { owner.0 < GREATEST_LIMIT }

    ensures keeps { KeepsStore D.meaning store.old store.new }
    ensures fault { TellsFault D.meaning store.old store.new (pool_answer result) }
    ensures own { ReadsData result }
    ensures tests { (image : Image) → Tells D.meaning store.old.disk image → MatchResult result
        (λ table. IsTested (viewed store.old image batch.now) owner.0 table.pointers.items
        table.data_pages.items)
        (RefusesTested D.meaning store.new batch.now.pages (viewed store.old image batch.now) owner.0) }
    ensures reads { IfOk result (λ table. ReadsTable D.meaning store.old store.new table.pointers.items
        table.data_pages.items) }
{
    let table = table_pages(store, batch, owner)?;
    check_data_pages(store, batch, owner, &table.data_pages)?;
    Ok(table)
}

/// Tests the data pages of an owner, in the order of their places.
///
/// # Errors
///
/// As `check_table`, of the data pages.
fn check_data_pages<D: Disk>(
    store: &mut Store<D>,
    batch: &Batch,
    owner: PageNo,
    data_pages: &[u32],
) -> Result<(), SpaceFault>
    requires pool { IsPool D.meaning store.old }
    requires geometry { IsGeometry store.old.geometry }
    requires whole { AreWhole store.old.geometry batch.now.pages }
    requires online { store.old.offline ≡ None }
    requires few { length data_pages.now < 2 ^ 32 }

    ensures keeps { KeepsStore D.meaning store.old store.new }
    ensures fault { TellsFault D.meaning store.old store.new (pool_answer result) }
    ensures own { ReadsData result }
    ensures tests { (image : Image) → Tells D.meaning store.old.disk image → MatchResult result
        (λ done. AreDataPages (viewed store.old image batch.now) owner.0 data_pages.now)
        (RefusesListed D.meaning store.new batch.now.pages (viewed store.old image batch.now) owner.0
        data_pages.now) }
    ensures reads { OnOk result (ReadsListed D.meaning store.old store.new data_pages.now) }
{
    for place in 0..data_pages.len() {
        table_data_page(store, batch, owner, PageNo(data_pages[place]), place as u32)?;
    }
    Ok(())
}

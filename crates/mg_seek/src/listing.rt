//! The records of a table are listed.

ghost use Rattle.std.specs.Prelude.{◌≡◌, ◌<◌, ◌^◌, ◌++◌, None, MatchResult, OnOk, drop, length};
ghost use Rattle.mg_base.specs.Image.{Image};
ghost use Rattle.mg_heap.specs.Reading.{ReadsData};
ghost use Rattle.mg_heap.specs.Walk.{RefusesTableData, RefusesWalk, RefusesWalkOf};
ghost use Rattle.mg_pool.specs.Fault.{TellsFault};
ghost use Rattle.mg_pool.specs.Pool.{IsPool};
ghost use Rattle.mg_slots.specs.DataPage.{IsDataPage};
ghost use Rattle.mg_space.specs.Taking.{IsGeometry};
ghost use Rattle.mg_space.specs.View.{AreWhole, KeepsStore, Tells, pool_answer, viewed};
ghost use Rattle.mg_seek.specs.TableRecords.{AreTableRecords, record_at, records_in, records_on};

use mg_base::{Disk, GREATEST_LIMIT, Memory, PageNo, RecId};
use mg_heap::{hold_table_data, is_primary, table_pages};
use mg_pool::Batch;
use mg_slots::slots;
use mg_space::{SpaceFault, Store, lent};

/// The records of the table that begins with a pointer page, in the order of its data pages and their
/// slots.
///
/// # Errors
///
/// `Damaged` at the first pointer page that is not as wanted, or at the first data page that is not the
/// table's at its place. `Pool` with `DiskRead`, `Offline` or `Memory`.
pub fn table_records<D: Disk>(
    store: &mut Store<D>,
    batch: &Batch,
    owner: PageNo,
) -> Result<Vec<RecId>, SpaceFault>
    requires pool { IsPool D.meaning store.old }
    requires geometry { IsGeometry store.old.geometry }
    requires whole { AreWhole store.old.geometry batch.now.pages }
    requires owner { owner.0 < GREATEST_LIMIT }

    ensures keeps { KeepsStore D.meaning store.old store.new }
    ensures fault { TellsFault D.meaning store.old store.new (pool_answer result) }
    ensures own { ReadsData result }
    ensures gives { (image : Image) → Tells D.meaning store.old.disk image → MatchResult result
        (λ records. AreTableRecords (viewed store.old image batch.now) owner.0 records.items)
        (RefusesWalk D.meaning store.new batch.now.pages (viewed store.old image batch.now)
        owner.0) }
{
    let table = table_pages(store, batch, owner)?;
    page_records(store, batch, owner, &table.data_pages)
}

/// The records of some data pages of a table.
fn page_records<D: Disk>(
    store: &mut Store<D>,
    batch: &Batch,
    owner: PageNo,
    data_pages: &[u32],
) -> Result<Vec<RecId>, SpaceFault>
    requires pool { IsPool D.meaning store.old }
    requires geometry { IsGeometry store.old.geometry }
    requires whole { AreWhole store.old.geometry batch.now.pages }
    requires online { store.old.offline ≡ None }
    requires few { length data_pages.now < 2 ^ 32 }

    ensures keeps { KeepsStore D.meaning store.old store.new }
    ensures fault { TellsFault D.meaning store.old store.new (pool_answer result) }
    ensures own { ReadsData result }
    ensures gives { (image : Image) → Tells D.meaning store.old.disk image → MatchResult result
        (λ records. records.items ≡ records_in (viewed store.old image batch.now) data_pages.now)
        (RefusesWalkOf D.meaning store.new batch.now.pages (viewed store.old image batch.now) owner.0
        data_pages.now) }
{
    let mut records = Vec::new(store.alloc());
    for place in 0..data_pages.len() {
        let n = PageNo(data_pages[place]);
        add_page(store, batch, owner, n, place as u32, &mut records)?;
    }
    Ok(records)
}

/// Appends the records of the data page of an owner at a place.
fn add_page<D: Disk>(
    store: &mut Store<D>,
    batch: &Batch,
    owner: PageNo,
    n: PageNo,
    at: u32,
    records: &mut Vec<RecId>,
) -> Result<(), SpaceFault>
    requires pool { IsPool D.meaning store.old }
    requires geometry { IsGeometry store.old.geometry }
    requires whole { AreWhole store.old.geometry batch.now.pages }

    ensures keeps { KeepsStore D.meaning store.old store.new }
    ensures fault { TellsFault D.meaning store.old store.new (pool_answer result) }
    ensures own { ReadsData result }
    ensures gives { (image : Image) → Tells D.meaning store.old.disk image → MatchResult result
        (λ done. records.new.items ≡ records.old.items
        ++ records_on (viewed store.old image batch.now n.0) n.0)
        (RefusesTableData D.meaning store.new batch.now.pages
        (viewed store.old image batch.now n.0) owner.0 at n) }
{
    hold_table_data(store, batch, owner, n, at)?;
    add_records(lent(store, batch, n), n, records)?;
    Ok(())
}

/// Appends the records of a page.
fn add_records(b: &[u8], page: PageNo, records: &mut Vec<RecId>) -> Result<(), Memory>
    requires { IsDataPage b.now }
    ensures { OnOk result (records.new.items ≡ records.old.items ++ records_on b.now page.0) }
{
    for slot in 0..slots(b) {
        add_record(b, page, slot, records)?;
    }
    Ok(())
}

/// Appends the record of a slot, if the slot is a primary one.
fn add_record(b: &[u8], page: PageNo, slot: u16, records: &mut Vec<RecId>) -> Result<(), Memory>
    requires { IsDataPage b.now }
    ensures { OnOk result
        (records.new.items ≡ records.old.items ++ record_at b.now page.0 slot) }
{
    if !is_primary(b, slot) {
        return Ok(());
    }
    records.push(RecId { page, slot })?;
    Ok(())
}

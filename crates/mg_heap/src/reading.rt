//! A data page is read, and a cell of it.

ghost use Rattle.std.specs.Prelude.{◌≡◌, ◌<◌, ◌≤◌, ◌↔◌, IfErr, IfOk, IfSome, IsOk, MatchResult, OnOk, length};
ghost use Rattle.std.specs.Option.{option_copied};
ghost use Rattle.mg_base.specs.Image.{Image};
ghost use Rattle.mg_pool.specs.Fault.{TellsFault};
ghost use Rattle.mg_pool.specs.Pool.{IsPool};
ghost use Rattle.mg_slots.specs.DataPage.{IsDataPage, cell_of};
ghost use Rattle.mg_space.specs.Taking.{IsGeometry};
ghost use Rattle.mg_space.specs.View.{AreWhole, KeepsStore, Tells, pool_answer, viewed};
ghost use Rattle.mg_heap.specs.Reading.{GivesCell, HoldsData, IsNoData, IsSomeData, ReadsData, RefusesData};

use mg_base::{Bytes, Damaged, Disk, Memory, OWNER_AT, PageNo, RecId, SEQUENCE_AT, get_u32};
use mg_pool::Batch;
use mg_slots::{GREATEST_SIZE, LEAST_SIZE};
use mg_space::{SpaceFault, Store, check_page, hold, lent, passes};
use std::alloc::Global;

/// The cell of a slot, as one sees it who fills a batch: `None` exactly where the slot is free or
/// past the last one of its page.
///
/// The page is tested as the data page of the owner and of the place that it names itself: its
/// kind, flags and number, its slots, and where its cells lie. Whether it belongs to a certain
/// table, and what the cell says, is not tested.
///
/// # Errors
///
/// `Damaged`: at `Presence` where the page is missing, else at the first field by which the page is
/// no data page. `Pool` with `DiskRead`, `Offline` or `Memory`.
pub fn cell<D: Disk>(
    store: &mut Store<D>,
    batch: &Batch,
    at: RecId,
) -> Result<Option<Bytes>, SpaceFault>
    requires pool { IsPool D.meaning store.old }
    requires geometry { IsGeometry store.old.geometry }
    requires whole { AreWhole store.old.geometry batch.now.pages }

    ensures keeps { KeepsStore D.meaning store.old store.new }
    ensures fault { TellsFault D.meaning store.old store.new (pool_answer result) }
    ensures own { ReadsData result }
    ensures len { IfOk result (λ found. IfSome found (λ c. length c ≤ GREATEST_SIZE)) }
    ensures gives { (image : Image) → Tells D.meaning store.old.disk image → MatchResult result
        (GivesCell at (viewed store.old image batch.now at.page.0))
        (RefusesData D.meaning store.new batch.now.pages at.page
        (viewed store.old image batch.now at.page.0)) }
{
    hold_data(store, batch, at.page)?;
    let page = lent(store, batch, at.page);
    Ok(cell_copy(store.alloc(), page, at.slot)?)
}

/// Makes a data page readable: `lent` lends its bytes then. Where the cache's mark says that it is
/// one, its bytes are not looked at.
///
/// # Errors
///
/// As `cell`.
pub fn hold_data<D: Disk>(
    store: &mut Store<D>,
    batch: &Batch,
    page: PageNo,
) -> Result<(), SpaceFault>
    requires pool { IsPool D.meaning store.old }
    requires geometry { IsGeometry store.old.geometry }
    requires whole { AreWhole store.old.geometry batch.now.pages }

    ensures keeps { KeepsStore D.meaning store.old store.new }
    ensures fault { TellsFault D.meaning store.old store.new (pool_answer result) }
    ensures own { ReadsData result }
    ensures held { OnOk result (HoldsData store.new batch.now.pages page) }
    ensures seen { (image : Image) → Tells D.meaning store.old.disk image → IfErr result
        (RefusesData D.meaning store.new batch.now.pages page
        (viewed store.old image batch.now page.0)) }
{
    hold(store, batch, page)?;
    if passes(store, batch, page) {
        return Ok(());
    }
    check_some_data(lent(store, batch, page), page)?;
    Ok(())
}

/// The content of a data page, as one sees it who fills a batch.
///
/// # Errors
///
/// As `cell`.
pub(crate) fn data_page<D: Disk>(
    store: &mut Store<D>,
    batch: &Batch,
    page: PageNo,
) -> Result<Bytes, SpaceFault>
    requires pool { IsPool D.meaning store.old }
    requires geometry { IsGeometry store.old.geometry }
    requires whole { AreWhole store.old.geometry batch.now.pages }

    ensures keeps { KeepsStore D.meaning store.old store.new }
    ensures fault { TellsFault D.meaning store.old store.new (pool_answer result) }
    ensures own { ReadsData result }
    ensures len { IfOk result (λ b. length b ≡ store.old.geometry.size) }
    ensures below { OnOk result (page.0 < store.old.geometry.limit) }
    ensures data_page { IfOk result (IsSomeData page) }
    ensures seen { (image : Image) → Tells D.meaning store.old.disk image → MatchResult result
        (λ b. b ≡ viewed store.old image batch.now page.0)
        (RefusesData D.meaning store.new batch.now.pages page
        (viewed store.old image batch.now page.0)) }
{
    hold_data(store, batch, page)?;
    let bytes = lent(store, batch, page);
    Ok(Bytes::new(Vec::from_slice(store.alloc(), bytes)?))
}

/// Tests whether this is the data page of the owner and of the place that it names.
fn check_some_data(b: &[u8], page: PageNo) -> Result<(), Damaged>
    requires least { LEAST_SIZE ≤ length b.now }
    requires greatest { length b.now ≤ GREATEST_SIZE }
    ensures when { IsOk result ↔ IsSomeData page b.now }
    ensures damaged { IfErr result (IsNoData page b.now) }
{
    check_page(b, page, get_u32(b, OWNER_AT), get_u32(b, SEQUENCE_AT))
}

/// A copy of the cell of a slot.
fn cell_copy(alloc: Global, b: &[u8], slot: u16) -> Result<Option<Bytes>, Memory>
    requires { IsDataPage b.now }
    ensures is_cell { IfOk result (λ found. found ≡ cell_of b.now slot) }
    ensures len { IfOk result (λ found. IfSome found (λ c. length c ≤ length b.now)) }
{
    match mg_slots::cell(b, slot) {
        None => Ok(None),
        Some(bytes) => Ok(Some(Bytes::new(Vec::from_slice(alloc, bytes)?))),
    }
}

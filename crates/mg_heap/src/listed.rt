//! Whether a slot is a record of a table, by the place that its page names itself.

ghost use Rattle.std.specs.Bool.{OnFalse, OnTrue};
ghost use Rattle.std.specs.Prelude.{◌≡◌, ◌≤◌, ◌<◌, ◌↔◌, Some, true, IfErr, IfOk, IsTrue, MatchOption, MatchResult, length};
ghost use Rattle.mg_base.specs.Image.{Image};
ghost use Rattle.mg_pool.specs.Fault.{TellsFault};
ghost use Rattle.mg_pool.specs.Pool.{IsPool};
ghost use Rattle.mg_slots.specs.DataPage.{IsDataPage, cell_of};
ghost use Rattle.mg_space.specs.Taking.{IsGeometry};
ghost use Rattle.mg_space.specs.View.{AreWhole, KeepsStore, Tells, pool_answer, viewed};
ghost use Rattle.mg_heap.specs.Listed.{IsOfCache, IsRecordOf, NamesPlace, RefusesRecordOf};
ghost use Rattle.mg_heap.specs.Reading.{HoldsData, IsSomeData, ReadsData, owner_in, sequence_in};
ghost use Rattle.mg_heap.specs.Walk.{is_primary as is_primary_of};

use crate::lookup::data_page_at;
use crate::reach::owner_number;
use crate::reading::hold_data;
use crate::walk::{is_primary, place_of};
use mg_base::{Disk, GREATEST_LIMIT, PageNo, RecId};
use mg_pool::Batch;
use mg_space::{SpaceFault, Store, lent};

/// Tells whether a slot is a record of a table: a primary slot of a data page that names the table as
/// its owner, and that the table has at the place which it names.
///
/// `owner` is the table's first pointer page. A page that is missing, or is no data page, has no record
/// of the table; that is no damage here. Of the table's pointer pages those are read that lead to the
/// one of that place.
///
/// # Errors
///
/// `Damaged` at the first of these pointer pages that is not as wanted. `Pool` with `DiskRead`,
/// `Offline` or `Memory`.
pub fn is_record_of<D: Disk>(
    store: &mut Store<D>,
    batch: &Batch,
    owner: PageNo,
    rec: RecId,
) -> Result<bool, SpaceFault>
    requires pool { IsPool D.meaning store.old }
    requires geometry { IsGeometry store.old.geometry }
    requires whole { AreWhole store.old.geometry batch.now.pages }
    requires owner { owner.0 < GREATEST_LIMIT }

    ensures keeps { KeepsStore D.meaning store.old store.new }
    ensures fault { TellsFault D.meaning store.old store.new (pool_answer result) }
    ensures own { ReadsData result }
    ensures tells { (image : Image) → Tells D.meaning store.old.disk image → MatchResult result
        (λ is. IsTrue is ↔ IsRecordOf (viewed store.old image batch.now) owner.0 rec)
        (RefusesRecordOf D.meaning store.new batch.now.pages (viewed store.old image batch.now) owner.0
        rec) }
{
    let named = named_place(store, batch, owner, rec)?;
    let Some(place) = named else {
        return Ok(false);
    };
    let listed = data_page_at(store, batch, owner, place)?;
    Ok(is_page(listed, rec.page))
}

/// Whether a page that may have been found is this one.
fn is_page(found: Option<PageNo>, page: PageNo) -> bool
    ensures { IsTrue result ↔ (found ≡ Some page) }
{
    match found {
        None => false,
        Some(n) => n == page,
    }
}

/// The place that the page of a record names, among those of its owner. None where the slot is no
/// record of a data page that names this owner.
///
/// # Errors
///
/// `Pool` with `DiskRead`, `Offline` or `Memory`.
fn named_place<D: Disk>(
    store: &mut Store<D>,
    batch: &Batch,
    owner: PageNo,
    rec: RecId,
) -> Result<Option<u32>, SpaceFault>
    requires pool { IsPool D.meaning store.old }
    requires geometry { IsGeometry store.old.geometry }
    requires whole { AreWhole store.old.geometry batch.now.pages }

    ensures keeps { KeepsStore D.meaning store.old store.new }
    ensures fault { TellsFault D.meaning store.old store.new (pool_answer result) }
    ensures own { ReadsData result }
    ensures names { (image : Image) → Tells D.meaning store.old.disk image → MatchResult result
        (NamesPlace (viewed store.old image batch.now rec.page.0) owner.0 rec) IsOfCache }
{
    let holds = holds_data(store, batch, rec.page)?;
    if !holds {
        return Ok(None);
    }
    Ok(place_in(lent(store, batch, rec.page), owner, rec))
}

/// Makes a data page readable, if the page is one: `lent` lends its bytes then.
///
/// # Errors
///
/// `Pool` with `DiskRead`, `Offline` or `Memory`.
fn holds_data<D: Disk>(
    store: &mut Store<D>,
    batch: &Batch,
    page: PageNo,
) -> Result<bool, SpaceFault>
    requires pool { IsPool D.meaning store.old }
    requires geometry { IsGeometry store.old.geometry }
    requires whole { AreWhole store.old.geometry batch.now.pages }

    ensures keeps { KeepsStore D.meaning store.old store.new }
    ensures fault { TellsFault D.meaning store.old store.new (pool_answer result) }
    ensures own { ReadsData result }
    ensures cache { IfErr result IsOfCache }
    ensures held { IfOk result (λ holds. OnTrue holds (HoldsData store.new batch.now.pages page)) }
    ensures none { (image : Image) → Tells D.meaning store.old.disk image → IfOk result
        (λ holds. OnFalse holds (IsSomeData page (viewed store.old image batch.now page.0) → ⊥)) }
{
    match hold_data(store, batch, page) {
        Ok(()) => Ok(true),
        Err(SpaceFault::Damaged(_)) => Ok(false),
        Err(fault) => Err(fault),
    }
}

/// The place that a data page names, if it names this owner and the slot is the primary one of a
/// record.
fn place_in(b: &[u8], owner: PageNo, rec: RecId) -> Option<u32>
    requires data_page { IsSomeData rec.page b.now }
    ensures { NamesPlace b.now owner.0 rec result }
{
    if owner_number(b) != owner.0 || !is_primary(b, rec.slot) {
        return None;
    }
    Some(place_of(b))
}

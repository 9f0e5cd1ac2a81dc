//! The walk over the records of a table.

ghost use Rattle.std.specs.Prelude.{◌≡◌, ◌≤◌, ◌<◌, ◌^◌, ◌==◌, ◌||◌, [], None, Some, IfErr, IfOk, MatchResult, OnOk, Ok, drop, length};
ghost use Rattle.std.specs.Bool.{OnTrue};
ghost use Rattle.mg_base.specs.Fields.{byte};
ghost use Rattle.mg_base.specs.Image.{Image};
ghost use Rattle.mg_pool.specs.Fault.{TellsFault};
ghost use Rattle.mg_pool.specs.Pool.{IsPool, shown};
ghost use Rattle.mg_pool.specs.Reading.{Fetches};
ghost use Rattle.mg_slots.specs.Damage.{IsFirstDamage};
ghost use Rattle.mg_slots.specs.DataPage.{IsDataPage, cell_of};
ghost use Rattle.mg_slots.specs.Verdict.{common_verdict};
ghost use Rattle.mg_space.specs.Taking.{IsGeometry};
ghost use Rattle.mg_space.specs.View.{AreWhole, KeepsStore, Tells, pool_answer, viewed};
ghost use Rattle.mg_heap.specs.Reading.{ReadsData, sequence_in};
ghost use Rattle.mg_heap.specs.Walk.{FindsRecord, GivesBehind, GivesFrom, GivesNext, HoldsTableData, RefusesBehind, RefusesFrom, RefusesNext, RefusesTableData, is_primary as is_primary_of};

use crate::lookup::data_page_at;
use crate::reach::unlisted;
use crate::reading::hold_data;
use mg_base::{
    Bytes, Damaged, Disk, GREATEST_LIMIT, PageNo, RecId, SEQUENCE_AT, check_common, get_u32,
};
use mg_image::PRIMARY_VERSION;
use mg_pool::Batch;
use mg_slots::{DATA_KIND, GREATEST_SIZE, LEAST_SIZE, cell, slots};
use mg_space::{SpaceFault, Store, check_page, hold, lent, passes};
use mg_version::ANCHOR;

/// The record behind another in the order of the table's data pages and their slots, or the first
/// one: its primary slot, whose cell is an anchor, or a version that stands in its primary slot.
/// `None` exactly where there is no other.
///
/// `owner` is the table's first pointer page, and `after` stands in a data page of the table. One
/// page is read where another record stands behind `after` in its page. Else the next data page is
/// found by the place that this page names: of the table's pointer pages those are read that lead to
/// the one which lists it, and of the data pages those up to the next record.
///
/// # Errors
///
/// `Damaged`: at the page of `after`, as `cell`; or at the first of these pointer pages that is not as
/// wanted; or at the page of `after`, at `Link` with 0 wanted, where the table has another page, or
/// none, at the place that it names; or at the first of these data pages that is not the owner's at its
/// place. `Pool` with `DiskRead`, `Offline` or `Memory`.
pub fn next<D: Disk>(
    store: &mut Store<D>,
    owner: PageNo,
    after: Option<RecId>,
) -> Result<Option<RecId>, SpaceFault>
    requires pool { IsPool D.meaning store.old }
    requires geometry { IsGeometry store.old.geometry }
    requires owner { owner.0 < GREATEST_LIMIT }

    ensures keeps { KeepsStore D.meaning store.old store.new }
    ensures fault { TellsFault D.meaning store.old store.new (pool_answer result) }
    ensures own { ReadsData result }
    ensures gives { (image : Image) → Tells D.meaning store.old.disk image → MatchResult result
        (GivesNext (shown store.old.dirty image) owner.0 after)
        (RefusesNext D.meaning store.new [] (shown store.old.dirty image) owner.0 after) }
{
    let batch = Batch::new(store.alloc());
    next_in(store, &batch, owner, after)
}

/// As `next`, as one sees the pages who fills a batch.
fn next_in<D: Disk>(
    store: &mut Store<D>,
    batch: &Batch,
    owner: PageNo,
    after: Option<RecId>,
) -> Result<Option<RecId>, SpaceFault>
    requires pool { IsPool D.meaning store.old }
    requires geometry { IsGeometry store.old.geometry }
    requires whole { AreWhole store.old.geometry batch.now.pages }
    requires owner { owner.0 < GREATEST_LIMIT }

    ensures keeps { KeepsStore D.meaning store.old store.new }
    ensures fault { TellsFault D.meaning store.old store.new (pool_answer result) }
    ensures own { ReadsData result }
    ensures gives { (image : Image) → Tells D.meaning store.old.disk image → MatchResult result
        (GivesNext (viewed store.old image batch.now) owner.0 after)
        (RefusesNext D.meaning store.new batch.now.pages (viewed store.old image batch.now) owner.0
        after) }
{
    match after {
        None => first_from(store, batch, owner, 0),
        Some(at) => next_after(store, batch, owner, at),
    }
}

/// The record behind another.
fn next_after<D: Disk>(
    store: &mut Store<D>,
    batch: &Batch,
    owner: PageNo,
    at: RecId,
) -> Result<Option<RecId>, SpaceFault>
    requires pool { IsPool D.meaning store.old }
    requires geometry { IsGeometry store.old.geometry }
    requires whole { AreWhole store.old.geometry batch.now.pages }
    requires owner { owner.0 < GREATEST_LIMIT }

    ensures keeps { KeepsStore D.meaning store.old store.new }
    ensures fault { TellsFault D.meaning store.old store.new (pool_answer result) }
    ensures own { ReadsData result }
    ensures gives { (image : Image) → Tells D.meaning store.old.disk image → MatchResult result
        (GivesNext (viewed store.old image batch.now) owner.0 (Some at))
        (RefusesNext D.meaning store.new batch.now.pages (viewed store.old image batch.now) owner.0
        (Some at)) }
{
    hold_data(store, batch, at.page)?;
    let page = lent(store, batch, at.page);
    if let Some(found) = first_record(page, at.page, u32::from(at.slot) + 1) {
        return Ok(Some(found));
    }
    let place = place_of(page);
    first_behind(store, batch, owner, at.page, place)
}

/// The place that a page names, among those of its owner.
pub(crate) fn place_of(b: &[u8]) -> u32
    requires { 16 ≤ length b.now }
    ensures { result ≡ sequence_in b.now }
{
    get_u32(b, SEQUENCE_AT)
}

/// The first record on the data pages of a table behind one which names this place.
fn first_behind<D: Disk>(
    store: &mut Store<D>,
    batch: &Batch,
    owner: PageNo,
    page: PageNo,
    place: u32,
) -> Result<Option<RecId>, SpaceFault>
    requires pool { IsPool D.meaning store.old }
    requires geometry { IsGeometry store.old.geometry }
    requires whole { AreWhole store.old.geometry batch.now.pages }
    requires owner { owner.0 < GREATEST_LIMIT }

    ensures keeps { KeepsStore D.meaning store.old store.new }
    ensures fault { TellsFault D.meaning store.old store.new (pool_answer result) }
    ensures own { ReadsData result }
    ensures gives { (image : Image) → Tells D.meaning store.old.disk image → MatchResult result
        (GivesBehind (viewed store.old image batch.now) owner.0 page place)
        (RefusesBehind D.meaning store.new batch.now.pages (viewed store.old image batch.now)
        owner.0 page place) }
{
    let listed = data_page_at(store, batch, owner, place)?;
    let Some(n) = listed else {
        return Err(SpaceFault::Damaged(unlisted(page)));
    };
    if n.0 != page.0 {
        return Err(SpaceFault::Damaged(unlisted(page)));
    }
    first_from(store, batch, owner, place + 1)
}

/// The first record on the data pages of a table from a place on.
fn first_from<D: Disk>(
    store: &mut Store<D>,
    batch: &Batch,
    owner: PageNo,
    start: u32,
) -> Result<Option<RecId>, SpaceFault>
    requires pool { IsPool D.meaning store.old }
    requires geometry { IsGeometry store.old.geometry }
    requires whole { AreWhole store.old.geometry batch.now.pages }
    requires owner { owner.0 < GREATEST_LIMIT }

    ensures keeps { KeepsStore D.meaning store.old store.new }
    ensures fault { TellsFault D.meaning store.old store.new (pool_answer result) }
    ensures own { ReadsData result }
    ensures gives { (image : Image) → Tells D.meaning store.old.disk image → MatchResult result
        (GivesFrom (viewed store.old image batch.now) owner.0 start)
        (RefusesFrom D.meaning store.new batch.now.pages (viewed store.old image batch.now) owner.0
        start) }
{
    let mut place = start;
    let mut next = data_page_at(store, batch, owner, place)?;
    while let Some(n) = next {
        hold_table_data(store, batch, owner, n, place)?;
        let page = lent(store, batch, n);
        if let Some(found) = first_record(page, n, 0) {
            return Ok(Some(found));
        }
        place += 1;
        next = data_page_at(store, batch, owner, place)?;
    }
    Ok(None)
}

/// Makes the data page of an owner at a place readable: `lent` lends its bytes then. Where the cache's
/// mark says that it is a data page, no more than its common part is looked at.
///
/// # Errors
///
/// `Damaged` at `Presence` where the page is missing, else at the first field that differs. `Pool`
/// with `DiskRead`, `Offline` or `Memory`.
pub fn hold_table_data<D: Disk>(
    store: &mut Store<D>,
    batch: &Batch,
    owner: PageNo,
    n: PageNo,
    at: u32,
) -> Result<(), SpaceFault>
    requires pool { IsPool D.meaning store.old }
    requires geometry { IsGeometry store.old.geometry }
    requires whole { AreWhole store.old.geometry batch.now.pages }

    ensures keeps { KeepsStore D.meaning store.old store.new }
    ensures fault { TellsFault D.meaning store.old store.new (pool_answer result) }
    ensures own { ReadsData result }
    ensures held { OnOk result (HoldsTableData store.new batch.now.pages owner.0 at n) }
    ensures seen { (image : Image) → Tells D.meaning store.old.disk image → IfErr result
        (RefusesTableData D.meaning store.new batch.now.pages
        (viewed store.old image batch.now n.0) owner.0 at n) }
    ensures reads { Fetches D.meaning store.old store.new n.0 }
{
    hold(store, batch, n)?;
    let marked = passes(store, batch, n);
    check_table_data(marked, lent(store, batch, n), n, owner.0, at)?;
    Ok(())
}

/// A copy of the data page of an owner at a place.
///
/// # Errors
///
/// `Damaged` at `Presence` where the page is missing, else at the first field that differs. `Pool`
/// with `DiskRead`, `Offline` or `Memory`.
pub fn table_data_page<D: Disk>(
    store: &mut Store<D>,
    batch: &Batch,
    owner: PageNo,
    n: PageNo,
    at: u32,
) -> Result<Bytes, SpaceFault>
    requires pool { IsPool D.meaning store.old }
    requires geometry { IsGeometry store.old.geometry }
    requires whole { AreWhole store.old.geometry batch.now.pages }

    ensures keeps { KeepsStore D.meaning store.old store.new }
    ensures fault { TellsFault D.meaning store.old store.new (pool_answer result) }
    ensures own { ReadsData result }
    ensures common { IfOk result (λ b. common_verdict b n DATA_KIND owner.0 at ≡ Ok tt) }
    ensures lawful { IfOk result IsDataPage }
    ensures seen { (image : Image) → Tells D.meaning store.old.disk image → MatchResult result
        (λ b. b ≡ viewed store.old image batch.now n.0)
        (RefusesTableData D.meaning store.new batch.now.pages
        (viewed store.old image batch.now n.0) owner.0 at n) }
    ensures reads { Fetches D.meaning store.old store.new n.0 }
{
    hold_table_data(store, batch, owner, n, at)?;
    let bytes = lent(store, batch, n);
    Ok(Bytes::new(Vec::from_slice(store.alloc(), bytes)?))
}

/// Tests the data page of an owner at a place; of one that is marked as a data page whose it is.
fn check_table_data(
    marked: bool,
    b: &[u8],
    page: PageNo,
    owner: u32,
    at: u32,
) -> Result<(), Damaged>
    requires least { LEAST_SIZE ≤ length b.now }
    requires greatest { length b.now ≤ GREATEST_SIZE }
    requires marked { OnTrue marked (IsDataPage b.now) }
    ensures common { OnOk result (common_verdict b.now page DATA_KIND owner at ≡ Ok tt) }
    ensures lawful { OnOk result (IsDataPage b.now) }
    ensures damaged { IfErr result (IsFirstDamage b.now page owner at) }
{
    if marked {
        return check_common(b, page, DATA_KIND, owner, at);
    }
    check_page(b, page, owner, at)
}

/// The first record of a page from a slot on.
fn first_record(b: &[u8], page: PageNo, from: u32) -> Option<RecId>
    requires { IsDataPage b.now }
    ensures { FindsRecord b.now page.0 from result }
{
    for place in from..u32::from(slots(b)) {
        let slot = place as u16;
        if is_primary(b, slot) {
            return Some(RecId { page, slot });
        }
    }
    None
}

/// Tells whether a slot is the primary slot of a record.
pub fn is_primary(b: &[u8], slot: u16) -> bool
    requires { IsDataPage b.now }
    ensures { result ≡ is_primary_of (cell_of b.now slot) }
{
    match cell(b, slot) {
        None => false,
        Some(bytes) => begins_record(bytes),
    }
}

/// Tells whether a cell stands in a primary slot, by its first byte.
fn begins_record(bytes: &[u8]) -> bool
    ensures { result ≡ (byte bytes.now 0 == ANCHOR || byte bytes.now 0 == PRIMARY_VERSION) }
{
    let kind = bytes.first().copied().unwrap_or(0);
    kind == ANCHOR || kind == PRIMARY_VERSION
}

//! The data page at a place of a table is found, by the pointer page that lists it.

ghost use Rattle.std.specs.Prelude.{◌≡◌, ◌≤◌, ◌<◌, ◌^◌, ◌+◌, ◌-◌, ℕ, IfOk, IfSome, MatchOption, MatchResult, length, slice_index};
ghost use Rattle.mg_base.specs.Image.{Image};
ghost use Rattle.mg_pointer.specs.PointerPage.{IsPointerPage, entries_of};
ghost use Rattle.mg_pool.specs.Fault.{TellsFault};
ghost use Rattle.mg_pool.specs.Pool.{IsPool};
ghost use Rattle.mg_space.specs.Taking.{IsGeometry};
ghost use Rattle.mg_space.specs.View.{AreWhole, KeepsStore, Tells, pool_answer, viewed};
ghost use Rattle.mg_heap.specs.Places.{FindsPlace, HasCount, IsFew, IsPageIn, LooksUp, Passes, Reaches, RefusesPlace};
ghost use Rattle.mg_heap.specs.Reading.{ReadsData};
ghost use Rattle.mg_heap.specs.Table.{RefusesPointer, RefusesTable};

use crate::table::{hold_pointer, linked};
use mg_base::{Disk, GREATEST_LIMIT, PageNo, get_u16};
use mg_pointer::{COUNT_AT, entry};
use mg_pool::Batch;
use mg_space::{SpaceFault, Store, lent};

/// What a pointer page says of the data page that so many entries lead to, counted from its first one.
#[derive(Debug, Drop)]
pub(crate) enum Look {
    /// It lists the page.
    Here(PageNo),
    /// It ends before: so many entries of the pages behind it lead there, and the next of them is this.
    Past(u32, PageNo),
}

/// What the pointer pages of a table say of the data page that so many entries lead to.
#[derive(Debug, Drop)]
pub(crate) enum Reached {
    /// They list the page.
    At(PageNo),
    /// They end before: so many entries more would lead there.
    End(u32),
}

/// The data page at a place of a table, or how far behind its last data page the place lies.
///
/// The table's pointer pages are read up to the one that lists the page, and no other page. Memory is
/// taken where this is not the first of them alone.
///
/// # Errors
///
/// `Damaged` at the first pointer page of these that is missing, or not as wanted at its place in the
/// chain; or where one before the last of them leads past the last page that a database may have, or back
/// to one of the chain (`Link`). `Pool` with `DiskRead`, `Offline` or `Memory`.
fn reach_place<D: Disk>(
    store: &mut Store<D>,
    batch: &Batch,
    owner: PageNo,
    place: u32,
) -> Result<Reached, SpaceFault>
    requires pool { IsPool D.meaning store.old }
    requires geometry { IsGeometry store.old.geometry }
    requires whole { AreWhole store.old.geometry batch.now.pages }
    requires owner { owner.0 < GREATEST_LIMIT }

    ensures keeps { KeepsStore D.meaning store.old store.new }
    ensures fault { TellsFault D.meaning store.old store.new (pool_answer result) }
    ensures own { ReadsData result }
    ensures few { IfOk result (IsFew place) }
    ensures finds { (image : Image) → Tells D.meaning store.old.disk image → MatchResult result
        (Reaches (viewed store.old image batch.now) owner.0 place)
        (RefusesPlace D.meaning store.new batch.now.pages (viewed store.old image batch.now) owner.0
        place) }
{
    store.online()?;
    let mut pointers = Vec::new(store.alloc());
    let mut rest = place;
    let mut n = owner;
    while n.0 != 0 {
        let look = look_up(store, batch, owner, n, &mut pointers, rest)?;
        match look {
            Look::Here(page) => return Ok(Reached::At(page)),
            Look::Past(left, next) => {
                rest = left;
                n = next;
            },
        }
    }
    Ok(Reached::End(rest))
}

/// The data page at a place of a table; none exactly where the table has so few.
///
/// # Errors
///
/// As `reach_place`.
pub(crate) fn data_page_at<D: Disk>(
    store: &mut Store<D>,
    batch: &Batch,
    owner: PageNo,
    place: u32,
) -> Result<Option<PageNo>, SpaceFault>
    requires pool { IsPool D.meaning store.old }
    requires geometry { IsGeometry store.old.geometry }
    requires whole { AreWhole store.old.geometry batch.now.pages }
    requires owner { owner.0 < GREATEST_LIMIT }

    ensures keeps { KeepsStore D.meaning store.old store.new }
    ensures fault { TellsFault D.meaning store.old store.new (pool_answer result) }
    ensures own { ReadsData result }
    ensures few { IfOk result (λ found. IfSome found (λ page. place + 1 < 2 ^ 32)) }
    ensures finds { (image : Image) → Tells D.meaning store.old.disk image → MatchResult result
        (FindsPlace (viewed store.old image batch.now) owner.0 place)
        (RefusesPlace D.meaning store.new batch.now.pages (viewed store.old image batch.now) owner.0
        place) }
{
    let reached = reach_place(store, batch, owner, place)?;
    Ok(page_in(reached))
}

/// The page that was reached; none where the table ends before.
fn page_in(reached: Reached) -> Option<PageNo>
    ensures { IsPageIn reached result }
{
    match reached {
        Reached::At(page) => Some(page),
        Reached::End(_) => None,
    }
}

/// How many data pages a table has. Its pointer pages are read, and no other page.
///
/// # Errors
///
/// `Damaged` at the first pointer page that is not as wanted, as `table_pages`. `Pool` with `DiskRead`,
/// `Offline` or `Memory`.
pub(crate) fn data_page_count<D: Disk>(
    store: &mut Store<D>,
    batch: &Batch,
    owner: PageNo,
) -> Result<u32, SpaceFault>
    requires pool { IsPool D.meaning store.old }
    requires geometry { IsGeometry store.old.geometry }
    requires whole { AreWhole store.old.geometry batch.now.pages }
    requires owner { owner.0 < GREATEST_LIMIT }

    ensures keeps { KeepsStore D.meaning store.old store.new }
    ensures fault { TellsFault D.meaning store.old store.new (pool_answer result) }
    ensures own { ReadsData result }
    ensures counts { (image : Image) → Tells D.meaning store.old.disk image → MatchResult result
        (HasCount (viewed store.old image batch.now) owner.0)
        (RefusesTable D.meaning store.new batch.now.pages (viewed store.old image batch.now)
        owner.0) }
{
    // No table has a data page at this place, so its end is reached.
    let reached = reach_place(store, batch, owner, u32::MAX)?;
    Ok(count_before(reached))
}

/// How many data pages a table has whose end lies before the last place of all.
fn count_before(reached: Reached) -> u32
    requires { IsFew (2 ^ 32 - 1) reached }
    ensures { (left : ℕ) → reached ≡ Reached.End left → result + left ≡ 2 ^ 32 - 1 }
{
    match reached {
        Reached::At(_) => 0,
        Reached::End(left) => u32::MAX - left,
    }
}

/// Looks in a pointer page behind others for the data page that so many entries lead to, and lists the
/// pointer page behind the others where it ends before.
///
/// # Errors
///
/// As `reach_place`, of this page; its link is tested where the page is passed.
fn look_up<D: Disk>(
    store: &mut Store<D>,
    batch: &Batch,
    owner: PageNo,
    n: PageNo,
    pointers: &mut Vec<u32>,
    rest: u32,
) -> Result<Look, SpaceFault>
    requires pool { IsPool D.meaning store.old }
    requires geometry { IsGeometry store.old.geometry }
    requires whole { AreWhole store.old.geometry batch.now.pages }
    requires few { length pointers.old.items < 2 ^ 32 }

    ensures keeps { KeepsStore D.meaning store.old store.new }
    ensures fault { TellsFault D.meaning store.old store.new (pool_answer result) }
    ensures own { ReadsData result }
    ensures passes { IfOk result (Passes pointers.old.items pointers.new.items n.0 rest) }
    ensures looks { (image : Image) → Tells D.meaning store.old.disk image → MatchResult result
        (LooksUp (viewed store.old image batch.now) owner.0 pointers.old.items n.0 rest)
        (RefusesPointer D.meaning store.new batch.now.pages (viewed store.old image batch.now)
        owner.0 pointers.old.items n) }
{
    hold_pointer(store, batch, owner, n, pointers.len() as u32)?;
    let page = lent(store, batch, n);
    if let Some(found) = entry_at(page, rest) {
        return Ok(Look::Here(found));
    }
    pointers.push(n.0)?;
    let next = linked(page, n, pointers)?;
    let left = rest - entry_count(page);
    Ok(Look::Past(left, next))
}

/// The data page that so many entries of a pointer page lead to; none exactly where it has so few.
fn entry_at(b: &[u8], rest: u32) -> Option<PageNo>
    requires { IsPointerPage b.now }
    ensures { MatchOption result (length (entries_of b.now) ≤ rest)
        (λ page. (rest < length (entries_of b.now))
        × (slice_index (entries_of b.now) rest ≡ page.0)) }
{
    if rest >= entry_count(b) {
        return None;
    }
    entry(b, rest as u16)
}

/// How many entries a pointer page has.
fn entry_count(b: &[u8]) -> u32
    requires { IsPointerPage b.now }
    ensures is { result ≡ length (entries_of b.now) }
    ensures short { result < 2 ^ 16 }
{
    u32::from(get_u16(b, COUNT_AT))
}

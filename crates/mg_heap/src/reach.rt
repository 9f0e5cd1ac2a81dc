//! The table that a data page belongs to, and the pointer pages by which it is reached.

ghost use Rattle.std.specs.Prelude.{◌≡◌, ◌≢◌, ◌≤◌, ◌<◌, ◌^◌, ◌↔◌, IfOk, IfErr, IsOk, IsTrue, MatchResult, length};
ghost use Rattle.mg_base.specs.Image.{Image};
ghost use Rattle.mg_image.specs.Tables.{Has};
ghost use Rattle.mg_pool.specs.Fault.{TellsFault};
ghost use Rattle.mg_pool.specs.Pool.{IsPool};
ghost use Rattle.mg_space.specs.Taking.{IsGeometry};
ghost use Rattle.mg_space.specs.View.{AreWhole, KeepsStore, Tells, pool_answer, viewed};
ghost use Rattle.mg_heap.specs.Reach.{IsReached, MayOwn, OwnsPage, RefusesOwner, RefusesReach, owner_damage};
ghost use Rattle.mg_heap.specs.Reading.{ReadsData, owner_in};
ghost use Rattle.mg_heap.specs.Table.{link_damage};

use crate::reading::hold_data;
use crate::table::{follow, has_number};
use mg_base::{Damaged, Disk, Field, GREATEST_LIMIT, OWNER_AT, PageNo, get_u32};
use mg_pool::Batch;
use mg_space::{SpaceFault, Store, lent};

/// The owner of a data page, by what the page says itself: the first pointer page of its table.
///
/// # Errors
///
/// As `cell`; `Damaged` at `Owner` where the owner is page 0 or past the last page of every
/// database.
pub fn owner_of<D: Disk>(
    store: &mut Store<D>,
    batch: &Batch,
    page: PageNo,
) -> Result<PageNo, SpaceFault>
    requires pool { IsPool D.meaning store.old }
    requires geometry { IsGeometry store.old.geometry }
    requires whole { AreWhole store.old.geometry batch.now.pages }

    ensures keeps { KeepsStore D.meaning store.old store.new }
    ensures fault { TellsFault D.meaning store.old store.new (pool_answer result) }
    ensures own { ReadsData result }
    ensures lawful { IfOk result (λ owner. MayOwn owner.0) }
    ensures gives { (image : Image) → Tells D.meaning store.old.disk image → MatchResult result
        (λ owner. OwnsPage page (viewed store.old image batch.now page.0) owner.0)
        (RefusesOwner D.meaning store.new batch.now.pages page
        (viewed store.old image batch.now page.0)) }
{
    hold_data(store, batch, page)?;
    let owner = owner_number(lent(store, batch, page));
    if owner == 0 || owner >= GREATEST_LIMIT {
        return Err(SpaceFault::Damaged(wrong_owner(page, owner)));
    }
    Ok(PageNo(owner))
}

/// The owner that a page names.
pub(crate) fn owner_number(b: &[u8]) -> u32
    requires { 12 ≤ length b.now }
    ensures { result ≡ owner_in b.now }
{
    get_u32(b, OWNER_AT)
}

/// Names an owner that no table has.
fn wrong_owner(page: PageNo, owner: u32) -> Damaged
    ensures { result ≡ owner_damage page owner }
{
    Damaged {
        page,
        field: Field::Owner,
        found: u64::from(owner),
        wanted: u64::from(GREATEST_LIMIT - 1),
    }
}

/// The pointer pages by which a data page of a table is reached: from the table's first one to the
/// one that lists the page.
///
/// # Errors
///
/// `Damaged` at the first pointer page that is missing, or not as wanted at its place in the chain,
/// or that leads past the last page that a database may have, or back to one of the chain; at `Link`,
/// with the page and 0 wanted, where no page of the chain lists it. `Pool` with `DiskRead`, `Offline`
/// or `Memory`.
pub fn pointers_to<D: Disk>(
    store: &mut Store<D>,
    batch: &Batch,
    owner: PageNo,
    page: PageNo,
) -> Result<Vec<u32>, SpaceFault>
    requires pool { IsPool D.meaning store.old }
    requires geometry { IsGeometry store.old.geometry }
    requires whole { AreWhole store.old.geometry batch.now.pages }
    requires owner { owner.0 < GREATEST_LIMIT }

    ensures keeps { KeepsStore D.meaning store.old store.new }
    ensures fault { TellsFault D.meaning store.old store.new (pool_answer result) }
    ensures own { ReadsData result }
    ensures reaches { (image : Image) → Tells D.meaning store.old.disk image → MatchResult result
        (λ pointers. IsReached (viewed store.old image batch.now) owner.0 page.0 pointers.items)
        (RefusesReach D.meaning store.new batch.now.pages (viewed store.old image batch.now) owner.0
        page) }
{
    store.online()?;
    let mut pointers = Vec::new(store.alloc());
    let mut n = owner;
    while n.0 != 0 {
        let mut entries = Vec::new(store.alloc());
        n = follow(store, batch, owner, n, &mut pointers, &mut entries)?;
        if has_number(&entries, page.0) {
            return Ok(pointers);
        }
    }
    Err(SpaceFault::Damaged(unlisted(page)))
}

/// Names a page that its table does not list.
pub(crate) fn unlisted(page: PageNo) -> Damaged
    ensures { result ≡ link_damage page page.0 0 }
{
    Damaged {
        page,
        field: Field::Link,
        found: u64::from(page.0),
        wanted: 0,
    }
}

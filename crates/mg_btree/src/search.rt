//! The search for the page of a level between whose fences an entry lies.

ghost use Rattle.std.specs.Prelude.{◌≡◌, ◌<◌, ◌≤◌, ◌↔◌, IfOk, IfSome, IsOk, List, MatchResult, length, ℕ};
ghost use Rattle.mg_base.specs.Image.{Image};
ghost use Rattle.mg_image.specs.Indexes.{IsTree};
ghost use Rattle.mg_node.specs.NodePage.{IsAtLeast};
ghost use Rattle.mg_pool.specs.Pool.{IsPool};
ghost use Rattle.mg_space.specs.Taking.{IsGeometry};
ghost use Rattle.mg_space.specs.View.{AreWhole, Tells, viewed};
ghost use Rattle.mg_btree.specs.Changing.{IsLeaf, ReadsLeaf};
ghost use Rattle.mg_btree.specs.Landings.{ComesBefore, LandsAt};
ghost use Rattle.mg_btree.specs.Reading.{Reads};
ghost use Rattle.mg_btree.specs.Searching.{BeginsAt, ComesTo, IsReached, PassesTo};

use crate::node::{ReadNode, check_above, hold_page, node_on};
use crate::on_page::{child_on, is_under};
use crate::root::root_of;
use mg_base::{Damaged, Disk, Field, GREATEST_LIMIT, PageNo};
use mg_node::{Entry, is_below, is_up_to, right_of};
use mg_pool::Batch;
use mg_space::{SpaceFault, Store, lent};

/// Tests that an entry does not come before the low fence of a page.
fn check_from(low: &Option<Entry>, page: PageNo, e: &Entry) -> Result<(), Damaged>
    ensures { IsOk result ↔ IfSome low.now (λ fence. IsAtLeast e.now fence) }
{
    match low {
        None => Ok(()),
        Some(fence) => {
            if is_below(e, fence) {
                Err(Damaged {
                    page,
                    field: Field::Fence,
                    found: 1,
                    wanted: 0,
                })
            } else {
                Ok(())
            }
        }
    }
}

/// Where a search along a level goes on from a page that was read.
#[derive(Drop)]
enum Landing {
    /// The entry lies between the fences of the page.
    Here(ReadNode),
    /// The entry comes behind the page, which has this right neighbour.
    Right(PageNo),
}

/// Tells where a search goes on from a page that was read.
///
/// # Errors
///
/// `Damaged` exactly where the entry comes before the page's low fence.
fn land_on(read: ReadNode, e: &Entry) -> Result<Landing, Damaged>
    ensures { MatchResult result (LandsAt read e.now) (λ _. ComesBefore read e.now) }
{
    check_from(&read.node.low, read.page, e)?;
    if is_up_to(&read.node.high, e) {
        return Ok(Landing::Here(read));
    }
    Ok(Landing::Right(read.node.right))
}

/// Goes to the right on a level, from a page to the one whose high fence an entry lies below.
///
/// # Errors
///
/// `Damaged` only where the page is in no tree; else the cache's.
fn land<D: Disk>(
    store: &mut Store<D>,
    batch: &Batch,
    owner: u32,
    page: PageNo,
    level: u16,
    e: &Entry,
) -> Result<ReadNode, SpaceFault>
    requires pool { IsPool D.meaning store.old }
    requires geometry { IsGeometry store.old.geometry }
    requires whole { AreWhole store.old.geometry batch.now.pages }

    ensures reads { Reads D.meaning store.old store.new result }
    ensures reached { IfOk result (IsReached store.old.geometry.size owner level e.now) }
    ensures below { IfOk result (λ read. read.page.0 < store.old.geometry.limit) }
    ensures comes { (image : Image) (root : ℕ) (levels : List (List ℕ))
        → Tells D.meaning store.old.disk image
        → BeginsAt store.old.geometry.size (viewed store.old image batch.now) owner root levels e.now
        level page.0 → ComesTo (viewed store.old image batch.now) levels result }
{
    let mut at = page;
    for _ in 0..GREATEST_LIMIT {
        let read = node_on(store, batch, owner, at, level)?;
        let landing = land_on(read, e)?;
        match landing {
            Landing::Here(found) => return Ok(found),
            Landing::Right(next) => at = next,
        }
    }
    Err(SpaceFault::Damaged(circle(at)))
}

/// Names the right neighbour that comes back: more pages follow than there are.
pub(crate) fn circle(page: PageNo) -> Damaged {
    Damaged {
        page,
        field: Field::Link,
        found: u64::from(page.0),
        wanted: 0,
    }
}

/// Goes to the right on a level above the leaves, as `land`, and gives the child to go down by. Of the
/// pages on the way no more is tested than their common part and their level, and nothing is copied: they
/// are not changed.
///
/// # Errors
///
/// `Damaged` only where the page is in no tree; else the cache's.
fn pass<D: Disk>(
    store: &mut Store<D>,
    batch: &Batch,
    owner: u32,
    page: PageNo,
    level: u16,
    e: &Entry,
) -> Result<PageNo, SpaceFault>
    requires pool { IsPool D.meaning store.old }
    requires geometry { IsGeometry store.old.geometry }
    requires whole { AreWhole store.old.geometry batch.now.pages }
    requires inner { 0 < level }

    ensures reads { Reads D.meaning store.old store.new result }
    ensures passes { (image : Image) (root : ℕ) (levels : List (List ℕ))
        → Tells D.meaning store.old.disk image
        → BeginsAt store.old.geometry.size (viewed store.old image batch.now) owner root levels e.now
        level page.0 → PassesTo store.old.geometry.size (viewed store.old image batch.now) owner root
        levels e.now level result }
{
    let mut at = page;
    for _ in 0..GREATEST_LIMIT {
        hold_page(store, batch, at)?;
        let bytes = lent(store, batch, at);
        check_above(bytes, at, owner, level)?;
        if is_under(bytes, e) {
            return Ok(PageNo(child_on(bytes, e)));
        }
        at = right_of(bytes);
    }
    Err(SpaceFault::Damaged(circle(at)))
}

/// Goes down from a page of a level to the page of a lower one between whose fences an entry lies.
///
/// # Errors
///
/// `Damaged` only where the page is in no tree; else the cache's.
pub(crate) fn descend<D: Disk>(
    store: &mut Store<D>,
    batch: &Batch,
    owner: u32,
    page: PageNo,
    from: u16,
    level: u16,
    e: &Entry,
) -> Result<ReadNode, SpaceFault>
    requires pool { IsPool D.meaning store.old }
    requires geometry { IsGeometry store.old.geometry }
    requires whole { AreWhole store.old.geometry batch.now.pages }
    requires lower { level ≤ from }

    ensures reads { Reads D.meaning store.old store.new result }
    ensures reached { IfOk result (IsReached store.old.geometry.size owner level e.now) }
    ensures below { IfOk result (λ read. read.page.0 < store.old.geometry.limit) }
    ensures comes { (image : Image) (root : ℕ) (levels : List (List ℕ))
        → Tells D.meaning store.old.disk image
        → BeginsAt store.old.geometry.size (viewed store.old image batch.now) owner root levels e.now
        from page.0 → ComesTo (viewed store.old image batch.now) levels result }
{
    if from == level {
        return land(store, batch, owner, page, level, e);
    }
    let child = pass(store, batch, owner, page, from, e)?;
    descend(store, batch, owner, child, from - 1, level, e)
}

/// Reads the leaf of a tree between whose fences an entry lies.
///
/// # Errors
///
/// `Damaged` only where no tree stands there; else the cache's.
pub(crate) fn leaf_for<D: Disk>(
    store: &mut Store<D>,
    batch: &Batch,
    root: PageNo,
    e: &Entry,
) -> Result<ReadNode, SpaceFault>
    requires pool { IsPool D.meaning store.old }
    requires geometry { IsGeometry store.old.geometry }
    requires whole { AreWhole store.old.geometry batch.now.pages }

    ensures reads { Reads D.meaning store.old store.new result }
    ensures leaf { IfOk result (IsLeaf store.old.geometry.size) }
    ensures below { IfOk result (λ read. read.page.0 < store.old.geometry.limit) }
    ensures seen { (image : Image) (owner : ℕ) (levels : List (List ℕ))
        → Tells D.meaning store.old.disk image
        → IsTree store.old.geometry.size (viewed store.old image batch.now) owner root.0 levels
        → ReadsLeaf store.old.geometry.size (viewed store.old image batch.now) owner levels e.now
        result }
{
    let top = root_of(store, batch, root)?;
    descend(store, batch, top.owner, root, top.level, 0, e)
}

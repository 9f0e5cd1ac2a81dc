//! The next entry of a range.

ghost use Rattle.std.specs.Prelude.{◌≡◌, ◌↔◌, IfOk, IfSome, IsTrue, List, None, ℕ};
ghost use Rattle.std.specs.Ordering.{nat_cmp};
ghost use Rattle.std.specs.Cmp.Lexicographic.{slice_cmp};
ghost use Rattle.std.specs.declared.cmp.Ordering.TheVariants.{Less as Below};
ghost use Rattle.std.specs.Option.{option_copied};
ghost use Rattle.mg_base.specs.Image.{Image};
ghost use Rattle.mg_image.specs.Indexes.{IsTree};
ghost use Rattle.mg_node.specs.NodePage.{IsBelow};
ghost use Rattle.mg_pool.specs.Pool.{IsPool};
ghost use Rattle.mg_space.specs.Taking.{IsGeometry};
ghost use Rattle.mg_space.specs.View.{AreWhole, Tells, viewed};
ghost use Rattle.mg_btree.specs.Changing.{IsLeaf};
ghost use Rattle.mg_btree.specs.Reading.{Reads};
ghost use Rattle.mg_btree.specs.Ranges.{GivesRange, IsFirstInRange, IsInRange, LooksOn, ScansFrom, StartsRange, StartsWalk, StepsOn, least_with as least_with_of, no_pages};

use crate::node::{ReadNode, node_on};
use crate::search::{circle, leaf_for};
use mg_base::{Bytes, Disk, GREATEST_LIMIT, Memory, OWNER_AT, PageNo, RecId, get_u32};
use mg_node::{Entry, is_below};
use mg_pool::Batch;
use mg_space::{SpaceFault, Store};
use std::alloc::Global;
use std::cmp::Ordering;

/// Whether an entry's key lies below `low`.
fn is_before(e: &Entry, low: &[u8]) -> bool
    ensures { IsTrue result ↔ (slice_cmp nat_cmp e.now.key low.now ≡ Below) }
{
    e.key.as_slice().cmp(low) == Ordering::Less
}

/// Whether an entry comes behind another, where there is one.
fn is_behind(e: &Entry, after: Option<&Entry>) -> bool
    ensures { IsTrue result ↔ IfSome (option_copied after.entry) (λ a. IsBelow a e.now) }
{
    match after {
        None => true,
        Some(bound) => is_below(bound, e),
    }
}

/// Whether an entry's key is at or above `low`, and the entry above `after`.
fn is_in_range(e: &Entry, low: &[u8], after: Option<&Entry>) -> bool
    ensures { IsTrue result ↔ IsInRange low.now (option_copied after.entry) e.now }
{
    if is_before(e, low) {
        return false;
    }
    is_behind(e, after)
}

/// A copy of an entry.
///
/// # Errors
///
/// `Memory` only.
fn copy_of(alloc: Global, e: &Entry) -> Result<Entry, Memory>
    ensures { IfOk result (λ copy. copy ≡ e.now) }
{
    Ok(Entry {
        key: e.key.copy(alloc)?,
        rec: e.rec,
        child: e.child,
    })
}

/// The first of these entries that lies in a range.
///
/// # Errors
///
/// `Memory` only.
fn first_in(
    alloc: Global,
    entries: &[Entry],
    low: &[u8],
    after: Option<&Entry>,
) -> Result<Option<Entry>, Memory>
    ensures { IfOk result (IsFirstInRange low.now (option_copied after.entry) entries.now) }
{
    let mut rest = entries;
    while let Some((next, later)) = rest.split_first() {
        if is_in_range(next, low, after) {
            return Ok(Some(copy_of(alloc, next)?));
        }
        rest = later;
    }
    Ok(None)
}

/// The least entry with a key.
///
/// # Errors
///
/// `Memory` only.
fn least_with(alloc: Global, key: &[u8]) -> Result<Entry, Memory>
    ensures { IfOk result (λ e. e ≡ least_with_of key.now) }
{
    Ok(Entry {
        key: Bytes::new(Vec::from_slice(alloc, key)?),
        rec: RecId {
            page: PageNo(0),
            slot: 0,
        },
        child: PageNo(0),
    })
}

/// Reads the leaf at which a range begins.
///
/// # Errors
///
/// `Damaged` only where no tree stands there; else the cache's.
fn first_leaf<D: Disk>(
    store: &mut Store<D>,
    batch: &Batch,
    root: PageNo,
    low: &[u8],
    after: Option<&Entry>,
) -> Result<ReadNode, SpaceFault>
    requires pool { IsPool D.meaning store.old }
    requires geometry { IsGeometry store.old.geometry }
    requires whole { AreWhole store.old.geometry batch.now.pages }

    ensures reads { Reads D.meaning store.old store.new result }
    ensures leaf { IfOk result (IsLeaf store.old.geometry.size) }
    ensures starts { (image : Image) (owner : ℕ) (levels : List (List ℕ))
        → Tells D.meaning store.old.disk image
        → IsTree store.old.geometry.size (viewed store.old image batch.now) owner root.0 levels
        → StartsRange store.old.geometry.size (viewed store.old image batch.now) owner root.0 levels
        low.now (option_copied after.entry) result }
{
    store.online()?;
    match after {
        None => {
            let start = least_with(store.alloc(), low)?;
            leaf_for(store, batch, root, &start)
        }
        Some(bound) => leaf_for(store, batch, root, bound),
    }
}

/// A walk along the entries of a range: the leaf from which on the next one is looked for.
#[derive(Drop)]
pub struct Walk {
    leaf: ReadNode,
}

/// A step of a walk.
#[derive(Drop)]
pub struct Step {
    /// The next entry of the range, none where there is none.
    pub found: Option<Entry>,
    /// The walk goes on from the leaf of that entry, or from the last leaf.
    pub walk: Walk,
    /// How many leaves were read: right neighbours, one after another.
    pub passed: u32,
}

/// Goes from a leaf on to the first entry of a range.
///
/// # Errors
///
/// `Damaged` only where no tree stands there; else the cache's.
fn next_from<D: Disk>(
    store: &mut Store<D>,
    batch: &Batch,
    start: ReadNode,
    low: &[u8],
    after: Option<&Entry>,
) -> Result<Step, SpaceFault>
    requires pool { IsPool D.meaning store.old }
    requires geometry { IsGeometry store.old.geometry }
    requires whole { AreWhole store.old.geometry batch.now.pages }
    requires leaf { IsLeaf store.old.geometry.size start }
    requires online { store.old.offline ≡ None }

    ensures reads { Reads D.meaning store.old store.new result }
    ensures leaf { IfOk result (λ step. IsLeaf store.old.geometry.size step.walk.leaf) }
    ensures within { IfOk result (λ step. IfSome step.found (IsInRange low.now (option_copied after.entry))) }
    ensures steps { (image : Image) (owner root : ℕ) (levels : List (List ℕ))
        → Tells D.meaning store.old.disk image
        → ScansFrom store.old.geometry.size (viewed store.old image batch.now) owner root levels
        low.now (option_copied after.entry) start
        → StepsOn store.old.geometry.size (viewed store.old image batch.now) owner root levels
        low.now (option_copied after.entry) start result }
{
    let owner = get_u32(start.bytes.as_slice(), OWNER_AT);
    let mut leaf = start;
    for passed in 0..GREATEST_LIMIT {
        let look = look_on(store.alloc(), leaf, low, after, passed)?;
        match look {
            Look::Ends(step) => return Ok(step),
            Look::GoesOn(right) => leaf = node_on(store, batch, owner, right, 0)?,
        }
    }
    Err(SpaceFault::Damaged(circle(leaf.page)))
}

/// What a leaf gives of a range.
#[derive(Drop)]
enum Look {
    /// The first entry of the range, or none where no leaf follows.
    Ends(Step),
    /// No entry of the range, and this right neighbour.
    GoesOn(PageNo),
}

/// Looks for the first entry of a range on a leaf, behind so many others.
///
/// # Errors
///
/// `Memory` only.
fn look_on(
    alloc: Global,
    leaf: ReadNode,
    low: &[u8],
    after: Option<&Entry>,
    passed: u32,
) -> Result<Look, Memory>
    ensures { IfOk result (LooksOn low.now (option_copied after.entry) leaf passed) }
{
    if let Some(e) = first_in(alloc, &leaf.node.entries, low, after)? {
        return Ok(Look::Ends(step_at(Some(e), leaf, passed)));
    }
    if leaf.node.right.0 == 0 {
        return Ok(Look::Ends(step_at(None, leaf, passed)));
    }
    Ok(Look::GoesOn(leaf.node.right))
}

/// A step that comes to a leaf.
fn step_at(found: Option<Entry>, leaf: ReadNode, passed: u32) -> Step
    ensures { result ≡ record { found = found; walk = record { leaf = leaf }; passed = passed } }
{
    Step {
        found,
        walk: Walk { leaf },
        passed,
    }
}

/// Begins a walk along the entries of a tree whose keys are at or above `low`. The leaf is read at
/// which they begin, and the pages above it. Nothing is changed.
///
/// # Errors
///
/// `Damaged` only where no tree stands there; `Pool` with `DiskRead`, `Offline` or `Memory`.
pub fn walk_from<D: Disk>(
    store: &mut Store<D>,
    root: PageNo,
    low: &[u8],
) -> Result<Walk, SpaceFault>
    requires pool { IsPool D.meaning store.old }
    requires geometry { IsGeometry store.old.geometry }

    ensures reads { Reads D.meaning store.old store.new result }
    ensures leaf { IfOk result (λ walk. IsLeaf store.old.geometry.size walk.leaf) }
    ensures starts { (image : Image) (owner : ℕ) (levels : List (List ℕ))
        → Tells D.meaning store.old.disk image
        → IsTree store.old.geometry.size (viewed store.old image no_pages) owner root.0 levels
        → StartsWalk store.old.geometry.size (viewed store.old image no_pages) owner root.0 levels
        low.now None result }
{
    let batch = Batch::new(store.alloc());
    let leaf = first_leaf(store, &batch, root, low, None)?;
    Ok(Walk { leaf })
}

/// Goes on with a walk, to the least entry behind `after`, where that is the entry that it gave last.
/// The leaf that the walk has is not read again: only where it has no such entry are its right
/// neighbours read, up to the first one that has. The tree has not changed since the leaf was read.
/// Nothing is changed. On each file what is found comes behind `after`: so a walk ends.
///
/// # Errors
///
/// `Damaged` only where no tree stands there; `Pool` with `DiskRead`, `Offline` or `Memory`.
pub fn walk_on<D: Disk>(
    store: &mut Store<D>,
    walk: Walk,
    low: &[u8],
    after: Option<&Entry>,
) -> Result<Step, SpaceFault>
    requires pool { IsPool D.meaning store.old }
    requires geometry { IsGeometry store.old.geometry }
    requires leaf { IsLeaf store.old.geometry.size walk.leaf }

    ensures reads { Reads D.meaning store.old store.new result }
    ensures leaf { IfOk result (λ step. IsLeaf store.old.geometry.size step.walk.leaf) }
    ensures within { IfOk result (λ step. IfSome step.found (IsInRange low.now (option_copied after.entry))) }
    ensures steps { (image : Image) (owner root : ℕ) (levels : List (List ℕ))
        → Tells D.meaning store.old.disk image
        → ScansFrom store.old.geometry.size (viewed store.old image no_pages) owner root levels
        low.now (option_copied after.entry) walk.leaf
        → StepsOn store.old.geometry.size (viewed store.old image no_pages) owner root levels
        low.now (option_copied after.entry) walk.leaf result }
{
    store.online()?;
    let batch = Batch::new(store.alloc());
    next_from(store, &batch, walk.leaf, low, after)
}

/// The least entry of a tree whose key is at or above `low` and that comes behind `after`; `None`
/// exactly where there is none. Nothing is changed. A caller that wants several one after another
/// takes a walk.
///
/// # Errors
///
/// `Damaged` only where no tree stands there; `Pool` with `DiskRead`, `Offline` or `Memory`.
pub fn range_step<D: Disk>(
    store: &mut Store<D>,
    root: PageNo,
    low: &[u8],
    after: Option<&Entry>,
) -> Result<Option<Entry>, SpaceFault>
    requires pool { IsPool D.meaning store.old }
    requires geometry { IsGeometry store.old.geometry }

    ensures reads { Reads D.meaning store.old store.new result }
    ensures gives { (image : Image) (owner : ℕ) (levels : List (List ℕ))
        → Tells D.meaning store.old.disk image
        → IsTree store.old.geometry.size (viewed store.old image no_pages) owner root.0 levels
        → GivesRange (viewed store.old image no_pages) root.0 low.now (option_copied after.entry) result }
{
    let batch = Batch::new(store.alloc());
    let start = first_leaf(store, &batch, root, low, after)?;
    let step = next_from(store, &batch, start, low, after)?;
    Ok(step.found)
}

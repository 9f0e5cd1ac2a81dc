//! Room for an entry is made on a page of a level.

ghost use Rattle.std.specs.Prelude.{◌≡◌, ◌<◌, ◌≤◌, ◌/◌, IfOk, List, None, Ok as Fine, OnOk, length, true, ℕ};
ghost use Rattle.mg_base.specs.Geometry.{is_page_size};
ghost use Rattle.mg_base.specs.Image.{Image};
ghost use Rattle.mg_image.specs.Indexes.{IsTree};
ghost use Rattle.mg_node.specs.NodePage.{IsNodePage, is_inner, level_in};
ghost use Rattle.mg_node.specs.NodeTests.{HasEnough};
ghost use Rattle.mg_node_writing.specs.NodeChanges.{IsSized, most_need, room_in};
ghost use Rattle.mg_pool.specs.Pool.{IsPool};
ghost use Rattle.mg_space.specs.Taking.{IsGeometry};
ghost use Rattle.mg_space.specs.View.{AreWhole, Tells, viewed};
ghost use Rattle.mg_btree.specs.Halves.{AreHalves, CoversBy, HasRoom, IsPlaceFor, IsRoomy};
ghost use Rattle.mg_btree.specs.Making.{IsSplit, PutsRoot, PutsSplit, SplitsIn, SplitsRoot, TakesAbove, TakesRight};
ghost use Rattle.mg_btree.specs.Ordering.{Widens};
ghost use Rattle.mg_btree.specs.Reading.{Reads};
ghost use Rattle.mg_btree.specs.Rooms.{MakesRoomIn, RefusesRoom, StandsIn, TakesAlone, too_high};
ghost use Rattle.mg_btree.specs.Searching.{IsReached};

use crate::growing::{Growth, TwoPages, grow, take_two};
use crate::halves::{Halves, PageBytes, half_for, halve, has_room, name_half};
use crate::node::ReadNode;
use crate::ordering::{SplitPages, order_root, order_split, put_three};
use crate::root::Root;
use crate::search::descend;
use mg_base::{Damaged, Disk, Field, Memory, PageNo};
use mg_node::Entry;
use mg_pool::Batch;
use mg_space::{SpaceFault, Store, take_page};

/// A page that splits, and the page above that covers the fence between its halves.
#[derive(Drop)]
pub(crate) struct Split {
    pub halves: Halves,
    pub above: ReadNode,
}

/// Makes room for an entry on the page of a level that covers it, and gives the page with room. A
/// page splits exactly where it has none; the page above is given room for its fence first.
///
/// # Errors
///
/// `Full` where a page splits and no page is free; `Damaged` only where no tree stands there, where a
/// page of the inventory is damaged, or, at `Level`, where the root is to split and stands on the
/// highest level that there is; else the cache's. The batch may then have the bits of the pages that were taken.
pub(crate) fn make_room<D: Disk>(
    store: &mut Store<D>,
    batch: &mut Batch,
    top: Root,
    level: u16,
    full: PageBytes,
    e: &Entry,
) -> Result<PageBytes, SpaceFault>
    requires pool { IsPool D.meaning store.old }
    requires geometry { IsGeometry store.old.geometry }
    requires whole { AreWhole store.old.geometry batch.old.pages }
    requires online { store.old.offline ≡ None }
    requires lower { level ≤ top.level }
    requires place { IsPlaceFor store.old.geometry.size top.owner level e.now full }
    requires below { full.page.0 < store.old.geometry.limit }
    requires short { length e.now.key ≤ store.old.geometry.size / 8 }

    ensures reads { Reads D.meaning store.old store.new result }
    ensures widens { Widens store.old.geometry.size batch.old batch.new }
    ensures whole { OnOk result (AreWhole store.old.geometry batch.new.pages) }
    ensures half { IfOk result (λ half. half.page.0 < store.old.geometry.limit) }
    ensures roomy { IfOk result (IsRoomy store.old.geometry.size top.owner level e.now) }
    ensures in_place { HasRoom full.bytes e.now → (result ≡ Fine full) × (batch.new ≡ batch.old) }
    ensures makes { (image : Image) (levels : List (List ℕ)) → Tells D.meaning store.old.disk image
        → top.level ≡ level_in (viewed store.old image batch.old top.page.0)
        → StandsIn store.old.geometry.size (viewed store.old image batch.old) top.owner top.page.0
        levels full
        → MakesRoomIn store.old.geometry (viewed store.old image batch.old)
        (viewed store.old image batch.new) batch.old batch.new top.owner top.page.0 levels level e.now
        result }
{
    if has_room(full.bytes.as_slice(), e) {
        return Ok(full);
    }
    if level == top.level {
        return grow_root(store, batch, top, full, e);
    }
    let split = take_above(store, batch, top, level, full)?;
    let Split { halves, above } = split;
    let roomy = make_room(store, batch, top, level + 1, as_place(above), &halves.fence)?;
    put_split(store, batch, halves, roomy, e)
}

/// A page that was read, with its content alone.
pub(crate) fn as_place(read: ReadNode) -> PageBytes
    ensures page { result.page ≡ read.page }
    ensures bytes { result.bytes ≡ read.bytes }
{
    let ReadNode { page, bytes, .. } = read;
    PageBytes { page, bytes }
}

/// Takes a page for the upper half of one that has no room, and finds the page above.
///
/// # Errors
///
/// As `take_page`, and `Damaged` where no tree stands there.
fn take_above<D: Disk>(
    store: &mut Store<D>,
    batch: &mut Batch,
    top: Root,
    level: u16,
    full: PageBytes,
) -> Result<Split, SpaceFault>
    requires pool { IsPool D.meaning store.old }
    requires geometry { IsGeometry store.old.geometry }
    requires whole { AreWhole store.old.geometry batch.old.pages }
    requires lower { level < top.level }
    requires len { length full.bytes ≡ store.old.geometry.size }
    requires lawful { IsNodePage full.bytes }
    requires full { room_in full.bytes < most_need full.bytes }

    ensures reads { Reads D.meaning store.old store.new result }
    ensures widens { Widens store.old.geometry.size batch.old batch.new }
    ensures whole { OnOk result (AreWhole store.old.geometry batch.new.pages) }
    ensures right { IfOk result (λ split. split.halves.right.page.0 < store.old.geometry.limit) }
    ensures above { IfOk result (λ split. split.above.page.0 < store.old.geometry.limit) }
    ensures split { IfOk result (IsSplit store.old.geometry.size top.owner level full) }
    ensures alone { OnOk result (TakesAlone 1 batch.old batch.new) }
    ensures takes { (image : Image) (levels : List (List ℕ)) → Tells D.meaning store.old.disk image
        → top.level ≡ level_in (viewed store.old image batch.old top.page.0)
        → StandsIn store.old.geometry.size (viewed store.old image batch.old) top.owner top.page.0
        levels full
        → TakesAbove store.old.geometry (viewed store.old image batch.old)
        (viewed store.old image batch.new) batch.new levels result }
{
    let halves = take_right(store, batch, full)?;
    let above = descend(
        store,
        batch,
        top.owner,
        top.page,
        top.level,
        level + 1,
        &halves.fence,
    )?;
    Ok(Split { halves, above })
}

/// Takes a page for the upper half of one that has no room.
///
/// # Errors
///
/// As `take_page`.
fn take_right<D: Disk>(
    store: &mut Store<D>,
    batch: &mut Batch,
    full: PageBytes,
) -> Result<Halves, SpaceFault>
    requires pool { IsPool D.meaning store.old }
    requires geometry { IsGeometry store.old.geometry }
    requires whole { AreWhole store.old.geometry batch.old.pages }
    requires len { length full.bytes ≡ store.old.geometry.size }
    requires lawful { IsNodePage full.bytes }
    requires full { room_in full.bytes < most_need full.bytes }

    ensures reads { Reads D.meaning store.old store.new result }
    ensures widens { Widens store.old.geometry.size batch.old batch.new }
    ensures whole { OnOk result (AreWhole store.old.geometry batch.new.pages) }
    ensures right { IfOk result (λ halves. halves.right.page.0 < store.old.geometry.limit) }
    ensures halves { IfOk result (λ halves.
        AreHalves full.bytes full.page.0 halves.right.page.0 halves) }
    ensures alone { OnOk result (TakesAlone 1 batch.old batch.new) }
    ensures takes { (image : Image) → Tells D.meaning store.old.disk image
        → TakesRight store.old.geometry (viewed store.old image batch.old)
        (viewed store.old image batch.new) batch.new result }
{
    let at = take_page(store, batch)?;
    Ok(halve(store.alloc(), full, at)?)
}

/// Puts the pages of a split: its halves, and the page above, which names the right one. Gives the
/// half to which an entry belongs.
///
/// # Errors
///
/// `Damaged` exactly where the page above has an entry of that place; else `Memory`.
fn put_split<D: Disk>(
    store: &Store<D>,
    batch: &mut Batch,
    halves: Halves,
    above: PageBytes,
    e: &Entry,
) -> Result<PageBytes, SpaceFault>
    requires geometry { IsGeometry store.now.geometry }
    requires len { length above.bytes ≡ store.now.geometry.size }
    requires left { length halves.left.bytes ≡ store.now.geometry.size }
    requires right { length halves.right.bytes ≡ store.now.geometry.size }
    requires lawful { IsNodePage above.bytes }
    requires inner { is_inner above.bytes ≡ true }
    requires enough { HasEnough above.bytes }
    requires short { length halves.fence.key ≤ store.now.geometry.size / 8 }
    requires covers { CoversBy above.bytes halves.fence }
    requires room { HasRoom above.bytes halves.fence }
    ensures splits { SplitsIn store.now.geometry.size batch.old batch.new halves above e.now result }
    ensures widens { Widens store.now.geometry.size batch.old batch.new }
{
    let named = name_half(store.alloc(), above, &halves.fence)?;
    put_named(batch, store.geometry().size, &halves, &named)?;
    Ok(half_for(halves, e))
}

/// Puts the pages of a split with their orders.
///
/// # Errors
///
/// `Memory` only. The batch may then have a part of them.
fn put_named(batch: &mut Batch, size: u32, halves: &Halves, named: &PageBytes) -> Result<(), Memory>
    requires size { is_page_size size ≡ true }
    requires left { length halves.now.left.bytes ≡ size }
    requires right { length halves.now.right.bytes ≡ size }
    requires named { length named.now.bytes ≡ size }
    ensures puts { OnOk result (PutsSplit size batch.old batch.new halves.now named.now.page.0
        named.now.bytes) }
    ensures widens { Widens size batch.old batch.new }
{
    put_three(batch, &halves.right, &halves.left, named)?;
    let at = SplitPages {
        left: halves.left.page,
        right: halves.right.page,
        above: named.page,
    };
    order_split(batch, size, &halves.names, at)
}

/// Names a root that is to split and stands on the highest level that there is: the level above has no
/// number. The level wanted is the highest from which a root can go up.
fn high_root(root: PageNo) -> Damaged
    ensures { result ≡ too_high root.0 }
{
    Damaged {
        page: root,
        field: Field::Level,
        found: u64::from(u16::MAX),
        wanted: u64::from(u16::MAX) - 1,
    }
}

/// Splits a root that has no room, and gives the half to which an entry belongs.
///
/// # Errors
///
/// As `take_page`; `Damaged` where the root stands on the highest level that there is.
fn grow_root<D: Disk>(
    store: &mut Store<D>,
    batch: &mut Batch,
    top: Root,
    full: PageBytes,
    e: &Entry,
) -> Result<PageBytes, SpaceFault>
    requires pool { IsPool D.meaning store.old }
    requires geometry { IsGeometry store.old.geometry }
    requires whole { AreWhole store.old.geometry batch.old.pages }
    requires online { store.old.offline ≡ None }
    requires place { IsPlaceFor store.old.geometry.size top.owner top.level e.now full }
    requires below { full.page.0 < store.old.geometry.limit }
    requires short { length e.now.key ≤ store.old.geometry.size / 8 }
    requires full { room_in full.bytes < most_need full.bytes }
    requires no_room { HasRoom full.bytes e.now → ⊥ }

    ensures reads { Reads D.meaning store.old store.new result }
    ensures widens { Widens store.old.geometry.size batch.old batch.new }
    ensures whole { OnOk result (AreWhole store.old.geometry batch.new.pages) }
    ensures half { IfOk result (λ half. half.page.0 < store.old.geometry.limit) }
    ensures roomy { IfOk result (IsRoomy store.old.geometry.size top.owner top.level e.now) }
    ensures makes { (image : Image) (levels : List (List ℕ)) → Tells D.meaning store.old.disk image
        → top.level ≡ level_in (viewed store.old image batch.old top.page.0)
        → StandsIn store.old.geometry.size (viewed store.old image batch.old) top.owner top.page.0
        levels full
        → MakesRoomIn store.old.geometry (viewed store.old image batch.old)
        (viewed store.old image batch.new) batch.old batch.new top.owner top.page.0 levels top.level
        e.now result }
{
    if top.level == u16::MAX {
        return Err(SpaceFault::Damaged(high_root(top.page)));
    }
    let two = take_two(store, batch)?;
    Ok(put_growth(store, batch, top, full, two, e)?)
}

/// Puts the pages of a root that splits, and gives the half to which an entry belongs.
///
/// # Errors
///
/// `Memory` only. The batch may then have a part of them.
fn put_growth<D: Disk>(
    store: &Store<D>,
    batch: &mut Batch,
    top: Root,
    full: PageBytes,
    two: TwoPages,
    e: &Entry,
) -> Result<PageBytes, Memory>
    requires geometry { IsGeometry store.now.geometry }
    requires len { length full.bytes ≡ store.now.geometry.size }
    requires lawful { IsNodePage full.bytes }
    requires full { room_in full.bytes < most_need full.bytes }
    requires level { top.level < 65535 }
    ensures splits { IfOk result (SplitsRoot store.now.geometry.size batch.old batch.new top.owner
        top.level full two e.now) }
    ensures widens { Widens store.now.geometry.size batch.old batch.new }
{
    let growth = grow(store.alloc(), full, top.owner, top.level, two)?;
    put_root(batch, store.geometry().size, &growth)?;
    Ok(half_for(growth.halves, e))
}

/// Puts the pages of a root that splits, with their orders.
///
/// # Errors
///
/// `Memory` only. The batch may then have a part of them.
fn put_root(batch: &mut Batch, size: u32, growth: &Growth) -> Result<(), Memory>
    requires size { is_page_size size ≡ true }
    requires left { length growth.now.halves.left.bytes ≡ size }
    requires right { length growth.now.halves.right.bytes ≡ size }
    requires root { length growth.now.root.bytes ≡ size }
    ensures puts { OnOk result (PutsRoot size batch.old batch.new growth.now) }
    ensures widens { Widens size batch.old batch.new }
{
    put_three(
        batch,
        &growth.halves.left,
        &growth.halves.right,
        &growth.root,
    )?;
    let at = SplitPages {
        left: growth.halves.left.page,
        right: growth.halves.right.page,
        above: growth.root.page,
    };
    order_root(batch, size, &growth.names, &growth.halves.names, at)
}

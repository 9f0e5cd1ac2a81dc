//! Putting an entry into a tree.

ghost use Rattle.std.specs.Prelude.{◌≡◌, ◌≤◌, ◌/◌, IfOk, List, None, Ok as Fine, OnErr, OnOk, length, ℕ, ◌<◌};
ghost use Rattle.mg_base.specs.Image.{Image};
ghost use Rattle.mg_image.specs.Indexes.{IsTree};
ghost use Rattle.mg_node.specs.NodePage.{IsNodePage, level_in};
ghost use Rattle.mg_node_writing.specs.NodeChanges.{InsertsEntry, IsEntryOf, IsSized};
ghost use Rattle.mg_pool.specs.Pool.{IsPool};
ghost use Rattle.mg_space.specs.Taking.{IsGeometry};
ghost use Rattle.mg_space.specs.View.{AreWhole, Tells, viewed};
ghost use Rattle.mg_btree.specs.Changing.{HasNoInventory};
ghost use Rattle.mg_btree.specs.Halves.{CoversBy, HasRoom};
ghost use Rattle.mg_btree.specs.Inserting.{FindsLeaf, Inserts, PutsWith};
ghost use Rattle.mg_btree.specs.Ordering.{Widens};
ghost use Rattle.mg_btree.specs.Reading.{Reads};
ghost use Rattle.mg_btree.specs.Searching.{IsReached};

use crate::halves::{PageBytes, has_place};
use crate::making::{as_place, make_room};
use crate::node::ReadNode;
use crate::root::{Root, root_of};
use crate::search::descend;
use mg_base::{Disk, Memory, PageNo};
use mg_node::Entry;
use mg_pool::Batch;
use mg_space::{SpaceFault, Store};

/// The leaf at which an entry belongs, and what the root says of its tree.
#[derive(Drop)]
pub(crate) struct Leaf {
    pub top: Root,
    pub read: ReadNode,
}

/// Puts an entry into the tree with this root; where it is there nothing changes. Its key has an
/// eighth of the page's bytes at most, and its child is 0.
///
/// A page of the tree splits exactly where the entry that it is to have does not fit, and a page is
/// taken for each that splits; the root, which never moves, takes two. The batch orders what a new
/// page names before it, a new page and its inventory page before those that come to name it, and the
/// page that splits before the one above.
/// Source: Firebird ODS, index page.
///
/// # Errors
///
/// `Full` where a page splits and no page is free; `Damaged` only where no tree stands there, where a
/// page of the inventory is damaged, or, at `Level` of the root, where that is to split and stands on
/// level 65535 (wanted 65534); `Pool` with `DiskRead`, `Offline` or `Memory`. The batch may then have a part of the changes; the caller drops it.
pub fn insert<D: Disk>(
    store: &mut Store<D>,
    batch: &mut Batch,
    root: PageNo,
    e: &Entry,
) -> Result<(), SpaceFault>
    requires pool { IsPool D.meaning store.old }
    requires geometry { IsGeometry store.old.geometry }
    requires whole { AreWhole store.old.geometry batch.old.pages }
    requires short { length e.now.key ≤ store.old.geometry.size / 8 }
    requires child { e.now.child.0 ≡ 0 }

    ensures reads { Reads D.meaning store.old store.new result }
    ensures widens { Widens store.old.geometry.size batch.old batch.new }
    ensures whole { OnOk result (AreWhole store.old.geometry batch.new.pages) }
    ensures inserts { (image : Image) (owner : ℕ) (levels : List (List ℕ))
        → Tells D.meaning store.old.disk image
        → IsTree store.old.geometry.size (viewed store.old image batch.old) owner root.0 levels
        → HasNoInventory store.old.geometry.size levels
        → Inserts store.old.geometry (viewed store.old image batch.old)
        (viewed store.new image batch.new) batch.old batch.new owner root.0 levels e.now result }
{
    let leaf = find_leaf(store, batch, root, e)?;
    put_at(store, batch, leaf, e)
}

/// Reads the leaf at which an entry belongs, and what the root says of its tree.
///
/// # Errors
///
/// `Damaged` only where no tree stands there; else the cache's.
fn find_leaf<D: Disk>(
    store: &mut Store<D>,
    batch: &Batch,
    root: PageNo,
    e: &Entry,
) -> Result<Leaf, SpaceFault>
    requires pool { IsPool D.meaning store.old }
    requires geometry { IsGeometry store.old.geometry }
    requires whole { AreWhole store.old.geometry batch.now.pages }

    ensures reads { Reads D.meaning store.old store.new result }
    ensures reached { IfOk result (λ leaf.
        IsReached store.old.geometry.size leaf.top.owner 0 e.now leaf.read) }
    ensures below { IfOk result (λ leaf. leaf.read.page.0 < store.old.geometry.limit) }
    ensures finds { (image : Image) (owner : ℕ) (levels : List (List ℕ))
        → Tells D.meaning store.old.disk image
        → IsTree store.old.geometry.size (viewed store.old image batch.now) owner root.0 levels
        → FindsLeaf (viewed store.old image batch.now) owner root.0 levels result }
{
    let top = root_of(store, batch, root)?;
    let read = descend(store, batch, top.owner, root, top.level, 0, e)?;
    Ok(Leaf { top, read })
}

/// Puts an entry into the leaf at which it belongs, or into a half of it; where it is there nothing
/// changes.
///
/// # Errors
///
/// As `make_room`.
fn put_at<D: Disk>(
    store: &mut Store<D>,
    batch: &mut Batch,
    leaf: Leaf,
    e: &Entry,
) -> Result<(), SpaceFault>
    requires pool { IsPool D.meaning store.old }
    requires geometry { IsGeometry store.old.geometry }
    requires whole { AreWhole store.old.geometry batch.old.pages }
    requires online { store.old.offline ≡ None }
    requires short { length e.now.key ≤ store.old.geometry.size / 8 }
    requires child { e.now.child.0 ≡ 0 }
    requires reached { IsReached store.old.geometry.size leaf.top.owner 0 e.now leaf.read }
    requires below { leaf.read.page.0 < store.old.geometry.limit }

    ensures reads { Reads D.meaning store.old store.new result }
    ensures widens { Widens store.old.geometry.size batch.old batch.new }
    ensures whole { OnOk result (AreWhole store.old.geometry batch.new.pages) }
    ensures inserts { (image : Image) (owner root : ℕ) (levels : List (List ℕ))
        → Tells D.meaning store.old.disk image
        → IsTree store.old.geometry.size (viewed store.old image batch.old) owner root levels
        → HasNoInventory store.old.geometry.size levels
        → FindsLeaf (viewed store.old image batch.old) owner root levels (Fine leaf)
        → Inserts store.old.geometry (viewed store.old image batch.old)
        (viewed store.old image batch.new) batch.old batch.new owner root levels e.now result }
{
    let Leaf { top, read } = leaf;
    if has_place(&read.node.entries, e) {
        return Ok(());
    }
    let page = make_room(store, batch, top, 0, as_place(read), e)?;
    Ok(put_with(batch, page, e)?)
}

/// Puts a leaf with an entry more into a batch, for which it has room.
///
/// # Errors
///
/// `Memory` only. The batch is then as before.
fn put_with(batch: &mut Batch, page: PageBytes, e: &Entry) -> Result<(), Memory>
    requires sized { IsSized page.bytes }
    requires lawful { IsNodePage page.bytes }
    requires leaf { level_in page.bytes ≡ 0 }
    requires covers { CoversBy page.bytes e.now }
    requires room { HasRoom page.bytes e.now }
    requires short { length e.now.key ≤ length page.bytes / 8 }
    requires child { e.now.child.0 ≡ 0 }
    ensures puts { OnOk result (PutsWith batch.old batch.new page e.now) }
    ensures same { OnErr result (batch.new ≡ batch.old) }
{
    let PageBytes { page, bytes } = page;
    let mut bytes = bytes.into_vec();
    put_entry(&mut bytes, e);
    batch.put(page, &bytes)
}

/// Puts an entry into a leaf that has room for it.
fn put_entry(b: &mut [u8], e: &Entry)
    requires sized { IsSized b.old }
    requires lawful { IsNodePage b.old }
    requires leaf { level_in b.old ≡ 0 }
    requires covers { CoversBy b.old e.now }
    requires room { HasRoom b.old e.now }
    requires short { length e.now.key ≤ length b.old / 8 }
    requires child { e.now.child.0 ≡ 0 }
    ensures inserts { (IsEntryOf b.old e.now → ⊥) → InsertsEntry b.old b.new e.now }
    ensures lawful { IsNodePage b.new }
    ensures len { length b.new ≡ length b.old }
{
    match mg_node_writing::insert(b, e) {
        Ok(()) => {}
        Err(_) => unreachable!(),
    }
}

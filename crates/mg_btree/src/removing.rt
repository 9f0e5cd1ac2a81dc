//! Taking an entry out of a tree.

ghost use Rattle.std.specs.Prelude.{◌≡◌, ◌+◌, ◌≤◌, IfOk, List, OnErr, false, Ok as Fine, length, ℕ};
ghost use Rattle.mg_base.specs.Image.{Image};
ghost use Rattle.mg_image.specs.Indexes.{IsTree};
ghost use Rattle.mg_node.specs.NodePage.{IsNodePage, level_in};
ghost use Rattle.mg_node_writing.specs.NodeChanges.{IsSized};
ghost use Rattle.mg_pool.specs.Pool.{IsPool};
ghost use Rattle.mg_space.specs.Taking.{IsGeometry};
ghost use Rattle.mg_space.specs.View.{AreWhole, Tells, viewed};
ghost use Rattle.mg_btree.specs.Changing.{HasNoInventory, PutsOrStays, Removes};
ghost use Rattle.mg_btree.specs.Reading.{Reads};

use crate::node::ReadNode;
use crate::search::leaf_for;
use mg_base::{Disk, Memory, PageNo};
use mg_node::Entry;
use mg_pool::Batch;
use mg_space::{SpaceFault, Store};

/// Puts a leaf without an entry into a batch, and tells whether it was there.
///
/// # Errors
///
/// `Memory` only. The batch is then as before.
fn put_without(batch: &mut Batch, read: ReadNode, e: &Entry) -> Result<bool, Memory>
    requires sized { IsSized read.bytes }
    requires lawful { IsNodePage read.bytes }
    requires leaf { level_in read.bytes ≡ 0 }
    ensures puts { IfOk result (PutsOrStays batch.old batch.new read e.now) }
    ensures same { OnErr result (batch.new ≡ batch.old) }
{
    let ReadNode { page, bytes, .. } = read;
    let mut bytes = bytes.into_vec();
    if !mg_node_writing::remove(&mut bytes, e) {
        return Ok(false);
    }
    batch.put(page, &bytes)?;
    Ok(true)
}

/// Takes an entry out of the tree with this root, and tells whether it was there. The batch gets the
/// leaf without it, and no order: the caller orders the page of the record's last version with that
/// key before the leaf.
///
/// # Errors
///
/// `Damaged` only where no tree stands there; `Pool` with `DiskRead`, `Offline` or `Memory`. The
/// batch is then as before.
pub fn remove<D: Disk>(
    store: &mut Store<D>,
    batch: &mut Batch,
    root: PageNo,
    e: &Entry,
) -> Result<bool, SpaceFault>
    requires pool { IsPool D.meaning store.old }
    requires geometry { IsGeometry store.old.geometry }
    requires whole { AreWhole store.old.geometry batch.old.pages }

    ensures reads { Reads D.meaning store.old store.new result }
    ensures whole { AreWhole store.old.geometry batch.new.pages }
    ensures orders { batch.new.orders ≡ batch.old.orders }
    ensures few { length batch.new.pages ≤ length batch.old.pages + 1 }

    // The batch is as before where the entry was not there, and after a fault.
    ensures absent { result ≡ Fine false → batch.new ≡ batch.old }
    ensures same { OnErr result (batch.new ≡ batch.old) }

    ensures removes { (image : Image) (owner : ℕ) (levels : List (List ℕ))
        → Tells D.meaning store.old.disk image
        → IsTree store.old.geometry.size (viewed store.old image batch.old) owner root.0 levels
        → HasNoInventory store.old.geometry.size levels
        → Removes store.old.geometry.size (viewed store.old image batch.old)
        (viewed store.new image batch.new) batch.new owner root.0 levels e.now result }
{
    let read = leaf_for(store, batch, root, e)?;
    Ok(put_without(batch, read, e)?)
}

//! The records that the entries of a key name.

ghost use Rattle.std.specs.Prelude.{◌≡◌, ◌↔◌, ◌<◌, ◌+◌, ◌*◌, ◌^◌, IfOk, IsTrue, List, None, ℕ};
ghost use Rattle.mg_base.specs.Image.{Image};
ghost use Rattle.mg_image.specs.Indexes.{IsTree};
ghost use Rattle.mg_pool.specs.Pool.{IsPool};
ghost use Rattle.mg_space.specs.Taking.{IsGeometry};
ghost use Rattle.mg_space.specs.View.{Tells, viewed};
ghost use Rattle.mg_sortkey.specs.KeyBytes.{key_bytes as key_bytes_of};
ghost use Rattle.mg_btree.specs.Changing.{IsLeaf};
ghost use Rattle.mg_btree.specs.Ranges.{ScansFrom, no_pages};
ghost use Rattle.mg_btree.specs.Reading.{Reads};
ghost use Rattle.mg_lookup.specs.Along.{rank_of};
ghost use Rattle.mg_lookup.specs.Records.{GivesRecords, NamesRecords};

use mg_base::{Disk, Memory, PageNo, RecId};
use mg_btree::{Step, Walk, walk_from, walk_on};
use mg_node::Entry;
use mg_sortkey::key_bytes;
use mg_space::{SpaceFault, Store};
use mg_value::Value;
use std::alloc::Global;

/// There are fewer ranks than this: a page number has four bytes, and a slot two.
const RANKS: u64 = 1 << 48;

/// The place of a record among all that there could be.
fn rank(rec: RecId) -> u64
    ensures rank { result ≡ rank_of rec }
    ensures below { rank_of rec < 2 ^ 48 }
    ensures slot { rec.slot < 65536 }
{
    u64::from(rec.page.0) * 65536 + u64::from(rec.slot)
}

/// Tells whether an entry has these key bytes.
fn has_key(entry: &Entry, key: &[u8]) -> bool
    ensures { IsTrue result ↔ (entry.now.key ≡ key.now) }
{
    entry.key.as_slice() == key
}

/// The key bytes of a value.
///
/// # Errors
///
/// `Memory` only.
fn bytes_of(alloc: Global, key: &Value) -> Result<Vec<u8>, Memory>
    ensures { IfOk result (λ bytes. bytes.items ≡ key_bytes_of key.now) }
{
    let mut bytes = Vec::new(alloc);
    key_bytes(key, &mut bytes)?;
    Ok(bytes)
}

/// The records that the entries with these key bytes name, from where a walk was begun for them.
///
/// # Errors
///
/// `Damaged` only where no tree stands there; else the cache's.
fn named_along<D: Disk>(
    store: &mut Store<D>,
    walk: Walk,
    key: &[u8],
) -> Result<Vec<RecId>, SpaceFault>
    requires pool { IsPool D.meaning store.old }
    requires geometry { IsGeometry store.old.geometry }
    requires leaf { IsLeaf store.old.geometry.size walk.leaf }
    requires online { store.old.offline ≡ None }

    ensures reads { Reads D.meaning store.old store.new result }
    ensures gives { (image : Image) (owner root : ℕ) (levels : List (List ℕ)) → Tells D.meaning store.old.disk image
        → ScansFrom store.old.geometry.size (viewed store.old image no_pages) owner root levels key.now None walk.leaf
        → NamesRecords (viewed store.old image no_pages) root key.now result }
{
    let mut found = Vec::new(store.alloc());
    let mut walk = walk;
    let mut after: Option<Entry> = None;
    let mut floor = 0;
    while floor <= RANKS {
        let Step {
            found: next,
            walk: onward,
            passed: _,
        } = walk_on(store, walk, key, after.as_ref())?;
        let Some(entry) = next else {
            return Ok(found);
        };
        if !has_key(&entry, key) {
            return Ok(found);
        }
        found.push(entry.rec)?;
        floor = rank(entry.rec) + 1;
        walk = onward;
        after = Some(entry);
    }
    Ok(found)
}

/// The records that the entries of a key name in an index, in the order of their places. It reads the pages from the root
/// down to the first of these entries, and the leaves on which they stand.
///
/// # Errors
///
/// `Damaged` only where no tree stands there; `Pool` with `DiskRead`, `Offline` or `Memory`.
pub fn records_of_key<D: Disk>(
    store: &mut Store<D>,
    root: PageNo,
    key: &Value,
) -> Result<Vec<RecId>, SpaceFault>
    requires pool { IsPool D.meaning store.old }
    requires geometry { IsGeometry store.old.geometry }

    ensures reads { Reads D.meaning store.old store.new result }
    ensures gives { (image : Image) (owner : ℕ) (levels : List (List ℕ)) → Tells D.meaning store.old.disk image
        → IsTree store.old.geometry.size (viewed store.old image no_pages) owner root.0 levels
        → GivesRecords (viewed store.old image no_pages) root.0 key.now result }
{
    store.online()?;
    let bytes = bytes_of(store.alloc(), key)?;
    let walk = walk_from(store, root, &bytes)?;
    named_along(store, walk, &bytes)
}

//! Laying the entries of a row.

ghost use Rattle.std.specs.Prelude.{◌≡◌, ◌↔◌, ◌≤◌, ◌/◌, IfOk, IsTrue, MatchResult, length};
ghost use Rattle.mg_image.specs.Indexes.{index_entry};
ghost use Rattle.mg_pool.specs.Pool.{IsPool};
ghost use Rattle.mg_space.specs.Taking.{IsGeometry};
ghost use Rattle.mg_sortkey.specs.KeyBytes.{key_bytes as key_bytes_of};
ghost use Rattle.mg_entries.specs.Entries.{FailsAll, FailsEntry, KeyFits, KeysFit, LaysAll, LaysEntry, value_in};

use mg_base::{Bytes, Disk, Memory, PageNo, RecId};
use mg_batches::change_batch;
use mg_btree::insert;
use mg_model::Index;
use mg_node::Entry;
use mg_pool::Batch;
use mg_sortkey::key_bytes;
use mg_space::{SpaceFault, Store};
use mg_value::{Row, Value};
use std::alloc::Global;

/// The key bytes of a row in an index: those of NULL where the row has no such column.
///
/// # Errors
///
/// `Memory` only.
fn bytes_in(alloc: Global, index: &Index, row: &Row) -> Result<Vec<u8>, Memory>
    ensures { IfOk result (λ bytes. bytes.items ≡ key_bytes_of (value_in index.now row.now)) }
{
    let mut bytes = Vec::new(alloc);
    match row.as_slice().get(usize::from(index.column)) {
        Some(value) => key_bytes(value, &mut bytes)?,
        None => key_bytes(&Value::Null, &mut bytes)?,
    }
    Ok(bytes)
}

/// The entry of a record's row in an index.
///
/// # Errors
///
/// `Memory` only.
fn entry_of(alloc: Global, index: &Index, rec: RecId, row: &Row) -> Result<Entry, Memory>
    ensures { IfOk result (λ entry. entry ≡ index_entry index.now rec row.now) }
{
    Ok(Entry {
        key: Bytes::new(bytes_in(alloc, index, row)?),
        rec,
        child: PageNo(0),
    })
}

/// Tells whether the key of a row in an index is short enough: an eighth of a page at most.
///
/// # Errors
///
/// `Memory` only.
fn key_fits(alloc: Global, size: u32, index: &Index, row: &Row) -> Result<bool, Memory>
    ensures { IfOk result (λ fits. IsTrue fits ↔ KeyFits size row.now index.now) }
{
    let bytes = bytes_in(alloc, index, row)?;
    Ok(bytes.len() <= (size / 8) as usize)
}

/// Tells whether the keys of a row are short enough in these indexes, with pages of `size` bytes: an eighth of a page at
/// most.
///
/// # Errors
///
/// `Memory` only.
pub fn keys_fit(alloc: Global, size: u32, indexes: &[Index], row: &Row) -> Result<bool, Memory>
    ensures { IfOk result (λ fit. IsTrue fit ↔ KeysFit size row.now indexes.now) }
{
    let mut rest = indexes;
    while let Some((index, later)) = rest.split_first() {
        if !key_fits(alloc, size, index, row)? {
            return Ok(false);
        }
        rest = later;
    }
    Ok(true)
}

/// Lays the entry of a record's row in an index, in a batch of its own. Where it is there already nothing changes.
///
/// # Errors
///
/// As `insert` of mg_btree, and as the change of a batch. The tree finds what it found, then.
pub fn lay_entry<D: Disk>(
    store: &mut Store<D>,
    index: &Index,
    rec: RecId,
    row: &Row,
) -> Result<(), SpaceFault>
    requires pool { IsPool D.meaning store.old }
    requires geometry { IsGeometry store.old.geometry }
    requires short { KeyFits store.old.geometry.size row.now index.now }

    ensures pool { IsPool D.meaning store.new }
    ensures geometry { store.new.geometry ≡ store.old.geometry }
    ensures lays { MatchResult result
        (λ _. LaysEntry D.meaning store.old store.new index.now.root.0 (index_entry index.now rec row.now))
        (FailsEntry D.meaning store.old store.new index.now.root.0 (index_entry index.now rec row.now)) }
{
    store.online()?;
    let entry = entry_of(store.alloc(), index, rec, row)?;
    let mut batch = Batch::new(store.alloc());
    insert(store, &mut batch, index.root, &entry)?;
    change_batch(store, batch)
}

/// Lays the entries of a record's row in these indexes, each in a batch of its own, one index after another.
///
/// # Errors
///
/// As `lay_entry`, at the first index where the entry is not laid. The entries of those before it stay.
pub fn lay_entries<D: Disk>(
    store: &mut Store<D>,
    indexes: &[Index],
    rec: RecId,
    row: &Row,
) -> Result<(), SpaceFault>
    requires pool { IsPool D.meaning store.old }
    requires geometry { IsGeometry store.old.geometry }
    requires short { KeysFit store.old.geometry.size row.now indexes.now }

    ensures pool { IsPool D.meaning store.new }
    ensures geometry { store.new.geometry ≡ store.old.geometry }
    ensures lays { MatchResult result (λ _. LaysAll D.meaning indexes.now rec row.now store.old store.new)
        (FailsAll D.meaning indexes.now rec row.now store.old store.new) }
{
    let mut rest = indexes;
    while let Some((index, later)) = rest.split_first() {
        lay_entry(store, index, rec, row)?;
        rest = later;
    }
    Ok(())
}

//! The entries of a write's row come into the indexes of its table.

ghost use Rattle.std.specs.Prelude.{◌≡◌, ◌↔◌, IfOk, IsTrue, MatchResult};
ghost use Rattle.mg_pool.specs.Pool.{IsPool};
ghost use Rattle.mg_space.specs.Taking.{IsGeometry};
ghost use Rattle.mg_row_writes.specs.Laying.{EntersRow, FailsEntering, KeysMayBeLaid};

use mg_base::{Disk, Memory, RecId};
use mg_entries::{keys_fit, lay_entries};
use mg_model::Table;
use mg_records::Write;
use mg_space::{SpaceFault, Store};
use std::alloc::Global;

/// Tells whether the keys of a write's row are short enough for the indexes of its table, with pages of `size` bytes.
/// A deletion has no entries.
///
/// # Errors
///
/// `Memory` only.
pub fn keys_may_be_laid(
    alloc: Global,
    size: u32,
    table: &Table,
    write: &Write,
) -> Result<bool, Memory>
    ensures { IfOk result (λ may. IsTrue may ↔ KeysMayBeLaid size table.now write.now) }
{
    match write {
        Write::Insert(row) => keys_fit(alloc, size, table.indexes.as_slice(), row),
        Write::Change(_, row) => keys_fit(alloc, size, table.indexes.as_slice(), row),
        Write::Erase(_) => Ok(true),
    }
}

/// Lays the entries of a write's row for a record, in the indexes of its table, each in a batch of its own. Of a
/// deletion none are laid.
///
/// # Errors
///
/// As `lay_entries` of mg_entries. The entries that were laid before stay.
pub fn enter_row<D: Disk>(
    store: &mut Store<D>,
    table: &Table,
    rec: RecId,
    write: &Write,
) -> Result<(), SpaceFault>
    requires pool { IsPool D.meaning store.old }
    requires geometry { IsGeometry store.old.geometry }
    requires short { KeysMayBeLaid store.old.geometry.size table.now write.now }

    ensures pool { IsPool D.meaning store.new }
    ensures geometry { store.new.geometry ≡ store.old.geometry }
    ensures enters { MatchResult result (λ _. EntersRow D.meaning store.old store.new table.now rec write.now)
        (FailsEntering D.meaning store.old store.new table.now rec write.now) }
{
    match write {
        Write::Insert(row) => lay_entries(store, table.indexes.as_slice(), rec, row),
        Write::Change(_, row) => lay_entries(store, table.indexes.as_slice(), rec, row),
        Write::Erase(_) => Ok(()),
    }
}

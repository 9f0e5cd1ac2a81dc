//! The candidates for a key of a table, by its primary index.

ghost use Rattle.std.specs.Prelude.{◌≡◌, IfOk, List, None, Some, ℕ};
ghost use Rattle.mg_base.specs.Image.{Image};
ghost use Rattle.mg_btree.specs.Ranges.{no_pages};
ghost use Rattle.mg_btree.specs.Reading.{Reads};
ghost use Rattle.mg_image.specs.Indexes.{IsTree};
ghost use Rattle.mg_key_entry_laws.specs.KeptEntries.{primary_in, primary_of};
ghost use Rattle.mg_lookup.specs.Records.{GivesCandidates};
ghost use Rattle.mg_model.specs.Changes.{same_name as same_name_test};
ghost use Rattle.mg_model.specs.declared.table.Index.{Index as AnyIndex};
ghost use Rattle.mg_pool.specs.Pool.{IsPool};
ghost use Rattle.mg_space.specs.Taking.{IsGeometry};
ghost use Rattle.mg_space.specs.View.{Tells, viewed};

use crate::entries::records_of_key;
use mg_base::{Disk, RecId};
use mg_model::{Index, Table};
use mg_space::{SpaceFault, Store};
use mg_value::{Name, Value};

/// Tells whether two names are the same.
fn same_name(a: &[u8], b: &[u8]) -> bool
    ensures { result ≡ same_name_test a.now b.now }
{
    a == b
}

/// The first index of a list that has a name.
fn index_named(indexes: &[Index], name: &Name) -> Option<Index>
    ensures { result ≡ primary_in name.now indexes.now }
{
    for index in indexes {
        if same_name(index.name.as_slice(), name.as_slice()) {
            return Some(*index);
        }
    }
    None
}

/// The primary index of a table: the one that has the table's name. None where it has none.
pub fn primary_index(table: &Table) -> Option<Index>
    ensures { result ≡ primary_of table.now }
{
    index_named(table.indexes.as_slice(), &table.name)
}

/// The records among which the one that speaks for a key of a table is looked for: those that the entries of the key name
/// in the table's primary index. None exactly where it has none.
///
/// # Errors
///
/// As `records_of_key`.
pub fn candidates_by_key<D: Disk>(
    store: &mut Store<D>,
    table: &Table,
    key: &Value,
) -> Result<Option<Vec<RecId>>, SpaceFault>
    requires pool { IsPool D.meaning store.old }
    requires geometry { IsGeometry store.old.geometry }

    ensures reads { Reads D.meaning store.old store.new result }
    ensures none { IfOk result (λ found. found ≡ None → primary_of table.now ≡ None) }
    ensures gives { (image : Image) (owner : ℕ) (levels : List (List ℕ)) (index : AnyIndex)
        → Tells D.meaning store.old.disk image → primary_of table.now ≡ Some index
        → IsTree store.old.geometry.size (viewed store.old image no_pages) owner index.root.0 levels
        → GivesCandidates (viewed store.old image no_pages) index.root.0 key.now result }
{
    store.online()?;
    let Some(index) = primary_index(table) else {
        return Ok(None);
    };
    let records = records_of_key(store, index.root, key)?;
    Ok(Some(records))
}

//! Which rows of the catalog are taken back.

ghost use Rattle.std.specs.Prelude.{◌≡◌, ◌++◌, ◌∷◌, [], IfOk, OnOk, if◌then◌else◌};
ghost use Rattle.mg_table_takings.specs.Keys.{AreKeysGiven};

use mg_base::{Disk, Memory};
use mg_core::Core;
use mg_undo::Undo;
use mg_value::Key;
use std::alloc::Global;

/// Puts a key behind others, if it is one of theirs.
///
/// # Errors
///
/// `Memory` only.
fn note_key(keys: &mut Vec<Key>, is_theirs: bool, key: Key) -> Result<(), Memory>
    ensures { OnOk result (keys.new.items ≡ (if is_theirs then keys.old.items ++ (key ∷ []) else keys.old.items)) }
{
    if is_theirs {
        keys.push(key)?;
    }
    Ok(())
}

/// The keys of a table that are given from a list on, in turn.
///
/// `number` is the table's first page.
///
/// # Errors
///
/// `Memory` only.
fn keys_given(undo: Undo, number: u32, alloc: Global) -> Result<Vec<Key>, Memory>
    ensures { IfOk result (λ keys. AreKeysGiven number undo keys.items) }
{
    let mut left = undo;
    let mut keys = Vec::new(alloc);
    while let Some(change) = left.take_back() {
        let (table, key, _) = change;
        note_key(&mut keys, table == number, key)?;
    }
    Ok(keys)
}

/// The keys of the rows of the catalog that are taken back from a list on.
///
/// # Errors
///
/// `Memory` only.
pub(crate) fn rows_to_take<D: Disk>(core: &Core<D>, undo: &Undo) -> Result<Vec<Key>, Memory>
    ensures { IfOk result (λ keys. AreKeysGiven core.now.catalog.pointer.0 undo.now keys.items) }
{
    let alloc = core.store.alloc();
    keys_given(undo.copy(alloc)?, core.catalog.pointer.0, alloc)
}

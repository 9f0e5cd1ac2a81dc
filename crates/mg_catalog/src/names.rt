//! The names that keys of a letter have, in their order.

ghost use Rattle.std.specs.Prelude.{◌≡◌, ◌≤◌, [], OnOk, IfOk, IfSome, MatchOption, length};
ghost use Rattle.std.specs.List.{insert};
ghost use Rattle.mg_catalog.specs.ByKey.{row_key};
ghost use Rattle.mg_catalog.specs.Names.{insert_name, names_from, with_name};

use crate::keys::row_name;
use mg_base::{Bytes, Memory};
use mg_value::Row;
use std::alloc::Global;
use std::cmp::Ordering;

/// Where a name goes among names in their order, None where it stands already.
fn place_of(names: &[Bytes], name: &[u8]) -> Option<usize>
    ensures most { IfSome result (λ at. at ≤ length names.now) }
    ensures place { MatchOption result
        (insert_name name.now names.now ≡ names.now)
        (λ at. insert_name name.now names.now ≡ insert names.now at name.now) }
{
    for (at, other) in names.iter().enumerate() {
        match name.cmp(other.as_slice()) {
            Ordering::Less => return Some(at),
            Ordering::Equal => return None,
            Ordering::Greater => {}
        }
    }
    Some(names.len())
}

/// Puts a name among names in their order, where it does not stand already.
fn add_name(alloc: Global, names: &mut Vec<Bytes>, name: &[u8]) -> Result<(), Memory>
    ensures { OnOk result (names.new.items ≡ insert_name name.now names.old.items) }
{
    let Some(at) = place_of(names, name) else {
        return Ok(());
    };
    names.insert(at, Bytes::new(name.to_vec(alloc)?))?;
    Ok(())
}

/// Puts the name of a row's key among names, if the key begins with the letter.
fn add_row(alloc: Global, names: &mut Vec<Bytes>, row: &Row, letter: u8) -> Result<(), Memory>
    ensures { OnOk result
        (names.new.items ≡ with_name letter (row_key row.now) names.old.items) }
{
    match row_name(row, letter) {
        Some(name) => add_name(alloc, names, name),
        None => Ok(()),
    }
}

/// The names of the keys that begin with a letter, in their order, none twice.
pub(crate) fn names_of(alloc: Global, rows: &[Row], letter: u8) -> Result<Vec<Bytes>, Memory>
    ensures { IfOk result (λ names. names.items ≡ names_from letter rows.now []) }
{
    let mut names = Vec::new(alloc);
    let mut rest = rows;
    while let Some((row, later)) = rest.split_first() {
        add_row(alloc, &mut names, row, letter)?;
        rest = later;
    }
    Ok(names)
}

//! The search for an entry from a root on.

ghost use Rattle.std.specs.Prelude.{◌≡◌, ◌↔◌, IfOk, IsTrue, OnOk, ◌++◌};
ghost use Rattle.std.proofs.Common.{get_or};
ghost use Rattle.mg_value.specs.declared.value.Value.TheVariants.{Null as NoValue};
ghost use Rattle.mg_sortkey.specs.KeyBytes.{key_bytes as key_bytes_of};
ghost use Rattle.mg_image.specs.Indexes.{Finds, IsFoundIn, index_entry as index_entry_of};
ghost use Rattle.mg_image.specs.Tables.{Has};
ghost use Rattle.mg_reading.specs.ImageView.{pages_in};
ghost use Rattle.mg_trees.specs.Searches.{HasTrees, IsAlong, IsPageFor, IsSearched, IsTreeOf, child_after as child_after_of, first_page, last_child, pages_from};

use crate::compare::has_entry;
use crate::levels::{Level, Levels};
use crate::page::node_at;
use mg_base::{Bytes, Memory, PageNo, RecId};
use mg_model::Index;
use mg_node::{Entry, Node, is_up_to, order};
use mg_reading::Image;
use mg_sortkey::key_bytes;
use mg_value::Value;
use std::alloc::Global;
use std::cmp::Ordering;

/// What the page says on which an entry lies: the first of these whose high fence it lies below.
///
/// # Errors
///
/// `Memory` only.
fn page_for(alloc: Global, image: &Image, pages: &[u32], entry: &Entry) -> Result<Node, Memory>
    requires { IsAlong (pages_in image.now) entry.now pages.now }
    ensures { IfOk result (IsPageFor (pages_in image.now) entry.now pages.now) }
{
    let mut rest = pages;
    while let Some((n, later)) = rest.split_first() {
        let node = node_at(alloc, image, *n)?;
        if is_up_to(&node.high, entry) {
            return Ok(node);
        }
        rest = later;
    }
    unreachable!()
}

/// The child to go down by, after one entry more: that of the entry where it does not come behind
/// the one that is looked for.
fn child_after(child: u32, entry: &Entry, next: &Entry) -> u32
    ensures { result ≡ child_after_of entry.now child next.now }
{
    match order(entry, next) {
        Ordering::Less => child,
        Ordering::Equal => next.child.0,
        Ordering::Greater => next.child.0,
    }
}

/// The child of the last of these entries that does not come behind the one that is looked for.
fn child_for(entries: &[Entry], entry: &Entry) -> u32
    ensures { result ≡ last_child entry.now 0 entries.now }
{
    let mut child = 0;
    let mut rest = entries;
    while let Some((next, later)) = rest.split_first() {
        child = child_after(child, entry, next);
        rest = later;
    }
    child
}

/// These pages from one of them on.
fn from_page(pages: &[u32], n: u32) -> &[u32]
    ensures { result.now ≡ pages_from n pages.now }
{
    let mut rest = pages;
    while let Some((first, later)) = rest.split_first() {
        if *first == n {
            return rest;
        }
        rest = later;
    }
    rest
}

/// Whether an entry is found from the first of these pages on. Below them are these levels.
///
/// # Errors
///
/// `Memory` only.
fn is_found_from(
    alloc: Global,
    image: &Image,
    pages: &[u32],
    below: &[Level],
    entry: &Entry,
) -> Result<bool, Memory>
    requires { IsSearched image.now.size (pages_in image.now) entry.now pages.now below.now }
    ensures { IfOk result (λ found.
        IsTrue found ↔ Finds (pages_in image.now) entry.now (first_page pages.now)) }
{
    let node = page_for(alloc, image, pages, entry)?;
    let Some((next, lower)) = below.split_first() else {
        return Ok(has_entry(&node.entries, entry));
    };
    let child = child_for(&node.entries, entry);
    is_found_from(
        alloc,
        image,
        from_page(next.as_slice(), child),
        lower,
        entry,
    )
}

/// Appends the key bytes of the value at a place of a row, NULL past its end.
fn put_key(row: &[Value], at: usize, out: &mut Vec<u8>) -> Result<(), Memory>
    ensures { OnOk result
        (out.new.items ≡ out.old.items ++ key_bytes_of (get_or row.now at NoValue)) }
{
    match row.get(at) {
        Some(value) => key_bytes(value, out),
        None => key_bytes(&Value::Null, out),
    }
}

/// The entry of a record's row in an index.
///
/// # Errors
///
/// `Memory` only.
fn index_entry(alloc: Global, index: &Index, p: RecId, row: &[Value]) -> Result<Entry, Memory>
    ensures { IfOk result (λ entry. entry ≡ index_entry_of index.now p row.now) }
{
    let mut key = Vec::new(alloc);
    put_key(row, usize::from(index.column), &mut key)?;
    Ok(Entry {
        key: Bytes::new(key),
        rec: p,
        child: PageNo(0),
    })
}

/// Whether an entry is found from the root of an index on.
///
/// # Errors
///
/// `Memory` only.
fn is_found(
    alloc: Global,
    image: &Image,
    index: &Index,
    tree: &Levels,
    entry: &Entry,
) -> Result<bool, Memory>
    requires tree { IsTreeOf image.now.size (pages_in image.now) index.now.root.0 tree.now }
    ensures { IfOk result (λ found.
        IsTrue found ↔ Finds (pages_in image.now) entry.now index.now.root.0) }
{
    let Some((top, below)) = tree.as_slice().split_first() else {
        unreachable!()
    };
    is_found_from(alloc, image, top.as_slice(), below, entry)
}

/// Whether the row of a record is found in each of these indexes, whose trees are these.
///
/// # Errors
///
/// `Memory` only.
pub fn is_found_in(
    alloc: Global,
    image: &Image,
    indexes: &[Index],
    trees: &[Levels],
    p: RecId,
    row: &[Value],
) -> Result<bool, Memory>
    requires trees { HasTrees image.now.size (pages_in image.now) indexes.now trees.now }
    ensures { IfOk result (λ found.
        IsTrue found ↔ IsFoundIn (pages_in image.now) indexes.now p row.now) }
{
    let mut rest = indexes;
    let mut others = trees;
    while let Some((index, later)) = rest.split_first() {
        let Some((tree, other_trees)) = others.split_first() else {
            unreachable!()
        };
        let entry = index_entry(alloc, index, p, row)?;
        if !is_found(alloc, image, index, tree, &entry)? {
            return Ok(false);
        }
        rest = later;
        others = other_trees;
    }
    Ok(true)
}

//! The growth of a tree: its root splits, and keeps its page.

ghost use Rattle.std.specs.Prelude.{◌≡◌, ◌<◌, ◌≤◌, ◌/◌, [], IfOk, OnOk, length};
ghost use Rattle.mg_base.specs.Image.{Image};
ghost use Rattle.mg_base.specs.Fields.{with_u32};
ghost use Rattle.mg_node.specs.NodePage.{IsLeast, IsNodePage};
ghost use Rattle.mg_node_writing.specs.NewNodes.{CopiesNode};
ghost use Rattle.mg_node_writing.specs.NodeChanges.{IsSized, most_need, room_in};
ghost use Rattle.mg_pool.specs.Pool.{IsPool};
ghost use Rattle.mg_space.specs.Taking.{IsGeometry};
ghost use Rattle.mg_space.specs.View.{AreWhole, Tells, viewed};
ghost use Rattle.mg_btree.specs.Growing.{IsGrowth, NamesOne, NamesTwo, TakesTwo};
ghost use Rattle.mg_btree.specs.Ordering.{Widens};
ghost use Rattle.mg_btree.specs.Reading.{Reads};
ghost use Rattle.mg_btree.specs.Rooms.{TakesAlone};

use crate::halves::{Halves, PageBytes, halve, names_of, put_name};
use mg_base::{Bytes, Disk, Memory, OWN_AT, PageNo, RecId};
use mg_node::Entry;
use mg_node_writing::{copy_node, insert, new_node};
use mg_pool::Batch;
use mg_space::{SpaceFault, Store, take_page};
use std::alloc::Global;

/// Two pages that were taken.
#[derive(Clone, Copy)]
pub(crate) struct TwoPages {
    pub first: PageNo,
    pub second: PageNo,
}

/// A root that splits: its halves on two pages, and its new content.
#[derive(Drop)]
pub(crate) struct Growth {
    pub halves: Halves,
    /// The pages that the left half names.
    pub names: Vec<PageNo>,
    pub root: PageBytes,
}

/// Takes two pages.
///
/// # Errors
///
/// As `take_page`. The batch may then have the first page's bit.
pub(crate) fn take_two<D: Disk>(
    store: &mut Store<D>,
    batch: &mut Batch,
) -> Result<TwoPages, SpaceFault>
    requires pool { IsPool D.meaning store.old }
    requires geometry { IsGeometry store.old.geometry }
    requires whole { AreWhole store.old.geometry batch.old.pages }

    ensures reads { Reads D.meaning store.old store.new result }
    ensures widens { Widens store.old.geometry.size batch.old batch.new }
    ensures takes { (image : Image) → Tells D.meaning store.old.disk image
        → TakesTwo store.old.geometry (viewed store.old image batch.old)
        (viewed store.old image batch.new) batch.new result }
    ensures alone { OnOk result (TakesAlone 2 batch.old batch.new) }
    ensures whole { OnOk result (AreWhole store.old.geometry batch.new.pages) }
    ensures first { IfOk result (λ two. two.first.0 < store.old.geometry.limit) }
    ensures second { IfOk result (λ two. two.second.0 < store.old.geometry.limit) }
{
    let first = take_page(store, batch)?;
    let second = take_page(store, batch)?;
    Ok(TwoPages { first, second })
}

/// Shares a root's content out between two pages, which the root comes to name.
///
/// # Errors
///
/// `Memory` only.
pub(crate) fn grow(
    alloc: Global,
    full: PageBytes,
    owner: u32,
    level: u16,
    at: TwoPages,
) -> Result<Growth, Memory>
    requires sized { IsSized full.bytes }
    requires lawful { IsNodePage full.bytes }
    requires full { room_in full.bytes < most_need full.bytes }
    requires level { level < 65535 }
    ensures { IfOk result (IsGrowth owner full.page.0 level at.first.0 at.second.0 full.bytes) }
{
    let size = full.bytes.len();
    let copy = copy_to(alloc, full.bytes.as_slice(), at.first)?;
    let halves = halve(alloc, copy, at.second)?;
    let names = names_of(alloc, halves.left.bytes.as_slice())?;
    let first = least_entry(alloc, at.first);
    let root = root_with(
        alloc,
        size,
        full.page,
        owner,
        level + 1,
        &first,
        &halves.fence,
    )?;
    Ok(Growth {
        halves,
        names,
        root,
    })
}

/// A page with the content of another one.
///
/// # Errors
///
/// `Memory` only.
fn copy_to(alloc: Global, from: &[u8], page: PageNo) -> Result<PageBytes, Memory>
    requires sized { IsSized from.now }
    requires lawful { IsNodePage from.now }
    ensures page { IfOk result (λ copy. copy.page ≡ page) }
    ensures bytes { IfOk result (λ copy. copy.bytes ≡ with_u32 from.now OWN_AT page.0) }
    ensures copies { IfOk result (λ copy. CopiesNode from.now copy.bytes page.0) }
{
    let mut bytes = vec![in alloc; 0u8; from.len()]?;
    copy_node(from, &mut bytes, page);
    Ok(PageBytes {
        page,
        bytes: Bytes::new(bytes),
    })
}

/// The least entry, for a page.
fn least_entry(alloc: Global, child: PageNo) -> Entry
    ensures { result ≡ record { key = []; rec = record { page = record { 0 = 0 }; slot = 0 }; child = child } }
{
    Entry {
        key: Bytes::new(Vec::new(alloc)),
        rec: RecId {
            page: PageNo(0),
            slot: 0,
        },
        child,
    }
}

/// An inner page that names two others, the first one by the least entry.
///
/// # Errors
///
/// `Memory` only.
fn root_with(
    alloc: Global,
    size: usize,
    page: PageNo,
    owner: u32,
    level: u16,
    first: &Entry,
    second: &Entry,
) -> Result<PageBytes, Memory>
    requires least { 1024 ≤ size }
    requires most { size ≤ 16384 }
    requires inner { 0 < level }
    requires first { IsLeast first.now }
    requires second { IsLeast second.now → ⊥ }
    requires short { length second.now.key ≤ size / 8 }
    ensures page { IfOk result (λ root. root.page ≡ page) }
    ensures names { IfOk result (λ root. NamesTwo size page.0 owner level first.now second.now root.bytes) }
{
    let mut bytes = vec![in alloc; 0u8; size]?;
    name_two(&mut bytes, page, owner, level, first, second);
    Ok(PageBytes {
        page,
        bytes: Bytes::new(bytes),
    })
}

/// Makes an inner page that names two others, the first one by the least entry.
fn name_two(b: &mut [u8], page: PageNo, owner: u32, level: u16, first: &Entry, second: &Entry)
    requires sized { IsSized b.old }
    requires inner { 0 < level }
    requires first { IsLeast first.now }
    requires second { IsLeast second.now → ⊥ }
    requires short { length second.now.key ≤ length b.old / 8 }
    ensures { NamesTwo (length b.old) page.0 owner level first.now second.now b.new }
{
    name_one(b, page, owner, level, first);
    put_name(b, second);
}

/// Makes an inner page that names another one by the least entry.
fn name_one(b: &mut [u8], page: PageNo, owner: u32, level: u16, first: &Entry)
    requires sized { IsSized b.old }
    requires inner { 0 < level }
    requires first { IsLeast first.now }
    ensures { NamesOne (length b.old) page.0 owner level first.now b.new }
{
    new_node(b, page, owner, level);
    match insert(b, first) {
        Ok(()) => {}
        Err(_) => unreachable!(),
    }
}

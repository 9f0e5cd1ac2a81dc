//! What the pages of a level owe to those of the level below, and to each other.

ghost use Rattle.std.specs.Prelude.{◌≡◌, ◌≢◌, ◌<◌, ◌≤◌, ◌↔◌, IfErr, IfOk, IsTrue, OnOk};
ghost use Rattle.mg_node.specs.NodePage.{IsNodePage, low_of};
ghost use Rattle.mg_node.specs.NodeReading.{IsNodeOf};
ghost use Rattle.mg_image.specs.Indexes.{AreChildren, EachPage, HasChildren, IsNode};
ghost use Rattle.mg_reading.specs.ImageView.{pages_in};
ghost use Rattle.mg_reading.specs.Readable.{Refutes};
ghost use Rattle.mg_trees.specs.Trees.{AreFencesApart, AreLawful, HasFences, IsBounded, IsChild, IsFirstChild, IsInner};

use crate::compare::{are_equal_fences, has_page, is_fence_of};
use crate::page::node_at;
use mg_base::Memory;
use mg_node::{Entry, Node, is_up_to};
use mg_reading::{Image, ReadFault, Rule};
use std::alloc::Global;

/// The low fence of a lawful index page.
///
/// # Errors
///
/// `Memory` only.
fn low_fence(alloc: Global, image: &Image, n: u32) -> Result<Option<Entry>, Memory>
    requires { IsNodePage (pages_in image.now n) }
    ensures { IfOk result (λ low. low ≡ low_of (pages_in image.now n)) }
{
    Ok(node_at(alloc, image, n)?.low)
}

/// Tests a child of an entry: it stands on the level below, and its low fence is the entry.
///
/// # Errors
///
/// `Broken` only where it is not so; `Memory`.
fn check_child(alloc: Global, image: &Image, below: &[u32], entry: &Entry) -> Result<(), ReadFault>
    requires { AreLawful (pages_in image.now) below.now }
    ensures child { OnOk result (IsChild (pages_in image.now) below.now entry.now) }
    ensures broken { IfErr result (Refutes (IsChild (pages_in image.now) below.now entry.now)) }
{
    if !has_page(below, entry.child.0) {
        return Err(ReadFault::Broken(Rule::Once));
    }
    let low = low_fence(alloc, image, entry.child.0)?;
    if !is_fence_of(&low, entry) {
        return Err(ReadFault::Broken(Rule::Once));
    }
    Ok(())
}

/// Tests the children of entries, but for the first one of a page.
///
/// # Errors
///
/// `Broken` only where one is not as wanted; `Memory`.
fn check_later_children(
    alloc: Global,
    image: &Image,
    below: &[u32],
    entries: &[Entry],
) -> Result<(), ReadFault>
    requires { AreLawful (pages_in image.now) below.now }
    ensures children { OnOk result (AreChildren (pages_in image.now) below.now entries.now) }
    ensures broken { IfErr result (Refutes
        (AreChildren (pages_in image.now) below.now entries.now)) }
{
    let mut rest = entries;
    while let Some((entry, later)) = rest.split_first() {
        check_child(alloc, image, below, entry)?;
        rest = later;
    }
    Ok(())
}

/// Tests the first child of a page: it stands on the level below, and has the page's low fence.
///
/// # Errors
///
/// `Broken` only where it is not so; `Memory`.
fn check_first_child(
    alloc: Global,
    image: &Image,
    below: &[u32],
    low: &Option<Entry>,
    entry: &Entry,
) -> Result<(), ReadFault>
    requires { AreLawful (pages_in image.now) below.now }
    ensures child { OnOk result (IsFirstChild (pages_in image.now) below.now low.now entry.now) }
    ensures broken { IfErr result (Refutes
        (IsFirstChild (pages_in image.now) below.now low.now entry.now)) }
{
    if !has_page(below, entry.child.0) {
        return Err(ReadFault::Broken(Rule::Once));
    }
    let child = low_fence(alloc, image, entry.child.0)?;
    if !are_equal_fences(&child, low) {
        return Err(ReadFault::Broken(Rule::Once));
    }
    Ok(())
}

/// Tests the children of a page with this low fence.
///
/// # Errors
///
/// `Broken` only where one is not as wanted; `Memory`.
fn check_children(
    alloc: Global,
    image: &Image,
    below: &[u32],
    low: &Option<Entry>,
    entries: &[Entry],
) -> Result<(), ReadFault>
    requires { AreLawful (pages_in image.now) below.now }
    ensures children { OnOk result
        (HasChildren (pages_in image.now) below.now low.now entries.now) }
    ensures broken { IfErr result (Refutes
        (HasChildren (pages_in image.now) below.now low.now entries.now)) }
{
    let Some((first, later)) = entries.split_first() else {
        return Ok(());
    };
    check_first_child(alloc, image, below, low, first)?;
    check_later_children(alloc, image, below, later)
}

/// Whether the low fence of a page is less than its high one, where it has both.
fn are_fences_apart(node: &Node) -> bool
    ensures { IsTrue result ↔ AreFencesApart node.now.low node.now.high }
{
    match &node.low {
        None => true,
        Some(low) => is_up_to(&node.high, low),
    }
}

/// Tests that a page has a high fence exactly where it has a right neighbour, whose low fence is
/// the same, and that its own low fence is less than that.
///
/// # Errors
///
/// `Broken` only where it is not so; `Memory`.
fn check_neighbour(alloc: Global, image: &Image, node: &Node) -> Result<(), ReadFault>
    requires { node.now.right.0 ≢ 0 → IsNodePage (pages_in image.now node.now.right.0) }
    ensures fences { OnOk result (HasFences (pages_in image.now) node.now) }
    ensures broken { IfErr result (Refutes (HasFences (pages_in image.now) node.now)) }
{
    let right = node.right.0;
    if node.high.is_some() != (right != 0) || !are_fences_apart(node) {
        return Err(ReadFault::Broken(Rule::Once));
    }
    if right == 0 {
        return Ok(());
    }
    let low = low_fence(alloc, image, right)?;
    if !are_equal_fences(&low, &node.high) {
        return Err(ReadFault::Broken(Rule::Once));
    }
    Ok(())
}

/// Tests what an inner page owes to the level below.
///
/// # Errors
///
/// `Broken` only where it has one entry or none, or a child is not as wanted; `Memory`.
fn check_inner(alloc: Global, image: &Image, below: &[u32], node: &Node) -> Result<(), ReadFault>
    requires { AreLawful (pages_in image.now) below.now }
    ensures inner { OnOk result (IsInner (pages_in image.now) below.now node.now) }
    ensures broken { IfErr result (Refutes (IsInner (pages_in image.now) below.now node.now)) }
{
    if node.entries.len() < 2 {
        return Err(ReadFault::Broken(Rule::Once));
    }
    check_children(alloc, image, below, &node.low, &node.entries)
}

/// Tests what a page owes to the level below: nothing where it is a leaf.
///
/// # Errors
///
/// `Broken` only where it is not so; `Memory`.
fn check_above(
    alloc: Global,
    image: &Image,
    level: u16,
    below: &[u32],
    node: &Node,
) -> Result<(), ReadFault>
    requires { AreLawful (pages_in image.now) below.now }
    ensures inner { OnOk result (0 < level → IsInner (pages_in image.now) below.now node.now) }
    ensures broken { IfErr result (Refutes
        (0 < level → IsInner (pages_in image.now) below.now node.now)) }
{
    if level == 0 {
        return Ok(());
    }
    check_inner(alloc, image, below, node)
}

/// Tests a page of an index against the level below, and its neighbour.
///
/// # Errors
///
/// `Broken` only where it is none of an index; `Memory`.
fn check_page(
    alloc: Global,
    image: &Image,
    owner: u32,
    level: u16,
    below: &[u32],
    n: u32,
) -> Result<(), ReadFault>
    requires page { IsBounded image.now.size (pages_in image.now) owner level n }
    requires below { AreLawful (pages_in image.now) below.now }
    ensures node { OnOk result
        (IsNode image.now.size (pages_in image.now) owner level below.now n) }
    ensures broken { IfErr result (Refutes
        (IsNode image.now.size (pages_in image.now) owner level below.now n)) }
{
    let node = node_at(alloc, image, n)?;
    check_above(alloc, image, level, below, &node)?;
    check_neighbour(alloc, image, &node)
}

/// Tests the pages of a level against the level below.
///
/// # Errors
///
/// `Broken` only where one is none of an index; `Memory`.
pub(crate) fn check_pages(
    alloc: Global,
    image: &Image,
    owner: u32,
    level: u16,
    below: &[u32],
    pages: &[u32],
) -> Result<(), ReadFault>
    requires pages { EachPage (IsBounded image.now.size (pages_in image.now) owner level)
        pages.now }
    requires below { AreLawful (pages_in image.now) below.now }
    ensures nodes { OnOk result (EachPage
        (IsNode image.now.size (pages_in image.now) owner level below.now) pages.now) }
    ensures broken { IfErr result (Refutes (EachPage
        (IsNode image.now.size (pages_in image.now) owner level below.now) pages.now)) }
{
    let mut rest = pages;
    while let Some((n, later)) = rest.split_first() {
        check_page(alloc, image, owner, level, below, *n)?;
        rest = later;
    }
    Ok(())
}

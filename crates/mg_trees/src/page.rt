//! The pages of one level.

ghost use Rattle.std.specs.Prelude.{◌≡◌, ◌≢◌, ◌<◌, ◌^◌, IfErr, IfOk, IsOk, IsTrue, ◌↔◌};
ghost use Rattle.mg_node.specs.NodePage.{IsNodePage, node_checks};
ghost use Rattle.mg_node.specs.NodeReading.{IsNodeOf};
ghost use Rattle.mg_image.specs.Reached.{IsAsWanted};
ghost use Rattle.mg_reading.specs.ImageView.{pages_in};
ghost use Rattle.mg_reading.specs.Readable.{Refutes};
ghost use Rattle.mg_trees.specs.Trees.{HasLevelFrom, IsLevelFrom, IsLevelPage};

use crate::compare::has_page;
use mg_base::{Memory, PageNo};
use mg_node::{Node, check_node_common, read_node};
use mg_reading::{Image, ReadFault, Rule};
use std::alloc::Global;

/// What a lawful index page says.
///
/// # Errors
///
/// `Memory` only.
pub(crate) fn node_at(alloc: Global, image: &Image, n: u32) -> Result<Node, Memory>
    requires { IsNodePage (pages_in image.now n) }
    ensures { IfOk result (IsNodeOf (pages_in image.now n)) }
{
    let Some(node) = read_node(alloc, image.page(n))? else {
        unreachable!()
    };
    Ok(node)
}

/// Whether the common part of a page is as wanted for an index page of an owner.
fn is_node(image: &Image, n: u32, owner: u32) -> bool
    ensures { IsTrue result ↔ IsAsWanted image.now.size (pages_in image.now) n
        (node_checks (pages_in image.now n) n owner) }
{
    let page = image.page(n);
    image.is_taken(n) && check_node_common(page, PageNo(n), owner).is_ok()
}

/// What a page of an owner's index says, so many levels above the leaves.
///
/// # Errors
///
/// `Broken` exactly where it is none; `Memory`.
fn read_page(
    alloc: Global,
    image: &Image,
    owner: u32,
    level: u16,
    n: u32,
) -> Result<Node, ReadFault>
    ensures page { IfOk result (λ node.
        IsLevelPage image.now.size (pages_in image.now) owner level n) }
    ensures node { IfOk result (IsNodeOf (pages_in image.now n)) }
    ensures broken { IfErr result (Refutes
        (IsLevelPage image.now.size (pages_in image.now) owner level n)) }
{
    if !is_node(image, n, owner) {
        return Err(ReadFault::Broken(Rule::Pages));
    }
    let Some(node) = read_node(alloc, image.page(n))? else {
        return Err(ReadFault::Broken(Rule::Pages));
    };
    if node.level != level {
        return Err(ReadFault::Broken(Rule::Pages));
    }
    Ok(node)
}

/// The pages of a level from one on.
///
/// # Errors
///
/// `Broken` only where a page of them is not as wanted, or comes twice; `Memory`.
pub(crate) fn read_level(
    alloc: Global,
    image: &Image,
    owner: u32,
    level: u16,
    first: u32,
) -> Result<Vec<u32>, ReadFault>
    ensures level { IfOk result (λ ns.
        IsLevelFrom image.now.size (pages_in image.now) owner level first ns.items) }
    ensures broken { IfErr result (Refutes
        (HasLevelFrom image.now.size (pages_in image.now) owner level first)) }
{
    let mut ns = Vec::new(alloc);
    let mut next = first;
    while next != 0 {
        if has_page(&ns, next) {
            return Err(ReadFault::Broken(Rule::Once));
        }
        let node = read_page(alloc, image, owner, level, next)?;
        ns.push(next)?;
        next = node.right.0;
    }
    Ok(ns)
}

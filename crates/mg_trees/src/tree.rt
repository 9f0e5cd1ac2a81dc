//! A tree from its root on.

ghost use Rattle.std.specs.Prelude.{◌≡◌, ◌≢◌, ◌≤◌, ◌↔◌, false, IfErr, IfOk, IsTrue};
ghost use Rattle.mg_node.specs.NodePage.{IsNodePage, entries_of, has_low, level_in, right_in};
ghost use Rattle.mg_image.specs.Indexes.{IsTree, first_child as first_child_of};
ghost use Rattle.mg_reading.specs.ImageView.{pages_in};
ghost use Rattle.mg_reading.specs.Readable.{Refutes};
ghost use Rattle.mg_trees.specs.Trees.{AreLevelsFrom, HasLevelsFrom, HasTree, IsLevelFrom};

use crate::levels::{Level, Levels};
use crate::nodes::check_pages;
use crate::page::{node_at, read_level};
use mg_base::{Memory, get_u16, get_u32};
use mg_node::{FENCES_AT, LEVEL_AT, RIGHT_AT};
use mg_reading::{Image, ReadFault, Rule};
use std::alloc::Global;

/// The child that the first entry of a lawful index page names, 0 where it has none.
///
/// # Errors
///
/// `Memory` only.
fn first_child(alloc: Global, image: &Image, n: u32) -> Result<u32, Memory>
    requires { IsNodePage (pages_in image.now n) }
    ensures { IfOk result (λ child. child ≡ first_child_of (entries_of (pages_in image.now n))) }
{
    let node = node_at(alloc, image, n)?;
    match node.entries.first() {
        Some(entry) => Ok(entry.child.0),
        None => Ok(0),
    }
}

/// The levels from a page on, where the pages of its level were read.
///
/// # Errors
///
/// `Broken` only where there are none that are lawful; `Memory`.
fn read_levels(
    alloc: Global,
    image: &Image,
    owner: u32,
    level: u16,
    first: u32,
    pages: Vec<u32>,
) -> Result<Vec<Level>, ReadFault>
    requires some { first ≢ 0 }
    requires level { IsLevelFrom image.now.size (pages_in image.now) owner level first pages.items }
    ensures levels { IfOk result (λ levels.
        AreLevelsFrom image.now.size (pages_in image.now) owner level first levels.items) }
    ensures broken { IfErr result (Refutes
        (HasLevelsFrom image.now.size (pages_in image.now) owner level first)) }
{
    if level == 0 {
        check_pages(alloc, image, owner, level, &[], &pages)?;
        let mut levels = Vec::new(alloc);
        levels.push(Level::new(pages))?;
        return Ok(levels);
    }
    let child = first_child(alloc, image, first)?;
    if child == 0 {
        return Err(ReadFault::Broken(Rule::Once));
    }
    let below = read_level(alloc, image, owner, level - 1, child)?;
    check_pages(alloc, image, owner, level, &below, &pages)?;
    // The pages were tested first, so each level has twice as many as the one above it, and this
    // goes down a few times only.
    let mut levels = read_levels(alloc, image, owner, level - 1, child, below)?;
    levels.insert(0, Level::new(pages))?;
    Ok(levels)
}

/// Whether a page has neither a low fence nor a right neighbour.
fn is_alone(image: &Image, n: u32) -> bool
    ensures { IsTrue result ↔ ((has_low (pages_in image.now n) ≡ false)
        × (right_in (pages_in image.now n) ≡ 0)) }
{
    let page = image.page(n);
    get_u16(page, FENCES_AT) % 2 != 1 && get_u32(page, RIGHT_AT) == 0
}

/// The level that a page says.
fn level_at(image: &Image, n: u32) -> u16
    ensures { result ≡ level_in (pages_in image.now n) }
{
    get_u16(image.page(n), LEVEL_AT)
}

/// Reads the tree of an index of a table, from its root on.
///
/// `owner` is the number of the table's first pointer page. There is one tree at most (`tree_once`
/// of `specs/TreeLaws.antt`).
///
/// # Errors
///
/// `Broken` only where there is no tree from the root on: at `Pages`, where a page of it is not as
/// wanted or not lawful, or stands on another level; else at `Once`. Or `Memory`.
pub fn read_tree(alloc: Global, image: &Image, owner: u32, root: u32) -> Result<Levels, ReadFault>
    ensures tree { IfOk result (λ levels.
        IsTree image.now.size (pages_in image.now) owner root levels) }
    ensures broken { IfErr result (Refutes
        (HasTree image.now.size (pages_in image.now) owner root)) }
{
    // Page 0 is the header.
    if root == 0 {
        return Err(ReadFault::Broken(Rule::Once));
    }
    if !is_alone(image, root) {
        return Err(ReadFault::Broken(Rule::Once));
    }
    let level = level_at(image, root);
    let pages = read_level(alloc, image, owner, level, root)?;
    let levels = read_levels(alloc, image, owner, level, root, pages)?;
    Ok(Levels::new(levels))
}

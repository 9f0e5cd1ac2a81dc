//! The pages that links lead to, and whether one of them is reached twice.

ghost use Rattle.std.specs.Prelude.{◌≡◌, ◌↔◌, ◌++◌, ℕ, List, IsTrue, IfOk, OnOk};
ghost use Rattle.std.specs.List.{flat_map};
ghost use Rattle.mg_reading.specs.ImageView.{pages_in};
ghost use Rattle.mg_image.specs.Reached.{linked_pages, tips_of};
ghost use Rattle.mg_image.specs.Tables.{Has, IsOnce, has, pages_of, tree_pages};
ghost use Rattle.mg_layout.specs.Standing.{layout_in, stand_in, stands_in};

use crate::standing::{Standing, TableStand};
use mg_base::Memory;
use mg_reading::Image;
use mg_trees::{Level, Levels};
use std::alloc::Global;

/// Whether a page is one of these.
pub(crate) fn has_page(pages: &[u32], n: u32) -> bool
    ensures has { IsTrue result ↔ Has pages.now n }
    ensures test { result ≡ has pages.now n }
{
    let mut rest = pages;
    while let Some((page, later)) = rest.split_first() {
        if n == *page {
            return true;
        }
        rest = later;
    }
    false
}

/// Whether no page stands twice among these.
pub(crate) fn are_once(pages: &[u32]) -> bool
    ensures { IsTrue result ↔ IsOnce pages.now }
{
    let mut rest = pages;
    while let Some((page, later)) = rest.split_first() {
        if has_page(later, *page) {
            return false;
        }
        rest = later;
    }
    true
}

/// Appends the transaction inventory pages, the last one first.
fn add_tips(image: &Image, pages: &mut Vec<u32>) -> Result<(), Memory>
    ensures { OnOk result (pages.new.items
        ≡ pages.old.items ++ tips_of image.now.size (pages_in image.now)) }
{
    let mut count = image.last_sequence() + 1;
    while count > 0 {
        count -= 1;
        pages.push(image.tip_page(count))?;
    }
    Ok(())
}

/// Appends the pages of the levels of an index.
fn add_levels(levels: &[Level], pages: &mut Vec<u32>) -> Result<(), Memory>
    ensures { OnOk result (pages.new.items
        ≡ pages.old.items ++ flat_map (λ (level : List ℕ). level) levels.now) }
{
    let mut rest = levels;
    while let Some((level, below)) = rest.split_first() {
        pages.extend_from_slice(level.as_slice())?;
        rest = below;
    }
    Ok(())
}

/// Appends the pages of the indexes of a table.
fn add_trees(trees: &[Levels], pages: &mut Vec<u32>) -> Result<(), Memory>
    ensures { OnOk result (pages.new.items ≡ pages.old.items ++ tree_pages trees.now) }
{
    let mut rest = trees;
    while let Some((levels, later)) = rest.split_first() {
        add_levels(levels.as_slice(), pages)?;
        rest = later;
    }
    Ok(())
}

/// Appends all pages of a table.
fn add_table(stand: &TableStand, pages: &mut Vec<u32>) -> Result<(), Memory>
    ensures { OnOk result (pages.new.items ≡ pages.old.items ++ pages_of (stand_in stand.now)) }
{
    pages.extend_from_slice(&stand.pages.pointers)?;
    pages.extend_from_slice(&stand.pages.data_pages)?;
    add_trees(&stand.trees, pages)
}

/// Appends all pages of these tables.
fn add_tables(stands: &[TableStand], pages: &mut Vec<u32>) -> Result<(), Memory>
    ensures { OnOk result (pages.new.items
        ≡ pages.old.items ++ flat_map pages_of (stands_in stands.now)) }
{
    let mut rest = stands;
    while let Some((stand, later)) = rest.split_first() {
        add_table(stand, pages)?;
        rest = later;
    }
    Ok(())
}

/// The pages that links lead to: of the transaction inventory, and of the catalog and the tables
/// with their indexes.
fn pages_linked(alloc: Global, image: &Image, found: &Standing) -> Result<Vec<u32>, Memory>
    ensures { IfOk result (λ pages. pages.items
        ≡ linked_pages image.now.size (pages_in image.now) (layout_in found.now)) }
{
    let mut pages = Vec::new(alloc);
    add_tips(image, &mut pages)?;
    add_table(&found.catalog, &mut pages)?;
    add_tables(&found.tables, &mut pages)?;
    Ok(pages)
}

/// Whether no page is reached twice by links, where the tables stand so.
///
/// # Errors
///
/// `Memory` only.
pub fn are_pages_once(alloc: Global, image: &Image, found: &Standing) -> Result<bool, Memory>
    ensures { IfOk result (λ once. IsTrue once
        ↔ IsOnce (linked_pages image.now.size (pages_in image.now) (layout_in found.now))) }
{
    let pages = pages_linked(alloc, image, found)?;
    Ok(are_once(&pages))
}

//! The places of entered pages: each place has a page or none.

ghost use Rattle.std.specs.Prelude.{◌≡◌, ◌≢◌, ◌<◌, ℕ, Some, None, length, IfSome, IfNone, IfOk, OnOk, replicate, slice_index_or, count_by, is_some};

use mg_base::Memory;
use std::alloc::Global;

/// Places without pages.
pub fn blank_places(alloc: Global, size: usize) -> Result<Vec<Option<u32>>, Memory>
    ensures { IfOk result (λ pages. pages.items ≡ replicate size None) }
{
    let mut pages = Vec::new(alloc);
    for _ in 0..size {
        pages.push(None)?;
    }
    Ok(pages)
}

/// The place of a page.
pub fn find(pages: &Vec<Option<u32>>, page: u32) -> Option<usize>
    ensures found { IfSome result (λ i. (i < length pages.now.items)
        × (slice_index_or pages.now.items i None ≡ Some page)) }
    ensures absent { IfNone result ((i : ℕ) → slice_index_or pages.now.items i None ≢ Some page) }
{
    for (i, at) in pages.iter().enumerate() {
        if *at == Some(page) {
            return Some(i);
        }
    }
    None
}

/// A place that has no page.
pub fn find_free(pages: &Vec<Option<u32>>) -> Option<usize>
    ensures found { IfSome result (λ i. (i < length pages.now.items)
        × (slice_index_or pages.now.items i (Some 0) ≡ None)) }
    ensures absent { IfNone result ((i : ℕ) → i < length pages.now.items
        → slice_index_or pages.now.items i None ≢ None) }
{
    for (i, at) in pages.iter().enumerate() {
        if at.is_none() {
            return Some(i);
        }
    }
    None
}

/// The place of a page that stands somewhere.
pub fn place_of(pages: &Vec<Option<u32>>, page: u32) -> usize
    requires { (i : ℕ) × (slice_index_or pages.now.items i None ≡ Some page) }
    ensures inside { result < length pages.now.items }
    ensures there { slice_index_or pages.now.items result None ≡ Some page }
{
    find(pages, page).unwrap()
}

/// The number of places that have a page.
pub fn count_pages(pages: &[Option<u32>]) -> usize
    ensures { result ≡ count_by is_some pages.now }
{
    pages.iter().filter(|at| at.is_some()).count()
}

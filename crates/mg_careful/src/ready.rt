//! The page that may be written first towards a goal.

ghost use Rattle.std.specs.Prelude.{◌≡◌, ◌<◌, length};
ghost use Rattle.mg_careful.specs.Rows.{IsSquare, is_ready_at, ready_page_at, lesser_of, IsLeast};

use crate::bits::Bits;
use crate::rows::{is_or_leads, is_row_blank};

/// The least page among those that are ready: the one at the place `goal` and those that lead to
/// it, as far as nothing is ordered before them.
pub fn least_ready(
    pages: &Vec<Option<u32>>,
    before: &Vec<Bits>,
    after: &Vec<Bits>,
    goal: usize,
) -> Option<u32>
    requires before { IsSquare (length pages.now.items) before.now.items }
    requires after { IsSquare (length pages.now.items) after.now.items }
    requires goal { goal < length pages.now.items }
    ensures { IsLeast (ready_page_at pages.now.items before.now.items after.now.items goal)
        (length pages.now.items) result }
{
    let mut least = None;
    for i in 0..pages.len() {
        least = lesser(least, ready_page(pages, before, after, i, goal));
    }
    least
}

/// The page at a place, if it is ready.
fn ready_page(
    pages: &Vec<Option<u32>>,
    before: &Vec<Bits>,
    after: &Vec<Bits>,
    place: usize,
    goal: usize,
) -> Option<u32>
    requires before { IsSquare (length pages.now.items) before.now.items }
    requires after { IsSquare (length pages.now.items) after.now.items }
    requires place { place < length pages.now.items }
    requires goal { goal < length pages.now.items }
    ensures { result ≡ ready_page_at pages.now.items before.now.items after.now.items goal place }
{
    if is_ready(before, after, pages.len(), place, goal) {
        pages[place]
    } else {
        None
    }
}

/// Tells whether a place is ready: it is the goal or leads to it, and nothing is ordered before it.
fn is_ready(before: &Vec<Bits>, after: &Vec<Bits>, size: usize, place: usize, goal: usize) -> bool
    requires before { IsSquare size before.now.items }
    requires after { IsSquare size after.now.items }
    requires place { place < size }
    requires goal { goal < size }
    ensures { result ≡ is_ready_at before.now.items after.now.items goal place }
{
    is_or_leads(after, size, place, goal) && is_row_blank(before, size, place)
}

/// The lesser of two numbers, where there are two.
fn lesser(a: Option<u32>, b: Option<u32>) -> Option<u32>
    ensures { result ≡ lesser_of a b }
{
    match (a, b) {
        (None, _) => b,
        (_, None) => a,
        (Some(m), Some(n)) => Some(if m < n { m } else { n }),
    }
}

//! Whether entries and fences are equal.

ghost use Rattle.std.specs.Prelude.{◌≡◌, ◌↔◌, IsTrue, Some};
ghost use Rattle.mg_image.specs.Indexes.{as_fence, HasEntry};
ghost use Rattle.mg_image.specs.Tables.{Has};

use mg_node::Entry;

/// Whether two entries are equal.
pub(crate) fn are_equal(a: &Entry, b: &Entry) -> bool
    ensures { IsTrue result ↔ (a.now ≡ b.now) }
{
    a.key.as_slice() == b.key.as_slice() && a.rec == b.rec && a.child == b.child
}

/// Whether two fences are equal.
pub(crate) fn are_equal_fences(a: &Option<Entry>, b: &Option<Entry>) -> bool
    ensures { IsTrue result ↔ (a.now ≡ b.now) }
{
    match a {
        None => b.is_none(),
        Some(x) => match b {
            None => false,
            Some(y) => are_equal(x, y),
        },
    }
}

/// Whether a fence is an entry's.
pub(crate) fn is_fence_of(fence: &Option<Entry>, entry: &Entry) -> bool
    ensures { IsTrue result ↔ (fence.now ≡ Some (as_fence entry.now)) }
{
    match fence {
        None => false,
        Some(x) => x.key.as_slice() == entry.key.as_slice() && x.rec == entry.rec && x.child.0 == 0,
    }
}

/// Whether an entry is one of these.
pub(crate) fn has_entry(entries: &[Entry], entry: &Entry) -> bool
    ensures { IsTrue result ↔ HasEntry entries.now entry.now }
{
    let mut rest = entries;
    while let Some((first, later)) = rest.split_first() {
        if are_equal(entry, first) {
            return true;
        }
        rest = later;
    }
    false
}

/// Whether a page is one of these.
pub(crate) fn has_page(pages: &[u32], n: u32) -> bool
    ensures { IsTrue result ↔ Has pages.now n }
{
    let mut rest = pages;
    while let Some((first, later)) = rest.split_first() {
        if *first == n {
            return true;
        }
        rest = later;
    }
    false
}

//! What a search reads of an index page in its place. Nothing is asked of the page's bytes: no more of
//! it is looked at than what is read. What is told of them holds where they are a lawful page.

ghost use Rattle.std.specs.Prelude.{◌≡◌, ◌≤◌, ◌↔◌, false, true, IfSome, IsTrue, length};
ghost use Rattle.mg_node.specs.NodePage.{IsBelow, IsNodePage, end_of as end_of_def, entries_of, entry_at, high_of, is_inner as is_inner_of};
ghost use Rattle.mg_btree.specs.Searching.{child_to};

use mg_base::get_u32;
use mg_node::{CHILD_LEN, Entry, FAR, count, end_of, first_at, has_high, high_at, order_with};
use std::cmp::Ordering;

/// Whether the fence or the entry at a place ends within the page.
fn fits(page: &[u8], at: usize, with_child: bool) -> bool
    requires { at ≤ FAR }
    ensures { IsTrue result ↔ end_of_def with_child page.now at ≤ length page.now }
{
    end_of(page, at, with_child) <= page.len()
}

/// Whether an entry comes before the fence or the entry at a place.
fn is_before(page: &[u8], at: usize, e: &Entry) -> bool
    requires { end_of_def false page.now at ≤ length page.now }
    ensures { IsTrue result ↔ IsBelow e.now (entry_at false page.now at) }
{
    order_with(page, at, e) == Ordering::Greater
}

/// Whether an entry comes before the high fence of a page.
pub(crate) fn is_under(page: &[u8], e: &Entry) -> bool
    requires least { 1024 ≤ length page.now }
    requires most { length page.now ≤ 16384 }
    ensures { IsNodePage page.now
        → IsTrue result ↔ IfSome (high_of page.now) (λ fence. IsBelow e.now fence) }
{
    if !has_high(page) {
        return true;
    }
    let at = high_at(page);
    if !fits(page, at, false) {
        return true;
    }
    is_before(page, at, e)
}

/// The child of an inner page by which an entry is looked for: that of the last entry that does not
/// come behind it.
pub(crate) fn child_on(page: &[u8], e: &Entry) -> u32
    requires least { 1024 ≤ length page.now }
    requires most { length page.now ≤ 16384 }
    requires inner { is_inner_of page.now ≡ true }
    ensures { IsNodePage page.now → result ≡ child_to e.now 0 (entries_of page.now) }
{
    let mut child = 0;
    let mut at = first_at(page);
    for _ in 0..count(page) {
        if !fits(page, at, true) {
            return child;
        }
        if is_before(page, at, e) {
            return child;
        }
        let end = end_of(page, at, true);
        child = get_u32(page, end - CHILD_LEN);
        at = end;
    }
    child
}

//! Where an entry belongs among those of a page.

ghost use Rattle.std.specs.Prelude.{◌≡◌, ◌↔◌, ◌≤◌, IsTrue};
ghost use Rattle.mg_node.specs.NodePage.{IsNodePage, count_in};
ghost use Rattle.mg_node_writing.specs.NodeChanges.{IsSized};
ghost use Rattle.mg_node_writing.specs.Splices.{IsSeat, StandsAt};

use mg_node::{Entry, count, end_of, first_at, is_inner, order_with, place};

/// How many entries of a page come before an entry.
pub(crate) fn seat(b: &[u8], e: &Entry) -> usize
    requires sized { IsSized b.now }
    requires lawful { IsNodePage b.now }
    ensures { IsSeat b.now e.now result }
{
    let with_child = is_inner(b);
    let count = count(b);
    let mut at = first_at(b);
    for n in 0..count {
        if !order_with(b, at, e).is_lt() {
            return n;
        }
        at = end_of(b, at, with_child);
    }
    count
}

/// Whether the entry of a page behind so many others has the key and the record of an entry.
pub(crate) fn stands_at(b: &[u8], n: usize, e: &Entry) -> bool
    requires sized { IsSized b.now }
    requires lawful { IsNodePage b.now }
    requires within { n ≤ count_in b.now }
    ensures { IsTrue result ↔ StandsAt b.now n e.now }
{
    if n == count(b) {
        return false;
    }
    order_with(b, place(b, n), e).is_eq()
}

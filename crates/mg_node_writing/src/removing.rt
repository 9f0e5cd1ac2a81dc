//! Taking an entry out of a page.

ghost use Rattle.std.specs.Prelude.{◌≡◌, ◌↔◌, ◌<◌, ◌≤◌, IsTrue, false, length, true};
ghost use Rattle.mg_node.specs.NodePage.{BeginsAsInner, IsNodePage, count_in, end_in, end_of as end_of_def, entries_of, entry_at, is_inner as is_inner_of, low_of};
ghost use Rattle.mg_node_writing.specs.NodeChanges.{IsEntryOf, IsSized, KeepsNode, RemovesEntry};
ghost use Rattle.mg_node_writing.specs.Splices.{Closes, StandsAt};

use crate::bytes::move_bytes;
use crate::fields::{end, set_end};
use crate::seat::{seat, stands_at};
use mg_base::{PageNo, get_u32};
use mg_node::{CHILD_LEN, CONTENT_AT, Entry, count, end_of, is_inner, place};

/// Takes an entry out of a page, and tells whether it was there.
///
/// A page may be left without entries. An inner page is lawful afterwards where it still begins
/// with its low fence.
pub fn remove(b: &mut [u8], e: &Entry) -> bool
    requires sized { IsSized b.old }
    requires lawful { IsNodePage b.old }
    ensures when { IsTrue result ↔ IsEntryOf b.old e.now }
    ensures removes { result ≡ true → RemovesEntry b.old b.new e.now }
    ensures unchanged { result ≡ false → b.new ≡ b.old }
    ensures keeps { KeepsNode b.old b.new }
    ensures lawful { (is_inner_of b.new ≡ true → BeginsAsInner (low_of b.new) (entries_of b.new))
        → IsNodePage b.new }
{
    let n = seat(b, e);
    if !stands_at(b, n, e) {
        return false;
    }
    let at = place(b, n);
    if child(b, at) != e.child {
        return false;
    }
    close_at(b, at);
    true
}

/// The child of the entry at a place, 0 in a leaf.
fn child(b: &[u8], at: usize) -> PageNo
    requires sized { IsSized b.now }
    requires inside { end_of_def (is_inner_of b.now) b.now at ≤ length b.now }
    ensures { result ≡ (entry_at (is_inner_of b.now) b.now at).child }
{
    if is_inner(b) {
        PageNo(get_u32(b, end_of(b, at, true) - CHILD_LEN))
    } else {
        PageNo(0)
    }
}

/// Takes out the entry at a place, and moves those behind it there.
fn close_at(b: &mut [u8], at: usize)
    requires sized { IsSized b.old }
    requires lawful { IsNodePage b.old }
    requires front { CONTENT_AT ≤ at }
    requires back { end_of_def (is_inner_of b.old) b.old at ≤ end_in b.old }
    requires some { 0 < count_in b.old }
    ensures { Closes b.old b.new at }
{
    let from = end_of(b, at, is_inner(b));
    let end = end(b);
    let count = count(b);
    move_bytes(b, from, at, end - from);
    set_end(b, (count - 1) as u16, (end - (from - at)) as u16);
}

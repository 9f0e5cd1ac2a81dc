//! The entries of a pointer page.

ghost use Rattle.std.specs.Prelude.{◌≡◌, ◌≤◌, ◌<◌, ◌↔◌, length, slice_index, IsTrue, MatchOption};
ghost use Rattle.std.specs.Bool.{OnFalse, OnTrue};
ghost use Rattle.mg_pointer.specs.PointerPage.{AddsEntry, IsPointerPage, capacity as most_entries, count_in, entries_of};

use crate::page::capacity;
use crate::{COUNT_AT, ENTRIES_AT, ENTRY_LEN};
use mg_base::{PageNo, get_u16, get_u32, put_u16, put_u32};

/// The data page at a place of the list, counted from 0; `None` exactly past the count.
pub fn entry(b: &[u8], i: u16) -> Option<PageNo>
    requires { IsPointerPage b.now }
    ensures { MatchOption result (length (entries_of b.now) ≤ i)
        (λ p. (i < length (entries_of b.now)) × (p.0 ≡ slice_index (entries_of b.now) i)) }
{
    if i < get_u16(b, COUNT_AT) {
        Some(PageNo(get_u32(b, ENTRIES_AT + ENTRY_LEN * i as usize)))
    } else {
        None
    }
}

/// Puts a data page at the end of the list; `false` exactly where the page is full.
///
/// Careful write: the data page, and the page inventory page with its bit, reach the disk before
/// this page does. The caller adds both orders to its batch.
pub fn add_entry(b: &mut [u8], p: PageNo) -> bool
    requires { IsPointerPage b.old }
    ensures room { IsTrue result ↔ (length (entries_of b.old) < most_entries (length b.old)) }
    ensures added { OnTrue result (AddsEntry b.old b.new p.0) }
    ensures full { OnFalse result (b.new ≡ b.old) }
{
    let count = get_u16(b, COUNT_AT);
    if count >= capacity(b) {
        return false;
    }
    put_u32(b, ENTRIES_AT + ENTRY_LEN * count as usize, p.0);
    put_u16(b, COUNT_AT, count + 1);
    true
}

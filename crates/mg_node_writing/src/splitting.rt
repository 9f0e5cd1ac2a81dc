//! Splitting a page that is full.

ghost use Rattle.std.specs.Prelude.{◌≡◌, ◌+◌, ◌-◌, ◌*◌, ◌<◌, ◌≤◌, ◌==◌, ◌%◌, ◌/◌, length};
ghost use Rattle.mg_node.specs.NodePage.{IsNodePage, count_in, end_in, first_at as first_at_of, high_at as high_at_of, is_inner as is_inner_of, key_len as key_len_of, place_of};
ghost use Rattle.mg_node_writing.specs.NodeChanges.{IsSized, most_need, room_in};
ghost use Rattle.mg_node_writing.specs.Splits.{IsHalf, IsShortestHalf, KeepsLower, SplitsNode, TakesUpper};

use crate::bytes::{copy_bytes, move_bytes};
use crate::fields::{end, set_end};
use mg_base::{OWN_AT, PageNo, get_u16, put_u16, put_u32};
use mg_node::{CONTENT_AT, FENCES_AT, RIGHT_AT, count, end_of, first_at, high_at, is_inner, place};

/// Splits a page that has no room for some entry that `insert` takes: its first entries stay, and
/// the others go to `right`, the page `at`, which becomes its right neighbour.
///
/// The entries that stay are the shortest run of first ones with at least half of the entries'
/// bytes. Both pages have at least two entries, and room for any entry that `insert` takes.
///
/// Careful write: the pages that `right` names are written before it, and it before `left`.
pub fn split(left: &mut [u8], right: &mut [u8], at: PageNo)
    requires sized { IsSized left.old }
    requires lawful { IsNodePage left.old }
    requires sizes { length right.old ≡ length left.old }
    requires full { room_in left.old < most_need left.old }

    ensures splits { SplitsNode left.old left.new right.new at.0 }
    ensures half { IsShortestHalf left.old left.new }
    ensures left_lawful { IsNodePage left.new }
    ensures right_lawful { IsNodePage right.new }

    // Each has two entries, and room for one more, whichever it is.
    ensures left_two { 2 ≤ count_in left.new }
    ensures right_two { 2 ≤ count_in right.new }
    ensures left_room { most_need left.new ≤ room_in left.new }
    ensures right_room { most_need right.new ≤ room_in right.new }
{
    let n = half(left);
    let from = place(left, n);
    take_upper(left, right, at, n, from);
    keep_lower(left, right, at, n, from);
}

/// How many first entries have at least half of the entries' bytes.
fn half(b: &[u8]) -> usize
    requires sized { IsSized b.now }
    requires lawful { IsNodePage b.now }
    ensures { IsHalf b.now result }
{
    let with_child = is_inner(b);
    let first = first_at(b);
    let len = end(b) - first;
    let count = count(b);
    let mut at = first;
    for n in 0..count {
        if len <= 2 * (at - first) {
            return n;
        }
        at = end_of(b, at, with_child);
    }
    count
}

/// The fences' field of a page that has a low fence.
fn with_low(fences: u16) -> u16
    ensures low { result % 2 ≡ 1 }
    ensures high { result / 2 ≡ fences / 2 }
{
    fences - fences % 2 + 1
}

/// The fences' field of a page that has a high fence.
fn with_high(fences: u16) -> u16
    ensures low { result % 2 ≡ fences % 2 }
    ensures high { result / 2 % 2 ≡ 1 }
{
    fences - fences / 2 % 2 * 2 + 2
}

/// Makes `right` the page of the entries from a place on.
fn take_upper(left: &[u8], right: &mut [u8], at: PageNo, n: usize, from: usize)
    requires sized { IsSized left.now }
    requires lawful { IsNodePage left.now }
    requires sizes { length right.old ≡ length left.now }
    requires n { n ≤ count_in left.now }
    requires from { from ≤ end_in left.now }
    requires fence { from + 8 + key_len_of left.now from ≤ length left.now }
    requires room { CONTENT_AT + (8 + key_len_of left.now from)
        + (first_at_of left.now - high_at_of left.now) + (end_in left.now - from)
        ≤ length left.now }
    ensures { TakesUpper left.now right.new at.0 from (count_in left.now - n) }
{
    let low_len = end_of(left, from, false) - from;
    let high = high_at(left);
    let high_len = first_at(left) - high;
    let len = end(left) - from;
    let first = CONTENT_AT + low_len + high_len;
    let fences = with_low(get_u16(left, FENCES_AT));
    right.copy_from_slice(left);
    put_u32(right, OWN_AT, at.0);
    put_u16(right, FENCES_AT, fences);
    copy_bytes(left, from, low_len, right, CONTENT_AT);
    copy_bytes(left, high, high_len, right, CONTENT_AT + low_len);
    copy_bytes(left, from, len, right, first);
    set_end(right, (count(left) - n) as u16, (first + len) as u16);
}

/// Makes `left` the page of the entries before a place: the low fence of `right` is its high one.
fn keep_lower(left: &mut [u8], right: &[u8], at: PageNo, n: usize, from: usize)
    requires sized { IsSized left.old }
    requires lawful { IsNodePage left.old }
    requires sizes { length right.now ≡ length left.old }
    requires n { n ≤ count_in left.old }
    requires from { first_at_of left.old ≤ from }
    requires end { from ≤ end_in left.old }
    requires fence { CONTENT_AT + 8 + key_len_of right.now CONTENT_AT ≤ length left.old }
    requires room { high_at_of left.old + (8 + key_len_of right.now CONTENT_AT)
        + (from - first_at_of left.old) ≤ length left.old }
    ensures { KeepsLower left.old left.new right.now at.0 from n }
{
    let high = high_at(left);
    let first = first_at(left);
    let fence_len = end_of(right, CONTENT_AT, false) - CONTENT_AT;
    let len = from - first;
    let fences = with_high(get_u16(left, FENCES_AT));
    move_bytes(left, first, high + fence_len, len);
    copy_bytes(right, CONTENT_AT, fence_len, left, high);
    put_u32(left, RIGHT_AT, at.0);
    put_u16(left, FENCES_AT, fences);
    set_end(left, n as u16, (high + fence_len + len) as u16);
}

//! The order of the entries of a page, read in their places.

ghost use Rattle.std.specs.Prelude.{◌≡◌, ◌+◌, ◌<◌, ◌≤◌, drop, false, length, take};
ghost use Rattle.mg_base.specs.Fields.{u16_at, u32_at};
ghost use Rattle.mg_node.specs.NodePage.{count_in, end_of as end_of_def, entries_of, entry_at, entry_cmp, first_at as first_at_def, high_of as high_of_def, is_inner as is_inner_of, key_len as key_len_of, low_of as low_of_def};
ghost use Rattle.mg_node.specs.NodeWalk.{entries_from};
ghost use Rattle.mg_node.specs.NodeReading.{IsLaidOut};
ghost use Rattle.mg_node.specs.NodeTests.{is_below_fence as is_below_fence_of, is_between as is_between_of, is_from as is_from_of, least_entry, may_begin as may_begin_of, may_follow as may_follow_of, ordered_behind as ordered_behind_of, ordered_front as ordered_front_of, wanted_first};
ghost use Rattle.std.specs.Ordering.{is_eq, nat_cmp, ordering_then};

use crate::entry::{CONTENT_AT, Entry, KEY_AT};
use crate::walk::{count, end_of, first_at, has_high, has_low, high_at, is_inner};
use mg_base::{PageNo, RecId, get_u16, get_u32};
use std::cmp::Ordering;

/// The record at a place.
pub(crate) fn record_at(page: &[u8], at: usize) -> RecId
    requires { at + 6 ≤ length page.now }
    ensures page { result.page.0 ≡ u32_at page.now at }
    ensures slot { result.slot ≡ u16_at page.now (at + 4) }
{
    RecId {
        page: PageNo(get_u32(page, at)),
        slot: get_u16(page, at + 4),
    }
}

/// The key at a place.
fn key_at(page: &[u8], at: usize) -> &[u8]
    requires { at + KEY_AT + key_len_of page.now at ≤ length page.now }
    ensures { result.now ≡ take (key_len_of page.now at) (drop (at + KEY_AT) page.now) }
{
    let len = get_u16(page, at) as usize;
    let (_, rest) = page.split_at(at + KEY_AT);
    let (key, _) = rest.split_at(len);
    key
}

/// The order of two records.
fn record_order(a: RecId, b: RecId) -> Ordering
    ensures { result ≡ ordering_then (nat_cmp a.page.0 b.page.0) (nat_cmp a.slot b.slot) }
{
    a.page.0.cmp(&b.page.0).then(a.slot.cmp(&b.slot))
}

/// The order of the entries or fences at two places.
fn order_of(page: &[u8], at: usize, other: usize) -> Ordering
    requires here { end_of_def false page.now at ≤ length page.now }
    requires there { end_of_def false page.now other ≤ length page.now }
    ensures { result ≡ entry_cmp (entry_at false page.now at) (entry_at false page.now other) }
{
    let key = key_at(page, at);
    let other_key = key_at(page, other);
    let here = record_at(page, at + KEY_AT + key.len());
    let there = record_at(page, other + KEY_AT + other_key.len());
    key.cmp(other_key).then(record_order(here, there))
}

/// The order of the entry at a place and another one.
pub fn order_with(page: &[u8], at: usize, e: &Entry) -> Ordering
    requires { end_of_def false page.now at ≤ length page.now }
    ensures { result ≡ entry_cmp (entry_at false page.now at) e.now }
{
    let key = key_at(page, at);
    let here = record_at(page, at + KEY_AT + key.len());
    key.cmp(e.key.as_slice()).then(record_order(here, e.rec))
}

/// The order of the entry at a place and the least entry.
fn order_with_least(page: &[u8], at: usize) -> Ordering
    requires { end_of_def false page.now at ≤ length page.now }
    ensures { result ≡ entry_cmp (entry_at false page.now at) least_entry }
{
    let key = key_at(page, at);
    let here = record_at(page, at + KEY_AT + key.len());
    let least = RecId {
        page: PageNo(0),
        slot: 0,
    };
    let empty: [u8; 0] = [];
    key.cmp(empty.as_slice()).then(record_order(here, least))
}

/// Whether the entry at a place does not come before the low fence.
fn is_from(page: &[u8], at: usize) -> bool
    requires laid_out { IsLaidOut page.now }
    requires least { 1024 ≤ length page.now }
    requires here { end_of_def false page.now at ≤ length page.now }
    ensures { result ≡ is_from_of (low_of_def page.now) (entry_at false page.now at) }
{
    if has_low(page) {
        !order_of(page, at, CONTENT_AT).is_lt()
    } else {
        true
    }
}

/// Whether the entry at a place comes before the high fence.
fn is_below_fence(page: &[u8], at: usize) -> bool
    requires laid_out { IsLaidOut page.now }
    requires least { 1024 ≤ length page.now }
    requires here { end_of_def false page.now at ≤ length page.now }
    ensures { result ≡ is_below_fence_of (high_of_def page.now) (entry_at false page.now at) }
{
    if has_high(page) {
        order_of(page, at, high_at(page)).is_lt()
    } else {
        true
    }
}

/// Whether the entry at a place lies between the fences.
fn is_between(page: &[u8], at: usize) -> bool
    requires laid_out { IsLaidOut page.now }
    requires least { 1024 ≤ length page.now }
    requires here { end_of_def false page.now at ≤ length page.now }
    ensures { result
        ≡ is_between_of (low_of_def page.now) (high_of_def page.now) (entry_at false page.now at) }
{
    is_from(page, at) && is_below_fence(page, at)
}

/// Whether the entry at a place is what an inner page with this low fence begins with.
fn is_wanted_first(page: &[u8], at: usize) -> bool
    requires laid_out { IsLaidOut page.now }
    requires least { 1024 ≤ length page.now }
    requires here { end_of_def false page.now at ≤ length page.now }
    ensures { result
        ≡ is_eq (entry_cmp (entry_at false page.now at) (wanted_first (low_of_def page.now))) }
{
    if has_low(page) {
        order_of(page, at, CONTENT_AT).is_eq()
    } else {
        order_with_least(page, at).is_eq()
    }
}

/// Whether the entry at a place may be the first one of the page.
fn may_begin(page: &[u8], at: usize) -> bool
    requires laid_out { IsLaidOut page.now }
    requires least { 1024 ≤ length page.now }
    requires here { end_of_def false page.now at ≤ length page.now }
    ensures { result ≡ may_begin_of (is_inner_of page.now) (low_of_def page.now)
        (high_of_def page.now) (entry_at false page.now at) }
{
    (!is_inner(page) || is_wanted_first(page, at)) && is_between(page, at)
}

/// Whether the entry at a place may stand behind the one at another place.
fn may_follow(page: &[u8], before: usize, at: usize) -> bool
    requires laid_out { IsLaidOut page.now }
    requires least { 1024 ≤ length page.now }
    requires before { end_of_def false page.now before ≤ length page.now }
    requires here { end_of_def false page.now at ≤ length page.now }
    ensures { result ≡ may_follow_of (low_of_def page.now) (high_of_def page.now)
        (entry_at false page.now before) (entry_at false page.now at) }
{
    order_of(page, before, at).is_lt() && is_between(page, at)
}

/// How many of the entries behind the one at `first` are in order up to the first that is not.
fn ordered_behind(page: &[u8], first: usize, more: usize) -> usize
    requires laid_out { IsLaidOut page.now }
    requires least { 1024 ≤ length page.now }
    requires most { length page.now ≤ 16384 }
    requires first { first ≡ first_at_def page.now }
    requires more { more + 1 ≡ count_in page.now }
    ensures behind { result ≡ ordered_behind_of (low_of_def page.now) (high_of_def page.now)
        (entry_at (is_inner_of page.now) page.now first)
        (entries_from (is_inner_of page.now) page.now
        (end_of_def (is_inner_of page.now) page.now first) more) }
    ensures within { result ≤ more }
{
    let with_child = is_inner(page);
    let mut before = first;
    for n in 0..more {
        let at = end_of(page, before, with_child);
        if !may_follow(page, before, at) {
            return n;
        }
        before = at;
    }
    more
}

/// How many of the entries are in order up to the first that is not.
pub(crate) fn ordered_front(page: &[u8]) -> usize
    requires laid_out { IsLaidOut page.now }
    requires least { 1024 ≤ length page.now }
    requires most { length page.now ≤ 16384 }
    ensures front { result ≡ ordered_front_of (is_inner_of page.now) (low_of_def page.now)
        (high_of_def page.now) (entries_of page.now) }
    ensures within { result < 65536 }
{
    let count = count(page);
    if count == 0 {
        return 0;
    }
    let first = first_at(page);
    if !may_begin(page, first) {
        return 0;
    }
    1 + ordered_behind(page, first, count - 1)
}

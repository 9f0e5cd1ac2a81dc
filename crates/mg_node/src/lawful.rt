//! The order of entries, and their lawful place between the fences.

ghost use Rattle.std.specs.Prelude.{◌≡◌, ◌↔◌, IfSome, IsTrue};
ghost use Rattle.mg_node.specs.NodePage.{AreAscending, AreBetween, BeginsAsInner, IsAtLeast, IsBelow, IsFirstEntry, IsLeast, SamePlace, entry_cmp};
ghost use Rattle.mg_node.specs.NodeReading.{IsBeforeFirst};

use crate::entry::Entry;
use std::cmp::Ordering;

/// The order of entries and fences: by key bytes, then by the record's page, then by its slot.
pub fn order(a: &Entry, b: &Entry) -> Ordering
    ensures { result ≡ entry_cmp a.now b.now }
{
    let key = a.key.as_slice().cmp(b.key.as_slice());
    let page = a.rec.page.0.cmp(&b.rec.page.0);
    let slot = a.rec.slot.cmp(&b.rec.slot);
    key.then(page.then(slot))
}

/// Whether an entry comes before another.
pub fn is_below(a: &Entry, b: &Entry) -> bool
    ensures { IsTrue result ↔ IsBelow a.now b.now }
{
    order(a, b) == Ordering::Less
}

/// Whether an entry comes before the first of these.
fn is_before_first(entry: &Entry, later: &[Entry]) -> bool
    ensures { IsTrue result ↔ IsBeforeFirst entry.now later.now }
{
    match later.split_first() {
        None => true,
        Some((next, _)) => is_below(entry, next),
    }
}

/// Whether each entry comes before the next one.
pub(crate) fn are_ascending(entries: &[Entry]) -> bool
    ensures { IsTrue result ↔ AreAscending entries.now }
{
    let mut rest = entries;
    while let Some((entry, later)) = rest.split_first() {
        if !is_before_first(entry, later) {
            return false;
        }
        rest = later;
    }
    true
}

/// Whether an entry does not come before the low fence.
fn is_from(low: &Option<Entry>, entry: &Entry) -> bool
    ensures { IsTrue result ↔ IfSome low.now (λ fence. IsAtLeast entry.now fence) }
{
    match low {
        None => true,
        Some(fence) => !is_below(entry, fence),
    }
}

/// Whether an entry comes before the high fence.
pub fn is_up_to(high: &Option<Entry>, entry: &Entry) -> bool
    ensures { IsTrue result ↔ IfSome high.now (λ fence. IsBelow entry.now fence) }
{
    match high {
        None => true,
        Some(fence) => is_below(entry, fence),
    }
}

/// Whether each of these entries lies between the fences.
pub(crate) fn are_between(low: &Option<Entry>, high: &Option<Entry>, entries: &[Entry]) -> bool
    ensures { IsTrue result ↔ AreBetween low.now high.now entries.now }
{
    let mut rest = entries;
    while let Some((entry, later)) = rest.split_first() {
        if !is_from(low, entry) {
            return false;
        }
        if !is_up_to(high, entry) {
            return false;
        }
        rest = later;
    }
    true
}

/// Whether two entries have the same key and record.
pub fn have_same_place(a: &Entry, b: &Entry) -> bool
    ensures { IsTrue result ↔ SamePlace a.now b.now }
{
    a.key.as_slice() == b.key.as_slice() && a.rec == b.rec
}

/// Whether an entry is the least one.
fn is_least(entry: &Entry) -> bool
    ensures { IsTrue result ↔ IsLeast entry.now }
{
    entry.key.is_empty() && entry.rec.page.0 == 0 && entry.rec.slot == 0
}

/// Whether an entry is as the first one of an inner page with this low fence.
fn is_first_entry(low: &Option<Entry>, entry: &Entry) -> bool
    ensures { IsTrue result ↔ IsFirstEntry low.now entry.now }
{
    match low {
        None => is_least(entry),
        Some(fence) => have_same_place(entry, fence),
    }
}

/// Whether the first of these entries is as that of an inner page with this low fence.
pub(crate) fn begins_as_inner(low: &Option<Entry>, entries: &[Entry]) -> bool
    ensures { IsTrue result ↔ BeginsAsInner low.now entries.now }
{
    match entries.split_first() {
        None => true,
        Some((entry, _)) => is_first_entry(low, entry),
    }
}

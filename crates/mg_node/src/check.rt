//! The test of an index page: the first field that differs is named, with what is wanted there.

ghost use Rattle.std.specs.Prelude.{◌≡◌, ◌≤◌, ◌<◌, ◌+◌, ◌↔◌, [], ◌∷◌, ◌++◌, IsOk, OnOk, length, max, min};
ghost use Rattle.mg_base.specs.Checks.{PassesAll, verdict};
ghost use Rattle.mg_node.specs.NodePage.{IsNodePage, count_in, end_in, first_at as first_at_of, has_high as has_high_of, has_low as has_low_of, high_at as high_at_of, is_inner as is_inner_of, node_checks, place_of};
ghost use Rattle.mg_node.specs.NodeReading.{IsLaidOut};
ghost use Rattle.mg_node.specs.NodeTests.{HasEnough, content_tests, fence_tests, field_tests, key_test, key_tests, lawful_count as lawful_count_of, node_tests, order_test};

use crate::entry::{CONTENT_AT, END_AT};
use crate::in_place::ordered_front;
use crate::node::check_node_common;
use crate::walk::{
    FAR, count, end_of, first_at, has_high, has_low, high_at, is_inner, key_len, least_len, place,
};
use mg_base::{Damaged, Field, PageNo, check_field, get_u16};

/// Tests whether `b` is an index page with this number and owner.
///
/// `page` is the number that the page was read under, `owner` the number of the first pointer page
/// of the table. What the page names, its level, and whether its fences agree with those of its
/// neighbours are not tested here, nor bits 2 to 15 of the fences' field.
///
/// # Errors
///
/// `Damaged` at the first field that differs, in page order: the common part; then `Count`, wanted
/// the nearest one from the fewest entries (two in an inner page) to the most that fit the page;
/// then `Offset` of the entries' end, wanted where they end, and within the page; then `Offset` of
/// the length of each key, wanted an eighth of the page at most; then `Entry`, the place of the
/// first entry that breaks the order, wanted the count.
pub fn check_node(b: &[u8], page: PageNo, owner: u32) -> Result<(), Damaged>
    requires least { 1024 ≤ length b.now }
    requires most { length b.now ≤ 16384 }
    ensures first { result ≡ verdict page (node_tests b.now page.0 owner) }
    ensures when { IsOk result
        ↔ (PassesAll (node_checks b.now page.0 owner) × IsNodePage b.now × HasEnough b.now) }
{
    first_damage(b, page, owner)
}

/// Tests the common part, and then all behind it.
fn first_damage(b: &[u8], page: PageNo, owner: u32) -> Result<(), Damaged>
    requires least { 1024 ≤ length b.now }
    requires most { length b.now ≤ 16384 }
    ensures { result ≡ verdict page (node_tests b.now page.0 owner) }
{
    check_node_common(b, page, owner)?;
    check_content(b, page)
}

/// Tests the fields behind the common part, and the entries.
fn check_content(b: &[u8], page: PageNo) -> Result<(), Damaged>
    requires least { 1024 ≤ length b.now }
    requires most { length b.now ≤ 16384 }
    ensures { result ≡ verdict page (content_tests b.now) }
{
    check_keys(b, page)?;
    check_order(b, page)
}

/// Tests the count, and where the entries end.
fn check_fields(b: &[u8], page: PageNo) -> Result<(), Damaged>
    requires least { 1024 ≤ length b.now }
    requires most { length b.now ≤ 16384 }
    ensures { result ≡ verdict page (field_tests b.now) }
{
    let count = count(b);
    let end = u32::from(get_u16(b, END_AT));
    check_field(page, Field::Count, count as u32, lawful_count(b) as u32)?;
    check_field(page, Field::Offset, end, place(b, count) as u32)?;
    check_field(page, Field::Offset, end, end.min(b.len() as u32))
}

/// The nearest lawful count.
fn lawful_count(b: &[u8]) -> usize
    requires least { 1024 ≤ length b.now }
    requires most { length b.now ≤ 16384 }
    ensures is { result ≡ lawful_count_of b.now }
    ensures most { result < 65536 }
{
    let inner = is_inner(b);
    let fewest = if inner { 2 } else { 0 };
    let most = (b.len() - CONTENT_AT) / least_len(inner);
    count(b).min(most).max(fewest)
}

/// Tests the length of the key at a place.
fn check_key(b: &[u8], page: PageNo, at: usize) -> Result<(), Damaged>
    requires at { at ≤ FAR }
    requires most { length b.now ≤ 16384 }
    ensures { result ≡ verdict page (key_test b.now at ∷ []) }
{
    let len = key_len(b, at);
    check_field(page, Field::Offset, len as u32, len.min(b.len() / 8) as u32)
}

/// Tests the length of the low fence's key, where there is one.
fn check_low(b: &[u8], page: PageNo) -> Result<(), Damaged>
    requires least { 1024 ≤ length b.now }
    requires most { length b.now ≤ 16384 }
    ensures { result ≡ verdict page (fence_tests (has_low_of b.now) b.now CONTENT_AT) }
{
    if has_low(b) {
        check_key(b, page, CONTENT_AT)
    } else {
        Ok(())
    }
}

/// Tests the length of the high fence's key, where there is one.
fn check_high(b: &[u8], page: PageNo) -> Result<(), Damaged>
    requires least { 1024 ≤ length b.now }
    requires most { length b.now ≤ 16384 }
    ensures { result ≡ verdict page (fence_tests (has_high_of b.now) b.now (high_at_of b.now)) }
{
    if has_high(b) {
        check_key(b, page, high_at(b))
    } else {
        Ok(())
    }
}

/// Tests the lengths of the keys of the entries.
fn check_entries(b: &[u8], page: PageNo) -> Result<(), Damaged>
    requires least { 1024 ≤ length b.now }
    requires most { length b.now ≤ 16384 }
    ensures { result
        ≡ verdict page (key_tests (is_inner_of b.now) b.now (first_at_of b.now) (count_in b.now)) }
{
    let with_child = is_inner(b);
    let mut at = first_at(b);
    for _ in 0..count(b) {
        check_key(b, page, at)?;
        at = end_of(b, at, with_child);
    }
    Ok(())
}

/// Tests all but the order of the entries.
fn check_keys(b: &[u8], page: PageNo) -> Result<(), Damaged>
    requires least { 1024 ≤ length b.now }
    requires most { length b.now ≤ 16384 }
    ensures { result ≡ verdict page (field_tests b.now
        ++ fence_tests (has_low_of b.now) b.now CONTENT_AT
        ++ fence_tests (has_high_of b.now) b.now (high_at_of b.now)
        ++ key_tests (is_inner_of b.now) b.now (first_at_of b.now) (count_in b.now)) }
{
    check_fields(b, page)?;
    check_low(b, page)?;
    check_high(b, page)?;
    check_entries(b, page)
}

/// Tests the order of the entries.
fn check_order(b: &[u8], page: PageNo) -> Result<(), Damaged>
    requires laid_out { IsLaidOut b.now }
    requires least { 1024 ≤ length b.now }
    requires most { length b.now ≤ 16384 }
    ensures { result ≡ verdict page (order_test b.now ∷ []) }
{
    check_field(page, Field::Entry, ordered_front(b) as u32, count(b) as u32)
}

//! Going along the fences and the entries of a page, without looking at what they say.

ghost use Rattle.std.specs.Prelude.{◌≡◌, ◌+◌, ◌*◌, ◌<◌, ◌≤◌, length};
ghost use Rattle.mg_base.specs.Fields.{byte};
ghost use Rattle.mg_node.specs.NodePage.{count_in, end_of as end_of_def, first_at as first_at_def, has_high as has_high_of, has_low as has_low_of, high_at as high_at_def, is_inner as is_inner_of, key_len as key_len_of, place_of};
ghost use Rattle.mg_node.specs.NodeWalk.{least_len as least_len_of};

use crate::entry::{CHILD_LEN, CONTENT_AT, COUNT_AT, FENCES_AT, KEY_AT, LEVEL_AT, RECORD_LEN};
use mg_base::get_u16;

/// The greatest place that a walk of a page may come to, and more.
pub const FAR: usize = 1 << 40;

/// Whether a page is an inner page.
pub fn is_inner(page: &[u8]) -> bool
    requires { 1024 ≤ length page.now }
    ensures { result ≡ is_inner_of page.now }
{
    get_u16(page, LEVEL_AT) > 0
}

/// Whether a page has a low fence.
pub fn has_low(page: &[u8]) -> bool
    requires { 1024 ≤ length page.now }
    ensures { result ≡ has_low_of page.now }
{
    get_u16(page, FENCES_AT) % 2 == 1
}

/// Whether a page has a high fence.
pub fn has_high(page: &[u8]) -> bool
    requires { 1024 ≤ length page.now }
    ensures { result ≡ has_high_of page.now }
{
    get_u16(page, FENCES_AT) / 2 % 2 == 1
}

/// The count of the entries of a page.
pub fn count(page: &[u8]) -> usize
    requires { 1024 ≤ length page.now }
    ensures is { result ≡ count_in page.now }
    ensures most { result < 65536 }
{
    get_u16(page, COUNT_AT) as usize
}

/// How many bytes an entry takes with an empty key.
pub fn least_len(with_child: bool) -> usize
    ensures { result ≡ least_len_of with_child }
{
    if with_child {
        KEY_AT + RECORD_LEN + CHILD_LEN
    } else {
        KEY_AT + RECORD_LEN
    }
}

/// The byte at a place, 0 past the end.
fn byte_or_zero(page: &[u8], at: usize) -> u8
    ensures { result ≡ byte page.now at }
{
    page.get(at).copied().unwrap_or(0)
}

/// The length of the key at a place, which may lie past the end.
pub fn key_len(page: &[u8], at: usize) -> usize
    requires { at ≤ FAR }
    ensures is { result ≡ key_len_of page.now at }
    ensures most { result < 65536 }
{
    u16::from_le_bytes([byte_or_zero(page, at), byte_or_zero(page, at + 1)]) as usize
}

/// Where the fence or the entry at a place ends, which may lie past the end of the page.
pub fn end_of(page: &[u8], at: usize, with_child: bool) -> usize
    requires { at ≤ FAR }
    ensures is { result ≡ end_of_def with_child page.now at }
    ensures most { result < at + 65548 }
{
    at + key_len(page, at) + least_len(with_child)
}

/// Where the high fence stands, behind the low one.
pub fn high_at(page: &[u8]) -> usize
    requires { 1024 ≤ length page.now }
    ensures is { result ≡ high_at_def page.now }
    ensures most { result < 65576 }
{
    if has_low(page) {
        end_of(page, CONTENT_AT, false)
    } else {
        CONTENT_AT
    }
}

/// Where the first entry stands, behind the fences.
pub fn first_at(page: &[u8]) -> usize
    requires { 1024 ≤ length page.now }
    ensures is { result ≡ first_at_def page.now }
    ensures most { result < 131124 }
{
    let at = high_at(page);
    if has_high(page) {
        end_of(page, at, false)
    } else {
        at
    }
}

/// Where an entry stands, counted from 0; behind the last one where it is their count.
pub fn place(page: &[u8], n: usize) -> usize
    requires least { 1024 ≤ length page.now }
    requires most { n < 65536 }
    ensures is { result ≡ place_of page.now n }
    ensures most { result < 131124 + n * 65548 }
{
    let with_child = is_inner(page);
    let mut at = first_at(page);
    for _ in 0..n {
        at = end_of(page, at, with_child);
    }
    at
}

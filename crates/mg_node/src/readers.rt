//! The fields, the fences and single entries of a lawful page.

ghost use Rattle.std.specs.Prelude.{◌≡◌, ◌≤◌, IfOk, length, slice_get};
ghost use Rattle.mg_node.specs.NodePage.{IsNodePage, entries_of, high_of as high_of_def, level_in, low_of as low_of_def, right_in};

use crate::entry::{CONTENT_AT, Entry, LEVEL_AT, RIGHT_AT};
use crate::placed::{read_entry, read_fence};
use crate::walk::{count, has_high, has_low, high_at, is_inner, place};
use mg_base::{Memory, PageNo, get_u16, get_u32};
use std::alloc::Global;

/// The level of a page, 0 for a leaf.
pub fn level_of(b: &[u8]) -> u16
    requires { 1024 ≤ length b.now }
    ensures { result ≡ level_in b.now }
{
    get_u16(b, LEVEL_AT)
}

/// The right neighbour of a page, 0 for none.
pub fn right_of(b: &[u8]) -> PageNo
    requires { 1024 ≤ length b.now }
    ensures { result.0 ≡ right_in b.now }
{
    PageNo(get_u32(b, RIGHT_AT))
}

/// The low fence of a page, `None` where there is none.
///
/// # Errors
///
/// `Memory` only.
pub fn low_of(alloc: Global, b: &[u8]) -> Result<Option<Entry>, Memory>
    requires least { 1024 ≤ length b.now }
    requires most { length b.now ≤ 16384 }
    requires lawful { IsNodePage b.now }
    ensures { IfOk result (λ fence. fence ≡ low_of_def b.now) }
{
    let Some(fence) = read_fence(alloc, b, CONTENT_AT, has_low(b))? else {
        return Ok(None);
    };
    Ok(fence.entry)
}

/// The high fence of a page, `None` where there is none.
///
/// # Errors
///
/// `Memory` only.
pub fn high_of(alloc: Global, b: &[u8]) -> Result<Option<Entry>, Memory>
    requires least { 1024 ≤ length b.now }
    requires most { length b.now ≤ 16384 }
    requires lawful { IsNodePage b.now }
    ensures { IfOk result (λ fence. fence ≡ high_of_def b.now) }
{
    let Some(fence) = read_fence(alloc, b, high_at(b), has_high(b))? else {
        return Ok(None);
    };
    Ok(fence.entry)
}

/// The entry of a page at a place among its entries, `None` past their count.
///
/// # Errors
///
/// `Memory` only.
pub fn entry_at(alloc: Global, b: &[u8], i: u16) -> Result<Option<Entry>, Memory>
    requires least { 1024 ≤ length b.now }
    requires most { length b.now ≤ 16384 }
    requires lawful { IsNodePage b.now }
    ensures { IfOk result (λ e. e ≡ slice_get (entries_of b.now) i) }
{
    if i as usize >= count(b) {
        return Ok(None);
    }
    let at = place(b, i as usize);
    let Some(placed) = read_entry(alloc, b, at, is_inner(b))? else {
        return Ok(None);
    };
    Ok(Some(placed.entry))
}

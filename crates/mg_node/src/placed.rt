//! Fences and entries at their places on a page.

ghost use Rattle.std.specs.Prelude.{◌≡◌, ◌≤◌, ◌+◌, IfNone, IfOk, IfSome, drop, if◌then◌else◌, false, length, take, true};
ghost use Rattle.mg_base.specs.Fields.{u16_at, u32_at};
ghost use Rattle.mg_node.specs.NodeReading.{IsFence, IsPlaced, IsWithin};

use crate::entry::{CHILD_LEN, Entry, KEY_AT, RECORD_LEN};
use crate::in_place::record_at;
use mg_base::{Bytes, Memory, PageNo, get_u16, get_u32};
use std::alloc::Global;

/// An entry of a page, and where it ends.
#[derive(Debug, Drop)]
pub(crate) struct Placed {
    pub entry: Entry,
    pub end: usize,
}

/// A fence of a page, if it has it, and what stands behind it.
#[derive(Debug, Drop)]
pub(crate) struct Fence {
    pub entry: Option<Entry>,
    pub end: usize,
}

/// How many bytes the child takes.
fn child_len(with_child: bool) -> usize
    ensures { result ≡ (if with_child then CHILD_LEN else 0) }
{
    if with_child { CHILD_LEN } else { 0 }
}

/// The child at a place, 0 where there is none.
fn child_at(page: &[u8], at: usize, with_child: bool) -> PageNo
    requires { at + (if with_child then CHILD_LEN else 0) ≤ length page.now }
    ensures { result.0 ≡ (if with_child then u32_at page.now at else 0) }
{
    if with_child {
        PageNo(get_u32(page, at))
    } else {
        PageNo(0)
    }
}

/// So many bytes at a place.
///
/// # Errors
///
/// `Memory` only.
fn bytes_at(alloc: Global, page: &[u8], at: usize, len: usize) -> Result<Bytes, Memory>
    requires { at + len ≤ length page.now }
    ensures { IfOk result (λ bytes. bytes ≡ take len (drop at page.now)) }
{
    let (_, rest) = page.split_at(at);
    let (bytes, _) = rest.split_at(len);
    Ok(Bytes::new(Vec::from_slice(alloc, bytes)?))
}

/// The fence or the entry at a place: `None` exactly where its key is too long, or it does not end
/// within the page.
///
/// # Errors
///
/// `Memory` only.
pub(crate) fn read_entry(
    alloc: Global,
    page: &[u8],
    at: usize,
    with_child: bool,
) -> Result<Option<Placed>, Memory>
    requires at { at ≤ length page.now }
    requires most { length page.now ≤ 16384 }
    ensures some { IfOk result (λ read. IfSome read (IsPlaced with_child page.now at)) }
    ensures none { IfOk result (λ read. IfNone read (IsWithin with_child page.now at → ⊥)) }
{
    if at + KEY_AT > page.len() {
        return Ok(None);
    }
    let len = get_u16(page, at) as usize;
    if len > page.len() / 8 {
        return Ok(None);
    }
    let key_at = at + KEY_AT;
    let end = key_at + len + RECORD_LEN + child_len(with_child);
    if end > page.len() {
        return Ok(None);
    }
    let entry = Entry {
        key: bytes_at(alloc, page, key_at, len)?,
        rec: record_at(page, key_at + len),
        child: child_at(page, key_at + len + RECORD_LEN, with_child),
    };
    Ok(Some(Placed { entry, end }))
}

/// The fence at a place, where the page has it: `None` exactly where its key is too long, or it
/// does not end within the page.
///
/// # Errors
///
/// `Memory` only.
pub(crate) fn read_fence(
    alloc: Global,
    page: &[u8],
    at: usize,
    there: bool,
) -> Result<Option<Fence>, Memory>
    requires at { at ≤ length page.now }
    requires most { length page.now ≤ 16384 }
    ensures some { IfOk result (λ read. IfSome read (IsFence there page.now at)) }
    ensures none { IfOk result (λ read. IfNone read
        ((there ≡ true → IsWithin false page.now at) → ⊥)) }
{
    if !there {
        return Ok(Some(Fence {
            entry: None,
            end: at,
        }));
    }
    let Some(placed) = read_entry(alloc, page, at, false)? else {
        return Ok(None);
    };
    Ok(Some(Fence {
        entry: Some(placed.entry),
        end: placed.end,
    }))
}

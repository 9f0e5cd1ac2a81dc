//! What an index page says, read from its bytes.

ghost use Rattle.std.specs.Prelude.{◌≡◌, ◌≤◌, ◌↔◌, IfNone, IfOk, IfSome, IsSome, IsTrue, length};
ghost use Rattle.mg_base.specs.Checks.{verdict};
ghost use Rattle.mg_node.specs.NodePage.{IsNodePage, first_at, node_checks};
ghost use Rattle.mg_node.specs.NodeReading.{ArePartsOf, IsLaidOut, IsListOf, IsNodeOf};

use crate::entry::{CONTENT_AT, COUNT_AT, END_AT, Entry, LEVEL_AT, NODE_KIND, RIGHT_AT};
use crate::lawful::{are_ascending, are_between, begins_as_inner};
use crate::placed::{read_entry, read_fence};
use crate::walk::{has_high, has_low, is_inner};
use mg_base::{Damaged, Memory, PageNo, check_common, get_u16, get_u32};
use std::alloc::Global;

/// What an index page says.
#[derive(Debug, Drop)]
pub struct Node {
    /// 0 for a leaf.
    pub level: u16,
    /// The next page of the level, 0 for none.
    pub right: PageNo,
    /// No entry comes before it.
    pub low: Option<Entry>,
    /// Every entry comes before it.
    pub high: Option<Entry>,
    pub entries: Vec<Entry>,
}

/// Entries one behind the other, and where they end.
#[derive(Debug, Drop)]
struct Listed {
    entries: Vec<Entry>,
    end: usize,
}

/// What a page says, and where its entries end.
#[derive(Debug, Drop)]
struct Parts {
    node: Node,
    end: usize,
}

/// Tests the common part of an index page.
///
/// `page` is the number that the page was read under, `owner` the number of the first pointer page
/// of the table.
///
/// # Errors
///
/// `Damaged` at the first field that differs: kind, flags, zero, own number, owner, sequence.
pub fn check_node_common(b: &[u8], page: PageNo, owner: u32) -> Result<(), Damaged>
    requires { 16 ≤ length b.now }
    ensures { result ≡ verdict page (node_checks b.now page.0 owner) }
{
    check_common(b, page, NODE_KIND, owner, 0)
}

/// The entries of a page: `None` exactly where the key of one is too long, or one does not end
/// within the page.
///
/// # Errors
///
/// `Memory` only.
fn read_entries(alloc: Global, page: &[u8], first: usize) -> Result<Option<Listed>, Memory>
    requires least { 1024 ≤ length page.now }
    requires most { length page.now ≤ 16384 }
    requires first { first ≡ first_at page.now }
    requires inside { first ≤ length page.now }
    ensures some { IfOk result (λ read. IfSome read (IsListOf page.now)) }
    ensures none { IfOk result (λ read. IfNone read (IsLaidOut page.now → ⊥)) }
{
    let with_child = is_inner(page);
    let mut entries = Vec::new(alloc);
    let mut at = first;
    for _ in 0..get_u16(page, COUNT_AT) {
        let Some(placed) = read_entry(alloc, page, at, with_child)? else {
            return Ok(None);
        };
        entries.push(placed.entry)?;
        at = placed.end;
    }
    Ok(Some(Listed { entries, end: at }))
}

/// What a page says, where every key is short enough and every entry ends within the page.
///
/// # Errors
///
/// `Memory` only.
fn read_parts(alloc: Global, page: &[u8]) -> Result<Option<Parts>, Memory>
    requires least { 1024 ≤ length page.now }
    requires most { length page.now ≤ 16384 }
    ensures some { IfOk result (λ read. IfSome read (ArePartsOf page.now)) }
    ensures none { IfOk result (λ read. IfNone read (IsLaidOut page.now → ⊥)) }
{
    let Some(low) = read_fence(alloc, page, CONTENT_AT, has_low(page))? else {
        return Ok(None);
    };
    let Some(high) = read_fence(alloc, page, low.end, has_high(page))? else {
        return Ok(None);
    };
    let Some(listed) = read_entries(alloc, page, high.end)? else {
        return Ok(None);
    };
    let node = Node {
        level: get_u16(page, LEVEL_AT),
        right: PageNo(get_u32(page, RIGHT_AT)),
        low: low.entry,
        high: high.entry,
        entries: listed.entries,
    };
    let end = listed.end;
    Ok(Some(Parts { node, end }))
}

/// Whether what stands on a page is lawful.
fn is_lawful(page: &[u8], parts: &Parts) -> bool
    requires least { 1024 ≤ length page.now }
    requires parts { ArePartsOf page.now parts.now }
    ensures { IsTrue result ↔ IsNodePage page.now }
{
    let node = &parts.node;
    if get_u16(page, END_AT) as usize != parts.end {
        return false;
    }
    if !are_ascending(&node.entries) {
        return false;
    }
    if !are_between(&node.low, &node.high, &node.entries) {
        return false;
    }
    node.level == 0 || begins_as_inner(&node.low, &node.entries)
}

/// Reads an index page: `None` exactly where it is not lawful. The common part is not looked at.
///
/// # Errors
///
/// `Memory` only.
pub fn read_node(alloc: Global, page: &[u8]) -> Result<Option<Node>, Memory>
    requires least { 1024 ≤ length page.now }
    requires most { length page.now ≤ 16384 }
    ensures lawful { IfOk result (λ read. IsSome read ↔ IsNodePage page.now) }
    ensures node { IfOk result (λ read. IfSome read (IsNodeOf page.now)) }
{
    let Some(parts) = read_parts(alloc, page)? else {
        return Ok(None);
    };
    if !is_lawful(page, &parts) {
        return Ok(None);
    }
    Ok(Some(parts.node))
}

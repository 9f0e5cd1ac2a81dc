//! The two halves of an index page that has no room, and an entry more on the page above.

ghost use Rattle.std.specs.Prelude.{◌≡◌, ◌<◌, ◌≤◌, ◌↔◌, ◌++◌, ◌∷◌, ◌/◌, ◌==◌, true, IfOk, IsTrue, MatchResult, OnOk, Some, if◌then◌else◌, length, map, nat_lt, []};
ghost use Rattle.mg_node.specs.NodePage.{IsNodePage, count_in, entries_of, has_low as has_low_of, is_inner as is_inner_of, low_of as low_of_page};
ghost use Rattle.mg_node.specs.NodeTests.{HasEnough};
ghost use Rattle.mg_node_writing.specs.Moves.{as_fence};
ghost use Rattle.mg_node_writing.specs.NodeChanges.{IsSized, most_need, room_in};
ghost use Rattle.mg_btree.specs.Halves.{AreHalves, CoversBy, HasPlace, HasRoom, IsHalfFor, IsSplitPair, NamesMore, RefusesName, names_in};

use mg_base::{Bytes, Damaged, Field, Memory, PageNo, get_u16};
use mg_node::{
    END_AT, Entry, Node, have_same_place, is_below, is_inner, least_len, low_of, read_node,
};
use mg_node_writing::{first_stays, insert, split};
use mg_space::SpaceFault;
use std::alloc::Global;

/// An index page with its content.
#[derive(Drop)]
pub(crate) struct PageBytes {
    pub page: PageNo,
    pub bytes: Bytes,
}

/// The two pages between which the entries of a page are shared out.
#[derive(Drop)]
pub(crate) struct Halves {
    /// The page that splits, with the first entries.
    pub left: PageBytes,
    /// Its new right neighbour.
    pub right: PageBytes,
    /// The entry for the right one on the page above.
    pub fence: Entry,
    /// The pages that the right one names.
    pub names: Vec<PageNo>,
}

/// The contents of two halves.
#[derive(Drop)]
struct Pair {
    left: Bytes,
    right: Bytes,
}

/// Tells whether a page has room for an entry.
pub(crate) fn has_room(b: &[u8], e: &Entry) -> bool
    requires sized { IsSized b.now }
    requires lawful { IsNodePage b.now }
    requires short { length e.now.key ≤ length b.now / 8 }
    ensures { IsTrue result ↔ HasRoom b.now e.now }
{
    let end = get_u16(b, END_AT) as usize;
    let need = least_len(is_inner(b)) + e.key.len();
    need + end <= b.len()
}

/// Splits the content of a page that has no room for some entry: its first entries stay, and the
/// others go to the page `at`.
///
/// # Errors
///
/// `Memory` only.
pub(crate) fn halve(alloc: Global, full: PageBytes, at: PageNo) -> Result<Halves, Memory>
    requires sized { IsSized full.bytes }
    requires lawful { IsNodePage full.bytes }
    requires full { room_in full.bytes < most_need full.bytes }
    ensures { IfOk result (AreHalves full.bytes full.page.0 at.0) }
{
    let PageBytes { page, bytes } = full;
    let blank = Bytes::zeroed(alloc, bytes.len())?;
    let Pair { left, right } = split_pair(bytes, blank, at);
    let fence = fence_of(alloc, right.as_slice(), at)?;
    let names = names_of(alloc, right.as_slice())?;
    Ok(Halves {
        left: PageBytes { page, bytes: left },
        right: PageBytes {
            page: at,
            bytes: right,
        },
        fence,
        names,
    })
}

/// Splits the bytes of a page, with those of another one for its upper half.
fn split_pair(left: Bytes, right: Bytes, at: PageNo) -> Pair
    requires sized { IsSized left }
    requires lawful { IsNodePage left }
    requires sizes { length right ≡ length left }
    requires full { room_in left < most_need left }
    ensures { IsSplitPair left at.0 result.left result.right }
{
    let mut left = left.into_vec();
    let mut right = right.into_vec();
    split(&mut left, &mut right, at);
    Pair {
        left: Bytes::new(left),
        right: Bytes::new(right),
    }
}

/// The low fence of a page, as the entry by which a page above names it.
///
/// # Errors
///
/// `Memory` only.
fn fence_of(alloc: Global, b: &[u8], child: PageNo) -> Result<Entry, Memory>
    requires sized { IsSized b.now }
    requires lawful { IsNodePage b.now }
    requires there { has_low_of b.now ≡ true }
    ensures fence { IfOk result (λ e. low_of_page b.now ≡ Some (as_fence e)) }
    ensures child { IfOk result (λ e. e.child ≡ child) }
{
    let Some(low) = low_of(alloc, b)? else {
        unreachable!()
    };
    Ok(Entry {
        key: low.key,
        rec: low.rec,
        child,
    })
}

/// The pages that an index page names.
///
/// # Errors
///
/// `Memory` only.
pub(crate) fn names_of(alloc: Global, b: &[u8]) -> Result<Vec<PageNo>, Memory>
    requires sized { IsSized b.now }
    requires lawful { IsNodePage b.now }
    ensures { IfOk result (λ names. names.items ≡ names_in b.now) }
{
    let Some(node) = read_node(alloc, b)? else {
        unreachable!()
    };
    names_by(alloc, &node)
}

/// The pages that a node names: its right neighbour and its children, where it has any.
///
/// # Errors
///
/// `Memory` only.
fn names_by(alloc: Global, node: &Node) -> Result<Vec<PageNo>, Memory>
    ensures { IfOk result (λ names. names.items
        ≡ (if node.now.right.0 == 0 then [] else (node.now.right ∷ []))
        ++ (if nat_lt 0 node.now.level then map (λ e. e.child) node.now.entries.items else [])) }
{
    let mut names = Vec::new(alloc);
    name_right(&mut names, node.right)?;
    name_children(&mut names, node.level, &node.entries)?;
    Ok(names)
}

/// Adds a right neighbour, where there is one.
fn name_right(names: &mut Vec<PageNo>, right: PageNo) -> Result<(), Memory>
    ensures { OnOk result (names.new.items ≡ names.old.items
        ++ (if right.0 == 0 then [] else (right ∷ []))) }
{
    if right.0 == 0 {
        return Ok(());
    }
    names.push(right)?;
    Ok(())
}

/// Adds the children of these entries, where they have any.
fn name_children(names: &mut Vec<PageNo>, level: u16, entries: &[Entry]) -> Result<(), Memory>
    ensures { OnOk result (names.new.items ≡ names.old.items
        ++ (if nat_lt 0 level then map (λ e. e.child) entries.now else [])) }
{
    if level == 0 {
        return Ok(());
    }
    push_children(names, entries)
}

/// Adds the children of these entries.
fn push_children(names: &mut Vec<PageNo>, entries: &[Entry]) -> Result<(), Memory>
    ensures { OnOk result (names.new.items ≡ names.old.items ++ map (λ e. e.child) entries.now) }
{
    let mut rest = entries;
    while let Some((next, later)) = rest.split_first() {
        names.push(next.child)?;
        rest = later;
    }
    Ok(())
}

/// The half to which an entry belongs.
pub(crate) fn half_for(halves: Halves, e: &Entry) -> PageBytes
    ensures { IsHalfFor halves e.now result }
{
    let Halves {
        left,
        right,
        fence,
        ..
    } = halves;
    if is_below(e, &fence) { left } else { right }
}

/// Tells whether one of these entries has the place of another one.
pub(crate) fn has_place(entries: &[Entry], e: &Entry) -> bool
    ensures { IsTrue result ↔ HasPlace entries.now e.now }
{
    let mut rest = entries;
    while let Some((next, later)) = rest.split_first() {
        if have_same_place(e, next) {
            return true;
        }
        rest = later;
    }
    false
}

/// Tells whether an entry of a page has the place of another one.
///
/// # Errors
///
/// `Memory` only.
fn is_taken(alloc: Global, b: &[u8], e: &Entry) -> Result<bool, Memory>
    requires sized { IsSized b.now }
    requires lawful { IsNodePage b.now }
    ensures { IfOk result (λ taken. IsTrue taken ↔ HasPlace (entries_of b.now) e.now) }
{
    let Some(node) = read_node(alloc, b)? else {
        unreachable!()
    };
    Ok(has_place(&node.entries, e))
}

/// Tests that no entry of a page has the place of another one.
///
/// # Errors
///
/// `Damaged` exactly where one has; else `Memory`.
fn check_free(alloc: Global, page: PageNo, b: &[u8], e: &Entry) -> Result<(), SpaceFault>
    requires sized { IsSized b.now }
    requires lawful { IsNodePage b.now }
    ensures { MatchResult result (λ _. HasPlace (entries_of b.now) e.now → ⊥)
        (RefusesName page b.now e.now) }
{
    if is_taken(alloc, b, e)? {
        return Err(SpaceFault::Damaged(Damaged {
            page,
            field: Field::Entry,
            found: 1,
            wanted: 0,
        }));
    }
    Ok(())
}

/// Puts an entry into an inner page that has entries, room for it, and none of its place.
pub(crate) fn put_name(b: &mut [u8], e: &Entry)
    requires sized { IsSized b.old }
    requires lawful { IsNodePage b.old }
    requires inner { is_inner_of b.old ≡ true }
    requires some { 0 < count_in b.old }
    requires short { length e.now.key ≤ length b.old / 8 }
    requires covers { CoversBy b.old e.now }
    requires room { HasRoom b.old e.now }
    requires free { HasPlace (entries_of b.old) e.now → ⊥ }
    ensures { NamesMore b.old b.new e.now }
{
    first_stays();
    match insert(b, e) {
        Ok(()) => {}
        Err(_) => unreachable!(),
    }
}

/// Names the right half of a split on the page above, which has room for that.
///
/// # Errors
///
/// `Damaged` exactly where the page has an entry of that place; else `Memory`.
pub(crate) fn name_half(
    alloc: Global,
    above: PageBytes,
    fence: &Entry,
) -> Result<PageBytes, SpaceFault>
    requires sized { IsSized above.bytes }
    requires lawful { IsNodePage above.bytes }
    requires inner { is_inner_of above.bytes ≡ true }
    requires enough { HasEnough above.bytes }
    requires short { length fence.now.key ≤ length above.bytes / 8 }
    requires covers { CoversBy above.bytes fence.now }
    requires room { HasRoom above.bytes fence.now }
    ensures page { IfOk result (λ named. named.page ≡ above.page) }
    ensures names { MatchResult result (λ named. NamesMore above.bytes named.bytes fence.now)
        (RefusesName above.page above.bytes fence.now) }
{
    check_free(alloc, above.page, above.bytes.as_slice(), fence)?;
    let PageBytes { page, bytes } = above;
    let mut bytes = bytes.into_vec();
    put_name(&mut bytes, fence);
    Ok(PageBytes {
        page,
        bytes: Bytes::new(bytes),
    })
}

//! What the things on a page demand of other pages: one list for each kind of thing.

ghost use Rattle.std.specs.Prelude.{◌≡◌, ◌<◌, ◌^◌, ◌++◌, ◌&&◌, Some, nat_lt, true, length, OnErr, OnOk};
ghost use Rattle.mg_base.specs.Geometry.{is_page_size};
ghost use Rattle.mg_image.specs.Records.{cell_spelled, slot_cell};
ghost use Rattle.mg_space.specs.Demands.{Begins, back_demands, bit_demand, cell_demands, child_demand, child_demands, data_demands, demand, demands_by, drawn_demands, entry_demand, entry_demands, header_demands, is_decided as decided_test, link_demand, linked, node_demands, pointer_demands, right_demands, slot_demands, state_demands, tip_demands, tree_demands, version_demands, wanted_demands};
ghost use Rattle.mg_node.specs.NodePage.{count_in as node_count, is_inner as inner_test};
ghost use Rattle.mg_pointer.specs.PointerPage.{count_in};
ghost use Rattle.mg_slots.specs.DataPage.{cell_of};
ghost use Rattle.mg_tip.specs.TipPage.{places as places_in};
ghost use Rattle.mg_version.specs.CellReading.{version_in};

use crate::cells::{back_at, cell_at, link_at};
use crate::fields::{byte_or_zero, u16_or_zero, u32_or_zero};
use crate::links::{BIT, DATA, HEADER, NEXT, NODE, POINTER, TRANSACTIONS, TREE, VERSION};
use crate::taking::region_len;
use mg_base::{Memory, TxState};
use mg_careful::Demand;
use mg_header::{CATALOG_AT, LAST_TIP_AT, NEXT_AT};
use mg_image::PRIMARY_VERSION;
use mg_node::{CHILD_LEN, count, end_of, first_at, is_inner, level_of, right_of};
use mg_pointer::{COUNT_AT as ENTRY_COUNT_AT, ENTRIES_AT, ENTRY_LEN, NEXT_AT as NEXT_POINTER_AT};
use mg_slots::COUNT_AT;
use mg_tip::{PREV_AT, STATES_AT, state_at};
use mg_version::{ANCHOR, KIND_AT, Link, NEWEST_AT, TX_AT};

/// The numbers that a field of a demand has lie below this one.
const NUMBERS: u64 = 1 << 32;

/// Appends what a page of this size demands, of which a thing is wanted.
pub(crate) fn put_demands(
    b: &[u8],
    size: u32,
    want: &Demand,
    out: &mut Vec<Demand>,
) -> Result<(), Memory>
    requires size { is_page_size size ≡ true }
    requires len { length b.now ≡ size }
    ensures ok { OnOk result (out.new.items ≡ out.old.items ++ demands_by size b.now want.now) }
    ensures err { OnErr result (Begins out.old.items out.new.items) }
{
    match want.what {
        HEADER => put_header(b, size, out),
        TRANSACTIONS => put_tip(b, size, want.a, out),
        POINTER => put_pointer(b, size, want.a, want.b, out),
        DATA => put_slots(b, out),
        VERSION => put_wanted(b, want.a, out),
        TREE => put_tree(b, size, want.a, out),
        NODE => put_node(b, size, want.a, out),
        _ => Ok(()),
    }
}

/// What the header demands.
fn put_header(b: &[u8], size: u32, out: &mut Vec<Demand>) -> Result<(), Memory>
    requires size { is_page_size size ≡ true }
    requires len { length b.now ≡ size }
    ensures ok { OnOk result (out.new.items ≡ out.old.items ++ header_demands size b.now) }
    ensures err { OnErr result (Begins out.old.items out.new.items) }
{
    let last = u32_or_zero(b, NEXT_AT).saturating_sub(1);
    let sequence = last / places_of(size);
    let catalog = u32_or_zero(b, CATALOG_AT);
    put_linked(
        out,
        size,
        u32_or_zero(b, LAST_TIP_AT),
        TRANSACTIONS,
        u64::from(sequence),
        0,
    )?;
    put_linked(out, size, catalog, POINTER, u64::from(catalog), 0)
}

/// What a transaction inventory page demands.
fn put_tip(b: &[u8], size: u32, sequence: u32, out: &mut Vec<Demand>) -> Result<(), Memory>
    requires size { is_page_size size ≡ true }
    requires len { length b.now ≡ size }
    ensures ok { OnOk result (out.new.items ≡ out.old.items ++ tip_demands size b.now sequence) }
    ensures err { OnErr result (Begins out.old.items out.new.items) }
{
    put_drawn(b, size, sequence, out)?;
    if sequence == 0 {
        return Ok(());
    }
    put_linked(
        out,
        size,
        u32_or_zero(b, PREV_AT),
        TRANSACTIONS,
        u64::from(sequence - 1),
        0,
    )
}

/// That the transactions of a page are drawn which are in limbo or committed.
fn put_drawn(b: &[u8], size: u32, sequence: u32, out: &mut Vec<Demand>) -> Result<(), Memory>
    requires size { is_page_size size ≡ true }
    requires len { length b.now ≡ size }
    ensures ok { OnOk result (out.new.items
        ≡ out.old.items ++ drawn_demands size b.now sequence (places_in size)) }
    ensures err { OnErr result (Begins out.old.items out.new.items) }
{
    let places = places_of(size);
    for place in 0..places {
        put_state(b, size, sequence, place, out)?;
    }
    Ok(())
}

/// That a transaction is drawn, if it is in limbo or committed.
fn put_state(
    b: &[u8],
    size: u32,
    sequence: u32,
    place: u32,
    out: &mut Vec<Demand>,
) -> Result<(), Memory>
    requires size { is_page_size size ≡ true }
    requires len { length b.now ≡ size }
    requires place { place < places_in size }
    ensures ok { OnOk result (out.new.items ≡ out.old.items ++ state_demands size b.now sequence place) }
    ensures err { OnErr result (Begins out.old.items out.new.items) }
{
    if is_decided(state_at(b, place)) {
        let first = u64::from(sequence) * u64::from(places_of(size));
        put(out, 0, NEXT, first + u64::from(place), 0)?;
    }
    Ok(())
}

/// Tells whether a state is one that only a drawn transaction has.
fn is_decided(state: TxState) -> bool
    ensures { result ≡ decided_test state }
{
    matches!(state, TxState::Limbo | TxState::Committed)
}

/// What a pointer page demands.
fn put_pointer(
    b: &[u8],
    size: u32,
    owner: u32,
    sequence: u32,
    out: &mut Vec<Demand>,
) -> Result<(), Memory>
    requires size { is_page_size size ≡ true }
    requires len { length b.now ≡ size }
    ensures ok { OnOk result (out.new.items
        ≡ out.old.items ++ pointer_demands size b.now owner sequence) }
    ensures err { OnErr result (Begins out.old.items out.new.items) }
{
    put_entries(b, size, owner, sequence, out)?;
    let next = u32_or_zero(b, NEXT_POINTER_AT);
    if next == 0 {
        return Ok(());
    }
    put_linked(
        out,
        size,
        next,
        POINTER,
        u64::from(owner),
        u64::from(sequence) + 1,
    )
}

/// The data pages of a pointer page.
fn put_entries(
    b: &[u8],
    size: u32,
    owner: u32,
    sequence: u32,
    out: &mut Vec<Demand>,
) -> Result<(), Memory>
    requires size { is_page_size size ≡ true }
    requires len { length b.now ≡ size }
    ensures ok { OnOk result (out.new.items
        ≡ out.old.items ++ entry_demands size b.now owner sequence (count_in b.now)) }
    ensures err { OnErr result (Begins out.old.items out.new.items) }
{
    for n in 0..u32::from(u16_or_zero(b, ENTRY_COUNT_AT)) {
        put_entry(b, size, owner, sequence, n, out)?;
    }
    Ok(())
}

/// The data page of an entry, with its place among those of its table.
fn put_entry(
    b: &[u8],
    size: u32,
    owner: u32,
    sequence: u32,
    n: u32,
    out: &mut Vec<Demand>,
) -> Result<(), Memory>
    requires size { is_page_size size ≡ true }
    requires n { n < 65536 }
    ensures ok { OnOk result (out.new.items
        ≡ out.old.items ++ entry_demand size b.now owner sequence n) }
    ensures err { OnErr result (Begins out.old.items out.new.items) }
{
    let room = (size - ENTRIES_AT as u32) / ENTRY_LEN as u32;
    let place = u64::from(sequence) * u64::from(room) + u64::from(n);
    let entry = u32_or_zero(b, ENTRIES_AT + ENTRY_LEN * n as usize);
    put_linked(out, size, entry, DATA, u64::from(owner), place)
}

/// What a data page demands.
fn put_slots(b: &[u8], out: &mut Vec<Demand>) -> Result<(), Memory>
    ensures ok { OnOk result (out.new.items ≡ out.old.items ++ data_demands b.now) }
    ensures err { OnErr result (Begins out.old.items out.new.items) }
{
    for slot in 0..u32::from(u16_or_zero(b, COUNT_AT)) {
        put_slot(b, slot, out)?;
    }
    Ok(())
}

/// What the cell of a slot demands.
fn put_slot(b: &[u8], slot: u32, out: &mut Vec<Demand>) -> Result<(), Memory>
    ensures ok { OnOk result (out.new.items
        ≡ out.old.items ++ cell_demands (slot_cell (cell_of b.now slot))) }
    ensures err { OnErr result (Begins out.old.items out.new.items) }
{
    match cell_at(b, slot) {
        Some(cell) => put_cell(cell, out),
        None => Ok(()),
    }
}

/// What a cell demands: an anchor leads to its record's newest version, and a version in its
/// primary slot is that itself.
fn put_cell(cell: &[u8], out: &mut Vec<Demand>) -> Result<(), Memory>
    ensures ok { OnOk result (out.new.items
        ≡ out.old.items ++ cell_demands (Some (cell_spelled cell.now))) }
    ensures err { OnErr result (Begins out.old.items out.new.items) }
{
    match byte_or_zero(cell, KIND_AT) {
        ANCHOR => put_link(link_at(cell, NEWEST_AT), out),
        PRIMARY_VERSION => put_version(cell, out),
        _ => Ok(()),
    }
}

/// What the cell of a slot demands that is wanted as a version.
fn put_wanted(b: &[u8], slot: u32, out: &mut Vec<Demand>) -> Result<(), Memory>
    ensures ok { OnOk result (out.new.items
        ≡ out.old.items ++ wanted_demands (slot_cell (cell_of b.now slot))) }
    ensures err { OnErr result (Begins out.old.items out.new.items) }
{
    match cell_at(b, slot) {
        Some(cell) => put_wanted_cell(cell, out),
        None => Ok(()),
    }
}

/// What a cell demands that is wanted as a version.
fn put_wanted_cell(cell: &[u8], out: &mut Vec<Demand>) -> Result<(), Memory>
    ensures ok { OnOk result (out.new.items
        ≡ out.old.items ++ wanted_demands (Some (cell_spelled cell.now))) }
    ensures err { OnErr result (Begins out.old.items out.new.items) }
{
    match byte_or_zero(cell, KIND_AT) {
        ANCHOR => Ok(()),
        _ => put_version(cell, out),
    }
}

/// What a version demands: that its transaction is drawn, and the version before it.
fn put_version(cell: &[u8], out: &mut Vec<Demand>) -> Result<(), Memory>
    ensures ok { OnOk result (out.new.items
        ≡ out.old.items ++ version_demands (version_in cell.now)) }
    ensures err { OnErr result (Begins out.old.items out.new.items) }
{
    put(out, 0, NEXT, u64::from(u32_or_zero(cell, TX_AT)), 0)?;
    put_back(back_at(cell), out)
}

/// The version that a back pointer leads to.
fn put_back(back: Option<Link>, out: &mut Vec<Demand>) -> Result<(), Memory>
    ensures ok { OnOk result (out.new.items ≡ out.old.items ++ back_demands back) }
    ensures err { OnErr result (Begins out.old.items out.new.items) }
{
    match back {
        Some(link) => put_link(link, out),
        None => Ok(()),
    }
}

/// The version that a link leads to.
fn put_link(link: Link, out: &mut Vec<Demand>) -> Result<(), Memory>
    ensures ok { OnOk result (out.new.items ≡ out.old.items ++ link_demand link) }
    ensures err { OnErr result (Begins out.old.items out.new.items) }
{
    let slot = u64::from(link.rec.slot);
    put(
        out,
        u64::from(link.rec.page.0),
        VERSION,
        slot,
        u64::from(link.tx.0),
    )
}

/// What an index page demands that is wanted as one of its level: its right neighbour and its
/// children.
fn put_node(b: &[u8], size: u32, owner: u32, out: &mut Vec<Demand>) -> Result<(), Memory>
    requires size { is_page_size size ≡ true }
    requires len { length b.now ≡ size }
    ensures ok { OnOk result (out.new.items ≡ out.old.items ++ node_demands size b.now owner) }
    ensures err { OnErr result (Begins out.old.items out.new.items) }
{
    put_right(b, size, owner, out)?;
    put_tree(b, size, owner, out)
}

/// The right neighbour of an index page, on the same level.
fn put_right(b: &[u8], size: u32, owner: u32, out: &mut Vec<Demand>) -> Result<(), Memory>
    requires size { is_page_size size ≡ true }
    requires len { length b.now ≡ size }
    ensures ok { OnOk result (out.new.items ≡ out.old.items ++ right_demands size b.now owner) }
    ensures err { OnErr result (Begins out.old.items out.new.items) }
{
    let right = right_of(b).0;
    if right == 0 {
        return Ok(());
    }
    let level = u64::from(level_of(b));
    put_linked(out, size, right, NODE, u64::from(owner), level)
}

/// What an index page demands that is wanted as the top of a tree: its children.
fn put_tree(b: &[u8], size: u32, owner: u32, out: &mut Vec<Demand>) -> Result<(), Memory>
    requires size { is_page_size size ≡ true }
    requires len { length b.now ≡ size }
    ensures ok { OnOk result (out.new.items ≡ out.old.items ++ tree_demands size b.now owner) }
    ensures err { OnErr result (Begins out.old.items out.new.items) }
{
    if is_inner(b) {
        put_children(b, size, owner, out)
    } else {
        Ok(())
    }
}

/// The children of an inner index page.
fn put_children(b: &[u8], size: u32, owner: u32, out: &mut Vec<Demand>) -> Result<(), Memory>
    requires size { is_page_size size ≡ true }
    requires len { length b.now ≡ size }
    requires inner { inner_test b.now ≡ true }
    ensures ok { OnOk result (out.new.items
        ≡ out.old.items ++ child_demands size b.now owner (node_count b.now)) }
    ensures err { OnErr result (Begins out.old.items out.new.items) }
{
    let mut at = first_at(b);
    for _ in 0..count(b) {
        put_child(b, size, owner, at, out)?;
        at = end_of(b, at, true);
    }
    Ok(())
}

/// The child that the entry at a place names, on the level below.
fn put_child(
    b: &[u8],
    size: u32,
    owner: u32,
    at: usize,
    out: &mut Vec<Demand>,
) -> Result<(), Memory>
    requires size { is_page_size size ≡ true }
    requires len { length b.now ≡ size }
    requires at { at < 2 ^ 39 }
    ensures ok { OnOk result (out.new.items ≡ out.old.items ++ child_demand size b.now owner at) }
    ensures err { OnErr result (Begins out.old.items out.new.items) }
{
    let child = u32_or_zero(b, end_of(b, at, true) - CHILD_LEN);
    let level = level_of(b).saturating_sub(1);
    put_linked(out, size, child, NODE, u64::from(owner), u64::from(level))
}

/// A thing on another page, and that page's bit.
fn put_linked(
    out: &mut Vec<Demand>,
    size: u32,
    target: u32,
    what: u8,
    a: u64,
    b: u64,
) -> Result<(), Memory>
    requires { is_page_size size ≡ true }
    ensures ok { OnOk result (out.new.items ≡ out.old.items ++ linked size target what a b) }
    ensures err { OnErr result (Begins out.old.items out.new.items) }
{
    put(out, u64::from(target), what, a, b)?;
    put_bit(out, size, target)
}

/// The bit of a page.
fn put_bit(out: &mut Vec<Demand>, size: u32, page: u32) -> Result<(), Memory>
    requires { is_page_size size ≡ true }
    ensures ok { OnOk result (out.new.items ≡ out.old.items ++ bit_demand size page) }
    ensures err { OnErr result (Begins out.old.items out.new.items) }
{
    let bits = u64::from(region_len(size));
    let at = u64::from(page) / bits * bits + 1;
    put(out, at, BIT, u64::from(page), 0)
}

/// One demand, where its numbers fit its fields.
#[tactic(auto, unfolding(crate::specs::Demands::demand))]
fn put(out: &mut Vec<Demand>, target: u64, what: u8, a: u64, b: u64) -> Result<(), Memory>
    ensures ok { OnOk result (out.new.items ≡ out.old.items ++ demand target what a b) }
    ensures err { OnErr result (Begins out.old.items out.new.items) }
{
    if fits(target, a, b) {
        out.push(Demand {
            target: target as u32,
            what,
            a: a as u32,
            b: b as u32,
        })?;
    }
    Ok(())
}

/// Tells whether numbers fit the fields of a demand.
fn fits(target: u64, a: u64, b: u64) -> bool
    ensures { result ≡ (nat_lt target 4294967296 && nat_lt a 4294967296 && nat_lt b 4294967296) }
{
    target < NUMBERS && a < NUMBERS && b < NUMBERS
}

/// How many transactions a page of this size tells of.
pub fn places_of(size: u32) -> u32
    requires { is_page_size size ≡ true }
    ensures { result ≡ places_in size }
{
    4 * (size - STATES_AT as u32)
}

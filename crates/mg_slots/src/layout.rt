//! How a change is made: all cells are laid out anew from a copy of the page.

ghost use Rattle.std.specs.Prelude.{◌≡◌, ℕ, ◌+◌, ◌-◌, ◌*◌, ◌<◌, ◌≤◌, length};
ghost use Rattle.std.specs.Option.{option_copied};
ghost use Rattle.mg_base.specs.Fields.{byte};
ghost use Rattle.mg_slots.specs.Changes.{SetsCell};
ghost use Rattle.mg_slots.specs.DataPage.{IsDataPage, IsLaid, cell_of, slot_count, taken_below, taken_by};
ghost use Rattle.mg_slots.specs.Layout.{space_of, Clears, EndsAt, PlacesBelow, PlacesCell, WritesBytes, with_cell};

use crate::page::{COUNT_AT, GREATEST_SIZE, LOW_AT, SLOT_LEN, SLOTS_AT, cell};
use crate::space::taken;
use mg_base::{COMMON, put_u16};

/// The size of most pages, in bytes: the copy of a page that is no longer takes no more.
const USUAL_SIZE: usize = 4096;

/// Writes bytes at `at`.
fn put_bytes(b: &mut [u8], at: usize, bytes: &[u8])
    requires { at + length bytes.now ≤ length b.old }
    ensures { WritesBytes b.old b.new at bytes.now }
{
    b[at..at + bytes.len()].copy_from_slice(bytes);
}

/// Writes a cell at `at`, and its slot.
fn place_cell(b: &mut [u8], slot: usize, at: usize, bytes: &[u8])
    requires size { length b.old ≤ GREATEST_SIZE }
    requires after_slot { SLOTS_AT + SLOT_LEN * (slot + 1) ≤ at }
    requires in_page { at + length bytes.now ≤ length b.old }
    ensures { PlacesCell b.old b.new slot at bytes.now }
{
    put_bytes(b, at, bytes);
    put_u16(b, SLOTS_AT + SLOT_LEN * slot, at as u16);
    put_u16(b, SLOTS_AT + SLOT_LEN * slot + 2, bytes.len() as u16);
}

/// Places what a slot is to have below `low`, and answers where it begins.
fn place_below(b: &mut [u8], slot: usize, low: usize, wanted: Option<&[u8]>) -> usize
    requires size { length b.old ≤ GREATEST_SIZE }
    requires after_slot { SLOTS_AT + SLOT_LEN * (slot + 1) + taken_by (option_copied wanted) ≤ low }
    requires in_page { low ≤ length b.old }
    ensures placed { PlacesBelow b.old b.new slot low (option_copied wanted.entry) }
    ensures low { result + taken_by (option_copied wanted.entry) ≡ low }
{
    match wanted {
        None => low,
        Some(bytes) => {
            let at = low - taken(bytes.len());
            place_cell(b, slot, at, bytes);
            at
        }
    }
}

/// What a slot is to have: the new cell in the changed slot, its own elsewhere.
fn wanted<'a>(old: &'a [u8], at: usize, slot: usize, new_cell: Option<&'a [u8]>) -> Option<&'a [u8]>
    requires lawful { IsDataPage old.now }
    requires below { at < 65536 }
    ensures { option_copied result
        ≡ with_cell (cell_of old.now) slot (option_copied new_cell.entry) at }
{
    if at == slot {
        new_cell
    } else {
        cell(old, at as u16)
    }
}

/// Makes all bytes behind the common part zero.
fn clear(b: &mut [u8])
    requires { COMMON ≤ length b.old }
    ensures { Clears b.old b.new }
{
    b[COMMON..].fill(0);
}

/// Lays out `count` slots of a page that is blank behind its fields, and answers the lowest byte
/// that a cell uses.
fn lay_out(b: &mut [u8], old: &[u8], slot: usize, new_cell: Option<&[u8]>, count: usize) -> usize
    requires lawful { IsDataPage old.now }
    requires size { length b.old ≤ GREATEST_SIZE }
    requires room { space_of (with_cell (cell_of old.now) slot (option_copied new_cell)) count
        ≤ length b.old }
    requires blank { (k : ℕ) → SLOTS_AT ≤ k → byte b.old k ≡ 0 }
    ensures laid { IsLaid b.new
        (with_cell (cell_of old.now) slot (option_copied new_cell.entry)) count }
    ensures low { result
        + taken_below (with_cell (cell_of old.now) slot (option_copied new_cell.entry)) count
        ≡ length b.old }
    ensures front { (k : ℕ) → k < SLOTS_AT → byte b.new k ≡ byte b.old k }
{
    let mut low = b.len();
    for at in 0..count {
        let bytes = wanted(old, at, slot, new_cell);
        low = place_below(b, at, low, bytes);
    }
    low
}

/// Makes a page anew from its copy, with another cell, or none, in one slot.
fn rewrite_from(b: &mut [u8], old: &[u8], slot: usize, new_cell: Option<&[u8]>, count: usize)
    requires copy { old.now ≡ b.old }
    requires lawful { IsDataPage b.old }
    requires ends { EndsAt (with_cell (cell_of b.old) slot (option_copied new_cell)) count }
    requires room { space_of (with_cell (cell_of b.old) slot (option_copied new_cell)) count
        ≤ length b.old }
    ensures sets { SetsCell b.old b.new slot (option_copied new_cell.entry) }
    ensures count { slot_count b.new ≡ count }
{
    clear(b);
    let low = lay_out(b, old, slot, new_cell, count);
    put_u16(b, COUNT_AT, count as u16);
    put_u16(b, LOW_AT, low as u16);
}

/// Puts another cell, or none, into one slot of a page that has `count` slots from then on.
pub(crate) fn rewrite(b: &mut [u8], slot: usize, new_cell: Option<&[u8]>, count: usize)
    requires lawful { IsDataPage b.old }
    requires ends { EndsAt (with_cell (cell_of b.old) slot (option_copied new_cell)) count }
    requires room { space_of (with_cell (cell_of b.old) slot (option_copied new_cell)) count
        ≤ length b.old }
    ensures sets { SetsCell b.old b.new slot (option_copied new_cell.entry) }
    ensures count { slot_count b.new ≡ count }
{
    if b.len() <= USUAL_SIZE {
        rewrite_over::<USUAL_SIZE>(b, slot, new_cell, count);
    } else {
        rewrite_over::<GREATEST_SIZE>(b, slot, new_cell, count);
    }
}

/// The same of a page of at most `ROOM` bytes, over a copy that takes so many.
///
/// The copy is made zero first, which costs as much as it is long: so it is no longer than pages of the
/// usual size want, and stands in no frame but its own.
#[inline(never)]
fn rewrite_over<const ROOM: usize>(b: &mut [u8], slot: usize, new_cell: Option<&[u8]>, count: usize)
    requires fits { length b.old ≤ ROOM }
    requires most { ROOM ≤ GREATEST_SIZE }
    requires lawful { IsDataPage b.old }
    requires ends { EndsAt (with_cell (cell_of b.old) slot (option_copied new_cell)) count }
    requires room { space_of (with_cell (cell_of b.old) slot (option_copied new_cell)) count
        ≤ length b.old }
    ensures sets { SetsCell b.old b.new slot (option_copied new_cell.entry) }
    ensures count { slot_count b.new ≡ count }
{
    let mut copy = [0u8; ROOM];
    let size = b.len();
    copy[..size].copy_from_slice(b);
    rewrite_from(b, &copy[..size], slot, new_cell, count);
}

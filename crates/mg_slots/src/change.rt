//! The changes of a data page.

ghost use Rattle.std.specs.Prelude.{◌≡◌, ◌+◌, ◌<◌, ◌≤◌, ◌^◌, ◌↔◌, IfOk, IfErr, IsOk, IsSome, OnErr, OnOk, length, is_some, None, Some};
ghost use Rattle.mg_slots.specs.Changes.{FreesCell, PutsCell};
ghost use Rattle.mg_slots.specs.DataPage.{IsDataPage, cell_of, slot_count};
ghost use Rattle.mg_slots.specs.Room.{least_free as least_free_of, need_of, room_for, room_of, used_end};
ghost use Rattle.mg_slots.specs.Layout.{with_cell};

use crate::layout::rewrite;
use crate::page::{offset, slots};
use crate::space::{least_free, rest, room, taken, taken_at};

/// A cell needs more bytes of a page than it may take there.
#[derive(Clone, Copy, Debug, PartialEq, Eq)]
pub struct NoRoom {
    /// The bytes that the cell needs: its length, and at least 11.
    pub need: u32,
    /// The bytes that it may take.
    pub room: u32,
}

/// Puts a cell into the least free slot, and answers that slot.
///
/// # Errors
///
/// `NoRoom`, exactly where the cell needs more than `room`. The page is unchanged.
pub fn put_cell(b: &mut [u8], cell: &[u8]) -> Result<u16, NoRoom>
    requires lawful { IsDataPage b.old }
    requires length { length cell.now < 2 ^ 31 }
    ensures when { IsOk result ↔ (need_of cell.now ≤ room_of b.old) }
    ensures slot { IfOk result (λ slot. slot ≡ least_free_of b.old) }
    ensures put { OnOk result (PutsCell b.old b.new (least_free_of b.old) cell.now) }

    // NoRoom tells both numbers.
    ensures no_room { IfErr result (λ e.
        e ≡ record { need = need_of cell.now; room = room_of b.old }) }
    ensures unchanged { OnErr result (b.new ≡ b.old) }
    ensures lawful { IsDataPage b.new }
{
    check_room(cell, room(b))?;
    let slot = least_free(b);
    put(b, slot, cell);
    Ok(slot as u16)
}

/// Puts a cell into a slot that is in use or is the least free one.
///
/// The bytes of a slot's old cell count as room, and a slot in use needs no new slot.
///
/// # Errors
///
/// `NoRoom`, exactly where the cell needs more than it may take. The page is unchanged.
pub fn replace(b: &mut [u8], slot: u16, cell: &[u8]) -> Result<(), NoRoom>
    requires lawful { IsDataPage b.old }
    requires length { length cell.now < 2 ^ 31 }
    requires slot { cell_of b.old slot ≡ None → slot ≡ least_free_of b.old }
    ensures when { IsOk result ↔ (need_of cell.now ≤ room_for b.old slot) }
    ensures put { OnOk result (PutsCell b.old b.new slot cell.now) }

    // NoRoom tells both numbers.
    ensures no_room { IfErr result (λ e.
        e ≡ record { need = need_of cell.now; room = room_for b.old slot }) }
    ensures unchanged { OnErr result (b.new ≡ b.old) }
    ensures lawful { IsDataPage b.new }
{
    check_room(cell, room_in(b, slot as usize))?;
    put(b, slot as usize, cell);
    Ok(())
}

/// Frees a slot. Free slots at the end are dropped from the count. Where the slot is free already,
/// or past the last one, nothing changes.
pub fn free(b: &mut [u8], slot: u16)
    requires { IsDataPage b.old }
    ensures used { IsSome (cell_of b.old slot) → FreesCell b.old b.new slot }
    ensures free_already { cell_of b.old slot ≡ None → b.new ≡ b.old }
    ensures lawful { IsDataPage b.new }
{
    let slot = slot as usize;
    if is_used(b, slot) {
        let count = count_without(b, slot);
        rewrite(b, slot, None, count);
    }
}

/// Refuses a cell that needs more than `room` bytes.
fn check_room(cell: &[u8], room: u32) -> Result<(), NoRoom>
    requires { length cell.now < 2 ^ 31 }
    ensures when { IsOk result ↔ (need_of cell.now ≤ room) }
    ensures no_room { IfErr result (λ e. e ≡ record { need = need_of cell.now; room = room }) }
{
    let need = taken(cell.len()) as u32;
    if need > room {
        Err(NoRoom { need, room })
    } else {
        Ok(())
    }
}

/// Tells whether a slot has a cell.
#[tactic(auto, unfolding(crate::specs::DataPage::cell_of))]
fn is_used(b: &[u8], slot: usize) -> bool
    requires { IsDataPage b.now }
    ensures { result ≡ is_some (cell_of b.now slot) }
{
    slot < slots(b) as usize && offset(b, slot) != 0
}

/// Tells whether a slot other than this one has a cell.
fn is_used_besides(b: &[u8], at: usize, slot: usize) -> bool
    requires { IsDataPage b.now }
    ensures { result ≡ is_some (with_cell (cell_of b.now) slot None at) }
{
    at != slot && is_used(b, at)
}

/// How many bytes a cell may take in this slot.
fn room_in(b: &[u8], slot: usize) -> u32
    requires { IsDataPage b.now }
    ensures { result ≡ room_for b.now slot }
{
    if is_used(b, slot) {
        (rest(b) + taken_at(b, slot)) as u32
    } else {
        room(b)
    }
}

/// Puts a cell that has room into a slot that is in use or is the least free one.
fn put(b: &mut [u8], slot: usize, cell: &[u8])
    requires lawful { IsDataPage b.old }
    requires slot { cell_of b.old slot ≡ None → slot ≡ least_free_of b.old }
    requires room { need_of cell.now ≤ room_for b.old slot }
    ensures { PutsCell b.old b.new slot cell.now }
{
    let count = (slots(b) as usize).max(slot + 1);
    rewrite(b, slot, Some(cell), count);
}

/// How many slots are left when one is freed: those up to the last other one that has a cell.
fn count_without(b: &[u8], slot: usize) -> usize
    requires { IsDataPage b.now }
    ensures { result ≡ used_end (with_cell (cell_of b.now) slot None) (slot_count b.now) }
{
    let mut count = slots(b) as usize;
    while count > 0 && !is_used_besides(b, count - 1, slot) {
        count -= 1;
    }
    count
}

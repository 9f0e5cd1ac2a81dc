//! How much of a data page is in use, and how much room it has.

ghost use Rattle.std.specs.Prelude.{◌≡◌, ◌<◌};
ghost use Rattle.mg_slots.specs.DataPage.{IsDataPage, all_taken as all_taken_of, cell_of, slot_count, taken as taken_of, taken_by};
ghost use Rattle.mg_slots.specs.Room.{least_free as least_free_of, rest_of, room_of};

use crate::page::{LEAST_TAKEN, SLOT_LEN, SLOTS_AT, cell_len, offset, slots};

/// How many bytes a new cell may take: those that belong neither to a slot nor to a cell, less the
/// length of a slot where no slot is free. A new cell needs the greater of its length and 11.
pub fn room(b: &[u8]) -> u32
    requires { IsDataPage b.now }
    ensures { result ≡ room_of b.now }
{
    let rest = rest(b);
    if least_free(b) < slots(b) as usize {
        rest as u32
    } else {
        rest.saturating_sub(SLOT_LEN) as u32
    }
}

/// How many bytes belong neither to a slot nor to a cell.
pub(crate) fn rest(b: &[u8]) -> usize
    requires { IsDataPage b.now }
    ensures { result ≡ rest_of b.now }
{
    b.len() - (SLOTS_AT + SLOT_LEN * slots(b) as usize + all_taken(b))
}

/// How many bytes a cell of this length takes.
pub(crate) fn taken(len: usize) -> usize
    ensures { result ≡ taken_of len }
{
    len.max(LEAST_TAKEN)
}

/// How many bytes the cells take.
pub(crate) fn all_taken(b: &[u8]) -> usize
    requires { IsDataPage b.now }
    ensures { result ≡ all_taken_of b.now }
{
    let mut sum = 0;
    for slot in 0..slots(b) as usize {
        sum += taken_at(b, slot);
    }
    sum
}

/// How many bytes the cell of a slot takes, 0 for a free slot.
#[tactic(auto, unfolding(crate::specs::DataPage::cell_of))]
pub(crate) fn taken_at(b: &[u8], slot: usize) -> usize
    requires lawful { IsDataPage b.now }
    requires below { slot < slot_count b.now }
    ensures { result ≡ taken_by (cell_of b.now slot) }
{
    if offset(b, slot) == 0 {
        0
    } else {
        taken(cell_len(b, slot))
    }
}

/// The least free slot: the one past the last where there is no other.
pub(crate) fn least_free(b: &[u8]) -> usize
    requires { IsDataPage b.now }
    ensures { result ≡ least_free_of b.now }
{
    let count = slots(b) as usize;
    for slot in 0..count {
        if offset(b, slot) == 0 {
            return slot;
        }
    }
    count
}

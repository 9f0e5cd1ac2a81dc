//! The test of a data page: the first field that differs is named, with the nearest lawful value.

ghost use Rattle.std.specs.Prelude.{◌≡◌, ℕ, ◌+◌, ◌*◌, ◌<◌, ◌≤◌, ◌^◌, ◌↔◌, ◌==◌, IfErr, IsOk, IsTrue, OnOk, Ok, length, min, not, if◌then◌else◌};
ghost use Rattle.mg_slots.specs.Damage.{HasFront, IsFirstDamage, IsNearest, IsSlotDamage, is_free as is_free_of, lawful_count as lawful_count_of};
ghost use Rattle.mg_slots.specs.DataPage.{HasPlace, IsApart, IsDataPage, IsSlot, MayHaveLength, least_offset as least_offset_of, length_at, offset_at, slot_count};
ghost use Rattle.mg_slots.specs.Room.{last_end};
ghost use Rattle.mg_slots.specs.SlotField.{MayHave};
ghost use Rattle.mg_slots.specs.Verdict.{common_verdict, damage as damage_of};

use crate::page::{
    COUNT_AT, DATA_KIND, GREATEST_SIZE, LEAST_SIZE, LEAST_TAKEN, LOW_AT, SLOT_LEN, SLOTS_AT,
    cell_len, offset,
};
use crate::space::taken;
use crate::verdict::same;
use mg_base::{Damaged, Field, PageNo, check_common, get_u16};

/// Tests whether `b` is a data page with this number, owner and sequence.
///
/// `page` is the number that the page was read under. What cells say is not tested here.
///
/// # Errors
///
/// `Damaged` at the first field that differs, in page order: the common part; then `Count`, wanted
/// the most slots that fit, or those up to the last one that isn't free; then `Offset` of the
/// lowest byte that a cell uses; then of each slot `Offset` of its offset and of its length, wanted
/// the nearest value that the fields before it allow, the lower one of two.
pub fn check_data(b: &[u8], page: PageNo, owner: u32, seq: u32) -> Result<(), Damaged>
    requires least { LEAST_SIZE ≤ length b.now }
    requires greatest { length b.now ≤ GREATEST_SIZE }
    ensures when { IsOk result
        ↔ ((common_verdict b.now page DATA_KIND owner seq ≡ Ok tt) × IsDataPage b.now) }
    ensures damaged { IfErr result (λ e. IsFirstDamage b.now page owner seq e) }
{
    check_front(b, page, owner, seq)?;
    let count = get_u16(b, COUNT_AT) as usize;
    for slot in 0..count {
        check_slot(b, page, slot)?;
    }
    Ok(())
}

/// Tests the fields before the slots.
fn check_front(b: &[u8], page: PageNo, owner: u32, seq: u32) -> Result<(), Damaged>
    requires { LEAST_SIZE ≤ length b.now }
    ensures as_wanted { OnOk result (HasFront b.now page owner seq) }
    ensures damaged { IfErr result (λ e. IsFirstDamage b.now page owner seq e) }
{
    check_common(b, page, DATA_KIND, owner, seq)?;
    let count = lawful_count(b);
    same(
        page,
        Field::Count,
        u64::from(get_u16(b, COUNT_AT)),
        count as u64,
    )?;
    let low = least_offset(b, count);
    same(
        page,
        Field::Offset,
        u64::from(get_u16(b, LOW_AT)),
        low as u64,
    )
}

/// The nearest lawful number of slots: the most that fit, or those up to the last one in use.
#[tactic(auto, unfolding(crate::specs::Damage::lawful_count))]
fn lawful_count(b: &[u8]) -> usize
    requires { LEAST_SIZE ≤ length b.now }
    ensures { result ≡ lawful_count_of b.now }
{
    let count = get_u16(b, COUNT_AT) as usize;
    let most = (b.len() - SLOTS_AT) / SLOT_LEN;
    if most < count {
        most
    } else {
        slots_in_use(b, count)
    }
}

/// The slots up to the last one that isn't free, of the first `count`.
fn slots_in_use(b: &[u8], count: usize) -> usize
    requires { SLOTS_AT + SLOT_LEN * count ≤ length b.now }
    ensures { result ≡ last_end (λ slot. not (is_free_of b.now slot)) count }
{
    let mut end = count;
    while end > 0 && is_free(b, end - 1) {
        end -= 1;
    }
    end
}

/// Tells whether both fields of a slot are 0.
fn is_free(b: &[u8], slot: usize) -> bool
    requires { SLOTS_AT + SLOT_LEN * (slot + 1) ≤ length b.now }
    ensures { result ≡ is_free_of b.now slot }
{
    offset(b, slot) == 0 && cell_len(b, slot) == 0
}

/// The least offset among the first `count` slots, the page's length where none has one.
fn least_offset(b: &[u8], count: usize) -> usize
    requires { SLOTS_AT + SLOT_LEN * count ≤ length b.now }
    ensures { result ≡ least_offset_of b.now count }
{
    let mut least = b.len();
    for slot in 0..count {
        least = lower(offset(b, slot), least);
    }
    least
}

/// The lower one of an offset, if the slot has one, and another number.
fn lower(offset: usize, least: usize) -> usize
    ensures { result ≡ (if offset == 0 then least else min offset least) }
{
    if offset == 0 {
        least
    } else {
        offset.min(least)
    }
}

/// Tests the fields of a slot, its offset before its length.
fn check_slot(b: &[u8], page: PageNo, slot: usize) -> Result<(), Damaged>
    requires { SLOTS_AT + SLOT_LEN * (slot + 1) ≤ length b.now }
    ensures lawful { OnOk result (IsSlot b.now slot) }
    ensures damaged { IfErr result (λ e. IsSlotDamage b.now page slot e) }
{
    let at = offset(b, slot);
    if !may_have(b, slot, SlotField::AtOffset, at) {
        let wanted = nearest(b, slot, SlotField::AtOffset, at);
        return Err(damage(page, at, wanted));
    }
    let len = cell_len(b, slot);
    if !may_have(b, slot, SlotField::AtLength, len) {
        let wanted = nearest(b, slot, SlotField::AtLength, len);
        return Err(damage(page, len, wanted));
    }
    Ok(())
}

/// Names an offset or a length.
fn damage(page: PageNo, found: usize, wanted: usize) -> Damaged
    ensures { result ≡ damage_of page Field.Offset found wanted }
{
    Damaged {
        page,
        field: Field::Offset,
        found: found as u64,
        wanted: wanted as u64,
    }
}

/// A field of a slot.
#[derive(Clone, Copy)]
enum SlotField {
    AtOffset,
    AtLength,
}

/// The nearest lawful value of a field of a slot, the lower one of two.
fn nearest(b: &[u8], slot: usize, field: SlotField, found: usize) -> usize
    requires slot { SLOTS_AT + SLOT_LEN * (slot + 1) ≤ length b.now }
    requires zero { MayHave b.now slot field 0 }
    requires found { found < 65536 }
    ensures { IsNearest (MayHave b.now slot field) found result }
{
    for far in 0..found {
        if may_have(b, slot, field, found - far) {
            return found - far;
        }
        if may_have(b, slot, field, found + far) {
            return found + far;
        }
    }
    0
}

/// Tells whether a field of a slot may have this value, by the fields before it.
fn may_have(b: &[u8], slot: usize, field: SlotField, value: usize) -> bool
    requires slot { SLOTS_AT + SLOT_LEN * (slot + 1) ≤ length b.now }
    requires value { value < 2 ^ 32 }
    ensures { IsTrue result ↔ MayHave b.now slot field value }
{
    match field {
        SlotField::AtOffset => value == 0 || has_place(b, slot, value, LEAST_TAKEN),
        SlotField::AtLength => may_have_length(b, slot, value),
    }
}

/// Tells whether there is a place for a cell of this length at the slot's offset. A free slot has
/// the length 0.
fn may_have_length(b: &[u8], slot: usize, len: usize) -> bool
    requires slot { SLOTS_AT + SLOT_LEN * (slot + 1) ≤ length b.now }
    requires len { len < 2 ^ 32 }
    ensures { IsTrue result ↔ MayHaveLength b.now slot len }
{
    let at = offset(b, slot);
    if at == 0 {
        len == 0
    } else {
        has_place(b, slot, at, taken(len))
    }
}

/// Tells whether bytes lie between the slots and the page's end, and meet no cell of an earlier
/// slot.
fn has_place(b: &[u8], slot: usize, at: usize, size: usize) -> bool
    requires slot { SLOTS_AT + SLOT_LEN * (slot + 1) ≤ length b.now }
    requires at { at < 2 ^ 32 }
    requires size { size < 2 ^ 32 }
    ensures { IsTrue result ↔ HasPlace b.now slot at size }
{
    let count = get_u16(b, COUNT_AT) as usize;
    SLOTS_AT + SLOT_LEN * count <= at
        && at + size <= b.len()
        && is_apart_from_earlier(b, slot, at, size)
}

/// Tells whether bytes meet no cell of an earlier slot.
fn is_apart_from_earlier(b: &[u8], slot: usize, at: usize, size: usize) -> bool
    requires slot { SLOTS_AT + SLOT_LEN * (slot + 1) ≤ length b.now }
    requires at { at < 2 ^ 32 }
    requires size { size < 2 ^ 32 }
    ensures { IsTrue result
        ↔ ((earlier : ℕ) → earlier < slot → IsApart b.now earlier at size) }
{
    for earlier in 0..slot {
        if !is_apart(b, earlier, at, size) {
            return false;
        }
    }
    true
}

/// Tells whether bytes meet no cell of this slot.
fn is_apart(b: &[u8], slot: usize, at: usize, size: usize) -> bool
    requires slot { SLOTS_AT + SLOT_LEN * (slot + 1) ≤ length b.now }
    requires at { at < 2 ^ 32 }
    requires size { size < 2 ^ 32 }
    ensures { IsTrue result ↔ IsApart b.now slot at size }
{
    let start = offset(b, slot);
    let end = start + taken(cell_len(b, slot));
    start == 0 || end <= at || at + size <= start
}

//! The test of a data page, by one look at each slot where its cells lie one below the other.

ghost use Rattle.std.specs.Prelude.{◌≡◌, ◌+◌, ◌*◌, ◌<◌, ◌≤◌, ◌↔◌, Ok, IfErr, IfSome, IsOk, OnOk, length};
ghost use Rattle.std.specs.Bool.{OnTrue};
ghost use Rattle.mg_slots.specs.Damage.{IsFirstDamage};
ghost use Rattle.mg_slots.specs.DataPage.{IsDataPage};
ghost use Rattle.mg_slots.specs.Verdict.{common_verdict};
ghost use Rattle.mg_space.specs.Stacked.{EndsInUse, IsStacked, StacksCell};

use mg_base::{Damaged, PageNo, check_common, get_u16};
use mg_slots::{
    COUNT_AT, DATA_KIND, GREATEST_SIZE, LEAST_SIZE, LEAST_TAKEN, LOW_AT, SLOT_LEN, SLOTS_AT,
    check_data,
};

/// Tests the data page of an owner at a place, as `check_data` does.
///
/// The cells of a page that was changed lie one below the other in the order of their slots. Then
/// one look at each slot shows that no two meet, where `check_data` compares each with each.
///
/// # Errors
///
/// As `check_data`.
pub fn check_page(b: &[u8], page: PageNo, owner: u32, seq: u32) -> Result<(), Damaged>
    requires least { LEAST_SIZE ≤ length b.now }
    requires greatest { length b.now ≤ GREATEST_SIZE }
    ensures when { IsOk result
        ↔ ((common_verdict b.now page DATA_KIND owner seq ≡ Ok tt) × IsDataPage b.now) }
    ensures damaged { IfErr result (λ e. IsFirstDamage b.now page owner seq e) }
{
    if has_common(b, page, owner, seq) && is_stacked(b) {
        return Ok(());
    }
    check_data(b, page, owner, seq)
}

/// Tells whether a page has the common part of a data page of an owner at a place.
fn has_common(b: &[u8], page: PageNo, owner: u32, seq: u32) -> bool
    requires { LEAST_SIZE ≤ length b.now }
    ensures { OnTrue result (common_verdict b.now page DATA_KIND owner seq ≡ Ok tt) }
{
    check_common(b, page, DATA_KIND, owner, seq).is_ok()
}

/// Tells whether the slots fit a page, the last one is in use, and the cells lie one below the
/// other down to the lowest byte that is named.
fn is_stacked(b: &[u8]) -> bool
    requires least { LEAST_SIZE ≤ length b.now }
    requires greatest { length b.now ≤ GREATEST_SIZE }
    ensures { OnTrue result (IsDataPage b.now) }
{
    let count = get_u16(b, COUNT_AT) as usize;
    if count > (b.len() - SLOTS_AT) / SLOT_LEN {
        return false;
    }
    if !ends_in_use(b, count) {
        return false;
    }
    let Some(low) = lowest(b, count) else {
        return false;
    };
    SLOTS_AT + SLOT_LEN * count <= low && low == get_u16(b, LOW_AT) as usize
}

/// Tells whether the last of `count` slots is in use, if there is one.
fn ends_in_use(b: &[u8], count: usize) -> bool
    requires { SLOTS_AT + SLOT_LEN * count ≤ length b.now }
    ensures { OnTrue result (EndsInUse b.now count) }
{
    count == 0 || get_u16(b, SLOTS_AT + SLOT_LEN * (count - 1)) > 0
}

/// Where the lowest cell of the first `count` slots begins, if their cells lie one below the other.
fn lowest(b: &[u8], count: usize) -> Option<usize>
    requires { SLOTS_AT + SLOT_LEN * count ≤ length b.now }
    ensures { IfSome result (IsStacked b.now count) }
{
    let mut low = b.len();
    for slot in 0..count {
        let Some(next) = below(b, slot, low) else {
            return None;
        };
        low = next;
    }
    Some(low)
}

/// Where the cell of a slot begins, if it lies below `low`; for a free slot `low`.
fn below(b: &[u8], slot: usize, low: usize) -> Option<usize>
    requires slot { SLOTS_AT + SLOT_LEN * (slot + 1) ≤ length b.now }
    requires low { low ≤ length b.now }
    ensures { IfSome result (StacksCell b.now slot low) }
{
    let at = get_u16(b, SLOTS_AT + SLOT_LEN * slot) as usize;
    let len = get_u16(b, SLOTS_AT + SLOT_LEN * slot + 2) as usize;
    if at == 0 && len == 0 {
        return Some(low);
    }
    if at > 0 && at + len.max(LEAST_TAKEN) <= low {
        return Some(at);
    }
    None
}

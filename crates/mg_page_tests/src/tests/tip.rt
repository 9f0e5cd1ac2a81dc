//! Transaction inventory pages, state by state.

use super::broken::{Kind, number_of};
use super::bytes::{has_bytes, used_from};
use super::cases::{Case, hold_each};
use super::steps::{Step, go_each};
use mg_base::{PageNo, TxState};
use mg_tip::{check_tip, new_tip, prev_of, set_state, state_at};
use std::alloc::Global;
use std::test::*;

/// How many states a page of 1024 bytes has.
const PLACES: u32 = 4016;

/// The first page, on which no transaction has ended.
pub fn new_page() -> [u8; 1024] {
    let mut page = [0u8; 1024];
    new_tip(&mut page, number_of(Kind::Transactions), 0, PageNo(0));
    page
}

/// Sets the state at a place, and tells whether it is so then.
fn put(page: &mut [u8; 1024], place: u32, state: TxState) -> bool {
    if place >= PLACES {
        return false;
    }
    set_state(page, place, state);
    state_at(page, place) == state
}

/// A state that is set at a place, and the byte that then stands at a place of the page.
struct Puts(u32, TxState, usize, u8);

impl Step<[u8; 1024]> for Puts {
    fn goes(&self, on: &mut [u8; 1024]) -> bool {
        put(on, self.0, self.1) && has_bytes(on, self.2, &[self.3])
    }
}

/// A commit sets its two bits and no other.
const STEPS: &[Puts] = &[
    Puts(0, TxState::Committed, 20, 0x03),
    Puts(1, TxState::Committed, 20, 0x0f),
    Puts(2, TxState::Dead, 20, 0x2f),
    Puts(3, TxState::Limbo, 20, 0x6f),
    Puts(1, TxState::Active, 20, 0x63),
    Puts(4, TxState::Committed, 21, 0x03),
    Puts(4015, TxState::Committed, 1023, 0xc0),
];

/// The place of a new page in the chain, and the page before it.
struct New(u32, u32);

/// Tells whether a page passes, names the page before it, and has all its transactions active.
fn is_new(page: &[u8; 1024], new: &New) -> bool {
    check_tip(page, PageNo(2), new.0).is_ok()
        && prev_of(page) == PageNo(new.1)
        && state_at(page, 4015) == TxState::Active
}

impl Case for New {
    fn holds(&self, _alloc: Global) -> Result<bool, Fail> {
        let mut page = [0xffu8; 1024];
        new_tip(&mut page, PageNo(2), self.0, PageNo(self.1));
        Ok(is_new(&page, self))
    }
}

/// A new page passes, and names the page before it.
const NEW: &[New] = &[New(0, 0), New(1, 2), New(65_535, 131_071)];

#[test]
fn a_commit_sets_its_two_bits_alone_and_a_new_page_passes(rt: HostRuntime) -> Result<(), Fail> {
    let mut page = new_page();
    go_each(&rt, &mut page, STEPS);
    assert!(rt; used_from(&page, 20) == 3);
    hold_each(&rt, rt.alloc(), NEW)
}

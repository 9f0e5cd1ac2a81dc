//! Two batches on a small database, laid over it in every set of their pages.

use super::cases::{Case, hold_each};
use super::cells::{K, KV, Laid, V};
use super::pages::{DONE, LIVE};
use super::sheets::{Change, Sheet, image_of};
use super::soundness::breaks;
use mg_reading::Rule;
use std::alloc::Global;
use std::test::Fail;

// A database whose table KV has the data pages 6 and 7. Transaction 1 wrote a row: its slot is on
// page 6, its version on page 7.
const OLD: &[Sheet] = &[
    Sheet::Header(2, 1, 1, 3),
    Sheet::Inventory(8),
    Sheet::Transactions([DONE, LIVE, LIVE]),
    Sheet::Pointers(&[4]),
    Sheet::Catalog(&[K, V, KV]),
    Sheet::Pointers(&[6, 7]),
    Sheet::Data(5, 0, 7, &[Laid::Anchor(0, 1)]),
    Sheet::Data(5, 1, 7, &[Laid::First(1, 1, 10)]),
    Sheet::Zero,
];

// Which page of a batch goes before which other one.
type Orders = &'static [(u32, u32)];

// Tells whether a page is in a set.
fn is_in(set: &[Change], page: u32) -> bool {
    for change in set {
        if change.0 == page {
            return true;
        }
    }
    false
}

// Tells whether these orders allow a set.
fn is_allowed(orders: &[(u32, u32)], set: &[Change]) -> bool {
    for (first, later) in orders {
        if is_in(set, *later) && !is_in(set, *first) {
            return false;
        }
    }
    true
}

// The orders of a batch, a set of its pages, whether the orders allow it, and where that is told the
// rule that the database with this set breaks first: every set that is allowed is sound.
struct Overlay(Orders, &'static [Change], bool, Option<Rule>);

// Tells whether that database breaks the rule that is told.
fn is_judged(alloc: Global, overlay: &Overlay) -> Result<bool, Fail> {
    if !overlay.2 && overlay.3.is_none() {
        return Ok(true);
    }
    let image = image_of(alloc, OLD, overlay.1)?;
    Ok(breaks(alloc, &image, overlay.3))
}

impl Case for Overlay {
    fn holds(&self, alloc: Global) -> Result<bool, Fail> {
        Ok(is_allowed(self.0, self.1) == self.2 && is_judged(alloc, self)?)
    }
}

// Transaction 2 is drawn and writes a version over that one: the header goes before the page of the
// version, and that before the page of the slot.
const PUSH: Orders = &[(0, 7), (7, 6)];

const HEADER: Change = (0, Sheet::Header(3, 1, 1, 3));

const SLOT: Change = (6, Sheet::Data(5, 0, 7, &[Laid::Anchor(1, 2)]));

const VERSION: Change = (
    7,
    Sheet::Data(
        5,
        1,
        7,
        &[Laid::First(1, 1, 10), Laid::Over(2, (0, 1), 1, 20)],
    ),
);

// KV gets a data page: the bit of the page inventory and the new page go before the entry in the
// pointer page.
const GROWTH: Orders = &[(1, 5), (8, 5)];

const BIT: Change = (1, Sheet::Inventory(9));

const ENTRY: Change = (5, Sheet::Pointers(&[6, 7, 8]));

const PAGE: Change = (8, Sheet::Data(5, 2, 7, &[]));

const OVERLAYS: &[Overlay] = &[
    // The slot without the version; the version and the slot, whose transaction was not drawn.
    Overlay(PUSH, &[], true, None),
    Overlay(PUSH, &[HEADER], true, None),
    Overlay(PUSH, &[SLOT], false, Some(Rule::Links)),
    Overlay(PUSH, &[HEADER, SLOT], false, Some(Rule::Links)),
    Overlay(PUSH, &[VERSION], false, None),
    Overlay(PUSH, &[HEADER, VERSION], true, None),
    Overlay(PUSH, &[SLOT, VERSION], false, Some(Rule::Drawn)),
    Overlay(PUSH, &[HEADER, SLOT, VERSION], true, None),

    // The entry without the page, without the bit, and without both.
    Overlay(GROWTH, &[], true, None),
    Overlay(GROWTH, &[BIT], true, None),
    Overlay(GROWTH, &[ENTRY], false, Some(Rule::Pages)),
    Overlay(GROWTH, &[BIT, ENTRY], false, Some(Rule::Pages)),
    Overlay(GROWTH, &[PAGE], true, None),
    Overlay(GROWTH, &[BIT, PAGE], true, None),
    Overlay(GROWTH, &[ENTRY, PAGE], false, Some(Rule::Pages)),
    Overlay(GROWTH, &[BIT, ENTRY, PAGE], true, None),
];

#[test]
fn a_push_and_growth_keep_every_overlay(rt: HostRuntime) -> Result<(), Fail> {
    hold_each(&rt, rt.alloc(), OVERLAYS)
}

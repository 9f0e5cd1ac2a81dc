//! The test of numbers that are not drawn.

ghost use Rattle.std.specs.Prelude.{◌≡◌, ◌↔◌, ◌≤◌, ◌<◌, ◌^◌, length};
ghost use Rattle.mg_findings.specs.Findings.{IsFirst, Tells};
ghost use Rattle.mg_findings.specs.declared.finding.Finding.{Finding as AFinding};
ghost use Rattle.mg_tip.specs.TipPage.{places as places_of};
ghost use Rattle.mg_check_pages.specs.PageTests.{lawful_bits as lawful_number, undrawn_test};

use mg_base::{Damaged, Field, PageNo, TxState, check_field};
use mg_tip::{STATES_AT, bits_of, state_at};

/// The lawful bits of a number that is not drawn which are nearest to those of a state.
fn lawful_bits(state: TxState) -> u32
    ensures { result ≡ lawful_number state }
{
    match state {
        TxState::Active => 0,
        TxState::Limbo => 0,
        TxState::Dead => 2,
        TxState::Committed => 2,
    }
}

/// Tests the number at a place of a transaction inventory page: it lies before the first that is
/// not drawn, or has not become anything.
fn check_place(b: &[u8], page: PageNo, from: u32, place: u32) -> Result<(), Damaged>
    requires { place < places_of (length b.now) }
    ensures { result ≡ undrawn_test b.now page from place }
{
    if place < from {
        return Ok(());
    }
    let state = state_at(b, place);
    check_field(
        page,
        Field::State,
        u32::from(bits_of(state)),
        lawful_bits(state),
    )
}

/// Tests the numbers on a transaction inventory page that are not drawn: those from a place on.
///
/// `page` is the number that the page was read under.
///
/// # Errors
///
/// `Damaged` at `Field::State` for the first of them that has the bits of a transaction in limbo or
/// of a committed one. Wanted are the nearest lawful bits, those of an active or of a dead one.
pub fn check_undrawn(b: &[u8], page: PageNo, from: u32) -> Result<(), Damaged>
    requires least { STATES_AT ≤ length b.now }
    requires most { length b.now < 2 ^ 29 }
    ensures { (f : AFinding) → Tells result f
        ↔ IsFirst (undrawn_test b.now page from) (places_of (length b.now)) f }
{
    for place in 0..4 * (b.len() - STATES_AT) as u32 {
        check_place(b, page, from, place)?;
    }
    Ok(())
}

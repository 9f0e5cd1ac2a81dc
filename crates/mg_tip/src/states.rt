//! The states on a transaction inventory page, two bits each.

ghost use Rattle.std.specs.Prelude.{◌≡◌, ◌≢◌, ◌<◌, ℕ, length};
ghost use Rattle.mg_tip.specs.TipPage.{SetsState, places, state_in, two_bits as bits_at};
ghost use Rattle.mg_tip.specs.TipPage.{bits_of as bits, state_of as state};

use crate::STATES_AT;
use mg_base::TxState;

/// The two bits of a state (Firebird ODS, transaction inventory page).
pub fn bits_of(s: TxState) -> u8
    ensures { result ≡ bits s }
{
    match s {
        TxState::Active => 0,
        TxState::Limbo => 1,
        TxState::Dead => 2,
        TxState::Committed => 3,
    }
}

/// The state of two bits.
fn state_of(bits: u8) -> TxState
    ensures { result ≡ state bits }
{
    match bits {
        0 => TxState::Active,
        1 => TxState::Limbo,
        2 => TxState::Dead,
        _ => TxState::Committed,
    }
}

/// The two bits at a place of a byte.
fn two_bits(byte: u8, place: u32) -> u8
    requires { place < 4 }
    ensures { result ≡ bits_at byte place }
{
    match place {
        0 => byte % 4,
        1 => byte / 4 % 4,
        2 => byte / 16 % 4,
        _ => byte / 64,
    }
}

/// A byte with the two bits at one of its places set.
fn with_bits(byte: u8, place: u32, bits: u8) -> u8
    requires place { place < 4 }
    requires bits { bits < 4 }
    ensures set { bits_at result place ≡ bits }
    ensures others { (other : ℕ) → other < 4 → other ≢ place
        → bits_at result other ≡ bits_at byte other }
{
    match place {
        0 => byte - byte % 4 + bits,
        1 => byte - byte / 4 % 4 * 4 + bits * 4,
        2 => byte - byte / 16 % 4 * 16 + bits * 16,
        _ => byte - byte / 64 * 64 + bits * 64,
    }
}

/// The state at a place of the page, counted from 0.
#[tactic(auto, unfolding(crate::specs::TipPage::state_in))]
pub fn state_at(b: &[u8], i: u32) -> TxState
    requires { i < places (length b.now) }
    ensures { result ≡ state_in b.now i }
{
    let byte = b[STATES_AT + i as usize / 4];
    state_of(two_bits(byte, i % 4))
}

/// Sets the state at a place of the page, counted from 0.
///
/// Careful write: a page with a transaction's state Limbo or Committed is written after the header
/// whose next transaction lies above that transaction. The caller adds this order to its batch.
pub fn set_state(b: &mut [u8], i: u32, s: TxState)
    requires { i < places (length b.old) }
    ensures { SetsState b.old b.new i s }
{
    let at = STATES_AT + i as usize / 4;
    b[at] = with_bits(b[at], i % 4, bits_of(s));
}

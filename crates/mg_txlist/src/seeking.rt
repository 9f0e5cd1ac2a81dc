//! Those in limbo are looked for, four numbers at a time.

ghost use Rattle.std.specs.Bool.{OnTrue};
ghost use Rattle.std.specs.Prelude.{◌≡◌, ◌≢◌, ◌<◌, ◌≤◌, ◌+◌, ℕ, length};
ghost use Rattle.mg_base.specs.declared.transaction.TxState.TheVariants.{Limbo as LimboState};
ghost use Rattle.mg_tip.specs.TipPage.{places, state_of, two_bits};
ghost use Rattle.mg_txlist.specs.Seeking.{AreFourSettled, AreSettled};
ghost use Rattle.mg_txlist.specs.TxList.{IsTxList, next_said, said};

use crate::TxList;
use mg_base::{TxNo, TxState};
use mg_space::places_of;
use mg_tip::{STATES_AT, bits_of};

impl TxList {
    /// The least number from `from` on, of those that were drawn before this run, that is in limbo;
    /// the first number of this run where there is none. Where one byte of an inventory page holds
    /// four numbers and shows none of them in limbo, they are passed at one look.
    pub fn next_limbo(&self, from: TxNo) -> TxNo
        requires list { IsTxList self.now }
        requires some { 1 ≤ from.0 }
        requires below { from.0 ≤ self.now.first }
        ensures before { (t : ℕ) → from.0 ≤ t → t < result.0 → said self.now t ≢ LimboState }
        ensures limbo { result.0 ≢ self.now.first → said self.now result.0 ≡ LimboState }
        ensures least { from.0 ≤ result.0 }
        ensures most { result.0 ≤ self.now.first }
    {
        let mut t = from.0;
        while t < self.first {
            if self.are_four_settled(t) {
                t += 4;
            } else if self.state(TxNo(t)) == TxState::Limbo {
                return TxNo(t);
            } else {
                t += 1;
            }
        }
        TxNo(self.first)
    }

    /// Tells whether the byte that holds the bits of a number holds those of the three behind it,
    /// too, and shows that none of the four is in limbo.
    fn are_four_settled(&self, t: u32) -> bool
        requires list { IsTxList self.now }
        requires below { t < next_said self.now }
        ensures { OnTrue result (AreFourSettled self.now t) }
    {
        let places = places_of(self.size);
        let page = &self.pages[(t / places) as usize];
        are_settled(page.bytes.as_slice(), t % places)
    }
}

/// Tells whether a place is the first of the four that one byte of an inventory page holds, and the
/// byte shows that none of the four is in limbo.
fn are_settled(b: &[u8], place: u32) -> bool
    requires { place < places (length b.now) }
    ensures { OnTrue result (AreSettled b.now place) }
{
    if place % 4 > 0 {
        return false;
    }
    shows_no_limbo(b[STATES_AT + place as usize / 4])
}

/// Tells whether none of the four states that a byte shows is limbo.
fn shows_no_limbo(byte: u8) -> bool
    ensures { OnTrue result ((k : ℕ) → k < 4 → state_of (two_bits byte k) ≢ LimboState) }
{
    let limbo = bits_of(TxState::Limbo);
    byte % 4 != limbo && byte / 4 % 4 != limbo && byte / 16 % 4 != limbo && byte / 64 % 4 != limbo
}

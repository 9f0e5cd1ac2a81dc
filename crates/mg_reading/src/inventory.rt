//! What an image says of its transactions, and of which pages are used.

ghost use Rattle.std.specs.Prelude.{◌≡◌, ◌<◌, ◌+◌, ◌^◌};
ghost use Rattle.mg_base.specs.declared.geometry.TheConstants.{GREATEST_LIMIT};
ghost use Rattle.mg_tip.specs.TipPage.{places as places_of};
ghost use Rattle.mg_reading.specs.ImageView.{pages_in};
ghost use Rattle.mg_image.specs.Inventory.{bits_state as bits_state_of, is_used as used_in, last_sequence as last_sequence_of, next_of, oldest_active_of, oldest_of, settled as settled_state, state_at, tip_page as tip_page_of};

use crate::image::Image;
use mg_base::{TxState, get_u32};
use mg_header::{LAST_TIP_AT, NEXT_AT, OAT_AT, OIT_AT};

/// How many transactions a transaction inventory page of this size has a place for.
fn places(size: u32) -> u32
    requires least { 20 < size }
    requires most { size < 2 ^ 29 }
    ensures { result ≡ places_of size }
{
    4 * (size - 20)
}

/// What bits mean on an image, on which nobody works: active counts as dead.
fn settled(bits: TxState) -> TxState
    ensures { result ≡ settled_state bits }
{
    match bits {
        TxState::Active => TxState::Dead,
        TxState::Limbo => TxState::Limbo,
        TxState::Dead => TxState::Dead,
        TxState::Committed => TxState::Committed,
    }
}

impl Image {
    /// The number of the next transaction.
    pub fn next(&self) -> u32
        ensures { result ≡ next_of (pages_in self.now) }
    {
        get_u32(self.page(0), NEXT_AT)
    }

    /// The oldest interesting transaction.
    pub fn oldest(&self) -> u32
        ensures { result ≡ oldest_of (pages_in self.now) }
    {
        get_u32(self.page(0), OIT_AT)
    }

    /// The oldest active transaction.
    pub fn oldest_active(&self) -> u32
        ensures { result ≡ oldest_active_of (pages_in self.now) }
    {
        get_u32(self.page(0), OAT_AT)
    }

    /// Whether a page is marked as used.
    #[tactic(auto, unfolding(mg_image::specs::Inventory::is_used))]
    pub fn is_used(&self, n: u32) -> bool
        requires { n < GREATEST_LIMIT }
        ensures { result ≡ used_in self.now.size (pages_in self.now) n }
    {
        let bits = 8 * (self.size() - 16);
        let region = n / bits;
        mg_pip::is_used(self.page(region * bits + 1), n % bits)
    }

    /// The sequence of the last transaction inventory page.
    pub fn last_sequence(&self) -> u32
        ensures last { result ≡ last_sequence_of self.now.size (pages_in self.now) }
        ensures small { result + 1 < 2 ^ 32 }
    {
        self.next().saturating_sub(1) / places(self.size())
    }

    /// The transaction inventory page of a sequence.
    pub fn tip_page(&self, sequence: u32) -> u32
        ensures { result ≡ tip_page_of self.now.size (pages_in self.now) sequence }
    {
        let mut page = get_u32(self.page(0), LAST_TIP_AT);
        let back = self.last_sequence().saturating_sub(sequence);
        for _ in 0..back {
            page = mg_tip::prev_of(self.page(page)).0;
        }
        page
    }

    /// What the bits of a transaction say.
    fn bits_state(&self, t: u32) -> TxState
        ensures { result ≡ bits_state_of self.now.size (pages_in self.now) t }
    {
        let places = places(self.size());
        mg_tip::state_at(self.page(self.tip_page(t / places)), t % places)
    }

    /// What has become of a transaction.
    #[tactic(auto, unfolding(mg_image::specs::Inventory::state_at))]
    pub fn state(&self, t: u32) -> TxState
        ensures { result ≡ state_at self.now.size (pages_in self.now) t }
    {
        if t == 0 {
            TxState::Committed
        } else if t < self.next() {
            settled(self.bits_state(t))
        } else {
            TxState::Dead
        }
    }
}

//! The rules of a sound image that speak of the header, of transactions and of used pages.

ghost use Rattle.std.specs.Prelude.{◌≡◌, ◌↔◌, ◌<◌, ◌≤◌, ◌^◌, true, List, IsTrue, length, replicate};
ghost use Rattle.mg_base.specs.Checks.{Check, verdict};
ghost use Rattle.mg_base.specs.declared.geometry.TheConstants.{GREATEST_LIMIT};
ghost use Rattle.mg_base.specs.declared.transaction.TxState.TheVariants.{Limbo};
ghost use Rattle.mg_pip.specs.PipPage.{pip_checks};
ghost use Rattle.mg_pointer.specs.PointerPage.{IsPointerPage};
ghost use Rattle.mg_tip.specs.TipPage.{tip_checks};
ghost use Rattle.mg_reading.specs.ImageView.{pages_in};
ghost use Rattle.mg_reading.specs.Readable.{HasSlots};
ghost use Rattle.mg_image.specs.Inventory.{is_used as used_in, state_at};
ghost use Rattle.mg_image.specs.Reached.{IsAsWanted};
ghost use Rattle.mg_image.specs.Sound.{HasHeader, HasInventory, HasNoOldLimbo, HasNoneUndrawn, HasRegion, HasTips, HasTransactions, IsTablePointer, IsUndrawn};

use crate::image::Image;
use mg_base::{Damaged, GREATEST_LIMIT, PageNo, SEQUENCE_AT, TxState, check_common, get_u32};
use mg_slots::{DATA_KIND, check_data};

impl Image {
    /// Whether the header's fields are lawful.
    pub fn has_header(&self) -> bool
        ensures { IsTrue result ↔ HasHeader self.now.size (pages_in self.now) }
    {
        mg_header::open_header(self.page(0), self.size()).is_ok() && self.is_used(0)
    }

    /// Whether a page is part of the image and marked as used.
    pub fn is_taken(&self, n: u32) -> bool
        ensures below { IsTrue result → n < GREATEST_LIMIT }
        ensures used { IsTrue result → used_in self.now.size (pages_in self.now) n ≡ true }
        ensures taken { n < GREATEST_LIMIT → used_in self.now.size (pages_in self.now) n ≡ true
            → IsTrue result }
    {
        n < GREATEST_LIMIT && self.is_used(n)
    }

    /// Whether a page is as wanted, where this is what a test of it answered.
    pub(crate) fn is_as_wanted(&self, n: u32, test: Result<(), Damaged>) -> bool
        ensures { (checks : List Check) → test ≡ verdict (record { 0 = n }) checks
            → (IsTrue result ↔ IsAsWanted self.now.size (pages_in self.now) n checks) }
    {
        self.is_taken(n) && test.is_ok()
    }

    /// Whether a page is as wanted for the transaction inventory page of a sequence.
    pub fn is_tip(&self, n: u32, sequence: u32) -> bool
        ensures { IsTrue result ↔ IsAsWanted self.now.size (pages_in self.now) n
            (tip_checks (pages_in self.now n) n sequence) }
    {
        self.is_as_wanted(n, mg_tip::check_tip(self.page(n), PageNo(n), sequence))
    }

    /// Whether a page is as wanted for a pointer page of an owner, at the place of its chain that
    /// it names itself.
    fn is_pointer_there(&self, n: u32, owner: u32, at: u32) -> bool
        ensures wanted { IsTrue result
            ↔ IsTablePointer self.now.size (pages_in self.now) owner at n }
        ensures lawful { IsTrue result → IsPointerPage (pages_in self.now n) }
    {
        self.is_as_wanted(
            n,
            mg_pointer::check_pointer(self.page(n), PageNo(n), owner, at),
        )
    }

    /// Whether a page is as wanted for a pointer page of an owner, at a place of its chain.
    pub fn is_pointer(&self, n: u32, owner: u32, at: usize) -> bool
        ensures wanted { IsTrue result
            ↔ IsTablePointer self.now.size (pages_in self.now) owner at n }
        ensures lawful { IsTrue result → IsPointerPage (pages_in self.now n) }
        ensures small { IsTrue result → at < 2 ^ 32 }
    {
        let place = get_u32(self.page(n), SEQUENCE_AT);
        if place as usize != at {
            return false;
        }
        self.is_pointer_there(n, owner, place)
    }

    /// Whether the common part of a page is as wanted for a data page of an owner, at the place of
    /// the entries that it names itself, and its slots are lawful.
    fn is_data_there(&self, n: u32, owner: u32, at: u32) -> bool
        ensures { IsTrue result
            ↔ HasSlots self.now.size (pages_in self.now) owner at n }
    {
        let page = self.page(n);
        let common = check_common(page, PageNo(n), DATA_KIND, owner, at);
        self.is_as_wanted(n, common) && check_data(page, PageNo(n), owner, at).is_ok()
    }

    /// Whether the common part of a page is as wanted for a data page of an owner, at a place of
    /// the entries, and its slots are lawful.
    pub(crate) fn is_data(&self, n: u32, owner: u32, at: usize) -> bool
        ensures { IsTrue result
            ↔ HasSlots self.now.size (pages_in self.now) owner at n }
    {
        let place = get_u32(self.page(n), SEQUENCE_AT);
        if place as usize != at {
            return false;
        }
        self.is_data_there(n, owner, place)
    }

    /// Whether a page is as wanted for the page inventory page of a region.
    fn is_inventory(&self, n: u32, region: u32) -> bool
        ensures { IsTrue result ↔ IsAsWanted self.now.size (pages_in self.now) n
            (pip_checks (pages_in self.now n) n region) }
    {
        self.is_as_wanted(n, mg_pip::check_pip(self.page(n), PageNo(n), region))
    }

    /// Whether there is a transaction inventory page of each sequence up to the last one.
    pub fn has_tips(&self) -> bool
        ensures { IsTrue result ↔ HasTips self.now.size (pages_in self.now) }
    {
        for sequence in 0..self.last_sequence() + 1 {
            if !self.is_tip(self.tip_page(sequence), sequence) {
                return false;
            }
        }
        true
    }

    /// Whether on the last transaction inventory page no transaction from Next on has become
    /// anything.
    fn has_none_undrawn(&self) -> bool
        ensures { IsTrue result ↔ HasNoneUndrawn self.now.size (pages_in self.now) }
    {
        let places = 4 * (self.size() - 20);
        let last = self.last_sequence();
        let page = self.page(self.tip_page(last));
        for place in 0..places {
            let t = u64::from(last) * u64::from(places) + u64::from(place);
            if t >= u64::from(self.next()) && !is_undrawn(mg_tip::state_at(page, place)) {
                return false;
            }
        }
        true
    }

    /// Whether each drawn transaction has its bits, and no other has become anything.
    pub fn has_transactions(&self) -> bool
        ensures { IsTrue result ↔ HasTransactions self.now.size (pages_in self.now) }
    {
        self.has_tips() && self.has_none_undrawn()
    }

    /// Whether no transaction below the oldest active one is in limbo.
    pub fn has_no_old_limbo(&self) -> bool
        ensures { IsTrue result ↔ HasNoOldLimbo (state_at self.now.size (pages_in self.now))
            (pages_in self.now) }
    {
        for t in 0..self.oldest_active() {
            if is_limbo(self.state(t)) {
                return false;
            }
        }
        true
    }

    /// Whether the page inventory page of a region is blank, or as wanted.
    fn has_region(&self, n: u32, region: u32) -> bool
        ensures { IsTrue result ↔ HasRegion self.now.size (pages_in self.now) n region }
    {
        is_zero(self.page(n)) || self.is_inventory(n, region)
    }

    /// Whether each page inventory page of the image is blank, or as wanted.
    pub fn has_inventory(&self) -> bool
        ensures { IsTrue result ↔ HasInventory self.now.size (pages_in self.now) }
    {
        let bits = 8 * (self.size() - 16);
        for region in 0..(GREATEST_LIMIT - 2) / bits + 1 {
            if !self.has_region(region * bits + 1, region) {
                return false;
            }
        }
        true
    }
}

/// Whether a state is limbo.
fn is_limbo(state: TxState) -> bool
    ensures { IsTrue result ↔ (state ≡ Limbo) }
{
    match state {
        TxState::Limbo => true,
        TxState::Active => false,
        TxState::Dead => false,
        TxState::Committed => false,
    }
}

/// Whether bits are those of a transaction that was not drawn yet.
fn is_undrawn(bits: TxState) -> bool
    ensures { IsTrue result ↔ IsUndrawn bits }
{
    match bits {
        TxState::Active => true,
        TxState::Dead => true,
        TxState::Limbo => false,
        TxState::Committed => false,
    }
}

/// Whether every byte is 0.
fn is_zero(page: &[u8]) -> bool
    ensures { IsTrue result ↔ (page.now ≡ replicate (length page.now) 0) }
{
    page.iter().all(|byte| *byte == 0)
}

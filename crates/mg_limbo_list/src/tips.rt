//! What has become of the transactions of an image.

ghost use Rattle.std.specs.Prelude.{◌≡◌, ◌≤◌, ◌<◌, ◌+◌, IfOk, length, true};
ghost use Rattle.mg_base.specs.Fields.{u32_at};
ghost use Rattle.mg_base.specs.Geometry.{is_page_size};
ghost use Rattle.mg_base.specs.Image.{page_at};
ghost use Rattle.mg_check_inventory.specs.ImagePages.{IsWholeImage};
ghost use Rattle.mg_image.specs.Inventory.{settled as settled_state, state_at as state_in_image};
ghost use Rattle.mg_tip.specs.TipPage.{places as places_in, state_in};
ghost use Rattle.mg_limbo_list.specs.Limbo.{IsTips};

use mg_base::{Bytes, Memory, TxState, get_u32};
use mg_check_inventory::page_of;
use mg_header::{LAST_TIP_AT, NEXT_AT};
use mg_tip::{PREV_AT, STATES_AT, state_at};
use std::alloc::Global;

/// The transaction inventory pages of an image, by which what has become of a transaction is looked up at once.
#[derive(Drop)]
pub struct Tips {
    /// The page size, in bytes.
    pub size: u32,
    /// The number of the next transaction.
    pub next: u32,
    /// The numbers of the pages, that of the last sequence first.
    pub pages: Vec<u32>,
}

/// How many transactions a transaction inventory page of this size has a place for.
fn places_of(size: u32) -> u32
    requires { is_page_size size ≡ true }
    ensures places { result ≡ places_in size }
    ensures some { 0 < result }
{
    4 * (size - STATES_AT as u32)
}

/// A number on one of the first bytes of a page, 0 where the page is absent.
fn number_on(size: u32, pages: &[Bytes], n: u32, at: usize) -> u32
    requires image { IsWholeImage size pages.now }
    requires within { at ≤ 1000 }
    ensures { result ≡ u32_at (page_at size pages.now n) at }
{
    match page_of(pages, n) {
        None => 0,
        Some(page) => get_u32(page, at),
    }
}

/// The state at a place of a page, that of an active transaction where the page is absent.
fn state_on(size: u32, pages: &[Bytes], n: u32, place: u32) -> TxState
    requires image { IsWholeImage size pages.now }
    requires within { place < places_in size }
    ensures { result ≡ state_in (page_at size pages.now n) place }
{
    match page_of(pages, n) {
        None => TxState::Active,
        Some(page) => state_at(page, place),
    }
}

/// What the bits of a transaction mean in an image, on which nobody works: active counts as dead.
fn settled(state: TxState) -> TxState
    ensures { result ≡ settled_state state }
{
    match state {
        TxState::Active => TxState::Dead,
        TxState::Limbo => TxState::Limbo,
        TxState::Dead => TxState::Dead,
        TxState::Committed => TxState::Committed,
    }
}

impl Tips {
    /// The transaction inventory pages of an image, of which these are the pages: from the one that the header
    /// names back, one for each sequence up to that of the last transaction drawn. Nothing is tested, and an
    /// absent page reads as zeros.
    ///
    /// `size` is the page size in bytes.
    ///
    /// # Errors
    ///
    /// `Memory` only.
    pub fn new(alloc: Global, size: u32, pages: &[Bytes]) -> Result<Tips, Memory>
        requires { IsWholeImage size pages.now }
        ensures { IfOk result (IsTips size pages.now) }
    {
        let next = number_on(size, pages, 0, NEXT_AT);
        let mut numbers = Vec::new(alloc);
        let mut n = number_on(size, pages, 0, LAST_TIP_AT);
        for _back in 0..next.saturating_sub(1) / places_of(size) + 1 {
            numbers.push(n)?;
            n = number_on(size, pages, n, PREV_AT);
        }
        Ok(Tips {
            size,
            next,
            pages: numbers,
        })
    }

    /// What has become of a transaction of the image, of which these are the pages: of the system's, number 0, that
    /// it is committed; of one that was not drawn, that it is dead.
    pub fn state(&self, pages: &[Bytes], t: u32) -> TxState
        requires image { IsWholeImage self.now.size pages.now }
        requires tips { IsTips self.now.size pages.now self.now }
        ensures { result ≡ state_in_image self.now.size (page_at self.now.size pages.now) t }
    {
        if t == 0 {
            return TxState::Committed;
        }
        if t >= self.next {
            return TxState::Dead;
        }
        let places = places_of(self.size);
        let back = (self.next - 1) / places - t / places;
        let n = self.pages[back as usize];
        settled(state_on(self.size, pages, n, t % places))
    }
}

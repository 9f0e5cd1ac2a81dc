//! The figures of a file.

ghost use Rattle.std.specs.Prelude.{◌≡◌, ◌<◌, ◌≤◌, ◌+◌, ◌-◌, ◌/◌, length, true};
ghost use Rattle.mg_base.specs.Geometry.{is_page_size};
ghost use Rattle.mg_base.specs.Image.{page_at};
ghost use Rattle.mg_base.specs.declared.geometry.TheConstants.{GREATEST_LIMIT};
ghost use Rattle.mg_check_inventory.specs.ImagePages.{IsWholeImage, bit_number};
ghost use Rattle.mg_image.specs.Inventory.{is_used as used_in};
ghost use Rattle.mg_stat.specs.Figures.{AreFigures, used_below};
ghost use Rattle.mg_tip.specs.TipPage.{places as places_in};

use mg_base::{Bytes, GREATEST_LIMIT, get_u16, get_u32};
use mg_check_inventory::check_bit;
use mg_header::{INTERVAL_AT, MINOR_AT, NEXT_AT, OAT_AT, OIT_AT, OST_AT};

/// What is told of a file as a whole.
#[derive(Clone, Copy)]
pub struct Figures {
    /// The page size, in bytes.
    pub size: u32,
    /// The minor version of the format.
    pub minor: u16,
    /// The number that the next transaction draws.
    pub next: u32,
    /// The oldest interesting transaction.
    pub oit: u32,
    /// The oldest active transaction.
    pub oat: u32,
    /// The oldest snapshot transaction.
    pub ost: u32,
    /// How many transactions apart OIT and OST make a sweep due.
    pub interval: u32,
    pub is_due: bool,
    /// How many pages are marked as used.
    pub used: u32,
    /// How many transaction inventory pages there are.
    pub tips: u32,
}

/// Whether a page is marked as used, as a number.
fn used_bit(size: u32, pages: &[Bytes], n: u32) -> u32
    requires image { IsWholeImage size pages.now }
    requires below { n < GREATEST_LIMIT }
    ensures bit { result ≡ bit_number (used_in size (page_at size pages.now) n) }
    ensures most { result ≤ 1 }
{
    match check_bit(size, pages, n) {
        Ok(()) => 1,
        Err(_) => 0,
    }
}

/// How many pages are marked as used.
fn used_pages(size: u32, pages: &[Bytes]) -> u32
    requires { IsWholeImage size pages.now }
    ensures { result ≡ used_below size (page_at size pages.now) GREATEST_LIMIT }
{
    let mut used = 0;
    for n in 0..GREATEST_LIMIT {
        used += used_bit(size, pages, n);
    }
    used
}

/// The transaction inventory pages of a file whose next transaction has this number.
fn tips_of(size: u32, next: u32) -> u32
    requires { is_page_size size ≡ true }
    ensures { result ≡ (next - 1) / places_in size + 1 }
{
    next.saturating_sub(1) / (4 * (size - 20)) + 1
}

/// The figures of a file, of which these are the pages, as its header page and its page inventory
/// have them, lawful or not.
///
/// `size` is the page size in bytes. There is a header page.
pub fn figures_of(size: u32, pages: &[Bytes]) -> Figures
    requires image { IsWholeImage size pages.now }
    requires some { 0 < length pages.now }
    ensures { AreFigures size (page_at size pages.now) result }
{
    let used = used_pages(size, pages);
    let header = pages[0].as_slice();
    let next = get_u32(header, NEXT_AT);
    let oit = get_u32(header, OIT_AT);
    let ost = get_u32(header, OST_AT);
    let interval = get_u32(header, INTERVAL_AT);
    Figures {
        size,
        minor: get_u16(header, MINOR_AT),
        next,
        oit,
        oat: get_u32(header, OAT_AT),
        ost,
        interval,
        is_due: ost.saturating_sub(oit) > interval,
        used,
        tips: tips_of(size, next),
    }
}

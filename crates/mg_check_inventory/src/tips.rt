//! The chain of transaction inventory pages.

ghost use Rattle.std.specs.Prelude.{◌≡◌, ◌↔◌, ◌<◌, ◌*◌, ◌-◌, OnOk, length, true};
ghost use Rattle.mg_base.specs.Geometry.{is_page_size};
ghost use Rattle.mg_base.specs.Image.{page_at};
ghost use Rattle.mg_base.specs.declared.geometry.TheConstants.{GREATEST_LIMIT};
ghost use Rattle.mg_findings.specs.Findings.{Tells};
ghost use Rattle.mg_findings.specs.declared.finding.Finding.{Finding as AFinding};
ghost use Rattle.mg_tip.specs.TipPage.{places as places_in};
ghost use Rattle.mg_check_inventory.specs.ImagePages.{IsWholeImage};
ghost use Rattle.mg_check_inventory.specs.TransactionRung.{IsContentFinding, IsPageFinding, IsThereFinding, IsTipFinding, IsTipsFinding};

use crate::pages::{check_bit, check_link, check_presence, page_of};
use mg_base::{Bytes, Damaged, GREATEST_LIMIT, PageNo, get_u32};
use mg_check_pages::check_undrawn;
use mg_header::{LAST_TIP_AT, NEXT_AT};
use mg_tip::{check_tip, prev_of};

/// How many transactions a transaction inventory page of this size has a place for.
fn places_of(size: u32) -> u32
    requires { is_page_size size ≡ true }
    ensures places { result ≡ places_in size }
    ensures some { 0 < result }
{
    4 * (size - 20)
}

/// Tests a transaction inventory page whose fields are lawful: the numbers from a place on, which
/// are not drawn; then its bit.
fn check_content(size: u32, pages: &[Bytes], page: &[u8], n: u32, from: u32) -> Result<(), Damaged>
    requires image { IsWholeImage size pages.now }
    requires below { n < GREATEST_LIMIT }
    requires page { page.now ≡ page_at size pages.now n }
    ensures { (f : AFinding) → Tells result f
        ↔ IsContentFinding size (page_at size pages.now) n from f }
{
    check_undrawn(page, PageNo(n), from)?;
    check_bit(size, pages, n)
}

/// Tests a page as the transaction inventory page of a sequence.
fn check_page(
    size: u32,
    pages: &[Bytes],
    page: &[u8],
    n: u32,
    sequence: u32,
    from: u32,
) -> Result<(), Damaged>
    requires image { IsWholeImage size pages.now }
    requires below { n < GREATEST_LIMIT }
    requires page { page.now ≡ page_at size pages.now n }
    ensures { (f : AFinding) → Tells result f
        ↔ IsPageFinding size (page_at size pages.now) n sequence from f }
{
    check_tip(page, PageNo(n), sequence)?;
    check_content(size, pages, page, n, from)
}

/// The same, where it is to be seen whether the page is there.
fn check_there(size: u32, pages: &[Bytes], n: u32, sequence: u32, from: u32) -> Result<(), Damaged>
    requires image { IsWholeImage size pages.now }
    requires below { n < GREATEST_LIMIT }
    ensures found { (f : AFinding) → Tells result f
        ↔ IsThereFinding size (page_at size pages.now) (length pages.now) n sequence from f }
    ensures there { OnOk result (n < length pages.now) }
{
    match page_of(pages, n) {
        None => check_presence(pages.len(), n),
        Some(page) => check_page(size, pages, page, n, sequence, from),
    }
}

/// The same, where a page holds a link to it.
fn check_linked(
    size: u32,
    pages: &[Bytes],
    holder: u32,
    n: u32,
    sequence: u32,
    from: u32,
) -> Result<(), Damaged>
    requires image { IsWholeImage size pages.now }
    ensures found { (f : AFinding) → Tells result f ↔ IsTipFinding size (page_at size pages.now)
        (length pages.now) holder n sequence from f }
    ensures there { OnOk result (n < length pages.now) }
{
    check_link(holder, n)?;
    check_there(size, pages, n, sequence, from)
}

/// How many numbers on the transaction inventory page of a sequence are drawn, where each has so
/// many places; a greater number where all of them are.
fn drawn_on(next: u32, sequence: u32, places: u32) -> u32
    ensures { result ≡ next - sequence * places }
{
    next.saturating_sub(sequence.saturating_mul(places))
}

/// Tests the transaction inventory pages from the last one back, one for each sequence up to that of
/// the last transaction drawn. There may be no more of them than pages, since each has to have its
/// sequence.
///
/// `size` is the page size in bytes.
///
/// # Errors
///
/// `Damaged` at the first damage; nothing behind it is looked at. In the order of the tests: of a
/// link to a page, at its holder, `Field::Link` where it leads to the header page or past the
/// greatest limit; of the page `Field::Presence`, the fields of its common part, and its link where
/// its sequence is 0; `Field::State` for a number that is not drawn and has become something;
/// `Field::Bit`.
pub fn check_tips(size: u32, pages: &[Bytes]) -> Result<(), Damaged>
    requires image { IsWholeImage size pages.now }
    requires some { 0 < length pages.now }
    ensures { (f : AFinding) → Tells result f
        ↔ IsTipsFinding size (page_at size pages.now) (length pages.now) f }
{
    let header = pages[0].as_slice();
    let next = get_u32(header, NEXT_AT);
    let places = places_of(size);
    let mut left = next.saturating_sub(1) / places + 1;
    let mut holder = 0;
    let mut n = get_u32(header, LAST_TIP_AT);
    while left > 0 {
        left -= 1;
        check_linked(size, pages, holder, n, left, drawn_on(next, left, places))?;
        holder = n;
        n = prev_of(pages[n as usize].as_slice()).0;
    }
    Ok(())
}

//! One pointer page of a table.

ghost use Rattle.std.specs.Prelude.{◌≡◌, ◌↔◌, ◌<◌, OnOk, length};
ghost use Rattle.mg_base.specs.Checks.{verdict};
ghost use Rattle.mg_base.specs.Image.{page_at};
ghost use Rattle.mg_base.specs.declared.geometry.TheConstants.{GREATEST_LIMIT};
ghost use Rattle.mg_check_inventory.specs.ImagePages.{IsWholeImage, numbered};
ghost use Rattle.mg_check_tables.specs.TableRung.{IsPointerFinding, IsThereFinding, pointer_tests};
ghost use Rattle.mg_findings.specs.Findings.{Tells};
ghost use Rattle.mg_findings.specs.declared.finding.Finding.{Finding as AFinding};
ghost use Rattle.mg_image.specs.Sound.{IsTablePointer};

use mg_base::{Bytes, Damaged, PageNo};
use mg_check_inventory::{check_bit, check_link, check_presence, page_of};
use mg_pointer::check_pointer;

/// A pointer page as the page before it names it.
#[derive(Clone, Copy)]
pub(crate) struct PointerSeat {
    /// The page that holds the link to it.
    pub holder: u32,
    /// The page's own number.
    pub page: u32,
    /// The page's place in the chain, counted from 0.
    pub at: u32,
}

/// Tests a pointer page of a table with this first one: its fields, then its bit.
fn check_page(
    size: u32,
    pages: &[Bytes],
    page: &[u8],
    owner: u32,
    seat: PointerSeat,
) -> Result<(), Damaged>
    requires image { IsWholeImage size pages.now }
    requires below { seat.page < GREATEST_LIMIT }
    requires page { page.now ≡ page_at size pages.now seat.page }
    ensures { result ≡ verdict (numbered seat.page)
        (pointer_tests size (page_at size pages.now) seat.page owner seat.at) }
{
    check_pointer(page, PageNo(seat.page), owner, seat.at)?;
    check_bit(size, pages, seat.page)
}

/// The same, where it is to be seen whether the page is there.
fn check_there(size: u32, pages: &[Bytes], owner: u32, seat: PointerSeat) -> Result<(), Damaged>
    requires image { IsWholeImage size pages.now }
    requires below { seat.page < GREATEST_LIMIT }
    ensures found { (f : AFinding) → Tells result f
        ↔ IsThereFinding size (page_at size pages.now) (length pages.now) seat.page owner
        seat.at f }
    ensures there { OnOk result (seat.page < length pages.now) }
    ensures wanted { OnOk result
        (IsTablePointer size (page_at size pages.now) owner seat.at seat.page) }
{
    match page_of(pages, seat.page) {
        None => check_presence(pages.len(), seat.page),
        Some(page) => check_page(size, pages, page, owner, seat),
    }
}

/// Tests a pointer page of a table with this first one, and the link to it.
///
/// # Errors
///
/// `Damaged` at the first damage, in the order of the tests: of the link, at its holder,
/// `Field::Link` where it leads to the header page or past the greatest limit; of the page
/// `Field::Presence`, the fields of its common part, `Field::Count`, `Field::Zero`, `Field::Bit`.
pub(crate) fn check_seat(
    size: u32,
    pages: &[Bytes],
    owner: u32,
    seat: PointerSeat,
) -> Result<(), Damaged>
    requires { IsWholeImage size pages.now }
    ensures found { (f : AFinding) → Tells result f
        ↔ IsPointerFinding size (page_at size pages.now) (length pages.now) seat.holder seat.page
        owner seat.at f }
    ensures there { OnOk result (seat.page < length pages.now) }
    ensures wanted { OnOk result
        (IsTablePointer size (page_at size pages.now) owner seat.at seat.page) }
{
    check_link(seat.holder, seat.page)?;
    check_there(size, pages, owner, seat)
}

//! Which pages are data pages of a table.

ghost use Rattle.std.specs.Prelude.{◌≡◌, MatchOption, false};
ghost use Rattle.mg_base.specs.Fields.{u32_at};
ghost use Rattle.mg_base.specs.Image.{page_at};
ghost use Rattle.mg_base.specs.declared.fields.TheConstants.{SEQUENCE_AT as SEQUENCE_PLACE};
ghost use Rattle.mg_check_inventory.specs.ImagePages.{IsWholeImage};
ghost use Rattle.mg_check_records.specs.Marks.{IsPlaceOf};
ghost use Rattle.mg_image.specs.Sound.{IsTableData};
ghost use Rattle.mg_image.specs.Tables.{EachFrom, Has};

use mg_base::{Bytes, SEQUENCE_AT, get_u32};
use mg_check_inventory::page_of;

/// The sequence of a page, 0 where the page is absent.
fn sequence_of(size: u32, pages: &[Bytes], n: u32) -> u32
    requires { IsWholeImage size pages.now }
    ensures { result ≡ u32_at (page_at size pages.now n) SEQUENCE_PLACE }
{
    match page_of(pages, n) {
        None => 0,
        Some(page) => get_u32(page, SEQUENCE_AT),
    }
}

/// The place of a page among the data pages of a table, `None` exactly where it is none of them. Each
/// data page has its place as its sequence, so no other one is looked at.
pub(crate) fn place_of(
    size: u32,
    pages: &[Bytes],
    owner: u32,
    data_pages: &[u32],
    n: u32,
) -> Option<u32>
    requires image { IsWholeImage size pages.now }
    requires tested { EachFrom (IsTableData false size (page_at size pages.now) owner) 0
        data_pages.now }
    ensures { MatchOption result (Has data_pages.now n → ⊥) (IsPlaceOf data_pages.now n) }
{
    let at = sequence_of(size, pages, n);
    if at as usize >= data_pages.len() {
        return None;
    }
    if data_pages[at as usize] != n {
        return None;
    }
    Some(at)
}

//! The header page of an image.

ghost use Rattle.std.specs.Prelude.{◌≡◌, ◌<◌, OnOk, length};
ghost use Rattle.mg_base.specs.Image.{page_at};
ghost use Rattle.mg_check_inventory.specs.ImagePages.{IsWholeImage};
ghost use Rattle.mg_check_pages.specs.PageTests.{header_test};

use mg_base::{Bytes, Damaged, Field, PageNo};
use mg_check_inventory::page_of;
use mg_check_pages::check_header_page;
use mg_header::MAGIC;

/// Tests the header page of an image, of which these are the pages. An image without pages has one of zeros.
///
/// `size` is the page size in bytes.
///
/// # Errors
///
/// `Damaged` at the first field of page 0 that is not as wanted, those that tell a file of another kind first.
pub fn check_header(size: u32, pages: &[Bytes]) -> Result<(), Damaged>
    requires image { IsWholeImage size pages.now }
    ensures test { result ≡ header_test (page_at size pages.now 0) size }
    ensures there { OnOk result (0 < length pages.now) }
{
    match page_of(pages, 0) {
        None => Err(Damaged {
            page: PageNo(0),
            field: Field::Magic,
            found: 0,
            wanted: u64::from(MAGIC),
        }),
        Some(page) => check_header_page(page, size),
    }
}

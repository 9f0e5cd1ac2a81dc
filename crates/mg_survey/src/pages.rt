//! Whether a page is one on which a database may be made.

ghost use Rattle.std.specs.Prelude.{◌≡◌, ◌≤◌, ◌↔◌, IsTrue, length};
ghost use Rattle.mg_base.specs.Image.{blank};
ghost use Rattle.mg_image.specs.Form.{packed_coding};
ghost use Rattle.mg_image.specs.NewDatabase.{IsNewPage};
ghost use Rattle.mg_survey.specs.Survey.{IsUnmadeAt};

use mg_format::new_page;
use mg_rle::one_packed_text;
use mg_slots::GREATEST_SIZE;

/// Whether the page of a number is one on which a database may be made: zero, or, behind page 0, that of a
/// new database.
pub(crate) fn is_unmade_page(page: &[u8], n: u32) -> bool
    requires least { 1024 ≤ length page.now }
    requires most { length page.now ≤ 16384 }
    ensures { IsTrue result ↔ IsUnmadeAt (length page.now) n page.now }
{
    if is_zero(page) {
        return true;
    }
    if n == 0 {
        return false;
    }
    is_new_page(page, n)
}

/// Whether a page is that of a number in a new database.
fn is_new_page(page: &[u8], n: u32) -> bool
    requires least { 1024 ≤ length page.now }
    requires most { length page.now ≤ 16384 }
    ensures { IsTrue result ↔ IsNewPage packed_coding (length page.now) n page.now }
{
    if n > 6 {
        return is_zero(page);
    }
    one_packed_text();
    let mut room = [0u8; GREATEST_SIZE];
    let made = &mut room[..page.len()];
    new_page(made, n);
    is_same(page, made)
}

/// Whether every byte is 0.
fn is_zero(page: &[u8]) -> bool
    ensures { IsTrue result ↔ (page.now ≡ blank (length page.now)) }
{
    page.iter().all(|byte| *byte == 0)
}

/// Whether two pages have the same bytes.
fn is_same(a: &[u8], b: &[u8]) -> bool
    ensures { IsTrue result ↔ (a.now ≡ b.now) }
{
    a == b
}

//! The pages of a disk are tested one after another.

ghost use Rattle.std.specs.Prelude.{◌≡◌, ◌≢◌, ◌≤◌, ◌<◌, ◌↔◌, IfOk, IsTrue, Some, true};
ghost use Rattle.mg_base.specs.Disk.{ReadsPage};
ghost use Rattle.mg_base.specs.Geometry.{is_page_size};
ghost use Rattle.mg_base.specs.Image.{Image, blank, page_at};
ghost use Rattle.mg_image.specs.Form.{packed_form};
ghost use Rattle.mg_image.specs.Opening.{IsUnmade};
ghost use Rattle.mg_survey.specs.Survey.{AreUnmadeBehind, HasPages, IsUnmadeAt, OnlyAsks};

use crate::pages::is_unmade_page;
use mg_base::{Disk, DiskFault, GREATEST_LIMIT, PageNo};
use mg_slots::GREATEST_SIZE;

/// Whether a disk of so many pages of a size is one on which a database may be made. Where page 0 is not
/// zero, it alone is read.
///
/// # Errors
///
/// The disk's.
pub fn is_unmade<D: Disk>(disk: &mut D, size: u32, pages: u32) -> Result<bool, DiskFault>
    requires has { HasPages D.meaning disk.old size pages }
    requires size { is_page_size size ≡ true }

    ensures has { HasPages D.meaning disk.new size pages }
    ensures asks { OnlyAsks D.meaning disk.old disk.new result }
    ensures unmade { (image : Image) → D.meaning.held disk.old ≡ Some image → IfOk result
        (λ is. IsTrue is ↔ IsUnmade packed_form size (page_at size image)) }
    ensures alone { (image : Image) → D.meaning.held disk.old ≡ Some image
        → page_at size image 0 ≢ blank size → ReadsPage D.meaning disk.old disk.new 0 }
{
    if pages == 0 {
        return Ok(true);
    }
    if !is_unmade_at(disk, size, pages, 0)? {
        return Ok(false);
    }
    are_unmade(disk, size, pages)
}

/// Whether each page of a disk behind page 0 is one on which a database may be made.
fn are_unmade<D: Disk>(disk: &mut D, size: u32, pages: u32) -> Result<bool, DiskFault>
    requires has { HasPages D.meaning disk.old size pages }
    requires size { is_page_size size ≡ true }

    ensures has { HasPages D.meaning disk.new size pages }
    ensures asks { OnlyAsks D.meaning disk.old disk.new result }
    ensures unmade { (image : Image) → D.meaning.held disk.old ≡ Some image → IfOk result
        (λ is. IsTrue is ↔ AreUnmadeBehind size (page_at size image)) }
{
    for n in 1..pages.min(GREATEST_LIMIT) {
        if !is_unmade_at(disk, size, pages, n)? {
            return Ok(false);
        }
    }
    Ok(true)
}

/// Whether one page of a disk is one on which a database may be made.
fn is_unmade_at<D: Disk>(disk: &mut D, size: u32, pages: u32, n: u32) -> Result<bool, DiskFault>
    requires has { HasPages D.meaning disk.old size pages }
    requires size { is_page_size size ≡ true }
    requires below { n < pages }

    ensures has { HasPages D.meaning disk.new size pages }
    ensures asks { OnlyAsks D.meaning disk.old disk.new result }
    ensures unmade { (image : Image) → D.meaning.held disk.old ≡ Some image → IfOk result
        (λ is. IsTrue is ↔ IsUnmadeAt size n (page_at size image n)) }
    ensures alone { ReadsPage D.meaning disk.old disk.new n }
{
    let mut room = [0u8; GREATEST_SIZE];
    let page = &mut room[..size as usize];
    disk.read(PageNo(n), page)?;
    Ok(is_unmade_page(page, n))
}

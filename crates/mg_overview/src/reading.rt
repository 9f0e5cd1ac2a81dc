//! All pages of a disk are read.

ghost use Rattle.std.specs.Prelude.{◌≡◌, ◌≤◌, ◌<◌, IfOk, Some, length, nat_lt, take, unwrap_or};
ghost use Rattle.mg_base.specs.Asking.{AsksReads};
ghost use Rattle.mg_base.specs.Disk.{FailsNoWrite, ReadsPage};
ghost use Rattle.mg_base.specs.Image.{Image, page_at};
ghost use Rattle.mg_base.specs.declared.geometry.TheConstants.{GREATEST_LIMIT as MOST_PAGES};
ghost use Rattle.mg_pool.specs.Pool.{KeepsContent};
ghost use Rattle.mg_overview.specs.Reading.{AreLong, HasPages, IsRead, KeepsTold, TellsReadFault};

use mg_base::{Bytes, Disk, GREATEST_LIMIT, PageNo};
use std::alloc::Global;

/// The pages of a file.
#[derive(Drop)]
pub struct WholeImage {
    /// The size of each page, in bytes.
    pub size: u32,
    /// The pages by their numbers, without those from the greatest limit on.
    pub pages: Vec<Bytes>,
}

/// Why the pages of a disk were not read.
#[derive(Clone, Copy, Debug, PartialEq, Eq)]
pub enum ReadFault {
    /// A call of the disk failed.
    Disk,
    /// Memory was short.
    Memory,
}

/// Reads all pages of a disk, but those from the greatest limit on, which are no part of a database. The page
/// size and the number of pages are asked for once, and each page is read once.
///
/// # Errors
///
/// `Disk` exactly where the disk's count of faults rose; `Memory`. No page write is asked for, so none fails.
pub fn read_image<D: Disk>(alloc: Global, disk: &mut D) -> Result<WholeImage, ReadFault>
    ensures content { KeepsContent D.meaning disk.old disk.new }
    ensures reads { AsksReads D.meaning disk.old disk.new MOST_PAGES (λ n. nat_lt n MOST_PAGES) }
    ensures once { IfOk result (λ it. AsksReads D.meaning disk.old disk.new (length it.pages.items)
        (λ n. nat_lt n (length it.pages.items))) }
    ensures fault { TellsReadFault D.meaning disk.old disk.new result }
    ensures no_failed_write { FailsNoWrite D.meaning disk.old disk.new }
    ensures read { IfOk result (IsRead D.meaning disk.new) }
    ensures image { (image : Image) → D.meaning.held disk.old ≡ Some image
        → IfOk result (λ it. it.pages.items ≡ take MOST_PAGES image) }
{
    let size = match disk.page_size() {
        Ok(size) => size,
        Err(_) => return Err(ReadFault::Disk),
    };
    let count = match disk.pages() {
        Ok(count) => count,
        Err(_) => return Err(ReadFault::Disk),
    };
    let pages = match read_pages(alloc, disk, size, count.min(GREATEST_LIMIT)) {
        Ok(pages) => pages,
        Err(fault) => return Err(fault),
    };
    Ok(WholeImage { size, pages })
}

/// Reads so many pages of a disk, from the first one on.
///
/// # Errors
///
/// As `read_image`.
fn read_pages<D: Disk>(
    alloc: Global,
    disk: &mut D,
    size: u32,
    count: u32,
) -> Result<Vec<Bytes>, ReadFault>
    requires has { HasPages D.meaning disk.old size count }

    ensures told { KeepsTold D.meaning disk.old disk.new }
    ensures content { KeepsContent D.meaning disk.old disk.new }
    ensures reads { AsksReads D.meaning disk.old disk.new count (λ n. nat_lt n count) }
    ensures fault { TellsReadFault D.meaning disk.old disk.new result }
    ensures no_failed_write { FailsNoWrite D.meaning disk.old disk.new }
    ensures count { IfOk result (λ pages. length pages.items ≡ count) }
    ensures long { IfOk result (λ pages. AreLong size pages.items) }
    ensures image { (image : Image) → D.meaning.held disk.old ≡ Some image
        → IfOk result (λ pages. pages.items ≡ take count image) }
{
    let mut pages = Vec::new(alloc);
    for n in 0..count {
        let page = match read_page(alloc, disk, size, n) {
            Ok(page) => page,
            Err(fault) => return Err(fault),
        };
        match pages.push(page) {
            Ok(()) => {}
            Err(_) => return Err(ReadFault::Memory),
        }
    }
    Ok(pages)
}

/// Reads a page of a disk.
///
/// # Errors
///
/// As `read_image`.
fn read_page<D: Disk>(alloc: Global, disk: &mut D, size: u32, n: u32) -> Result<Bytes, ReadFault>
    requires sized { D.meaning.size disk.old ≡ Some size }
    requires below { n < unwrap_or (D.meaning.count disk.old) 0 }

    ensures told { KeepsTold D.meaning disk.old disk.new }
    ensures content { KeepsContent D.meaning disk.old disk.new }
    ensures reads { ReadsPage D.meaning disk.old disk.new n }
    ensures fault { TellsReadFault D.meaning disk.old disk.new result }
    ensures no_failed_write { FailsNoWrite D.meaning disk.old disk.new }
    ensures long { IfOk result (λ page. length page ≡ size) }
    ensures page { (image : Image) → D.meaning.held disk.old ≡ Some image
        → IfOk result (λ page. page ≡ page_at size image n) }
{
    let mut page = match Bytes::zeroed(alloc, size as usize) {
        Ok(room) => room.into_vec(),
        Err(_) => return Err(ReadFault::Memory),
    };
    match disk.read(PageNo(n), page.as_mut_slice()) {
        Ok(()) => Ok(Bytes::new(page)),
        Err(_) => Err(ReadFault::Disk),
    }
}

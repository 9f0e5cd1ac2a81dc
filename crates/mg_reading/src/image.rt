//! An image: its pages as they are read.

ghost use Rattle.std.specs.Prelude.{◌≡◌, ◌↔◌, ℕ, List, EachIndex, IsTrue, get_or, ◌≤◌, ◌*◌, ◌+◌, ◌<◌, ◌^◌, IfOk, IfNone, IfSome, IsSome, length};
ghost use Rattle.mg_reading.specs.Kept.{AreWhole, IsKept};

use mg_base::{Bytes, Memory, PageNo, is_page_size};
use std::alloc::Global;

/// The pages of a database file, all of one lawful size. A page past the end reads as zero.
#[derive(Drop)]
pub struct Image {
    size: u32,
    pages: Vec<Bytes>,
    blank: Bytes,
    ghost kept: { IsKept size pages.items blank },
}

/// Whether each of these pages has this size.
fn are_whole(pages: &[Bytes], size: u32) -> bool
    ensures { IsTrue result
        ↔ EachIndex pages.now (λ n. (past : List ℕ) → length (get_or pages.now n past) ≡ size) }
{
    pages.iter().all(|page| page.len() == size as usize)
}

impl Image {
    ghost use Rattle.mg_reading.specs.ImageView.{pages_in};

    /// The image of these pages: None exactly where the page size is none of the five, or a page
    /// has another size.
    ///
    /// # Errors
    ///
    /// `Memory` only.
    pub fn new(alloc: Global, size: u32, pages: Vec<Bytes>) -> Result<Option<Image>, Memory>
        ensures pages { IfOk result (λ made. IfSome made (λ image.
            (image.size ≡ size) × (image.pages.items ≡ pages.items))) }
        ensures some { IfOk result (λ made. IsSome made ↔ AreWhole size pages.items) }
    {
        if !is_page_size(size) || !are_whole(&pages, size) {
            return Ok(None);
        }
        let blank = Bytes::zeroed(alloc, size as usize)?;
        Ok(Some(Image { size, pages, blank }))
    }

    /// The page size.
    pub fn size(&self) -> u32
        ensures size { result ≡ self.now.size }
        ensures least { 1024 ≤ result }
        ensures most { result ≤ 16384 }
    {
        self.size
    }

    /// A page by its number.
    pub fn page(&self, n: u32) -> &[u8]
        ensures page { result.now ≡ pages_in self.now n }
        ensures len { length result.now ≡ self.now.size }
        ensures least { 1024 ≤ length result.now }
        ensures most { length result.now ≤ 16384 }
    {
        let n = n as usize;
        if n < self.pages.len() {
            self.pages[n].as_slice()
        } else {
            self.blank.as_slice()
        }
    }
}

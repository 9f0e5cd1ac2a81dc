//! All pages of a disk, as its caller reads them.

ghost use Rattle.std.specs.Prelude.{◌≡◌, ◌<◌, true, [], IfOk, length, replicate, slice_set};
ghost use Rattle.mg_base.specs.Image.{blank, page_at, written};
ghost use Rattle.mg_base.specs.Geometry.{is_page_size};
ghost use Rattle.mg_behind.specs.Kept.{IsMirror};

use mg_base::{Bytes, Memory};
use std::alloc::Global;

/// How many pages there is room for.
pub const MOST_PAGES: u32 = 16_384;

/// The pages, with room for 16,384 of them.
#[derive(Drop)]
pub struct Mirror {
    pub(crate) size: u32,
    pub(crate) pages: Vec<Bytes>,
    pub(crate) used: u32,
    pub ghost kept: { IsMirror size pages.items used },
}

// So many blank pages.
pub(crate) fn blank_pages(alloc: Global, size: u32, room: u32) -> Result<Vec<Bytes>, Memory>
    ensures { IfOk result (λ v. v.items ≡ replicate room (blank size)) }
{
    let mut pages = Vec::with_capacity(alloc, room as usize)?;
    for _ in 0..room {
        pages.push(Bytes::zeroed(alloc, size as usize)?)?;
    }
    Ok(pages)
}

// Puts a page in its place.
fn put_page(pages: &mut Vec<Bytes>, at: usize, bytes: &[u8])
    requires below { at < length pages.old.items }
    requires whole { length (page_at (length bytes.now) pages.old.items at) ≡ length bytes.now }
    ensures { pages.new.items ≡ slice_set pages.old.items at bytes.now }
{
    let page = &mut pages[at];
    page.overwrite(bytes);
}

impl Mirror {
    ghost use Rattle.std.specs.Prelude.{◌+◌, max};
    ghost use Rattle.mg_behind.specs.Mirror.{shown};

    /// A mirror of no page.
    ///
    /// # Errors
    ///
    /// `Memory` only.
    pub(crate) fn new(alloc: Global, size: u32) -> Result<Mirror, Memory>
        requires { is_page_size size ≡ true }
        ensures size { IfOk result (λ m. m.size ≡ size) }
        ensures none { IfOk result (λ m. (m.used ≡ 0) × (shown m ≡ [])) }
    {
        Ok(Mirror {
            size,
            pages: blank_pages(alloc, size, MOST_PAGES)?,
            used: 0,
        })
    }

    /// Reads a page.
    pub(crate) fn read(&self, page: u32, into: &mut [u8])
        requires below { page < self.now.used }
        requires whole { length into.old ≡ self.now.size }
        ensures { into.new ≡ page_at (length into.old) (shown self.now) page }
    {
        into.copy_from_slice(self.pages[page as usize].as_slice());
    }

    /// Writes a page.
    pub(crate) fn put(&mut self, page: u32, bytes: &[u8])
        requires room { page < 16384 }
        requires whole { length bytes.now ≡ self.old.size }
        ensures written { shown self.new ≡ written (length bytes.now) (shown self.old) page bytes.now }
        ensures size { self.new.size ≡ self.old.size }
        ensures used { self.new.used ≡ max self.old.used (page + 1) }
    {
        put_page(&mut self.pages, page as usize, bytes);
        self.used = self.used.max(page + 1);
    }
}

//! A dirty page.

ghost use Rattle.std.specs.Prelude.{◌≡◌, ◌<◌, length, replicate, false, slice_index_or};
ghost use Rattle.mg_pool.specs.Dirty.{with_mark};

use crate::tested::Tested;
use mg_base::Bytes;
use mg_careful::Links;
use std::marker::Model;

/// How many may mark dirty pages: `who` is below it.
pub const MARKERS: usize = 32;

/// A page whose content has changed since it was last written, with its marks.
#[derive(Drop)]
pub struct DirtyPage<L: Links> {
    page: u32,
    marks: [bool; MARKERS],
    bytes: Tested<L>,
}

impl<L: Links> Model for DirtyPage<L> {
    ghost use Rattle.mg_pool.specs.DirtyPage.{DirtyPage as Entry};

    ghost Value = { Entry };

    ghost view = { λ d. record { page = d.page; marks = d.marks; bytes = d.bytes } };
}

impl<L: Links> DirtyPage<L> {
    /// A dirty page without a mark. Its content is tested here.
    pub fn new(page: u32, bytes: Bytes) -> DirtyPage<L>
        ensures { result ≡ record { page = page; marks = replicate 32 false; bytes = bytes } }
    {
        DirtyPage {
            page,
            marks: [false; MARKERS],
            bytes: Tested::new(page, bytes),
        }
    }

    /// The number of the page.
    pub fn number(&self) -> u32
        ensures { result ≡ self.now.page }
    {
        self.page
    }

    /// Tells whether `who` has marked it.
    pub fn has_mark(&self, who: usize) -> bool
        requires { who < MARKERS }
        ensures { result ≡ slice_index_or self.now.marks who false }
    {
        self.marks[who]
    }

    /// Gives it the mark of `who`.
    pub fn mark(&mut self, who: usize)
        requires { who < MARKERS }
        ensures { self.new ≡ with_mark who self.old }
    {
        self.marks[who] = true;
    }

    /// Its content, with what is known of it.
    pub fn tested(&self) -> &Tested<L>
        ensures { result.now ≡ self.now.bytes }
    {
        &self.bytes
    }

    /// Puts another content of the same length in the place of its own, and tests it.
    pub fn overwrite(&mut self, bytes: &[u8])
        requires { length bytes.now ≡ length self.old.bytes }
        ensures { self.new ≡ record self.old { bytes = bytes.now } }
    {
        self.bytes.overwrite(bytes);
    }

    /// The buffer of its content.
    pub fn into_bytes(self) -> Bytes
        ensures { result ≡ self.bytes }
    {
        let DirtyPage { bytes, .. } = self;
        bytes.into_bytes()
    }
}

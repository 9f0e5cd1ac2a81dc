//! The content of a page that was tested once: the mark is tied to the bytes by the type.

ghost use Rattle.std.specs.Prelude.{◌≡◌, length, IfOk};
ghost use Rattle.std.specs.Bool.{OnTrue};

use mg_base::{Bytes, Memory};
use mg_careful::Links;
use std::alloc::Global;
use std::marker::{Model, PhantomData};

/// The content of a page, which was tested when it was put here. A contract sees the bytes alone.
#[derive(Drop)]
pub struct Tested<L: Links> {
    page: u32,
    is_lawful: bool,
    bytes: Bytes,
    links: PhantomData<L>,
}

impl<L: Links> Model for Tested<L> {
    ghost use Rattle.std.specs.Bool.{OnTrue};
    ghost use Rattle.std.specs.Prelude.{List, ℕ};

    ghost Value = { List ℕ };

    ghost view = { λ t. t.bytes };

    ghost invariant = { λ t. OnTrue t.is_lawful (L.lawful_of t.page t.bytes) };
}

impl<L: Links> Tested<L> {
    /// These bytes, tested as the page of this number. It takes no memory.
    pub fn new(page: u32, bytes: Bytes) -> Tested<L>
        ensures { result ≡ bytes }
    {
        let is_lawful = L::is_lawful(page, bytes.as_slice());
        Tested {
            page,
            is_lawful,
            bytes,
            links: PhantomData,
        }
    }

    /// The bytes.
    pub fn as_slice(&self) -> &[u8]
        ensures { result.now ≡ self.now }
    {
        self.bytes.as_slice()
    }

    /// Tells that the bytes are lawful as the page of this number, without a look at them. They may
    /// be lawful where it says no.
    pub fn passes(&self, page: u32) -> bool
        ensures { OnTrue result (L.lawful_of page self.now) }
    {
        self.is_lawful && self.page == page
    }

    /// Puts other bytes of the same number in the place of those that are there, and tests them. It
    /// takes no memory.
    pub fn overwrite(&mut self, other: &[u8])
        requires { length other.now ≡ length self.old }
        ensures { self.new ≡ other.now }
    {
        self.bytes.overwrite(other);
        self.is_lawful = L::is_lawful(self.page, self.bytes.as_slice());
    }

    /// A copy, with what is known of the bytes. They are not tested again.
    ///
    /// # Errors
    ///
    /// `Memory` only.
    pub fn copy(&self, alloc: Global) -> Result<Tested<L>, Memory>
        ensures { IfOk result (λ t. t ≡ self.now) }
    {
        let items = Vec::from_slice(alloc, self.bytes.as_slice())?;
        Ok(Tested {
            page: self.page,
            is_lawful: self.is_lawful,
            bytes: Bytes::new(items),
            links: PhantomData,
        })
    }

    /// The buffer of the bytes.
    pub fn into_bytes(self) -> Bytes
        ensures { result ≡ self }
    {
        let Tested { bytes, .. } = self;
        bytes
    }
}

//! A list of bytes that contracts see as a list.

ghost use Rattle.std.specs.Prelude.{◌≡◌, ◌==◌, IfOk, length, replicate};

use crate::Memory;
use std::alloc::Global;
use std::marker::Model;

/// A list of bytes: the content of a page, a cell or a row.
#[derive(Debug, Drop)]
pub struct Bytes {
    items: Vec<u8>,
}

impl Model for Bytes {
    ghost use Rattle.std.specs.Prelude.{List, ℕ};

    ghost Value = { List ℕ };

    ghost view = { λ b. b.items.items };
}

impl Bytes {
    /// The list of these bytes. It takes no memory.
    pub fn new(items: Vec<u8>) -> Bytes
        ensures { result ≡ items.items }
    {
        Bytes { items }
    }

    /// A list of `len` zero bytes.
    ///
    /// # Errors
    ///
    /// `Memory` only.
    pub fn zeroed(alloc: Global, len: usize) -> Result<Bytes, Memory>
        ensures { IfOk result (λ b. b ≡ replicate len 0) }
    {
        Ok(Bytes {
            items: vec![in alloc; 0u8; len]?,
        })
    }

    /// The bytes.
    pub fn as_slice(&self) -> &[u8]
        ensures { result.now ≡ self.now }
    {
        &self.items
    }

    /// How many bytes there are.
    pub fn len(&self) -> usize
        ensures { result ≡ length self.now }
    {
        self.items.len()
    }

    /// Tells whether there is no byte.
    pub fn is_empty(&self) -> bool
        ensures { result ≡ (length self.now == 0) }
    {
        self.items.is_empty()
    }

    /// An equal list.
    ///
    /// # Errors
    ///
    /// `Memory` only.
    pub fn copy(&self, alloc: Global) -> Result<Bytes, Memory>
        ensures { IfOk result (λ b. b ≡ self.now) }
    {
        Ok(Bytes {
            items: self.items.as_slice().to_vec(alloc)?,
        })
    }

    /// Puts other bytes of the same number in the place of those that are there, without memory.
    pub fn overwrite(&mut self, other: &[u8])
        requires { length other.now ≡ length self.old }
        ensures { self.new ≡ other.now }
    {
        self.items.copy_from_slice(other);
    }

    /// Gives the bytes back, without memory.
    pub fn into_vec(self) -> Vec<u8>
        ensures { result.items ≡ self }
    {
        self.items
    }
}

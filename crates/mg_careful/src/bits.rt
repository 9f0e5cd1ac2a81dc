//! A row of bits.

ghost use Rattle.std.specs.Prelude.{◌≡◌, ◌<◌, ℕ, false, ◌||◌, length, replicate, slice_index_or, slice_set, IfOk};
ghost use Rattle.std.specs.List.{list_any};
ghost use Rattle.mg_careful.specs.Rows.{is_blank as blank_test};

use mg_base::Memory;
use std::alloc::Global;
use std::marker::Model;

/// A row of bits, of a length that stays.
#[derive(Drop)]
pub struct Bits {
    items: Vec<bool>,
}

impl Model for Bits {
    ghost use Rattle.std.specs.Prelude.{List, Bool};

    ghost Value = { List Bool };

    ghost view = { λ b. b.items.items };
}

impl Bits {
    /// A row of `len` bits that are not set.
    pub fn blank(alloc: Global, len: usize) -> Result<Bits, Memory>
        ensures { IfOk result (λ b. b ≡ replicate len false) }
    {
        Ok(Bits {
            items: vec![in alloc; false; len]?,
        })
    }

    /// How many bits the row has.
    pub fn len(&self) -> usize
        ensures { result ≡ length self.now }
    {
        self.items.len()
    }

    /// The bit at a place, counted from 0.
    pub fn get(&self, i: usize) -> bool
        requires { i < length self.now }
        ensures { result ≡ slice_index_or self.now i false }
    {
        self.items[i]
    }

    /// Sets or unsets the bit at a place.
    pub fn put(&mut self, i: usize, bit: bool)
        requires { i < length self.old }
        ensures { self.new ≡ slice_set self.old i bit }
    {
        self.items[i] = bit;
    }

    /// Takes the bits of a row of the same length.
    pub fn overwrite(&mut self, other: &Bits)
        requires { length other.now ≡ length self.old }
        ensures { self.new ≡ other.now }
    {
        self.items.copy_from_slice(&other.items);
    }

    /// Unsets every bit.
    pub fn clear(&mut self)
        ensures { self.new ≡ replicate (length self.old) false }
    {
        self.items.fill(false);
    }

    /// Sets every bit that is set in a row of the same length.
    pub fn join(&mut self, other: &Bits)
        requires { length other.now ≡ length self.old }
        ensures len { length self.new ≡ length self.old }
        ensures bits { (i : ℕ) → slice_index_or self.new i false
            ≡ (slice_index_or self.old i false || slice_index_or other.now i false) }
    {
        for i in 0..self.items.len() {
            self.items[i] = self.items[i] | other.items[i];
        }
    }

    /// Tells whether no bit is set.
    pub fn is_blank(&self) -> bool
        ensures { result ≡ blank_test self.now }
    {
        !has_set(&self.items)
    }
}

/// Tells whether some bit is set.
fn has_set(bits: &[bool]) -> bool
    ensures { result ≡ list_any (λ b. b) bits.now }
{
    bits.iter().any(|b| *b)
}

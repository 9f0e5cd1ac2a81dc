//! A transaction that has not ended, and its base.

ghost use Rattle.std.specs.Prelude.{ℕ, ◌≡◌, ◌==◌, ◌<◌, ◌≤◌, ◌+◌, ◌++◌, ◌∷◌, [], length, take, vec_len, Some, None, OnOk};
ghost use Rattle.mg_snap.specs.Live.{base_sees, is_among as is_among_numbers, misses as misses_of, rebased, undecided, wants_older as wants_older_of};
ghost use Rattle.mg_snap.specs.Room.{IsWide, Roomy, entered_of, snapshot_of};

use mg_base::{Memory, TxNo};
use std::marker::Model;

/// What had been drawn and what had not ended when a base was taken. It has room for a later base,
/// which is then taken without memory.
#[derive(Debug, Drop)]
pub struct Base {
    drawn: u32,
    // how many numbers had not ended; the numbers behind them are room
    count: usize,
    numbers: Vec<u32>,
    ghost counted: { count ≤ vec_len numbers },
}

impl Model for Base {
    ghost use Rattle.std.specs.Prelude.{length, take};
    ghost use Rattle.mg_snap.specs.Room.{Roomy};

    ghost Value = { Roomy };

    ghost view = { λ base. record {
      snapshot = record { drawn = base.drawn; unended = take base.count base.numbers.items };
      room = length base.numbers.items;
    } };
}

/// Tells whether a number is among some.
pub fn is_among(numbers: &[u32], t: TxNo) -> bool
    ensures { result ≡ is_among_numbers numbers.now t.0 }
{
    numbers.iter().any(|number| *number == t.0)
}

/// Writes some numbers over the first ones.
fn put_front(numbers: &mut [u32], front: &[u32])
    requires { length front.now ≤ length numbers.old }
    ensures { take (length front.now) numbers.new ≡ front.now }
{
    numbers[..front.len()].copy_from_slice(front);
}

impl Base {
    /// The base at which the numbers below `drawn` were drawn, and these of them had not ended.
    pub fn new(drawn: u32, unended: Vec<u32>) -> Base
        ensures { result ≡ record {
          snapshot = record { drawn = drawn; unended = unended.items };
          room = length unended.items;
        } }
    {
        Base {
            drawn,
            count: unended.len(),
            numbers: unended,
        }
    }

    /// Tells whether the transaction had been drawn and had ended.
    pub fn sees(&self, by: TxNo) -> bool
        ensures { result ≡ base_sees (Some self.now.snapshot) by.0 }
    {
        by.0 < self.drawn && !is_among(&self.numbers[..self.count], by)
    }

    /// Makes room for one transaction more.
    ///
    /// # Errors
    ///
    /// `Memory` only. Then nothing has changed.
    pub fn widen(&mut self) -> Result<(), Memory>
        ensures same { self.new.snapshot ≡ self.old.snapshot }
        ensures wider { OnOk result (self.new.room ≡ self.old.room + 1) }
        ensures never_narrower { self.old.room ≤ self.new.room }
    {
        self.numbers.push(0)?;
        Ok(())
    }

    /// Takes the base anew, at which the numbers below `drawn` were drawn, and these of them had not
    /// ended. It takes no memory.
    pub fn retake(&mut self, drawn: u32, unended: &[u32])
        requires { length unended.now ≤ self.old.room }
        ensures { self.new ≡ record {
          snapshot = record { drawn = drawn; unended = unended.now };
          room = self.old.room;
        } }
    {
        self.drawn = drawn;
        self.count = unended.len();
        put_front(&mut self.numbers, unended);
    }
}

/// A transaction that has not ended.
#[derive(Debug, Drop)]
pub struct Entry {
    number: u32,
    base: Option<Base>,
}

impl Model for Entry {
    ghost use Rattle.mg_snap.specs.Room.{Stored};

    ghost Value = { Stored };

    ghost view = { λ entry. record { number = entry.number; base = entry.base } };
}

impl Entry {
    /// The transaction of this number, with its base.
    pub fn new(number: u32, base: Base) -> Entry
        ensures { result ≡ record { number = number; base = Some base } }
    {
        Entry {
            number,
            base: Some(base),
        }
    }

    /// The number of the transaction.
    pub fn number(&self) -> u32
        ensures { result ≡ self.now.number }
    {
        self.number
    }

    /// Whether this is that transaction's entry.
    pub fn is_of(&self, t: TxNo) -> bool
        ensures { result ≡ (self.now.number == t.0) }
    {
        self.number == t.0
    }

    /// Tells whether the transaction has a base that sees the other one.
    pub fn sees(&self, by: TxNo) -> bool
        ensures { result ≡ base_sees (snapshot_of self.now.base) by.0 }
    {
        match &self.base {
            Some(base) => base.sees(by),
            None => false,
        }
    }

    /// Tells whether the transaction has a base that does not see the other one.
    pub fn misses(&self, by: TxNo) -> bool
        ensures { result ≡ misses_of by.0 (entered_of self.now) }
    {
        match &self.base {
            Some(base) => !base.sees(by),
            None => false,
        }
    }

    /// Tells whether the transaction has a base that sees the older one of two and not the newer one.
    pub fn wants_older(&self, newer: TxNo, older: TxNo) -> bool
        ensures { result ≡ wants_older_of newer.0 older.0 (entered_of self.now) }
    {
        match &self.base {
            Some(base) => base.sees(older) && !base.sees(newer),
            None => false,
        }
    }

    /// Makes room for one transaction more in the base.
    ///
    /// # Errors
    ///
    /// `Memory` only. Then nothing has changed.
    pub fn widen(&mut self) -> Result<(), Memory>
        ensures same { entered_of self.new ≡ entered_of self.old }
        ensures wider { OnOk result ((n : ℕ) → IsWide n self.old.base → IsWide (n + 1) self.new.base) }
        ensures never_narrower { (n : ℕ) → IsWide n self.old.base → IsWide n self.new.base }
    {
        match &mut self.base {
            Some(base) => base.widen(),
            None => Ok(()),
        }
    }

    /// Where this is that transaction's entry and it has a base, the base is taken anew. It takes no
    /// memory.
    pub fn retake(&mut self, t: TxNo, drawn: u32, unended: &[u32])
        requires room { IsWide (length unended.now) self.old.base }
        ensures base { entered_of self.new
            ≡ rebased t.0 (record { drawn = drawn; unended = unended.now }) (entered_of self.old) }
        ensures wide { (n : ℕ) → IsWide n self.old.base → IsWide n self.new.base }
    {
        if !self.is_of(t) {
            return;
        }
        if let Some(base) = &mut self.base {
            base.retake(drawn, unended);
        }
    }

    /// Where this is that transaction's entry, its base is dropped.
    pub fn drop_base(&mut self, t: TxNo)
        ensures base { entered_of self.new ≡ undecided t.0 (entered_of self.old) }
        ensures wide { (n : ℕ) → IsWide n self.old.base → IsWide n self.new.base }
    {
        if self.is_of(t) {
            self.base = None;
        }
    }
}

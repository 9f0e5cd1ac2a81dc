//! The transactions that have not ended.

ghost use Rattle.std.specs.Prelude.{◌≡◌, true, ℕ, ◌-◌, ◌+◌, ◌^◌, ◌<◌, ◌≤◌, ◌++◌, ◌∷◌, [], length, map, filter, IfOk, OnOk, OnErr};
ghost use Rattle.mg_snap.specs.Live.{MayEnter, has_ended, after_enter, after_leave, after_limbo, after_rebase, after_retract, all_see as all_see_in, is_among as is_among_numbers, needed as needed_in, rebased, sees as sees_of, undecided, unended_in};
ghost use Rattle.mg_snap.specs.Room.{AreWide, all_entered, has_other_number, is_other};

use crate::base::{Base, Entry, is_among};
use mg_base::{Memory, TxNo};
use std::alloc::Global;
use std::marker::Model;

/// The transactions that have not ended, and what the base of each sees.
#[derive(Debug, Drop)]
pub struct Live {
    next: u32,
    // the numbers of the entries, so that a base can be taken anew from them
    numbers: Vec<u32>,
    entries: Vec<Entry>,
}

impl Model for Live {
    ghost use Rattle.std.specs.Prelude.{◌≡◌, length};
    ghost use Rattle.mg_snap.specs.Live.{State, AreDrawn, numbers_of};
    ghost use Rattle.mg_snap.specs.Room.{AreWide, all_entered};

    ghost Value = { State };

    ghost view = { λ live. record { next = live.next; entered = all_entered live.entries.items } };

    ghost invariant = { λ live.
        AreDrawn (record { next = live.next; entered = all_entered live.entries.items })
        × (live.numbers.items ≡ numbers_of (all_entered live.entries.items))
        × AreWide (length live.entries.items) live.entries.items };
}

/// Some numbers, and then this one.
fn with_number(alloc: Global, numbers: &[u32], t: TxNo) -> Result<Vec<u32>, Memory>
    ensures { IfOk result (λ all. all.items ≡ numbers.now ++ t.0 ∷ []) }
{
    let mut all = Vec::from_slice(alloc, numbers)?;
    all.push(t.0)?;
    Ok(all)
}

/// Makes room in each base for one transaction more.
fn widen(entries: &mut Vec<Entry>) -> Result<(), Memory>
    ensures same { all_entered entries.new.items ≡ all_entered entries.old.items }
    ensures wider { OnOk result ((n : ℕ) → AreWide n entries.old.items
        → AreWide (n + 1) entries.new.items) }
    ensures never_narrower { (n : ℕ) → AreWide n entries.old.items → AreWide n entries.new.items }
{
    for i in 0..entries.len() {
        entries[i].widen()?;
    }
    Ok(())
}

/// Takes the base of the transaction anew.
fn retake(entries: &mut Vec<Entry>, t: TxNo, drawn: u32, unended: &[u32])
    requires { AreWide (length unended.now) entries.old.items }
    ensures base { all_entered entries.new.items
        ≡ map (rebased t.0 (record { drawn = drawn; unended = unended.now }))
        (all_entered entries.old.items) }
    ensures wide { (n : ℕ) → AreWide n entries.old.items → AreWide n entries.new.items }
    ensures count { length entries.new.items ≡ length entries.old.items }
{
    for i in 0..entries.len() {
        entries[i].retake(t, drawn, unended);
    }
}

/// Drops the base of the transaction.
fn drop_base(entries: &mut Vec<Entry>, t: TxNo)
    ensures base { all_entered entries.new.items
        ≡ map (undecided t.0) (all_entered entries.old.items) }
    ensures wide { (n : ℕ) → AreWide n entries.old.items → AreWide n entries.new.items }
    ensures count { length entries.new.items ≡ length entries.old.items }
{
    for i in 0..entries.len() {
        entries[i].drop_base(t);
    }
}

/// Drops the entry of the transaction.
fn drop_entry(entries: &mut Vec<Entry>, t: TxNo)
    ensures { entries.new.items ≡ filter (has_other_number t.0) entries.old.items }
{
    entries.retain(|entry| !entry.is_of(t));
}

/// Drops the number of the transaction.
fn drop_number(numbers: &mut Vec<u32>, t: TxNo)
    ensures { numbers.new.items ≡ filter (is_other t.0) numbers.old.items }
{
    numbers.retain(|number| *number != t.0);
}

impl Live {
    /// No transaction is live, and all below `next` have ended.
    pub fn new(alloc: Global, next: TxNo) -> Live
        ensures { result ≡ record { next = next.0; entered = [] } }
    {
        Live {
            next: next.0,
            numbers: Vec::new(alloc),
            entries: Vec::new(alloc),
        }
    }

    /// The transaction enters and takes its base. Where it is the next one, the next number rises
    /// by one. The room is made here that `rebase` needs.
    ///
    /// # Errors
    ///
    /// `Memory` only. Then nothing has changed.
    pub fn enter(&mut self, t: TxNo) -> Result<(), Memory>
        requires may_enter { MayEnter self.old t.0 }
        requires limit { t.0 < 2 ^ 32 - 1 }
        ensures ok { OnOk result (self.new ≡ after_enter self.old t.0) }
        ensures base { OnOk result ((by : ℕ) → sees_of self.new t.0 by ≡ has_ended self.new by) }
        ensures err { OnErr result (self.new ≡ self.old) }
    {
        let alloc = *self.entries.allocator();
        let next = self.next.max(t.0 + 1);
        let numbers = with_number(alloc, &self.numbers, t)?;
        let unended = with_number(alloc, &self.numbers, t)?;
        widen(&mut self.entries)?;
        let entry = Entry::new(t.0, Base::new(next, unended));
        self.entries.push(entry)?;
        self.numbers = numbers;
        self.next = next;
        Ok(())
    }

    /// Tells whether the transaction has entered and has not left.
    pub fn is_unended(&self, t: TxNo) -> bool
        ensures { result ≡ is_among_numbers (unended_in self.now) t.0 }
    {
        is_among(&self.numbers, t)
    }

    /// The transaction has ended. It takes no memory.
    pub fn leave(&mut self, t: TxNo)
        ensures { self.new ≡ after_leave self.old t.0 }
    {
        drop_number(&mut self.numbers, t);
        drop_entry(&mut self.entries, t);
    }

    /// Takes back that the transaction entered: it is the next one again. It is the last one that was
    /// drawn, and nobody may have taken a base since. It takes no memory.
    pub fn retract(&mut self, t: TxNo)
        requires { (u : ℕ) → is_among_numbers (unended_in self.old) u ≡ true → u ≤ t.0 }
        ensures { self.new ≡ after_retract self.old t.0 }
    {
        drop_number(&mut self.numbers, t);
        drop_entry(&mut self.entries, t);
        self.next = t.0;
    }

    /// The transaction takes a new base in place of the one that it has, as each statement does under
    /// READ COMMITTED. Where it has none, nothing changes. It takes no memory.
    pub fn rebase(&mut self, t: TxNo)
        ensures { self.new ≡ after_rebase self.old t.0 }
    {
        retake(&mut self.entries, t, self.next, &self.numbers);
    }

    /// The transaction goes into limbo: it has not ended, and its base is gone. It takes no memory.
    pub fn limbo(&mut self, t: TxNo)
        ensures { self.new ≡ after_limbo self.old t.0 }
    {
        drop_base(&mut self.entries, t);
    }

    /// Tells whether `by` had been drawn and had ended when t's base was taken. It is false where t
    /// has no base.
    pub fn sees(&self, t: TxNo, by: TxNo) -> bool
        ensures { result ≡ sees_of self.now t.0 by.0 }
    {
        for entry in &self.entries {
            if entry.is_of(t) {
                return entry.sees(by);
            }
        }
        false
    }

    /// Tells whether every base sees `by`: whatever it did, no transaction looks behind it.
    pub fn all_see(&self, by: TxNo) -> bool
        ensures { result ≡ all_see_in self.now by.0 }
    {
        for entry in &self.entries {
            if entry.misses(by) {
                return false;
            }
        }
        true
    }

    /// Tells whether some base sees the older one of two transactions and not the newer one: a version of
    /// the older one, right behind a version of the newer one, is then read by somebody.
    pub fn needed(&self, newer: TxNo, older: TxNo) -> bool
        ensures { result ≡ needed_in self.now newer.0 older.0 }
    {
        for entry in &self.entries {
            if entry.wants_older(newer, older) {
                return true;
            }
        }
        false
    }
}

//! The changes of a transaction, each with what was before.

ghost use Rattle.std.specs.Prelude.{◌≡◌, ◌<◌, ◌≤◌, [], ◌∷◌, length, take, drop, IfOk, OnOk, OnErr};
ghost use Rattle.mg_undo.specs.Undo.{repeats as repeats_of, settled, since, without_newest, given_as, has_table, newest};

use crate::places::{Places, place_of};
use mg_base::Memory;
use mg_value::{Key, Row};
use std::alloc::Global;
use std::collections::VecDeque;
use std::marker::Model;

/// What a transaction's own change of a key was before the change that is kept.
#[derive(Debug, Drop)]
pub enum Was {
    /// The transaction had not changed the key.
    Untouched,
    /// It had deleted the row.
    Deleted,
    /// It had given the key this row.
    Row(Row),
}

impl Was {
    /// An equal one.
    ///
    /// # Errors
    ///
    /// `Memory` only.
    pub fn copy(&self, alloc: Global) -> Result<Was, Memory>
        ensures { IfOk result (λ was. was ≡ self.now) }
    {
        match self {
            Was::Untouched => Ok(Was::Untouched),
            Was::Deleted => Ok(Was::Deleted),
            Was::Row(row) => Ok(Was::Row(row.copy(alloc)?)),
        }
    }
}

/// A change that was kept.
#[derive(Debug, Drop)]
pub struct Change {
    /// The number of the table: its first pointer page.
    pub table: u32,
    pub key: Key,
    pub was: Was,
}

/// Tells whether one of the newest so many changes is of the table that begins at a page.
fn has_among(list: &VecDeque<Change>, count: usize, table: u32) -> bool
    requires { count ≤ length list.now.items }
    ensures { result ≡ has_table table (take count list.now.items) }
{
    for i in 0..count {
        if list[i].table == table {
            return true;
        }
    }
    false
}

/// The changes that were kept, with the places of their keys, so that a repeated change is found
/// without a search.
#[derive(Debug, Drop)]
pub struct Changes {
    /// The newest first.
    list: VecDeque<Change>,
    /// The place of each.
    places: Places,
    alloc: Global,
}

impl Model for Changes {
    ghost use Rattle.std.specs.Prelude.{List};
    ghost use Rattle.mg_undo.specs.Placing.{ArePlaced};
    ghost use Rattle.mg_undo.specs.declared.changes.Change.{Change as AnyChange};

    ghost Value = { List AnyChange };

    ghost view = { λ changes. changes.list.items };

    ghost invariant = { λ changes. ArePlaced changes.list.items changes.places };
}

impl Changes {
    /// No change is kept. It takes no memory.
    pub(crate) fn new(alloc: Global) -> Changes
        ensures { result ≡ [] }
    {
        Changes {
            list: VecDeque::new(alloc),
            places: Places::new(alloc),
            alloc,
        }
    }

    /// Equal changes.
    ///
    /// # Errors
    ///
    /// `Memory` only.
    pub(crate) fn copy(&self, alloc: Global) -> Result<Changes, Memory>
        ensures { IfOk result (λ copy. copy ≡ self.now) }
    {
        let mut copy = Changes::new(alloc);
        let mut left = self.list.len();
        while left > 0 {
            left -= 1;
            let Change { table, key, was } = &self.list[left];
            copy.push(*table, key, was.copy(alloc)?)?;
        }
        Ok(copy)
    }

    /// How many changes are kept.
    pub(crate) fn len(&self) -> usize
        ensures { result ≡ length self.now }
    {
        self.list.len()
    }

    /// Keeps a change.
    ///
    /// # Errors
    ///
    /// `Memory` only. Then nothing has changed.
    pub(crate) fn push(&mut self, table: u32, key: &Key, was: Was) -> Result<(), Memory>
        ensures ok { OnOk result
            (self.new ≡ record { table = table; key = key.now; was = was } ∷ self.old) }
        ensures err { OnErr result (self.new ≡ self.old) }
    {
        let place = place_of(table, key, self.alloc)?;
        let key = key.copy(self.alloc)?;
        self.list.try_reserve(1)?;
        self.places.push(place)?;
        self.list.push_front_reserved(Change { table, key, was });
        Ok(())
    }

    /// Tells whether the newest change is of a key that was changed before, after the first `floor`
    /// changes.
    fn repeats(&self, floor: usize) -> bool
        ensures { result ≡ repeats_of floor self.now }
    {
        self.places.repeats(floor)
    }

    /// Takes the newest change out.
    fn take_newest(&mut self) -> Option<Change>
        ensures newest { result ≡ newest self.old }
        ensures rest { self.new ≡ drop 1 self.old }
    {
        self.places.pop();
        self.list.pop_front()
    }

    /// Tells whether one of the changes but the first `floor` is of the table that begins at a page.
    pub(crate) fn touch(&self, table: u32, floor: usize) -> bool
        ensures { result ≡ has_table table (since floor self.now) }
    {
        let count = self.list.len().saturating_sub(floor);
        has_among(&self.list, count, table)
    }

    /// Drops the newest changes of keys that were changed before, after the first `floor` changes:
    /// what they were is not what is given back.
    pub(crate) fn drop_repeated(&mut self, floor: usize)
        ensures { self.new ≡ settled floor self.old }
    {
        while self.len() > floor && self.repeats(floor) {
            self.take_newest();
        }
    }

    /// Drops the newest change, where there are more than the first `floor`.
    pub(crate) fn drop_newest(&mut self, floor: usize)
        ensures { self.new ≡ without_newest floor self.old }
    {
        if self.len() > floor {
            self.take_newest();
        }
    }

    /// Gives the newest change.
    pub(crate) fn pop(&mut self) -> Option<(u32, Key, Was)>
        ensures given { result ≡ given_as (newest self.old) }
        ensures rest { self.new ≡ drop 1 self.old }
    {
        let Change { table, key, was } = self.take_newest()?;
        Some((table, key, was))
    }
}

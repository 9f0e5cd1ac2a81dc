//! The active transactions.

ghost use Rattle.std.specs.Prelude.{◌≡◌, ◌<◌, ◌++◌, ◌∷◌, [], None, Some, false, IfSome, IfNone, OnOk, OnErr};
ghost use Rattle.std.specs.Option.{option_copied};
ghost use Rattle.mg_works.specs.Works.{IsNowhere, IsPlaceOf, MayBeGiven, begun, given_to, given_back, going_back_to, has_asked, has_savepoint, has_session as has_session_in, with_change, with_point, with_step_back, with_table, with_undo, with_work, with_written, unasked, without_change, without_tables, without_work, without_written, work_of, written_to};
ghost use Rattle.mg_undo.specs.Undo.{given_as};

use crate::work::Work;
use mg_base::{Memory, TxNo};
use mg_model::{Mode, Table};
use mg_undo::{Undo, Was};
use mg_value::{Key, Name};
use std::alloc::Global;
use std::marker::Model;

/// The active transactions, in the order of their beginnings.
#[derive(Drop)]
pub struct Works {
    items: Vec<Work>,
}

impl Model for Works {
    ghost use Rattle.std.specs.Prelude.{List};
    ghost use Rattle.mg_works.specs.Works.{AreApart, Working};

    ghost Value = { List Working };

    ghost view = { λ works. works.items.items };

    ghost invariant = { λ works. AreApart works.items.items };
}

impl Works {
    /// No transaction is active. It takes no memory.
    pub fn new(alloc: Global) -> Works
        ensures { result ≡ [] }
    {
        Works {
            items: Vec::new(alloc),
        }
    }

    /// A transaction has begun.
    ///
    /// # Errors
    ///
    /// `Memory` only. Nothing has changed then.
    pub fn begin(&mut self, t: TxNo, session: u8, mode: Mode) -> Result<(), Memory>
        requires fresh { work_of self.old t.0 ≡ None }
        requires free { has_session_in self.old session ≡ false }
        requires session { session < 32 }
        ensures ok { OnOk result (self.new ≡ self.old ++ begun t.0 session mode ∷ []) }
        ensures err { OnErr result (self.new ≡ self.old) }
    {
        let alloc = *self.items.allocator();
        self.items.push(Work::new(alloc, t, session, mode))?;
        Ok(())
    }

    /// A transaction is no longer active. It takes no memory.
    pub fn end(&mut self, t: TxNo)
        ensures { self.new ≡ without_work t.0 self.old }
    {
        drop_work(&mut self.items, t);
    }

    /// What is known of a transaction, none where it is not active.
    pub fn work(&self, t: TxNo) -> Option<&Work>
        ensures work { option_copied result ≡ work_of self.now t.0 }
        ensures session { IfSome result (λ work. work.now.session < 32) }
    {
        let place = find(&self.items, t)?;
        Some(&self.items[place])
    }

    /// The table that begins at a page, if a transaction has written into it.
    pub fn written(&self, t: TxNo, number: u32) -> Option<&Table>
        ensures written { option_copied result ≡ written_to self.now t.0 number }
        ensures may { IfSome result (λ table. MayBeGiven table.now) }
    {
        let place = find(&self.items, t)?;
        self.items[place].written(number)
    }

    /// The table of a name that was given to a transaction last.
    pub fn table(&self, t: TxNo, name: &Name) -> Option<&Table>
        ensures given { option_copied result ≡ given_to self.now t.0 name.now }
        ensures may { IfSome result (λ table. MayBeGiven table.now) }
    {
        let place = find(&self.items, t)?;
        self.items[place].table(name)
    }

    /// Tells whether a session has an active transaction.
    pub fn has_session(&self, session: u8) -> bool
        ensures { result ≡ has_session_in self.now session }
    {
        for work in &self.items {
            if work.session() == session {
                return true;
            }
        }
        false
    }

    /// Sets a mark.
    ///
    /// # Errors
    ///
    /// `Memory` only. Nothing has changed then.
    pub fn set_mark(&mut self, t: TxNo) -> Result<(), Memory>
        ensures ok { OnOk result (self.new ≡ with_work t.0 (with_point None) self.old) }
        ensures err { OnErr result (self.new ≡ self.old) }
    {
        match find(&self.items, t) {
            Some(place) => self.items[place].set_mark(),
            None => Ok(()),
        }
    }

    /// Sets a savepoint.
    ///
    /// # Errors
    ///
    /// `Memory` only. Nothing has changed then.
    pub fn set_savepoint(&mut self, t: TxNo, name: &Name) -> Result<(), Memory>
        ensures ok { OnOk result (self.new ≡ with_work t.0 (with_point (Some name.now)) self.old) }
        ensures err { OnErr result (self.new ≡ self.old) }
    {
        match find(&self.items, t) {
            Some(place) => self.items[place].set_savepoint(name),
            None => Ok(()),
        }
    }

    /// Keeps a change of a key of a table, with what the transaction's own change of it was before.
    ///
    /// # Errors
    ///
    /// `Memory` only. Nothing has changed then.
    pub fn keep(&mut self, t: TxNo, table: u32, key: &Key, was: Was) -> Result<(), Memory>
        ensures ok { OnOk result (self.new ≡ with_work t.0 (with_change table key.now was) self.old) }
        ensures err { OnErr result (self.new ≡ self.old) }
    {
        match find(&self.items, t) {
            Some(place) => self.items[place].keep(table, key, was),
            None => Ok(()),
        }
    }

    /// Takes the last `keep` of a transaction back, of which the change was not made after all.
    pub fn retract(&mut self, t: TxNo)
        ensures { self.new ≡ with_work t.0 without_change self.old }
    {
        if let Some(place) = find(&self.items, t) {
            self.items[place].retract();
        }
    }

    /// Goes back to the last savepoint of a name: what was changed since is then given by `take_back`.
    /// False exactly where none stands; nothing has changed then.
    pub fn back_to(&mut self, t: TxNo, name: &Name) -> bool
        ensures found { result ≡ has_savepoint (work_of self.old t.0) name.now }
        ensures after { self.new ≡ with_work t.0 (going_back_to name.now) self.old }
    {
        match find(&self.items, t) {
            Some(place) => self.items[place].back_to(name),
            None => false,
        }
    }

    /// Takes back the newest change of a transaction that is left since the point gone back to.
    pub fn take_back(&mut self, t: TxNo) -> Option<(u32, Key, Was)>
        ensures given { result ≡ given_as (given_back (work_of self.old t.0)) }
        ensures after { self.new ≡ with_work t.0 with_step_back self.old }
    {
        match find(&self.items, t) {
            Some(place) => self.items[place].take_back(),
            None => None,
        }
    }

    /// Sets what a transaction has to take back.
    pub fn set_undo(&mut self, t: TxNo, undo: Undo)
        ensures { self.new ≡ with_work t.0 (with_undo undo) self.old }
    {
        if let Some(place) = find(&self.items, t) {
            self.items[place].set_undo(undo);
        }
    }

    /// Forgets the tables that were given to a transaction.
    pub fn forget_tables(&mut self, t: TxNo)
        ensures { self.new ≡ with_work t.0 without_tables self.old }
    {
        if let Some(place) = find(&self.items, t) {
            self.items[place].forget_tables();
        }
    }

    /// Keeps a table that was given to a transaction.
    ///
    /// # Errors
    ///
    /// `Memory` only. Nothing has changed then.
    pub fn give_table(&mut self, t: TxNo, table: Table) -> Result<(), Memory>
        requires { MayBeGiven table }
        ensures ok { OnOk result (self.new ≡ with_work t.0 (with_table table) self.old) }
        ensures err { OnErr result (self.new ≡ self.old) }
    {
        match find(&self.items, t) {
            Some(place) => self.items[place].give_table(table),
            None => Ok(()),
        }
    }

    /// Keeps a table that a transaction writes into.
    ///
    /// # Errors
    ///
    /// `Memory` only. Nothing has changed then.
    pub fn note_written(&mut self, t: TxNo, table: Table) -> Result<(), Memory>
        requires { MayBeGiven table }
        ensures ok { OnOk result (self.new ≡ with_work t.0 (with_written table) self.old) }
        ensures err { OnErr result (self.new ≡ self.old) }
    {
        match find(&self.items, t) {
            Some(place) => self.items[place].note_written(table),
            None => Ok(()),
        }
    }

    /// Of the tables that a transaction has written into those go whose rows of the catalog go, under these keys: it has
    /// taken them back, and nothing is left to take back of what it wrote there. It takes no memory.
    pub fn drop_written(&mut self, t: TxNo, keys: &[Key])
        ensures { self.new ≡ with_work t.0 (without_written keys.now) self.old }
    {
        if let Some(place) = find(&self.items, t) {
            self.items[place].drop_written(keys);
        }
    }

    /// The commit of a transaction was asked for.
    pub fn ask(&mut self, t: TxNo)
        ensures { self.new ≡ with_work t.0 has_asked self.old }
    {
        if let Some(place) = find(&self.items, t) {
            self.items[place].ask();
        }
    }

    /// The commit of a transaction is no longer asked for.
    pub fn unask(&mut self, t: TxNo)
        ensures { self.new ≡ with_work t.0 unasked self.old }
    {
        if let Some(place) = find(&self.items, t) {
            self.items[place].unask();
        }
    }
}

/// The place of a transaction's work.
fn find(works: &Vec<Work>, t: TxNo) -> Option<usize>
    ensures some { IfSome result (IsPlaceOf works.now.items t.0) }
    ensures none { IfNone result (IsNowhere works.now.items t.0) }
{
    for place in 0..works.len() {
        if works[place].is_of(t) {
            return Some(place);
        }
    }
    None
}

/// Drops the work of a transaction.
fn drop_work(works: &mut Vec<Work>, t: TxNo)
    ensures { works.new.items ≡ without_work t.0 works.old.items }
{
    works.retain(|work| !work.is_of(t));
}

//! What is known of an active transaction.

ghost use Rattle.std.specs.Prelude.{◌≡◌, ◌==◌, ◌∷◌, None, Some, true, IfOk, OnOk, OnErr};
ghost use Rattle.std.specs.Option.{option_copied};
ghost use Rattle.mg_model.specs.Changes.{same_name};
ghost use Rattle.mg_undo.specs.Undo.{TellsTable, after_back_to, given_as, has_point, take_back as taken_back};
ghost use Rattle.mg_works.specs.Works.{begun, given_in, going_back_to, has_asked as asked_for, tables_left, with_change, with_point, with_step_back, with_table, with_undo, with_written, unasked, without_change, without_tables, without_written, written_in};

use mg_base::{Memory, TxNo};
use mg_model::{Mode, Table};
use mg_undo::{Undo, Was, has_table_key};
use mg_value::{Key, Name};
use std::alloc::Global;
use std::marker::Model;

/// What is known of an active transaction.
#[derive(Drop)]
pub struct Work {
    number: TxNo,
    session: u8,
    mode: Mode,
    undo: Undo,
    // The last one that was given comes first.
    tables: Vec<Table>,
    // The last one that was written into comes first.
    written: Vec<Table>,
    asked: bool,
}

impl Model for Work {
    ghost use Rattle.mg_works.specs.Works.{Working};

    ghost Value = { Working };

    ghost view = { λ w. record {
      number = w.number.0;
      session = w.session;
      mode = w.mode;
      undo = w.undo;
      tables = w.tables.items;
      written = w.written.items;
      asked = w.asked;
    } };
}

impl Work {
    /// A transaction that has just begun. It takes no memory.
    pub fn new(alloc: Global, number: TxNo, session: u8, mode: Mode) -> Work
        ensures { result ≡ begun number.0 session mode }
    {
        Work {
            number,
            session,
            mode,
            undo: Undo::new(alloc),
            tables: Vec::new(alloc),
            written: Vec::new(alloc),
            asked: false,
        }
    }

    /// Its number.
    pub fn number(&self) -> TxNo
        ensures { result.0 ≡ self.now.number }
    {
        self.number
    }

    /// Tells whether it is of this transaction.
    pub fn is_of(&self, t: TxNo) -> bool
        ensures { result ≡ (self.now.number == t.0) }
    {
        self.number.0 == t.0
    }

    /// The session that began it, by which pages are marked for its commit.
    pub fn session(&self) -> u8
        ensures { result ≡ self.now.session }
    {
        self.session
    }

    /// How it runs.
    pub fn mode(&self) -> Mode
        ensures { result ≡ self.now.mode }
    {
        self.mode
    }

    /// Whether it has asked for its commit.
    pub fn has_asked(&self) -> bool
        ensures { result ≡ self.now.asked }
    {
        self.asked
    }

    /// Sets a mark.
    ///
    /// # Errors
    ///
    /// `Memory` only. Nothing has changed then.
    pub fn set_mark(&mut self) -> Result<(), Memory>
        ensures ok { OnOk result (self.new ≡ with_point None self.old) }
        ensures err { OnErr result (self.new ≡ self.old) }
    {
        self.undo.mark()
    }

    /// Sets a savepoint.
    ///
    /// # Errors
    ///
    /// `Memory` only. Nothing has changed then.
    pub fn set_savepoint(&mut self, name: &Name) -> Result<(), Memory>
        ensures ok { OnOk result (self.new ≡ with_point (Some name.now) self.old) }
        ensures err { OnErr result (self.new ≡ self.old) }
    {
        self.undo.name(name)
    }

    /// Keeps a change of a key of a table, with what the transaction's own change of it was before.
    ///
    /// # Errors
    ///
    /// `Memory` only. Nothing has changed then.
    pub fn keep(&mut self, table: u32, key: &Key, was: Was) -> Result<(), Memory>
        ensures ok { OnOk result (self.new ≡ with_change table key.now was self.old) }
        ensures err { OnErr result (self.new ≡ self.old) }
    {
        self.undo.keep(table, key, was)
    }

    /// Takes the last `keep` back, of which the change was not made after all.
    pub fn retract(&mut self)
        ensures { self.new ≡ without_change self.old }
    {
        self.undo.retract();
    }

    /// Goes back to the last savepoint of a name. False exactly where none stands; nothing has changed then.
    pub fn back_to(&mut self, name: &Name) -> bool
        ensures found { result ≡ has_point self.old.undo (Some name.now) }
        ensures after { self.new ≡ going_back_to name.now self.old }
    {
        self.undo.back_to(name)
    }

    /// Takes back the newest change that is left since the point gone back to.
    pub fn take_back(&mut self) -> Option<(u32, Key, Was)>
        ensures given { result ≡ given_as (taken_back self.old.undo).given }
        ensures after { self.new ≡ with_step_back self.old }
    {
        self.undo.take_back()
    }

    /// Tells whether one of the changes that are taken back from here on is of the table that begins at a
    /// page.
    pub fn touches(&self, table: u32) -> bool
        ensures { TellsTable table self.now.undo result }
    {
        self.undo.touches(table)
    }

    /// The same of those that are taken back once it goes back to its last savepoint of a name.
    pub fn touches_since(&self, name: &Name, table: u32) -> bool
        ensures { has_point self.now.undo (Some name.now) ≡ true
            → TellsTable table (after_back_to self.now.undo name.now) result }
    {
        self.undo.touches_since(name, table)
    }

    /// An equal one of what it has to take back.
    ///
    /// # Errors
    ///
    /// `Memory` only.
    pub fn copy_undo(&self, alloc: Global) -> Result<Undo, Memory>
        ensures { IfOk result (λ undo. undo ≡ self.now.undo) }
    {
        self.undo.copy(alloc)
    }

    /// Sets what it has to take back.
    pub fn set_undo(&mut self, undo: Undo)
        ensures { self.new ≡ with_undo undo self.old }
    {
        self.undo = undo;
    }

    /// Forgets the tables that were given.
    pub fn forget_tables(&mut self)
        ensures { self.new ≡ without_tables self.old }
    {
        self.tables.clear();
    }

    /// Keeps a table that was given.
    ///
    /// # Errors
    ///
    /// `Memory` only. Nothing has changed then.
    pub fn give_table(&mut self, table: Table) -> Result<(), Memory>
        ensures ok { OnOk result (self.new ≡ with_table table self.old) }
        ensures err { OnErr result (self.new ≡ self.old) }
    {
        self.tables.insert(0, table)?;
        Ok(())
    }

    /// Keeps a table that is written into.
    ///
    /// # Errors
    ///
    /// `Memory` only. Nothing has changed then.
    pub fn note_written(&mut self, table: Table) -> Result<(), Memory>
        ensures ok { OnOk result (self.new ≡ with_written table self.old) }
        ensures err { OnErr result (self.new ≡ self.old) }
    {
        self.written.insert(0, table)?;
        Ok(())
    }

    /// Drops the tables that were written into whose rows of the catalog go, under these keys.
    pub fn drop_written(&mut self, keys: &[Key])
        ensures { self.new ≡ without_written keys.now self.old }
    {
        drop_tables(&mut self.written, keys);
    }

    /// The commit was asked for.
    pub fn ask(&mut self)
        ensures { self.new ≡ asked_for self.old }
    {
        self.asked = true;
    }

    /// The commit is no longer asked for.
    pub fn unask(&mut self)
        ensures { self.new ≡ unasked self.old }
    {
        self.asked = false;
    }

    /// The table that begins at a page, if it was written into.
    pub fn written(&self, number: u32) -> Option<&Table>
        ensures { option_copied result ≡ written_in self.now.written number }
    {
        for table in &self.written {
            if table.pointer.0 == number {
                return Some(table);
            }
        }
        None
    }

    /// The table of a name that was given last.
    pub fn table(&self, name: &Name) -> Option<&Table>
        ensures { option_copied result ≡ given_in self.now.tables name.now }
    {
        for table in &self.tables {
            if is_same(name, &table.name) {
                return Some(table);
            }
        }
        None
    }
}

/// Drops the tables whose rows of the catalog have one of these keys.
fn drop_tables(tables: &mut Vec<Table>, keys: &[Key])
    ensures { tables.new.items ≡ tables_left keys.now tables.old.items }
{
    tables.retain(|table| !has_table_key(keys, table.name.as_slice()));
}

/// Tells whether two names are the same.
fn is_same(a: &Name, b: &Name) -> bool
    ensures { result ≡ same_name a.now b.now }
{
    a.as_slice() == b.as_slice()
}

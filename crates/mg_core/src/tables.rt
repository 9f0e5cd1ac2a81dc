//! The tables that transactions see.

ghost use Rattle.std.specs.Prelude.{◌≡◌, ◌↔◌, None, IfOk, IsTrue};
ghost use Rattle.mg_model.specs.Catalog.{catalog_name};
ghost use Rattle.mg_works.specs.Works.{MayBeGiven, given_to};
ghost use Rattle.mg_core.specs.Cores.{Continues, IsCore};
ghost use Rattle.mg_core.specs.Tables.{AnswersTable, FindsSeen, IsLawfulOr, KeepsTable, MayBeFound};

use crate::parts::Core;
use crate::states::StatesOf;
use mg_base::{Damaged, Disk, Field, GREATEST_LIMIT, Memory, PageNo, TxNo};
use mg_model::{CATALOG, Indexes, Refusal, Table};
use mg_pool::Batch;
use mg_seek::table_named;
use mg_space::SpaceFault;
use mg_value::{MOST_COLUMNS, Name};
use std::alloc::Global;

impl<D: Disk> Core<D> {
    /// The table of a name that a transaction sees. One that was given to it already is given again,
    /// without a page read; else the rows of the catalog that it sees are read, and the table is kept.
    ///
    /// It is no event: nobody's wait is over with it.
    ///
    /// # Errors
    ///
    /// `Offline` exactly where a page write has failed; else `NotActive` exactly where the transaction isn't
    /// active; `NoTable` exactly where no row of the catalog that it sees names the table, or where the name
    /// is the catalog's; `DiskRead`; `Damaged` where pages of the catalog are, or where its rows name no
    /// tables; `Damaged` at `Link`, under the catalog's first pointer page, where the table begins at a page
    /// that is no part of a database; `Memory`.
    pub fn table(&mut self, t: TxNo, name: &Name) -> Result<Table, Refusal>
        requires { IsCore D.meaning self.old }
        ensures core { IsCore D.meaning self.new }
        ensures table { AnswersTable D.meaning self.old self.new t name.now result }
    {
        match self.begin_call(t) {
            Ok(()) => {}
            Err(refusal) => return Err(refusal),
        }
        match self.given(t, name) {
            Ok(Some(table)) => Ok(table),
            Ok(None) => self.find_table(t, name),
            Err(_) => Err(Refusal::Memory),
        }
    }

    /// A copy of the table of a name that was given to a transaction already.
    fn given(&self, t: TxNo, name: &Name) -> Result<Option<Table>, Memory>
        ensures given { IfOk result (λ found. found ≡ given_to self.now.works t.0 name.now) }
        ensures may { IfOk result MayBeFound }
    {
        match self.works.table(t, name) {
            Some(table) => match copy_table(self.store.alloc(), table) {
                Ok(copy) => Ok(Some(copy)),
                Err(memory) => Err(memory),
            },
            None => Ok(None),
        }
    }

    /// The table of a name that was not given yet.
    fn find_table(&mut self, t: TxNo, name: &Name) -> Result<Table, Refusal>
        requires core { IsCore D.meaning self.old }
        requires continues { Continues self.old t.0 }
        requires fresh { given_to self.old.works t.0 name.now ≡ None }
        ensures core { IsCore D.meaning self.new }
        ensures table { AnswersTable D.meaning self.old self.new t name.now result }
    {
        if is_catalog(name.as_slice()) {
            return Err(Refusal::NoTable);
        }
        match self.seen_table(t, name) {
            Ok(Some(table)) => self.keep_table(t, table),
            Ok(None) => Err(Refusal::NoTable),
            Err(fault) => Err(self.refuse(fault)),
        }
    }

    /// The table of a name by the rows of the catalog that a transaction sees.
    ///
    /// # Errors
    ///
    /// As `table_named`; `Damaged` at `Link` where the table may not be given.
    fn seen_table(&mut self, t: TxNo, name: &Name) -> Result<Option<Table>, SpaceFault>
        requires core { IsCore D.meaning self.old }
        requires continues { Continues self.old t.0 }
        ensures finds { FindsSeen D.meaning self.old self.new t name.now result }
    {
        let batch = Batch::new(self.store.alloc());
        let states = StatesOf::new(&self.list);
        match table_named(
            &mut self.store,
            &batch,
            &self.catalog,
            name.as_slice(),
            &states,
            &self.live,
            t,
        ) {
            Ok(Some(table)) => match lawful(self.catalog.pointer, table) {
                Ok(table) => Ok(Some(under(name, table))),
                Err(fault) => Err(fault),
            },
            Ok(None) => Ok(None),
            Err(fault) => Err(fault),
        }
    }

    /// Keeps a table that was found, and gives it.
    ///
    /// # Errors
    ///
    /// `Memory` only. Nothing has changed then.
    fn keep_table(&mut self, t: TxNo, table: Table) -> Result<Table, Refusal>
        requires may { MayBeGiven table }
        ensures keeps { KeepsTable self.old self.new t.0 table result }
    {
        let copy = match copy_table(self.store.alloc(), &table) {
            Ok(copy) => copy,
            Err(_) => return Err(Refusal::Memory),
        };
        match self.works.give_table(t, copy) {
            Ok(()) => Ok(table),
            Err(_) => Err(Refusal::Memory),
        }
    }
}

/// A table, if it may be given.
///
/// # Errors
///
/// `Damaged` at `Link` exactly where it may not: found is its first page. The rows of a catalog name no
/// table with more columns than tables have.
fn lawful(catalog: PageNo, table: Table) -> Result<Table, SpaceFault>
    ensures { IsLawfulOr catalog.0 table result }
{
    if table.shape.columns.as_slice().len() <= MOST_COLUMNS && table.pointer.0 < GREATEST_LIMIT {
        return Ok(table);
    }
    Err(SpaceFault::Damaged(Damaged {
        page: catalog,
        field: Field::Link,
        found: u64::from(table.pointer.0),
        wanted: u64::from(GREATEST_LIMIT - 1),
    }))
}

/// A table under the name by which it was asked for: its row of the catalog says that very name, but what a row says is
/// known only where the disk tells what it holds.
fn under(name: &Name, table: Table) -> Table
    ensures { result ≡ record table { name = name.now } }
{
    Table {
        name: *name,
        shape: table.shape,
        pointer: table.pointer,
        indexes: table.indexes,
    }
}

/// An equal table.
///
/// # Errors
///
/// `Memory` only.
fn copy_table(alloc: Global, table: &Table) -> Result<Table, Memory>
    ensures { IfOk result (λ copy. copy ≡ table.now) }
{
    Ok(Table {
        name: table.name,
        shape: table.shape.copy(alloc)?,
        pointer: table.pointer,
        indexes: Indexes::new(table.indexes.as_slice().to_vec(alloc)?),
    })
}

/// Tells whether a name is that of the catalog.
fn is_catalog(name: &[u8]) -> bool
    ensures { IsTrue result ↔ (name.now ≡ catalog_name) }
{
    name == CATALOG
}

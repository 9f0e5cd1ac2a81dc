//! The tables that a transaction writes into.

ghost use Rattle.std.specs.Prelude.{◌≡◌, IfOk, OnOk, OnErr, MatchResult, is_some};
ghost use Rattle.mg_records.specs.Writing.{FitsShape};
ghost use Rattle.mg_works.specs.Works.{MayBeGiven, written_to};
ghost use Rattle.mg_core.specs.Cores.{IsCore};
ghost use Rattle.mg_taking_back.specs.Noting.{FailsNoted, NotesTable, WritesNoted, noted};

use mg_base::{Disk, Memory, TxNo};
use mg_core::Core;
use mg_model::{Indexes, Refusal, Table};
use mg_records::Write;
use mg_works::Works;
use std::alloc::Global;

/// Notes that a transaction is about to write into a table that was given to it: what it has to take back names
/// tables by their first pages, and finds them here.
///
/// # Errors
///
/// As every event: `Offline`, `NotActive`; or `Memory`. Nothing has changed then, but that the wait is over.
pub fn note_written<D: Disk>(core: &mut Core<D>, t: TxNo, table: &Table) -> Result<(), Refusal>
    requires core { IsCore D.meaning core.old }
    requires given { MayBeGiven table.now }
    ensures core { IsCore D.meaning core.new }
    ensures notes { NotesTable core.old core.new t.0 table.now result }
{
    match core.begin_event(t) {
        Ok(()) => {}
        Err(refusal) => return Err(refusal),
    }
    let alloc = core.store.alloc();
    match note_in(&mut core.works, alloc, t, table) {
        Ok(()) => Ok(()),
        Err(_) => Err(Refusal::Memory),
    }
}

/// Writes a row of a table that was given to a transaction, as the core's `write_step` does, and keeps the table first.
///
/// # Errors
///
/// As `note_written`, and then as `write_step` of the core.
pub fn write_noted<D: Disk>(
    core: &mut Core<D>,
    t: TxNo,
    table: &Table,
    write: &Write,
) -> Result<(), Refusal>
    requires core { IsCore D.meaning core.old }
    requires given { MayBeGiven table.now }
    requires fits { FitsShape table.now.shape write.now }
    ensures core { IsCore D.meaning core.new }
    ensures writes { MatchResult result (λ _. WritesNoted D.meaning core.old core.new t table.now write.now)
        (FailsNoted D.meaning core.old core.new t table.now write.now) }
{
    match note_written(core, t, table) {
        Ok(()) => core.write_step(t, table, write),
        Err(refusal) => Err(refusal),
    }
}

/// Keeps a table among those that a transaction has written into, unless one that begins at its first page is there.
///
/// # Errors
///
/// `Memory` only. Nothing has changed then.
fn note_in(works: &mut Works, alloc: Global, t: TxNo, table: &Table) -> Result<(), Memory>
    requires given { MayBeGiven table.now }
    ensures ok { OnOk result (works.new ≡ noted t.0 table.now works.old) }
    ensures err { OnErr result (works.new ≡ works.old) }
{
    if is_written(works, t, table.pointer.0) {
        return Ok(());
    }
    let copy = copy_table(alloc, table)?;
    works.note_written(t, copy)
}

/// Tells whether a transaction has written into a table that begins at a page.
fn is_written(works: &Works, t: TxNo, number: u32) -> bool
    ensures { result ≡ is_some (written_to works.now t.0 number) }
{
    works.written(t, number).is_some()
}

/// An equal table.
///
/// # Errors
///
/// `Memory` only.
fn copy_table(alloc: Global, table: &Table) -> Result<Table, Memory>
    ensures { IfOk result (λ copy. copy ≡ table.now) }
{
    Ok(Table {
        name: table.name,
        shape: table.shape.copy(alloc)?,
        pointer: table.pointer,
        indexes: Indexes::new(table.indexes.as_slice().to_vec(alloc)?),
    })
}

//! The keys under which the rows of a new table come, and whether they are free.

ghost use Rattle.std.specs.Prelude.{◌≡◌, ◌≢◌, ◌≤◌, IfErr, IfOk, MatchResult, None, OnOk, length, map};
ghost use Rattle.mg_model.specs.Catalog.{catalog_shape, key_of};
ghost use Rattle.mg_core.specs.Cores.{IsCore};
ghost use Rattle.mg_core.specs.Reading.{FailsReading};
ghost use Rattle.mg_core.specs.Writing.{ReadsRow, WhyOfKey};
ghost use Rattle.mg_table_making.specs.Creating.{FailsKeys};
ghost use Rattle.mg_table_making.specs.Keys.{AreFree, AreFreeKeys, FailsColumnKey, FailsColumnKeys, FailsFree, FailsOwnKey, HaveKeys, IsFreeKey, TellsOutOfPlace, keys_made};

use mg_base::{Damaged, Disk, Field, Memory, PageNo, TxNo};
use mg_core::{Core, StatesOf};
use mg_model::{Refusal, Table};
use mg_records::Write;
use mg_row_writes::{RowAt, row_at, written_key};
use mg_space::SpaceFault;
use mg_table_batch::new_rows;
use mg_value::{Key, MOST_COLUMNS, Name, Row, Shape, Value};
use std::alloc::Global;

/// The keys of the rows that say a new table, that of its own row first.
///
/// # Errors
///
/// `Memory` only.
pub(crate) fn keys_for<D: Disk>(
    core: &mut Core<D>,
    name: &Name,
    shape: &Shape,
) -> Result<Vec<Key>, Refusal>
    requires core { IsCore D.meaning core.old }
    requires columns { length shape.now.columns ≤ MOST_COLUMNS }
    ensures core { IsCore D.meaning core.new }
    ensures keys { IfOk result (λ keys.
        keys.items ≡ keys_made core.old.catalog.shape name.now shape.now) }
    ensures same { OnOk result (core.new ≡ core.old) }
    ensures fails { IfErr result (FailsKeys core.old core.new) }
{
    match keys_said(core.store.alloc(), &core.catalog, name, shape) {
        Ok(keys) => Ok(keys),
        Err(_) => Err(Refusal::Memory),
    }
}

/// The same.
fn keys_said(alloc: Global, catalog: &Table, name: &Name, shape: &Shape) -> Result<Vec<Key>, Memory>
    requires catalog { catalog.now.shape ≡ catalog_shape }
    requires columns { length shape.now.columns ≤ MOST_COLUMNS }
    ensures { IfOk result (λ keys. keys.items ≡ keys_made catalog.now.shape name.now shape.now) }
{
    let rows = new_rows(alloc, name, shape, PageNo(0))?;
    keys_of(alloc, catalog, &rows)
}

/// The keys of rows of a table, none of which is NULL.
fn keys_of(alloc: Global, table: &Table, rows: &[Row]) -> Result<Vec<Key>, Memory>
    requires { HaveKeys table.now.shape rows.now }
    ensures { IfOk result (λ keys. keys.items ≡ map (key_of table.now.shape) rows.now) }
{
    let mut keys = Vec::new(alloc);
    let mut rest = rows;
    while let Some((row, later)) = rest.split_first() {
        let key = key_of_row(alloc, table, row)?;
        keys.push(key)?;
        rest = later;
    }
    Ok(keys)
}

/// The key of a row of a table, which is not NULL.
fn key_of_row(alloc: Global, table: &Table, row: &Row) -> Result<Key, Memory>
    requires { key_of table.now.shape row.now ≢ Value.Null }
    ensures { IfOk result (λ key. key ≡ key_of table.now.shape row.now) }
{
    let write = Write::Insert(row.copy(alloc)?);
    match written_key(alloc, table, &write)? {
        Some(key) => Ok(key),
        // Each row that says a table has its key.
        None => unreachable!(),
    }
}

/// Goes on where the keys of a new table are free, its own key first.
///
/// # Errors
///
/// As `free_own` and `free_columns`.
pub(crate) fn free_keys<D: Disk>(
    core: &mut Core<D>,
    t: TxNo,
    wait: bool,
    keys: &[Key],
) -> Result<(), Refusal>
    requires core { IsCore D.meaning core.old }
    requires online { core.old.store.offline ≡ None }
    ensures core { IsCore D.meaning core.new }
    ensures free { MatchResult result (λ _. AreFree D.meaning t keys.now core.old core.new)
        (λ refusal. FailsFree D.meaning core.old core.new t wait (length keys.now) refusal keys.now) }
{
    let Some((own, columns)) = keys.split_first() else {
        return Ok(());
    };
    let count = keys.len() as u64;
    free_own(core, t, wait, own, count)?;
    free_columns(core, t, columns, count)
}

/// Goes on where no record speaks for the key of the table's own row.
///
/// # Errors
///
/// `DuplicateKey` where the transaction sees a row of the key; what it is told of one who is in the way by the record
/// that speaks for the key; `Damaged` where nobody is, at `Catalog`, with 0 found, and with how many keys the table
/// has wanted; or what the reading is refused for.
fn free_own<D: Disk>(
    core: &mut Core<D>,
    t: TxNo,
    wait: bool,
    key: &Key,
    count: u64,
) -> Result<(), Refusal>
    requires core { IsCore D.meaning core.old }
    ensures core { IsCore D.meaning core.new }
    ensures online { OnOk result (core.new.store.offline ≡ None) }
    ensures free { MatchResult result (λ _. IsFreeKey D.meaning core.old core.new t key.now)
        (FailsOwnKey D.meaning core.old core.new t wait count key.now) }
{
    let found = read_key(core, t, key)?;
    if found.row.is_some() {
        return Err(Refusal::DuplicateKey);
    }
    if found.rec.is_none() {
        return Ok(());
    }
    core.pass_record(t, wait, found.rec)?;
    Err(out_of_place(core, 0, count))
}

/// Goes on where no record speaks for the keys of the columns' rows.
///
/// # Errors
///
/// As `free_column`, of the first key for which one does.
fn free_columns<D: Disk>(
    core: &mut Core<D>,
    t: TxNo,
    keys: &[Key],
    count: u64,
) -> Result<(), Refusal>
    requires core { IsCore D.meaning core.old }
    ensures core { IsCore D.meaning core.new }
    ensures free { MatchResult result (λ _. AreFreeKeys D.meaning t keys.now core.old core.new)
        (λ refusal. FailsColumnKeys D.meaning t count core.new refusal 1 keys.now core.old) }
{
    let mut rest = keys;
    let mut place = 1;
    while let Some((key, later)) = rest.split_first() {
        free_column(core, t, key, place, count)?;
        place += 1;
        rest = later;
    }
    Ok(())
}

/// Goes on where no record speaks for the key of a column's row.
///
/// # Errors
///
/// `Damaged` at `Catalog` where one does: found is the place of the key among those of the table, and wanted how
/// many there are; or what the reading is refused for.
fn free_column<D: Disk>(
    core: &mut Core<D>,
    t: TxNo,
    key: &Key,
    place: u64,
    count: u64,
) -> Result<(), Refusal>
    requires core { IsCore D.meaning core.old }
    ensures core { IsCore D.meaning core.new }
    ensures free { MatchResult result (λ _. IsFreeKey D.meaning core.old core.new t key.now)
        (FailsColumnKey D.meaning core.old core.new t place count key.now) }
{
    let found = read_key(core, t, key)?;
    if found.rec.is_none() {
        return Ok(());
    }
    Err(out_of_place(core, place, count))
}

/// The record of the catalog that speaks for a key, with the row that the transaction sees there.
///
/// # Errors
///
/// What the reading is refused for.
fn read_key<D: Disk>(core: &mut Core<D>, t: TxNo, key: &Key) -> Result<RowAt, Refusal>
    requires core { IsCore D.meaning core.old }
    ensures core { IsCore D.meaning core.new }
    ensures reads { MatchResult result (ReadsRow D.meaning core.old core.new t core.old.catalog key.now)
        (FailsReading D.meaning core.old core.new (WhyOfKey D.meaning core.old t core.old.catalog key.now)) }
{
    let states = StatesOf::new(&core.list);
    match row_at(
        &mut core.store,
        &core.catalog,
        key.value(),
        &states,
        &core.live,
        t,
        None,
    ) {
        Ok(found) => Ok(found),
        Err(fault) => Err(core.refuse(fault)),
    }
}

/// What is told of a record that speaks for a key which no lawful catalog has without the table's row.
fn out_of_place<D: Disk>(core: &mut Core<D>, place: u64, count: u64) -> Refusal
    requires core { IsCore D.meaning core.old }
    ensures core { IsCore D.meaning core.new }
    ensures tells { TellsOutOfPlace core.old core.new place count result }
{
    let damage = Damaged {
        page: core.catalog.pointer,
        field: Field::Catalog,
        found: place,
        wanted: count,
    };
    core.refuse(SpaceFault::Damaged(damage))
}

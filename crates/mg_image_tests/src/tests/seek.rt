//! A new database whose table KV gets some records, with their versions as bytes of the file
//! format.

ghost use Rattle.std.specs.Prelude.{◌≡◌, ◌≤◌, IfOk, length, if◌then◌else◌, ◌==◌, ◌||◌};
ghost use Rattle.mg_base.specs.MemDisk.{mem_meaning};
ghost use Rattle.mg_base.specs.declared.transaction.TxState.TheVariants.{Active, Committed, Dead};
ghost use Rattle.mg_format.specs.Format.{IsClean};
ghost use Rattle.mg_pool.specs.Pool.{IsPool};
ghost use Rattle.mg_slots.specs.DataPage.{IsDataPage};
ghost use Rattle.mg_space.specs.Taking.{IsGeometry};

use super::cases::{Case, hold_each};
use super::tables::{catalog, kv};
use mg_base::{Damaged, Disk, Field, Geometry, MemDisk, Memory, PageNo, RecId, TxNo, TxState};
use mg_chain::States;
use mg_format::format_database;
use mg_model::Table;
use mg_pool::{Batch, Pool};
use mg_seek::{obstacle_for, row_in_view, speaker, table_named, view_step};
use mg_slots::{new_data, put_cell};
use mg_snap::Live;
use mg_space::{SpaceFault, Store};
use mg_value::{Row, Value};
use std::alloc::Global;
use std::test::Fail;

/// The data page of KV.
const PAGE: PageNo = PageNo(6);

/// Transactions 0, 2 and 3 are committed, 4 is dead, and all others are active.
struct Told;

impl States for Told {
    ghost state_of = { λ s t. if t == 0 || (t == 2 || t == 3) then Committed else if t == 4 then Dead else Active };

    fn state(&self, t: TxNo) -> TxState {
        if t.0 == 0 || t.0 == 2 || t.0 == 3 {
            TxState::Committed
        } else if t.0 == 4 {
            TxState::Dead
        } else {
            TxState::Active
        }
    }
}

/// A store with a new database of 1024 bytes a page.
fn new_store(alloc: Global) -> Result<Store<MemDisk>, Fail>
    ensures pool { IfOk result (λ store. IsPool mem_meaning store) }
    ensures geometry { IfOk result (λ store. IsGeometry store.geometry) }
    ensures size { IfOk result (λ store. store.geometry.size ≡ 1024) }
    ensures limit { IfOk result (λ store. store.geometry.limit ≡ 16) }
{
    let mut store = empty_store(alloc)?;
    format_database(&mut store)?;
    Ok(store)
}

/// A store over a disk without pages.
fn empty_store(alloc: Global) -> Result<Store<MemDisk>, Memory>
    ensures pool { IfOk result (λ store. IsPool mem_meaning store) }
    ensures geometry { IfOk result (λ store. IsGeometry store.geometry) }
    ensures size { IfOk result (λ store. store.geometry.size ≡ 1024) }
    ensures limit { IfOk result (λ store. store.geometry.limit ≡ 16) }
    ensures clean { IfOk result (λ store. IsClean store) }
{
    let mut disk = MemDisk::new(alloc, 1024, 16, 16)?;
    let Ok(0) = disk.pages() else {
        return Err(Memory);
    };
    let geometry = Geometry {
        size: 1024,
        limit: 16,
    };
    match Pool::new(alloc, disk, geometry) {
        Ok(store) => Ok(store),
        Err(_) => Err(Memory),
    }
}

/// The cells of KV: a record with a dead version over a committed one, a deleted record, and one of
/// an active transaction.
const RECORDS: &[&[u8]] = &[
    // An anchor to slot 1, whose version is of transaction 4.
    &[1, 6, 0, 0, 0, 1, 0, 4, 0, 0, 0],
    // A version of K = 1, V = 11 by the dead transaction 4, over the one in slot 2.
    &[
        2, 2, 1, 0, 4, 0, 0, 0, 6, 0, 0, 0, 2, 0, 2, 0, 0, 0, 2, 0, 1, 249, 0, 1, 11, 249, 0,
    ],
    // The packed row K = 1, V = 10 by the committed transaction 2.
    &[2, 0, 1, 0, 2, 0, 0, 0, 2, 0, 1, 249, 0, 1, 10, 249, 0],
    // An anchor to slot 4, whose version is of transaction 3.
    &[1, 6, 0, 0, 0, 4, 0, 3, 0, 0, 0],
    // A deletion by the committed transaction 3, over the version in slot 5.
    &[
        2, 3, 1, 0, 3, 0, 0, 0, 6, 0, 0, 0, 5, 0, 2, 0, 0, 0, 2, 2, 2, 241, 0,
    ],
    // A version K = 2, V = 20 by the committed transaction 2.
    &[2, 0, 1, 0, 2, 0, 0, 0, 2, 0, 2, 249, 0, 1, 20, 249, 0],
    // An anchor to slot 7, whose version is of transaction 5.
    &[1, 6, 0, 0, 0, 7, 0, 5, 0, 0, 0],
    // A version K = 3, V = 30 by the active transaction 5.
    &[2, 0, 1, 0, 5, 0, 0, 0, 2, 0, 3, 249, 0, 1, 30, 249, 0],
];

/// Puts these cells into the next slots of a data page.
fn put_each(page: &mut [u8], cells: &[&'static [u8]])
    requires { IsDataPage page.old }
    ensures { length page.new ≡ length page.old }
{
    for cell in cells {
        if cell.len() < 100 {
            let _ = put_cell(page, cell);
        }
    }
}

/// The data page of KV with these cells.
fn page_of(cells: &[&'static [u8]]) -> [u8; 1024] {
    let mut page = [0u8; 1024];
    new_data(&mut page, PAGE, 5, 0);
    put_each(&mut page, cells);
    page
}

/// A store with a new database, in which KV has these cells.
fn store_with(alloc: Global, cells: &[&'static [u8]]) -> Result<Store<MemDisk>, Fail>
    ensures pool { IfOk result (λ store. IsPool mem_meaning store) }
    ensures geometry { IfOk result (λ store. IsGeometry store.geometry) }
{
    let mut store = new_store(alloc)?;
    store.change_one(PAGE, &page_of(cells), None)?;
    Ok(store)
}

/// 5 began before 3 had ended; 6 and 7 began after that.
fn bases(alloc: Global) -> Result<Live, Memory> {
    let mut live = Live::new(alloc, TxNo(3));
    live.enter(TxNo(3))?;
    live.enter(TxNo(4))?;
    live.enter(TxNo(5))?;
    live.leave(TxNo(3));
    live.leave(TxNo(4));
    live.enter(TxNo(6))?;
    Ok(live)
}

/// The record of a slot of KV.
fn record(slot: u16) -> RecId {
    RecId { page: PAGE, slot }
}

/// The number in the second column of a row, 0 where there is none.
fn value_of(row: &Option<Row>) -> i64 {
    match row {
        None => 0,
        Some(row) => match row.as_slice().get(1) {
            Some(Value::Int(number)) => *number,
            _ => 0,
        },
    }
}

/// The number in V that t sees of a record, 0 where it sees no row.
fn seen(
    store: &mut Store<MemDisk>,
    table: &Table,
    live: &Live,
    slot: u16,
    t: u32,
) -> Result<i64, SpaceFault>
    requires pool { IsPool mem_meaning store.old }
    requires geometry { IsGeometry store.old.geometry }
    requires columns { length table.now.shape.columns ≤ 64 }
    ensures pool { IsPool mem_meaning store.new }
    ensures geometry { store.new.geometry ≡ store.old.geometry }
{
    let batch = Batch::new(store.alloc());
    let row = row_in_view(store, &batch, table, record(slot), &Told, live, TxNo(t))?;
    Ok(value_of(&row))
}

/// The record that speaks for a key, by its slot: 99 where none does.
fn speaking(
    store: &mut Store<MemDisk>,
    table: &Table,
    live: &Live,
    key: i64,
) -> Result<u16, SpaceFault>
    requires pool { IsPool mem_meaning store.old }
    requires geometry { IsGeometry store.old.geometry }
    requires columns { length table.now.shape.columns ≤ 64 }
    requires pointer { table.now.pointer.0 ≡ 5 }
    ensures pool { IsPool mem_meaning store.new }
    ensures geometry { store.new.geometry ≡ store.old.geometry }
{
    let batch = Batch::new(store.alloc());
    match speaker(store, &batch, table, &Value::Int(key), &Told, live)? {
        Some(rec) => Ok(rec.slot),
        None => Ok(99),
    }
}

/// Who is in the way of t at a record, 0 where nobody is.
fn in_the_way(store: &mut Store<MemDisk>, live: &Live, slot: u16, t: u32) -> Result<u32, SpaceFault>
    requires pool { IsPool mem_meaning store.old }
    requires geometry { IsGeometry store.old.geometry }
    ensures pool { IsPool mem_meaning store.new }
    ensures geometry { store.new.geometry ≡ store.old.geometry }
{
    let batch = Batch::new(store.alloc());
    match obstacle_for(store, &batch, record(slot), &Told, live, TxNo(t))? {
        Some(found) => Ok(found.by.0),
        None => Ok(0),
    }
}

/// The record of a slot of KV, if there is a slot.
fn record_behind(after: Option<u16>) -> Option<RecId> {
    match after {
        Some(slot) => Some(record(slot)),
        None => None,
    }
}

/// A visit of a walk as transaction 6 sees it: its slot and V.
fn step(
    store: &mut Store<MemDisk>,
    table: &Table,
    live: &Live,
    after: Option<u16>,
) -> Result<Option<(u16, i64)>, SpaceFault>
    requires pool { IsPool mem_meaning store.old }
    requires geometry { IsGeometry store.old.geometry }
    requires columns { length table.now.shape.columns ≤ 64 }
    requires pointer { table.now.pointer.0 ≡ 5 }
    ensures pool { IsPool mem_meaning store.new }
    ensures geometry { store.new.geometry ≡ store.old.geometry }
{
    match view_step(store, table, &Told, live, TxNo(6), record_behind(after))? {
        Some(visit) => Ok(Some((visit.rec.slot, value_of(&visit.row)))),
        None => Ok(None),
    }
}

/// What is asked of the records of KV, and what is answered.
#[derive(Clone, Copy)]
enum Asked {
    /// The number in V that a transaction sees of the record of a slot, 0 where it sees no row.
    Seen(u16, u32, i64),
    /// The slot of the record that speaks for a key, 99 where none does.
    Speaks(i64, u16),
    /// Who is in the way of a transaction at the record of a slot, 0 where nobody is.
    InTheWay(u16, u32, u32),
    /// The visit of a walk behind the record of a slot: its slot and V.
    Step(Option<u16>, Option<(u16, i64)>),
    /// The field at which the page of KV is damaged, as transaction 6 is told at the first record,
    /// with the numbers found and wanted.
    Damaged(Field, u64, u64),
}

/// Tells whether the page of KV is damaged at this field, with these numbers found and wanted.
fn is_damaged(told: Result<i64, SpaceFault>, field: Field, found: u64, wanted: u64) -> bool {
    let damage = Damaged {
        page: PAGE,
        field,
        found,
        wanted,
    };
    told == Err(SpaceFault::Damaged(damage))
}

/// Tells whether a question is answered so.
fn answers(store: &mut Store<MemDisk>, table: &Table, live: &Live, asked: Asked) -> bool
    requires pool { IsPool mem_meaning store.old }
    requires geometry { IsGeometry store.old.geometry }
    requires columns { length table.now.shape.columns ≤ 64 }
    requires pointer { table.now.pointer.0 ≡ 5 }
    ensures pool { IsPool mem_meaning store.new }
    ensures geometry { store.new.geometry ≡ store.old.geometry }
{
    match asked {
        Asked::Seen(slot, t, value) => seen(store, table, live, slot, t) == Ok(value),
        Asked::Speaks(key, slot) => speaking(store, table, live, key) == Ok(slot),
        Asked::InTheWay(slot, t, by) => in_the_way(store, live, slot, t) == Ok(by),
        Asked::Step(after, visit) => step(store, table, live, after) == Ok(visit),
        Asked::Damaged(field, found, wanted) => {
            is_damaged(seen(store, table, live, 0, 6), field, found, wanted)
        }
    }
}

/// Tells whether each question is answered so, one after another.
fn answers_all(store: &mut Store<MemDisk>, table: &Table, live: &Live, rows: &[Asked]) -> bool
    requires pool { IsPool mem_meaning store.old }
    requires geometry { IsGeometry store.old.geometry }
    requires columns { length table.now.shape.columns ≤ 64 }
    requires pointer { table.now.pointer.0 ≡ 5 }
{
    for asked in rows {
        if !answers(store, table, live, *asked) {
            return false;
        }
    }
    true
}

/// Tells whether each question is answered so, in a database where KV has these cells.
fn are_answered(
    alloc: Global,
    cells: &[&'static [u8]],
    table: &Table,
    live: &Live,
    rows: &[Asked],
) -> Result<bool, Fail>
    requires columns { length table.now.shape.columns ≤ 64 }
    requires pointer { table.now.pointer.0 ≡ 5 }
{
    let mut store = store_with(alloc, cells)?;
    let are = answers_all(&mut store, table, live, rows);
    drop(store);
    Ok(are)
}

/// Tells whether each question of KV is answered so, where it has these cells.
fn are_answered_of_kv(
    alloc: Global,
    cells: &[&'static [u8]],
    live: &Live,
    rows: &[Asked],
) -> Result<bool, Fail> {
    let table = kv(alloc)?;
    let are = are_answered(alloc, cells, &table, live, rows);
    drop(table);
    are
}

/// The cells of KV, whether 5 has ended too, and questions that are asked of one store, with their
/// answers.
struct Looked(&'static [&'static [u8]], bool, &'static [Asked]);

impl Case for Looked {
    fn holds(&self, alloc: Global) -> Result<bool, Fail> {
        let mut live = bases(alloc)?;
        if self.1 {
            live.leave(TxNo(5));
        }
        let are = are_answered_of_kv(alloc, self.0, &live, self.2);
        drop(live);
        are
    }
}

/// An anchor to slot 1, whose version is of transaction 2.
const ANCHOR: &[u8] = &[1, 6, 0, 0, 0, 1, 0, 2, 0, 0, 0];

/// The null bits 4 are of no column: no byte of a row begins so.
const NO_ROW: &[&[u8]] = &[
    ANCHOR,
    &[2, 0, 1, 0, 2, 0, 0, 0, 2, 4, 1, 249, 0, 1, 10, 249, 0],
];

/// The control byte at 2 is none.
const NO_RUN: &[&[u8]] = &[
    ANCHOR,
    &[2, 0, 1, 0, 2, 0, 0, 0, 1, 0, 255, 1, 249, 0, 1, 10, 0],
];

const LOOKED: &[Looked] = &[
    // A row is seen through a dead version, and not through a deletion.
    Looked(
        RECORDS,
        false,
        &[
            Asked::Seen(0, 6, 10),
            Asked::Seen(3, 6, 0),
            Asked::Seen(3, 5, 20),
            Asked::Seen(6, 5, 30),
            Asked::Seen(6, 6, 0),
        ],
    ),
    // A deletion speaks as long as a base does not see it. Once 5 has ended, every base does.
    Looked(
        RECORDS,
        false,
        &[
            Asked::Speaks(1, 0),
            Asked::Speaks(2, 3),
            Asked::Speaks(3, 6),
            Asked::Speaks(4, 99),
        ],
    ),
    Looked(RECORDS, true, &[Asked::Speaks(2, 99)]),
    // An active transaction and one that committed since the base are in the way.
    Looked(
        RECORDS,
        false,
        &[
            Asked::InTheWay(0, 6, 0),
            Asked::InTheWay(3, 5, 3),
            Asked::InTheWay(3, 6, 0),
            Asked::InTheWay(6, 6, 5),
            Asked::InTheWay(6, 5, 0),
        ],
    ),
    // A walk goes on behind records without a row.
    Looked(
        RECORDS,
        false,
        &[
            Asked::Step(None, Some((0, 10))),
            Asked::Step(Some(0), Some((3, 0))),
            Asked::Step(Some(3), Some((6, 0))),
            Asked::Step(Some(6), None),
        ],
    ),
    // A body that codes no row is told at its page.
    Looked(NO_ROW, false, &[Asked::Damaged(Field::Row, 0, 17)]),
    Looked(NO_RUN, false, &[Asked::Damaged(Field::Run, 2, 9)]),
];

#[test]
fn what_is_asked_of_records_is_answered(rt: HostRuntime) -> Result<(), Fail> {
    hold_each(&rt, rt.alloc(), LOOKED)
}

/// The columns of a table that t sees, 0 where it sees none of that name.
fn columns_of(
    store: &mut Store<MemDisk>,
    catalog: &Table,
    live: &Live,
    name: &[u8],
) -> Result<usize, SpaceFault>
    requires pool { IsPool mem_meaning store.old }
    requires geometry { IsGeometry store.old.geometry }
    requires columns { length catalog.now.shape.columns ≤ 64 }
    requires pointer { catalog.now.pointer.0 ≡ 3 }
    ensures pool { IsPool mem_meaning store.new }
    ensures geometry { store.new.geometry ≡ store.old.geometry }
{
    let batch = Batch::new(store.alloc());
    match table_named(store, &batch, catalog, name, &Told, live, TxNo(6))? {
        Some(table) => Ok(table.shape.columns.as_slice().len()),
        None => Ok(0),
    }
}

/// Tells whether a table of a new database has so many columns, where its catalog is this table.
fn has_columns(
    alloc: Global,
    catalog: &Table,
    live: &Live,
    name: &[u8],
    count: usize,
) -> Result<bool, Fail>
    requires columns { length catalog.now.shape.columns ≤ 64 }
    requires pointer { catalog.now.pointer.0 ≡ 3 }
{
    let mut store = new_store(alloc)?;
    let found = columns_of(&mut store, catalog, live, name);
    drop(store);
    Ok(found == Ok(count))
}

/// Tells whether a table of a new database has so many columns, 0 where there is none of that name.
fn is_wide(alloc: Global, live: &Live, name: &[u8], count: usize) -> Result<bool, Fail> {
    let table = catalog(alloc)?;
    let is = has_columns(alloc, &table, live, name, count);
    drop(table);
    is
}

/// The name of a table, and how many columns it has in a new database.
struct Wide(&'static [u8], usize);

impl Case for Wide {
    fn holds(&self, alloc: Global) -> Result<bool, Fail> {
        let live = bases(alloc)?;
        let is = is_wide(alloc, &live, self.0, self.1);
        drop(live);
        is
    }
}

const WIDE: &[Wide] = &[Wide(b"KV", 2), Wide(b"VK", 0)];

#[test]
fn the_catalog_of_a_new_database_names_kv(rt: HostRuntime) -> Result<(), Fail> {
    hold_each(&rt, rt.alloc(), WIDE)
}

//! Records of one page, with their versions as bytes of the file format.

ghost use Rattle.std.specs.Prelude.{◌≡◌, IfOk, length, if◌then◌else◌, ◌==◌, ◌||◌};
ghost use Rattle.mg_base.specs.MemDisk.{mem_meaning};
ghost use Rattle.mg_base.specs.declared.transaction.TxState.TheVariants.{Active, Committed};
ghost use Rattle.mg_pool.specs.Pool.{IsPool};
ghost use Rattle.mg_slots.specs.DataPage.{IsDataPage};
ghost use Rattle.mg_space.specs.Taking.{IsGeometry};

use crate::tests::calls::{Begins, Bench, run_each};
use crate::tests::stores::empty_store;
use mg_base::{Damaged, Field, MemDisk, Memory, PageNo, RecId, TxNo, TxState};
use mg_chain::States;
use mg_pool::Batch;
use mg_seek::{Placed, Wanted, first_version};
use mg_slots::{new_data, put_cell};
use mg_snap::Live;
use mg_space::{SpaceFault, Store};
use std::alloc::Global;
use std::test::Fail;

/// The page of the records, and the record of its first slot.
const PAGE: PageNo = PageNo(6);

const REC: RecId = RecId {
    page: PageNo(6),
    slot: 0,
};

/// Transactions 2 and 4 are committed, and no others.
struct TwoAndFour;

impl States for TwoAndFour {
    ghost state_of = { λ s t. if t == 2 || t == 4 then Committed else Active };

    fn state(&self, t: TxNo) -> TxState {
        if t.0 == 2 || t.0 == 4 {
            TxState::Committed
        } else {
            TxState::Active
        }
    }
}

/// The cells of a record with three versions: an anchor, and the versions in slots 1 to 3.
pub type Record = [&'static [u8]; 4];

/// Puts these cells into the next slots of a data page.
fn put_each(page: &mut [u8], cells: &[&'static [u8]])
    requires { IsDataPage page.old }
    ensures { length page.new ≡ length page.old }
{
    for cell in cells {
        if cell.len() < 100 {
            let _ = put_cell(page, cell);
        }
    }
}

/// The data page of a record.
fn page_of(record: &Record) -> [u8; 1024] {
    let mut page = [0u8; 1024];
    new_data(&mut page, PAGE, 5, 0);
    put_each(&mut page, record);
    page
}

/// A store with a record.
fn store_with(alloc: Global, record: &Record) -> Result<Store<MemDisk>, Memory>
    ensures pool { IfOk result (λ store. IsPool mem_meaning store) }
    ensures geometry { IfOk result (λ store. IsGeometry store.geometry) }
{
    let mut store = empty_store(alloc, 16)?;
    match store.change_one(PAGE, &page_of(record), None) {
        Ok(()) => Ok(store),
        Err(_) => Err(Memory),
    }
}

/// 3 began after 2 had ended and before 4 was drawn, 5 is active, and 6 began after 4 had ended.
fn bases(alloc: Global) -> Result<Live, Memory> {
    let mut live = Live::new(alloc, TxNo(3));
    live.enter(TxNo(3))?;
    live.enter(TxNo(4))?;
    live.enter(TxNo(5))?;
    live.leave(TxNo(4));
    live.enter(TxNo(6))?;
    Ok(live)
}

/// The first version of the record that is wanted.
fn find(
    store: &mut Store<MemDisk>,
    live: &Live,
    wanted: Wanted,
) -> Result<Option<Placed>, SpaceFault>
    requires pool { IsPool mem_meaning store.old }
    requires geometry { IsGeometry store.old.geometry }
    ensures pool { IsPool mem_meaning store.new }
    ensures geometry { store.new.geometry ≡ store.old.geometry }
{
    let batch = Batch::new(store.alloc());
    first_version(store, &batch, REC, &TwoAndFour, live, wanted)
}

/// The version that a reader sees: the newest one where there is no reader.
fn wanted_by(reader: Option<u32>) -> Wanted {
    match reader {
        Some(t) => Wanted::SeenBy(TxNo(t)),
        None => Wanted::Any,
    }
}

/// Whose version a reader finds, 0 where it finds none.
fn found(store: &mut Store<MemDisk>, live: &Live, reader: Option<u32>) -> Result<u32, SpaceFault>
    requires pool { IsPool mem_meaning store.old }
    requires geometry { IsGeometry store.old.geometry }
    ensures pool { IsPool mem_meaning store.new }
    ensures geometry { store.new.geometry ≡ store.old.geometry }
{
    match find(store, live, wanted_by(reader))? {
        Some(found) => Ok(found.version.tx.0),
        None => Ok(0),
    }
}

/// A reader, and whose version it finds, or the damage of the page that it meets.
pub type Read = (Option<u32>, Result<u32, (Field, u64, u64)>);

fn answer_of(wanted: Result<u32, (Field, u64, u64)>) -> Result<u32, SpaceFault> {
    match wanted {
        Ok(t) => Ok(t),
        Err((field, found, wanted)) => Err(SpaceFault::Damaged(Damaged {
            page: PAGE,
            field,
            found,
            wanted,
        })),
    }
}

/// A store with a record, and those who read it.
#[derive(Drop)]
pub struct Readers {
    store: Store<MemDisk>,
    live: Live,
}

impl Bench for Readers {
    type Call = Read;

    ghost ready = { λ it. IsPool mem_meaning it.store × IsGeometry it.store.geometry };

    fn does(&mut self, _alloc: Global, read: &Read) -> bool {
        found(&mut self.store, &self.live, read.0) == answer_of(read.1)
    }
}

impl Begins for Readers {
    type From = &'static Record;

    fn begin(alloc: Global, record: &'static Record) -> Result<Readers, Memory> {
        let live = bases(alloc)?;
        Ok(Readers {
            store: store_with(alloc, record)?,
            live,
        })
    }
}

/// An anchor to slot 1, whose version is of transaction 5.
const ANCHOR: &[u8] = &[1, 6, 0, 0, 0, 1, 0, 5, 0, 0, 0];

/// A version of transaction 2 without a row.
const OLDEST: &[u8] = &[2, 0, 1, 0, 2, 0, 0, 0];

const SEEN: Record = [
    ANCHOR,
    &[2, 2, 1, 0, 5, 0, 0, 0, 6, 0, 0, 0, 2, 0, 4, 0, 0, 0],
    &[2, 2, 1, 0, 4, 0, 0, 0, 6, 0, 0, 0, 3, 0, 2, 0, 0, 0],
    OLDEST,
];

const SEEN_BY: &[Read] = &[
    (Some(3), Ok(2)),
    (Some(5), Ok(5)),
    (Some(6), Ok(4)),
    (None, Ok(5)),
];

const COMES_BACK: Record = [
    ANCHOR,
    &[2, 2, 1, 0, 5, 0, 0, 0, 6, 0, 0, 0, 2, 0, 7, 0, 0, 0],
    &[2, 2, 1, 0, 7, 0, 0, 0, 6, 0, 0, 0, 1, 0, 5, 0, 0, 0],
    OLDEST,
];

const STOPPED: &[Read] = &[(Some(3), Err((Field::Link, 6, 0))), (Some(5), Ok(5))];

const OF_ANOTHER: Record = [
    ANCHOR,
    &[2, 2, 1, 0, 5, 0, 0, 0, 6, 0, 0, 0, 2, 0, 8, 0, 0, 0],
    &[2, 2, 1, 0, 7, 0, 0, 0, 6, 0, 0, 0, 9, 0, 5, 0, 0, 0],
    OLDEST,
];

const REFUSED: &[Read] = &[(Some(3), Err((Field::Target, 7, 8)))];

const RUNS: &[(&str, &Record, &[Read])] = &[
    (
        "a transaction sees its own version and what was committed before its base",
        &SEEN,
        SEEN_BY,
    ),
    ("links that come back are refused", &COMES_BACK, STOPPED),
    (
        "a version of another transaction is refused",
        &OF_ANOTHER,
        REFUSED,
    ),
];

#[test]
fn what_a_reader_finds(rt: HostRuntime) -> Result<(), Fail> {
    run_each::<Readers>(&rt, rt.alloc(), RUNS)
}

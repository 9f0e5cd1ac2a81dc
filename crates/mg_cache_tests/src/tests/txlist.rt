//! What no clause says: that calls succeed with ample memory, and that the second transaction
//! inventory page comes with transaction 4016 where pages have 1024 bytes.

ghost use Rattle.std.specs.Bool.{OnTrue};
ghost use Rattle.std.specs.Prelude.{◌≡◌, Some, IfOk};
ghost use Rattle.mg_base.specs.MemDisk.{mem_meaning};
ghost use Rattle.mg_pool.specs.Pool.{IsPool};
ghost use Rattle.mg_space.specs.Taking.{IsGeometry};
ghost use Rattle.mg_txlist.specs.TxList.{IsTxList, TipsAreBelow};

use super::calls::{Begins, Bench, run_each};
use super::stores::{inventory_page, store_over};
use mg_base::{Disk, MemDisk, Memory, PageNo, TxNo, TxState, new_common};
use mg_header::{GREATEST_NEXT, HEADER_KIND, Header, read_header, write_header};
use mg_pool::{Batch, PoolFault};
use mg_space::{SpaceFault, Store, page_of};
use mg_tip::{new_tip, set_state};
use mg_txlist::TxList;
use std::alloc::Global;
use std::test::Fail;

/// The header, where the number 4015 is drawn next.
const HEADER: Header = Header {
    minor: 0,
    next: TxNo(4015),
    oit: TxNo(1),
    oat: TxNo(1),
    ost: TxNo(1),
    last_tip: PageNo(2),
    interval: 20_000,
    catalog: PageNo(3),
};

fn header_page() -> [u8; 1024] {
    let mut page = [0; 1024];
    new_common(&mut page, PageNo(0), HEADER_KIND, 0, 0);
    write_header(&mut page, &HEADER);
    page
}

/// The transaction inventory page: 0 and 4014 are committed.
fn states_page() -> [u8; 1024] {
    let mut page = [0; 1024];
    new_tip(&mut page, PageNo(2), 0, PageNo(0));
    set_state(&mut page, 0, TxState::Committed);
    set_state(&mut page, 4014, TxState::Committed);
    page
}

/// A page of the database of the tests, of which 4014 transactions were drawn.
fn page_of_test(n: u32) -> [u8; 1024] {
    match n {
        0 => header_page(),
        1 => inventory_page(7),
        _ => states_page(),
    }
}

/// Writes a page of the database, and tells whether it did.
fn write_page<D: Disk>(disk: &mut D, n: u32) -> bool {
    match disk.page_size() {
        Ok(1024) => disk.write(PageNo(n), &page_of_test(n)).is_ok(),
        _ => false,
    }
}

/// A store over a disk with the database.
fn new_database(alloc: Global) -> Result<Store<MemDisk>, Memory>
    ensures pool { IfOk result (λ store. IsPool mem_meaning store) }
    ensures geometry { IfOk result (λ store. IsGeometry store.geometry) }
    ensures size { IfOk result (λ store. store.geometry.size ≡ 1024) }
    ensures limit { IfOk result (λ store. store.geometry.limit ≡ 16) }
{
    let mut disk = MemDisk::new(alloc, 1024, 8, 16)?;
    for n in 0..3 {
        if !write_page(&mut disk, n) {
            return Err(Memory);
        }
    }
    let Ok(1024) = disk.page_size() else {
        return Err(Memory);
    };
    let Ok(3) = disk.pages() else {
        return Err(Memory);
    };
    store_over(alloc, disk, 16)
}

/// The last transaction inventory page that the header names, 0 where no header is read.
fn last_tip(store: &mut Store<MemDisk>) -> Result<u32, SpaceFault>
    requires pool { IsPool mem_meaning store.old }
    requires size { store.old.geometry.size ≡ 1024 }
    ensures pool { IsPool mem_meaning store.new }
    ensures geometry { store.new.geometry ≡ store.old.geometry }
{
    let batch = Batch::new(store.alloc());
    let page = page_of(store, &batch, PageNo(0))?;
    match read_header(page.as_slice(), 1024) {
        Ok(header) => Ok(header.last_tip.0),
        Err(_) => Ok(0),
    }
}

/// Draws a number, and keeps what the next call needs.
fn draw(list: &mut TxList, store: &mut Store<MemDisk>) -> Result<TxNo, SpaceFault>
    requires list { IsTxList list.old }
    requires pool { IsPool mem_meaning store.old }
    requires geometry { IsGeometry store.old.geometry }
    requires size { list.old.size ≡ store.old.geometry.size }
    requires limit { store.old.geometry.limit ≡ 16 }
    requires tips { TipsAreBelow 16 list.old }
    ensures list { IsTxList list.new }
    ensures pool { IsPool mem_meaning store.new }
    ensures geometry { store.new.geometry ≡ store.old.geometry }
    ensures size { list.new.size ≡ list.old.size }
    ensures tips { TipsAreBelow 16 list.new }
{
    if list.next().0 >= GREATEST_NEXT {
        return Err(SpaceFault::Pool(PoolFault::Memory));
    }
    list.draw(store)
}

/// Commits a number that was drawn, and keeps what the next call needs.
fn commit(list: &mut TxList, store: &mut Store<MemDisk>, t: TxNo) -> Result<(), SpaceFault>
    requires list { IsTxList list.old }
    requires pool { IsPool mem_meaning store.old }
    requires geometry { IsGeometry store.old.geometry }
    requires size { list.old.size ≡ store.old.geometry.size }
    requires limit { store.old.geometry.limit ≡ 16 }
    requires tips { TipsAreBelow 16 list.old }
    ensures list { IsTxList list.new }
    ensures pool { IsPool mem_meaning store.new }
    ensures geometry { store.new.geometry ≡ store.old.geometry }
    ensures size { list.new.size ≡ list.old.size }
    ensures tips { TipsAreBelow 16 list.new }
{
    if t.0 == 0 || t.0 >= list.next().0 {
        return Err(SpaceFault::Pool(PoolFault::Memory));
    }
    list.mark_committed(store, t)
}

/// A call of a list over its store, and what it answers.
#[derive(Clone, Copy)]
pub enum Call {
    /// This number is drawn.
    Draw(u32),
    /// A number that was drawn is committed.
    Commit(u32),
    /// The header names this page as the last transaction inventory page.
    LastTip(u32),
    /// The number that is drawn next.
    Next(u32),
    State(u32, TxState),
    /// The first number from one on that is open, below another one.
    FirstOpen(u32, u32, u32),
    /// The list is loaded anew.
    Load,
}

/// Tells whether a list answers so.
fn says(list: &TxList, call: Call) -> bool
    requires { IsTxList list.now }
{
    match call {
        Call::Next(next) => list.next() == TxNo(next),
        Call::State(t, state) => list.state(TxNo(t)) == state,
        Call::FirstOpen(from, below, t) => list.first_open(TxNo(from), TxNo(below)) == TxNo(t),
        _ => false,
    }
}

/// A list over its store.
#[derive(Drop)]
pub struct Listed {
    list: TxList,
    store: Store<MemDisk>,
}

/// Loads the list anew, and tells whether it can.
fn load(listed: &mut Listed) -> bool
    requires pool { IsPool mem_meaning listed.old.store }
    requires geometry { IsGeometry listed.old.store.geometry }
    requires size { listed.old.store.geometry.size ≡ 1024 }
    requires limit { listed.old.store.geometry.limit ≡ 16 }
    ensures list { OnTrue result (IsTxList listed.new.list) }
    ensures list_size { OnTrue result (listed.new.list.size ≡ 1024) }
    ensures tips { OnTrue result (TipsAreBelow 16 listed.new.list) }
    ensures pool { IsPool mem_meaning listed.new.store }
    ensures geometry { listed.new.store.geometry ≡ listed.old.store.geometry }
{
    match TxList::load(&mut listed.store) {
        Ok(list) => {
            listed.list = list;
            true
        }
        Err(_) => false,
    }
}

impl Bench for Listed {
    type Call = Call;

    ghost ready = { λ it. IsTxList it.list × (it.list.size ≡ 1024)
        × IsPool mem_meaning it.store × IsGeometry it.store.geometry
        × (it.store.geometry.size ≡ 1024) × (it.store.geometry.limit ≡ 16)
        × TipsAreBelow 16 it.list };

    fn does(&mut self, _alloc: Global, call: &Call) -> bool {
        match *call {
            Call::Draw(t) => draw(&mut self.list, &mut self.store) == Ok(TxNo(t)),
            Call::Commit(t) => commit(&mut self.list, &mut self.store, TxNo(t)) == Ok(()),
            Call::LastTip(page) => last_tip(&mut self.store) == Ok(page),
            Call::Load => load(self),
            _ => says(&self.list, *call),
        }
    }
}

impl Begins for Listed {
    type From = ();

    fn begin(alloc: Global, _from: ()) -> Result<Listed, Memory> {
        let mut store = new_database(alloc)?;
        match TxList::load(&mut store) {
            Ok(list) => Ok(Listed { list, store }),
            Err(_) => Err(Memory),
        }
    }
}

const DRAWN: &[Call] = &[
    Call::State(4014, TxState::Committed),
    Call::Draw(4015),
    Call::LastTip(2),
    Call::Draw(4016),
    Call::LastTip(7),
    Call::State(4016, TxState::Active),
    Call::Commit(4016),
    Call::FirstOpen(4014, 4017, 4015),
    Call::Load,
    Call::Next(4017),
    Call::State(4014, TxState::Committed),
    Call::State(4015, TxState::Dead),
    Call::State(4016, TxState::Committed),
];

const RUNS: &[(&str, (), &[Call])] = &[("transaction 4016 takes the second page", (), DRAWN)];

#[test]
fn transaction_4016_takes_the_second_page(rt: HostRuntime) -> Result<(), Fail> {
    run_each::<Listed>(&rt, rt.alloc(), RUNS)
}

//! What is done to a store: each batch by the calls that make it for the program.

ghost use Rattle.std.specs.Prelude.{◌≡◌, ◌≤◌, false, IfOk, Some, length};
ghost use Rattle.mg_base.specs.MemDisk.{mem_meaning};
ghost use Rattle.mg_format.specs.Format.{IsClean};
ghost use Rattle.mg_pool.specs.Pool.{HasAtMost, IsPool};
ghost use Rattle.mg_space.specs.Taking.{IsGeometry};

use crate::reading::{Deed, Verb};
use crate::tables::{catalog, one_column};
use mg_base::{Bytes, Disk, Geometry, MemDisk, Memory, PageNo, RecId, TxNo, put_u32};
use mg_batches::change_batch;
use mg_btree::insert;
use mg_format::format_database;
use mg_header::{GREATEST_NEXT, NEXT_AT};
use mg_heap::add;
use mg_node::Entry;
use mg_node_writing::new_node;
use mg_pip::{new_pip, set_used};
use mg_pool::{Batch, Pool, PoolFault};
use mg_row_writes::{make_first, push_over, replace_newest, take_newest_out, take_place};
use mg_space::{SpaceFault, Store, page_of, take_page};
use mg_table_batch::make_table;
use mg_txlist::TxList;
use mg_value::Name;
use mg_version::Version;
use std::alloc::Global;

/// How many pages a disk has room for at most: those of the first region, and some more.
pub const MOST_ROOM: u32 = 8100;

/// How many pages a disk has room for on which nothing but some records are written, and on which a pointer page is
/// filled.
const ROOM: u32 = 24;

const LARGE_ROOM: u32 = 300;

/// How many page writes a disk keeps: those of the deeds, and those of a copy alone.
const RECORD: u32 = 400;

const COPY_RECORD: u32 = 24;

/// The pages of the first region.
const REGION: u32 = 8064;

/// The first pointer page of the table KV.
pub const KV: PageNo = PageNo(5);

/// What earlier deeds have made: the number that was drawn last, the record, and the root of a tree.
#[derive(Clone, Copy)]
pub struct Past {
    pub t: TxNo,
    pub rec: RecId,
    pub tree: PageNo,
}

/// Nothing was made yet.
pub const NOTHING: Past = Past {
    t: TxNo(0),
    rec: RecId {
        page: PageNo(0),
        slot: 0,
    },
    tree: PageNo(0),
};

/// A store with a new database of 1024 bytes a page, on a disk with the room that the deeds take.
///
/// # Errors
///
/// For want of memory.
pub fn new_store(alloc: Global, deeds: &[Deed]) -> Result<Store<MemDisk>, SpaceFault>
    ensures pool { IfOk result (λ store. IsPool mem_meaning store) }
    ensures geometry { IfOk result (λ store. IsGeometry store.geometry) }
    ensures size { IfOk result (λ store. store.geometry.size ≡ 1024) }
    ensures room { IfOk result (λ store. 7 ≤ store.geometry.limit) }
{
    let mut store = blank_store(alloc, room_for(deeds))?;
    format_database(&mut store)?;
    Ok(store)
}

// How many pages a disk has room for on which the deeds are done.
fn room_for(deeds: &[Deed]) -> u32
    ensures most { result ≤ 8100 }
    ensures least { 7 ≤ result }
{
    for deed in deeds {
        if deed.verb == Verb::Used {
            return MOST_ROOM;
        }
    }
    for deed in deeds {
        if deed.verb == Verb::Add && deed.numbers[0] > 10 {
            return LARGE_ROOM;
        }
    }
    ROOM
}

// A store over a disk without pages.
fn blank_store(alloc: Global, room: u32) -> Result<Store<MemDisk>, Memory>
    requires { room ≤ 8100 }
    ensures pool { IfOk result (λ store. IsPool mem_meaning store) }
    ensures geometry { IfOk result (λ store. IsGeometry store.geometry) }
    ensures size { IfOk result (λ store. store.geometry.size ≡ 1024) }
    ensures limit { IfOk result (λ store. store.geometry.limit ≡ room) }
    ensures clean { IfOk result (λ store. IsClean store) }
{
    let mut disk = MemDisk::new(alloc, 1024, room, RECORD)?;
    let Ok(0) = disk.pages() else {
        return Err(Memory);
    };
    let geometry = Geometry {
        size: 1024,
        limit: room,
    };
    match Pool::new(alloc, disk, geometry) {
        Ok(store) => Ok(store),
        Err(_) => Err(Memory),
    }
}

/// A store over a copy of a disk.
///
/// # Errors
///
/// For want of memory.
pub fn store_on(alloc: Global, disk: &MemDisk) -> Result<Store<MemDisk>, Memory>
    ensures pool { IfOk result (λ store. IsPool mem_meaning store) }
    ensures geometry { IfOk result (λ store. IsGeometry store.geometry) }
    ensures size { IfOk result (λ store. store.geometry.size ≡ 1024) }
{
    if disk.writes() > 100_000 {
        return Err(Memory);
    }
    let mut copy = disk.after(alloc, disk.writes() as u32, COPY_RECORD)?;
    let Ok(1024) = copy.page_size() else {
        return Err(Memory);
    };
    let Ok(pages) = copy.pages() else {
        return Err(Memory);
    };
    if pages > MOST_ROOM {
        return Err(Memory);
    }
    store_over(alloc, copy)
}

// A store over a disk.
fn store_over(alloc: Global, disk: MemDisk) -> Result<Store<MemDisk>, Memory>
    requires size { mem_meaning.size disk ≡ Some 1024 }
    requires within { HasAtMost mem_meaning disk 8100 }
    ensures pool { IfOk result (λ store. IsPool mem_meaning store) }
    ensures geometry { IfOk result (λ store. IsGeometry store.geometry) }
    ensures size { IfOk result (λ store. store.geometry.size ≡ 1024) }
{
    let geometry = Geometry {
        size: 1024,
        limit: MOST_ROOM,
    };
    match Pool::new(alloc, disk, geometry) {
        Ok(store) => Ok(store),
        Err(_) => Err(Memory),
    }
}

/// Does what the deeds say, one after another, and tells what they and earlier ones have made.
///
/// # Errors
///
/// What a call is refused for.
pub fn play(store: &mut Store<MemDisk>, past: Past, deeds: &[Deed]) -> Result<Past, SpaceFault>
    requires pool { IsPool mem_meaning store.old }
    requires geometry { IsGeometry store.old.geometry }
    requires size { store.old.geometry.size ≡ 1024 }
    ensures pool { IsPool mem_meaning store.new }
    ensures geometry { store.new.geometry ≡ store.old.geometry }
{
    let mut past = past;
    for deed in deeds {
        past = act(store, past, *deed)?;
    }
    Ok(past)
}

// Does what a deed says.
fn act(store: &mut Store<MemDisk>, past: Past, deed: Deed) -> Result<Past, SpaceFault>
    requires pool { IsPool mem_meaning store.old }
    requires geometry { IsGeometry store.old.geometry }
    requires size { store.old.geometry.size ≡ 1024 }
    ensures pool { IsPool mem_meaning store.new }
    ensures geometry { store.new.geometry ≡ store.old.geometry }
{
    match deed.verb {
        Verb::Draw => draw(store, past, deed.numbers[0]),
        Verb::Spot => spot(store, past),
        Verb::Tree => plant(store, past),
        _ => {
            work(store, past, deed)?;
            Ok(past)
        }
    }
}

// Does what a deed says that makes nothing for later ones.
fn work(store: &mut Store<MemDisk>, past: Past, deed: Deed) -> Result<(), SpaceFault>
    requires pool { IsPool mem_meaning store.old }
    requires geometry { IsGeometry store.old.geometry }
    requires size { store.old.geometry.size ≡ 1024 }
    ensures pool { IsPool mem_meaning store.new }
    ensures geometry { store.new.geometry ≡ store.old.geometry }
{
    let [a, b] = deed.numbers;
    match deed.verb {
        Verb::Used => use_pages(store, a),
        Verb::Next => put_next(store, a),
        Verb::Settle => settle(store),
        Verb::Add => add_cells(store, a, b),
        Verb::Table => table(store, past.t),
        Verb::Commit => commit(store, past.t),
        Verb::Entry => put_entry(store, past.tree, a, b),
        _ => write(store, past, deed.verb, a),
    }
}

// Writes a version of the last number into the record, or takes one out.
fn write(store: &mut Store<MemDisk>, past: Past, verb: Verb, len: u32) -> Result<(), SpaceFault>
    requires pool { IsPool mem_meaning store.old }
    requires geometry { IsGeometry store.old.geometry }
    requires size { store.old.geometry.size ≡ 1024 }
    ensures pool { IsPool mem_meaning store.new }
    ensures geometry { store.new.geometry ≡ store.old.geometry }
{
    let v = version(store.alloc(), past.t, len.min(900) as usize)?;
    match verb {
        Verb::First => make_first(store, KV, past.rec, &v),
        Verb::Push => push_over(store, past.rec, &v),
        Verb::Replace => replace_newest(store, past.rec, &v),
        Verb::Out => take_newest_out(store, past.rec),
        _ => Ok(()),
    }
}

// A version of a transaction, with a body of so many bytes.
fn version(alloc: Global, t: TxNo, len: usize) -> Result<Version, Memory>
    requires { len ≤ 900 }
    ensures apart { IfOk result (λ v. v.primary ≡ false) }
    ensures format { IfOk result (λ v. v.format ≡ 1) }
    ensures body { IfOk result (λ v. length v.body ≡ len) }
{
    Ok(Version {
        primary: false,
        deleted: false,
        format: 1,
        tx: t,
        back: None,
        body: Bytes::new(vec![in alloc; 7u8; len]?),
    })
}

// Says of the first pages that they are used.
fn use_pages(store: &mut Store<MemDisk>, count: u32) -> Result<(), SpaceFault>
    requires pool { IsPool mem_meaning store.old }
    requires size { store.old.geometry.size ≡ 1024 }
    ensures pool { IsPool mem_meaning store.new }
    ensures geometry { store.new.geometry ≡ store.old.geometry }
{
    let mut page = [0u8; 1024];
    new_pip(&mut page, PageNo(1), 0);
    for bit in 0..count.min(REGION) {
        set_used(&mut page, bit, true);
    }
    if store.geometry().limit <= 1 {
        return Err(SpaceFault::Pool(PoolFault::Memory));
    }
    store.change_one(PageNo(1), &page, None)?;
    Ok(())
}

// Says in the header which number is the next one.
fn put_next(store: &mut Store<MemDisk>, next: u32) -> Result<(), SpaceFault>
    requires pool { IsPool mem_meaning store.old }
    requires geometry { IsGeometry store.old.geometry }
    requires size { store.old.geometry.size ≡ 1024 }
    ensures pool { IsPool mem_meaning store.new }
    ensures geometry { store.new.geometry ≡ store.old.geometry }
{
    let batch = Batch::new(store.alloc());
    let mut page = page_of(store, &batch, PageNo(0))?.into_vec();
    put_u32(&mut page, NEXT_AT, next);
    if store.geometry().limit == 0 {
        return Err(SpaceFault::Pool(PoolFault::Memory));
    }
    store.change_one(PageNo(0), &page, None)?;
    Ok(())
}

/// Writes all dirty pages.
///
/// # Errors
///
/// As a page write.
pub fn settle(store: &mut Store<MemDisk>) -> Result<(), SpaceFault>
    requires pool { IsPool mem_meaning store.old }
    ensures pool { IsPool mem_meaning store.new }
    ensures geometry { store.new.geometry ≡ store.old.geometry }
{
    for _ in 0..RECORD {
        let Some(page) = store.least_dirty() else {
            return Ok(());
        };
        store.write_one(page)?;
    }
    Ok(())
}

// Draws so many numbers.
fn draw(store: &mut Store<MemDisk>, past: Past, count: u32) -> Result<Past, SpaceFault>
    requires pool { IsPool mem_meaning store.old }
    requires geometry { IsGeometry store.old.geometry }
    ensures pool { IsPool mem_meaning store.new }
    ensures geometry { store.new.geometry ≡ store.old.geometry }
{
    let mut t = past.t;
    for _ in 0..count {
        t = draw_one(store)?;
    }
    Ok(Past {
        t,
        rec: past.rec,
        tree: past.tree,
    })
}

// Draws the next number.
fn draw_one(store: &mut Store<MemDisk>) -> Result<TxNo, SpaceFault>
    requires pool { IsPool mem_meaning store.old }
    requires geometry { IsGeometry store.old.geometry }
    ensures pool { IsPool mem_meaning store.new }
    ensures geometry { store.new.geometry ≡ store.old.geometry }
{
    let mut list = TxList::load(store)?;
    if list.next().0 >= GREATEST_NEXT {
        return Err(SpaceFault::Pool(PoolFault::Memory));
    }
    match list.draw(store) {
        Ok(t) => Ok(t),
        Err(fault) => Err(fault),
    }
}

// Sets the bits of a transaction, which are written at once.
fn commit(store: &mut Store<MemDisk>, t: TxNo) -> Result<(), SpaceFault>
    requires pool { IsPool mem_meaning store.old }
    requires geometry { IsGeometry store.old.geometry }
    ensures pool { IsPool mem_meaning store.new }
    ensures geometry { store.new.geometry ≡ store.old.geometry }
{
    let mut list = TxList::load(store)?;
    if t.0 == 0 || t.0 >= list.next().0 {
        return Err(SpaceFault::Pool(PoolFault::Memory));
    }
    match list.mark_committed(store, t) {
        Ok(()) => Ok(()),
        Err(fault) => Err(fault),
    }
}

// Adds so many cells of so many bytes to KV, each in a batch of its own.
fn add_cells(store: &mut Store<MemDisk>, count: u32, len: u32) -> Result<(), SpaceFault>
    requires pool { IsPool mem_meaning store.old }
    requires geometry { IsGeometry store.old.geometry }
    requires size { store.old.geometry.size ≡ 1024 }
    ensures pool { IsPool mem_meaning store.new }
    ensures geometry { store.new.geometry ≡ store.old.geometry }
{
    for _ in 0..count {
        add_one(store, len.min(1000) as usize)?;
    }
    Ok(())
}

// Adds a cell, which is a version outside any record.
fn add_one(store: &mut Store<MemDisk>, len: usize) -> Result<(), SpaceFault>
    requires pool { IsPool mem_meaning store.old }
    requires geometry { IsGeometry store.old.geometry }
    requires size { store.old.geometry.size ≡ 1024 }
    requires len { len ≤ 1000 }
    ensures pool { IsPool mem_meaning store.new }
    ensures geometry { store.new.geometry ≡ store.old.geometry }
{
    let cell = vec![in store.alloc(); 2u8; len]?;
    let mut batch = Batch::new(store.alloc());
    add(store, &mut batch, KV, &cell)?;
    change_batch(store, batch)
}

// Takes a place for a record.
fn spot(store: &mut Store<MemDisk>, past: Past) -> Result<Past, SpaceFault>
    requires pool { IsPool mem_meaning store.old }
    requires geometry { IsGeometry store.old.geometry }
    ensures pool { IsPool mem_meaning store.new }
    ensures geometry { store.new.geometry ≡ store.old.geometry }
{
    let rec = take_place(store, KV)?;
    Ok(Past {
        t: past.t,
        rec,
        tree: past.tree,
    })
}

// Makes the table T.
fn table(store: &mut Store<MemDisk>, t: TxNo) -> Result<(), SpaceFault>
    requires pool { IsPool mem_meaning store.old }
    requires geometry { IsGeometry store.old.geometry }
    ensures pool { IsPool mem_meaning store.new }
    ensures geometry { store.new.geometry ≡ store.old.geometry }
{
    let Some(name) = Name::new(b"T") else {
        return Ok(());
    };
    let rows = catalog(store.alloc())?;
    let shape = one_column(store.alloc())?;
    match make_table(store, &rows, t, &name, &shape) {
        Ok(()) => Ok(()),
        Err(fault) => Err(fault),
    }
}

// Makes a tree without entries, for KV.
fn plant(store: &mut Store<MemDisk>, past: Past) -> Result<Past, SpaceFault>
    requires pool { IsPool mem_meaning store.old }
    requires geometry { IsGeometry store.old.geometry }
    requires size { store.old.geometry.size ≡ 1024 }
    ensures pool { IsPool mem_meaning store.new }
    ensures geometry { store.new.geometry ≡ store.old.geometry }
{
    let mut batch = Batch::new(store.alloc());
    let tree = take_page(store, &mut batch)?;
    let mut root = [0u8; 1024];
    new_node(&mut root, tree, KV.0, 0);
    batch.put(tree, &root)?;
    change_batch(store, batch)?;
    Ok(Past {
        t: past.t,
        rec: past.rec,
        tree,
    })
}

// Puts an entry into the tree: a key of so many equal bytes.
fn put_entry(
    store: &mut Store<MemDisk>,
    tree: PageNo,
    byte: u32,
    len: u32,
) -> Result<(), SpaceFault>
    requires pool { IsPool mem_meaning store.old }
    requires geometry { IsGeometry store.old.geometry }
    requires size { store.old.geometry.size ≡ 1024 }
    ensures pool { IsPool mem_meaning store.new }
    ensures geometry { store.new.geometry ≡ store.old.geometry }
{
    let e = entry_of(store.alloc(), byte.min(255) as u8, len.min(120) as usize)?;
    let mut batch = Batch::new(store.alloc());
    insert(store, &mut batch, tree, &e)?;
    change_batch(store, batch)
}

// The entry of a key of so many equal bytes.
fn entry_of(alloc: Global, byte: u8, len: usize) -> Result<Entry, Memory>
    ensures child { IfOk result (λ e. e.child.0 ≡ 0) }
    ensures len { IfOk result (λ e. length e.key ≡ len) }
{
    Ok(Entry {
        key: Bytes::new(vec![in alloc; byte; len]?),
        rec: RecId {
            page: PageNo(6),
            slot: u16::from(byte),
        },
        child: PageNo(0),
    })
}

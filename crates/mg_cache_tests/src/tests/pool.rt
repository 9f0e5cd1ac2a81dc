//! What no clause says: that calls succeed with ample memory, and whole runs with their writes.

ghost use Rattle.std.specs.Bool.{OnTrue};
ghost use Rattle.std.specs.Prelude.{◌≡◌, ◌≢◌, ◌<◌, [], Some, None, IfOk, true, length};
ghost use Rattle.mg_pool.specs.Pool.{HasAtMost, IsPool};

use super::calls::{Begins, Bench, go_on, run_each};
use super::disks::read_page;
use super::stores::new_disk;
use mg_base::{Disk, FaultyDisk, Geometry, MemDisk, Memory, PageNo};
use mg_careful::{Demand, Links, Order};
use mg_pool::{BATCH_PAGES, Batch, DIRTY_PAGES, MARKERS, Pool, PoolFault};
use mg_space::SpaceFault;
use std::alloc::Global;
use std::process::Abort;
use std::test::Fail;

/// Pages that demand nothing of each other.
pub struct Unlinked;

impl Links for Unlinked {
    ghost demands_of = { λ b want. [] };

    ghost meets_of = { λ b want. true };

    ghost lawful_of = { λ page b. Unit {0} };

    fn demands(_b: &[u8], _want: &Demand, _out: &mut Vec<Demand>) -> Result<(), Memory> {
        Ok(())
    }

    fn meets(_b: &[u8], _want: &Demand) -> bool {
        true
    }

    fn is_lawful(_page: u32, _b: &[u8]) -> bool {
        true
    }
}

/// A pool over a disk with pages of 1024 bytes.
fn pool_over<D: Disk + Drop>(alloc: Global, disk: D) -> Result<Pool<D, Unlinked>, Memory>
    requires size { D.meaning.size disk ≡ Some 1024 }
    requires within { HasAtMost D.meaning disk 2048 }
    ensures pool { IfOk result (λ pool. IsPool D.meaning pool) }
    ensures size { IfOk result (λ pool. pool.geometry.size ≡ 1024) }
{
    let geometry = Geometry {
        size: 1024,
        limit: 2048,
    };
    match Pool::new(alloc, disk, geometry) {
        Ok(pool) => Ok(pool),
        Err(_) => Err(Memory),
    }
}

/// Changes two pages at once, the one ordered before the other.
fn put_in_order<D: Disk>(
    alloc: Global,
    pool: &mut Pool<D, Unlinked>,
    order: Order,
    bytes: &[u8],
) -> Result<(), SpaceFault>
    requires pool { IsPool D.meaning pool.old }
    requires whole { length bytes.now ≡ pool.old.geometry.size }
    requires apart { order.first ≢ order.later }
    requires first { order.first < pool.old.geometry.limit }
    requires later { order.later < pool.old.geometry.limit }
    ensures pool { IsPool D.meaning pool.new }
    ensures geometry { pool.new.geometry ≡ pool.old.geometry }
{
    let mut batch = Batch::new(alloc);
    batch.put(PageNo(order.first), bytes)?;
    batch.put(PageNo(order.later), bytes)?;
    batch.order(order)?;
    pool.change(batch)?;
    Ok(())
}

/// Changes two pages at once to equal bytes, the first ordered before the second, and tells whether
/// they are two.
fn order_two<D: Disk>(
    alloc: Global,
    pool: &mut Pool<D, Unlinked>,
    first: u32,
    later: u32,
    byte: u8,
) -> bool
    requires pool { IsPool D.meaning pool.old }
    requires size { pool.old.geometry.size ≡ 1024 }
    ensures pool { IsPool D.meaning pool.new }
    ensures geometry { pool.new.geometry ≡ pool.old.geometry }
{
    let limit = pool.geometry().limit;
    if first == later || first >= limit || later >= limit {
        return false;
    }
    put_in_order(alloc, pool, Order { first, later }, &[byte; 1024]).is_ok()
}

/// Changes a page to equal bytes, after another one where there is one to be written first.
fn change<D: Disk>(
    pool: &mut Pool<D, Unlinked>,
    page: u32,
    byte: u8,
    first: Option<u32>,
) -> Result<(), PoolFault>
    requires pool { IsPool D.meaning pool.old }
    requires size { pool.old.geometry.size ≡ 1024 }
    ensures pool { IsPool D.meaning pool.new }
    ensures geometry { pool.new.geometry ≡ pool.old.geometry }
{
    if page >= pool.geometry().limit {
        return Err(PoolFault::Memory);
    }
    pool.change_one(PageNo(page), &[byte; 1024], before(page, first))
}

/// The page that has to be written before another one: none where it is that one.
fn before(page: u32, first: Option<u32>) -> Option<PageNo>
    ensures { result ≢ Some (record { 0 = page }) }
{
    let Some(first) = first else {
        return None;
    };
    if first == page {
        return None;
    }
    Some(PageNo(first))
}

/// Changes each page from 1 to the one before this to bytes 1.
fn change_each<D: Disk>(pool: &mut Pool<D, Unlinked>, end: u32) -> Result<(), PoolFault>
    requires pool { IsPool D.meaning pool.old }
    requires size { pool.old.geometry.size ≡ 1024 }
    ensures pool { IsPool D.meaning pool.new }
    ensures geometry { pool.new.geometry ≡ pool.old.geometry }
{
    for page in 1..end {
        change(pool, page, 1, None)?;
    }
    Ok(())
}

/// Writes all dirty pages.
fn write_each<D: Disk>(pool: &mut Pool<D, Unlinked>) -> Result<(), PoolFault>
    requires pool { IsPool D.meaning pool.old }
    ensures pool { IsPool D.meaning pool.new }
    ensures geometry { pool.new.geometry ≡ pool.old.geometry }
{
    for _ in 0..1000 {
        let Some(page) = pool.least_dirty() else {
            return Ok(());
        };
        pool.write_one(page)?;
    }
    Ok(())
}

/// Writes a page, or what precedes it, and answers which one it was: 0 where the page is not dirty.
fn write<D: Disk>(pool: &mut Pool<D, Unlinked>, goal: u32) -> Result<u32, PoolFault>
    requires pool { IsPool D.meaning pool.old }
    ensures pool { IsPool D.meaning pool.new }
    ensures geometry { pool.new.geometry ≡ pool.old.geometry }
{
    if !pool.is_dirty(PageNo(goal)) {
        return Ok(0);
    }
    Ok(pool.write_one(PageNo(goal))?.0)
}

/// Reads a page, and answers how many bytes it has then.
fn fetch<D: Disk>(pool: &mut Pool<D, Unlinked>, page: u32) -> Result<usize, PoolFault>
    requires pool { IsPool D.meaning pool.old }
    ensures pool { IsPool D.meaning pool.new }
    ensures geometry { pool.new.geometry ≡ pool.old.geometry }
{
    pool.fetch(PageNo(page))?;
    Ok(pool.bytes(PageNo(page)).unwrap_or(&[]).len())
}

fn settle<D: Disk>(pool: &mut Pool<D, Unlinked>) -> Result<(), PoolFault>
    requires pool { IsPool D.meaning pool.old }
    ensures pool { IsPool D.meaning pool.new }
    ensures geometry { pool.new.geometry ≡ pool.old.geometry }
{
    pool.settle()
}

/// The page that a record points to: 0 stands for none.
fn pointed(next: u8) -> Option<u32> {
    if next == 0 {
        return None;
    }
    Some(u32::from(next))
}

/// Changes a page to a record that points to another page: its own number, and that page's.
fn put_record<D: Disk>(pool: &mut Pool<D, Unlinked>, own: u8, next: u8) -> Result<(), PoolFault>
    requires pool { IsPool D.meaning pool.old }
    requires size { pool.old.geometry.size ≡ 1024 }
    ensures pool { IsPool D.meaning pool.new }
    ensures geometry { pool.new.geometry ≡ pool.old.geometry }
{
    let page = u32::from(own);
    let mut bytes = [0; 1024];
    bytes[0] = own;
    bytes[1] = next;
    if page >= pool.geometry().limit {
        return Err(PoolFault::Memory);
    }
    pool.change_one(PageNo(page), &bytes, before(page, pointed(next)))
}

/// A call of a pool, and what it answers.
#[derive(Clone, Copy)]
pub enum Call {
    /// Two pages are changed at once to equal bytes, the first ordered before the second.
    Ordered(u32, u32, u8),
    /// A page is changed to equal bytes, after another one where there is one to be written first.
    Change(u32, u8, Option<u32>),
    /// Each page from 1 to the one before this is changed.
    ChangeEach(u32),
    /// The record of a page is changed to one that points to another page.
    Record(u8, u8),
    /// A page is dirty or not.
    Dirty(u32, bool),
    /// A page is written, or what precedes it: the page that it was.
    Write(u32, u32),
    /// All dirty pages are written.
    WriteEach(Result<(), PoolFault>),
    /// A page is read, and has so many bytes.
    Fetch(u32, Result<usize, PoolFault>),
    Settle(Result<(), PoolFault>),
}

/// A pool over a disk of which some calls may fail.
type Cache = Pool<FaultyDisk, Unlinked>;

impl Bench for Cache {
    type Call = Call;

    ghost ready = { λ pool. IsPool ⟦<FaultyDisk as Disk>⟧.meaning pool × (pool.geometry.size ≡ 1024) };

    fn does(&mut self, alloc: Global, call: &Call) -> bool {
        match *call {
            Call::Ordered(first, later, byte) => order_two(alloc, self, first, later, byte),
            Call::Change(page, byte, first) => change(self, page, byte, first).is_ok(),
            Call::ChangeEach(end) => change_each(self, end).is_ok(),
            Call::Record(own, next) => put_record(self, own, next).is_ok(),
            Call::Dirty(page, is) => self.is_dirty(PageNo(page)) == is,
            Call::Write(goal, page) => write(self, goal) == Ok(page),
            Call::WriteEach(wanted) => write_each(self) == wanted,
            Call::Fetch(page, wanted) => fetch(self, page) == wanted,
            Call::Settle(wanted) => settle(self) == wanted,
        }
    }
}

impl Begins for Cache {
    /// How many pages the disk may have, and which of its calls fail.
    type From = (u32, &'static [u32]);

    fn begin(alloc: Global, from: (u32, &'static [u32])) -> Result<Cache, Memory> {
        let (pages, bad) = from;
        let disk = new_disk(alloc, pages)?;
        let bad = Vec::from_slice(alloc, bad)?;
        pool_over(alloc, FaultyDisk::new(disk, bad))
    }
}

/// The disk of so many pages, below a pool that has done these calls.
fn disk_after(
    rt: &impl Abort,
    alloc: Global,
    shows: &str,
    pages: u32,
    calls: &[Call],
) -> Result<MemDisk, Fail> {
    let mut pool = Cache::begin(alloc, (pages, &[]))?;
    go_on(rt, alloc, &mut pool, shows, calls)?;
    Ok(pool.into_disk().into_inner())
}

/// What is found on a disk.
#[derive(Clone, Copy)]
pub enum Found {
    /// So many pages were written.
    Writes(usize),
    /// The first byte of a page.
    Byte(u32, u8),
    /// Each record pointed to a record after so many page writes.
    Resolves(u32),
}

impl Bench for MemDisk {
    type Call = Found;

    ghost ready = { λ disk. Unit {0} };

    fn does(&mut self, alloc: Global, found: &Found) -> bool {
        match *found {
            Found::Writes(count) => self.writes() == count,
            Found::Byte(page, byte) => byte_of(self, page, 0) == Some(byte),
            Found::Resolves(writes) => resolves_after(alloc, self, writes) == Ok(true),
        }
    }
}

/// Wants the disk of so many pages to be found so, below a pool that has done these calls.
fn leaves(
    rt: &impl Abort,
    alloc: Global,
    shows: &str,
    pages: u32,
    calls: &[Call],
    found: &[Found],
) -> Result<(), Fail> {
    let mut disk = disk_after(rt, alloc, shows, pages, calls)?;
    go_on(rt, alloc, &mut disk, shows, found)
}

/// A byte of a page of a disk.
fn byte_of<D: Disk>(disk: &mut D, page: u32, at: usize) -> Option<u8> {
    read_page(disk, page)?.get(at).copied()
}

/// Tells whether each record of a disk points to a record or to nothing.
fn resolves<D: Disk>(disk: &mut D) -> bool {
    for page in 1u8..7 {
        let own = byte_of(disk, u32::from(page), 0).unwrap_or(0);
        let next = byte_of(disk, u32::from(page), 1).unwrap_or(0);
        let target = byte_of(disk, u32::from(next), 0).unwrap_or(0);
        if own == page && next != 0 && target != next {
            return false;
        }
    }
    true
}

/// Tells whether each record points to a record after so many page writes of a disk.
fn resolves_after(alloc: Global, disk: &MemDisk, writes: u32) -> Result<bool, Memory> {
    if writes >= 1000 {
        return Ok(false);
    }
    if writes as usize <= disk.writes() {
        return Ok(resolves(&mut disk.after(alloc, writes, 1)?));
    }
    Ok(false)
}

#[test]
fn a_pool_has_512_dirty_pages_256_in_a_batch_and_32_marks(rt: HostRuntime) {
    assert!(rt; DIRTY_PAGES == 512 && BATCH_PAGES == 256 && MARKERS == 32);
}

/// Page 7 is written with its first content, and then page 8 has to go before it.
const CYCLE: &[Call] = &[
    Call::Ordered(7, 8, 1),
    Call::Dirty(7, true),
    Call::Dirty(8, true),
    Call::Ordered(8, 7, 2),
    Call::Dirty(7, true),
    Call::Write(7, 8),
];

const WRITTEN: &[Found] = &[Found::Writes(2), Found::Byte(7, 1), Found::Byte(8, 2)];

const PAST_THE_END: &[Call] = &[
    Call::Change(6, 1, None),
    Call::WriteEach(Ok(())),
    Call::Fetch(9, Err(PoolFault::Absent { pages: 7 })),
    Call::Fetch(6, Ok(1024)),
];

const FAILED: &[Call] = &[
    Call::Change(6, 1, None),
    Call::WriteEach(Err(PoolFault::DiskWrite { faults: 1 })),
    Call::Settle(Err(PoolFault::Offline { faults: 1 })),
    Call::Dirty(6, true),
];

/// The disk is called for the write, for its pages and for the read. The next call fails.
const TWICE: &[Call] = &[
    Call::Change(6, 1, None),
    Call::WriteEach(Ok(())),
    Call::Fetch(6, Ok(1024)),
    Call::Fetch(6, Ok(1024)),
    Call::Fetch(5, Err(PoolFault::DiskRead { faults: 1 })),
];

/// The same, with one write more.
const KEPT: &[Call] = &[
    Call::Change(6, 1, None),
    Call::WriteEach(Ok(())),
    Call::Fetch(6, Ok(1024)),
    Call::Change(6, 2, None),
    Call::WriteEach(Ok(())),
    Call::Fetch(6, Ok(1024)),
    Call::Fetch(5, Err(PoolFault::DiskRead { faults: 1 })),
];

const RUNS: &[(&str, (u32, &[u32]), &[Call])] = &[
    ("a page past the end is absent", (16, &[]), PAST_THE_END),
    (
        "a page that is fetched twice is read once",
        (16, &[4]),
        TWICE,
    ),
    (
        "a page that was written is not read again",
        (16, &[5]),
        KEPT,
    ),
    (
        "a page write that fails refuses every later call",
        (16, &[1]),
        FAILED,
    ),
];

#[test]
fn what_a_pool_refuses(rt: HostRuntime) -> Result<(), Fail> {
    run_each::<Cache>(&rt, rt.alloc(), RUNS)
}

/// Page 300 has to be written before page 0.
const TOO_MANY: &[Call] = &[
    Call::Change(300, 1, None),
    Call::Change(0, 1, Some(300)),
    Call::ChangeEach(512),
    Call::Dirty(0, true),
    Call::Dirty(300, true),
    Call::Change(512, 1, None),
    Call::Dirty(0, false),
    Call::Dirty(1, true),
    Call::Dirty(300, false),
    Call::Dirty(301, true),
    Call::Dirty(512, true),
];

/// A new record comes between 3 and 4, and goes again: its content goes out first, since it must
/// reach the disk before record 3 does, and its end after record 3 does.
const RECORDS: &[Call] = &[
    Call::Record(4, 0),
    Call::Record(3, 4),
    Call::Record(2, 3),
    Call::WriteEach(Ok(())),
    Call::Record(5, 4),
    Call::Record(3, 5),
    Call::Record(3, 4),
    Call::Change(5, 0, Some(3)),
    Call::WriteEach(Ok(())),
];

const RESOLVED: &[Found] = &[
    Found::Writes(6),
    Found::Resolves(0),
    Found::Resolves(1),
    Found::Resolves(2),
    Found::Resolves(3),
    Found::Resolves(4),
    Found::Resolves(5),
    Found::Resolves(6),
];

/// What the calls show, how many pages the disk may have, the calls, and what is found on it then.
const LEFT: &[(&str, u32, &[Call], &[Found])] = &[
    (
        "an order that would close a cycle writes the page before",
        16,
        CYCLE,
        WRITTEN,
    ),
    (
        "the 513th page writes the least one with what precedes it",
        600,
        TOO_MANY,
        &[Found::Writes(2)],
    ),
    (
        "after every page write each record points to a record",
        16,
        RECORDS,
        RESOLVED,
    ),
];

#[test]
fn what_a_pool_leaves_on_its_disk(rt: HostRuntime) -> Result<(), Fail> {
    for (shows, pages, calls, found) in LEFT {
        leaves(&rt, rt.alloc(), shows, *pages, calls, found)?;
    }
    Ok(())
}

//! What no clause says: that calls succeed with ample memory, on a tree of three pages, byte by
//! byte.

ghost use Rattle.std.specs.Bool.{OnTrue};
ghost use Rattle.std.specs.Prelude.{◌≡◌, ◌≤◌, Some, IfOk, OnOk, length};
ghost use Rattle.mg_pool.specs.Pool.{HasAtMost, IsPool};
ghost use Rattle.mg_space.specs.Taking.{IsGeometry};
ghost use Rattle.mg_space.specs.View.{AreWhole};

use super::calls::{Begins, Bench, run_each};
use super::entries::entry_of;
use super::stores::{has_bytes, store_over};
use mg_base::{Damaged, Disk, FaultyDisk, Field, MemDisk, Memory, PageNo, new_common};
use mg_btree::{insert, range_step, remove, walk_from, walk_on};
use mg_node::{Entry, NODE_KIND};
use mg_pool::Batch;
use mg_space::{SpaceFault, Store};
use std::alloc::Global;
use std::test::Fail;

/// The root, page 5 on level 1: the children 6 from the least entry on, and 7 from the key `m` on.
const ROOT: &[u8] = &[
    1, 0, 2, 0, 0, 0, 0, 0, 53, 0, 0, 0, 0, 0, 0, 0, 0, 0, 0, 0, 6, 0, 0, 0, 1, 0, 109, 0, 0, 0, 0,
    0, 0, 7, 0, 0, 0,
];
/// The leaf 6, below the key `m`, left of page 7: the keys `a` and `c`, of the records 9, 0 and 9,
/// 1.
const LEFT: &[u8] = &[
    0, 0, 2, 0, 7, 0, 0, 0, 55, 0, 2, 0, 1, 0, 109, 0, 0, 0, 0, 0, 0, 1, 0, 97, 9, 0, 0, 0, 0, 0,
    1, 0, 99, 9, 0, 0, 0, 1, 0,
];
/// The leaf 7, from the key `m` on: the key `x`, of the record 9, 2.
const RIGHT: &[u8] = &[
    0, 0, 1, 0, 0, 0, 0, 0, 46, 0, 1, 0, 1, 0, 109, 0, 0, 0, 0, 0, 0, 1, 0, 120, 9, 0, 0, 0, 2, 0,
];

/// An index page of the table 4 with these bytes behind its common part.
fn node_page(page: PageNo, content: &[u8]) -> [u8; 1024]
    requires { length content.now ≤ 1000 }
{
    let mut bytes = [0; 1024];
    new_common(&mut bytes, page, NODE_KIND, 4, 0);
    bytes[16..16 + content.len()].copy_from_slice(content);
    bytes
}

/// Writes an index page of the table 4 with these bytes behind its common part.
fn write_node(disk: &mut MemDisk, page: PageNo, content: &[u8]) -> Result<(), Memory>
    requires size { ⟦<MemDisk as Disk>⟧.meaning.size disk.old ≡ Some 1024 }
    requires content { length content.now ≤ 1000 }
    ensures size { ⟦<MemDisk as Disk>⟧.meaning.size disk.new ≡ Some 1024 }
{
    match disk.write(page, &node_page(page, content)) {
        Ok(()) => Ok(()),
        Err(_) => Err(Memory),
    }
}

/// A disk with the tree of three pages, whose root has these bytes.
fn disk_with(alloc: Global, root: &[u8]) -> Result<MemDisk, Memory>
    requires root { length root.now ≤ 1000 }
    ensures size { IfOk result (λ disk. ⟦<MemDisk as Disk>⟧.meaning.size disk ≡ Some 1024) }
    ensures within { IfOk result (λ disk. HasAtMost ⟦<MemDisk as Disk>⟧.meaning disk 16) }
{
    let mut disk = MemDisk::new(alloc, 1024, 8, 8)?;
    write_node(&mut disk, PageNo(5), root)?;
    write_node(&mut disk, PageNo(6), LEFT)?;
    write_node(&mut disk, PageNo(7), RIGHT)?;
    let Ok(8) = disk.pages() else {
        return Err(Memory);
    };
    Ok(disk)
}

/// A store over the tree of three pages, whose root has these bytes.
fn store_with(alloc: Global, root: &[u8]) -> Result<Store<MemDisk>, Memory>
    requires root { length root.now ≤ 1000 }
    ensures pool { IfOk result (λ store. IsPool ⟦<MemDisk as Disk>⟧.meaning store) }
    ensures geometry { IfOk result (λ store. IsGeometry store.geometry) }
    ensures size { IfOk result (λ store. store.geometry.size ≡ 1024) }
{
    let disk = disk_with(alloc, root)?;
    store_over(alloc, disk, 16)
}

/// The next entry of a range by its slot, 99 where there is none.
fn next_slot<D: Disk>(
    store: &mut Store<D>,
    low: &[u8],
    after: Option<&Entry>,
) -> Result<u16, SpaceFault>
    requires pool { IsPool D.meaning store.old }
    requires geometry { IsGeometry store.old.geometry }
    ensures pool { IsPool D.meaning store.new }
    ensures geometry { store.new.geometry ≡ store.old.geometry }
{
    match range_step(store, PageNo(5), low, after)? {
        Some(e) => Ok(e.rec.slot),
        None => Ok(99),
    }
}

/// An entry by the byte that is its key, and its slot of page 9.
pub type Key = (u8, u16);

/// The next entry of a range by its slot, behind an entry that is told.
fn slot_behind<D: Disk>(
    store: &mut Store<D>,
    low: &[u8],
    after: Option<Key>,
) -> Result<u16, SpaceFault>
    requires pool { IsPool D.meaning store.old }
    requires geometry { IsGeometry store.old.geometry }
    ensures pool { IsPool D.meaning store.new }
    ensures geometry { store.new.geometry ≡ store.old.geometry }
{
    let Some((byte, slot)) = after else {
        return next_slot(store, low, None);
    };
    let entry = entry_of(store.alloc(), byte, 1, 9, slot)?;
    next_slot(store, low, Some(&entry))
}

/// The tree of three pages on a disk of which every call fails behind the first so many.
fn failing_disk(alloc: Global, calls: u32) -> Result<FaultyDisk, Memory>
    requires few { calls ≤ 100 }
    ensures size { IfOk result (λ disk. ⟦<FaultyDisk as Disk>⟧.meaning.size disk ≡ Some 1024) }
    ensures within { IfOk result (λ disk. HasAtMost ⟦<FaultyDisk as Disk>⟧.meaning disk 16) }
{
    let mut bad = Vec::new(alloc);
    for call in 1..7 {
        bad.push(calls + call)?;
    }
    Ok(FaultyDisk::new(disk_with(alloc, ROOT)?, bad))
}

/// The first entry of a range by its slot, where every call of the disk fails behind the first so
/// many; none where a page can't be read.
fn slot_within(alloc: Global, calls: u32, low: &[u8]) -> Result<Option<u16>, Memory>
    requires few { calls ≤ 100 }
{
    let mut store = store_over(alloc, failing_disk(alloc, calls)?, 16)?;
    Ok(next_slot(&mut store, low, None).ok())
}

/// Disks of which only the first calls are obeyed, each by itself.
#[derive(Drop)]
pub struct FewCalls;

impl Bench for FewCalls {
    /// How many calls of the disk are obeyed, where a range begins, and the slot of its first entry.
    type Call = (u32, &'static [u8], Option<u16>);

    ghost ready = { λ it. Unit {0} };

    fn does(&mut self, alloc: Global, call: &(u32, &'static [u8], Option<u16>)) -> bool {
        let (calls, low, slot) = *call;
        slot_within(alloc, calls.min(100), low) == Ok(slot)
    }
}

impl Begins for FewCalls {
    type From = ();

    fn begin(_alloc: Global, _from: ()) -> Result<FewCalls, Memory> {
        Ok(FewCalls)
    }
}

/// A page that is read takes two calls: how many pages the disk has, and the page. The root and a
/// leaf are read; where the leaf has no such entry, its right neighbour comes besides.
const READS: &[(u32, &[u8], Option<u16>)] = &[
    (4, b"b", Some(1)),
    (3, b"b", None),
    (6, b"d", Some(2)),
    (5, b"d", None),
];

const FEW_CALLS: &[(&str, (), &[(u32, &[u8], Option<u16>)])] = &[(
    "a step reads a page a level",
    (),
    READS,
)];

#[test]
fn a_step_reads_a_page_a_level(rt: HostRuntime) -> Result<(), Fail> {
    run_each::<FewCalls>(&rt, rt.alloc(), FEW_CALLS)
}

/// How many leaves each of three steps of a walk reads, from the key `b` on.
fn leaves_passed(
    store: &mut Store<MemDisk>,
    second: &Entry,
    third: &Entry,
) -> Result<(u32, u32, u32), SpaceFault>
    requires pool { IsPool ⟦<MemDisk as Disk>⟧.meaning store.old }
    requires geometry { IsGeometry store.old.geometry }
    ensures pool { IsPool ⟦<MemDisk as Disk>⟧.meaning store.new }
    ensures geometry { store.new.geometry ≡ store.old.geometry }
{
    let walk = walk_from(store, PageNo(5), b"b")?;
    let one = walk_on(store, walk, b"b", None)?;
    let two = walk_on(store, one.walk, b"b", Some(second))?;
    let three = walk_on(store, two.walk, b"b", Some(third))?;
    Ok((one.passed, two.passed, three.passed))
}

/// How many leaves each step of a walk reads, from the key `b` on over the keys `c` and `x`.
fn passes(store: &mut Store<MemDisk>) -> Result<(u32, u32, u32), SpaceFault>
    requires pool { IsPool ⟦<MemDisk as Disk>⟧.meaning store.old }
    requires geometry { IsGeometry store.old.geometry }
    ensures pool { IsPool ⟦<MemDisk as Disk>⟧.meaning store.new }
    ensures geometry { store.new.geometry ≡ store.old.geometry }
{
    let second = entry_of(store.alloc(), b'c', 1, 9, 1)?;
    let third = entry_of(store.alloc(), b'x', 1, 9, 2)?;
    leaves_passed(store, &second, &third)
}

/// The tree whose root leads to itself.
const CIRCLE: &[u8] = &[
    1, 0, 2, 0, 0, 0, 0, 0, 53, 0, 0, 0, 0, 0, 0, 0, 0, 0, 0, 0, 5, 0, 0, 0, 1, 0, 109, 0, 0, 0, 0,
    0, 0, 7, 0, 0, 0,
];

/// A call on a tree, or on it in a batch, and what it answers.
#[derive(Clone, Copy)]
pub enum Call {
    /// Where a range begins, the entry that it goes on behind, and the slot of its next entry.
    Range(&'static [u8], Option<Key>, Result<u16, SpaceFault>),
    /// How many leaves the steps of a walk read.
    Walk(u32, u32, u32),
    /// The entry of a key of 120 such bytes is put in, of the slot of that number.
    Put(u8),
    /// The entry of the key `x` and this slot is taken out, where it is there.
    Take(u16, bool),
    /// The batch has no such page.
    Absent(u32),
    /// A page of the batch has these bytes behind its common part.
    Has(u32, &'static [u8]),
}

/// Puts an entry into the tree, and keeps what the next call needs.
fn put_entry(store: &mut Store<MemDisk>, batch: &mut Batch, e: &Entry) -> Result<(), SpaceFault>
    requires pool { IsPool ⟦<MemDisk as Disk>⟧.meaning store.old }
    requires geometry { IsGeometry store.old.geometry }
    requires size { store.old.geometry.size ≡ 1024 }
    requires whole { AreWhole store.old.geometry batch.old.pages }
    requires short { length e.now.key ≤ 120 }
    requires child { e.now.child.0 ≡ 0 }
    ensures pool { IsPool ⟦<MemDisk as Disk>⟧.meaning store.new }
    ensures geometry { store.new.geometry ≡ store.old.geometry }
    ensures whole { OnOk result (AreWhole store.new.geometry batch.new.pages) }
{
    insert(store, batch, PageNo(5), e)
}

/// Puts the entry of a key of 120 equal bytes into the tree, and tells whether it did.
fn put(store: &mut Store<MemDisk>, batch: &mut Batch, key: u8) -> bool
    requires pool { IsPool ⟦<MemDisk as Disk>⟧.meaning store.old }
    requires geometry { IsGeometry store.old.geometry }
    requires size { store.old.geometry.size ≡ 1024 }
    requires whole { AreWhole store.old.geometry batch.old.pages }
    ensures pool { IsPool ⟦<MemDisk as Disk>⟧.meaning store.new }
    ensures geometry { store.new.geometry ≡ store.old.geometry }
    ensures whole { OnTrue result (AreWhole store.new.geometry batch.new.pages) }
{
    let Ok(e) = entry_of(store.alloc(), key, 120, 9, u16::from(key)) else {
        return false;
    };
    match put_entry(store, batch, &e) {
        Ok(()) => true,
        Err(_) => false,
    }
}

/// Takes an entry out, and keeps what the next call needs.
fn take_entry(store: &mut Store<MemDisk>, batch: &mut Batch, e: &Entry) -> Result<bool, SpaceFault>
    requires pool { IsPool ⟦<MemDisk as Disk>⟧.meaning store.old }
    requires geometry { IsGeometry store.old.geometry }
    requires size { store.old.geometry.size ≡ 1024 }
    requires whole { AreWhole store.old.geometry batch.old.pages }
    ensures pool { IsPool ⟦<MemDisk as Disk>⟧.meaning store.new }
    ensures geometry { store.new.geometry ≡ store.old.geometry }
    ensures whole { AreWhole store.new.geometry batch.new.pages }
{
    remove(store, batch, PageNo(5), e)
}

/// Takes the entry of the key `x` and a slot out, and tells whether it was there.
fn take(store: &mut Store<MemDisk>, batch: &mut Batch, slot: u16) -> Result<bool, SpaceFault>
    requires pool { IsPool ⟦<MemDisk as Disk>⟧.meaning store.old }
    requires geometry { IsGeometry store.old.geometry }
    requires size { store.old.geometry.size ≡ 1024 }
    requires whole { AreWhole store.old.geometry batch.old.pages }
    ensures pool { IsPool ⟦<MemDisk as Disk>⟧.meaning store.new }
    ensures geometry { store.new.geometry ≡ store.old.geometry }
    ensures whole { AreWhole store.new.geometry batch.new.pages }
{
    let e = entry_of(store.alloc(), b'x', 1, 9, slot)?;
    take_entry(store, batch, &e)
}

/// A tree, and a batch on it.
#[derive(Drop)]
pub struct Tree {
    store: Store<MemDisk>,
    batch: Batch,
}

impl Bench for Tree {
    type Call = Call;

    ghost ready = { λ it. IsPool ⟦<MemDisk as Disk>⟧.meaning it.store × IsGeometry it.store.geometry
        × (it.store.geometry.size ≡ 1024) × AreWhole it.store.geometry it.batch.pages };

    fn does(&mut self, _alloc: Global, call: &Call) -> bool {
        let store = &mut self.store;
        let batch = &mut self.batch;
        match *call {
            Call::Range(low, after, slot) => slot_behind(store, low, after) == slot,
            Call::Walk(one, two, three) => passes(store) == Ok((one, two, three)),
            Call::Put(key) => put(store, batch, key),
            Call::Take(slot, there) => take(store, batch, slot) == Ok(there),
            Call::Absent(page) => batch.bytes(PageNo(page)).is_none(),
            Call::Has(page, bytes) => has_bytes(batch, PageNo(page), 16, bytes),
        }
    }
}

impl Begins for Tree {
    /// The bytes of its root, 1000 at most.
    type From = &'static [u8];

    fn begin(alloc: Global, root: &'static [u8]) -> Result<Tree, Memory> {
        if root.len() > 1000 {
            return Err(Memory);
        }
        Ok(Tree {
            store: store_with(alloc, root)?,
            batch: Batch::new(alloc),
        })
    }
}

const RANGES: &[Call] = &[
    Call::Range(b"", None, Ok(0)),
    Call::Range(b"b", None, Ok(1)),
    Call::Range(b"d", None, Ok(2)),
    Call::Range(b"y", None, Ok(99)),
    Call::Range(b"b", Some((b'c', 1)), Ok(2)),
];

const REFUSED: &[Call] = &[Call::Range(
    b"",
    None,
    Err(SpaceFault::Damaged(Damaged {
        page: PageNo(5),
        field: Field::Level,
        found: 1,
        wanted: 0,
    })),
)];

const TAKEN: &[Call] = &[
    Call::Take(3, false),
    Call::Take(2, true),
    Call::Take(2, false),
];

/// A leaf without entries, as the only page of a tree.
const EMPTY: &[u8] = &[0, 0, 0, 0, 0, 0, 0, 0, 28, 0, 0, 0];

const SPLIT: &[Call] = &[
    Call::Put(1),
    Call::Put(2),
    Call::Put(3),
    Call::Put(4),
    Call::Put(5),
    Call::Put(6),
    Call::Put(7),
    // A leaf with seven entries, which take 28 + 7 * 128 bytes, and no page was taken.
    Call::Has(5, &[0, 0, 7, 0, 0, 0, 0, 0, 156, 3, 0, 0]),
    Call::Absent(2),
    Call::Put(8),
    // The root names page 2 by the least entry, and page 3 by the key of the fifth one.
    Call::Has(
        5,
        &[
            1, 0, 2, 0, 0, 0, 0, 0, 172, 0, 0, 0, 0, 0, 0, 0, 0, 0, 0, 0, 2, 0, 0, 0, 120, 0, 5, 5,
        ],
    ),
    // Page 2 has the first four entries and a high fence, and page 3 to its right the other four.
    Call::Has(2, &[0, 0, 4, 0, 3, 0, 0, 0, 156, 2, 2, 0, 120, 0, 5, 5]),
    Call::Has(3, &[0, 0, 4, 0, 0, 0, 0, 0, 156, 2, 1, 0, 120, 0, 5, 5]),
];

const RUNS: &[(&str, &[u8], &[Call])] = &[
    ("a range goes along the leaves", ROOT, RANGES),
    ("a walk keeps its leaf", ROOT, &[Call::Walk(0, 1, 0)]),
    ("a child that comes back is refused", CIRCLE, REFUSED),
    ("an entry is taken out once", ROOT, TAKEN),
    ("a root splits at the entry that does not fit", EMPTY, SPLIT),
];

#[test]
fn what_a_tree_answers(rt: HostRuntime) -> Result<(), Fail> {
    run_each::<Tree>(&rt, rt.alloc(), RUNS)
}

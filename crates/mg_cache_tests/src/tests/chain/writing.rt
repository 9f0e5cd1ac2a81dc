//! Records of a small table are written in a batch, and read back as the batch has them.

ghost use Rattle.std.specs.Prelude.{◌≡◌, ◌≤◌, false, IfOk, length};
ghost use Rattle.mg_base.specs.MemDisk.{mem_meaning};
ghost use Rattle.mg_pool.specs.Pool.{IsPool};
ghost use Rattle.mg_space.specs.Taking.{IsGeometry};
ghost use Rattle.mg_space.specs.View.{AreWhole};

use crate::tests::calls::{Begins, Bench, run_each};
use crate::tests::stores::{OWNER, Table, new_table};
use mg_base::{Bytes, MemDisk, Memory, RecId, TxNo};
use mg_chain::{back_out, first, newest_link, push, replace_own, spot, version_at};
use mg_pool::Batch;
use mg_space::{SpaceFault, Store};
use mg_version::{Link, Version};
use std::alloc::Global;
use std::test::Fail;

/// A version of a transaction, with a body of so many bytes.
fn version(alloc: Global, t: u32, len: usize) -> Result<Version, Memory>
    requires { len ≤ 900 }
    ensures apart { IfOk result (λ v. v.primary ≡ false) }
    ensures format { IfOk result (λ v. v.format ≡ 1) }
    ensures body { IfOk result (λ v. length v.body ≡ len) }
{
    Ok(Version {
        primary: false,
        deleted: false,
        format: 1,
        tx: TxNo(t),
        back: None,
        body: Bytes::new(vec![in alloc; 7u8; len]?),
    })
}

/// Makes a record with one version.
fn make(
    store: &mut Store<MemDisk>,
    batch: &mut Batch,
    t: u32,
    len: usize,
) -> Result<RecId, SpaceFault>
    requires pool { IsPool mem_meaning store.old }
    requires geometry { IsGeometry store.old.geometry }
    requires size { store.old.geometry.size ≡ 1024 }
    requires whole { AreWhole store.old.geometry batch.old.pages }
    requires len { len ≤ 900 }
    ensures pool { IsPool mem_meaning store.new }
    ensures geometry { store.new.geometry ≡ store.old.geometry }
    ensures whole { AreWhole store.new.geometry batch.new.pages }
{
    let v = version(store.alloc(), t, len)?;
    let at = spot(store, batch, OWNER)?;
    first(store, batch, OWNER, at, &v)?;
    Ok(at)
}

/// What is done to the newest version of a record.
#[derive(Clone, Copy)]
pub enum Deed {
    Push,
    Replace,
    BackOut,
}

/// A deed of a transaction with a body of so many bytes, and then the transaction of the newest
/// version and how many bytes its body has: 0 and 0 where there is no record, nothing where the
/// deed is refused.
pub type Step = (Deed, u32, usize, Option<(u32, usize)>);

/// Does something to a record.
fn act(
    store: &mut Store<MemDisk>,
    batch: &mut Batch,
    rec: RecId,
    deed: Deed,
    v: &Version,
) -> Result<(), SpaceFault>
    requires pool { IsPool mem_meaning store.old }
    requires geometry { IsGeometry store.old.geometry }
    requires size { store.old.geometry.size ≡ 1024 }
    requires whole { AreWhole store.old.geometry batch.old.pages }
    requires apart { v.now.primary ≡ false }
    requires format { v.now.format ≡ 1 }
    requires body { length v.now.body ≤ 900 }
    ensures pool { IsPool mem_meaning store.new }
    ensures geometry { store.new.geometry ≡ store.old.geometry }
    ensures whole { AreWhole store.new.geometry batch.new.pages }
{
    match deed {
        Deed::Push => push(store, batch, rec, v),
        Deed::Replace => replace_own(store, batch, rec, v),
        Deed::BackOut => back_out(store, batch, rec),
    }
}

/// Does what a step says.
fn do_step(
    store: &mut Store<MemDisk>,
    batch: &mut Batch,
    rec: RecId,
    step: Step,
) -> Result<(), SpaceFault>
    requires pool { IsPool mem_meaning store.old }
    requires geometry { IsGeometry store.old.geometry }
    requires size { store.old.geometry.size ≡ 1024 }
    requires whole { AreWhole store.old.geometry batch.old.pages }
    ensures pool { IsPool mem_meaning store.new }
    ensures geometry { store.new.geometry ≡ store.old.geometry }
    ensures whole { AreWhole store.new.geometry batch.new.pages }
{
    let (deed, by, len, _) = step;
    let v = version(store.alloc(), by, len.min(900))?;
    act(store, batch, rec, deed, &v)
}

/// The transaction of the version that a link leads to, and how many bytes its body has.
fn told_of(
    store: &mut Store<MemDisk>,
    batch: &Batch,
    rec: RecId,
    link: Link,
) -> Result<(u32, usize), SpaceFault>
    requires pool { IsPool mem_meaning store.old }
    requires geometry { IsGeometry store.old.geometry }
    requires whole { AreWhole store.old.geometry batch.now.pages }
    ensures pool { IsPool mem_meaning store.new }
    ensures geometry { store.new.geometry ≡ store.old.geometry }
{
    let version = version_at(store, batch, rec.page, link)?;
    Ok((version.tx.0, version.body.as_slice().len()))
}

/// The transaction of the newest version of a record, and how many bytes its body has: 0 and 0
/// where there is no record.
fn newest(store: &mut Store<MemDisk>, batch: &Batch, rec: RecId) -> Result<(u32, usize), SpaceFault>
    requires pool { IsPool mem_meaning store.old }
    requires geometry { IsGeometry store.old.geometry }
    requires size { store.old.geometry.size ≡ 1024 }
    requires whole { AreWhole store.old.geometry batch.now.pages }
    ensures pool { IsPool mem_meaning store.new }
    ensures geometry { store.new.geometry ≡ store.old.geometry }
{
    let Some(link) = newest_link(store, batch, rec)? else {
        return Ok((0, 0));
    };
    told_of(store, batch, rec, link)
}

/// Does what a step says, and tells of the newest version then.
fn after_step(
    store: &mut Store<MemDisk>,
    batch: &mut Batch,
    rec: RecId,
    step: Step,
) -> Result<(u32, usize), SpaceFault>
    requires pool { IsPool mem_meaning store.old }
    requires geometry { IsGeometry store.old.geometry }
    requires size { store.old.geometry.size ≡ 1024 }
    requires whole { AreWhole store.old.geometry batch.old.pages }
    ensures pool { IsPool mem_meaning store.new }
    ensures geometry { store.new.geometry ≡ store.old.geometry }
    ensures whole { AreWhole store.new.geometry batch.new.pages }
{
    do_step(store, batch, rec, step)?;
    newest(store, batch, rec)
}

/// A record of a table in a batch.
#[derive(Drop)]
pub struct Record {
    table: Table,
    rec: RecId,
}

impl Bench for Record {
    type Call = Step;

    ghost ready = { λ it. IsPool mem_meaning it.table.store × IsGeometry it.table.store.geometry
        × (it.table.store.geometry.size ≡ 1024) × AreWhole it.table.store.geometry it.table.batch.pages };

    fn does(&mut self, _alloc: Global, step: &Step) -> bool {
        let table = &mut self.table;
        after_step(&mut table.store, &mut table.batch, self.rec, *step).ok() == step.3
    }
}

impl Begins for Record {
    /// How many bytes the body of its version has, which is of transaction 2.
    type From = usize;

    fn begin(alloc: Global, len: usize) -> Result<Record, Memory> {
        let mut table = new_table(alloc, 100)?;
        match make(&mut table.store, &mut table.batch, 2, len.min(900)) {
            Ok(rec) => Ok(Record { table, rec }),
            Err(_) => Err(Memory),
        }
    }
}

/// The version is replaced in its cell, and then in another one, on another page.
const TAKEN_BACK: &[Step] = &[
    (Deed::Push, 3, 30, Some((3, 30))),
    (Deed::Push, 4, 40, Some((4, 40))),
    (Deed::Replace, 4, 50, Some((4, 50))),
    (Deed::Replace, 4, 900, Some((4, 900))),
    (Deed::Push, 5, 10, Some((5, 10))),
    (Deed::BackOut, 9, 0, Some((4, 900))),
    (Deed::BackOut, 9, 0, Some((3, 30))),
    (Deed::BackOut, 9, 0, Some((2, 20))),
    (Deed::BackOut, 9, 0, Some((0, 0))),
];

const ON_ANOTHER: &[Step] = &[
    (Deed::Push, 3, 800, Some((3, 800))),
    (Deed::Replace, 3, 10, Some((3, 10))),
    (Deed::BackOut, 9, 0, Some((2, 900))),
];

const RUNS: &[(&str, usize, &[Step])] = &[
    ("a record is made and taken back to nothing", 20, TAKEN_BACK),
    (
        "a version stands on another page than its slot",
        900,
        ON_ANOTHER,
    ),
    (
        "a version of another transaction is not replaced",
        20,
        &[(Deed::Replace, 3, 20, None)],
    ),
];

#[test]
fn what_a_record_comes_to(rt: HostRuntime) -> Result<(), Fail> {
    run_each::<Record>(&rt, rt.alloc(), RUNS)
}

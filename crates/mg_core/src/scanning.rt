//! A walk over the records of a table.

ghost use Rattle.std.specs.Prelude.{◌≡◌, None, IfOk};
ghost use Rattle.mg_base.specs.Image.{Image};
ghost use Rattle.mg_heap.specs.Reading.{ReadsData};
ghost use Rattle.mg_pool.specs.Fault.{TellsFault};
ghost use Rattle.mg_pool.specs.Pool.{IsPool, shown};
ghost use Rattle.mg_space.specs.Taking.{IsGeometry};
ghost use Rattle.mg_space.specs.View.{KeepsStore, Tells, pool_answer};
ghost use Rattle.mg_works.specs.Works.{MayBeGiven};
ghost use Rattle.mg_core.specs.Cores.{IsCore};
ghost use Rattle.mg_image.specs.Records.{key_of};
ghost use Rattle.mg_core.specs.Scanning.{ChecksBehind, ChecksFit, IsBehind, KeysRow, PlacesBehind, Scans, VisitsNext, rank as rank_of, record_of as record_in};

use crate::parts::Core;
use crate::states::StatesOf;
use mg_base::{Damaged, Disk, Field, Memory, PageNo, RecId, SEQUENCE_AT, TxNo, get_u32};
use mg_model::{Refusal, Table};
use mg_pool::{Batch, PoolFault};
use mg_records::Found;
use mg_seek::view_step;
use mg_space::{SpaceFault, Store, hold, lent};
use mg_value::{Key, Row, Value, row_fits};
use std::alloc::Global;

/// Where a walk over the records of a table has come to.
#[derive(Clone, Copy, Debug, PartialEq, Eq)]
pub struct Place {
    pub rec: RecId,
    /// The sequence of the record's data page: its place among those of the table, counted from 0.
    pub sequence: u32,
}

impl Place {
    /// Places of a walk ascend by this number: by their pages' sequences, and by their slots.
    fn rank(self) -> u64
        ensures { result ≡ rank_of self }
    {
        u64::from(self.sequence) * 65_536 + u64::from(self.rec.slot)
    }
}

impl<D: Disk> Core<D> {
    /// Comes to the next record of a table behind a place, or to the first one, with the row that the
    /// transaction sees there and its key. None exactly where there is no other record.
    ///
    /// It is no event: nobody's wait is over with it. A place that is given comes behind the former one,
    /// whatever the file holds, so that each walk ends.
    ///
    /// # Errors
    ///
    /// `Offline` exactly where a page write has failed; else `NotActive` exactly where the transaction isn't
    /// active; `DiskRead`; `Damaged` as `view_step`; `Damaged` at `Sequence` where the next record's page
    /// comes again or too early; `Damaged` at `Key` where the row has none, at `Row` where it does not fit the table;
    /// `Memory`.
    pub fn scan_step(
        &mut self,
        t: TxNo,
        table: &Table,
        after: Option<Place>,
    ) -> Result<Option<Found<Place>>, Refusal>
        requires core { IsCore D.meaning self.old }
        requires may { MayBeGiven table.now }
        ensures core { IsCore D.meaning self.new }
        ensures scans { Scans D.meaning self.old self.new t table.now after result }
    {
        match self.begin_call(t) {
            Ok(()) => {}
            Err(refusal) => return Err(refusal),
        }
        match self.visit(t, table, after) {
            Ok(found) => Ok(found),
            Err(fault) => Err(self.refuse(fault)),
        }
    }

    /// Comes to the next record of a table.
    ///
    /// # Errors
    ///
    /// As `scan_step`, but for those of the call.
    fn visit(
        &mut self,
        t: TxNo,
        table: &Table,
        after: Option<Place>,
    ) -> Result<Option<Found<Place>>, SpaceFault>
        requires core { IsCore D.meaning self.old }
        requires online { self.old.store.offline ≡ None }
        requires may { MayBeGiven table.now }
        ensures visits { VisitsNext D.meaning self.old self.new t table.now after result }
    {
        let states = StatesOf::new(&self.list);
        let from = record_of(after);
        let visit = match view_step(&mut self.store, table, &states, &self.live, t, from) {
            Ok(Some(visit)) => visit,
            Ok(None) => return Ok(None),
            Err(fault) => return Err(fault),
        };
        let place = match place_behind(&mut self.store, visit.rec, after) {
            Ok(place) => place,
            Err(fault) => return Err(fault),
        };
        match keyed(self.store.alloc(), table, visit.rec.page, visit.row) {
            Ok(row) => Ok(Some(Found { place, row })),
            Err(fault) => Err(fault),
        }
    }
}

/// The record of a place, if there is one.
fn record_of(after: Option<Place>) -> Option<RecId>
    ensures { result ≡ record_in after }
{
    match after {
        None => None,
        Some(place) => Some(place.rec),
    }
}

/// The place of a record that is the next one behind another place.
///
/// # Errors
///
/// `Damaged` at `Presence` where its page is missing; `Damaged` at `Sequence` exactly where it doesn't come
/// behind the former place; `Pool` with `DiskRead`, `Offline` or `Memory`.
fn place_behind<D: Disk>(
    store: &mut Store<D>,
    rec: RecId,
    after: Option<Place>,
) -> Result<Place, SpaceFault>
    requires pool { IsPool D.meaning store.old }
    requires geometry { IsGeometry store.old.geometry }

    ensures keeps { KeepsStore D.meaning store.old store.new }
    ensures fault { TellsFault D.meaning store.old store.new (pool_answer result) }
    ensures own { ReadsData result }
    ensures of { IfOk result (λ place. place.rec ≡ rec) }
    ensures behind { IfOk result (IsBehind after) }
    ensures places { (image : Image) → Tells D.meaning store.old.disk image
        → PlacesBehind D.meaning store.new (shown store.old.dirty image) rec after result }
{
    let batch = Batch::new(store.alloc());
    match hold(store, &batch, rec.page) {
        Ok(()) => {}
        Err(fault) => return Err(fault),
    }
    let sequence = get_u32(lent(store, &batch, rec.page), SEQUENCE_AT);
    let place = Place { rec, sequence };
    match check_behind(after, place) {
        Ok(()) => Ok(place),
        Err(damage) => Err(SpaceFault::Damaged(damage)),
    }
}

/// Tests that a place comes behind another one.
///
/// # Errors
///
/// Its sequence as damage, exactly where it doesn't.
fn check_behind(after: Option<Place>, place: Place) -> Result<(), Damaged>
    ensures { ChecksBehind after place result }
{
    match after {
        None => Ok(()),
        Some(former) => {
            if former.rank() < place.rank() {
                Ok(())
            } else {
                Err(Damaged {
                    page: place.rec.page,
                    field: Field::Sequence,
                    found: u64::from(place.sequence),
                    wanted: u64::from(former.sequence) + 1,
                })
            }
        }
    }
}

/// A row with its key, if there is one.
///
/// # Errors
///
/// `Damaged` at `Key` where it has none, and at `Row` where it does not fit the table, under the number of its page;
/// `Pool` with `Memory`.
#[tactic(auto, using(crate::proofs::ScanLemmas::keyed_so))]
fn keyed(
    alloc: Global,
    table: &Table,
    page: PageNo,
    row: Option<Row>,
) -> Result<Option<(Key, Row)>, SpaceFault>
    ensures { KeysRow table.now page.0 row result }
{
    let Some(row) = row else {
        return Ok(None);
    };
    match check_fit(table, page, &row) {
        Ok(()) => {}
        Err(damage) => return Err(SpaceFault::Damaged(damage)),
    }
    let value = match key_copy(alloc, table, &row) {
        Ok(value) => value,
        Err(_) => return Err(SpaceFault::Pool(PoolFault::Memory)),
    };
    match Key::new(value) {
        Some(key) => Ok(Some((key, row))),
        None => Err(SpaceFault::Damaged(Damaged {
            page,
            field: Field::Key,
            found: 0,
            wanted: 1,
        })),
    }
}

/// Tests that a row fits the columns of its table: one that lacks a later column may have to be NULL there, where the
/// column allows none.
///
/// # Errors
///
/// `Damaged` at `Row`, under the number of its page, exactly where it does not.
fn check_fit(table: &Table, page: PageNo, row: &Row) -> Result<(), Damaged>
    ensures { ChecksFit table.now page.0 row.now result }
{
    if row_fits(&table.shape, row) {
        return Ok(());
    }
    Err(Damaged {
        page,
        field: Field::Row,
        found: 0,
        wanted: 1,
    })
}

/// A copy of the value of a row that is its key in a table.
fn key_copy(alloc: Global, table: &Table, row: &Row) -> Result<Value, Memory>
    ensures { IfOk result (λ key. key ≡ key_of table.now row.now) }
{
    match row.as_slice().get(usize::from(table.shape.key)) {
        None => Ok(Value::Null),
        Some(value) => value.copy(alloc),
    }
}

//! The engine collects what its readers come to.

ghost use Rattle.std.specs.Prelude.{◌≡◌};
ghost use Rattle.mg_core.specs.Cores.{IsCore};
ghost use Rattle.mg_works.specs.Works.{MayBeGiven};
ghost use Rattle.mg_engine.specs.KeyCollecting.{CollectsAtKey, CollectsFound, KeyCollectionsGoOn};
ghost use Rattle.mg_engine.specs.Places.{places};
ghost use Rattle.mg_engine_collecting_laws.specs.Versions.{collecting as collecting_of};

use crate::engine::Engine;
use crate::keyed::keys_go_on;
use crate::sizes::counts_fit;
use mg_base::{Disk, RecId, TxNo};
use mg_collecting_damage_laws::{collections_meet_no_damage, every_meets_no_damage};
use mg_collecting_room_laws::{collections_take_none, every_takes_none};
use mg_core::{Core, Place};
use mg_core_collecting::{collect_every, collect_place};
use mg_engine_collecting_laws::{
    collections_are_nobodys, collections_leave, collections_tell_faults, every_is_nobodys,
    every_leaves, every_tells_faults,
};
use mg_heap::tables_of_layouts_are_walked;
use mg_model::{Refusal, Table};
use mg_row_writes::RowAt;
use mg_seek::records_are_those_of_every_reading;
use mg_tending::Collects;
use mg_value::Key;

impl<D: Disk> Collects for Engine<D> {
    ghost collecting = { collecting_of D.meaning places };

    /// Collects the record at a place: where it has something settled, what nobody needs of its versions goes, each in a
    /// batch of its own.
    ///
    /// # Errors
    ///
    /// `Offline` exactly where a page write has failed before; `DiskRead`, `Damaged` and `Memory` as the record is read;
    /// `DiskWrite` where a batch has pages written out before it. What has gone by then stays gone.
    fn collect_place(&mut self, t: TxNo, table: &Table, place: &Place) -> Result<bool, Refusal> {
        collections_are_nobodys::<D, Place>();
        collections_leave::<D, Place>();
        collections_tell_faults::<D>();
        collections_take_none::<D>();
        collections_meet_no_damage::<D>();
        counts_fit(self.core.damage, self.core.shortages);
        collect_place(&mut self.core, t, table, place.rec)
    }

    /// Collects the record that speaks for a key, as `collect_place` does; it is looked for as `row_with_key` does once the
    /// keys of its table are noted.
    ///
    /// # Errors
    ///
    /// As `row_with_key` for what the reading is refused for, and as `collect_place`.
    fn collect_key(&mut self, t: TxNo, table: &Table, key: &Key) -> Result<bool, Refusal> {
        key_collections_go_on::<D>();
        counts_fit(self.core.damage, self.core.shortages);
        collect_at_key(&mut self.core, t, table, key)
    }

    /// Collects each record of each table that a committed row of the catalog names, as `collect_place` does.
    ///
    /// # Errors
    ///
    /// `Offline` exactly where a page write has failed before; `DiskRead`, `Damaged` and `Memory` as the catalog and the
    /// records are read; `DiskWrite` where a batch has pages written out before it. What has gone by then stays gone.
    fn collect_all(&mut self) -> Result<(), Refusal> {
        every_is_nobodys::<D, Place>();
        every_leaves::<D, Place>();
        every_tells_faults::<D>();
        every_takes_none::<D>();
        every_meets_no_damage::<D>();
        counts_fit(self.core.damage, self.core.shortages);
        collect_every(&mut self.core)
    }
}

/// An engine that collects the record of a key goes on as before, and what remains of the record is left.
fn key_collections_go_on<D: Disk>()
    ensures { KeyCollectionsGoOn D D.meaning }
{
    keys_go_on::<D>();
    collections_are_nobodys::<D, Place>();
    collections_leave::<D, Place>();
    collections_tell_faults::<D>();
    collections_take_none::<D>();
    collections_meet_no_damage::<D>();
    tables_of_layouts_are_walked();
    records_are_those_of_every_reading();
}

/// Collects the record that speaks for a key.
fn collect_at_key<D: Disk>(
    core: &mut Core<D>,
    t: TxNo,
    table: &Table,
    key: &Key,
) -> Result<bool, Refusal>
    requires core { IsCore D.meaning core.old }
    requires given { MayBeGiven table.now }
    ensures core { IsCore D.meaning core.new }
    ensures collects { CollectsAtKey D.meaning core.old core.new t table.now key.now result }
{
    match core.begin_call(t) {
        Ok(()) => {}
        Err(refusal) => return Err(refusal),
    }
    match core.row_of_key(t, table, key) {
        Ok(found) => collect_found(core, t, table, rec_in(found)),
        Err(refusal) => Err(refusal),
    }
}

/// The record that was found.
fn rec_in(found: RowAt) -> Option<RecId>
    ensures { result ≡ found.rec }
{
    let RowAt { rec, .. } = found;
    rec
}

/// Collects a record that was found, if one was.
fn collect_found<D: Disk>(
    core: &mut Core<D>,
    t: TxNo,
    table: &Table,
    rec: Option<RecId>,
) -> Result<bool, Refusal>
    requires core { IsCore D.meaning core.old }
    requires given { MayBeGiven table.now }
    ensures core { IsCore D.meaning core.new }
    ensures collects { CollectsFound D.meaning core.old core.new t table.now rec result }
{
    match rec {
        Some(rec) => collect_place(core, t, table, rec),
        None => Ok(false),
    }
}

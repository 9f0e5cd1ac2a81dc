//! The engine finds a row by its key.

ghost use Rattle.std.specs.Prelude.{◌≡◌};
ghost use Rattle.mg_core.specs.Cores.{IsCore};
ghost use Rattle.mg_engine.specs.Keyed.{AnswersKey, AnswersNoted, KeysGoOn, NotesGoOn};
ghost use Rattle.mg_works.specs.Works.{MayBeGiven};

use crate::engine::Engine;
use crate::noting::note_keys;
use crate::sizes::counts_fit;
use mg_base::{Disk, TxNo};
use mg_core::{Core, Place};
use mg_engine_meaning_laws::reads_go_on;
use mg_engine_step_laws::{batches_last, keys_are_answered};
use mg_generation_laws::chains_tell;
use mg_heap::tables_of_layouts_are_walked;
use mg_image_overlay_laws::sound_images_stand_one_way;
use mg_model::{Refusal, Table, histories_go_on};
use mg_no_damage_laws::{reads_meet_no_damage, sound_images_are_lawful};
use mg_row_writes::RowAt;
use mg_seek::records_are_those_of_every_reading;
use mg_space::FireLinks;
use mg_tending::Keyed;
use mg_value::{Key, Row};

impl<D: Disk> Keyed for Engine<D> {
    /// The row with a key that the transaction sees, None where it sees none: that of the record that speaks for the
    /// key. The keys of its table are noted first.
    ///
    /// # Errors
    ///
    /// `Offline` exactly where a page write has failed before; else `NotActive` exactly where the transaction isn't
    /// active; `Memory`, and what the reading is refused for: `DiskRead`, `Damaged`.
    fn row_with_key(&mut self, t: TxNo, table: &Table, key: &Key) -> Result<Option<Row>, Refusal> {
        keys_go_on::<D>();
        counts_fit(self.core.damage, self.core.shortages);
        row_of_noted_key(&mut self.core, t, table, key)
    }
}

/// An engine that has made the directory of a table goes on as before.
pub(crate) fn notes_go_on<D: Disk>()
    ensures { NotesGoOn D D.meaning }
{
    reads_go_on::<D, Place>();
    histories_go_on();
    batches_last::<D, FireLinks>();
    sound_images_stand_one_way();
    tables_of_layouts_are_walked();
    records_are_those_of_every_reading();
}

/// An engine of which a row is asked for by its key gives that of the history, and all goes on.
pub(crate) fn keys_go_on<D: Disk>()
    ensures { KeysGoOn D D.meaning }
{
    notes_go_on::<D>();
    reads_go_on::<D, Place>();
    keys_are_answered();
    chains_tell();
    histories_go_on();
    reads_meet_no_damage::<D>();
    sound_images_are_lawful();
    tables_of_layouts_are_walked();
    records_are_those_of_every_reading();
}

/// The row with a key that an active transaction sees, once the keys of its table are noted.
fn row_of_noted_key<D: Disk>(
    core: &mut Core<D>,
    t: TxNo,
    table: &Table,
    key: &Key,
) -> Result<Option<Row>, Refusal>
    requires core { IsCore D.meaning core.old }
    requires given { MayBeGiven table.now }
    ensures core { IsCore D.meaning core.new }
    ensures answers { AnswersNoted D.meaning core.old core.new t table.now key.now result }
{
    match note_keys(core, t, table) {
        Ok(()) => row_of_key(core, t, table, key),
        Err(refusal) => Err(refusal),
    }
}

/// The row with a key that an active transaction sees.
fn row_of_key<D: Disk>(
    core: &mut Core<D>,
    t: TxNo,
    table: &Table,
    key: &Key,
) -> Result<Option<Row>, Refusal>
    requires core { IsCore D.meaning core.old }
    requires given { MayBeGiven table.now }
    ensures core { IsCore D.meaning core.new }
    ensures answers { AnswersKey D.meaning core.old core.new t table.now key.now result }
{
    match core.begin_call(t) {
        Ok(()) => {}
        Err(refusal) => return Err(refusal),
    }
    match core.row_of_key(t, table, key) {
        Ok(found) => Ok(row_in(found)),
        Err(refusal) => Err(refusal),
    }
}

/// The row that was found.
fn row_in(found: RowAt) -> Option<Row>
    ensures { result ≡ found.row }
{
    let RowAt { row, .. } = found;
    row
}

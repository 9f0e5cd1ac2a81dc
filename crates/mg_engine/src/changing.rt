//! A row is written, once the keys of its table are noted.

ghost use Rattle.mg_core.specs.Cores.{IsCore};
ghost use Rattle.mg_engine.specs.Changing.{ChangesGoOn, WritesFirst};
ghost use Rattle.mg_records.specs.Writing.{FitsShape};
ghost use Rattle.mg_works.specs.Works.{MayBeGiven};

use crate::keyed::notes_go_on;
use crate::noting::note_keys_first;
use mg_base::{Disk, TxNo};
use mg_core::{Core, Place};
use mg_engine_change_laws::{
    changes_tell_faults, noted_writes_give, noted_writes_keep_apart, unread_writes_give,
};
use mg_engine_meaning_laws::reads_go_on;
use mg_model::{Refusal, Table};
use mg_no_damage_laws::{
    reads_meet_no_damage, sound_images_are_lawful, writes_meet_no_damage, writes_take_few,
};
use mg_records::Write;
use mg_taking_back::write_noted;

/// Writes a row of a table that was given to an active transaction, once the table's keys are noted.
///
/// # Errors
///
/// As `note_keys_first`; and as `write_noted` of mg_taking_back.
pub(crate) fn write_row<D: Disk>(
    core: &mut Core<D>,
    t: TxNo,
    table: &Table,
    write: &Write,
) -> Result<(), Refusal>
    requires core { IsCore D.meaning core.old }
    requires given { MayBeGiven table.now }
    requires fits { FitsShape table.now.shape write.now }
    ensures core { IsCore D.meaning core.new }
    ensures writes { WritesFirst D.meaning core.old core.new t table.now write.now result }
{
    match note_keys_first(core, t, table) {
        Ok(()) => write_noted(core, t, table, write),
        Err(refusal) => Err(refusal),
    }
}

/// An engine that writes a row so gives the write's event, and all else goes on.
pub(crate) fn changes_go_on<D: Disk>()
    ensures { ChangesGoOn D D.meaning }
{
    reads_go_on::<D, Place>();
    notes_go_on::<D>();
    unread_writes_give::<D, Place>();
    noted_writes_give::<D, Place>();
    noted_writes_keep_apart::<D, Place>();
    changes_tell_faults::<D>();
    writes_meet_no_damage::<D>();
    writes_take_few::<D>();
    reads_meet_no_damage::<D>();
    sound_images_are_lawful();
}

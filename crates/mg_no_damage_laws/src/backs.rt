//! The laws.

ghost use Rattle.mg_no_damage_laws.specs.Backs.{MarksMeetNoDamage, SavepointsMeetNoDamage};
ghost use Rattle.mg_no_damage_laws.specs.BackKeys.{KeysMeetNoDamage, KeysMissNoPage};
ghost use Rattle.mg_no_damage_laws.specs.BackRows.{RowsMeetNoDamage};
ghost use Rattle.mg_no_damage_laws.specs.BackTables.{MarksOverMeetNoDamage, SavepointsOverMeetNoDamage};
ghost use Rattle.mg_no_damage_laws.specs.EntryBacks.{AllStandBack, OthersStandBack};

use crate::{
    keys_are_read, lawful_records_are_read, lawful_tables_are_read, pages_are_taken,
    records_change, sound_images_are_lawful, versions_go_out,
};
use mg_base::Disk;
use mg_engine_change_laws::{
    backs_are_known, kept_tables_stand, keys_enter_midway, rows_are_given,
};
use mg_engine_step_laws::rows_go_on;
use mg_entry_tie_laws::insertions_meet_none;
use mg_seek::{keys_are_those_of_the_history, records_are_those_of_every_reading};
use mg_space::FireLinks;

/// A key is taken back.
pub fn keys_meet_no_damage<D: Disk>()
    ensures damage { KeysMeetNoDamage D D.meaning }
    ensures pages { KeysMissNoPage D D.meaning }
{
    kept_tables_stand();
    keys_are_those_of_the_history();
    records_are_those_of_every_reading();
    sound_images_are_lawful();
    lawful_tables_are_read::<D>();
    keys_are_read::<D>();
    records_change::<D>();
    keys_enter_midway::<D>();
    insertions_meet_none();
    pages_are_taken();
}

/// A transaction is taken back to a point, where no table goes.
pub fn backs_meet_no_damage<D: Disk>()
    ensures marks { MarksMeetNoDamage D D.meaning }
    ensures savepoints { SavepointsMeetNoDamage D D.meaning }
{
    backs_are_known::<D, u32>();
    keys_meet_no_damage::<D>();
}

/// A row of the catalog is taken out in a batch of its own.
pub fn rows_meet_no_damage<D: Disk>()
    ensures { RowsMeetNoDamage D D.meaning }
{
    records_are_those_of_every_reading();
    sound_images_are_lawful();
    lawful_records_are_read::<D>();
    lawful_tables_are_read::<D>();
    versions_go_out::<D>();
    records_change::<D>();
}

/// A transaction is taken back to a point, over tables that it has made.
pub fn backs_over_meet_no_damage<D: Disk>()
    ensures marks { MarksOverMeetNoDamage D D.meaning }
    ensures savepoints { SavepointsOverMeetNoDamage D D.meaning }
{
    backs_are_known::<D, u32>();
    records_are_those_of_every_reading();
    rows_are_given();
    rows_go_on::<D, FireLinks>();
    keys_meet_no_damage::<D>();
    rows_meet_no_damage::<D>();
}

/// The trees of a table stand at each change of it that a transaction takes back to a point, before entries of what comes
/// back are laid.
pub fn trees_stand_back<D: Disk>()
    ensures all { AllStandBack D D.meaning }
    ensures others { OthersStandBack D D.meaning }
{
    backs_are_known::<D, u32>();
    records_are_those_of_every_reading();
    rows_are_given();
    rows_go_on::<D, FireLinks>();
    keys_meet_no_damage::<D>();
    rows_meet_no_damage::<D>();
    keys_enter_midway::<D>();
}

//! The laws.

ghost use Rattle.mg_no_damage_laws.specs.Calls.{AsksMeetNone, BeginsMeetNone, CommitsMeetNone, LooksMeetNone, PageWritesMeetNone, PointsMeetNone, RollbacksMeetNone, StepsMeetNone, WaitsMeetNone, WritesMeetNone};

use crate::{
    numbers_are_drawn, pages_are_taken, reads_meet_no_damage, records_are_made, records_change,
    rows_are_keyed, sound_images_are_lawful, writes_have_keys,
};
use mg_base::Disk;
use mg_core::Place;
use mg_engine_change_laws::{
    befores_are_told, first_batches_stay, made_writes_follow, noted_tables_are_quiet,
    seen_may_be_written, stored_rows_are_coded,
};
use mg_engine_step_laws::{keys_are_answered, lists_go_on, unasking_lasts};
use mg_entry_tie_laws::insertions_meet_none;
use mg_heap::tables_of_layouts_are_walked;
use mg_image_overlay_laws::sound_images_stand_one_way;
use mg_model::histories_go_on;
use mg_seek::records_are_those_of_every_reading;
use mg_space::FireLinks;
use mg_waits::{notes_follow_the_machine, verdicts_are_the_machines};

/// Transactions begin.
pub fn begins_meet_no_damage<D: Disk>()
    ensures { BeginsMeetNone D D.meaning }
{
    numbers_are_drawn::<D>();
}

/// Events that change what is in memory alone.
pub fn events_meet_no_damage<D: Disk>()
    ensures looks { LooksMeetNone D D.meaning }
    ensures waits { WaitsMeetNone D D.meaning }
    ensures points { PointsMeetNone D D.meaning }
    ensures rollbacks { RollbacksMeetNone D D.meaning }
{}

/// Commits, and page writes.
pub fn commits_meet_no_damage<D: Disk>()
    ensures asks { AsksMeetNone D D.meaning }
    ensures steps { StepsMeetNone D D.meaning }
    ensures ends { CommitsMeetNone D D.meaning }
    ensures pages { PageWritesMeetNone D D.meaning }
{}

/// Rows are written.
pub fn writes_meet_no_damage<D: Disk>()
    ensures { WritesMeetNone D D.meaning }
{
    keys_are_answered();
    histories_go_on();
    verdicts_are_the_machines();
    notes_follow_the_machine();
    befores_are_told();
    made_writes_follow();
    seen_may_be_written();
    stored_rows_are_coded();
    sound_images_stand_one_way();
    tables_of_layouts_are_walked();
    noted_tables_are_quiet::<D>();
    lists_go_on::<D, FireLinks>();
    unasking_lasts::<D, FireLinks>();
    records_are_those_of_every_reading();
    sound_images_are_lawful();
    rows_are_keyed();
    reads_meet_no_damage::<D>();
    writes_have_keys::<D>();
    records_are_made::<D>();
    records_change::<D>();
    first_batches_stay::<D, Place>();
    insertions_meet_none();
    pages_are_taken();
}

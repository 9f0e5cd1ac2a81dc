//! A row is written at the engine, as laws on an engine that stands for a history: what each stage of
//! `mg_core::Core::write_step` says of the machine. Each function does nothing: its contract is the law.
//!
//! Owns: the laws from what the core tells of a write to what its keeper owes. A write that is refused before its version
//! is laid gives the event with the machine's refusal (`refusals_go_on`), and so does one for which pages were not read
//! before it began (`unread_writes_give`). Of one that is made: memory follows the entry
//! (`made_writes_follow`), what stood at the key is known (`befores_are_told`), the table may be written into
//! (`seen_may_be_written`), the version codes the row of the event (`stored_rows_are_coded`), its way goes over a
//! committed version or a dead one (`ways_are_free`), the catalog's tables stay plain (`writes_keep_plain`), and the pages
//! that transactions hold stay theirs (`writes_keep_tips`).
//! With all of these, an engine that has written a row goes on with its event: where the version was pushed over a
//! committed one or put in place of the transaction's own (`rows_go_on`), is the first one of a record
//! (`new_rows_go_on`), or was pushed where a dead transaction's version was taken out (`over_dead_rows_go_on`); and on
//! each of these ways it gives the event as a keeper of records owes it (`made_rows_give`). The first batch of the last
//! two ways leaves the engine with its history (`first_batches_stay`).

ghost use Rattle.mg_engine_change_laws.specs.rows.Befores.{BeforesAreTold};
ghost use Rattle.mg_engine_change_laws.specs.rows.Codes.{StoredRowsAreCoded};
ghost use Rattle.mg_engine_change_laws.specs.rows.Kept.{MadeWritesFollow};
ghost use Rattle.mg_engine_change_laws.specs.rows.Laid.{DeadsStay, EntriesStayOver, NewRowsGoOn, OverDeadRowsGoOn, PlacesStay, PushedRowsGoOn, ReadyStays, ReplacedRowsGoOn};
ghost use Rattle.mg_engine_change_laws.specs.rows.Starts.{EntriesEnter, RowsEnter, StartsStand};
ghost use Rattle.mg_engine_change_laws.specs.rows.Made.{MadeRowsGive};
ghost use Rattle.mg_engine_change_laws.specs.rows.Owners.{SeenMayBeWritten};
ghost use Rattle.mg_engine_change_laws.specs.rows.Plain.{WritesKeepPlain};
ghost use Rattle.mg_engine_change_laws.specs.rows.Refusals.{RefusalsGoOn};
ghost use Rattle.mg_engine_change_laws.specs.rows.Tips.{FirstsKeepTips, GrowthKeepsTips, MovesKeepTips, PushesKeepTips, ReplacementsKeepTips, TakingOutKeepsTips};
ghost use Rattle.mg_engine_change_laws.specs.rows.Unread.{UnreadWritesGive};
ghost use Rattle.mg_engine_change_laws.specs.rows.Ways.{WaysAreFree};
ghost use Rattle.mg_image.specs.Form.{packed_form};

use mg_base::Disk;
use mg_engine_step_laws::{
    batches_last, deads_go, entries_go_on, firsts_go_on, keys_are_answered, lists_go_on,
    pushes_go_on, records_are_free, replacements_go_on, standings_go_on, tips_stay, unasking_lasts,
    writes_go_on,
};
use mg_entry_step_laws::entries_stay;
use mg_grown_catalog_laws::catalogs_grow;
use mg_heap::tables_of_layouts_are_walked;
use mg_image::one_reading;
use mg_image_overlay_laws::{names_tell_tables, sound_images_stand_one_way};
use mg_lasting_laws::crashes_hold;
use mg_model::histories_go_on;
use mg_seek::records_are_those_of_every_reading;
use mg_space::FireLinks;
use mg_undo::the_list_follows_the_machine;
use mg_waits::{notes_follow_the_machine, verdicts_are_the_machines};

/// A write that is refused before its version is laid.
pub fn refusals_go_on<D: Disk, P>()
    ensures { RefusalsGoOn D P D.meaning }
{
    keys_are_answered();
    entries_go_on::<D, FireLinks>();
    standings_go_on();
    crashes_hold();
    histories_go_on();
    batches_last::<D, FireLinks>();
    verdicts_are_the_machines();
    notes_follow_the_machine();
    sound_images_stand_one_way();
    tables_of_layouts_are_walked();
    records_are_those_of_every_reading();
}

/// A write that is refused since the keys of its table were not read.
pub fn unread_writes_give<D: Disk, P>()
    ensures { UnreadWritesGive D P D.meaning }
{
    entries_go_on::<D, FireLinks>();
    standings_go_on();
    crashes_hold();
    histories_go_on();
    batches_last::<D, FireLinks>();
}

/// Memory follows a write.
pub fn made_writes_follow()
    ensures { MadeWritesFollow }
{
    the_list_follows_the_machine();
}

/// What stands at a key before it is written.
pub fn befores_are_told()
    ensures { BeforesAreTold }
{
    records_are_those_of_every_reading();
}

/// A table that a transaction sees it may write into.
pub fn seen_may_be_written()
    ensures { SeenMayBeWritten }
{
    one_reading();
    names_tell_tables();
    catalogs_grow();
    histories_go_on();
}

/// The version that a write stores codes the row of its event.
pub fn stored_rows_are_coded()
    ensures { StoredRowsAreCoded }
{}

/// The pages of transactions stay where versions of records are written.
pub fn writes_keep_tips()
    ensures growth { GrowthKeepsTips packed_form }
    ensures pushes { PushesKeepTips packed_form }
    ensures firsts { FirstsKeepTips packed_form }
    ensures moves { MovesKeepTips packed_form }
    ensures replacements { ReplacementsKeepTips packed_form }
    ensures out { TakingOutKeepsTips packed_form }
{
    tips_stay();
    one_reading();
}

/// Tables stay plain where a record is written.
pub fn writes_keep_plain()
    ensures { WritesKeepPlain }
{
    one_reading();
}

/// The way of a write into a record that nobody is in the way of.
pub fn ways_are_free()
    ensures { WaysAreFree }
{
    records_are_free();
}

/// A row that was pushed over a committed version, or put in place of the transaction's own: the engine goes on with
/// the event.
pub fn rows_go_on<D: Disk, P>()
    ensures pushed { PushedRowsGoOn D P D.meaning }
    ensures replaced { ReplacedRowsGoOn D P D.meaning }
{
    keys_are_answered();
    histories_go_on();
    verdicts_are_the_machines();
    notes_follow_the_machine();
    befores_are_told();
    made_writes_follow();
    seen_may_be_written();
    stored_rows_are_coded();
    writes_keep_plain();
    ways_are_free();
    one_reading();
    tips_stay();
    lists_go_on::<D, FireLinks>();
    batches_last::<D, FireLinks>();
    writes_go_on::<D, FireLinks>();
    pushes_go_on::<D, FireLinks>();
    replacements_go_on::<D, FireLinks>();
    unasking_lasts::<D, FireLinks>();
    sound_images_stand_one_way();
    tables_of_layouts_are_walked();
    records_are_those_of_every_reading();
    entries_stay::<D>();
}

/// A row that is the first version of a record: the engine goes on with the event.
pub fn new_rows_go_on<D: Disk, P>()
    ensures { NewRowsGoOn D P D.meaning }
{
    keys_are_answered();
    histories_go_on();
    verdicts_are_the_machines();
    notes_follow_the_machine();
    befores_are_told();
    made_writes_follow();
    seen_may_be_written();
    stored_rows_are_coded();
    writes_keep_plain();
    ways_are_free();
    one_reading();
    tips_stay();
    lists_go_on::<D, FireLinks>();
    batches_last::<D, FireLinks>();
    writes_go_on::<D, FireLinks>();
    pushes_go_on::<D, FireLinks>();
    firsts_go_on::<D, FireLinks>();
    replacements_go_on::<D, FireLinks>();
    unasking_lasts::<D, FireLinks>();
    sound_images_stand_one_way();
    tables_of_layouts_are_walked();
    records_are_those_of_every_reading();
    entries_stay::<D>();
}

/// A row that was pushed where a dead transaction's version was taken out: the engine goes on with the event.
pub fn over_dead_rows_go_on<D: Disk, P>()
    ensures { OverDeadRowsGoOn D P D.meaning }
{
    keys_are_answered();
    histories_go_on();
    verdicts_are_the_machines();
    notes_follow_the_machine();
    befores_are_told();
    made_writes_follow();
    seen_may_be_written();
    stored_rows_are_coded();
    writes_keep_plain();
    ways_are_free();
    one_reading();
    tips_stay();
    lists_go_on::<D, FireLinks>();
    batches_last::<D, FireLinks>();
    writes_go_on::<D, FireLinks>();
    pushes_go_on::<D, FireLinks>();
    replacements_go_on::<D, FireLinks>();
    unasking_lasts::<D, FireLinks>();
    records_are_those_of_every_reading();
    deads_go::<D, FireLinks>();
    sound_images_stand_one_way();
    tables_of_layouts_are_walked();
    entries_stay::<D>();
}

/// The first batch of a version that takes two: a place is taken, or a dead transaction's version is taken out. Before it
/// pages were only read.
pub fn first_batches_stay<D: Disk, P>()
    ensures reads { ReadyStays D P D.meaning }
    ensures entries { EntriesStayOver D P D.meaning }
    ensures places { PlacesStay D P D.meaning }
    ensures deads { DeadsStay D P D.meaning }
    ensures starts { StartsStand D P D.meaning }
    ensures all { EntriesEnter D P D.meaning }
    ensures rows { RowsEnter D P D.meaning }
{
    keys_are_answered();
    histories_go_on();
    verdicts_are_the_machines();
    notes_follow_the_machine();
    befores_are_told();
    made_writes_follow();
    seen_may_be_written();
    stored_rows_are_coded();
    writes_keep_plain();
    ways_are_free();
    one_reading();
    tips_stay();
    lists_go_on::<D, FireLinks>();
    batches_last::<D, FireLinks>();
    writes_go_on::<D, FireLinks>();
    pushes_go_on::<D, FireLinks>();
    replacements_go_on::<D, FireLinks>();
    unasking_lasts::<D, FireLinks>();
    records_are_those_of_every_reading();
    deads_go::<D, FireLinks>();
    sound_images_stand_one_way();
    tables_of_layouts_are_walked();
    entries_stay::<D>();
}

/// A row that is written gives its event.
pub fn made_rows_give<D: Disk, P>()
    ensures { MadeRowsGive D P D.meaning }
{
    rows_go_on::<D, P>();
    new_rows_go_on::<D, P>();
    over_dead_rows_go_on::<D, P>();
}

//! Each outcome of CREATE TABLE. Each function's contract is the laws.

ghost use Rattle.mg_engine_change_laws.specs.tables.MakingSteps.{CreationsKeepApart, RefusalsKeepApart, TablesAreMade, TablesAreRefused};

use crate::{
    creations_are_refused, growths_stay, made_rows_are_remembered, made_rows_follow,
    made_tables_are_seen, made_tables_keep, new_rows_say_a_table,
};
use mg_base::Disk;
use mg_engine_step_laws::{
    batches_last, entries_go_on, keys_are_answered, lists_go_on, page_writes_go_on,
    standings_go_on, tips_stay, unasking_lasts,
};
use mg_image::one_reading;
use mg_image_overlay_laws::{owners_keep_stands_apart, sound_images_stand_one_way};
use mg_lasting_laws::crashes_hold;
use mg_model::histories_go_on;
use mg_space::FireLinks;
use mg_undo::a_retracted_change_was_not_kept;

/// A table that is made, and one that is refused, as a keeper of records owes it.
pub fn tables_are_made<D: Disk, P>()
    ensures made { TablesAreMade D P D.meaning }
    ensures refused { TablesAreRefused D P D.meaning }
{
    one_reading();
    sound_images_stand_one_way();
    histories_go_on();
    tips_stay();
    owners_keep_stands_apart();
    new_rows_say_a_table();
    made_rows_follow();
    made_tables_are_seen();
    made_rows_are_remembered();
    lists_go_on::<D, FireLinks>();
    made_tables_keep::<D, FireLinks>();
    batches_last::<D, FireLinks>();
    crashes_hold();
    unasking_lasts::<D, FireLinks>();
    keys_are_answered();
    growths_stay::<D>();
    a_retracted_change_was_not_kept();
    entries_go_on::<D, FireLinks>();
    standings_go_on();
    page_writes_go_on::<D, FireLinks>();
    creations_are_refused::<D, P>();
}

/// Each session has one active transaction at most after it.
pub fn creations_keep_apart<D: Disk, P>()
    ensures made { CreationsKeepApart D P D.meaning }
    ensures refused { RefusalsKeepApart D P D.meaning }
{
    one_reading();
    sound_images_stand_one_way();
    histories_go_on();
    tips_stay();
    owners_keep_stands_apart();
    new_rows_say_a_table();
    made_rows_follow();
    made_tables_are_seen();
    made_rows_are_remembered();
    lists_go_on::<D, FireLinks>();
    made_tables_keep::<D, FireLinks>();
    batches_last::<D, FireLinks>();
    crashes_hold();
    unasking_lasts::<D, FireLinks>();
    keys_are_answered();
    growths_stay::<D>();
    a_retracted_change_was_not_kept();
    entries_go_on::<D, FireLinks>();
    standings_go_on();
    page_writes_go_on::<D, FireLinks>();
    creations_are_refused::<D, P>();
}

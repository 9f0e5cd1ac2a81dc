//! A transaction is taken back to a point. Each function does nothing: its contract is the laws.

ghost use Rattle.mg_engine_change_laws.specs.backs.Known.{KnownOfBacks};
ghost use Rattle.mg_engine_change_laws.specs.backs.Outcomes.{MarksGive, SavepointsGive};

use crate::{
    cores_enter_some, cores_take_all, engines_go_back_to, keys_are_taken, keys_keep_lists,
    keys_keep_pages, others_walk_on, stops_go_on, undo_lists_give_keys,
};
use mg_base::Disk;
use mg_engine_meaning_laws::rollbacks_go;
use mg_engine_step_laws::{
    changes_are_taken_back, entries_go_on, lists_go_on, others_take_alike,
    pages_show_what_is_taken_back, standings_go_on, unasking_lasts,
};
use mg_image::one_reading;
use mg_image_overlay_laws::sound_images_stand_one_way;
use mg_lasting_laws::crashes_hold;
use mg_model::histories_go_on;
use mg_space::FireLinks;
use mg_taking_back::steps_come_to_an_end;
use mg_undo::{the_list_follows_the_machine, what_was_is_given};

/// The laws on which a transaction that is taken back stands.
pub fn backs_are_known<D: Disk, P>()
    ensures { KnownOfBacks D P D.meaning }
{
    histories_go_on();
    unasking_lasts::<D, FireLinks>();
    lists_go_on::<D, FireLinks>();
    the_list_follows_the_machine();
    what_was_is_given();
    steps_come_to_an_end();
    keys_are_taken();
    changes_are_taken_back::<D, FireLinks>();
    pages_show_what_is_taken_back();
    undo_lists_give_keys();
    cores_take_all::<D>();
    cores_enter_some::<D>();
    keys_keep_lists::<D, FireLinks>();
    keys_keep_pages::<D, FireLinks>();
    stops_go_on::<D, FireLinks>();
    others_walk_on();
    one_reading();
    sound_images_stand_one_way();
    others_take_alike();
    standings_go_on();
    crashes_hold();
    entries_go_on::<D, FireLinks>();
    rollbacks_go::<D, P>();
    engines_go_back_to::<D>();
}

/// A transaction is taken back to its last mark, or to its last savepoint of a name, or it is not.
pub fn backs_give<D: Disk, P>()
    ensures marks { MarksGive D P D.meaning }
    ensures savepoints { SavepointsGive D P D.meaning }
{
    backs_are_known::<D, P>();
}

//! A transaction is taken back, key by key. The functions do nothing: their contracts are the laws.

ghost use Rattle.mg_engine_change_laws.specs.entries.BackEntries.{KeysEnterMidway};
ghost use Rattle.mg_engine_change_laws.specs.backs.EngineBacks.{EnginesGoBackTo, OthersWalkOnBack};
ghost use Rattle.mg_engine_change_laws.specs.backs.Given.{UndoListsGiveKeys};
ghost use Rattle.mg_engine_change_laws.specs.keys.Keys.{CoresEnterSome, CoresTakeAll};
ghost use Rattle.mg_engine_change_laws.specs.keys.Takings.{CoresTakeKeys};

use crate::row_writes::stored_rows_are_coded;
use crate::{
    engines_take_back, its_records_are_found, its_tables_may_be_written, kept_tables_stand,
    key_steps_are_taken, keys_are_taken, keys_go_on, keys_keep_lists, keys_keep_pages,
    others_walk_on,
};
use mg_base::Disk;
use mg_engine_step_laws::{
    batches_last, changes_are_taken_back, lists_go_on, pages_show_what_is_taken_back,
    unasking_lasts,
};
use mg_entry_step_laws::entries_stay_midway;
use mg_image::one_reading;
use mg_image_overlay_laws::sound_images_stand_one_way;
use mg_model::histories_go_on;
use mg_space::FireLinks;
use mg_undo::what_was_is_given;

/// What the core takes back for a key is a step of the laws.
pub fn cores_take_keys<D: Disk>()
    ensures { CoresTakeKeys D D.meaning }
{
    one_reading();
    sound_images_stand_one_way();
    batches_last::<D, FireLinks>();
    entries_stay_midway::<D, FireLinks>();
    stored_rows_are_coded();
    its_records_are_found();
    its_tables_may_be_written();
    kept_tables_stand();
    key_steps_are_taken::<D>();
}

/// So are its steps for keys one after another; the cache is known after them as before.
pub fn cores_take_all<D: Disk>()
    ensures { CoresTakeAll D D.meaning }
{
    cores_take_keys::<D>();
    keys_are_taken();
    keys_go_on::<D, FireLinks>();
    keys_keep_lists::<D, FireLinks>();
}

/// The same keys are taken back once entries of a row were laid, of the table of a further change.
pub fn cores_enter_some<D: Disk>()
    ensures { CoresEnterSome D D.meaning }
{
    one_reading();
    sound_images_stand_one_way();
    batches_last::<D, FireLinks>();
    entries_stay_midway::<D, FireLinks>();
    its_records_are_found();
    its_tables_may_be_written();
}

/// So it is in the middle of a way back, for the record of a key that is taken back.
pub fn keys_enter_midway<D: Disk>()
    ensures { KeysEnterMidway D D.meaning }
{
    one_reading();
    sound_images_stand_one_way();
    batches_last::<D, FireLinks>();
    entries_stay_midway::<D, FireLinks>();
    its_records_are_found();
    its_tables_may_be_written();
}

/// The undo list of a transaction gives the keys that it has changed since a point, each with what was.
pub fn undo_lists_give_keys()
    ensures { UndoListsGiveKeys }
{
    what_was_is_given();
    keys_are_taken();
}

/// An engine whose transaction is taken back to a point stands for the history with the event, and the walks of all
/// others go on.
pub fn engines_go_back_to<D: Disk>()
    ensures stands { EnginesGoBackTo D D.meaning }
    ensures walks { OthersWalkOnBack D D.meaning }
{
    histories_go_on();
    unasking_lasts::<D, FireLinks>();
    lists_go_on::<D, FireLinks>();
    keys_are_taken();
    changes_are_taken_back::<D, FireLinks>();
    pages_show_what_is_taken_back();
    undo_lists_give_keys();
    cores_take_all::<D>();
    keys_keep_lists::<D, FireLinks>();
    engines_take_back::<D, FireLinks>();
    sound_images_stand_one_way();
    keys_keep_pages::<D, FireLinks>();
    others_walk_on();
}

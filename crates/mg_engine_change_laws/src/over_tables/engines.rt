//! A transaction is taken back over tables that it had made. The function does nothing: its contract is the laws.

ghost use Rattle.mg_engine_change_laws.specs.tables_back.EngineOver.{EnginesGoOver, OthersWalkOver};

use crate::{
    cores_take_all, cores_take_rows, keys_are_taken, keys_keep_lists, keys_keep_pages,
    others_walk_on, rows_are_given, tables_follow, tables_walks_go_on,
};
use mg_base::Disk;
use mg_engine_step_laws::{
    changed_tables_are_there, changes_are_taken_back, engines_take_tables, lists_go_on,
    pages_show_what_is_taken_back, tables_go_back, unasking_lasts,
};
use mg_grown_catalog_laws::catalogs_grow;
use mg_image_overlay_laws::sound_images_stand_one_way;
use mg_model::histories_go_on;
use mg_space::FireLinks;
use mg_undo::what_was_is_given;

/// An engine whose transaction is taken back to a point stands for the history with the event, and the walks of all
/// others go on.
pub fn engines_go_over<D: Disk>()
    ensures stands { EnginesGoOver D D.meaning }
    ensures walks { OthersWalkOver D D.meaning }
{
    histories_go_on();
    unasking_lasts::<D, FireLinks>();
    lists_go_on::<D, FireLinks>();
    keys_are_taken();
    changes_are_taken_back::<D, FireLinks>();
    pages_show_what_is_taken_back();
    what_was_is_given();
    rows_are_given();
    cores_take_all::<D>();
    keys_keep_lists::<D, FireLinks>();
    cores_take_rows::<D>();
    tables_follow();
    engines_take_tables::<D, FireLinks>();
    tables_go_back::<D, FireLinks>();
    changed_tables_are_there();
    sound_images_stand_one_way();
    keys_keep_pages::<D, FireLinks>();
    others_walk_on();
    tables_walks_go_on();
    catalogs_grow();
}

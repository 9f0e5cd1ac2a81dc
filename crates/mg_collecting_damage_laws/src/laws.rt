//! A collection meets no damage, and wants no page. The function does nothing: its contract is the laws.

ghost use Rattle.mg_collecting_damage_laws.specs.Undamaged.{CollectionsMeetNone, CollectionsMissNone, EveryMeetsNone, EveryMissesNone};

use mg_base::Disk;
use mg_engine_change_laws::writes_keep_plain;
use mg_engine_step_laws::{batches_last, lists_go_on, tips_stay};
use mg_generation_laws::garbage_may_go;
use mg_heap::tables_of_layouts_are_walked;
use mg_image::one_reading;
use mg_image_overlay_laws::sound_images_stand_one_way;
use mg_model::histories_go_on;
use mg_no_damage_laws::{
    lawful_records_are_read, lawful_tables_are_read, pages_are_taken, records_change,
    sound_images_are_lawful, stands_are_read,
};
use mg_seek::records_are_those_of_every_reading;
use mg_space::FireLinks;

/// A record that is collected at a place meets no damage, made or refused, and is refused for want of pages nowhere.
pub fn collections_meet_no_damage<D: Disk>()
    ensures damage { CollectionsMeetNone D D.meaning }
    ensures pages { CollectionsMissNone D D.meaning }
{
    one_reading();
    sound_images_stand_one_way();
    tips_stay();
    lists_go_on::<D, FireLinks>();
    writes_keep_plain();
    garbage_may_go();
    histories_go_on();
    tables_of_layouts_are_walked();
    batches_last::<D, FireLinks>();
    sound_images_are_lawful();
    stands_are_read::<D>();
    pages_are_taken();
    lawful_records_are_read::<D>();
    lawful_tables_are_read::<D>();
    records_change::<D>();
}

/// The collection of every record of the committed tables meets no damage, made or refused, and is refused for want of pages
/// nowhere.
pub fn every_meets_no_damage<D: Disk>()
    ensures damage { EveryMeetsNone D D.meaning }
    ensures pages { EveryMissesNone D D.meaning }
{
    one_reading();
    sound_images_stand_one_way();
    tips_stay();
    lists_go_on::<D, FireLinks>();
    writes_keep_plain();
    garbage_may_go();
    histories_go_on();
    tables_of_layouts_are_walked();
    records_are_those_of_every_reading();
    batches_last::<D, FireLinks>();
    sound_images_are_lawful();
    stands_are_read::<D>();
    pages_are_taken();
    lawful_records_are_read::<D>();
    lawful_tables_are_read::<D>();
    records_change::<D>();
}

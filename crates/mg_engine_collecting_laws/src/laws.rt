//! A collection leaves the history as it was. The functions do nothing: their contracts are the laws.

ghost use Rattle.mg_engine_collecting_laws.specs.EveryLeaves.{EveryLeaves};
ghost use Rattle.mg_engine_collecting_laws.specs.EverySo.{EveryIsNobodys};
ghost use Rattle.mg_engine_collecting_laws.specs.EveryTells.{EveryTells};
ghost use Rattle.mg_engine_collecting_laws.specs.PlaceLeaves.{CollectionsLeave};
ghost use Rattle.mg_engine_collecting_laws.specs.PlaceStays.{CollectionsAreNobodys};
ghost use Rattle.mg_engine_collecting_laws.specs.PlaceTells.{CollectionsTell};
ghost use Rattle.mg_engine_collecting_laws.specs.Remains.{RemainsStand};
ghost use Rattle.mg_engine_collecting_laws.specs.StepKeeps.{StepKeeps};
ghost use Rattle.mg_image.specs.Form.{packed_form};

use mg_base::Disk;
use mg_engine_change_laws::writes_keep_plain;
use mg_engine_step_laws::{batches_last, lists_go_on, page_writes_go_on, tips_stay};
use mg_generation_laws::garbage_may_go;
use mg_heap::tables_of_layouts_are_walked;
use mg_image::one_reading;
use mg_image_overlay_laws::sound_images_stand_one_way;
use mg_model::histories_go_on;
use mg_seek::records_are_those_of_every_reading;
use mg_space::FireLinks;

/// What remains of a record's versions stands for the same history.
pub fn collections_stand()
    ensures { RemainsStand }
{
    garbage_may_go();
}

/// Each step of a collection keeps every overlay.
pub fn steps_keep<D: Disk>()
    ensures { StepKeeps packed_form D D.meaning }
{
    one_reading();
}

/// A record that is collected at a place is nobody's event, made or refused.
pub fn collections_are_nobodys<D: Disk, P>()
    ensures { CollectionsAreNobodys D P D.meaning }
{
    one_reading();
    sound_images_stand_one_way();
    tips_stay();
    lists_go_on::<D, FireLinks>();
    writes_keep_plain();
    garbage_may_go();
    histories_go_on();
    tables_of_layouts_are_walked();
    batches_last::<D, FireLinks>();
    page_writes_go_on::<D, FireLinks>();
}

/// What is left of it is what remains by the history that the engine stands for.
pub fn collections_leave<D: Disk, P>()
    ensures { CollectionsLeave D P D.meaning }
{
    tables_of_layouts_are_walked();
}

/// It tells each fault of the disk.
pub fn collections_tell_faults<D: Disk>()
    ensures { CollectionsTell D D.meaning }
{}

/// The collection of every record of the committed tables is nobody's event, made or refused.
pub fn every_is_nobodys<D: Disk, P>()
    ensures { EveryIsNobodys D P D.meaning }
{
    one_reading();
    sound_images_stand_one_way();
    tips_stay();
    lists_go_on::<D, FireLinks>();
    writes_keep_plain();
    garbage_may_go();
    histories_go_on();
    records_are_those_of_every_reading();
    batches_last::<D, FireLinks>();
    page_writes_go_on::<D, FireLinks>();
}

/// What is left of each of them is what remains by the history that the engine stands for.
pub fn every_leaves<D: Disk, P>()
    ensures { EveryLeaves D P D.meaning }
{
    one_reading();
    sound_images_stand_one_way();
    tips_stay();
    lists_go_on::<D, FireLinks>();
    writes_keep_plain();
    garbage_may_go();
    histories_go_on();
    tables_of_layouts_are_walked();
    records_are_those_of_every_reading();
    batches_last::<D, FireLinks>();
    page_writes_go_on::<D, FireLinks>();
}

/// It tells each fault of the disk.
pub fn every_tells_faults<D: Disk>()
    ensures { EveryTells D D.meaning }
{}

//! A transaction takes back what it has changed since a mark or a savepoint, as laws on an engine that stands for a
//! history.
//!
//! Owns: which changes are taken back to a point, and in which order of keys (`ToTake`: the first change of each key
//! tells the keys, each is taken back in turn, and at the end none is left); what each step tells, and what is known of
//! the cache and of the pages after all steps (`Steps`); that what is found for a key is the record that spoke for it at
//! first (`Found`); what is in memory then (`Memory`), and which tables each active transaction finds (`BackFinds`: where
//! it found them, as long as the one that took back sees no other tables than it saw). So the engine stands for the
//! history with the entry (`BacksGoOn`); and where the event is refused after some keys, for the history with the
//! refused event and the rollback (`BacksAreGivenUp`).
//!
//! `ToTake`, `Steps`, `Found`, `Memory`, `BackFinds` and `Backs` of `specs/` have what counts, the other files prove it.

ghost use Rattle.mg_engine_change_laws.specs.backs.BackFinds.{BackFinds};
ghost use Rattle.mg_engine_change_laws.specs.backs.Backs.{BacksAreGivenUp, BacksGoOn};
ghost use Rattle.mg_engine_change_laws.specs.keys.Found.{ChangesAreThere, ItsRecordIsFound};
ghost use Rattle.mg_engine_change_laws.specs.backs.Memory.{BacksFollow};
ghost use Rattle.mg_engine_change_laws.specs.keys.TakingSteps.{KeysGoOn};
ghost use Rattle.mg_engine_change_laws.specs.backs.ToTake.{KeysAreTaken, SinceAreTaken, WasIsTold};

use crate::engines_give_up;
use mg_base::Disk;
use mg_careful::Links;
use mg_engine_step_laws::{
    batches_last, changes_are_taken_back, engines_go_back, memory_follows,
    pages_show_what_is_taken_back,
};
use mg_entry_step_laws::entries_stay_midway;
use mg_image_overlay_laws::sound_images_stand_one_way;
use mg_model::histories_go_on;
use mg_seek::records_are_those_of_every_reading;
use mg_undo::the_list_follows_the_machine;

/// The changes since a point are those that are taken back; their keys are taken one after another.
pub fn keys_are_taken()
    ensures since { SinceAreTaken }
    ensures keys { KeysAreTaken }
    ensures was { WasIsTold }
{}

/// The cache and the pages go on to be in the middle, key after key.
pub fn keys_go_on<D: Disk, L: Links>()
    ensures { KeysGoOn D L D.meaning }
{
    batches_last::<D, L>();
    sound_images_stand_one_way();
    entries_stay_midway::<D, L>();
    changes_are_taken_back::<D, L>();
    pages_show_what_is_taken_back();
}

/// Each active transaction finds its tables after one has taken back.
pub fn tables_are_found_back()
    ensures { BackFinds }
{
    sound_images_stand_one_way();
    memory_follows();
}

/// Memory follows the entry by which a transaction is taken back.
pub fn backs_follow()
    ensures { BacksFollow }
{
    keys_are_taken();
    the_list_follows_the_machine();
}

/// A transaction that is taken back takes an engine to the history with the entry; one that is given up in the middle,
/// to the history with the refused event and the rollback.
pub fn engines_take_back<D: Disk, L: Links>()
    ensures back { BacksGoOn D L D.meaning }
    ensures given_up { BacksAreGivenUp D L D.meaning }
{
    histories_go_on();
    keys_are_taken();
    keys_go_on::<D, L>();
    tables_are_found_back();
    backs_follow();
    changes_are_taken_back::<D, L>();
    pages_show_what_is_taken_back();
    engines_go_back::<D, L>();
    engines_give_up::<D, L>();
}

/// What is found in the middle to speak for a key is the record that spoke for it at first.
pub fn its_records_are_found()
    ensures found { ItsRecordIsFound }
    ensures changes { ChangesAreThere }
{
    records_are_those_of_every_reading();
}

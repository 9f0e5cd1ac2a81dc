//! An engine is opened and closed, as laws on the history that it stands for.
//!
//! Owns: what an engine is over a disk that was opened (`OpensEngine`): where the disk holds a sound image and nothing is
//! pending, it stands for the history that begins with that image and has no entry, and where it was opened over a disk
//! on which a database may be made, for that of a new database (`NewBegin`); what it leaves that is closed
//! (`ClosesEngine`): nothing is pending, and the image is sound and holds what the history has after its last durable
//! event. So two opened runs compose (`RunsCompose`).
//!
//! `specs/Openings`, `specs/Closings` and `specs/Laws` have what counts, the other files prove it. There is no program
//! here: each function does nothing, and its contract is a law.

ghost use Rattle.mg_engine_meaning_laws.specs.CallLaws.{ClosingsLeave, LeftIsTakenUp, OpeningsStand, RunsCompose};
ghost use Rattle.mg_engine_meaning_laws.specs.NewBegins.{NewBegin};

use mg_base::Disk;
use mg_engine_step_laws::{chosen_tables_stand, standings_begin};
use mg_grown_catalog_laws::catalogs_grow;
use mg_heap::walks_of_layouts_meet_no_damage;
use mg_image::one_reading;
use mg_image_overlay_laws::sound_images_stand_one_way;
use mg_lasting_laws::{pools_last, starts_last};
use mg_model::histories_go_on;
use mg_new_database_laws::{new_databases_are_readable, new_databases_are_sound};
use mg_space::FireLinks;
use mg_txlist::loaded_lists_say_what_images_say;

/// A history may begin with what a new database holds.
pub fn new_databases_begin()
    ensures { NewBegin }
{
    new_databases_are_sound();
    sound_images_stand_one_way();
}

/// An engine over a disk that was opened stands for the history that begins with the disk's image.
pub fn openings_stand<D: Disk>()
    ensures { OpeningsStand D D.meaning }
{
    walks_of_layouts_meet_no_damage::<D>();
    new_databases_are_readable();
    new_databases_begin();
    standings_begin();
    starts_last::<D, FireLinks>();
    loaded_lists_say_what_images_say();
    histories_go_on();
    one_reading();
    chosen_tables_stand();
}

/// An engine that is closed leaves what its history has.
pub fn closings_leave<D: Disk>()
    ensures { ClosingsLeave D D.meaning }
{
    pools_last::<D, FireLinks>();
    histories_go_on();
}

/// What an engine has left on a disk is what another one begins with that is opened over it: two runs compose.
pub fn runs_compose<D: Disk>()
    ensures left { LeftIsTakenUp D D.meaning }
    ensures closed { RunsCompose D D.meaning }
{
    histories_go_on();
    catalogs_grow();
}

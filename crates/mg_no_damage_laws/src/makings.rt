//! The law.

ghost use Rattle.mg_no_damage_laws.specs.Creations.{CreationsMeetNone};

use crate::{reads_meet_no_damage, sound_images_are_lawful, tables_are_made};
use mg_base::Disk;
use mg_engine_step_laws::keys_are_answered;
use mg_grown_catalog_laws::catalogs_grow;
use mg_image::one_reading;
use mg_model::histories_go_on;
use mg_seek::records_are_those_of_every_reading;

/// A table is made.
pub fn creations_meet_no_damage<D: Disk, P>()
    ensures { CreationsMeetNone D P D.meaning }
{
    sound_images_are_lawful();
    reads_meet_no_damage::<D>();
    keys_are_answered();
    histories_go_on();
    one_reading();
    catalogs_grow();
    records_are_those_of_every_reading();
    tables_are_made::<D>();
}

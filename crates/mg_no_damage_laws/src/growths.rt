//! The law.

ghost use Rattle.mg_no_damage_laws.specs.CatalogGrowth.{CreationsGrowFew};

use crate::{
    pages_are_taken, reads_meet_no_damage, sound_images_are_lawful, stands_are_read,
    tables_are_made,
};
use mg_base::Disk;
use mg_engine_step_laws::keys_are_answered;
use mg_grown_catalog_laws::catalogs_grow;
use mg_image::one_reading;
use mg_model::histories_go_on;
use mg_seek::records_are_those_of_every_reading;

/// The catalog gets few data pages for a table.
pub fn creations_grow_few<D: Disk, P>()
    ensures { CreationsGrowFew D P D.meaning }
{
    sound_images_are_lawful();
    reads_meet_no_damage::<D>();
    keys_are_answered();
    histories_go_on();
    one_reading();
    catalogs_grow();
    records_are_those_of_every_reading();
    tables_are_made::<D>();
    stands_are_read::<D>();
    pages_are_taken();
}

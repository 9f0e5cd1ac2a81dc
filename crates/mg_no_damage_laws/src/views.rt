//! A table is looked for without meeting damage.

ghost use Rattle.mg_no_damage_laws.specs.Views.{TablesMeetNone};

use crate::{lawful_tables_are_read, sound_images_are_lawful};
use mg_base::Disk;
use mg_engine_step_laws::{found_tables_stand, seen_rows_are_lawful};
use mg_model::histories_go_on;

/// A table is found under its name, or none, and no page is damaged.
pub fn tables_meet_no_damage<D: Disk>()
    ensures { TablesMeetNone D D.meaning }
{
    sound_images_are_lawful();
    lawful_tables_are_read::<D>();
    histories_go_on();
    found_tables_stand();
    seen_rows_are_lawful();
}

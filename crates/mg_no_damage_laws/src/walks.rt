//! Walks over tables.

ghost use Rattle.mg_no_damage_laws.specs.Walks.{VisitsMeetNone};

use crate::{
    lawful_tables_are_read, pages_are_there, rows_are_keyed, sound_images_are_lawful, walks_ascend,
};
use mg_base::Disk;
use mg_seek::{records_are_those_of_every_reading, walks_are_whole};

/// A walk behind whose place rows are to come meets no damage.
pub fn visits_meet_no_damage<D: Disk>()
    ensures { VisitsMeetNone D D.meaning }
{
    lawful_tables_are_read::<D>();
    pages_are_there::<D>();
    walks_ascend();
    rows_are_keyed();
    sound_images_are_lawful();
    records_are_those_of_every_reading();
    walks_are_whole();
}

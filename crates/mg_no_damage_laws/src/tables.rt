//! The law.

ghost use Rattle.mg_no_damage_laws.specs.NewTables.{TablesAreMade};

use crate::{pages_are_taken, stands_are_read};
use mg_base::Disk;
use mg_image::one_reading;

/// A table is made.
pub fn tables_are_made<D: Disk>()
    ensures { TablesAreMade D.meaning }
{
    stands_are_read::<D>();
    pages_are_taken();
    one_reading();
}

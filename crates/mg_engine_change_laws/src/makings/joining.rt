//! The pages with a new table.
//!
//! Owns: what is read of them where the maker counts as dead (`TablesAreRead`): the catalog's records as before, and each
//! row of the table as the first version of a new one. And the law from the pages before a table is made, in which its
//! maker counts as in limbo with all that it has made before, and those after, in which it counts as dead with all of
//! that, to those after in which it counts as in limbo: they are sound, and have the rows of the new table beside all
//! that was read before (`JoinedAreSound`); and they are what they have to be for the history with an entry for each row
//! (`JoinedAreKept`).
//!
//! So the steps of a batch are taken with the maker dead, and the tables that it has made before need not be among them.
//! So every overlay is kept for the history with an entry for each row (`MadeTableKeeps`), where the pages are there.

ghost use Rattle.mg_engine_change_laws.specs.tables.Joined.{JoinedAreKept, JoinedAreSound};
ghost use Rattle.mg_engine_change_laws.specs.tables.JoinedBatch.{MadeTableKeeps};
ghost use Rattle.mg_engine_change_laws.specs.tables.TableReads.{TablesAreRead};
ghost use Rattle.mg_image.specs.Form.{packed_form};

use mg_base::Disk;
use mg_careful::Links;
use mg_image::one_reading;
use mg_tie_laws::made_tables_are_kept;

/// What is read of a batch with a new table, its maker dead.
pub fn new_tables_are_read<D: Disk, L: Links>()
    ensures { TablesAreRead packed_form D L }
{}

/// Pages with a new table stand where its maker counts as in limbo.
pub fn joined_tables_stand()
    ensures sound { JoinedAreSound packed_form }
    ensures kept { JoinedAreKept packed_form }
{}

/// A batch with a new table keeps every overlay.
pub fn made_tables_keep<D: Disk, L: Links>()
    ensures { MadeTableKeeps packed_form D L D.meaning }
{
    one_reading();
    made_tables_are_kept::<D, L>();
}

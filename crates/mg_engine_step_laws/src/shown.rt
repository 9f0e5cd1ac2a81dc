//! What is known once tables are taken back. Each function does nothing: its contract is the law.

ghost use Rattle.mg_engine_step_laws.specs.tables_back.LeftShown.{ShowsLeft};
ghost use Rattle.mg_engine_step_laws.specs.tables_back.TablesBack.{RowsGoOn, TablesAreTaken, TablesGoBack};

use crate::{
    batches_last, changed_tables_are_there, memory_follows, rows_are_taken, rows_away_keep,
    taken_tables_are_there,
};
use mg_base::Disk;
use mg_careful::Links;
use mg_grown_catalog_laws::catalogs_grow;
use mg_image::one_reading;

/// Pages without the rows and their tables show the history that has the entry.
pub fn left_tables_are_shown()
    ensures { ShowsLeft }
{
    one_reading();
    catalogs_grow();
    memory_follows();
    changed_tables_are_there();
}

/// A row goes in a batch of its own, with its maker dead whatever comes of the next ones.
pub fn rows_go_on<D: Disk, L: Links>()
    ensures { RowsGoOn D L D.meaning }
{
    one_reading();
    batches_last::<D, L>();
    rows_away_keep::<D, L>();
    rows_are_taken::<D, L>();
}

/// Once those of all have gone, nothing is left to take back.
pub fn tables_go_back<D: Disk, L: Links>()
    ensures back { TablesGoBack D L D.meaning }
    ensures taken { TablesAreTaken D L D.meaning }
{
    one_reading();
    left_tables_are_shown();
    taken_tables_are_there::<D, L>();
    changed_tables_are_there();
    rows_go_on::<D, L>();
}

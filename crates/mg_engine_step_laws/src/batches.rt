//! Rows of the catalog are taken out, each in a batch of its own. Each function's contract is the law.

ghost use Rattle.mg_engine_step_laws.specs.tables_back.Outs.{OutsThere, RowAwayKeeps};
ghost use Rattle.mg_engine_step_laws.specs.tables_back.RowsTaken.{RowsAreTaken};
ghost use Rattle.mg_image.specs.Form.{packed_form};

use mg_base::Disk;
use mg_careful::Links;
use mg_image::one_reading;
use mg_seek::records_are_those_of_every_reading;

/// A batch that takes a row out keeps every overlay in which its maker counts as dead.
pub fn rows_away_keep<D: Disk, L: Links>()
    ensures { RowAwayKeeps packed_form D L D.meaning }
{
    one_reading();
}

/// Such batches in turn leave and take what the law of pages without tables wants, where their keys are of whole tables.
pub fn taken_tables_are_there<D: Disk, L: Links>()
    ensures { OutsThere packed_form D L }
{
    one_reading();
}

/// What the core takes out of the catalog is such a row.
pub fn rows_are_taken<D: Disk, L: Links>()
    ensures { RowsAreTaken D L }
{
    records_are_those_of_every_reading();
}

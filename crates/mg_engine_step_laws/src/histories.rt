//! Tables that a transaction has changed, and those that it sees. Each function does nothing: its contract is the laws.

ghost use Rattle.mg_engine_step_laws.specs.tables_back.ChangedTables.{ChangedAreThere, NoneOfGone};
ghost use Rattle.mg_engine_step_laws.specs.tables_back.ShapesLeft.{ShapesLeft};

use mg_grown_catalog_laws::catalogs_grow;

/// A transaction changes tables alone whose row it has made itself, or which the database has; so it has no change left of
/// one whose row it has taken back.
pub fn changed_tables_are_there()
    ensures there { ChangedAreThere }
    ensures gone { NoneOfGone }
{
    catalogs_grow();
}

/// It sees the tables that it saw, but for those whose rows have gone.
pub fn left_tables_are_seen()
    ensures { ShapesLeft }
{
    catalogs_grow();
}

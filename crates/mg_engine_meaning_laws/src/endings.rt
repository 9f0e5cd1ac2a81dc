//! A rollback, as a law on an engine that stands for a history.
//!
//! Owns: the law (`RollbacksGoOn`): no page changes, and the engine stands for the history with the rollback, with
//! the layout that the pages have where the transaction counts as dead. Below it stands what becomes of the tables
//! of a sound image where one transaction comes to count as dead instead of in limbo (`specs/Falling`): those stay,
//! with their records, that it has not made, and of one that goes no other transaction's version counted. Which
//! versions records have depends on a table's name and shape alone (`specs/AlikeTables`).
//!
//! It takes histories in which rows of the catalog are only made (`CatalogGrows`): so no open transaction has made
//! the row of a table that another one sees, however old its base is.
//!
//! All stands in `specs/`. There is no program here: the function does nothing, and its contract is the law.

ghost use Rattle.mg_engine_meaning_laws.specs.Rollbacks.{RollbacksGoOn};

use mg_base::Disk;
use mg_careful::Links;
use mg_engine_step_laws::{
    batches_last, entries_go_on, memory_follows, page_writes_go_on, standings_go_on, versions_go_on,
};
use mg_grown_catalog_laws::catalogs_grow;
use mg_image::one_reading;
use mg_model::histories_go_on;

/// A rollback takes an engine to the history with it.
pub fn rollbacks_go_on<D: Disk, L: Links>()
    ensures { RollbacksGoOn D L D.meaning }
{
    one_reading();
    histories_go_on();
    catalogs_grow();
    versions_go_on();
    memory_follows();
    standings_go_on();
    batches_last::<D, L>();
    entries_go_on::<D, L>();
    page_writes_go_on::<D, L>();
}

//! Catalogs are lawful to each transaction that reads them.
//!
//! Owns: the law that the catalog of the database is lawful, as the history has it (`DatabasesAreLawful`), and that each row
//! of it is lawful that an active transaction sees (`SeenRowsAreLawful`), however old its base is, where the catalog of
//! the base is so. A sound image alone doesn't say this of an old base: of two transactions that are both committed by
//! now, one may have made a table's row and the other those of its columns.
//!
//! All stands in `specs/`. There is no program here: each function does nothing, and its contract is a law.

ghost use Rattle.mg_engine_step_laws.specs.tables.Lawful.{DatabasesAreLawful, SeenRowsAreLawful};

use crate::{chains_go_on, keys_are_answered, newest_are_seen};
use mg_generation_laws::chains_tell;
use mg_grown_catalog_laws::catalogs_grow;
use mg_seek::records_are_those_of_every_reading;

/// The catalog of the database is lawful.
pub fn databases_are_lawful()
    ensures { DatabasesAreLawful }
{
    chains_tell();
}

/// The rows of the catalog that an active transaction sees are lawful.
pub fn seen_rows_are_lawful()
    ensures { SeenRowsAreLawful }
{
    records_are_those_of_every_reading();
    keys_are_answered();
    newest_are_seen();
    chains_tell();
    chains_go_on();
    catalogs_grow();
}

//! The table that is found under a name stands on the pages where the layout has it.
//!
//! Owns: the law that the table which the catalog's rows name that an active transaction sees is one of those of the
//! layout, with its name, its shape, its first page and all its indexes (`FoundTablesStand`), however old the transaction's
//! base is: rows of the catalog are only made, so the row that it sees is the one that counts for all; and that row
//! counts the table's indexes, so whoever sees it sees the row of each. And that the tables which the catalog names once
//! some of those that have not ended are committed are the layout's, too (`ChosenTablesStand`).
//!
//! All stands in `specs/`. There is no program here: each function does nothing, and its contract is a law.

ghost use Rattle.mg_engine_step_laws.specs.tables.ChosenTables.{ChosenTablesStand};
ghost use Rattle.mg_engine_step_laws.specs.tables.Found.{FoundTablesStand};

use crate::{chains_go_on, keys_are_answered, newest_are_seen, tables_are_answered};
use mg_generation_laws::chains_tell;
use mg_grown_catalog_laws::catalogs_grow;
use mg_seek::records_are_those_of_every_reading;

/// A table that is found by the rows of the catalog that an active transaction sees stands on the pages.
pub fn found_tables_stand()
    ensures { FoundTablesStand }
{
    records_are_those_of_every_reading();
    keys_are_answered();
    tables_are_answered();
    newest_are_seen();
    chains_tell();
    chains_go_on();
    catalogs_grow();
}

/// A table that the catalog names, whoever comes to be committed, is one of the layout's.
pub fn chosen_tables_stand()
    ensures { ChosenTablesStand }
{
    chains_tell();
    catalogs_grow();
}

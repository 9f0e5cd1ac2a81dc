//! Rows of the catalog that a transaction makes, one after another.
//!
//! Owns: where no version of their keys counts before, each entry is lawful as it comes, and the records have the
//! versions of the history with all of them (`RowsFollow`); what is in memory is what that history says
//! (`RowsAreRemembered`); and the transaction sees the table that they say, and every other one as before
//! (`MadeAreSeen`). They are lawful, under their own keys, and say that table alone (`RowsSayTable`).

ghost use Rattle.mg_engine_change_laws.specs.tables.NewTable.{RowsSayTable};
ghost use Rattle.mg_engine_change_laws.specs.tables.Remembering.{RowsAreRemembered};
ghost use Rattle.mg_engine_change_laws.specs.tables.Rows.{RowsFollow};
ghost use Rattle.mg_engine_change_laws.specs.tables.Seen.{MadeAreSeen};

use mg_engine_step_laws::{keys_are_answered, memory_follows, versions_go_on};
use mg_undo::the_list_follows_the_machine;

/// The records follow the entries of several rows.
pub fn made_rows_follow()
    ensures { RowsFollow }
{
    versions_go_on();
    keys_are_answered();
}

/// Memory follows them.
pub fn made_rows_are_remembered()
    ensures { RowsAreRemembered }
{
    memory_follows();
    the_list_follows_the_machine();
}

/// The maker sees the table that they say.
pub fn made_tables_are_seen()
    ensures { MadeAreSeen }
{}

/// The rows of a new table say it alone.
pub fn new_rows_say_a_table()
    ensures { RowsSayTable }
{}

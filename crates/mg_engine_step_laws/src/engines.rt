//! An engine whose transaction takes back tables that it had made. The function does nothing: its contract is the law.

ghost use Rattle.mg_engine_step_laws.specs.tables_back.EngineTables.{EnginesTakeTables};

use crate::{changes_are_taken_back, standings_go_on, tables_go_back};
use mg_base::Disk;
use mg_careful::Links;
use mg_model::histories_go_on;

/// Once the rows of its tables have gone, each in a batch of its own, the engine stands for the history with the entry.
pub fn engines_take_tables<D: Disk, L: Links>()
    ensures { EnginesTakeTables D L D.meaning }
{
    histories_go_on();
    standings_go_on();
    changes_are_taken_back::<D, L>();
    tables_go_back::<D, L>();
}

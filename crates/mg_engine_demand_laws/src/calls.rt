//! The calls.

ghost use Rattle.mg_engine_demand_laws.specs.Calls.{AsksGo, BeginsGo, CommitsGo, PagesGo, ReadsGo, RollbacksGo, RowsGo};
ghost use Rattle.mg_engine_demand_laws.specs.Engines.{EnginesStayLinked};
ghost use Rattle.mg_engine_demand_laws.specs.TableCalls.{TablesGo};

use crate::{rows_go, runs_stay_linked, tables_go};
use mg_base::Disk;

/// A transaction that begins, asks for its commit, commits or is rolled back takes its engine one step on, and so does a
/// page that is written, and one that is read; a row that is put takes it several steps on. It does nothing: its contract
/// is the law.
pub fn calls_go<D: Disk>()
    ensures begun { BeginsGo D D.meaning }
    ensures asked { AsksGo D D.meaning }
    ensures pages { PagesGo D D.meaning }
    ensures committed { CommitsGo D D.meaning }
    ensures back { RollbacksGo D D.meaning }
    ensures reads { ReadsGo D D.meaning }
    ensures rows { RowsGo D D.meaning }
{
    rows_go::<D>()
}

/// A table that is made takes its engine several steps on, once it is said that the commit is no longer asked for.
pub fn tables_are_made<D: Disk>()
    ensures { TablesGo D D.meaning }
{
    tables_go::<D>()
}

/// An engine that was opened over a sound image: whatever calls it has obeyed, each image that a crash may leave is
/// linked from the roots of the one that was opened.
pub fn engines_stay_linked<D: Disk>()
    ensures { EnginesStayLinked D D.meaning }
{
    calls_go::<D>();
    tables_are_made::<D>();
    runs_stay_linked::<D>()
}

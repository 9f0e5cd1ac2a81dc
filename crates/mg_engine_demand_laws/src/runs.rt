//! Any number of an engine's calls.

ghost use Rattle.mg_engine_demand_laws.specs.Laying.{LaysGo};
ghost use Rattle.mg_engine_demand_laws.specs.Making.{GrowthsGo, MakingsGo};
ghost use Rattle.mg_engine_demand_laws.specs.Runs.{RunsStayLinked};

use crate::laws::{caches_keep, fates_keep, openings_bear};
use crate::stores::{numbers_keep, stores_keep};
use mg_base::Disk;

/// An engine that was opened over a sound image: whatever steps its calls have taken, each image that a crash may
/// leave is linked from the roots of the one that was opened.
pub fn runs_stay_linked<D: Disk>()
    ensures { RunsStayLinked D D.meaning }
{
    caches_keep();
    fates_keep();
    openings_bear();
    stores_keep::<D>();
    numbers_keep::<D>()
}

/// A version that comes into the record of its key, on whichever way, goes there by such steps.
pub fn rows_go<D: Disk>()
    ensures { LaysGo D D.meaning }
{}

/// So does a table that is made, once its catalog has the data pages that it wants.
pub fn tables_go<D: Disk>()
    ensures growths { GrowthsGo D D.meaning }
    ensures makings { MakingsGo D D.meaning }
{}

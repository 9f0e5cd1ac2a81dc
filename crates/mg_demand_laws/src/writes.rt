//! Page writes.

ghost use Rattle.mg_demand_laws.specs.Writes.{LastsAsBefore, WritesBearLinks, WritesGo};

use crate::runs_bear;
use mg_base::Disk;
use mg_space::FireLinks;

/// Page writes of a pool are steps of a run, and leave the links borne, whatever lasts then: what did before, or what
/// is wanted of clean pages, too. It does nothing: its contract is the law.
pub fn page_writes_bear<D: Disk>()
    ensures go { WritesGo D FireLinks D.meaning }
    ensures bear { WritesBearLinks D FireLinks D.meaning }
    ensures same { LastsAsBefore D FireLinks }
{
    runs_bear()
}

//! The law of a batch, for those who fill batches.

ghost use Rattle.mg_demand_laws.specs.Bearing.{BatchesBear, BearingStarts, OverlaysAreLinked, WritesBear};
ghost use Rattle.mg_demand_laws.specs.Freeing.{AllStarts, BatchesBearAll, WritesBearAll};

use mg_careful::{Links, careful_write};

/// The law of careful write as one invariant (`BearsItsDemands`) that a writer keeps from change to change:
/// it holds where nothing is dirty; page writes keep it; so does a batch that pays for the links that
/// its own pages come to hold (`PaysDemands`); and where it holds, each image that a crash may leave is
/// linked from every root that disk and pool have.
///
/// It does nothing: its contract is the law.
pub fn demands_are_borne<L: Links>()
    ensures starts { BearingStarts L.demands_of L.meets_of }
    ensures writes { WritesBear L.demands_of L.meets_of }
    ensures batches { BatchesBear L.demands_of L.meets_of }
    ensures overlays { OverlaysAreLinked L.demands_of L.meets_of }
{
    careful_write::<L>()
}

/// The same with what lasts, and what may be dropped (`BearsAll`): it holds where nothing is dirty; page
/// writes keep it, and whatever is wanted of a page that is clean then may last; so does a batch that pays,
/// and then drops what may be dropped, each link to it ordered first (`PaysAndDrops`).
///
/// It does nothing: its contract is the law.
pub fn all_is_borne<L: Links>()
    ensures starts { AllStarts L.demands_of L.meets_of }
    ensures writes { WritesBearAll L.demands_of L.meets_of }
    ensures batches { BatchesBearAll L.demands_of L.meets_of }
{
    careful_write::<L>();
    demands_are_borne::<L>()
}

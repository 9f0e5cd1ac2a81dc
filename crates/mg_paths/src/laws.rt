//! What is promised of plans, as the contracts of functions that do nothing.

ghost use Rattle.mg_paths.specs.Covering.{PlansCover};
ghost use Rattle.mg_paths.specs.PlannedLaws.{PlannedIndexesAreThere};

/// A row whose value lies outside of the range of a plan is dropped by the filter, and no part of the filter faults at
/// it: so the rows that pass, and whether a part faults, are the same by each plan.
pub fn a_plan_covers_its_filter()
    ensures { PlansCover }
{}

/// The index of a plan is one of the table's.
pub fn planned_indexes_are_there()
    ensures { PlannedIndexesAreThere }
{}

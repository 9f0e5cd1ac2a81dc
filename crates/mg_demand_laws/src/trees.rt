//! Whole calls of index trees, several of them in one batch, and runs of such batches with page writes.

ghost use Rattle.mg_demand_laws.specs.CallRows.{CallsPay};
ghost use Rattle.mg_demand_laws.specs.CallTies.{BesideTreesPays, InsertionsPay, OneOfTreesPays, RemovalsPay, TreePartsAreOne};
ghost use Rattle.mg_demand_laws.specs.TakenTies.{TakingRowsPay};
ghost use Rattle.mg_demand_laws.specs.TreeRuns.{BatchesKeepTrees, TreeRunsBear, WritesKeepTrees};
ghost use Rattle.mg_demand_laws.specs.WholeTrees.{TreesAreWanted};

use crate::{all_is_borne, runs_bear};
use mg_space::FireLinks;

/// The pages of a tree are wanted, each on its level, where its root is wanted as the top of a tree and as nothing else.
pub fn trees_are_wanted()
    ensures { TreesAreWanted }
{}

/// An entry that is put into a tree pays, with all the pages that it takes for it: known is that the tree stands, and
/// that its pages are wanted. They are so behind it.
pub fn insertions_pay()
    ensures row { TakingRowsPay }
    ensures call { InsertionsPay }
{}

/// An entry that is taken out costs nothing.
pub fn removals_pay()
    ensures { RemovalsPay }
{}

/// Several calls in one batch pay, on several trees, and beside parts that change no tree; so does any sequence of calls.
pub fn tree_parts_pay()
    ensures calls { CallsPay }
    ensures one { OneOfTreesPays }
    ensures beside { BesideTreesPays }
    ensures both { TreePartsAreOne }
{}

/// Page writes, and batches that pay for trees, in any sequence: the demands are borne still, and the trees stand
/// and are wanted.
pub fn tree_runs_bear()
    ensures writes { WritesKeepTrees }
    ensures batches { BatchesKeepTrees }
    ensures runs { TreeRunsBear }
{
    all_is_borne::<FireLinks>();
    runs_bear()
}

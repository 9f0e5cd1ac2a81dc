//! What changes leave alone, the parts of a batch, single steps, and runs of them.

ghost use Rattle.mg_demand_laws.specs.Inserting.{InsertionsLeaveTables, RemovalsLeaveTables};
ghost use Rattle.mg_demand_laws.specs.Leaving.{TablesStay, TreesStay, TreesStayWithout};
ghost use Rattle.mg_demand_laws.specs.JointParts.{JointPartKeeps, JointPartsAreOne, OneOfTreesPaysJointly, PartThenBatchPays, TableBatchKeeps, TablePartPays, TreeBatchKeeps, TreePartPays};
ghost use Rattle.mg_demand_laws.specs.JointRuns.{JointRunsStayLinked, TableStepsAreJoint, TreeStepsAreJoint};
ghost use Rattle.mg_demand_laws.specs.JointSteps.{BatchesKeepJointly, RowsKeepJointly, WritesKeepJointly};

use crate::{all_is_borne, demands_are_borne, runs_bear, step_changes_bear};
use mg_base::Disk;
use mg_space::FireLinks;

/// A change for tables keeps the trees that it leaves alone, also where it drops versions; and one that leaves tables
/// alone keeps pointer pages orderly, and versions chained.
pub fn changes_leave_each_other()
    ensures trees { TreesStay }
    ensures dropped { TreesStayWithout }
    ensures tables { TablesStay }
{}

/// An entry that is put into a tree, and one that is taken out, leave tables alone.
pub fn calls_leave_tables()
    ensures put { InsertionsLeaveTables }
    ensures out { RemovalsLeaveTables }
{}

/// The parts of one batch pay together, for tables and for trees; and a batch of the one kind is one over both.
pub fn joint_parts_pay<D: Disk>()
    ensures table { TablePartPays D FireLinks }
    ensures tree { TreePartPays }
    ensures one { OneOfTreesPaysJointly }
    ensures both { JointPartsAreOne }
    ensures whole { JointPartKeeps }
    ensures then_batch { PartThenBatchPays }
    ensures tables { TableBatchKeeps }
    ensures trees { TreeBatchKeeps }
    ensures table_steps { TableStepsAreJoint D FireLinks }
    ensures tree_steps { TreeStepsAreJoint D FireLinks }
{}

/// Each step keeps the invariant over tables and trees.
pub fn steps_keep_jointly<D: Disk>()
    ensures writes { WritesKeepJointly D FireLinks D.meaning }
    ensures batches { BatchesKeepJointly D FireLinks D.meaning }
    ensures rows { RowsKeepJointly D FireLinks D.meaning }
{
    all_is_borne::<FireLinks>();
    runs_bear();
    step_changes_bear::<D>()
}

/// Page writes and batches, in any sequence: the invariant holds behind them, with every root, and each image that a
/// crash may leave is linked from these.
pub fn joint_runs_stay_linked<D: Disk>()
    ensures { JointRunsStayLinked D FireLinks D.meaning }
{
    steps_keep_jointly::<D>();
    demands_are_borne::<FireLinks>()
}

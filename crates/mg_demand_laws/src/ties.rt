//! The batches of the calls, by the records of their own contracts.

ghost use Rattle.mg_demand_laws.specs.Alone.{PayingDropsNothing};
ghost use Rattle.mg_demand_laws.specs.CellTies.{FirstPays, PushPays};
ghost use Rattle.mg_demand_laws.specs.EndTies.{CommitPays};
ghost use Rattle.mg_demand_laws.specs.MoveTies.{MovePays};
ghost use Rattle.mg_demand_laws.specs.OwnTies.{OutPays, OverPays};
ghost use Rattle.mg_demand_laws.specs.PoolTies.{ChangesBear, StepChangesBear};
ghost use Rattle.mg_demand_laws.specs.SettleTies.{CommitSettles, WritesLast};
ghost use Rattle.mg_demand_laws.specs.StepTies.{StepsBear};
ghost use Rattle.mg_demand_laws.specs.TableTies.{TablesAreWanted};

use crate::{all_is_borne, runs_bear};
use mg_base::Disk;
use mg_space::FireLinks;

/// A batch that the cache has changed, and that pays, leaves the links borne: whatever pages were written out
/// for it.
pub fn changes_bear<D: Disk>()
    ensures { ChangesBear D FireLinks D.meaning }
{
    runs_bear()
}

/// A batch that pays and drops several times leaves the links borne.
pub fn steps_bear()
    ensures { StepsBear }
{
    runs_bear()
}

/// So does one that the cache has changed.
pub fn step_changes_bear<D: Disk>()
    ensures { StepChangesBear D FireLinks D.meaning }
{
    steps_bear()
}

/// A batch that pays may drop nothing.
pub fn paying_batches_drop_nothing()
    ensures { PayingDropsNothing }
{}

/// The pages of a table are wanted where its first pointer page is: each pointer page demands its data pages, and
/// the next one.
pub fn tables_are_wanted()
    ensures { TablesAreWanted }
{}

/// A version that version chains write pays for its table's new pages, for its cell, and for its slot.
pub fn writes_pay<D: Disk>()
    ensures push { PushPays D FireLinks }
    ensures first { FirstPays D FireLinks }
{}

/// A transaction's own newest version that is written over in its cell costs nothing; one that is moved to
/// another cell pays as a new one does, and one that is taken out for the slot that is turned; then it is
/// dropped.
pub fn own_versions_pay<D: Disk>()
    ensures over { OverPays D FireLinks }
    ensures moved { MovePays D FireLinks }
    ensures out { OutPays D FireLinks }
{}

/// A commit that the transaction list has made pays for its bits.
pub fn commits_pay<D: Disk>()
    ensures { CommitPays D FireLinks D.meaning }
{}

/// The versions of a transaction that commits last, page by page, as they are written; once all of them do, it is
/// settled.
pub fn commits_settle()
    ensures writes { WritesLast }
    ensures settles { CommitSettles }
{
    all_is_borne::<FireLinks>()
}

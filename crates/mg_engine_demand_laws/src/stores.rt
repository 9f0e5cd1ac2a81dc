//! An engine's store: its batches, and its page writes.

ghost use Rattle.mg_engine_demand_laws.specs.Numbers.{CommitsKeep, DrawsKeep};
ghost use Rattle.mg_engine_demand_laws.specs.Stores.{PageWritesKeep, ReadsKeep, StoreChangesKeep};
ghost use Rattle.mg_engine_demand_laws.specs.Writes.{FirstsPay, GrowthPays, MakingPays, PlacesPay, PushesPay, ReplacementsPay, TakingOutPays};

use crate::laws::caches_keep;
use mg_base::Disk;
use mg_demand_laws::commits_settle;
use mg_space::FireLinks;

/// A store's cache bears its demands after pages were read, or written, and after a batch that pays.
pub fn stores_keep<D: Disk>()
    ensures reads { ReadsKeep D FireLinks D.meaning }
    ensures writes { PageWritesKeep D FireLinks D.meaning }
    ensures changes { StoreChangesKeep D FireLinks D.meaning }
{
    caches_keep()
}

/// The batches of a transaction that writes records pay.
pub fn writes_pay<D: Disk>()
    ensures place { PlacesPay D }
    ensures first { FirstsPay D }
    ensures push { PushesPay D }
    ensures replaced { ReplacementsPay D }
    ensures out { TakingOutPays D }
    ensures growth { GrowthPays D }
    ensures making { MakingPays D }
{}

/// A store's cache bears its demands after a number was drawn, and after a commit.
pub fn numbers_keep<D: Disk>()
    ensures drawn { DrawsKeep D FireLinks D.meaning }
    ensures committed { CommitsKeep D FireLinks D.meaning }
{
    stores_keep::<D>();
    commits_settle()
}

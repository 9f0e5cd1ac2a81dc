//! The laws, each the contract of a function that does nothing.

ghost use Rattle.mg_engine_demand_laws.specs.Bearing.{BatchesKeep, CrashesLinked, WritesKeep};
ghost use Rattle.mg_engine_demand_laws.specs.Fates.{AskingKeeps, CommittingKeeps, TellingKeeps};
ghost use Rattle.mg_engine_demand_laws.specs.Opening.{OpeningBears};
ghost use Rattle.mg_engine_demand_laws.specs.Wanted.{BehindHaveCommitted, RecordsAreWanted};

use mg_demand_laws::{
    all_is_borne, commits_settle, demands_are_borne, pointer_pages_stay_orderly, runs_bear,
    sound_images_are_linked,
};
use mg_space::FireLinks;

/// A record's page is wanted as a data page, and the version behind its newest one is of a transaction that has
/// committed.
pub fn records_are_wanted()
    ensures records { RecordsAreWanted }
    ensures behind { BehindHaveCommitted }
{}

/// An engine's cache bears its demands after page writes, and after a batch that pays, whatever pages were written
/// out for it; and every image that a crash may leave is linked from the roots.
pub fn caches_keep()
    ensures writes { WritesKeep }
    ensures batches { BatchesKeep }
    ensures linked { CrashesLinked }
{
    all_is_borne::<FireLinks>();
    demands_are_borne::<FireLinks>();
    runs_bear()
}

/// So it does where its memory comes to tell of its transactions otherwise.
pub fn fates_keep()
    ensures told { TellingKeeps }
    ensures asked { AskingKeeps }
    ensures committed { CommittingKeeps }
{
    all_is_borne::<FireLinks>();
    runs_bear();
    commits_settle()
}

/// The cache of an engine that is opened over a sound image bears its demands.
pub fn openings_bear()
    ensures { OpeningBears }
{
    sound_images_are_linked();
    pointer_pages_stay_orderly()
}

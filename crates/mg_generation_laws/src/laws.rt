//! The laws of versions. Each function does nothing: its contract is a law, so that another crate
//! can cite it.

ghost use Rattle.mg_generation_laws.specs.Laws.{VersionsBegin, RowBegins};
ghost use Rattle.mg_generation_laws.specs.Laws.{VersionsGoOn, VersionsCome, OthersLeaveVersions};
ghost use Rattle.mg_generation_laws.specs.Laws.{GivenIsInFront, MadeIsInFront, OtherKeysAreLeft};
ghost use Rattle.mg_generation_laws.specs.Laws.{DeadLeaves, TakenBackLeaves};
ghost use Rattle.mg_generation_laws.specs.Laws.{UndoneLeavesVersions, UndoneLeavesAll};
ghost use Rattle.mg_generation_laws.specs.Laws.{VersionsShowViews, VersionsShowDatabase};
ghost use Rattle.mg_generation_laws.specs.Laws.{VersionsShowDurables, CommitShowsNewest};
ghost use Rattle.mg_generation_laws.specs.Laws.{ObstacleIsWriter, ObstacleIsNewest, OldTableHindersNot};
ghost use Rattle.mg_generation_laws.specs.Laws.{WholeStand, ChainsGoOn, SeenGoesOn};
ghost use Rattle.mg_generation_laws.specs.Laws.{CoveredMayGo, ErasedMayGo};
ghost use Rattle.mg_generation_laws.specs.Laws.{ChainsShowViews, ChainsShowDatabase};
ghost use Rattle.mg_generation_laws.specs.Laws.{ChainsTellObstacles};
ghost use Rattle.mg_generation_laws.specs.Laws.{OthersLeaveTable, LeftTableStands};
ghost use Rattle.mg_generation_laws.specs.Laws.{LeftTableHindersNot, LeftCatalogStands};
ghost use Rattle.mg_generation_laws.specs.Laws.{LeftCatalogHindersNot};

/// How versions come about.
pub fn versions_begin()
    ensures begin { VersionsBegin }
    ensures row { RowBegins }
    ensures come { VersionsCome }
{}

/// What each entry of a legal history makes of them.
pub fn versions_go_on()
    ensures onward { VersionsGoOn }
    ensures others { OthersLeaveVersions }
    ensures given { GivenIsInFront }
    ensures made { MadeIsInFront }
    ensures elsewhere { OtherKeysAreLeft }
    ensures dead { DeadLeaves }
{}

/// What is left of them once a transaction takes back.
pub fn versions_taken_back()
    ensures left { TakenBackLeaves }
    ensures undone { UndoneLeavesVersions }
    ensures all { UndoneLeavesAll }
{}

/// What versions show.
pub fn versions_show()
    ensures views { VersionsShowViews }
    ensures database { VersionsShowDatabase }
    ensures durables { VersionsShowDurables }
    ensures commit { CommitShowsNewest }
{}

/// Who of their writers is in the way of a write.
pub fn obstacles_are_writers()
    ensures writer { ObstacleIsWriter }
    ensures newest { ObstacleIsNewest }
    ensures old { OldTableHindersNot }
{}

/// Versions that are kept go on as all do.
pub fn kept_versions_go_on()
    ensures whole { WholeStand }
    ensures onward { ChainsGoOn }
    ensures seen { SeenGoesOn }
{}

/// Which versions may be collected.
pub fn garbage_may_go()
    ensures covered { CoveredMayGo }
    ensures erased { ErasedMayGo }
{}

/// What a chain of versions tells, behind which garbage may stand or may have been collected.
pub fn chains_tell()
    ensures views { ChainsShowViews }
    ensures database { ChainsShowDatabase }
    ensures obstacles { ChainsTellObstacles }
{}

/// A table that no entry writes stays as it was.
pub fn tables_are_left()
    ensures others { OthersLeaveTable }
    ensures stands { LeftTableStands }
    ensures hinders { LeftTableHindersNot }
    ensures catalog { LeftCatalogStands }
    ensures tables { LeftCatalogHindersNot }
{}

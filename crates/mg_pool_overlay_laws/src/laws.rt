//! What the page cache gives to the laws of overlays. Each function does nothing: its contract is the
//! law.

ghost use Rattle.mg_pool_overlay_laws.specs.Laws.{ChangesAre, ChangesKeepNeeds, RunsAre, RunsKeepNeeds};
ghost use Rattle.mg_pool_overlay_laws.specs.Laws.{NoneMarkedNone, NotAskedNeedsAll};

use mg_base::Disk;
use mg_careful::Links;

/// Page writes of the cache, one after another, are page writes of the family.
pub fn page_writes_are<D: Disk, L: Links>()
    ensures { RunsAre D L D.meaning }
{}

/// A batch that the cache has changed is one of the family, with the page writes of the change.
pub fn changes_are<D: Disk, L: Links>()
    ensures { ChangesAre D L }
{}

/// What transactions need, by marks: over page writes and over a change. One that has not asked for
/// its commit needs every dirty page, and one that has needs none once no page is marked for it.
pub fn needs_go_on<D: Disk, L: Links>()
    ensures over_page_writes { RunsKeepNeeds D L D.meaning }
    ensures over_changes { ChangesKeepNeeds D L }
    ensures all_dirty { NotAskedNeedsAll }
    ensures none { NoneMarkedNone }
{}

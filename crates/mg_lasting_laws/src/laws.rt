//! What keeps a cache lasting with a history. Each function does nothing: its contract is the law.

ghost use Rattle.mg_image.specs.Form.{packed_form};
ghost use Rattle.mg_lasting_laws.specs.Changing.{ChangesLast, QuietHolds};
ghost use Rattle.mg_lasting_laws.specs.CommitStatements.{CommitGoesMidway, MidwayIsWritten};
ghost use Rattle.mg_lasting_laws.specs.CommitStatements.{MidwayWritesLast};
ghost use Rattle.mg_lasting_laws.specs.CrashStatements.{DurableLeaves, FailedLeaves, MidwayHolds};
ghost use Rattle.mg_lasting_laws.specs.CrashStatements.{OverlaysHold, PoolLeaves, QuietLeaves, RunsLast};
ghost use Rattle.mg_lasting_laws.specs.Laws.{AskingLasts, BatchLasts, BeginsFirst, IdleLasts};
ghost use Rattle.mg_lasting_laws.specs.Laws.{RollbackLasts, WritesLast};
ghost use Rattle.mg_lasting_laws.specs.Settling.{SettlingLasts};
ghost use Rattle.mg_lasting_laws.specs.StartLaws.{StartLasts};
ghost use Rattle.mg_lasting_laws.specs.StartingLaws.{StartsOn};

use mg_base::Disk;
use mg_careful::Links;
use mg_model::histories_go_on;

/// Entries without pages: idle ones, a rollback, the asking for a commit, and the first half of a begin.
pub fn entries_last()
    ensures idle { IdleLasts packed_form }
    ensures rollback { RollbackLasts packed_form }
    ensures asking { AskingLasts packed_form }
    ensures begin { BeginsFirst packed_form }
{}

/// Page writes, and batches.
pub fn pages_last()
    ensures writes { WritesLast packed_form }
    ensures batch { BatchLasts packed_form }
{}

/// A commit: the bits are changed, other pages are written, and the page of the bits.
pub fn commits_last()
    ensures changed { CommitGoesMidway packed_form }
    ensures others { MidwayWritesLast packed_form }
    ensures written { MidwayIsWritten packed_form }
{}

/// Each image that a crash leaves holds the history.
pub fn crashes_hold()
    ensures overlays { OverlaysHold packed_form }
    ensures midway { MidwayHolds packed_form }
    ensures quiet { QuietHolds packed_form }
{}

/// What calls leave that add an entry to the history.
pub fn calls_leave<D: Disk>()
    ensures quiet { QuietLeaves D D.meaning packed_form }
    ensures failed { FailedLeaves D D.meaning packed_form }
    ensures durable { DurableLeaves D D.meaning packed_form }
{}

/// What calls of the page cache leave, and that its page writes, a batch, and the bits of a commit once
/// they are settled keep it lasting.
pub fn pools_last<D: Disk, L: Links>()
    ensures leaves { PoolLeaves D L D.meaning packed_form }
    ensures writes { RunsLast D L D.meaning packed_form }
    ensures changes { ChangesLast D L D.meaning packed_form }
    ensures settles { SettlingLasts D L D.meaning packed_form }
{}

/// A cache with nothing dirty lasts with the history that begins with its image, and so it does over a
/// disk on which nothing is pending.
pub fn starts_last<D: Disk, L: Links>()
    ensures cache { StartLasts packed_form }
    ensures pool { StartsOn D L D.meaning packed_form }
{
    histories_go_on();
}

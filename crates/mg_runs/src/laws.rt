//! What the steps of a run give of its promise. Each function does nothing: its contract is the law.

ghost use Rattle.mg_engine_meaning_laws.specs.Meaning.{Places};
ghost use Rattle.mg_runs.specs.Acknowledged.{LinesAreHeld};
ghost use Rattle.mg_runs.specs.GoingOn.{FreeStays, LeftIsEntry};
ghost use Rattle.mg_runs.specs.Laws.{AnyFreeBegins, BlankIsEntry, ClosingsFail, LinesFail, OpeningsAreJudged, OpeningsFail, OtherFilesAreRefused, OtherFilesAreUnopened, FaultyIsEntry, ForcedIsEntry, RunsBegin, RunsClose, RunsStop, SettledIsEntry};

use mg_base::{Disk, Sink};
use mg_device::GrowingDisk;
use mg_engine_meaning_laws::new_databases_begin;
use mg_grown_catalog_laws::catalogs_grow;
use mg_model::histories_go_on;
use mg_new_database_laws::disks_in_memory_are_whole;

/// A disk that was not opened: its history has no entry.
pub fn openings_are_judged<D: GrowingDisk, K: Sink>()
    ensures { OpeningsAreJudged D.meaning K.meaning }
{
    new_databases_begin();
    histories_go_on();
    catalogs_grow();
}

/// A file that holds no database is refused at the opening, and not written; no engine is opened over it.
pub fn other_files_are_refused<D: Disk, K: Sink>()
    ensures refused { OtherFilesAreRefused D.meaning K.meaning }
    ensures unopened { OtherFilesAreUnopened D.meaning }
{}

/// Whatever a crash may leave at the end of a run holds what was durable behind each of its lines.
pub fn lines_are_held<D: Disk, K: Sink>()
    ensures { LinesAreHeld D.meaning K.meaning }
{}

/// An engine that was opened stands for the history that begins with what its disk held, and has the pages free that are
/// promised.
pub fn runs_begin<D: Disk>()
    ensures { RunsBegin D.meaning }
{
    new_databases_begin();
}

/// A run ends without that its database is closed.
pub fn runs_stop<D: GrowingDisk, P, K: Sink>()
    ensures { (places : Places P) → RunsStop D.meaning places K.meaning }
{
    new_databases_begin();
    histories_go_on();
    catalogs_grow();
}

/// A run ends, and its database is closed, or that is refused.
pub fn runs_close<D: GrowingDisk, P, K: Sink>()
    ensures { (places : Places P) → RunsClose D.meaning places K.meaning }
{
    new_databases_begin();
    histories_go_on();
    catalogs_grow();
}

/// What a run has left, whole or cut off, is what a next run can begin with, and by a greater page limit as many pages of
/// it are free.
pub fn what_is_left_is_an_entry<D: Disk>()
    ensures entry { LeftIsEntry D.meaning }
    ensures free { FreeStays }
{}

/// What the disk refuses at the opening comes only where its count of faults rose, and any other refusal only where that
/// stands.
pub fn openings_fail<D: Disk>()
    ensures { OpeningsFail D.meaning }
{}

/// So it is with what ends the lines,
pub fn lines_fail<D: Disk, P>()
    ensures { (places : Places P) → LinesFail D.meaning places }
{}

/// and with the closing of the database.
pub fn closings_fail<D: Disk, P>()
    ensures { (places : Places P) → ClosingsFail D.meaning places }
{}

/// A disk in memory of which nothing was asked yet is one on which a run has its history, and so is one that was settled
/// last, over what any history may begin with; so is one whose calls fail where a list says so, over such a disk, and a
/// device in memory with each page write forced, of which nothing was asked yet. What a
/// history may begin with promises any number of pages that are free.
pub fn disks_in_memory_are_entries()
    ensures blank { BlankIsEntry }
    ensures settled { SettledIsEntry }
    ensures faulty { FaultyIsEntry }
    ensures forced { ForcedIsEntry }
    ensures any_free { AnyFreeBegins }
{
    disks_in_memory_are_whole();
}

//! Calls of an engine that stands for a history: from what a call of the core says to what a keeper of records owes.
//!
//! Owns:
//!
//! - `specs/Begins`: a begin (`BeginsGive`). The next number is drawn on the pages, and its transaction is active, sees
//!   what is committed and has nothing to take back; or the begin is refused, and all goes on as it was. `BeginGives`,
//!   `BegunLaws`, `DrawnStores`, `FailedDraws`, `NewWorks`, `RefusedLaws` and `StillLaws` prove it.
//! - `specs/NextPages`: a page write (`NextPagesGoOn`). No entry is added, and one page less is unwritten.
//! - `specs/Looks`: a statement begins (`LooksGoOn`). Under READ COMMITTED its transaction takes a new base, and the
//!   tables that it sees then stand on the pages.
//! - `specs/Reads`: a table that a transaction asks for is the one that the history tells, given again or found on the
//!   pages; one that was found is given from then on, and the engine stands for each history for which it stood
//!   (`TablesGoOn`). A visit of a walk comes to the next of the rows that are to come, and is nearer to the end
//!   (`VisitsGoOn`). `KeepLaws` has a table that is kept, `FaultLaws` the refusals of a call that reads.
//! - `specs/Ends`: a transaction is rolled back (`RollbacksGo`), or committed (`CommitsGo`), or a page write of its
//!   commit fails: the entry, what others go on to see, what a crash leaves, and that its session is free. `Leaving` and
//!   `Freeing` have what is in memory afterwards, `RollbackEnds` that all tables stay but those that it has made,
//!   `Settling` and `CommitEnds` that only the page of its bits has changed, `FailEnds` what is left where a page write
//!   fails.

ghost use Rattle.mg_engine_meaning_laws.specs.Begins.{BeginsGive};
ghost use Rattle.mg_engine_meaning_laws.specs.Ends.{CommitsGo, RollbacksGo};
ghost use Rattle.mg_engine_meaning_laws.specs.Looks.{LooksGoOn};
ghost use Rattle.mg_engine_meaning_laws.specs.NextPages.{NextPagesGoOn};
ghost use Rattle.mg_engine_meaning_laws.specs.Reads.{TablesGoOn, VisitsGoOn};

use crate::{engines_keep, reads_go_on, rollbacks_go_on};
use mg_base::Disk;
use mg_core::Place;
use mg_engine_step_laws::{
    bases_have_tables, batches_last, begins_go_on, commits_fail, commits_go_on,
    databases_are_lawful, draws_stay_sound, entries_go_on, found_tables_stand, lists_go_on,
    others_take_alike, page_writes_go_on, standings_go_on, tables_are_answered, tables_are_found,
    walks_are_answered, walks_go_alike,
};
use mg_grown_catalog_laws::catalogs_grow;
use mg_image::one_reading;
use mg_image_overlay_laws::sound_images_stand_one_way;
use mg_lasting_laws::crashes_hold;
use mg_model::histories_go_on;
use mg_space::FireLinks;

/// A transaction begins, or its begin is refused.
pub fn begins_give<D: Disk, P>()
    ensures { BeginsGive D P D.meaning }
{
    begins_go_on::<D, FireLinks>();
    draws_stay_sound::<D, FireLinks>();
    lists_go_on::<D, FireLinks>();
    entries_go_on::<D, FireLinks>();
    page_writes_go_on::<D, FireLinks>();
    batches_last::<D, FireLinks>();
    standings_go_on();
    crashes_hold();
    histories_go_on();
    bases_have_tables();
    databases_are_lawful();
    tables_are_found();
    sound_images_stand_one_way();
    one_reading();
    others_take_alike();
    walks_go_alike();
}

/// A dirty page is written.
pub fn next_pages_go_on<D: Disk, P>()
    ensures { NextPagesGoOn D P D.meaning }
{
    page_writes_go_on::<D, FireLinks>();
}

/// A transaction is rolled back.
pub fn rollbacks_go<D: Disk, P>()
    ensures { RollbacksGo D P D.meaning }
{
    entries_go_on::<D, FireLinks>();
    standings_go_on();
    crashes_hold();
    one_reading();
    sound_images_stand_one_way();
    histories_go_on();
    rollbacks_go_on::<D, FireLinks>();
    others_take_alike();
    walks_go_alike();
}

/// A transaction is committed, or its commit is refused, or a page write fails.
pub fn commits_go<D: Disk, P>()
    ensures { CommitsGo D P D.meaning }
{
    entries_go_on::<D, FireLinks>();
    standings_go_on();
    crashes_hold();
    sound_images_stand_one_way();
    batches_last::<D, FireLinks>();
    histories_go_on();
    commits_go_on::<D, FireLinks>();
    commits_fail::<D, FireLinks>();
    tables_are_found();
    others_take_alike();
    walks_go_alike();
}

/// A statement begins.
pub fn looks_go_on<D: Disk, P>()
    ensures { LooksGoOn D P D.meaning }
{
    entries_go_on::<D, FireLinks>();
    standings_go_on();
    crashes_hold();
    histories_go_on();
    bases_have_tables();
    databases_are_lawful();
    tables_are_found();
    catalogs_grow();
}

/// The table of a name is asked for.
pub fn tables_go_on<D: Disk, P>()
    ensures { TablesGoOn D P D.meaning }
{
    reads_go_on::<D, P>();
    engines_keep::<D, P>();
    tables_are_answered();
    found_tables_stand();
    histories_go_on();
}

/// A walk visits the next record.
pub fn visits_go_on<D: Disk>()
    ensures { VisitsGoOn D D.meaning }
{
    reads_go_on::<D, Place>();
    engines_keep::<D, Place>();
    walks_are_answered();
}

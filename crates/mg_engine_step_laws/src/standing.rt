//! When what an engine has in memory and on its pages stands for a history.
//!
//! Owns: the definition (`Stands`). In memory (`Remembers`): the next number, what has become of each
//! transaction, who has not ended and by which base each reads, who waits for whom, and of each active one
//! its mode, its session, what it has to take back and the tables that it sees. On the pages
//! (`ShowsHistory`), where they are known: they are a sound image, in which each active transaction counts
//! as in limbo, and their records have the versions that the history says (`HaveVersions`): for each key of a
//! table one record at most speaks, and all others are silent, since no version of theirs counts or they
//! begin with a deletion that all see. And indexes have what a keeper asks of them (`HasFound`): what an active
//! transaction sees is found. No table has an index yet (`IsBare`), which gives that at once (`bare_has_found`). A disk
//! that does not tell its images, or a page write that has failed, leaves the part on memory alone.
//!
//! The definitions stand in `specs/Versions`, `specs/Based`, `specs/Bare` and `specs/Standing`; `specs/StandingLaws`, `Writing`,
//! `Ending`, `QuietPages` and `Following` have what counts, and the files `..Laws`, `Speakers` and `StartVersions` prove it. There
//! is no program here: each function does nothing, and its contract is a law.

ghost use Rattle.mg_image.specs.Form.{packed_form};
ghost use Rattle.mg_engine_step_laws.specs.standing.Based.{BasedFollow, TestsAll};
ghost use Rattle.mg_engine_step_laws.specs.standing.Ending.{VersionsDie, WritesShow};
ghost use Rattle.mg_engine_step_laws.specs.standing.Following.{MemoryBegins, MemoryFollows, OthersKeepTables};
ghost use Rattle.mg_engine_step_laws.specs.standing.Following.{ShowsOn, StandsOn};
ghost use Rattle.mg_engine_step_laws.specs.standing.StandingLaws.{ChainsGoOn, VersionsFollow, VersionsStay};
ghost use Rattle.mg_engine_step_laws.specs.standing.QuietPages.{BeginShows, CommitShows, IdleShows};
ghost use Rattle.mg_engine_step_laws.specs.standing.StartLaws.{StandsFirst};
ghost use Rattle.mg_engine_step_laws.specs.standing.Writing.{ErasedMayBeSilent, WritesFollow};

use mg_chain::bases_follow_the_machine;
use mg_model::histories_go_on;
use mg_waits::notes_follow_the_machine;

/// The chains that stand for the versions of a key go on as those versions do.
pub fn chains_go_on()
    ensures { ChainsGoOn }
{}

/// The records of an image go on to have the versions of a history.
pub fn versions_go_on()
    ensures follow { VersionsFollow }
    ensures stay { VersionsStay }
    ensures written { WritesFollow }
    ensures silent { ErasedMayBeSilent }
    ensures die { VersionsDie }
{}

/// What is in memory follows the entries of a history.
pub fn memory_follows()
    ensures begins { MemoryBegins }
    ensures follows { MemoryFollows }
    ensures tables { OthersKeepTables }
    ensures bases { BasedFollow }
{
    bases_follow_the_machine();
    notes_follow_the_machine();
}

/// Whom all active transactions see, the test of all bases tells.
pub fn tests_tell_whom_all_see()
    ensures { TestsAll }
{}

/// Pages on which no record is changed go on to show the history, and so do those on which one is
/// written.
pub fn pages_go_on()
    ensures unchanged { ShowsOn packed_form }
    ensures written { WritesShow packed_form }
{}

/// Idle entries, a transaction that begins, and one that is committed leave the records as they are.
pub fn quiet_pages_go_on()
    ensures idle { IdleShows packed_form }
    ensures begin { BeginShows packed_form }
    ensures commit { CommitShows packed_form }
{}

/// An engine stands for a history with one entry more, where memory follows it and the pages show it.
pub fn standings_go_on()
    ensures { StandsOn packed_form }
{
    memory_follows();
    histories_go_on();
}

/// An engine over a sound image stands for the history that begins with it.
pub fn standings_begin()
    ensures { StandsFirst packed_form }
{
    memory_follows();
    histories_go_on();
}

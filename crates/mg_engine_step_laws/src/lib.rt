//! The steps of an engine, one batch of pages and one entry of a history after another: what stands and what transactions find before and after them.
//!
//! # What an engine has in memory and on its pages stands for a history, and each step takes it on
//!
//! Owns:
//!
//! - `standing`: when memory and pages stand for a history (`Stands`), and what follows from it.
//! - `steps`: from a batch that was changed over the cache to the longer history: which history an engine stands for, and
//!   its cache lasts with, once a call has written.
//! - `entries`: entries that write no record: a begin, and those without pages.
//! - `answers`: what is read at an engine that stands for a history is what the machine says.
//! - `commits`: a commit, and what comes before it.
//!
//! None of these names a call's program. There is no program here: each function does nothing, and its contract is a law.
//!
//! # Records are written and taken back at an engine that stands for a history
//!
//! Owns:
//!
//! - `writes`: from a call of version chains to an engine that stands for the history with the entry.
//! - `backs`: what a transaction takes back, key by key: the cache and the pages in between, and at the end.
//! - `fronts`: each table has the data pages that it had, in their order, and more, after each kind of batch.
//!
//! # A transaction takes back tables that it has made, as laws
//!
//! Owns:
//!
//! - `rows`: of catalog rows alone: where whole tables go from them, the rows that are left are lawful and name the other
//!   tables (`TablesAreLeft`). And the rows that go are of whole tables, if the keys are that the transaction has changed
//!   (`GoneAreWhole`): that of a column goes where that of its table does, and none is of an index.
//! - `pages`: the law from the pages before, in which the maker counts as in limbo, and those after, in which it counts
//!   as dead, to those after in which it counts as in limbo: they are sound, and have all that was read before but for
//!   the tables that have gone (`LeftAreSound`); and they are what they have to be for the history without those rows
//!   (`LeftAreKept`).
//! - `batches`: a row of the catalog is taken out in a batch of its own (`TakesRowAway`): every overlay is kept in which its
//!   maker counts as dead (`RowAwayKeeps`). What `take_row_out` of mg_table_unmaking takes out is such a row
//!   (`RowsAreTaken`). With the maker dead such batches add up (`RowsGone`), and after those of whole tables the pages leave
//!   and take what the law of `pages` wants (`OutsThere`).
//! - `histories`: a transaction has no change left of a table whose row it has taken back (`ChangedAreThere`), and sees the
//!   tables that it saw but for these (`ShapesLeft`).
//! - `shown`: the pages after show the history with the entry (`ShowsLeft`). After each row the cache lasts with the maker
//!   dead (`RowsGoOn`), whatever comes of the next one; once those of whole tables have gone, every overlay is what it has to
//!   be again, also with the maker in limbo, and the last row is the last step on the way back to a point (`TablesGoBack`).
//! - `engines`: the engine stands for the history with the entry then (`EnginesTakeTables`).
//!
//! So the rows of the catalog since a point go one after another, after the keys of all other tables. Between two rows of a
//! table no overlay is that counts its maker as in limbo: it goes on to the end of the way, or is given up.
//!
//! # Tables by their names, and walks
//!
//! Tables and walks of an engine that stands for a history: which tables stand on its pages, and that each active
//! transaction finds its own there and walks on.
//!
//! Owns:
//!
//! - `tables`: under which names tables stand (`NamedTablesStand`), and that each active transaction finds its own after a
//!   begin, a look, an idle entry and the commit of another.
//! - `seen`, `found`: what a transaction sees of a catalog whose rows are only made stands newest, so the table that it
//!   finds under a name stands on the pages, with all its indexes (`FoundTablesStand`), however old its base is; and
//!   whoever comes to be committed, the tables are the same (`ChosenTablesStand`).
//! - `lawful`: the rows of the catalog that a transaction sees are lawful (`SeenRowsAreLawful`), however old its base is.
//! - `walks`: the walks of a transaction go on although others begin, end or write.
//!
//! There is no program here: each function does nothing, and its contract is a law.
//!
//! Invariant: none, it keeps no state.
//! Below: `mg_core` and the layers under it; `mg_tie_laws`, of their batches. Above: `mg_engine_meaning_laws`, of what an engine stands for; `mg_engine_change_laws`.
//! Not here: whole calls.
#![tactic(auto)]

mod answers;
mod backs;
mod batches;
mod commits;
mod engines;
mod entries;
mod found;
mod fronts;
mod histories;
mod lawful;
mod pages;
mod rows;
mod seen;
mod shown;
mod standing;
mod steps;
mod tables;
mod walks;
mod writes;

pub use answers::{keys_are_answered, tables_are_answered, walks_are_answered};
pub use backs::{changes_are_taken_back, engines_go_back, pages_show_what_is_taken_back};
pub use batches::{rows_are_taken, rows_away_keep, taken_tables_are_there};
pub use commits::{commits_fail, commits_go_on, lists_go_on, page_writes_go_on, tips_stay};
pub use engines::engines_take_tables;
pub use entries::{begins_go_on, draws_stay_sound, entries_go_on};
pub use found::{chosen_tables_stand, found_tables_stand};
pub use fronts::tables_keep_pages;
pub use histories::{changed_tables_are_there, left_tables_are_seen};
pub use lawful::{databases_are_lawful, seen_rows_are_lawful};
pub use pages::left_tables_stand;
pub use rows::{gone_tables_are_whole, tables_are_left};
pub use seen::newest_are_seen;
pub use shown::{left_tables_are_shown, rows_go_on, tables_go_back};
pub use standing::{
    chains_go_on, memory_follows, pages_go_on, quiet_pages_go_on, standings_begin, standings_go_on,
    tests_tell_whom_all_see, versions_go_on,
};
pub use steps::{batches_last, records_are_read, writes_go_on, writes_stand};
pub use tables::{bases_have_tables, named_tables_stand, tables_are_found};
pub use walks::{others_take_alike, walks_go_alike};
pub use writes::{
    deads_go, firsts_go_on, pushes_go_on, records_are_free, replacements_go_on, spots_stay,
    unasking_lasts,
};

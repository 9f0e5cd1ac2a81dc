//! A transaction makes a table at an engine that stands for a history, as laws.
//!
//! Owns:
//!
//! - `rows`: the rows of the catalog that say a table come into new records, one after another: each entry is lawful as
//!   it comes, the records and memory are what the longer history says, and the maker sees the table. They are lawful,
//!   and say it alone.
//! - `joining`: what is read of the batch, and that the pages with the table are sound, and what they have to be for
//!   that history, where the maker counts as in limbo, also where it has made tables before and put rows into them. So
//!   a batch with a table keeps every overlay.
//! - `pages`: what the batch with a new table leaves and makes of pages (`LeavesPages`): the pages of all other tables
//!   stay, since each page says whose it is, and the new table has its first (`LeftPagesAreThere`); and a data page that
//!   the catalog gets before it changes nothing (`GrowthsStay`).
//! - `refusals`: a table that is refused before its rows are put.
//! - `creating`: each outcome of the call, from what the core says of it (`mg_table_making`) to what a keeper of records
//!   owes. A table that is made takes the engine to the history with an entry for each of its rows (`TablesAreMade`):
//!   nobody speaks for their keys (`IsSilentOn`), so the pages show that history (`MadePages`), the maker sees the table,
//!   and what it has to take back is kept. One that is refused gives the event of its own row with the refusal
//!   (`TablesAreRefused`). Each session has one active transaction at most after it, too.
//!
//! There is no program here: each function does nothing, and its contract is a law.
//!
//! Invariant: none, it keeps no state.
//! Below: `mg_tie_laws`, `mg_table_batch` and `mg_tie_laws`, the batch; `mg_table_making`, the call;
//! `mg_image_overlay_laws`, whose pages are; `mg_engine_step_laws`, what an engine stands for; `row_writes` of this crate, calls that
//! only read, and what a call leaves of the store. Above: the engine.
//! Not here: how the batch is filled (`mg_table_batch`), and whether the table may be made (`mg_table_making`).

mod creating;
mod joining;
mod pages;
mod refusals;
mod rows;

pub use creating::{creations_keep_apart, tables_are_made};
pub use joining::{joined_tables_stand, made_tables_keep, new_tables_are_read};
pub use pages::{growths_stay, left_pages_are_there};
pub use refusals::creations_are_refused;
pub use rows::{
    made_rows_are_remembered, made_rows_follow, made_tables_are_seen, new_rows_say_a_table,
};

//! What is read of tables by rows and keys: the row that a transaction sees of a record, the record
//! that speaks for a key, who is in the way of a write to it, and the tables that the catalog names.
//!
//! Owns: which version of a record counts for whom, and how its body becomes a row of its table.
//! Nothing is written here: each call leaves the cache as it was but for what it read
//! (`KeepsStore`).
//!
//! A call sees the pages as one who fills a batch does; a batch without pages shows what the cache
//! shows. What has become of transactions a caller tells by `States`, and what their bases see by
//! `Live`.
//!
//! Invariant: none of its own, it keeps no state.
//! Below: `mg_chain` for versions by their links, `mg_heap` for the pages of a table, `mg_rowcode` for
//! rows, `mg_catalog` for the tables that rows name. Above: the engine.
//! Not here: which version is written, and when. That one record at most speaks for a key is an
//! invariant of the engine.
#![tactic(auto)]

mod candidates;
mod erased;
mod laws;
mod listing;
mod rows;
mod speaking;
mod tables;
mod views;
mod walk;
mod whose;

pub use candidates::speaker_among_candidates;
pub use laws::{
    keys_are_those_of_the_history, records_are_those_of_every_reading, walks_are_whole,
};
pub use listing::table_records;
pub use rows::row_of;
pub use speaking::speaker;
pub use tables::{rows_in_view, table_named};
pub use views::{Obstacle, Visit, obstacle_for, record_key, row_in_view, view_step};
pub use walk::{Placed, first_version};
pub use whose::Wanted;

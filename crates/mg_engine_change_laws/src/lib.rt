//! The laws of the engine's calls that change rows and tables, or take them back, and of the faults that calls tell.
//!
//! # Rows and tables
//!
//! Calls of an engine that change tables, as laws: from what the core says of a call to what a keeper of records owes.
//!
//! Owns:
//!
//! - `row_writes`: a row is written.
//! - `makings`: a transaction makes a table.
//! - `takings`: a transaction takes back what it has changed since a mark or a savepoint.
//! - `over_tables`: the same, with tables that it has made since.
//!
//! # Faults of the disk are told
//!
//! A call of an engine tells each fault of the disk: where its refusal tells none, the disk's count of faults stands.
//!
//! Owns: laws over what the calls of the core promise (`specs/Told`), call by call: each cache that a call has gone
//! through met no fault, or the last of them met the one that is told. `FaultPageLaws` has what is known of batches, `FaultCoreLaws`
//! of readings and of who is in the way, `FaultWriteLaws`, `FaultBackLaws`, `FaultTableBackLaws` and `FaultMakingLaws` of changes, stage by
//! stage; `FaultCallLaws` has the calls.
//!
//! # What is asked of the disk
//!
//! What reads, marks or asks for a commit asks for no page write; a commit or a rolling back takes no memory
//! (`specs/Asked`).
//!
//! There is no program here: each function does nothing, and its contract is a law.
//!
//! Invariant: none, it keeps no state.
//! Below: `mg_engine_meaning_laws`, `mg_engine_step_laws`, `mg_taking_back`, `mg_table_takings`, `mg_table_making`. Above: `mg_no_damage_laws`, `mg_engine`.
//! Not here: beginnings, endings and reading (`mg_engine_meaning_laws`).
#![tactic(auto)]

mod asked;
mod faults;
mod makings;
mod over_tables;
mod row_writes;
mod takings;

pub use asked::{
    commits_want_nothing, events_take_no_page, events_write_none, page_writes_ask_one,
    readings_write_none,
};
pub use faults::{
    backs_tell_faults, begins_tell_faults, changes_tell_faults, commits_tell_faults,
    events_tell_faults, page_writes_tell_faults, readings_tell_faults,
};
pub use makings::{
    creations_are_refused, creations_keep_apart, growths_stay, joined_tables_stand,
    left_pages_are_there, made_rows_are_remembered, made_rows_follow, made_tables_are_seen,
    made_tables_keep, new_rows_say_a_table, new_tables_are_read, tables_are_made,
};
pub use over_tables::{
    backs_give_over, cores_take_rows, engines_go_over, refusals_give_over, rows_are_given,
    tables_follow, tables_walks_go_on,
};
pub use row_writes::{
    befores_are_told, first_batches_stay, made_rows_give, made_writes_follow, new_rows_go_on,
    not_laid_give, noted_tables_are_quiet, noted_writes_give, noted_writes_keep_apart,
    over_dead_rows_go_on, refusals_go_on, row_walks_go_on, rows_go_on, seen_may_be_written,
    stored_rows_are_coded, unread_writes_give, ways_are_free, writes_keep_plain, writes_keep_tips,
};
pub use takings::{
    backs_are_known, backs_follow, backs_give, cores_enter_some, cores_take_all, cores_take_keys,
    engines_give_up, engines_go_back_to, engines_take_back, given_up_is_shown,
    its_records_are_found, its_tables_may_be_written, kept_tables_stand, key_steps_are_taken,
    keys_are_taken, keys_enter_midway, keys_go_on, keys_keep_lists, keys_keep_pages,
    others_walk_on, stops_go_on, tables_are_found_back, undo_lists_give_keys,
};

//! A row is written at an engine that stands for a history, as laws.
//!
//! Owns:
//!
//! - `writes`: what each stage of `mg_core::Core::write_step` says of the machine, and that an engine which has written a
//!   row goes on with its event.
//! - `walks`: the walks of a transaction go on although others write, make or take out records of the table.
//! - `notes`: what is kept of tables written into counts for nothing else in memory (`NotedWorksStay`), so that the engine
//!   stands for the same history (`NotesStay`), from which a write of a row then goes on.
//! - `outcomes`: from what the core says of a write into a table that it keeps first (`mg_taking_back::write_noted`) to what
//!   a keeper of records owes. One that is made gives the event with Fine (`NotedWritesGive`). One that is refused gives it
//!   with its refusal (`NotedFailsGive`): before the version is laid, and as it is laid (`NotLaidGives`). In the latter a
//!   first batch may have been changed, a place for a record or a dead version that was taken out, which adds nothing to
//!   the history; then pages were read, or a page write failed, after which every call is refused and crashes leave the
//!   history; and the change that was kept in memory is taken back there, so that all that is left of it is that the
//!   commit is no longer asked for. Each session has one active transaction at most after it, too (`NotedWritesApart`,
//!   `NotedFailsApart`).
//!
//! There is no program here: each function does nothing, and its contract is a law.
//!
//! Invariant: none, it keeps no state.
//! Below: `mg_engine_step_laws`, `mg_engine_meaning_laws`, `mg_engine_step_laws` and what they are over; `mg_taking_back`, which keeps
//! the table. Above: the laws on taking back and on making tables, and the engine.
//! Not here: how a version is laid, and that a table which is kept is the one on the pages.

mod notes;
mod outcomes;
mod walks;
mod writes;

pub use notes::noted_tables_are_quiet;
pub use outcomes::{not_laid_give, noted_writes_give, noted_writes_keep_apart};
pub use walks::row_walks_go_on;
pub use writes::{
    befores_are_told, first_batches_stay, made_rows_give, made_writes_follow, new_rows_go_on,
    over_dead_rows_go_on, refusals_go_on, rows_go_on, seen_may_be_written, stored_rows_are_coded,
    unread_writes_give, ways_are_free, writes_keep_plain, writes_keep_tips,
};

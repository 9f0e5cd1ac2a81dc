//! What the engine's core means as a keeper of records, and the laws of the calls that write no row.
//!
//! # What an engine means as a keeper of records, and which history it stands for
//!
//! Owns:
//!
//! - `meaning`: the definitions (`StandsFor`, `means`), and the laws that need no more: each engine is a keeper as far as
//!   that is said of one by itself, and an event without pages takes it on.
//! - `page_calls`: calls on pages that add no entry.
//! - `endings`: a rollback.
//!
//! # The calls that write no row
//!
//! Calls of an engine that stands for a history: from what a call of the core says to what a keeper of records owes.
//!
//! Owns:
//!
//! - `calls`: a begin, a look, a table, a visit of a walk, a page write, a commit and a rollback.
//! - `openings`: an engine is opened and closed, and two runs compose.
//!
//! There is no program here: each function does nothing, and its contract is a law.
//!
//! Invariant: none, it keeps no state.
//! Below: `mg_engine_step_laws`, `mg_core`. Above: `mg_engine_change_laws`, `mg_engine`; the runs of the program, which open and close.
//! Not here: calls that write rows or tables, or take them back (`mg_engine_change_laws`).
#![tactic(auto)]

mod calls;
mod endings;
mod meaning;
mod openings;
mod page_calls;

pub use calls::{
    begins_give, commits_go, looks_go_on, next_pages_go_on, rollbacks_go, tables_go_on,
    visits_go_on,
};
pub use endings::rollbacks_go_on;
pub use meaning::{engines_keep, points_go_on};
pub use openings::{closings_leave, new_databases_begin, openings_stand, runs_compose};
pub use page_calls::{reads_go_on, steps_go_on};

//! Several calls of a keeper of records, made for one transaction.
//!
//! Owns: a write of a statement that has set its mark (`Written`, `write_or_undo`); the writes of a
//! statement, one a step (`Writes`, `mark_and_write`, `write_next`); the making of a table
//! (`mark_and_make`, `make_table`); and a walk over the records of a table (`Walk`, `start_walk`,
//! `visit_next`).
//!
//! The definitions stand in `specs/`: `Frames` (what calls for one transaction leave of all others and
//! of the keeper as a whole, however many they are, with the cause of the refusal that is answered),
//! `Quiet` (that no crash loses or adds anything by such calls, and whose session is free after them),
//! `Undoing` (the undoing of a refused statement), `Writes` (a write, with what becomes of the
//! statement where it is refused), `Steps` (the writes of a statement), `Tables` (the rows of a new
//! table) and `Walks`. `FrameLaws` and `QuietLaws` have what makes one of several calls, `FindLaws` and
//! `WalkLaws` what a walk comes to.
//!
//! Below: `mg_records`. Above: the statements' steps.
//! Not here: what is written, and what a statement is.
#![tactic(auto)]

mod laws;
mod steps;
mod tables;
mod walking;
mod writing;

pub use laws::{the_machine_finds_what_is_seen, walks_go_on_beside_others};
pub use steps::{Writes, Wrote, mark_and_write, write_next};
pub use tables::{make_table, mark_and_make};
pub use walking::{Visit, Walk, start_walk, visit_next};
pub use writing::{Written, write_or_undo};

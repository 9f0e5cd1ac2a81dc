//! Statements that run over a keeper, as the courses of a transcript: laws.
//!
//! Owns: which course of a transcript a phase of a statement is (`IsCourse`), and that each step of `mg_exec` is one of
//! the transcript's steps (`StepsTell`, phase by phase: a savepoint, a going back, the first step of an INSERT, a
//! reading, the writes behind the mark, a new table); and that the tests tell the first fault, or where the statement
//! begins (`TestsTell`).
//!
//! `specs/Courses` has what counts, the other files prove it. There is no program here: each function does nothing, and
//! its contract is a law.
//!
//! Invariant: none, it keeps no state.
//! Below: `mg_exec`, the steps; `mg_transcript`, the courses. Above: a keeper on which statements run.
//! Not here: what a step leaves of crashes and of other transactions, which `mg_exec` says.
#![tactic(auto)]

mod laws;

pub use laws::{
    changes_tell, inserts_tell, points_tell, reads_tell, steps_tell, tables_tell, tests_tell,
};

//! What a script comes to: the history of its lines, and what is printed of them.
//!
//! Owns: the definitions by which a run of a script is judged, and what a line is answered
//! (`Spoken`, `Turn`), with its printing and its test.
//!
//! The definitions stand in `specs/`: `Courses` (what is left of a statement that has begun),
//! `Statements` (what it needs, finds and writes), `Selects` (what a SELECT answers), `Steps` (the
//! events that it gives, step by step), `Sessions` (the transaction of a session, and statements that
//! are held or wait), `Shorthand` (`@put` and `@get`), `Lines` (what a line does, and which statements
//! go on at it), `Scripts` (all lines, and the end), `Transcript` (what is printed, and whether all was
//! answered Ok). `LegalLaws`, `OwnEventLaws` and `SessionLaws` have what follows of them, `Growing` what
//! stays where a history goes on by the events of one transaction.
//!
//! The history of a script is a relation between opening, script and history. It leaves free how many
//! steps a reading and a COMMIT take, and where a refusal comes from outside the machine: want of
//! pages or memory, a fault of the disk, damage. Of a step it says which events it gives and what is
//! answered, and not how that is come by.
//!
//! Invariant: none, it keeps no state.
//! Below: `mg_model`, whose machine answers each event; `mg_plan` and `mg_rows`, which say what
//! statements are bound to and compute; `mg_script`, which says what a line is and prints one.
//! Above: sessions, and the program.
//! Not here: how a statement reads and writes, and what a crash leaves.
#![tactic(auto)]

mod laws;
mod turn;

pub use laws::{events_are_own, histories_are_legal, transactions_are_apart};
pub use turn::{Flow, Spoken, Turn, flow_of, is_fine, turn_text};

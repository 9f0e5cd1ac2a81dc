//! The plain machine: a slow program whose answers are the history machine's, for every history.
//! It is what faster machines are compared with, and what a printed history is replayed on.
//!
//! Owns: `Plain`. It keeps what is known of each transaction, the steps that stand, and the changes
//! of the database, the newest first, and searches them from the newest to the oldest. A base is a
//! number: how many changes the database had then.
//!
//! Invariant: what it keeps stands for the history of the events that it answered (`StandsFor` in
//! `specs/Keeping`): read from what it holds, since no history is stored.
//! It is a keeper of records too (`Records`, `PageWrites`, `Keyed`): it has no pages, so no page size refuses a table, and
//! a place is the number of a row among those that the transaction sees.
//!
//! Below: `mg_model`, which says what the answers are, and `mg_records`. Above: tests of every faster
//! machine, and statements without a disk.
//! Not here: pages, threads.
#![tactic(auto)]

mod beginning;
mod keys;
mod known;
mod lookup;
mod plain;
mod rows;

pub use plain::Plain;

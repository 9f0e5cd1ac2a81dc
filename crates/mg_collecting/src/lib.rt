//! Old versions of a record go: those of a dead transaction, those that no base needs, and a deletion that all bases see.
//!
//! Owns: which versions of a record remain where it is collected (`remaining`), and the row of batches by which the others
//! go (`Steps`). A dead newest version is taken out; then each version that no base needs is dropped right behind the one
//! that stays, from the newest to the oldest; and a deletion that alone is left and that every base sees is taken out with
//! its record. Each batch changes the pages of two cells at most, and what it leaves stands for the same history as before,
//! so a collection may end behind any of them.
//!
//! Cost: each version of the record is read once to find that its links come to an end, once where it is passed, and two
//! are read where one is dropped. No memory is held for a version.
//!
//! Orders: those of a version that is dropped (`drop_behind` of mg_chain), and of one that is taken out (`back_out`).
//!
//! Invariant: none, it keeps no state.
//! Below: `mg_chain` for a record's versions, `mg_snap` for what bases need, `mg_row_writes` for a batch of its own. Above:
//! the engine, which collects what its readers come to.
//! Not here: which records, entries of indexes, and what comes of histories and crashes (`mg_collect_tie_laws`).
#![tactic(auto)]

mod collecting;
mod counting;
mod ends;
mod laws;
mod passing;
mod reading;

pub use collecting::{collect, collect_record};
pub use laws::versions_in_order_are_read;

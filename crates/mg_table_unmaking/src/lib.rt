//! Tables that a transaction has made are taken back on the pages: the rows of the catalog that say them are taken out.
//!
//! Owns: the batch that takes one of them out (`take_row_out`). The record is found that speaks for its key; its one version
//! has to be the transaction's own, as it is at each engine that stands for a history; and it is taken out. Such a batch changes two pages at most, the slot's and the cell's,
//! and its orders close no cycle, so it can always be changed. Between the batches of a table's rows the catalog has a part of
//! the table, of a transaction that counts as dead wherever a page of them stands: it ends with all of its rows gone, or is
//! given up. The pages of the tables stay used, and nothing names them any more.
//!
//! Orders: those of the record that is taken out (`back_out` of mg_chain).
//!
//! Invariant: none, it keeps no state.
//! Below: `mg_chain` for records, `mg_seek` for who speaks for a key, `mg_batches` for what a batch owes. Above: the way
//! back to a point, which takes back the keys of all other tables first, and then one row after another.
//! Not here: which keys, that they are of whole tables, and what comes of histories and crashes (`mg_engine_step_laws`).
#![tactic(auto)]

mod rows;

pub use rows::take_row_out;

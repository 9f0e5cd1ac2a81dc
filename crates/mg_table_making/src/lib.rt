//! A transaction makes a table, over an engine's memory and its pages, as far as it does not depend on a history.
//!
//! Owns: `create_table`. The event begins; the transaction may write; no record speaks for a key of the rows that say
//! the table; what was at these keys is kept to be taken back; and all of the table comes onto the pages in one batch.
//! A refusal leaves no row: whom the transaction waits for has changed then, what was read, written out and counted.
//!
//! The table's own row is tested as every row that is written: by the view, and by who is in the way. A column's row is
//! never in the way by itself, since it comes and goes with its table's: made in one batch with it, behind it among
//! the rows, and taken back before it. So a record that speaks for a column's key, where none speaks for the
//! table's, is damage of the catalog; and so is one that speaks for the table's own key while no row is seen and
//! nobody is in the way: that would be a deletion, and no statement deletes rows of the catalog.
//!
//! Invariant: that of `mg_core`, which stays.
//! Below: `mg_core`, `mg_table_batch`. Above: the engine as a keeper of records.
//! Not here: histories, and what crashes leave.
#![tactic(auto)]

mod creating;
mod keeping;
mod keys;
mod putting;

pub use creating::create_table;

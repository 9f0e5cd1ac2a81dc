//! A keeper of records that finds rows by the indexes of tables.
//!
//! Owns: the trait `Indexed`: a walk by an index of a table comes to the rows whose value in the column of the index lies
//! in a range (`specs/Indexing`). NULL lies in no range.
//!
//! A walk by an index gives each row of the transaction's view in the range once (`IndexWalksAreWhole`), whatever others do
//! between its steps: wherever the walks of a transaction over the records of a table go on as they would have, its walks
//! by the indexes of the table do (`IndexWalksFollow`), and each call of `Records` says whose walks over tables go on. So
//! both ways of reading give the same rows, and nothing has to be asked of the calls that write.
//!
//! The order of the rows is the keeper's: who gives rows sorts them.
//!
//! Invariant: none, it keeps no state.
//! Below: `mg_records`; `mg_paths`, which says what lies in a range and which index serves a filter. Above: the keepers that
//! have indexes, and the statements, once they read by them.
//! Not here: which tables have an index, where its entries stand, and when they are laid.
#![tactic(auto)]

mod indexed;

pub use indexed::Indexed;

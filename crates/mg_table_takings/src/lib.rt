//! A transaction is taken back to a point with tables that it has made since.
//!
//! Owns: the way back over the rows of the catalog (`undo_tables_to_mark`, `back_over_tables`), which stands beside that of
//! `mg_taking_back` for a transaction that takes no table back. First it is found which rows of the catalog go, from a
//! copy of what there is to take back. (They are those of whole tables, since none is made with a mark or a savepoint
//! between its rows: `RowsAreTogether` of mg_grown_catalog_laws.) Then the changes of all other tables are taken back, key by key, each in a batch of its own. Then the rows of the catalog are
//! taken out, each in a batch of its own, which is lawful whatever pages the others stand on. At last what the transaction
//! has written into loses the tables that have gone. Where a row is not taken out, a part of a table may be left, as a
//! crash between two rows may leave it: then the transaction is given up, and a dead one's rows count for nobody.
//!
//! The pages of such a table stay used, and nothing names them any more. What was written into it is taken back before,
//! so nobody asks for it by its first page.
//!
//! Invariant: that of `Core` (`IsCore`), which each call keeps.
//! Below: `mg_taking_back`, for the changes of other tables and the giving up; `mg_table_unmaking`, for the batch of a row;
//! `mg_undo`, which says what is given back. Above: the engine as a keeper of records.
//! Not here: histories, and what crashes leave.
#![tactic(auto)]

mod changes;
mod keys;
mod points;
mod rows;

pub use points::{back_over_tables, undo_tables_to_mark};

//! The rows of the catalog, read into tables: a slow program whose contract is the definition. And
//! the rows that say a table.
//!
//! Owns: nothing that lasts. It is lent the rows of the catalog, tests that each is lawful among the
//! others, and makes the tables that they name. The first row that is not lawful is its one fault.
//!
//! A key of the list means the first row that has it. Rows of a table come in the order of their
//! keys, none twice, so the first bad row in the list is the first in the order of keys.
//!
//! Invariant: none, it keeps no state.
//! Below: `mg_model`, which says what a lawful row is and which tables rows name. Above: the check of
//! whole images.
//! Not here: how rows are read from pages, and how they come to be.
#![tactic(auto)]

mod catalog_row;
mod column_row;
mod columns;
mod fault;
mod find;
mod index_row;
mod indexes;
mod keys;
mod laws;
mod names;
mod said;
mod spelling;
mod table_row;
mod tables;

pub use fault::CatFault;
pub use laws::{rows_name_tables, tables_are_said};
pub use said::rows_of;
pub use tables::tables_of;

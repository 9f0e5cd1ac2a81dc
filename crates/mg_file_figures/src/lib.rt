//! The figures of a file with its tables, or what is found in it first.
//!
//! Owns: what the figures of a table are (`AreTableFigures`) and those of a file (`AreFileFigures`), and what is found
//! first where a file has none (`IsFoundFirst`): on the header, the inventories and the pages of the catalog; in the
//! catalog's records, and in their rows; in the pages and the records of a committed table, the tables in the order of
//! their names. One call answers either (`state_file`). Which transactions have written the versions, keys and indexes
//! are not tested for it.
//!
//! Invariant: none, it keeps no state. It reads pages that the caller lends, and takes memory for the catalog's rows, and,
//! of a table, for a mark for each slot that its data pages can have and for the places of its records.
//! Below: `mg_check_catalog`, `mg_check_tables` and `mg_check_records`, for pages and records and what is found of them;
//! `mg_catalog`, for the tables that rows name; `mg_stat`, for the file as a whole; `mg_limbo_list`, for what has become
//! of transactions. Above: `mg_stat_report`, which prints the figures.
//! Not here: how pages are read from a disk, and what is printed.
#![tactic(auto)]

mod catalog;
mod catalog_rows;
mod figures;
mod shown;
mod stating;
mod table;
mod tables;

pub use figures::{FileFigures, TableFigures};
pub use stating::{Stated, state_file};

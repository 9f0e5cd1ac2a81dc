//! A rung of a validation, in part: the records of a table, and their versions.
//!
//! Owns: the walk over the versions of a record, from the newest back (`walk_record`): the versions
//! with their rows, and what is found where it can't go on; which cells were met (`Marks`), so that no
//! cell is met twice, in one record or in two of a table; the walks over all records of a table
//! (`walk_table`); and its records as a list of their primary slots (`records_of`).
//!
//! Invariant: none, it keeps no state but the marks. It reads pages that the caller lends. Each step
//! marks a cell, so a walk has no more steps than its table has cells.
//! Below: `mg_check_data`, for data pages whose cells are tested; `mg_slots` and `mg_version`, for
//! cells; `mg_rowcode`, for rows; `mg_image`, for what the versions of a record are. Above:
//! `mg_file_figures`, and the rungs of records.
//! Not here: which transactions have written the versions, and the keys of records.
#![tactic(auto)]

mod cells;
mod erased;
mod laws;
mod listing;
mod marks;
mod places;
mod records;
mod rows;
mod step;
mod walk;

pub use laws::walks_are_over_records;
pub use listing::{newest_at, records_of};
pub use marks::Marks;
pub use records::{TableWalk, no_marks, walk_table};
pub use walk::{Walked, walk_record};

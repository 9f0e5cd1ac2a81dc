//! A rung of a validation, in part: the data page that a table names, and its cells.
//!
//! Owns: what is found of one data page, and that nothing is found exactly where it is as a sound
//! image asks it: of the link to it, of the page as a whole, and then of each of its cells.
//!
//! Invariant: none, it keeps no state. It reads pages that the caller lends, and takes memory for
//! findings alone; what reading a cell takes besides is given back, and want of it tells nothing.
//! Below: `mg_slots` and `mg_version`, for the page and its cells; `mg_check_inventory`, for links,
//! presence and bits; `mg_findings`, for lists of findings. Above: `mg_check_tables`, which follows
//! the pointer pages of a table.
//! Not here: which data pages a table has, and what versions and records say.
#![tactic(auto)]

mod cells;
mod data;
mod laws;

pub use data::{DataSeat, note_data, page_there};
pub use laws::lawful_data_pages_pass;

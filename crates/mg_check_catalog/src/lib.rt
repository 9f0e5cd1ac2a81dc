//! The first four rungs of a validation as one: the header, the page inventory, the transaction
//! inventory, the pages of the catalog.
//!
//! Owns: the list of what is found of the first of these rungs that has findings, and nothing of
//! those behind it; and that nothing is found exactly where these parts are as a sound image asks it.
//!
//! Invariant: none, it keeps no state. It reads pages that the caller lends.
//! Below: `mg_check_front`, for the first three; `mg_check_tables`, for the pages of one table.
//! Above: `mg_file_figures`, and the rungs behind, which read the catalog's records and the other tables.
//! Not here: those rungs.
#![tactic(auto)]

mod catalog;

pub use catalog::{first_pointer, rung_findings};

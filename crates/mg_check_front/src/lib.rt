//! The first three rungs of a validation as one: the header, the page inventory, the transaction inventory.
//!
//! Owns: the list of what is found of the first of these rungs that has findings, and nothing of those behind it; and that
//! nothing is found exactly where the header, the page inventory and the transactions are as a sound image asks it.
//!
//! Invariant: none, it keeps no state. It reads pages that the caller lends, and takes memory for findings alone.
//! Below: `mg_check_inventory`, for two of the rungs; `mg_limbo_list` and `mg_check_pages`, for that of the header;
//! `mg_findings`, for lists of rungs. Above: nobody yet; the rungs behind, which read the catalog and tables.
//! Not here: those rungs.
#![tactic(auto)]

mod front;
mod laws;

pub use front::front_findings;
pub use laws::lawful_fronts_pass;

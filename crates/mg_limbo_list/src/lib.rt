//! The transactions in limbo of a file that is looked over, or why they are not told.
//!
//! Owns: the least finding of the two rungs of a validation that the list stands on, the header's and that of the
//! transaction inventory; what has become of each transaction of an image (`Tips`), by the numbers of its
//! inventory pages, which are looked up once; and the list of those in limbo.
//!
//! Invariant: that the numbers are those of the chain of an image (`IsTips`). It reads pages that the caller lends.
//! Below: `mg_check_pages` and `mg_check_inventory`, for the two rungs; `mg_tip`, for what a page says; `mg_image`,
//! for what has become of a transaction. Above: the command that prints the list.
//! Not here: how pages are read from a disk, and what is printed.
#![tactic(auto)]

mod header;
mod listing;
mod tips;

pub use header::check_header;
pub use listing::{Listed, limbo_of, list_limbo};
pub use tips::Tips;

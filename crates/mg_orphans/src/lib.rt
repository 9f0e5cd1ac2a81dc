//! Orphan pages: those that are marked as used in the page inventory, and that nothing reaches.
//!
//! Owns: the list of them, where it is known which pages are reached. A crash leaves such pages
//! wherever a page was taken and its link not written; they cost room, and nothing else.
//!
//! Invariant: none, it keeps no state. It goes once over the numbers that a page may have, and takes
//! memory for findings alone.
//! Below: `mg_check_inventory`, for the bits of pages; `mg_findings`, for lists of findings. Above:
//! nobody yet; a validation that has looked at all pages that are reached.
//! Not here: which pages are reached, and that orphans are released.
#![tactic(auto)]

mod orphans;

pub use orphans::orphan_findings;

//! Two rungs of a validation over the pages of a file, behind that of the header page: the page inventory, and then
//! the transaction inventory.
//!
//! Owns: what is found on each of these rungs, and that nothing is found exactly where this part of
//! a sound image holds. Each call goes once over the pages that it speaks of: the page inventory page
//! of each region, and the transaction inventory pages from the last one back, each of which has to
//! have the sequence that is asked of it, so that no ring of links is followed.
//!
//! Invariant: none, it keeps no state. It reads pages that the caller lends, and takes memory for
//! findings alone.
//! Below: `mg_check_pages`, `mg_pip` and `mg_tip`, for the tests of single pages; `mg_findings`, for
//! lists of findings; `mg_image`, for what a sound image is. Above: the rungs behind, which read the
//! catalog and tables.
//! Not here: which pages are reached, and by whom; what is used and not reached.
#![tactic(auto)]

mod inventory;
mod laws;
mod pages;
mod tips;
mod transactions;

pub use inventory::inventory_findings;
pub use laws::{lawful_inventories_pass, lawful_transactions_pass};
pub use pages::{check_bit, check_link, check_presence, page_of};
pub use tips::check_tips;
pub use transactions::transaction_findings;

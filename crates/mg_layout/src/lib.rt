//! Where the tables of an image stand: a slow program that follows the catalog to the pages of each
//! table, and tests whether a page is reached twice. Its contract is the definition.
//!
//! Owns: the layout of an image as a program has it (`Standing`), and what it is for an image to have
//! one (`HasPages`): the pages of the catalog and of each table are as wanted, the catalog's records
//! are lawful, and its rows name tables that fit the pages, whichever limbo transactions are
//! committed: the more of them are, the more tables there are. An image has one layout at most.
//!
//! The catalog's rows are tested under each two choices, one within the other, of the limbo
//! transactions that changed the catalog, so the time is three times as long with each of them.
//!
//! Invariant: none, it keeps no state.
//! Below: `mg_reading`, for the pages and the records of one table; `mg_catalog`, for the tables that
//! rows name; `mg_trees`, for the pages of an index. Above: the test of soundness as a whole.
//! Not here: the records of other tables than the catalog, and whether rows are found in indexes.
#![tactic(auto)]

mod catalog;
mod choices;
mod laws;
mod layout;
mod linked;
mod place;
mod standing;
mod tables;

pub use catalog::catalog_table;
pub use laws::one_layout;
pub use layout::layout_of;
pub use linked::are_pages_once;
pub use standing::{Standing, TableStand};

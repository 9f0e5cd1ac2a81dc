//! A rung of a validation: the pages of a table.
//!
//! Owns: what is found in the pages of a table from its first pointer page on, and that nothing is
//! found exactly where they are as a sound image asks it. One call goes once over the chain of
//! pointer pages, and over the entries of each. What stands behind a damaged pointer page is not
//! looked at; of the data pages that the others name each is. Another call lists the data pages, for
//! those who look at each of them by itself: what is found in all is the same.
//!
//! Invariant: none, it keeps no state. It reads pages that the caller lends, and takes memory for
//! findings alone. A pointer page has to have its place in the chain as its sequence, so no page is
//! met twice, and the chain has no more pages than an image has.
//! Below: `mg_check_data`, for one data page; `mg_pointer`, for pointer pages;
//! `mg_check_inventory`, for links, presence and bits. Above: the rung of the catalog's pages.
//! Not here: index trees, which tables there are, and whether two of them share a page.
#![tactic(auto)]

mod entries;
mod laws;
mod pointers;
mod seats;
mod table;

pub use laws::lawful_tables_pass;
pub use seats::{TableSeats, data_pages_of, table_seats};
pub use table::note_table;

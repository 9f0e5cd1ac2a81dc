//! The pointer page: the data pages of a table, in their order, and the table's next pointer page.
//! It reads and extends a page that the caller lends, and takes no memory.
//!
//! Owns: a page of kind 4, a list of page numbers with the number of a next page.
//!
//! | at | width | field |
//! |---|---|---|
//! | 0 | 16 | common part |
//! | 16 | 4 | page number of the table's next pointer page, 0 for none |
//! | 20 | 2 | count of the entries |
//! | 22 | 2 | zero |
//! | 24 | 4 each | entries: page numbers of data pages |
//!
//! A page has room for (P - 24) / 4 entries: 250 at P = 1024, 1,018 at P = 4096.
//!
//! Invariant: the count is at most that number. What lies behind the entries means nothing.
//! Below: `mg_base`, for fields, and the tests of a page. Above: `mg_space` and `mg_heap`, which
//! follow the entries.
//! Not here: whether an entry or the next page leads to a page of the table.
#![tactic(auto)]

mod entries;
mod next;
mod page;

pub use entries::{add_entry, entry};
pub use next::{next_of, set_next};
pub use page::{
    COUNT_AT, ENTRIES_AT, ENTRY_LEN, NEXT_AT, POINTER_KIND, UNUSED_AT, check_pointer, new_pointer,
};

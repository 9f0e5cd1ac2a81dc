//! The data page: a map from slot to cell. It reads, changes and tests one page that the caller
//! lends, and takes no memory.
//!
//! Owns: a page of kind 5. A record is named by its page and its slot, so a slot number is kept
//! until its cell is freed, wherever the cell is moved to.
//!
//! | at | width | field |
//! |---|---|---|
//! | 0 | 16 | common part |
//! | 16 | 2 | number of slots |
//! | 18 | 2 | lowest byte that a cell uses, P where there is none |
//! | 20 | 4 each | slots: an offset and a length, 2 bytes each, both 0 for a free slot |
//!
//! A cell takes its length, and at least 11 bytes, so that an anchor can replace any cell. A page
//! of P = 4096 has 4076 bytes for slots and cells: 92 records of an anchor and a version of 25
//! bytes each.
//!
//! Invariant (`IsDataPage`): the last slot is in use, the cells lie between the slots and the
//! page's end, and no two meet. After each change they lie from the end downward in the order of
//! their slots, with zero bytes between them and the slots (`IsPacked`).
//! Below: `mg_base`, for fields. Above: `mg_heap`, which keeps a table's data pages.
//! Not here: what a cell says, which page has room, and when a page may be written.
#![tactic(auto)]

mod change;
mod check;
mod layout;
mod page;
mod space;
mod verdict;

pub use change::{NoRoom, free, put_cell, replace};
pub use check::check_data;
pub use page::{
    COUNT_AT, DATA_KIND, GREATEST_SIZE, LEAST_SIZE, LEAST_TAKEN, LOW_AT, SLOT_LEN, SLOTS_AT, cell,
    new_data, slots,
};
pub use space::room;

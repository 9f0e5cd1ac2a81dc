//! A new table comes onto the pages: its first pointer page, and the rows of the catalog that say it, in one batch.
//!
//! Owns: that batch (`FillsTable`). A free page is taken and made the first pointer page of the table, which lists
//! nothing; the table's own row is put, and then those of its columns, each as the first version of a new record of
//! the catalog. So the catalog is never half written, whichever pages of the batch have reached the disk.
//!
//! Orders: those of each record (`first` of mg_chain), and the first pointer page with its inventory page before the
//! page that has the table's row.
//!
//! A catalog that gets a page within the batch may not have a row's slot on it: the new page is ordered before the
//! pointer page that lists it, and that one before the page of the slot. So where the batch is not lawful it is
//! dropped, the catalog gets one page in a batch of its own, and the table is put into a batch anew.
//!
//! Invariant: none of its own, it keeps no state.
//! Below: `mg_chain` for records, `mg_heap` for room, `mg_catalog` for rows, `mg_row_writes` for what a row stores and
//! what a batch owes. Above: `mg_table_making`, which has the memory of transactions.
//! Not here: whether the table may be made, and what is kept to be taken back.
#![tactic(auto)]

mod filling;
mod first_page;
mod growing;
mod making;
mod rows;
mod said;

pub use making::make_table;
pub use said::new_rows;

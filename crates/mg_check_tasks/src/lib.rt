//! The pages of a table, looked at by several threads: each data page is a task of its own, and what
//! is found is one list, the same for any number of threads.
//!
//! Owns: the division of the work, and the joining of what the tasks find. Nothing is shared but the
//! pages, which no task changes; pointer pages are followed in one thread, and the lists are joined in
//! one, in the order of the tasks.
//!
//! Invariant: none, it keeps no state. It reads pages that the caller lends; of a task it keeps what
//! was found.
//! Below: `mg_check_tables`, for the data pages of a table; `mg_check_data`, for one of them;
//! `mg_findings`, for lists of findings; `rayon` of the kit, for threads. Above: the rungs of the
//! pages of tables.
//! Not here: which tables there are.
#![tactic(auto)]

mod table;
mod tasks;

pub use table::table_findings;

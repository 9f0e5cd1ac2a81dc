//! A new database: its seven pages, and their writing.
//!
//! Owns: the bytes of the seven pages, for each page size. The rows of the catalog stand packed, as
//! constants.
//!
//! | page | what |
//! |---|---|
//! | 0 | header |
//! | 1 | page inventory page: pages 0 to 6 are used |
//! | 2 | transaction inventory page: number 0 is committed |
//! | 3, 4 | pointer page and data page of the catalog: the rows of KV and of its columns K and V |
//! | 5, 6 | pointer page and data page of the table KV, which is empty |
//!
//! The header is written last. So a disk on which the writing was stopped at any page write has no
//! database yet (`IsUnmade`), or the whole one (`IsMade`).
//! Invariant: none, it keeps no state.
//! Below: `mg_space`, for the cache and its faults; `mg_image`, which says what a new database is.
//! Above: `mg_core`, which opens a database.
//! Not here: when a database is made, and what a file is on which none may be made.
#![tactic(auto)]

mod catalog;
mod format;
mod pages;

pub use format::format_database;
pub use pages::new_page;

//! What a disk is asked before it is opened: its page size, its number of pages, and whether a database may
//! be made on it.
//!
//! Owns: the question (`ask`) and the test (`is_unmade`). A disk is unmade where page 0 is all zero, and
//! every other page is too or is, byte for byte, the page of that number in a new database: each crash while
//! a database is made leaves such a disk. A file whose first page alone is zero is not unmade, so a damaged
//! header never costs the data behind it.
//!
//! Pages past the greatest limit are no part of a database, and are not read. Where page 0 is not zero it
//! alone is read; else each page may be. Nothing is written.
//!
//! Invariant: none, it keeps no state and takes no memory. It asks the disk itself, and not a cache, which
//! would keep each page that it reads.
//! Below: `mg_format`, for the pages of a new database; `mg_base`, for the disk. Above: `mg_core`, which opens
//! a disk.
//! Not here: the making of a database, and its reading.
#![tactic(auto)]

mod disk;
mod pages;
mod survey;

pub use disk::is_unmade;
pub use survey::{Survey, ask};

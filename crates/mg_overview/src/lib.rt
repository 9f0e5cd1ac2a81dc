//! A file that is looked over: all its pages in memory, read once.
//!
//! Owns: the reading of a whole disk (`read_image`). It asks for the page size and the number of pages once each, and
//! reads each page once, the first one first. Pages from the greatest limit on are no part of a database, and are
//! not read. Nothing is written.
//!
//! Invariant: none, it keeps no state. It takes the memory of the pages, at most 131,072 of them.
//! Below: `mg_base`, for the disk; `mg_pool`, for what a call leaves that only reads; `mg_space`, for runs of such calls.
//! Above: what looks at a whole file, and works on no database.
//! Not here: what the pages say.
#![tactic(auto)]

mod reading;

pub use reading::{ReadFault, WholeImage, read_image};

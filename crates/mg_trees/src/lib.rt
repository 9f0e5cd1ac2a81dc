//! The plain reading of index trees: a slow program whose contract is the definition. It answers
//! which pages a tree has, and whether the row of a record is found in it, and refuses an image
//! only where there is no tree.
//!
//! Owns: the levels of a tree as a program reads them (`Levels`), the tests of a tree's pages, and
//! the search from a root.
//!
//! Invariant: none, it keeps no state.
//! Below: `mg_reading`, for the image; `mg_node`, for one page; `mg_sortkey`, for keys. Above:
//! `mg_check`.
//! Not here: that every entry of a tree leads to a row, and that a page stands in one tree alone.
#![tactic(auto)]

mod compare;
mod levels;
mod nodes;
mod page;
mod search;
mod tree;

pub use levels::{Level, Levels};
pub use search::is_found_in;
pub use tree::read_tree;

//! Changes of index pages: new and copied pages, entries that come and go, and splits.
//! Each changes pages that the caller lends, and takes no memory.
//!
//! Owns: nothing. The layout of an index page is `mg_node`'s.
//!
//! Invariant: each change makes a lawful page of a lawful one (`IsNodePage`), an ordered set of
//! entries between two fences: `insert` adds one entry, `remove` takes one out, `split` leaves the
//! first entries and moves the others to a right page.
//! Below: `mg_node`, for what a page says. Above: the index trees.
//! Not here: which pages a tree takes, and in which order they are written.
#![tactic(auto)]

mod bytes;
mod fields;
mod inserting;
mod laws;
mod new;
mod removing;
mod seat;
mod splitting;

pub use inserting::{NoRoom, insert};
pub use laws::{first_stays, taken_after_split};
pub use new::{copy_node, new_node};
pub use removing::remove;
pub use splitting::split;

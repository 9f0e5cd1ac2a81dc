//! The meaning of an image: when a database file is sound, and what it holds. Every promise about
//! crashes is judged by these definitions.
//!
//! Owns: the meaning of all pages together (`specs/`). From below upward: the states of
//! transactions and the page inventory, the pages of tables, the versions of records, index trees,
//! soundness, and what is held.
//!
//! What a reader finds for each record of an image is a `Reading`: the list of its versions, the
//! newest first. An image has one at most. An image is sound where it has a reading and a layout
//! (`IsSound`), and it holds the rows that the reading shows as committed (`IsHeld`).
//!
//! Invariant: none, it keeps no state.
//! Below: the crates of each kind of page, of cells and of rows, for what one page, cell or row
//! says; `mg_model`, for what the catalog names and what a history holds. Above: `mg_reading`,
//! which reads images by these definitions, `mg_engine`, and the program's promise.
//! Not here: how pages are read or changed, and in which order they are written.
#![tactic(auto)]

mod entry;
mod laws;

pub use entry::{Entry, PRIMARY_VERSION};
pub use laws::one_reading;

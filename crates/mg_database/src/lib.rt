//! A database is opened and closed, below the engine.
//!
//! Owns: three calls. `prepare` takes a disk: where a database may be made on it, a new one is written, and
//! any other disk is only asked. `load` reads what an engine has in memory of the pages, from page 0 and the
//! transaction inventory pages, and tests the pages of the catalog; it reads nothing else. `finish` writes every
//! dirty page, each after those that must precede it, and settles the disk.
//!
//! The catalog's pages are tested as pages. What stands in them is read when a table is asked for.
//!
//! Invariant: none, it keeps no state. A cache that was prepared has no dirty page (`IsPrepared`), and
//! `load` leaves it as it was but for what it read (`KeepsStore`).
//! Below: `mg_survey`, for what a disk is asked; `mg_format`, for a new database; `mg_heap`, for the
//! catalog's pages; `mg_txlist` and `mg_snap`, for what is in memory. Above: `mg_core`, the engine's calls.
//! Not here: histories, and what is in memory of those who are active.
#![tactic(auto)]

mod catalog;
mod fault;
mod finishing;
mod loading;
mod preparing;
mod tested;

pub use fault::OpenFault;
pub use finishing::finish;
pub use loading::{Loaded, load};
pub use preparing::prepare;

//! A batch of its own: it is filled by a call that only reads, tested, and then changed by the cache as a whole.
//!
//! Owns: `change_batch`, which changes a batch if it is lawful; what a call does that fills a fresh batch and has it
//! changed (`ChangesOwn`), and what is so where that does not come about (`FailsOwn`): either way each overlay is as the
//! batch says, or no content has changed. `unlawful` is what is told of that which no lawful caller asks for.
//!
//! Definitions: `specs/Batches`; `BatchLaws` tells of a batch that was filled whether it came to be changed.
//!
//! Invariant: none, it keeps no state.
//! Below: `mg_pool`, which changes a batch; `mg_space`, who fills one. Above: `mg_entries` and `mg_row_writes`, the entries
//! and the versions of rows; whoever else changes pages in a batch of its own.
//! Not here: what a batch has, and which of its pages is written before which.
#![tactic(auto)]

mod changing;

pub use changing::{change_batch, unlawful};

//! The active transactions that an engine has in memory.
//!
//! Owns: `Works`, a list of what is known of each active transaction: its session and its mode, what it
//! has to take back, the tables that were given to it, and whether it has asked for its commit.
//!
//! A call names a transaction by its number; where that one is not in the list, nothing changes.
//!
//! Invariant: each transaction stands once, each session has one at most and is below 32, and each table
//! that was given has no more columns than tables have, and begins at a page below the greatest limit.
//! Below: `mg_undo`, for what is taken back. Above: the engine.
//! Not here: what has become of transactions, their bases, and who waits for whom.
#![tactic(auto)]

mod work;
mod works;

pub use work::Work;
pub use works::Works;

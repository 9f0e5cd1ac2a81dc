//! The end of a script, over any keeper of records: the live transactions are rolled back, in the order of their
//! sessions.
//!
//! Owns: `roll_back_all`, and `told`, which of the refusals there the end is told by. What comes of it is `AreRolledBack` of `mg_transcript`, for each history that the keeper
//! stood for. Statements that are held or wait do not go on any more: who ends a script has let them go before.
//!
//! Invariant: none of its own; that of the transactions is `AreReady` of `mg_pending`, with no statement.
//! Below: `mg_pending`, `mg_sessions` for its accounts. Above: whole scripts.
#![tactic(auto)]

mod ending;

pub use ending::{roll_back_all, told};

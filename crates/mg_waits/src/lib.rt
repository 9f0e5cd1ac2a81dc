//! Who waits for whom, and what a transaction is told of another one that is in its way.
//!
//! Owns: `Waits`, a map from each transaction that waits to the one that it waits for. It knows
//! nothing of rows and statements: who is in the way of whom, and what has become of that one, the
//! caller says.
//!
//! Invariant: a transaction waits for one other at most. Nothing keeps the waits from going round:
//! a verdict is given on any of them.
//! Below: `mg_base`, and `mg_model` for the laws. Above: the engine, which notes a wait where it
//! answers one, and ends it with the transaction's next event.
//! Not here: who is in the way, the states of transactions, and the parked statements.
#![tactic(auto)]

mod laws;
mod verdict;
mod waits;

pub use laws::{notes_follow_the_machine, verdicts_are_the_machines};
pub use verdict::Verdict;
pub use waits::Waits;

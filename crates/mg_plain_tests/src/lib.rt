//! Tests of the plain machine: scenarios of several transactions, each answer written by hand from the rules, and walks
//! of it as a keeper of records, over a table and by its index.
//!
//! Owns: nothing but the tests. They stand apart from what they test, so that the machine is proved once, and not again
//! with its tests.
//!
//! Invariant: none, it keeps no state.
//! Below: `mg_plain`, and what its events are made of. Above: nothing.
//! Not here: statements and scripts. They are rows of `mg_worked_runs`.
#![tactic(auto)]

#[cfg(test)]
mod tests;

//! Tests of the command that prints the transactions in limbo: what no clause says, that it succeeds with ample memory,
//! and which numbers and words its lines have.
//!
//! Owns: nothing but the tests. They stand apart from `mg_limbo_report`, so that it is proved once, and not again with
//! its tests.
//!
//! Invariant: none, it keeps no state.
//! Below: `mg_limbo_report`; `mg_format`, for the pages of a new database. Above: nothing.
//! Not here: the words of the command, and real files.
#![tactic(auto)]

#[cfg(test)]
mod tests;

//! Tests of the command that prints the figures of a file: what no clause says, that it succeeds with ample memory, and
//! which numbers and words its lines have.
//!
//! Owns: nothing but the tests. They stand apart from `mg_stat_report`, so that it is proved once, and not again with its
//! tests.
//!
//! Invariant: none, it keeps no state.
//! Below: `mg_stat_report`; `mg_format`, for the pages of a new database. Above: nothing.
//! Not here: the words of the command, real files, and tables with rows, which `mg_worked_runs` has.
#![tactic(auto)]

#[cfg(test)]
mod tests;

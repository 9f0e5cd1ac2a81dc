//! Tests of SQL, a module for each crate that they test: texts are parsed and bound, expressions
//! computed, and what comes is compared with what the rules of the language say, written by hand; so
//! are command lines.
//!
//! Owns: nothing but the tests. They stand apart from what they test, so that each library is proved
//! once, and not again with its tests.
//!
//! Invariant: none, it keeps no state.
//! Below: `mg_expr`, `mg_statements`, `mg_sql`, `mg_plan` and `mg_words`. Above: nothing.
//! Not here: statements that run, and lines of scripts. They are rows of `mg_worked_runs`.
#![tactic(auto)]

#[cfg(test)]
mod tests;

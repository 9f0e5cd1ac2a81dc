//! Tests of the words of every command: tables of command lines as a shell gives them.
//!
//! Owns: nothing but the tests. They stand apart from `mg_commands`, so that it is proved once, and
//! not again with its tests.
//!
//! Invariant: none, it keeps no state.
//! Below: `mg_commands`. Above: nothing.
//! Not here: what a command does.
#![tactic(auto)]

#[cfg(test)]
mod tests;

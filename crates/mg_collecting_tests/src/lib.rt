//! Tests of a collection: what no clause says, that it succeeds with ample memory, and whose versions remain.
//!
//! Owns: nothing but the tests. They stand apart from `mg_collecting`, so that it is proved once, and not again with its
//! tests.
//!
//! Invariant: none, it keeps no state.
//! Below: `mg_collecting`; `mg_slots`, for records as bytes of the file format. Above: nothing.
#![tactic(auto)]

#[cfg(test)]
mod tests;

//! Tests of what stands on a page: fields, values, rows, cells, and each kind of page, a module for
//! each crate that they test. Expected bytes are written by hand.
//!
//! Owns: nothing but the tests. They stand apart from what they test, so that each library is
//! proved once, and not again with its tests.
//!
//! Invariant: none, it keeps no state.
//! Below: the crates of pages, from `mg_base` up, and `mg_format`, which makes the first ones of a
//! database. Above: nothing.
//! Not here: the cache, and pages that lead to others (`mg_cache_tests`, `mg_image_tests`).
#![tactic(auto)]

#[cfg(test)]
mod tests;

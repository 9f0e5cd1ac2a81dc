//! Tests of whole databases, a module for each crate that they test: catalogs, images of pages,
//! their tables, trees and soundness, and records that are looked for through the cache. The pages
//! are made by hand, and the expected answers too. The laws of overlays are looked at from outside
//! as well: their premises can be met. Batches of three pages on a small image are laid over it
//! page by page; each set of pages that the orders of the batch allow is judged by the test of
//! soundness, and some sets that they do not allow.
//!
//! Owns: nothing but the tests, and the pages and tables that they begin with. They stand apart
//! from what they test, so that each library is proved once, and not again with its tests.
//!
//! Invariant: none, it keeps no state.
//! Below: the crates from `mg_catalog` and `mg_reading` up to `mg_soundness`, and `mg_seek`. Above:
//! nothing.
//! Not here: what stands on one page (`mg_page_tests`), and writing (`mg_cache_tests`).
#![tactic(auto)]

#[cfg(test)]
mod tests;

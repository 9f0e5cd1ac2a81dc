//! Tests of the cache and of what is read and written through it, a module for each crate that they
//! test: devices, orders of page writes, the pool, pages that are taken, tables, version chains and
//! index trees; and of what the engine keeps in memory alone. Expected bytes are written by hand.
//!
//! Owns: nothing but the tests, and the stores that they begin with. They stand apart from what
//! they test, so that each library is proved once, and not again with its tests.
//!
//! Invariant: none, it keeps no state.
//! Below: the crates from `mg_device` and `mg_careful` up to `mg_chain` and `mg_btree`, and
//! `mg_snap`, `mg_undo`, `mg_waits` and `mg_works`. Above: nothing.
//! Not here: what stands on one page (`mg_page_tests`), and whole databases (`mg_image_tests`).
#![tactic(auto)]

#[cfg(test)]
mod tests;

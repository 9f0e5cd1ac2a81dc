//! The page cache as the laws of overlays see it.
//!
//! Owns: the tie between the two. Page writes of the pool are page writes of the family, a batch that
//! the pool has changed is one of the family, and which dirty pages a transaction needs is told by
//! marks: one that has not asked for its commit needs every dirty page, one that has needs those that
//! were marked for its session then, as long as they are dirty (`needs_by`).
//!
//! All stands in `specs/`: the definitions in `Needs`, what counts in `Laws`, and `Ties` proves it.
//! There is no program here: each function does nothing, and its contract is a law.
//!
//! Invariant: none, it keeps no state.
//! Below: `mg_pool`, the page cache; `mg_overlay_laws`, the family. Above: the engine, which keeps every
//! overlay from call to call.
//! Not here: what an overlay has to be.
#![tactic(auto)]

mod laws;

pub use laws::{changes_are, needs_go_on, page_writes_are};

//! What is collected on the pages, as the laws on overlays take it.
//!
//! Owns: that a version which is dropped right behind a committed one, in a batch of its own (`DropsBehind` of
//! `mg_chain`), keeps every overlay, whoever is chosen and whatever the history is (`DropKeeps`). What is asked of the
//! record is said of each reading: it is one of a table, and has the version that leads past the dropped one, a
//! committed one. That the dropped one stands right behind it follows from the cells. And the same of a record's newest
//! version that is taken out (`TakesOut`) by nobody's work: a dead transaction's, or a committed deletion that is the only
//! one (`DeadKeeps`, `EraseKeeps`).
//!
//! All stands in `specs/`. There is no program here: each function does nothing, and its contract is the law.
//!
//! Invariant: none, it keeps no state.
//! Below: `mg_chain`, for the batch; `mg_tie_laws`, for cells that are put and freed; `mg_collect_overlay_laws`, for the law on
//! overlays. Above: `mg_engine_collecting_laws`.
//! Not here: whom a dropped version would have served (`mg_generation_laws`, `mg_snap`).
#![tactic(auto)]

mod laws;

pub use laws::{drops_keep, takings_out_keep};
